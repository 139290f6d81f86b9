// A filter for tests: each line of the input is one case, and gives one line of output (README.md says which). It shows the
// calls of the libraries from outside, so that a run can be compared with what another program makes of the same cases.
#![tactic(auto)]

ghost use Rattle.std.specs.Prelude.{◌≡◌, [], vec_len, IfOk};

mod bench_puts;
mod benches;

use case_answers::{answers, lengths};
use case_items::{headers, items};
use case_puts::changes;
use case_requests::requests;
use case_stores::{knowledges, stores};
use case_words::{say, words};
use std::alloc::{AllocError, Global};
use std::io;
use std::io::{BufWriter, Read, Write};

// An input has fewer bytes than this.
const INPUT_ROOM: usize = 4194304;

// Room for the input, which is empty before it is read.
fn input_space(alloc: Global) -> Result<Vec<u8>, AllocError>
    ensures { IfOk result (λ v. v.items ≡ []) }
{
    Vec::with_capacity(alloc, INPUT_ROOM)
}

// Room for the bytes that a case spells in hex.
fn data_space(alloc: Global) -> Result<Vec<u8>, AllocError>
    ensures { IfOk result (λ v. vec_len v ≡ 1048576) }
{
    vec![in alloc; 0; 1048576]
}

// Here and below a mode has one function, which writes the result; `one_line` ends the line. These read a single item or a whole.
fn item<W: Write>(to: &mut W, mode: &[u8], s: &[u8]) -> io::Result<()> {
    match mode {
        b"compact" => items::compact(to, s),
        b"exguid" => items::exguid(to, s),
        b"serial" => items::serial(to, s),
        b"header" => headers::header(to, s),
        b"store" => stores::rows(to, s),
        b"knowledge" => knowledges::rows(to, s),
        b"request" => requests::message(to, s),
        b"read" => benches::read(to, s),
        b"read_put" => bench_puts::read(to, s),
        _ => say::bad(to),
    }
}

// `MODE HEX`
fn two_words<W: Write>(to: &mut W, line: &[u8], space: &mut [u8]) -> io::Result<()> {
    let Some((s, _)) = words::bytes(words::word(line, 1), space) else {
        return say::bad(to);
    };
    item(to, words::word(line, 0), s)
}

// `MODE NUMBER OUTLEN`, `element STOREHEX POSITION`, `rewritten HEX OUTLEN`,
// `chosen STOREHEX REQUESTHEX` or `received ANSWERHEX POSITION`.
fn three_words<W: Write>(to: &mut W, line: &[u8], space: &mut [u8]) -> io::Result<()> {
    match words::word(line, 0) {
        b"wcompact" => items::wcompact(to, line),
        b"wend" => headers::wend(to, line),
        b"element" => stores::element(to, line, space),
        b"rewritten" => knowledges::rewritten(to, line, space),
        b"chosen" => requests::chosen(to, line, space),
        b"received" => benches::element(to, line, space),
        _ => say::bad(to),
    }
}

// `MODE GUIDHEX NUMBER OUTLEN`, or `known HEX GUIDHEX NUMBER`.
fn four_words<W: Write>(to: &mut W, line: &[u8], space: &mut [u8]) -> io::Result<()> {
    match words::word(line, 0) {
        b"wexguid" => items::wexguid(to, line),
        b"wserial" => items::wserial(to, line),
        b"known" => knowledges::known(to, line, space),
        _ => say::bad(to),
    }
}

// `MODE TYPE COMPOUND LENGTH OUTLEN`
fn five_words<W: Write>(to: &mut W, line: &[u8]) -> io::Result<()> {
    match words::word(line, 0) {
        b"wstart" => headers::wstart(to, line),
        _ => say::bad(to),
    }
}

// `length STOREHEX REQUESTHEX OFFERED STORETABLELEN KNOWTABLELEN`, `write STOREHEX REQUESTHEX OUTLEN STORETABLELEN KNOWTABLELEN`,
// `ask ID LIMIT FILTERHEX KNOWLEDGEHEX OUTLEN` or `put STOREHEX REQUESTHEX HUBGUIDHEX NEWSTORELEN OUTLEN`
fn six_words<W: Write>(to: &mut W, line: &[u8], space: &mut [u8]) -> io::Result<()> {
    match words::word(line, 0) {
        b"length" => lengths::offered(to, line, space),
        b"write" => answers::written(to, line, space),
        b"ask" => benches::asked(to, line, space),
        b"put" => changes::handed(to, line, space),
        _ => say::bad(to),
    }
}

// `ask_put ID NAMED GUIDHEX NUMBER ELEMENTSHEX OUTLEN`
fn seven_words<W: Write>(to: &mut W, line: &[u8], space: &mut [u8]) -> io::Result<()> {
    match words::word(line, 0) {
        b"ask_put" => bench_puts::asked(to, line, space),
        _ => say::bad(to),
    }
}

// The modes go by how many words a case has, so that a word too many or too few is told.
fn one_case<W: Write>(to: &mut W, line: &[u8], space: &mut [u8]) -> io::Result<()> {
    match words::count(line) {
        2 => two_words(to, line, space),
        3 => three_words(to, line, space),
        4 => four_words(to, line, space),
        5 => five_words(to, line),
        6 => six_words(to, line, space),
        7 => seven_words(to, line, space),
        _ => say::bad(to),
    }
}

fn one_line<W: Write>(to: &mut W, line: &[u8], space: &mut [u8]) -> io::Result<()> {
    one_case(to, line, space)?;
    say::text(to, "\n")
}

// The last line may lack its end.
fn every_line<W: Write>(to: &mut W, input: &[u8], space: &mut [u8]) -> io::Result<()> {
    for ended in input.split_inclusive(|b| *b == b'\n') {
        let line = ended.strip_suffix(b"\n").unwrap_or(ended);
        one_line(to, line, space)?;
    }
    Ok(())
}

// An input that fills its room may go on, and then its last case would be half a case.
fn run<R: Read + Drop, W: Write>(
    from: R,
    to: &mut W,
    input: &mut Vec<u8>,
    space: &mut [u8],
) -> io::Result<()> {
    from.take(INPUT_ROOM as u64).read_to_end(input)?;
    if input.len() == INPUT_ROOM {
        return say::text(to, "the input is too long\n");
    }
    every_line(to, input.as_slice(), space)
}

fn main(rt: HostRuntime) -> io::Result<()> {
    let mut input = input_space(rt.alloc())?;
    let mut space = data_space(rt.alloc())?;
    let mut to = BufWriter::new(rt.alloc(), io::writer(&rt))?;
    run(rt.reader(), &mut to, &mut input, space.as_mut_slice())?;
    to.flush()
}
