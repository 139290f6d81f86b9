// The modes for a knowledge: its ranges, its bytes written again, and whether it has a number.
ghost use Rattle.std.specs.Prelude.{◌*◌, ◌≤◌, length, IsTrue};
ghost use Rattle.talk.specs.Ranges.{Normal};
ghost use Rattle.numbers.specs.Compact.{padding_refused};
ghost use Rattle.objects.specs.Results.Reading.{At};
ghost use Rattle.ranges.specs.RangeTable.{range_width, ranges_at};
ghost use Rattle.store.specs.Knowledge.{most_said, knowledge_at, ReadsKnowledge};

use crate::stores::{UNTOUCHED, untouched};
use case_words::{say, words};
use numbers::compact::PADDING_REFUSED;
use numbers::guid::Guid;
use numbers::refusal::Refusal;
use ranges::{RANGE_WIDTH, is_known};
use std::io;
use std::io::Write;
use store::knowledge::{MOST_SAID, ReadKnowledge, SAID_NUMBERS, read_knowledge};
use store::knowledge_write::write_knowledge;

// A knowledge stands in an open sub-request. Request, sub-request, knowledge and specialized knowledge are then four open
// objects, and leave twelve of sixteen.
const SUB_REQUEST: u64 = 0x42;

const LEVELS: usize = 12;

// The first n rows of the table. The working table has a GUID as two numbers with the first byte highest; document 01's
// knowledge table has little-endian numbers, and these are told.
pub fn every_row<W: Write>(to: &mut W, t: &[u64], n: usize) -> io::Result<()>
    requires { n * range_width ≤ length t.now }
{
    say::table(to, &t[..n * RANGE_WIDTH], RANGE_WIDTH, 2)
}

// A range takes at least so many bytes: its header two, its GUID sixteen, and one for each end. An entry that adds one takes more.
const LEAST_RANGE: usize = 20;

// At most so many ranges come from s.
fn ranges_in(s: &[u8]) -> usize
    ensures { result ≤ most_said }
{
    (s.len() / LEAST_RANGE).min(MOST_SAID)
}

// Whether no number was changed behind the rows of as many ranges as the bytes of s have room for. Before that a row may be left
// from before it was joined with another.
pub fn kept(s: &[u8], t: &[u64; SAID_NUMBERS]) -> bool {
    untouched(&t[ranges_in(s) * RANGE_WIDTH..])
}

// Whether so many ranges may come from s, and the rest of the table was kept. No knowledge may hold more than `MOST_SAID`.
pub fn as_read(s: &[u8], n: usize, t: &[u64; SAID_NUMBERS]) -> bool
    ensures { IsTrue result → n ≤ most_said }
{
    n <= MOST_SAID && kept(s, t)
}

// The place behind the knowledge, and its rows; or that numbers were changed behind what its ranges can reach. More ranges than a
// knowledge may hold count as that.
fn held<W: Write>(
    to: &mut W,
    s: &[u8],
    place: usize,
    n: usize,
    t: &[u64; SAID_NUMBERS],
) -> io::Result<()> {
    if !as_read(s, n, t) {
        return say::touched(to);
    }
    say::ok(to)?;
    say::number(to, place as u64)?;
    every_row(to, t, n)
}

// A refusal; or that numbers were changed behind what its ranges can reach.
pub fn refused<W: Write>(
    to: &mut W,
    s: &[u8],
    r: Refusal,
    t: &[u64; SAID_NUMBERS],
) -> io::Result<()> {
    if !kept(s, t) {
        return say::touched(to);
    }
    say::refusal(to, r)
}

// The knowledge at the front of s, read as in a request: padding is refused. Each mode calls it and matches by itself, not through a
// closure: what `asked` needs of the rows is known only where `read` says it.
fn read(s: &[u8], t: &mut [u64; SAID_NUMBERS]) -> ReadKnowledge
    ensures { ReadsKnowledge (knowledge_at padding_refused most_said 12 0x42 s.now t.old (At 0 0)) result t.new }
{
    read_knowledge(
        s,
        Ok((0, 0)),
        SUB_REQUEST,
        LEVELS,
        MOST_SAID,
        t,
        PADDING_REFUSED,
    )
}

// `knowledge HEX`
pub fn rows<W: Write>(to: &mut W, s: &[u8]) -> io::Result<()> {
    let mut t = [UNTOUCHED; SAID_NUMBERS];
    match read(s, &mut t) {
        Ok((place, n)) => held(to, s, place, n, &t),
        Err(r) => refused(to, s, r, &t),
    }
}

// The knowledge of n rows, written to the first bytes of out, of which all are looked at; or that numbers were changed behind what its
// ranges can reach.
fn written<W: Write>(
    to: &mut W,
    s: &[u8],
    t: &[u64; SAID_NUMBERS],
    n: usize,
    out: &mut [u8],
    room: usize,
) -> io::Result<()>
    requires { room ≤ length out.old }
{
    if !as_read(s, n, t) {
        return say::touched(to);
    }
    let wrote = write_knowledge(&mut out[..room], t, n);
    say::written(to, wrote, out)
}

// The knowledge at the front of s, read and written again; if it is not read, nothing is written.
fn read_and_written<W: Write>(to: &mut W, s: &[u8], out: &mut [u8], room: usize) -> io::Result<()>
    requires { room ≤ length out.old }
{
    let mut t = [UNTOUCHED; SAID_NUMBERS];
    match read(s, &mut t) {
        Ok((_, n)) => written(to, s, &t, n, out, room),
        Err(r) => refused(to, s, r, &t),
    }
}

// `rewritten HEX OUTLEN`. There is room for the longest knowledge that is written, and more: 512 ranges of 36 bytes, with 28 around
// them. It is a function of its own when it is compiled, so that another mode does not pay for its room.
#[inline(never)]
pub fn rewritten<W: Write>(to: &mut W, line: &[u8], space: &mut [u8]) -> io::Result<()> {
    let mut out = say::output_space::<20000>();
    let Some((s, _)) = words::bytes(words::word(line, 1), space) else {
        return say::bad(to);
    };
    let Some(room) = words::lent(words::word(line, 2), &out) else {
        return say::bad(to);
    };
    read_and_written(to, s, &mut out, room)
}

// Whether the number is known under the GUID; or that numbers were changed behind what its ranges can reach.
fn asked<W: Write>(
    to: &mut W,
    s: &[u8],
    t: &[u64; SAID_NUMBERS],
    n: usize,
    g: Guid,
    number: u64,
) -> io::Result<()>
    requires { Normal (ranges_at t.now 0 n) }
{
    if !as_read(s, n, t) {
        return say::touched(to);
    }
    say::ok(to)?;
    say::number(to, u64::from(is_known(t, n, g, number)))
}

// The knowledge at the front of s, asked for one number.
fn read_and_asked<W: Write>(to: &mut W, s: &[u8], g: Guid, number: u64) -> io::Result<()> {
    let mut t = [UNTOUCHED; SAID_NUMBERS];
    match read(s, &mut t) {
        Ok((_, n)) => asked(to, s, &t, n, g, number),
        Err(r) => refused(to, s, r, &t),
    }
}

// What a case asks of a knowledge.
#[derive(Drop)]
struct Question<'a> {
    knowledge: &'a [u8],
    guid: Guid,
    number: u64,
}

fn spelled<'a>(line: &[u8], space: &'a mut [u8]) -> Option<Question<'a>> {
    let (knowledge, _) = words::bytes(words::word(line, 1), space)?;
    let guid = words::guid(words::word(line, 2))?;
    let number = words::number(words::word(line, 3))?;
    Some(Question {
        knowledge,
        guid,
        number,
    })
}

// `known HEX GUIDHEX NUMBER`
pub fn known<W: Write>(to: &mut W, line: &[u8], space: &mut [u8]) -> io::Result<()> {
    let Some(x) = spelled(line, space) else {
        return say::bad(to);
    };
    read_and_asked(to, x.knowledge, x.guid, x.number)
}
