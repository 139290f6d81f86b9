// The mode for the call that writes an answer: what it answers to a store and a request, and that it left alone what is not the
// answer's.
ghost use Rattle.std.specs.Prelude.{◌≤◌, length};

use crate::tables;
use crate::tables::{Ends, TABLE_NUMBERS, Tables};
use case_words::{say, words};
use numbers::refusal::Refusal;
use pages::answer;
use std::io;
use std::io::Write;

// Room for the longest output that is lent, new for each case.
const OUTPUT_ROOM: usize = 1048576;

// The answer's bytes and the rows of both tables; or that something behind them was changed. Lengths that no answer has count as
// that.
fn sent<W: Write>(
    to: &mut W,
    whole: usize,
    n: usize,
    count: usize,
    out: &[u8],
    t: &Tables,
) -> io::Result<()> {
    let Some((told, behind)) = out.split_at_checked(whole) else {
        return say::touched(to);
    };
    if !say::untouched(behind) {
        return say::touched(to);
    }
    t.told(to, n, count, |to| say::bytes(to, told))
}

// A refusal; or that something was changed.
fn refused<W: Write>(to: &mut W, r: Refusal, out: &[u8], t: &Tables) -> io::Result<()> {
    if !say::untouched(out) {
        return say::touched(to);
    }
    t.refused(to, r)
}

// The call, lent as much as the case says, and what it answers. Output and tables are looked at whole, what is not lent of them
// too. The tables are new for each case, in a function of their own, as the output below.
#[inline(never)]
fn asked<W: Write>(
    to: &mut W,
    store: &[u8],
    request: &[u8],
    room: usize,
    l: Ends,
    out: &mut [u8],
) -> io::Result<()>
    requires { (room ≤ length out.old) × (l.rows ≤ TABLE_NUMBERS) × (l.ranges ≤ TABLE_NUMBERS) }
{
    let mut t = Tables::new();
    match answer::write(
        store,
        request,
        &mut t.rows[..l.rows],
        &mut t.ranges[..l.ranges],
        &mut out[..room],
    ) {
        Ok(x) => sent(to, x.length, x.rows, x.ranges, out, &t),
        Err(r) => refused(to, r, out, &t),
    }
}

// The output, new for each case. It stands in a function of its own behind the words that are read first, so that neither a line
// without these nor another mode pays for it.
#[inline(never)]
fn output_lent<W: Write>(to: &mut W, line: &[u8], store: &[u8], request: &[u8]) -> io::Result<()> {
    let mut out = say::output_space::<OUTPUT_ROOM>();
    let Some(room) = words::lent(words::word(line, 3), &out) else {
        return say::bad(to);
    };
    let Some(l) = tables::lent(line) else {
        return say::bad(to);
    };
    asked(to, store, request, room, l, &mut out)
}

// `write STOREHEX REQUESTHEX OUTLEN STORETABLELEN KNOWTABLELEN`: the bytes of both inputs stand in one space, the request's
// behind the store's.
pub fn written<W: Write>(to: &mut W, line: &[u8], space: &mut [u8]) -> io::Result<()> {
    let Some((store, request)) = words::two(words::word(line, 1), words::word(line, 2), space)
    else {
        return say::bad(to);
    };
    output_lent(to, line, store, request)
}
