// The mode for a put: what it answers and what the store then is, and that both buffers keep what is not written.
ghost use Rattle.std.specs.Prelude.{◌≤◌, length, IfSome};

use case_words::{say, words};
use numbers::guid::Guid;
use numbers::refusal::Refusal;
use puts::apply::put;
use std::io;
use std::io::Write;

// Room for the longest buffer that is lent, new for each case.
const BUFFER_ROOM: usize = 1048576;

// How much of both buffers a case lends.
#[derive(Drop)]
struct Rooms {
    store: usize,
    out: usize,
}

// The last two words of the line.
fn lent(line: &[u8], newstore: &[u8], out: &[u8]) -> Option<Rooms>
    ensures { IfSome result (λ l. (l.store ≤ length newstore.now) × (l.out ≤ length out.now)) }
{
    let store = words::lent(words::word(line, 4), newstore)?;
    let out = words::lent(words::word(line, 5), out)?;
    Some(Rooms { store, out })
}

// The answer's bytes and the new store's; or that something behind them was changed.
fn entered<W: Write>(
    to: &mut W,
    whole: usize,
    n: usize,
    newstore: &[u8],
    out: &[u8],
) -> io::Result<()> {
    let Some((answer, behind_answer)) = out.split_at_checked(whole) else {
        return say::touched(to);
    };
    let Some((store, behind_store)) = newstore.split_at_checked(n) else {
        return say::touched(to);
    };
    if !say::untouched(behind_answer) || !say::untouched(behind_store) {
        return say::touched(to);
    }
    say::ok(to)?;
    say::bytes(to, answer)?;
    say::bytes(to, store)
}

// A refusal; or that something was changed.
fn refused<W: Write>(to: &mut W, r: Refusal, newstore: &[u8], out: &[u8]) -> io::Result<()> {
    if !say::untouched(newstore) || !say::untouched(out) {
        return say::touched(to);
    }
    say::refusal(to, r)
}

// The call, lent as much as the case says. Both buffers are looked at whole, what is not lent of them too.
fn applied<W: Write>(
    to: &mut W,
    store: &[u8],
    request: &[u8],
    g: Guid,
    l: Rooms,
    newstore: &mut [u8],
    out: &mut [u8],
) -> io::Result<()>
    requires { (l.store ≤ length newstore.old) × (l.out ≤ length out.old) }
{
    match put(
        store,
        request,
        g,
        &mut newstore[..l.store],
        &mut out[..l.out],
    ) {
        Ok((whole, k)) => entered(to, whole, k, newstore, out),
        Err(r) => refused(to, r, newstore, out),
    }
}

// Both buffers, new for each case. They stand in a function of their own behind the words that are read first, so that neither a line
// without these nor another mode pays for them.
#[inline(never)]
fn buffers_lent<W: Write>(
    to: &mut W,
    line: &[u8],
    store: &[u8],
    request: &[u8],
    hub: Guid,
) -> io::Result<()> {
    let mut newstore = say::output_space::<BUFFER_ROOM>();
    let mut out = say::output_space::<BUFFER_ROOM>();
    let Some(l) = lent(line, &newstore, &out) else {
        return say::bad(to);
    };
    applied(to, store, request, hub, l, &mut newstore, &mut out)
}

// `put STOREHEX REQUESTHEX HUBGUIDHEX NEWSTORELEN OUTLEN`: the bytes of both inputs stand in one space, the put's behind the store's.
pub fn handed<W: Write>(to: &mut W, line: &[u8], space: &mut [u8]) -> io::Result<()> {
    let Some((store, request)) = words::two(words::word(line, 1), words::word(line, 2), space)
    else {
        return say::bad(to);
    };
    let Some(hub) = words::guid(words::word(line, 3)) else {
        return say::bad(to);
    };
    buffers_lent(to, line, store, request, hub)
}
