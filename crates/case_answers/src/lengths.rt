// The mode for the call that tells how long an answer is, and that it left alone what is no row of the tables.
ghost use Rattle.std.specs.Prelude.{◌≤◌};

use crate::tables;
use crate::tables::{Ends, TABLE_NUMBERS, Tables};
use case_words::{say, words};
use pages::answer;
use std::io;
use std::io::Write;

// The call, lent as much as the case says: the length and the rows of both tables. These are looked at whole, what is not lent of them
// too. They are new for each case, in a function that stays one of its own when it is compiled, so that another mode does not pay for
// their room.
#[inline(never)]
fn asked<W: Write>(
    to: &mut W,
    store: &[u8],
    request: &[u8],
    offered: usize,
    l: Ends,
) -> io::Result<()>
    requires { (l.rows ≤ TABLE_NUMBERS) × (l.ranges ≤ TABLE_NUMBERS) }
{
    let mut t = Tables::new();
    match answer::length(
        store,
        request,
        offered,
        &mut t.rows[..l.rows],
        &mut t.ranges[..l.ranges],
    ) {
        Ok(x) => t.told(to, x.rows, x.ranges, |to| say::number(to, x.length as u64)),
        Err(r) => t.refused(to, r),
    }
}

// `length STOREHEX REQUESTHEX OFFERED STORETABLELEN KNOWTABLELEN`: the bytes of both inputs stand in one space, the request's
// behind the store's.
pub fn offered<W: Write>(to: &mut W, line: &[u8], space: &mut [u8]) -> io::Result<()> {
    let Some((store, request)) = words::two(words::word(line, 1), words::word(line, 2), space)
    else {
        return say::bad(to);
    };
    let Some(most) = words::number(words::word(line, 3)) else {
        return say::bad(to);
    };
    let Some(l) = tables::lent(line) else {
        return say::bad(to);
    };
    asked(to, store, request, most as usize, l)
}
