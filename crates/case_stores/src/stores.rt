// The modes for a store: its rows, and one element by its position.
ghost use Rattle.std.specs.Prelude.{true, ◌≡◌, ℕ, ◌≤◌, ◌<◌, length, get_or};
ghost use Rattle.store.specs.Tables.{most_elements};

use case_words::{say, words};
use numbers::refusal::Refusal;
use order::rows::{RANKED_NUMBERS, RANKED_WIDTH, put_rows};
use std::io;
use std::io::Write;
use store::accessor::{Found, element_bytes, find_element};
use store::package::read_store;
use store::table::{Elements, ID_NUMBERS, ID_WIDTH, MOST_ELEMENTS, ROW_NUMBERS, ROW_WIDTH};

// What every number of a table holds before a case lends it.
pub const UNTOUCHED: u64 = 0xA5A5A5A5A5A5A5A5;

// Whether no number was changed.
pub fn untouched(t: &[u64]) -> bool
    ensures { result ≡ true → (k : ℕ) → k < length t.now → get_or t.now k 0 ≡ 0xA5A5A5A5A5A5A5A5 }
{
    t.iter().all(|x| *x == UNTOUCHED)
}

// An element takes at least so many bytes: its start two, its id 17, its serial number 25, its type one and its end one.
const LEAST_ELEMENT: usize = 46;

// At most so many elements stand in s.
fn elements_in(s: &[u8]) -> usize
    ensures { result ≤ most_elements }
{
    (s.len() / LEAST_ELEMENT).min(MOST_ELEMENTS)
}

// Whether no number was changed behind the rows and the ids of n elements.
fn kept(n: usize, rows: &[u64; ROW_NUMBERS], ids: &[u64; ID_NUMBERS]) -> bool
    requires { n ≤ most_elements }
{
    untouched(&rows[n * ROW_WIDTH..]) && untouched(&ids[n * ID_WIDTH..])
}

// How many elements, and their rows as a lent table holds them; or that numbers behind the rows or the ids were changed, of the
// working tables or of the lent one. More elements than a store may hold count as that.
fn held<W: Write>(
    to: &mut W,
    n: usize,
    rows: &[u64; ROW_NUMBERS],
    ids: &[u64; ID_NUMBERS],
) -> io::Result<()> {
    if MOST_ELEMENTS < n || !kept(n, rows, ids) {
        return say::touched(to);
    }
    let mut lent = [UNTOUCHED; RANKED_NUMBERS];
    let all = Elements {
        rows,
        ids,
        count: n,
    };
    put_rows(&mut lent, all);
    let (told, behind) = lent.split_at(n * RANKED_WIDTH);
    if !untouched(behind) {
        return say::touched(to);
    }
    say::ok(to)?;
    say::number(to, n as u64)?;
    say::table(to, told, RANKED_WIDTH, 0)
}

// A refusal; or that numbers were changed behind the rows and the ids of as many elements as the store's bytes have room for. Before
// that the tables may hold those of the elements before the fault.
fn refused<W: Write>(
    to: &mut W,
    s: &[u8],
    r: Refusal,
    rows: &[u64; ROW_NUMBERS],
    ids: &[u64; ID_NUMBERS],
) -> io::Result<()> {
    if !kept(elements_in(s), rows, ids) {
        return say::touched(to);
    }
    say::refusal(to, r)
}

// `store STOREHEX`
pub fn rows<W: Write>(to: &mut W, s: &[u8]) -> io::Result<()> {
    let mut rows = [UNTOUCHED; ROW_NUMBERS];
    let mut ids = [UNTOUCHED; ID_NUMBERS];
    match read_store(s, &mut rows, &mut ids) {
        Ok(n) => held(to, n, &rows, &ids),
        Err(r) => refused(to, s, r, &rows, &ids),
    }
}

// Whether a part of s is the one of n bytes at this place.
pub fn stands_at(s: &[u8], at: usize, n: usize, part: &[u8]) -> bool {
    let Some(from_there) = s.get(at..) else {
        return false;
    };
    from_there.get(..n).is_some_and(|found| found == part)
}

// An element of s as one call found it, and its bytes as another lends them; or that these are not those that stand where the
// first says (on a refusal, none).
pub fn found<W: Write>(to: &mut W, s: &[u8], element: Found, part: &[u8]) -> io::Result<()> {
    match element {
        Ok((at, n)) => {
            if !stands_at(s, at, n, part) {
                return say::apart(to);
            }
            say::ok(to)?;
            say::bytes(to, part)
        }
        Err(r) => {
            if !part.is_empty() {
                return say::apart(to);
            }
            say::refusal(to, r)
        }
    }
}

// The bytes and the position that a case with one element has.
pub fn position<'a>(line: &[u8], space: &'a mut [u8]) -> Option<(&'a [u8], usize)> {
    let (s, _) = words::bytes(words::word(line, 1), space)?;
    let position = words::number(words::word(line, 2))?;
    Some((s, position as usize))
}

// `element STOREHEX POSITION`
pub fn element<W: Write>(to: &mut W, line: &[u8], space: &mut [u8]) -> io::Result<()> {
    let Some((s, position)) = position(line, space) else {
        return say::bad(to);
    };
    found(to, s, find_element(s, position), element_bytes(s, position))
}
