// The modes for a request: what it asks for, where its filters stand, and what it knows; and which elements of a store its
// filters leave in.
use case_stores::knowledges;
use case_stores::stores::UNTOUCHED;
use case_words::{say, words};
use request::choice::choose;
use request::message::{Query, read_request};
use std::io;
use std::io::Write;
use store::knowledge::SAID_NUMBERS;
use store::package::read_store;
use store::table::{Elements, ID_NUMBERS, MOST_ELEMENTS, ROW_NUMBERS};

// Id, limit, the place of the filters and how many they are, and the n rows of the knowledge; or that numbers were changed
// behind what its ranges can reach. More ranges than a knowledge may hold count as that.
fn asked<W: Write>(
    to: &mut W,
    s: &[u8],
    id: u64,
    limit: u64,
    place: usize,
    count: u64,
    n: usize,
    t: &[u64; SAID_NUMBERS],
) -> io::Result<()> {
    if !knowledges::as_read(s, n, t) {
        return say::touched(to);
    }
    write!(to, "ok {id} {limit} {place} {count}")?;
    knowledges::every_row(to, t, n)
}

// `request HEX`
pub fn message<W: Write>(to: &mut W, s: &[u8]) -> io::Result<()> {
    let mut t = [UNTOUCHED; SAID_NUMBERS];
    match read_request(s, &mut t) {
        Ok(
            Query {
                id,
                limit,
                place,
                count,
                known: n,
            },
        ) => asked(to, s, id, limit, place, count, n, &t),
        Err(r) => knowledges::refused(to, s, r, &t),
    }
}

// Filters from a place on, put to the n elements of both tables: a byte for each element, 1 where it is in. Or that bytes
// behind these were changed; more elements than a store may hold count as that.
fn left_in<W: Write>(
    to: &mut W,
    s: &[u8],
    place: usize,
    count: u64,
    rows: &[u64; ROW_NUMBERS],
    ids: &[u64; ID_NUMBERS],
    n: usize,
) -> io::Result<()> {
    if MOST_ELEMENTS < n {
        return say::touched(to);
    }
    let mut flags = [say::UNTOUCHED; 320];
    let all = Elements {
        rows,
        ids,
        count: n,
    };
    choose(s, Ok((place, 0)), count, all, &mut flags);
    let (told, behind) = flags.split_at(n);
    if !say::untouched(behind) {
        return say::touched(to);
    }
    say::ok(to)?;
    say::bytes(to, told)
}

// The request, whose filters are then put to the elements of a store that was read.
fn chosen_of<W: Write>(
    to: &mut W,
    s: &[u8],
    rows: &[u64; ROW_NUMBERS],
    ids: &[u64; ID_NUMBERS],
    n: usize,
) -> io::Result<()> {
    let mut t = [UNTOUCHED; SAID_NUMBERS];
    match read_request(s, &mut t) {
        Ok(q) => left_in(to, s, q.place, q.count, rows, ids, n),
        Err(r) => knowledges::refused(to, s, r, &t),
    }
}

// The store comes first, as its faults do.
fn both<W: Write>(to: &mut W, store: &[u8], s: &[u8]) -> io::Result<()> {
    let mut rows = [UNTOUCHED; ROW_NUMBERS];
    let mut ids = [UNTOUCHED; ID_NUMBERS];
    match read_store(store, &mut rows, &mut ids) {
        Ok(n) => chosen_of(to, s, &rows, &ids, n),
        Err(r) => say::refusal(to, r),
    }
}

// `chosen STOREHEX REQUESTHEX`: the bytes of both stand in one space, the request's behind the store's.
pub fn chosen<W: Write>(to: &mut W, line: &[u8], space: &mut [u8]) -> io::Result<()> {
    let Some((store, request)) = words::two(words::word(line, 1), words::word(line, 2), space)
    else {
        return say::bad(to);
    };
    both(to, store, request)
}
