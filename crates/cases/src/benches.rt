// The modes for the bench's side: a request written, an answer read, and one element of an answer by its position.
use case_stores::stores;
use case_words::{say, words};
use client::accessor::{find_received, received_bytes};
use client::answer::{Received, read_answer};
use client::ask::write_request;
use numbers::extended_guid::ExtendedGuid;
use numbers::guid::Guid;
use std::io;
use std::io::Write;

// Room for the longest request or put that is lent.
pub(crate) const OUTPUT_ROOM: usize = 65536;

// What a case says of a request, but for OUTLEN.
#[derive(Drop)]
struct Ask<'a> {
    id: u64,
    limit: u64,
    filters: &'a [u8],
    knowledge: &'a [u8],
}

// The bytes of both inputs stand in one space, the knowledge's behind the filters'.
fn spelled<'a>(line: &[u8], space: &'a mut [u8]) -> Option<Ask<'a>> {
    let id = words::number(words::word(line, 1))?;
    let limit = words::number(words::word(line, 2))?;
    let (filters, knowledge) = words::two(words::word(line, 3), words::word(line, 4), space)?;
    Some(Ask {
        id,
        limit,
        filters,
        knowledge,
    })
}

// `ask ID LIMIT FILTERHEX KNOWLEDGEHEX OUTLEN`
pub(crate) fn asked<W: Write>(to: &mut W, line: &[u8], space: &mut [u8]) -> io::Result<()> {
    let Some(
        Ask {
            id,
            limit,
            filters,
            knowledge,
        },
    ) = spelled(line, space)
    else {
        return say::bad(to);
    };
    say::lent::<OUTPUT_ROOM, _, _>(to, words::word(line, 5), |out| {
        write_request(out, id, limit, filters, knowledge)
    })
}

// A storage index: its GUID and number, both zero where there is none, behind 1 or 0.
fn index<W: Write>(to: &mut W, x: ExtendedGuid) -> io::Result<()> {
    let (named, g, n) = match x {
        None => (0, Guid { low: 0, high: 0 }, 0),
        Some((g, n)) => (1, g, n),
    };
    say::number(to, named)?;
    say::guid(to, g)?;
    say::number(to, u64::from(n))
}

fn received<W: Write>(to: &mut W, x: Received) -> io::Result<()> {
    let partial = u64::from(x.partial);
    write!(to, "ok {} {partial}", x.id)?;
    let named = x.index;
    index(to, named)?;
    write!(
        to,
        " {} {} {} {}",
        x.elements, x.count, x.knowledge, x.length
    )
}

// `read ANSWERHEX`
pub(crate) fn read<W: Write>(to: &mut W, s: &[u8]) -> io::Result<()> {
    match read_answer(s) {
        Ok(x) => received(to, x),
        Err(r) => say::refusal(to, r),
    }
}

// `received ANSWERHEX POSITION`
pub(crate) fn element<W: Write>(to: &mut W, line: &[u8], space: &mut [u8]) -> io::Result<()> {
    let Some((s, position)) = stores::position(line, space) else {
        return say::bad(to);
    };
    stores::found(
        to,
        s,
        find_received(s, position),
        received_bytes(s, position),
    )
}
