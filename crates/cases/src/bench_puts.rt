// The modes for the bench's side of a put: one written, and the answer to one read.
use crate::benches::OUTPUT_ROOM;
use case_words::{say, words};
use client::put::write_put;
use client::put_answer::{ReceivedPut, read_put_answer};
use numbers::extended_guid::ExtendedGuid;
use std::io;
use std::io::Write;

// NAMED, GUIDHEX and NUMBER, the storage index that a case expects: with 0 the last two are words of their form, and do not count.
fn spelled_index(line: &[u8]) -> Option<ExtendedGuid> {
    let named = words::at_most(words::word(line, 2), 1)?;
    let guid = words::guid(words::word(line, 3))?;
    let number = u32::try_from(words::number(words::word(line, 4))?).ok()?;
    Some(if named == 0 {
        None
    } else {
        Some((guid, number))
    })
}

// What a case says of a put, but for OUTLEN.
#[derive(Drop)]
struct Put<'a> {
    id: u64,
    expected: ExtendedGuid,
    elements: &'a [u8],
}

fn spelled<'a>(line: &[u8], space: &'a mut [u8]) -> Option<Put<'a>> {
    let id = words::number(words::word(line, 1))?;
    let expected = spelled_index(line)?;
    let (elements, _) = words::bytes(words::word(line, 5), space)?;
    Some(Put {
        id,
        expected,
        elements,
    })
}

// `ask_put ID NAMED GUIDHEX NUMBER ELEMENTSHEX OUTLEN`
pub(crate) fn asked<W: Write>(to: &mut W, line: &[u8], space: &mut [u8]) -> io::Result<()> {
    let Some(
        Put {
            id,
            expected,
            elements,
        },
    ) = spelled(line, space)
    else {
        return say::bad(to);
    };
    say::lent::<OUTPUT_ROOM, _, _>(to, words::word(line, 6), |out| {
        write_put(out, id, expected, elements)
    })
}

fn received<W: Write>(to: &mut W, x: ReceivedPut) -> io::Result<()> {
    write!(to, "ok {} {} {}", x.id, x.knowledge, x.length)
}

// `read_put ANSWERHEX`
pub(crate) fn read<W: Write>(to: &mut W, s: &[u8]) -> io::Result<()> {
    match read_put_answer(s) {
        Ok(x) => received(to, x),
        Err(r) => say::refusal(to, r),
    }
}
