// The modes for a single item: a number, an extended GUID or a serial number, read and written.
use case_words::{say, words};
use numbers::extended_guid::ExtendedGuid;
use numbers::guid::Guid;
use std::io;
use std::io::Write;

// `compact HEX`
pub fn compact<W: Write>(to: &mut W, s: &[u8]) -> io::Result<()> {
    match numbers::compact::read_compact(s) {
        Ok((value, used, padded)) => {
            let padded = u64::from(padded);
            write!(to, "ok {value} {used} {padded}")
        }
        Err(r) => say::refusal(to, r),
    }
}

// A GUID, a number and the bytes used; null is all zeros.
fn named<W: Write>(to: &mut W, g: Guid, number: u64, used: usize) -> io::Result<()> {
    say::ok(to)?;
    say::guid(to, g)?;
    write!(to, " {number} {used}")
}

fn null<W: Write>(to: &mut W, used: usize) -> io::Result<()> {
    named(to, Guid { low: 0, high: 0 }, 0, used)
}

// `exguid HEX`
pub fn exguid<W: Write>(to: &mut W, s: &[u8]) -> io::Result<()> {
    match numbers::extended_guid::read_extended_guid(s) {
        Ok((id, used)) => match id {
            None => null(to, used),
            Some((g, x)) => named(to, g, u64::from(x), used),
        },
        Err(r) => say::refusal(to, r),
    }
}

// `serial HEX`
pub fn serial<W: Write>(to: &mut W, s: &[u8]) -> io::Result<()> {
    match numbers::serial::read_serial(s) {
        Ok((id, used)) => match id {
            None => null(to, used),
            Some((g, x)) => named(to, g, x, used),
        },
        Err(r) => say::refusal(to, r),
    }
}

// `wcompact VALUE OUTLEN`
pub fn wcompact<W: Write>(to: &mut W, line: &[u8]) -> io::Result<()> {
    let Some(value) = words::number(words::word(line, 1)) else {
        return say::bad(to);
    };
    say::item(to, words::word(line, 2), |out| {
        numbers::compact::write_compact(out, value)
    })
}

// What `wexguid` and `wserial` are given but for OUTLEN.
fn given(line: &[u8]) -> Option<(Guid, u64)> {
    let guid = words::guid(words::word(line, 1))?;
    let number = words::number(words::word(line, 2))?;
    Some((guid, number))
}

// Whether a GUID and a number stand for null, as a zero GUID with the number 0 does.
fn is_null(g: Guid, number: u64) -> bool {
    g.low == 0 && g.high == 0 && number == 0
}

// The extended GUID that a GUID and a number stand for; its number has 32 bits.
fn extended(g: Guid, number: u64) -> Option<ExtendedGuid> {
    if is_null(g, number) {
        return Some(None);
    }
    let number = u32::try_from(number).ok()?;
    Some(Some((g, number)))
}

// `wexguid GUIDHEX NUMBER OUTLEN`
pub fn wexguid<W: Write>(to: &mut W, line: &[u8]) -> io::Result<()> {
    let Some(id) = given(line).and_then(|(g, number)| extended(g, number)) else {
        return say::bad(to);
    };
    say::item(to, words::word(line, 3), |out| {
        numbers::extended_guid::write_extended_guid(out, id)
    })
}

// `wserial GUIDHEX NUMBER OUTLEN`
pub fn wserial<W: Write>(to: &mut W, line: &[u8]) -> io::Result<()> {
    let Some((g, number)) = given(line) else {
        return say::bad(to);
    };
    let id = if is_null(g, number) {
        None
    } else {
        Some((g, number))
    };
    say::item(to, words::word(line, 3), |out| {
        numbers::serial::write_serial(out, id)
    })
}
