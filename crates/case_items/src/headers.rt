// The modes for a single stream object header, read and written.
use case_words::{say, words};
use objects::header::Header;
use std::io;
use std::io::Write;

// A header's type, compound bit, true length and bytes used.
fn fields<W: Write>(
    to: &mut W,
    kind: u64,
    compound: bool,
    length: u64,
    used: usize,
) -> io::Result<()> {
    let compound = u64::from(compound);
    write!(to, " {kind} {compound} {length} {used}")
}

// `header HEX`. The bytes used tell how many bits the header itself has.
pub fn header<W: Write>(to: &mut W, s: &[u8]) -> io::Result<()> {
    match objects::header::read_header(s) {
        Ok(Header::Start(kind, compound, length, used)) => {
            let form = if used == 2 { "start16" } else { "start32" };
            write!(to, "ok {form}")?;
            fields(to, kind, compound, length, used)
        }
        Ok(Header::End(kind, used)) => {
            let form = if used == 1 { "end8" } else { "end16" };
            write!(to, "ok {form}")?;
            fields(to, kind, false, 0, used)
        }
        Err(r) => say::refusal(to, r),
    }
}

// What `wstart` is given but for OUTLEN: type, compound bit and true length.
fn start(line: &[u8]) -> Option<(u64, bool, u64)> {
    let kind = words::number(words::word(line, 1))?;
    let compound = words::at_most(words::word(line, 2), 1)?;
    let length = words::number(words::word(line, 3))?;
    Some((kind, compound == 1, length))
}

// `wstart TYPE COMPOUND LENGTH OUTLEN`
pub fn wstart<W: Write>(to: &mut W, line: &[u8]) -> io::Result<()> {
    let Some((kind, compound, length)) = start(line) else {
        return say::bad(to);
    };
    say::item(to, words::word(line, 4), |out| {
        objects::header_write::write_start(out, kind, compound, length)
    })
}

// `wend TYPE OUTLEN`
pub fn wend<W: Write>(to: &mut W, line: &[u8]) -> io::Result<()> {
    let Some(kind) = words::number(words::word(line, 1)) else {
        return say::bad(to);
    };
    say::item(to, words::word(line, 2), |out| {
        objects::header_write::write_end(out, kind)
    })
}
