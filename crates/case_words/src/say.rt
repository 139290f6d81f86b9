// What a case's line of output is made of.
ghost use Rattle.std.specs.Prelude.{true, ◌≡◌, ℕ, ◌^◌, ◌≤◌, ◌<◌, length, get_or};

use crate::words;
use numbers::guid::Guid;
use numbers::refusal::{Refusal, Wrote};
use std::convert::AsSlice;
use std::io;
use std::io::Write;

// What every byte of the output space holds before a case writes there.
pub const UNTOUCHED: u8 = 0xA5;

// So many bytes to be lent. They come from a call, so that the function that lends them has no array of this size written out.
pub fn output_space<const N: usize>() -> [u8; N] {
    [UNTOUCHED; N]
}

// Bytes or text.
pub fn text<W: Write, S: AsSlice<u8> + Drop>(to: &mut W, s: S) -> io::Result<()> {
    to.write_all(s.as_slice())
}

// The line is no case of this program.
pub fn bad<W: Write>(to: &mut W) -> io::Result<()> {
    text(to, "bad")
}

// A call did as it should.
pub fn ok<W: Write>(to: &mut W) -> io::Result<()> {
    text(to, "ok")
}

// A call changed what is not its own.
pub fn touched<W: Write>(to: &mut W) -> io::Result<()> {
    text(to, "touched")
}

// Two calls that should agree do not.
pub fn apart<W: Write>(to: &mut W) -> io::Result<()> {
    text(to, "apart")
}

pub fn number<W: Write>(to: &mut W, n: u64) -> io::Result<()> {
    write!(to, " {n}")
}

pub fn refusal<W: Write>(to: &mut W, r: Refusal) -> io::Result<()> {
    let Refusal {
        number,
        input,
        place,
        needed,
    } = r;
    write!(to, "no {number} {input} {place} {needed}")
}

// The digits of hex.
const DIGITS: [u8; 16] = *b"0123456789abcdef";

// The bytes of s in hex, written at once by way of pairs.
fn piece<W: Write>(to: &mut W, s: &[u8], pairs: &mut [[u8; 2]]) -> io::Result<()>
    requires { length s.now ≤ length pairs.old }
{
    let (spelled, _) = pairs.split_at_mut(s.len());
    for (b, pair) in s.iter().zip(spelled.iter_mut()) {
        *pair = [DIGITS[usize::from(*b / 16)], DIGITS[usize::from(*b % 16)]];
    }
    to.write_all(spelled.as_flattened())
}

// The bytes of s in hex, many at a time: a call of the writer for each byte takes more time than what is written.
fn hex<W: Write>(to: &mut W, s: &[u8]) -> io::Result<()> {
    let mut pairs = [[b'0'; 2]; 128];
    for part in s.chunks(128) {
        piece(to, part, &mut pairs)?;
    }
    Ok(())
}

pub fn bytes<W: Write>(to: &mut W, s: &[u8]) -> io::Result<()> {
    if s.is_empty() {
        return text(to, " -");
    }
    text(to, " ")?;
    hex(to, s)
}

pub fn guid<W: Write>(to: &mut W, g: Guid) -> io::Result<()> {
    text(to, " ")?;
    hex(to, &g.low.to_le_bytes())?;
    hex(to, &g.high.to_le_bytes())
}

// Whether no byte was changed.
pub fn untouched(s: &[u8]) -> bool
    ensures { result ≡ true → (k : ℕ) → k < length s.now → get_or s.now k 0 ≡ 0xA5 }
{
    s.iter().all(|b| *b == UNTOUCHED)
}

// A table whose rows have `width` numbers, with `;` before each row but the first. The numbers of the first `turned` columns are
// told with their bytes turned round.
pub fn table<W: Write>(to: &mut W, numbers: &[u64], width: usize, turned: usize) -> io::Result<()>
    requires { 0 < width }
{
    if numbers.is_empty() {
        return text(to, " -");
    }
    for (i, x) in numbers.iter().enumerate() {
        let column = i % width;
        let mark = match (i, column) {
            (0, _) => ' ',
            (_, 0) => ';',
            _ => ',',
        };
        let shown = if column < turned { x.swap_bytes() } else { *x };
        write!(to, "{mark}{shown}")?;
    }
    Ok(())
}

// What a call that writes an item answered, and the item from out; or that the call changed bytes that are not the item's. An
// item longer than out counts as that.
pub fn written<W: Write>(to: &mut W, wrote: Wrote, out: &[u8]) -> io::Result<()> {
    match wrote {
        Ok(n) => {
            let Some((item, behind)) = out.split_at_checked(n) else {
                return touched(to);
            };
            if !untouched(behind) {
                return touched(to);
            }
            ok(to)?;
            bytes(to, item)
        }
        Err(r) => {
            if !untouched(out) {
                return touched(to);
            }
            refusal(to, r)
        }
    }
}

// A call that writes an item to as many of N bytes as a word lends, and what it answered. All N are looked at, what is not lent
// of them too. It is a function of its own when it is compiled, so that what is not lent anything does not pay for the room.
#[inline(never)]
pub fn lent<const N: usize, W: Write, F: FnOnce(&mut [u8]) -> Wrote>(
    to: &mut W,
    room: &[u8],
    write: F,
) -> io::Result<()>
    requires in_memory { N < 2 ^ 63 }
    requires callable { F.IsAlwaysCallable write }
{
    let mut out = output_space::<N>();
    let Some(n) = words::lent(room, &out) else {
        return bad(to);
    };
    let wrote = write(&mut out[..n]);
    written(to, wrote, &out)
}

// The same with room for a single item or header.
pub fn item<W: Write, F: FnOnce(&mut [u8]) -> Wrote>(
    to: &mut W,
    room: &[u8],
    write: F,
) -> io::Result<()>
    requires { F.IsAlwaysCallable write }
{
    lent::<512, W, F>(to, room, write)
}
