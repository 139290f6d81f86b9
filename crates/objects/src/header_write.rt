// Stream object headers written, each in its shortest form, and how many bytes that takes.
ghost use Rattle.std.specs.Prelude.{◌≡◌, true, false, ◌++◌, ◌*◌, ◌≤◌, ◌<◌, ◌^◌, length, ltb};
ghost use Rattle.laws.specs.Pick.{pick};
ghost use Rattle.laws.specs.Bytes.{bytes};
ghost use Rattle.numbers.specs.Compact.{compact_bytes};
ghost use Rattle.numbers.specs.Calls.{Writes};
ghost use Rattle.objects.specs.Header.{start_number, long_start, start_bytes, end_bytes};
ghost use Rattle.objects.specs.Calls.{WritesStart, WritesEnd};

use crate::header::ESCAPE;
use numbers::bytes::put_le;
use numbers::compact::{compact_length, write_compact};
use numbers::refusal::{Fault, Wrote, at_front, too_short};

// Whether a start has room in 16 bits: a type of at most 6 bits, and a length of at most 7.
fn is_short(kind: u64, length: u64) -> bool
    ensures { result ≡ pick (ltb kind 64) (ltb length 128) false }
{
    kind < 64 && length < 128
}

// How many bytes a start takes, the true length n behind it included. The compound bit does not count.
pub fn start_length(kind: u64, n: u64) -> usize
    ensures { (result ≡ length (start_bytes kind true n)) × (result ≡ length (start_bytes kind false n)) × (result ≤ 13) }
{
    if is_short(kind, n) {
        return 2;
    }
    if n < ESCAPE {
        return 4;
    }
    4 + compact_length(n)
}

// How many bytes an end takes.
pub fn end_length(kind: u64) -> usize
    ensures { (result ≡ length (end_bytes kind)) × (result ≤ 2) }
{
    if kind < 64 { 1 } else { 2 }
}

// The number of a start. The bounds are those of its 32 bits.
fn start_number(low: u64, span: u64, compound: bool, kind: u64, length: u64) -> u64
    requires { (low < 4) × (kind < 2 ^ 14) × (length * span < 2 ^ 29) }
    ensures { result ≡ start_number low span compound kind length }
{
    let rest = (kind + length * span) * 8;
    if compound {
        return low + 4 + rest;
    }
    low + rest
}

// A header that is the number x of n bytes, and nothing behind it.
fn write_number(out: &mut [u8], n: usize, x: u64) -> Wrote
    ensures { Writes (bytes n x) out.old result out.new }
{
    if out.len() < n {
        return Err(too_short(n));
    }
    put_le(out, n, x);
    Ok(n)
}

// The number x of a 32-bit start, and the true length n behind it.
fn write_lengthened(out: &mut [u8], x: u64, n: u64) -> Wrote
    ensures { Writes (bytes 4 x ++ compact_bytes n) out.old result out.new }
{
    let needed = 4 + compact_length(n);
    if out.len() < needed {
        return Err(too_short(needed));
    }
    put_le(out, 4, x);
    let _ = write_compact(&mut out[4..], n);
    Ok(needed)
}

// A start of 32 bits, with its length in the header or behind it.
fn write_long_start(out: &mut [u8], kind: u64, compound: bool, length: u64) -> Wrote
    requires { kind < 2 ^ 14 }
    ensures { Writes (long_start kind compound length) out.old result out.new }
{
    if length < ESCAPE {
        let x = start_number(2, 16384, compound, kind, length);
        return write_number(out, 4, x);
    }
    let x = start_number(2, 16384, compound, kind, ESCAPE);
    write_lengthened(out, x, length)
}

// A single start, in its shortest form. Ruled out (proofs/WrongAnswers): type 64 with length 0 in two bytes; a needed length
// of 4 for length 32767, whose true length stands behind.
pub fn write_start(out: &mut [u8], kind: u64, compound: bool, length: u64) -> Wrote
    ensures { WritesStart kind compound length out.old result out.new }
{
    if 0x3FFF < kind {
        return Err(at_front(Fault::NoForm as u8));
    }
    if is_short(kind, length) {
        let x = start_number(0, 64, compound, kind, length);
        return write_number(out, 2, x);
    }
    write_long_start(out, kind, compound, length)
}

// A single end, in its shortest form. Ruled out (proofs/WrongAnswers): 14 for type 0x4000 where there is no room, as 3 comes
// first; a byte behind the end of type 1 that is overwritten.
pub fn write_end(out: &mut [u8], kind: u64) -> Wrote
    ensures { WritesEnd kind out.old result out.new }
{
    if 0x3FFF < kind {
        return Err(at_front(Fault::NoForm as u8));
    }
    if kind < 64 {
        return write_number(out, 1, 1 + kind * 4);
    }
    write_number(out, 2, 3 + kind * 4)
}
