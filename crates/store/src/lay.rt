// Items laid at a place of a buffer that has room for them: each leaves what stands before and behind its own bytes, and
// answers the place behind them.
ghost use Rattle.std.specs.Prelude.{◌∷◌, [], ◌+◌, ◌≤◌, length};
ghost use Rattle.laws.specs.Bytes.{bytes};
ghost use Rattle.laws.specs.Placed.{Lays};
ghost use Rattle.numbers.specs.Compact.{compact_bytes};
ghost use Rattle.numbers.specs.ExtendedGuid.{extended_guid_bytes};
ghost use Rattle.numbers.specs.Guid.{guid_bytes};
ghost use Rattle.objects.specs.Header.{start_bytes, end_bytes};

use numbers::bytes::put_le;
use numbers::compact::{compact_length, write_compact};
use numbers::extended_guid::{ExtendedGuid, extended_guid_length, write_extended_guid};
use numbers::guid::{Guid, put_guid};
use objects::header_write::{end_length, start_length, write_end, write_start};

pub fn lay_start(out: &mut [u8], at: usize, kind: u64, compound: bool, n: u64) -> usize
    requires { (kind ≤ 16383) × (at + length (start_bytes kind compound n) ≤ length out.old) }
    ensures { Lays at (start_bytes kind compound n) out.old result out.new }
{
    let _ = write_start(&mut out[at..], kind, compound, n);
    at + start_length(kind, n)
}

pub fn lay_end(out: &mut [u8], at: usize, kind: u64) -> usize
    requires { (kind ≤ 16383) × (at + length (end_bytes kind) ≤ length out.old) }
    ensures { Lays at (end_bytes kind) out.old result out.new }
{
    let _ = write_end(&mut out[at..], kind);
    at + end_length(kind)
}

pub(crate) fn lay_guid(out: &mut [u8], at: usize, g: Guid) -> usize
    requires { at + length (guid_bytes g) ≤ length out.old }
    ensures { Lays at (guid_bytes g) out.old result out.new }
{
    put_guid(&mut out[at..], g);
    at + 16
}

pub fn lay_number(out: &mut [u8], at: usize, v: u64) -> usize
    requires { at + length (compact_bytes v) ≤ length out.old }
    ensures { Lays at (compact_bytes v) out.old result out.new }
{
    let _ = write_compact(&mut out[at..], v);
    at + compact_length(v)
}

pub fn lay_extended_guid(out: &mut [u8], at: usize, x: ExtendedGuid) -> usize
    requires { at + length (extended_guid_bytes x) ≤ length out.old }
    ensures { Lays at (extended_guid_bytes x) out.old result out.new }
{
    let _ = write_extended_guid(&mut out[at..], x);
    at + extended_guid_length(x)
}

// n bytes of a number.
pub fn lay_le(out: &mut [u8], at: usize, n: usize, x: u64) -> usize
    requires { at + n ≤ length out.old }
    ensures { Lays at (bytes n x) out.old result out.new }
{
    put_le(&mut out[at..], n, x);
    at + n
}

// One byte.
pub fn lay_byte(out: &mut [u8], at: usize, b: u8) -> usize
    requires { at + 1 ≤ length out.old }
    ensures { Lays at (b ∷ []) out.old result out.new }
{
    out[at] = b;
    at + 1
}

// All of a part. Ruled out (proofs/WrongAnswers): the byte behind it put to 0; its own place answered.
pub fn lay_part(out: &mut [u8], at: usize, part: &[u8]) -> usize
    requires { at + length part.now ≤ length out.old }
    ensures { Lays at part.now out.old result out.new }
{
    // A loop and no `copy_from_slice`, whose call of memcpy is slower on large elements (`make speed`).
    for i in 0..part.len() {
        out[at + i] = part[i];
    }
    at + part.len()
}
