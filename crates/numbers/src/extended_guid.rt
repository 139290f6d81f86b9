// Extended GUIDs: null, or a GUID and a number of at most 32 bits, in four forms.
ghost use Rattle.std.specs.Prelude.{◌≡◌, ◌+◌, ◌*◌, ◌^◌, ◌≤◌, ◌<◌, length};
ghost use Rattle.numbers.specs.Compact.{with_form};
ghost use Rattle.numbers.specs.ExtendedGuid.{short_form, long_form, read_extended_guid, short_bytes, named_bytes, extended_guid_bytes};
ghost use Rattle.numbers.specs.Calls.{ReadsExtendedGuid, Writes, WritesExtendedGuid};

use crate::bytes::{put_le, read_le};
use crate::compact::{with_form, write_zero};
use crate::guid::{Guid, guid_at, put_guid, write_tagged};
use crate::refusal::{Fault, Refusal, Wrote, at_front, too_short, within_limit};

// None is null.
pub type ExtendedGuid = Option<(Guid, u32)>;

// An extended GUID and the bytes used.
pub type ReadExtendedGuid = Result<(ExtendedGuid, usize), Refusal>;

// A number of m bytes, less its k + 1 low bits, and then the GUID.
fn read_short(s: &[u8], k: usize, m: usize, least: u64) -> ReadExtendedGuid
    requires { (k ≤ 7) × (m ≤ 3) }
    ensures { result ≡ short_form k m least s.now }
{
    let n = m + 16;
    if s.len() < n {
        return Err(at_front(Fault::RunsPast as u8));
    }
    let x = read_le(s, m) >> (k + 1);
    if x < least {
        return Err(at_front(Fault::NoForm as u8));
    }
    let g = guid_at(&s[m..]);
    Ok((Some((g, x as u32)), n))
}

// Byte 128, the GUID, and a number of four bytes.
fn read_long(s: &[u8]) -> ReadExtendedGuid
    ensures { result ≡ long_form s.now }
{
    if s.len() < 21 {
        return Err(at_front(Fault::RunsPast as u8));
    }
    let x = read_le(&s[17..], 4);
    if x < 0x20000 {
        return Err(at_front(Fault::NoForm as u8));
    }
    let g = guid_at(&s[1..]);
    Ok((Some((g, x as u32)), 21))
}

// The extended GUID at the front of a part.
pub fn item(s: &[u8]) -> ReadExtendedGuid
    ensures { result ≡ read_extended_guid s.now }
{
    if s.len() == 0 {
        return Err(at_front(Fault::RunsPast as u8));
    }
    let b = s[0];
    if b == 0 {
        return Ok((None, 1));
    }
    let k = u8::trailing_zeros(b);
    match k {
        2 => read_short(s, 2, 1, 0),
        5 => read_short(s, 5, 2, 0x20),
        6 => read_short(s, 6, 3, 0x400),
        7 => read_long(s),
        _ => Err(at_front(Fault::NoForm as u8)),
    }
}

// A single extended GUID. Ruled out (proofs/WrongAnswers): the number 31 from the 10-bit form; null from `04` and sixteen
// zero bytes, which is a zero GUID.
#[tactic(auto, unfolding(crate::specs::Calls::single))]
pub fn read_extended_guid(s: &[u8]) -> ReadExtendedGuid
    ensures { ReadsExtendedGuid s.now result }
{
    within_limit(s)?;
    item(s)
}

// The number in m bytes, above its k + 1 low bits, and then the GUID.
fn write_short(out: &mut [u8], k: usize, m: usize, g: Guid, x: u64) -> Wrote
    requires { (k ≤ 7) × (m ≤ 3) × (with_form k x < 256 ^ m) }
    ensures { Writes (short_bytes k m g x) out.old result out.new }
{
    let n = m + 16;
    if out.len() < n {
        return Err(too_short(n));
    }
    put_le(out, m, with_form(k, x));
    put_guid(&mut out[m..], g);
    Ok(n)
}

fn write_named(out: &mut [u8], g: Guid, x: u32) -> Wrote
    ensures { Writes (named_bytes g x) out.old result out.new }
{
    let v = x as u64;
    if v < 0x20 {
        return write_short(out, 2, 1, g, v);
    }
    if v < 0x400 {
        return write_short(out, 5, 2, g, v);
    }
    if v < 0x20000 {
        return write_short(out, 6, 3, g, v);
    }
    write_tagged(out, 4, g, v)
}

// A single extended GUID, in the form whose range has its number. Ruled out (proofs/WrongAnswers): the number 32 in the
// 5-bit form's 17 bytes; the 32-bit form with its number before the GUID.
pub fn write_extended_guid(out: &mut [u8], id: ExtendedGuid) -> Wrote
    ensures { WritesExtendedGuid id out.old result out.new }
{
    match id {
        None => write_zero(out),
        Some((g, x)) => write_named(out, g, x),
    }
}

// How many bytes an extended GUID takes.
pub fn extended_guid_length(id: ExtendedGuid) -> usize
    ensures { (result ≡ length (extended_guid_bytes id)) × (result ≤ 21) }
{
    match id {
        None => 1,
        Some((_, x)) => {
            if x < 0x20 {
                return 17;
            }
            if x < 0x400 {
                return 18;
            }
            if x < 0x20000 {
                return 19;
            }
            21
        }
    }
}
