// GUIDs: sixteen bytes as two little-endian numbers, the numbers whose order is that of the bytes, and the form that puts byte 128
// before a GUID.
ghost use Rattle.std.specs.Prelude.{◌≡◌, ◌++◌, ◌+◌, ◌≤◌, length, drop};
ghost use Rattle.numbers.specs.Guid.{guid_at, guid_bytes, tagged_bytes, swapped};
ghost use Rattle.numbers.specs.Calls.{Writes};

use crate::bytes::{put_le, read_le};
use crate::refusal::{Wrote, too_short};

// Bytes 0 to 7, and 8 to 15.
#[derive(Clone, Copy)]
pub struct Guid {
    pub low: u64,
    pub high: u64,
}

// The GUID at the front of s.
#[tactic(auto, unfolding(crate::specs::Guid::guid_at))]
pub fn guid_at(s: &[u8]) -> Guid
    requires { 16 ≤ length s.now }
    ensures { result ≡ guid_at s.now }
{
    let low = read_le(s, 8);
    let high = read_le(&s[8..], 8);
    Guid { low, high }
}

// The GUID's sixteen bytes at the front of out.
pub fn put_guid(out: &mut [u8], g: Guid)
    requires { 16 ≤ length out.old }
    ensures { out.new ≡ guid_bytes g ++ drop 16 out.old }
{
    put_le(out, 8, g.low);
    put_le(&mut out[8..], 8, g.high);
}

// Byte 128, the GUID, and a number of n bytes, at the front of out.
fn put_tagged(out: &mut [u8], n: usize, g: Guid, x: u64)
    requires { (n ≤ 8) × (n + 17 ≤ length out.old) }
    ensures { out.new ≡ tagged_bytes n g x ++ drop n (drop 17 out.old) }
{
    out[0] = 128;
    put_guid(&mut out[1..], g);
    put_le(&mut out[17..], n, x);
}

// The longest form of an extended GUID or of a serial number, as a single item.
pub(crate) fn write_tagged(out: &mut [u8], n: usize, g: Guid, x: u64) -> Wrote
    requires { n ≤ 8 }
    ensures { Writes (tagged_bytes n g x) out.old result out.new }
{
    let needed = n + 17;
    if out.len() < needed {
        return Err(too_short(needed));
    }
    put_tagged(out, n, g, x);
    Ok(needed)
}

// Eight bytes as the number whose order is theirs.
pub fn swap(x: u64) -> u64
    ensures { result ≡ swapped x }
{
    x.swap_bytes()
}
