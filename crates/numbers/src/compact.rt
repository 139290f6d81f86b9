// Compact integers: read with the mark that they were padded, for a caller who takes padding or refuses it, and written, by one rule for
// all forms.
ghost use Rattle.std.specs.Prelude.{◌≡◌, ◌++◌, [], ◌∷◌, ◌^◌, ◌≤◌, ◌<◌, length, drop};
ghost use Rattle.laws.specs.Bytes.{bytes};
ghost use Rattle.numbers.specs.Compact.{size_of, compact_value, read_form, read_compact, compact_for, form_of, with_form, compact_bytes};
ghost use Rattle.numbers.specs.Calls.{ReadsCompact, Writes, WritesCompact};

use crate::bytes::{put_le, read_le};
use crate::refusal::{Fault, Refusal, Wrote, at_front, too_short, within_limit};

// A compact integer: the value, the bytes used, and the mark that it was padded, as a shorter form would do.
pub type Compact = Result<(u64, usize, bool), Refusal>;

// Whether a caller takes a padded number; where it is refused, it is 3.
pub const PADDING_TAKEN: bool = true;

pub const PADDING_REFUSED: bool = false;

// How many bytes form k takes.
#[tactic(auto, unfolding(crate::specs::Compact::size_of))]
fn size_of(k: usize) -> usize
    requires { k ≤ 7 }
    ensures { result ≡ size_of k }
{
    if k == 7 { 9 } else { k + 1 }
}

// The value in form k, of n bytes: the number of k + 1 of them without its k + 1 low bits, and over it the ninth, if there is one.
fn value_of(s: &[u8], k: usize, n: usize) -> u64
    requires { (k ≤ 7) × (n ≡ size_of k) × (n ≤ length s.now) }
    ensures { result ≡ compact_value k s.now }
{
    let first = read_le(s, k + 1) >> (k + 1);
    let ninth = read_le(&s[k + 1..], n - (k + 1));
    first + (ninth << 56)
}

fn read_form(s: &[u8], k: usize) -> Compact
    requires { k ≤ 7 }
    ensures { result ≡ read_form k s.now }
{
    let n = size_of(k);
    if s.len() < n {
        return Err(at_front(Fault::RunsPast as u8));
    }
    let v = value_of(s, k, n);
    let least: u64 = 1 << (7 * k);
    Ok((v, n, v < least))
}

// The compact integer at the front of s, with its mark.
fn form_at(s: &[u8]) -> Compact
    ensures { result ≡ read_compact s.now }
{
    if s.len() == 0 {
        return Err(at_front(Fault::RunsPast as u8));
    }
    let b = s[0];
    if b == 0 {
        return Ok((0, 1, false));
    }
    let k = u8::trailing_zeros(b) as usize;
    read_form(s, k)
}

// The compact integer at the front of a part. Ruled out (proofs/WrongAnswers): `02 00` taken where padding is refused; the same refused
// where it is taken.
pub fn item(s: &[u8], padding: bool) -> Compact
    ensures { result ≡ compact_for padding s.now }
{
    let (v, n, padded) = form_at(s)?;
    if padded && !padding {
        return Err(at_front(Fault::NoForm as u8));
    }
    Ok((v, n, padded))
}

// A single compact integer. Ruled out (proofs/WrongAnswers): `02 00` without the mark that it was padded; `02 02` with it; telling 2
// of `01`, whose every byte is there.
#[tactic(auto, unfolding(crate::specs::Calls::single))]
pub fn read_compact(s: &[u8]) -> Compact
    ensures { ReadsCompact s.now result }
{
    within_limit(s)?;
    form_at(s)
}

// The shortest form that has room for v: seven bits more for each form, and the last one takes what is left.
fn form_of(v: u64) -> usize
    ensures { result ≡ form_of v }
{
    let mut rest = v;
    for k in 0..7 {
        if rest < 128 {
            return k;
        }
        rest /= 128;
    }
    7
}

// The number that stands for v in form k.
pub(crate) fn with_form(k: usize, v: u64) -> u64
    requires { (k ≤ 7) × (with_form k v < 2 ^ 64) }
    ensures { result ≡ with_form k v }
{
    let low: u64 = 1 << k;
    v * (low * 2) + low
}

fn put_form(out: &mut [u8], k: usize, v: u64)
    requires { (k ≤ 7) × (size_of k ≤ length out.old) × (with_form k v < 256 ^ size_of k) }
    ensures { out.new ≡ bytes (size_of k) (with_form k v) ++ drop (size_of k) out.old }
{
    if k == 7 {
        out[0] = 128;
        put_le(&mut out[1..], 8, v);
        return;
    }
    put_le(out, k + 1, with_form(k, v));
}

// The byte 0: the number 0, a null extended GUID, a null serial number.
pub(crate) fn write_zero(out: &mut [u8]) -> Wrote
    ensures { Writes (0 ∷ []) out.old result out.new }
{
    if out.len() < 1 {
        return Err(too_short(1));
    }
    out[0] = 0;
    Ok(1)
}

// A single compact integer, in its shortest form. Ruled out (proofs/WrongAnswers): 128 in one byte; a needed length of 1
// for 128.
pub fn write_compact(out: &mut [u8], v: u64) -> Wrote
    ensures { WritesCompact v out.old result out.new }
{
    if v == 0 {
        return write_zero(out);
    }
    let k = form_of(v);
    let n = size_of(k);
    if out.len() < n {
        return Err(too_short(n));
    }
    put_form(out, k, v);
    Ok(n)
}

// How many bytes v takes.
pub fn compact_length(v: u64) -> usize
    ensures { (result ≡ length (compact_bytes v)) × (result ≤ 9) }
{
    if v == 0 {
        return 1;
    }
    let k = form_of(v);
    size_of(k)
}
