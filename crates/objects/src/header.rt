// Stream object headers: 16- and 32-bit starts, 8- and 16-bit ends, read; and the two bytes of the shortest, as a number.
ghost use Rattle.std.specs.Prelude.{◌≡◌, ◌-◌, ◌≤◌, ◌<◌};
ghost use Rattle.objects.specs.Next.{short_number};
ghost use Rattle.objects.specs.Header.{start_of, end_of, sized, header_of, header_at, length_at, whole_header};
ghost use Rattle.objects.specs.Calls.{ReadsHeader};

use numbers::bytes::read_le;
use numbers::compact::PADDING_TAKEN;
use numbers::refusal::{Fault, Refusal, at_place, within_limit};

// A header: the type, the compound bit, the length and the bytes used. `header_at` gives the length as the header has it,
// `item` and `read_header` the true one, whose bytes then count among those used.
#[derive(Drop)]
pub enum Header {
    Start(u64, bool, u64, usize),
    End(u64, usize),
}

pub type ReadHeader = Result<Header, Refusal>;

// The length of an object's data, and the place where the data begins.
pub type Length = Result<(u64, usize), Refusal>;

// The type in a start of two bytes has six bits.
pub const SHORT_TYPES: u64 = 64;

// This length says that the true one follows the header.
pub const ESCAPE: u64 = 32767;

// What is left of n from `at` on.
pub(crate) fn left_of(n: usize, at: usize) -> usize
    ensures { result ≡ n - at }
{
    n.saturating_sub(at)
}

// The two bytes at a place as a number. Where they are not there it is 3, which is neither a start of two bytes nor an end of one.
// The bound on the place does not hang on the place, so that it is worked out once and not in each turn of a loop.
pub fn short_number(s: &[u8], at: usize) -> u64
    ensures { result ≡ short_number s.now at }
{
    if left_of(s.len(), 1) <= at {
        return 3;
    }
    read_le(&s[at..], 2)
}

// A start of n bytes at the front of t, the place `at` of the input; its type is below `span`.
fn start_of(t: &[u8], at: usize, n: usize, span: u64) -> ReadHeader
    requires { (n ≤ 8) × (0 < span) }
    ensures { result ≡ sized at n (start_of span) t.now }
{
    if t.len() < n {
        return Err(at_place(Fault::RunsPast as u8, at));
    }
    let w = read_le(t, n);
    let rest = w / 8;
    Ok(Header::Start(rest % span, w / 4 % 2 == 1, rest / span, n))
}

// An end of n bytes at the front of t.
fn end_of(t: &[u8], at: usize, n: usize) -> ReadHeader
    requires { n ≤ 8 }
    ensures { result ≡ sized at n end_of t.now }
{
    if t.len() < n {
        return Err(at_place(Fault::RunsPast as u8, at));
    }
    Ok(Header::End(read_le(t, n) / 4, n))
}

// The header at the front of t, which is the place `at` of the input.
fn header_of(t: &[u8], at: usize) -> ReadHeader
    ensures { result ≡ header_of at t.now }
{
    if t.len() == 0 {
        return Err(at_place(Fault::RunsPast as u8, at));
    }
    let low = t[0] % 4;
    match low {
        0 => start_of(t, at, 2, SHORT_TYPES),
        1 => end_of(t, at, 1),
        2 => start_of(t, at, 4, 16384),
        _ => end_of(t, at, 2),
    }
}

// The header at a place of the input.
pub(crate) fn header_at(s: &[u8], at: usize) -> ReadHeader
    ensures { result ≡ header_at s.now at }
{
    if s.len() < at {
        return Err(at_place(Fault::RunsPast as u8, at));
    }
    header_of(&s[at..], at)
}

// The true length, behind a header with the length n that ends at `at`; a padded one is 3 unless padding is taken.
pub(crate) fn length_at(s: &[u8], at: usize, n: u64, padding: bool) -> Length
    ensures { result ≡ length_at padding s.now at n }
{
    if n != ESCAPE {
        return Ok((n, at));
    }
    if s.len() < at {
        return Err(at_place(Fault::RunsPast as u8, at));
    }
    match numbers::compact::item(&s[at..], padding) {
        Ok((v, m, _)) => Ok((v, at + m)),
        Err(r) => Err(at_place(r.number, at)),
    }
}

// The header at the front of a part, true length included. By itself a header takes padding.
#[tactic(auto, unfolding(crate::specs::Header::whole_header))]
fn item(s: &[u8]) -> ReadHeader
    ensures { result ≡ whole_header s.now }
{
    match header_of(s, 0)? {
        Header::Start(kind, compound, n, used) => {
            let (length, from) = length_at(s, used, n, PADDING_TAKEN)?;
            Ok(Header::Start(kind, compound, length, from))
        }
        Header::End(kind, used) => Ok(Header::End(kind, used)),
    }
}

// A single header. Ruled out (proofs/WrongAnswers): type 0x2F for `7A 02 08 00`; a missing true length told at 0, where the
// header stands whole; 3 for a padded true length.
#[tactic(auto, unfolding(numbers::specs::Calls::single))]
pub fn read_header(s: &[u8]) -> ReadHeader
    ensures { ReadsHeader s.now result }
{
    within_limit(s)?;
    item(s)
}
