// The words of a case, with one blank between two, and what a word spells.
ghost use Rattle.std.specs.Prelude.{◌+◌, ◌≤◌, ◌<◌, length, IfSome};

use numbers::guid::Guid;

// How many words a line has: one more than blanks.
pub fn count(line: &[u8]) -> usize
    ensures { (0 < result) × (result ≤ length line.now + 1) }
{
    line.iter().filter(|b| **b == b' ').count() + 1
}

// Word k, counted from 0; an empty one if the line has fewer.
pub fn word(line: &[u8], k: usize) -> &[u8] {
    line.split(|b| *b == b' ').nth(k).unwrap_or(&[])
}

// What a hex digit stands for. A capital letter is none, though `char::to_digit` takes it.
fn digit(b: u8) -> Option<u8>
    ensures { IfSome result (λ d. d ≤ 15) }
{
    match b {
        b'0'..=b'9' => Some(b - b'0'),
        b'a'..=b'f' => Some(b - b'a' + 10),
        _ => None,
    }
}

// The decimal number that a word spells, if it fits. A sign is no part of one, though `parse` takes it.
pub fn number(text: &[u8]) -> Option<u64> {
    if text.is_empty() {
        return None;
    }
    let mut value: u64 = 0;
    for b in text {
        let d = char::from(*b).to_digit(10)?;
        value = value.checked_mul(10)?.checked_add(u64::from(d))?;
    }
    Some(value)
}

// Puts the byte that each pair of hex digits spells into space, one for one.
fn decode(pairs: &[[u8; 2]], space: &mut [u8]) -> Option<()> {
    for ([high, low], byte) in pairs.iter().zip(space) {
        *byte = digit(*high)? * 16 + digit(*low)?;
    }
    Some(())
}

// The bytes that a word spells, which then stand at the front of space, and what is left of space.
pub fn bytes<'a>(text: &[u8], space: &'a mut [u8]) -> Option<(&'a [u8], &'a mut [u8])>
    ensures { IfSome result (λ parts. length parts.0.now + length parts.1.now ≤ length space.old) }
{
    if text == b"-".as_slice() {
        return Some((&[], space));
    }
    let (pairs, odd) = text.as_chunks::<2>();
    if pairs.is_empty() || !odd.is_empty() {
        return None;
    }
    let (front, rest) = space.split_at_mut_checked(pairs.len())?;
    decode(pairs, front)?;
    Some((front, rest))
}

// The bytes that two words spell, the second's behind the first's in space.
pub fn two<'a>(first: &[u8], second: &[u8], space: &'a mut [u8]) -> Option<(&'a [u8], &'a [u8])> {
    let (one, rest) = bytes(first, space)?;
    let (other, _) = bytes(second, rest)?;
    Some((one, other))
}

// The number that a word spells, if it is at most so large.
pub fn at_most(text: &[u8], most: usize) -> Option<usize>
    ensures { IfSome result (λ n. n ≤ most) }
{
    let n = number(text)? as usize;
    if n <= most { Some(n) } else { None }
}

// How many bytes of out a word lends.
pub fn lent(text: &[u8], out: &[u8]) -> Option<usize>
    ensures { IfSome result (λ n. n ≤ length out.now) }
{
    at_most(text, out.len())
}

// The GUID whose sixteen bytes a word spells.
pub fn guid(text: &[u8]) -> Option<Guid> {
    let mut space = [0u8; 16];
    let (read, _) = bytes(text, &mut space)?;
    let ([low, high], []) = read.as_chunks::<8>() else {
        return None;
    };
    Some(Guid {
        low: u64::from_le_bytes(*low),
        high: u64::from_le_bytes(*high),
    })
}
