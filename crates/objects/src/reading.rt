// The state of a reader that goes along a layout, and the steps for its fields. A step after a fault does nothing: the
// first fault from left to right stays.
ghost use Rattle.std.specs.Prelude.{◌≡◌, ◌+◌, ◌-◌, ◌≤◌, ◌<◌, length, take, drop};
ghost use Rattle.laws.specs.Bytes.{le};
ghost use Rattle.objects.specs.Steps.{place_of, value_of, valued, need, fixed_in, number, number_is, null_id, skip, guid_here, id_here, serial_here, on_field};

use crate::header::left_of;
use numbers::compact;
use numbers::extended_guid::{self, ExtendedGuid};
use numbers::guid::{Guid, guid_at};
use numbers::refusal::{Fault, Refusal, at_place};
use numbers::serial::{self, Serial};

// The place behind a field, and the field; or the refusal.
pub type Reads<T> = Result<(usize, T), Refusal>;

// The place, and the number that was read last; or the refusal.
pub type Reading = Reads<u64>;

// At the front of a part.
pub const FRONT: Reading = Ok((0, 0));

pub type ReadingGuid = Reads<Guid>;

pub type ReadingId = Reads<ExtendedGuid>;

pub type ReadingSerial = Reads<Serial>;

// The steps for fields.
pub trait ReadFields {
    // The place (0 after a fault).
    fn place(self) -> usize;

    // The number that was read last (0 after a fault).
    fn value(self) -> u64;

    // The number to carry on.
    fn valued(self, v: u64) -> Reading;

    // Refusal k at p, unless a test holds.
    fn need(self, fine: bool, k: u8, p: usize) -> Reading;

    // A little-endian number of n bytes, from least to most; else k at its place.
    fn fixed_in(self, s: &[u8], n: usize, least: u64, most: u64, k: u8) -> Reading
        requires { n ≤ 8 };

    // A compact integer, with its own 2 and 3, which is for padding that is not taken.
    fn number(self, s: &[u8], padding: bool) -> Reading;

    // A compact integer that must be x; else k at its place.
    fn number_is(self, s: &[u8], x: u64, k: u8, padding: bool) -> Reading;

    // n bytes that are not divided.
    fn skip(self, s: &[u8], n: u64) -> Reading;

    // A GUID: 2 where a byte is missing.
    fn guid(self, s: &[u8]) -> ReadingGuid;

    // An extended GUID, with its own 2 and 3.
    fn extended_guid(self, s: &[u8]) -> ReadingId;

    // An extended GUID that must be null; else k at its place.
    fn null_id(self, s: &[u8], k: u8) -> Reading;

    // A serial number, with its own 2 and 3.
    fn serial(self, s: &[u8]) -> ReadingSerial;
}

impl ReadFields for Reading {
    #[tactic(auto, unfolding(crate::specs::Steps::place_of))]
    fn place(self) -> usize
        ensures { result ≡ place_of self }
    {
        match self {
            Ok((at, _)) => at,
            Err(_) => 0,
        }
    }

    #[tactic(auto, unfolding(crate::specs::Steps::value_of))]
    fn value(self) -> u64
        ensures { result ≡ value_of self }
    {
        match self {
            Ok((_, v)) => v,
            Err(_) => 0,
        }
    }

    #[tactic(auto, unfolding(crate::specs::Steps::valued))]
    fn valued(self, v: u64) -> Reading
        ensures { result ≡ valued v self }
    {
        let (at, _) = self?;
        Ok((at, v))
    }

    #[tactic(auto, unfolding(crate::specs::Steps::need))]
    fn need(self, fine: bool, k: u8, p: usize) -> Reading
        ensures { result ≡ need fine k p self }
    {
        let (at, v) = self?;
        if fine {
            return Ok((at, v));
        }
        Err(at_place(k, p))
    }

    #[tactic(auto, unfolding(crate::specs::Steps::fixed_in))]
    fn fixed_in(self, s: &[u8], n: usize, least: u64, most: u64, k: u8) -> Reading
        requires { n ≤ 8 }
        ensures { result ≡ fixed_in s.now n least most k self }
    {
        let (at, _) = self?;
        let left = left_of(s.len(), at);
        if left < n {
            return Err(at_place(Fault::RunsPast as u8, at));
        }
        let v = fixed_at(s, at, n);
        if v < least {
            return Err(at_place(k, at));
        }
        if most < v {
            return Err(at_place(k, at));
        }
        Ok((at + n, v))
    }

    #[tactic(auto, unfolding(crate::specs::Steps::number))]
    fn number(self, s: &[u8], padding: bool) -> Reading
        ensures { result ≡ number padding s.now self }
    {
        let (at, _) = self?;
        if s.len() < at {
            return Err(at_place(Fault::RunsPast as u8, at));
        }
        match compact::item(&s[at..], padding) {
            Ok((v, n, _)) => Ok((at + n, v)),
            Err(r) => Err(at_place(r.number, at)),
        }
    }

    #[tactic(auto, unfolding(crate::specs::Steps::number_is))]
    fn number_is(self, s: &[u8], x: u64, k: u8, padding: bool) -> Reading
        ensures { result ≡ number_is padding s.now x k self }
    {
        let (end, v) = self.number(s, padding)?;
        if v != x {
            return Err(at_place(k, self.place()));
        }
        Ok((end, v))
    }

    #[tactic(auto, unfolding(crate::specs::Steps::skip))]
    fn skip(self, s: &[u8], n: u64) -> Reading
        ensures { result ≡ skip s.now n self }
    {
        let (at, _) = self?;
        let left = left_of(s.len(), at);
        if (left as u64) < n {
            return Err(at_place(Fault::RunsPast as u8, at));
        }
        Ok((at + n as usize, 0))
    }

    #[tactic(auto, unfolding(crate::specs::Steps::guid_here))]
    fn guid(self, s: &[u8]) -> ReadingGuid
        ensures { result ≡ guid_here s.now self }
    {
        let (at, _) = self?;
        let left = left_of(s.len(), at);
        if left < 16 {
            return Err(at_place(Fault::RunsPast as u8, at));
        }
        Ok((at + 16, guid_at(&s[at..])))
    }

    #[tactic(auto, unfolding(crate::specs::Steps::id_here))]
    fn extended_guid(self, s: &[u8]) -> ReadingId
        ensures { result ≡ id_here s.now self }
    {
        let (at, _) = self?;
        if s.len() < at {
            return Err(at_place(Fault::RunsPast as u8, at));
        }
        match extended_guid::item(&s[at..]) {
            Ok((x, n)) => Ok((at + n, x)),
            Err(r) => Err(at_place(r.number, at)),
        }
    }

    #[tactic(auto, unfolding(crate::specs::Steps::null_id))]
    fn null_id(self, s: &[u8], k: u8) -> Reading
        ensures { result ≡ null_id s.now k self }
    {
        let (at, x) = self.extended_guid(s)?;
        if x.is_some() {
            return Err(at_place(k, self.place()));
        }
        Ok((at, 0))
    }

    #[tactic(auto, unfolding(crate::specs::Steps::serial_here))]
    fn serial(self, s: &[u8]) -> ReadingSerial
        ensures { result ≡ serial_here s.now self }
    {
        let (at, _) = self?;
        if s.len() < at {
            return Err(at_place(Fault::RunsPast as u8, at));
        }
        match serial::item(&s[at..]) {
            Ok((x, n)) => Ok((at + n, x)),
            Err(r) => Err(at_place(r.number, at)),
        }
    }
}

// The number of n bytes at a place.
fn fixed_at(s: &[u8], at: usize, n: usize) -> u64
    requires { (n ≤ 8) × (n ≤ length s.now - at) }
    ensures { result ≡ le (take n (drop at s.now)) }
{
    if s.len() < at {
        return 0;
    }
    numbers::bytes::read_le(&s[at..], n)
}

// On from behind a field, whatever it is.
pub trait GoesOn {
    fn on(self) -> Reading;
}

impl<T: Drop> GoesOn for Reads<T> {
    #[tactic(auto, unfolding(crate::specs::Steps::on_field))]
    fn on(self) -> Reading
        ensures { result ≡ on_field self }
    {
        let (at, _) = self?;
        Ok((at, 0))
    }
}
