// Serial numbers: null, or a GUID and a number of 64 bits.
ghost use Rattle.std.specs.Prelude.{◌≡◌};
ghost use Rattle.numbers.specs.Serial.{numbered, read_serial};
ghost use Rattle.numbers.specs.Calls.{ReadsSerial, WritesSerial};

use crate::bytes::read_le;
use crate::compact::write_zero;
use crate::guid::{Guid, guid_at, write_tagged};
use crate::refusal::{Fault, Refusal, Wrote, at_front, within_limit};

// None is null.
pub type Serial = Option<(Guid, u64)>;

// A serial number and the bytes used.
pub type ReadSerial = Result<(Serial, usize), Refusal>;

// Byte 128, the GUID, and a number of eight bytes.
fn read_numbered(s: &[u8]) -> ReadSerial
    ensures { result ≡ numbered s.now }
{
    if s.len() < 25 {
        return Err(at_front(Fault::RunsPast as u8));
    }
    let g = guid_at(&s[1..]);
    let x = read_le(&s[17..], 8);
    Ok((Some((g, x)), 25))
}

// The serial number at the front of a part.
pub fn item(s: &[u8]) -> ReadSerial
    ensures { result ≡ read_serial s.now }
{
    if s.len() == 0 {
        return Err(at_front(Fault::RunsPast as u8));
    }
    let b = s[0];
    if b == 0 {
        return Ok((None, 1));
    }
    if b == 128 {
        return read_numbered(s);
    }
    Err(at_front(Fault::NoForm as u8))
}

// A single serial number. Ruled out (proofs/WrongAnswers): telling 2 of `81`, a first byte in no form; telling 3 of `80`
// alone, whose form is there and whose bytes are not.
#[tactic(auto, unfolding(crate::specs::Calls::single))]
pub fn read_serial(s: &[u8]) -> ReadSerial
    ensures { ReadsSerial s.now result }
{
    within_limit(s)?;
    item(s)
}

// A single serial number. Ruled out (proofs/WrongAnswers): a refusal that needs 24 bytes; null in two bytes.
pub fn write_serial(out: &mut [u8], serial: Serial) -> Wrote
    ensures { WritesSerial serial out.old result out.new }
{
    match serial {
        None => write_zero(out),
        Some((g, x)) => write_tagged(out, 8, g, x),
    }
}
