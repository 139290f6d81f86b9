// How every call of the project refuses, and what a call that writes one item answers.
ghost use Rattle.std.specs.Prelude.{◌≡◌, ◌≤◌, ◌<◌, ◌↔◌, length, IsOk, IsErrOf};
ghost use Rattle.numbers.specs.Refusals.{number_of, fault, fault_at, longest_input, over_long, too_short};

// Why a call refuses, by document 01's numbers.
#[derive(Clone, Copy, PartialEq, Eq, Debug)]
pub enum Fault {
    InputTooLong = 1,
    RunsPast = 2,
    NoForm = 3,
    WrongEnd = 4,
    WrongLayout = 5,
    TooDeep = 6,
    WrongVersion = 7,
    NotServed = 8,
    TooMany = 9,
    NullName = 10,
    SeenBefore = 11,
    FromAboveTo = 12,
    TablesTooShort = 13,
    OutputTooShort = 14,
    OtherIndex = 15,
    NoSerialLeft = 16,
}

impl Fault {
    // The number that is told.
    pub fn number(self) -> u8
        ensures { result ≡ number_of self }
    {
        self as u8
    }
}

// Document 01, 'Why it says no': the number, the input (0: the store, or the first), the place, and the needed length
// for 14 (else 0).
#[derive(Clone, Copy)]
pub struct Refusal {
    pub number: u8,
    pub input: u8,
    pub place: usize,
    pub needed: usize,
}

// An input that is longer is refused with 1.
pub const LONGEST_INPUT: usize = 16777216;

// A fault of the item at the front of the first input.
pub fn at_front(number: u8) -> Refusal
    ensures { result ≡ fault number }
{
    at_place(number, 0)
}

// The same at a place.
pub fn at_place(number: u8, place: usize) -> Refusal
    ensures { result ≡ fault_at number place }
{
    Refusal {
        number,
        input: 0,
        place,
        needed: 0,
    }
}

// The first input is over-long: the limit is the place.
pub fn over_long() -> Refusal
    ensures { result ≡ over_long }
{
    Refusal {
        number: Fault::InputTooLong as u8,
        input: 0,
        place: LONGEST_INPUT,
        needed: 0,
    }
}

// An input within the limit is read; a longer one is refused with 1 before its other faults.
pub fn within_limit(s: &[u8]) -> Result<(), Refusal>
    ensures within { IsOk result ↔ (length s.now ≤ longest_input) }
    ensures over { IsErrOf result over_long ↔ (longest_input < length s.now) }
{
    if LONGEST_INPUT < s.len() {
        return Err(over_long());
    }
    Ok(())
}

// The output is shorter than the item to be written.
pub fn too_short(needed: usize) -> Refusal
    ensures { result ≡ too_short needed }
{
    Refusal {
        number: Fault::OutputTooShort as u8,
        input: 0,
        place: 0,
        needed,
    }
}

// What writing a single item answers: how many bytes it took, or the refusal.
pub type Wrote = Result<usize, Refusal>;
