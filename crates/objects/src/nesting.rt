// One object and a run of objects, which call each other: `read_object` calls `read_run` for the inside of a compound object, and a turn of
// `read_run` calls `read_object`. The depth falls with each compound object that is opened, the bytes left from turn to turn. A run is one
// loop, so that the stack grows with the depth alone; without a call it goes by plain objects with short headers and by its own end only.
// Most headers are short, a start of two bytes or an end of one, and these are told by their bytes, without a `Header`. What the two answer
// is one number, since an enum would come back through memory from every compound object; `pass_object` and `pass_run` make a `Passed` of
// it, once.
ghost use Rattle.std.specs.Prelude.{◌≡◌, ◌≤◌, ◌<◌, length};
ghost use Rattle.objects.specs.Nesting.{data_past, object_at, run_at};
ghost use Rattle.objects.specs.Next.{short_number, next_at, opened_at, met_by, met_at, refused_from, told_refusal, told_number};
ghost use Rattle.objects.specs.Header.{header_at};

use crate::header::{Header, SHORT_TYPES, header_at, left_of, length_at, short_number};
use numbers::compact::PADDING_TAKEN;
use numbers::refusal::{Fault, Refusal, at_place};

// The place behind what was passed over.
pub type Passed = Result<usize, Refusal>;

// The place behind the data of a header with the length n that ends at `at`.
#[tactic(auto, unfolding(crate::specs::Nesting::data_past))]
fn data_past(s: &[u8], at: usize, n: u64, padding: bool) -> Passed
    ensures { result ≡ data_past padding s.now at n }
{
    let (v, from) = length_at(s, at, n, padding)?;
    let left = left_of(s.len(), from);
    if (left as u64) < v {
        return Err(at_place(Fault::RunsPast as u8, from));
    }
    Ok(from + v as usize)
}

// What stands at a place of a run: an object that was passed over whole; the start of a compound object, with its type and the place
// behind its own data; or an end, with its type and the place behind it.
#[derive(Drop)]
enum Next {
    Past(usize),
    Opens(u64, usize),
    Ends(u64, usize),
}

// The same told by its header, of any form, with so many compound objects still to be opened.
#[tactic(auto, unfolding(crate::specs::Next::next_at))]
fn next_by_header(s: &[u8], at: usize, depth: usize, padding: bool) -> Result<Next, Refusal>
    ensures { result ≡ next_at padding s.now at depth }
{
    match header_at(s, at)? {
        Header::End(kind, used) => Ok(Next::Ends(kind, at + used)),
        Header::Start(kind, compound, n, used) => {
            if compound && depth == 0 {
                return Err(at_place(Fault::TooDeep as u8, at));
            }
            let end = data_past(s, at + used, n, padding)?;
            if compound {
                return Ok(Next::Opens(kind, end));
            }
            Ok(Next::Past(end))
        }
    }
}

// The place behind the data of a compound object whose start w has two bytes, if a level is left to open it and its data is there; 0 for
// anything else. A number, and no `Next`, because most compound objects start so. A length of over 127 does not come in two bytes: the
// compiler sees that and leaves the test out, and the proof needs no law about bytes. That a start has no data is a case of its own for the
// reason that `met_at` gives.
fn opened_at(s: &[u8], at: usize, w: u64, depth: usize) -> usize
    requires { w ≡ short_number s.now at }
    ensures { result ≡ opened_at s.now at depth }
{
    if w % 8 != 4 {
        return 0;
    }
    if depth == 0 {
        return 0;
    }
    let n = w / 8 / SHORT_TYPES;
    if n == 0 {
        return at + 2;
    }
    let left = (s.len() - at - 2) as u64;
    if left < n {
        return 0;
    }
    if 127 < n {
        return 0;
    }
    at + 2 + n as usize
}

// From here on a number is a refusal, and no place: every slice has fewer bytes than 2^63. One bit tells the two apart.
const REFUSED: usize = 0x8000000000000000;

// A refusal as one number: by its place, if `placed`, or else by its own number.
fn told_refusal(r: Refusal, placed: bool) -> usize
    requires { r.place < refused_from }
    ensures { result ≡ told_refusal placed r }
{
    if placed {
        return REFUSED + r.place;
    }
    REFUSED + r.number as usize
}

// The object at a place of the input, with so many compound objects still to be opened: the run inside it has one level fewer. What comes
// back is the place behind it, or a refusal as one number; that is why the place must lie within the input, as a fault's place then does
// too. A short start and any other lead to one call of `read_run`.
#[cycle(read_object_read_run)]
fn read_object(s: &[u8], at: usize, depth: usize, placed: bool, padding: bool) -> usize
    requires { at ≤ length s.now }
    ensures { result ≡ told_number placed (object_at padding s.now at depth) }
{
    let w = short_number(s, at);
    let mut kind = w / 8 % SHORT_TYPES;
    let mut inside = opened_at(s, at, w, depth);
    if inside == 0 {
        match next_by_header(s, at, depth, padding) {
            Err(r) => return told_refusal(r, placed),
            Ok(Next::Past(e)) => return e,
            Ok(Next::Ends(_, _)) => return told_refusal(
                at_place(Fault::WrongEnd as u8, at),
                placed,
            ),
            Ok(Next::Opens(k, e)) => {
                kind = k;
                inside = e;
            }
        }
    }
    read_run(s, inside, depth - 1, kind, placed, padding)
}

// What a run meets at a place: a plain object with a short header, and the place behind it; the run's own end, and the place behind it; or
// what is for `read_object`, a fault too.
#[derive(Drop)]
enum Met {
    Plain(usize),
    Ended(usize),
    Object,
}

// The same as `met_at`, by a header of any form that is no short start of a plain object. Only an end counts, which has no true length.
fn met_by_header(s: &[u8], at: usize, kind: u64) -> Met
    ensures { result ≡ met_by kind at (header_at s.now at) }
{
    match next_by_header(s, at, 0, PADDING_TAKEN) {
        Err(_) => Met::Object,
        Ok(Next::Past(_)) => Met::Object,
        Ok(Next::Opens(_, _)) => Met::Object,
        Ok(Next::Ends(k, e)) => {
            if k == kind {
                return Met::Ended(e);
            }
            Met::Object
        }
    }
}

// What a run of the open object of type `kind` meets at a place. That a start has no data is a case of its own because the place behind
// it then does not wait for the length, if the processor guesses right; what is told is the same.
fn met_at(s: &[u8], at: usize, kind: u64) -> Met
    ensures { result ≡ met_at s.now kind at }
{
    let w = short_number(s, at);
    if w % 8 == 0 {
        let n = w / 8 / SHORT_TYPES;
        if n == 0 {
            return Met::Plain(at + 2);
        }
        let left = (s.len() - at - 2) as u64;
        if left < n {
            return Met::Object;
        }
        if 127 < n {
            return Met::Object;
        }
        return Met::Plain(at + 2 + n as usize);
    }
    if w % 4 == 1 {
        if s[at] as u64 / 4 == kind {
            return Met::Ended(at + 1);
        }
        return Met::Object;
    }
    if w % 8 == 4 {
        return Met::Object;
    }
    met_by_header(s, at, kind)
}

// Objects up to the end of the open object of type `kind`; what comes back is as of `read_object`.
#[cycle(read_object_read_run)]
fn read_run(s: &[u8], at: usize, depth: usize, kind: u64, placed: bool, padding: bool) -> usize
    requires { at ≤ length s.now }
    ensures { result ≡ told_number placed (run_at padding s.now at depth kind) }
{
    let mut i = at;
    // What is met ends the loop, and not a count.
    loop {
        match met_at(s, i, kind) {
            Met::Plain(e) => {
                i = e;
            }
            Met::Ended(e) => return e,
            Met::Object => {
                let e = read_object(s, i, depth, placed, padding);
                if REFUSED <= e {
                    return e;
                }
                i = e;
            }
        }
    }
}

// The object at a place of the input, as a `Passed`. What is refused is read once more, for the fault's place, and nothing else is read
// twice. Ruled out (proofs/WrongAnswers): `0C 00 05` ended at 2, behind its own data; the same taken with no level left.
pub fn pass_object(s: &[u8], at: usize, depth: usize, padding: bool) -> Passed
    ensures { result ≡ object_at padding s.now at depth }
{
    if s.len() < at {
        return Err(at_place(Fault::RunsPast as u8, at));
    }
    let e = read_object(s, at, depth, false, padding);
    if e < REFUSED {
        return Ok(e);
    }
    let place = read_object(s, at, depth, true, padding) - REFUSED;
    Err(at_place((e - REFUSED) as u8, place))
}

// A run, as a `Passed`, like an object: the same lines around another reader, which would be called twice in a closure, too. Ruled out (proofs/WrongAnswers): `09`, an end of type 2, taken for one of type 1; a run without
// an end.
pub(crate) fn pass_run(s: &[u8], at: usize, depth: usize, kind: u64, padding: bool) -> Passed
    ensures { result ≡ run_at padding s.now at depth kind }
{
    if s.len() < at {
        return Err(at_place(Fault::RunsPast as u8, at));
    }
    let e = read_run(s, at, depth, kind, false, padding);
    if e < REFUSED {
        return Ok(e);
    }
    let place = read_run(s, at, depth, kind, true, padding) - REFUSED;
    Err(at_place((e - REFUSED) as u8, place))
}
