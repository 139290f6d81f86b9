// The steps for objects: starts and ends that a layout has, contents that are only nested, and data runs.
ghost use Rattle.std.specs.Prelude.{◌≡◌, ◌+◌, ◌-◌, ◌<◌, ◌^◌, take, drop};
ghost use Rattle.objects.specs.Steps.{length_to, start_on, start_here, length_is, start_of_length, end_on, end_here, start_is, next_is, inside, finish, carried, run_here, closed_at, closed, Good, GoodIn};
ghost use Rattle.objects.specs.Header.{header_at, length_at};
ghost use Rattle.objects.specs.Results.Reading.{At};
ghost use Rattle.objects.specs.Next.{short_is};

use crate::header::{Header, header_at, length_at, short_number};
use crate::nesting::pass_run;
use crate::reading::{ReadFields, Reading};
use numbers::refusal::{Fault, Refusal, at_place};

// Nothing is open: no object has this type (proofs/Types).
pub const NOTHING: u64 = 0xFFFF;

// The compound bit of a start: there are objects inside, or there are none.
pub const COMPOUND: bool = true;

pub const PLAIN: bool = false;

// Whether the layout has room for one more such object: without it, 9.
pub const ROOM: bool = true;

pub const NO_ROOM: bool = false;

// The place where the data begins, with its length as the number.
fn length_to(s: &[u8], at: usize, n: u64, padding: bool) -> Reading
    ensures { result ≡ length_to (length_at padding s.now at n) }
{
    let (v, from) = length_at(s, at, n, padding)?;
    Ok((from, v))
}

// The steps for objects. What a start is asked for are five words of the layout, other ones at each place: a struct of them would be
// built from the same five words.
pub trait ReadObjects {
    // The start of an object of this type and compound bit, inside an open object of type `outer`; 9 without room for one
    // more. The number is then the length of its data.
    fn start(
        self,
        s: &[u8],
        outer: u64,
        kind: u64,
        compound: bool,
        room: bool,
        padding: bool,
    ) -> Reading;

    // A start with the data length that the layout fixes.
    fn start_of_length(
        self,
        s: &[u8],
        outer: u64,
        kind: u64,
        compound: bool,
        room: bool,
        n: u64,
        padding: bool,
    ) -> Reading;

    // The end of the open object of type `kind`.
    fn end(self, s: &[u8], kind: u64) -> Reading;

    // Whether a start of this type stands here.
    fn next_is(self, s: &[u8], kind: u64) -> bool;

    // Well-nested contents up to the end of the open object of type `kind`.
    fn inside(self, s: &[u8], depth: usize, kind: u64, padding: bool) -> Reading;

    // Nothing stands here.
    fn finish(self, s: &[u8]) -> Reading;

    // The data run that begins here, or as much of it as there is: a part of the input that starts in the middle.
    fn run<'a>(self, s: &'a [u8]) -> &'a [u8];
}

impl ReadObjects for Reading {
    #[tactic(auto, unfolding(crate::specs::Steps::start_here))]
    fn start(
        self,
        s: &[u8],
        outer: u64,
        kind: u64,
        compound: bool,
        room: bool,
        padding: bool,
    ) -> Reading
        ensures { result ≡ start_here padding s.now outer kind compound room self }
    {
        let (at, _) = self?;
        start_at(s, at, outer, kind, compound, room, padding)
    }

    #[tactic(auto, unfolding(crate::specs::Steps::start_of_length))]
    fn start_of_length(
        self,
        s: &[u8],
        outer: u64,
        kind: u64,
        compound: bool,
        room: bool,
        n: u64,
        padding: bool,
    ) -> Reading
        ensures { result ≡ start_of_length padding s.now outer kind compound room n self }
    {
        let opened = self.start(s, outer, kind, compound, room, padding);
        length_is(opened, n, self.place())
    }

    #[tactic(auto, unfolding(crate::specs::Steps::end_here))]
    fn end(self, s: &[u8], kind: u64) -> Reading
        ensures { result ≡ end_here s.now kind self }
    {
        let (at, _) = self?;
        end_at(s, at, kind)
    }

    #[tactic(auto, unfolding(crate::specs::Steps::next_is))]
    fn next_is(self, s: &[u8], kind: u64) -> bool
        ensures { result ≡ next_is s.now kind self }
    {
        match self {
            Ok((at, _)) => starts_at(s, at, kind),
            Err(_) => false,
        }
    }

    #[tactic(auto, unfolding(crate::specs::Steps::inside))]
    fn inside(self, s: &[u8], depth: usize, kind: u64, padding: bool) -> Reading
        ensures { result ≡ inside padding s.now depth kind self }
    {
        let (at, _) = self?;
        let end = pass_run(s, at, depth, kind, padding)?;
        Ok((end, 0))
    }

    #[tactic(auto, unfolding(crate::specs::Steps::finish))]
    fn finish(self, s: &[u8]) -> Reading
        ensures { result ≡ finish s.now self }
    {
        let (at, v) = self?;
        if at < s.len() {
            return Err(at_place(Fault::WrongLayout as u8, at));
        }
        Ok((at, v))
    }

    #[tactic(auto, unfolding(crate::specs::Steps::run_here))]
    fn run<'a>(self, s: &'a [u8]) -> &'a [u8]
        ensures { result.now ≡ run_here s.now self }
    {
        match self {
            Ok((from, n)) => part(s, from, n),
            Err(_) => part(s, 0, 0),
        }
    }
}

// Back from the run that begins at c, read by its fields to f. Ruled out (proofs/WrongAnswers): a byte left over that is told behind
// the run; one that is taken.
pub fn closed(c: Reading, s: &[u8], f: Reading) -> Reading
    requires { Good (run_here s.now c) f }
    ensures { result ≡ closed s.now c f }
{
    let (from, n) = c?;
    let m = part(s, from, n).len();
    closed_at(from, n, m, f)
}

// The data's length must be n; else 5 at the header's place p.
#[tactic(auto, unfolding(crate::specs::Steps::length_is))]
fn length_is(c: Reading, n: u64, p: usize) -> Reading
    ensures { result ≡ length_is n p c }
{
    let (from, v) = c?;
    if v != n {
        return Err(at_place(Fault::WrongLayout as u8, p));
    }
    Ok((from, v))
}

// Whether a start of this type stands at a place: by its two bytes where they are one.
fn starts_at(s: &[u8], at: usize, kind: u64) -> bool
    ensures { result ≡ start_is kind (header_at s.now at) }
{
    let w = short_number(s, at);
    if w % 4 == 0 {
        return w / 8 % 64 == kind;
    }
    match header_at(s, at) {
        Ok(Header::Start(k, _, _, _)) => k == kind,
        Ok(Header::End(_, _)) | Err(_) => false,
    }
}

// The end of the open object of type `kind`: by its first byte where it has no second.
fn end_at(s: &[u8], at: usize, kind: u64) -> Reading
    ensures { result ≡ end_on kind at (header_at s.now at) }
{
    let w = short_number(s, at);
    if w % 4 == 1 {
        if s[at] as u64 / 4 == kind {
            return Ok((at + 1, 0));
        }
    }
    match header_at(s, at)? {
        Header::Start(_, _, _, _) => Err(at_place(Fault::WrongLayout as u8, at)),
        Header::End(k, used) => {
            if k == kind {
                return Ok((at + used, 0));
            }
            Err(at_place(Fault::WrongEnd as u8, at))
        }
    }
}

// Whether a start of two bytes is of this type and compound bit.
#[tactic(auto, unfolding(crate::specs::Next::short_is))]
fn short_is(w: u64, kind: u64, compound: bool) -> bool
    ensures { result ≡ short_is w kind compound }
{
    w % 4 == 0 && w / 8 % 64 == kind && (w / 4 % 2 == 1) == compound
}

// The start that `start` of `ReadObjects` asks for, by its two bytes where they are one; a length of over 127 does not come in two bytes.
fn start_at(
    s: &[u8],
    at: usize,
    outer: u64,
    kind: u64,
    compound: bool,
    room: bool,
    padding: bool,
) -> Reading
    ensures { result ≡ start_on padding s.now outer kind compound room at (header_at s.now at) }
{
    if room {
        let w = short_number(s, at);
        if short_is(w, kind, compound) {
            let n = w / 8 / 64;
            if n < 128 {
                return Ok((at + 2, n));
            }
        }
    }
    start_by_header(s, at, outer, kind, compound, room, padding)
}

fn start_by_header(
    s: &[u8],
    at: usize,
    outer: u64,
    kind: u64,
    compound: bool,
    room: bool,
    padding: bool,
) -> Reading
    ensures { result ≡ start_on padding s.now outer kind compound room at (header_at s.now at) }
{
    match header_at(s, at)? {
        Header::End(k, _) => {
            if k == outer {
                return Err(at_place(Fault::WrongLayout as u8, at));
            }
            Err(at_place(Fault::WrongEnd as u8, at))
        }
        Header::Start(k, b, n, used) => {
            if k != kind || b != compound {
                return Err(at_place(Fault::WrongLayout as u8, at));
            }
            if !room {
                return Err(at_place(Fault::TooMany as u8, at));
            }
            length_to(s, at + used, n, padding)
        }
    }
}

// The data run of n bytes at `from`, or as much of it as there is.
pub fn part(s: &[u8], from: usize, n: u64) -> &[u8]
    ensures { result.now ≡ take n (drop from s.now) }
{
    let len = s.len();
    if len < from {
        return &s[0..0];
    }
    if (len - from) as u64 <= n {
        return &s[from..];
    }
    let e = from + n as usize;
    &s[from..e]
}

// A refusal carried back to the whole input.
fn carry(from: usize, r: Refusal) -> Refusal
    requires { from + r.place < 2 ^ 64 }
    ensures { result ≡ carried from r }
{
    Refusal {
        number: r.number,
        input: r.input,
        place: from + r.place,
        needed: r.needed,
    }
}

fn closed_at(from: usize, n: u64, m: usize, f: Reading) -> Reading
    requires { (from + m < 2 ^ 64) × GoodIn m f }
    ensures { result ≡ closed_at (At from n) m f }
{
    match f {
        Err(r) => Err(carry(from, r)),
        Ok((p, v)) => {
            if p < m {
                return Err(at_place(Fault::WrongLayout as u8, from + p));
            }
            if (m as u64) < n {
                return Err(at_place(Fault::RunsPast as u8, from + m));
            }
            Ok((from + m, v))
        }
    }
}
