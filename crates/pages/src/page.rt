// The page under way, and the longest page: wanted elements are taken in their order until the next page is not sendable. One
// element more is priced before it is taken.
ghost use Rattle.std.specs.Prelude.{◌≡◌, ◌+◌, ◌*◌, ◌^◌, ◌≤◌, ◌<◌, length};
ghost use Rattle.ranges.specs.RangeTable.{range_width, ranges_at};
ghost use Rattle.store.specs.Tables.{most_elements};
ghost use Rattle.store.specs.Held.{serial_range};
ghost use Rattle.pages.specs.Decision.{is_sendable, unsent_refusal};
ghost use Rattle.pages.specs.Weighed.{wanted_rows};
ghost use Rattle.pages.specs.Tables.{stopped, ended, whole_of, Priced, laid_with, ToDecide, Decides, taken_in};

use crate::price::{Price, price_of};
use crate::weighed::{Wanted, Weights};
use numbers::refusal::{Fault, Refusal, at_place, too_short};
use objects::layout::ReadObjects;
use order::queue::row_at;
use ranges::shift;
use store::element::Element;
use store::held::serial_range;
use store::knowledge_write::ranges_length;

// The page of so many elements, each of which may stand for a group, so long an answer, so many ranges, and whether a wanted one
// remains.
#[derive(Clone, Copy)]
pub struct Decision {
    pub count: usize,
    pub length: usize,
    pub ranges: usize,
    pub more: bool,
}

// Why no page is sent: 9; or 14 with the needed length.
#[derive(Clone, Copy)]
pub enum Unsent {
    Crowded,
    Short(usize),
}

pub type Decided = Result<Decision, Unsent>;

impl From<Unsent> for Refusal {
    ghost from_gives = { λ u r. r ≡ unsent_refusal u };

    fn from(u: Unsent) -> Refusal {
        match u {
            Unsent::Crowded => at_place(Fault::TooMany as u8, 0),
            Unsent::Short(needed) => too_short(needed),
        }
    }
}

// What was decided, and how many rows of the queue are sent: a group may have more rows than one.
#[derive(Drop)]
pub struct Chosen {
    pub decided: Decided,
    pub rows: usize,
}

// What is asked of a page: at most so many ranges, the limit, the answer's length without elements and ranges, and the output's.
#[derive(Clone, Copy)]
pub struct Bounds {
    pub most: usize,
    pub limit: u64,
    pub fixed: usize,
    pub room: usize,
}

// "A page under way carries its count, its bytes so far and its place"; and the rows of its knowledge, with their bytes.
#[derive(Drop)]
pub struct Page {
    pub count: usize,
    pub bytes: usize,
    pub place: usize,
    pub ranges: usize,
    pub spelled: usize,
}

// The answer's length: the first range brings a cell knowledge of 25 bytes. Ruled out (proofs/WrongAnswers): these left out;
// counted where there is no range.
#[tactic(auto, unfolding(crate::specs::Tables::whole_of))]
fn whole_of(fixed: usize, stored: usize, ranges: usize, spelled: usize) -> usize
    requires { fixed + 25 + stored + spelled < 2 ^ 64 }
    ensures { result ≡ whole_of fixed stored ranges spelled }
{
    if ranges == 0 {
        return fixed + stored;
    }
    fixed + 25 + stored + spelled
}

// Whether a page of j that asks so much is sendable. Ruled out (proofs/WrongAnswers): the limit put to a page of 1; a page of 2 over
// the limit.
#[tactic(auto, unfolding(crate::specs::Decision::is_sendable))]
fn is_sendable(b: Bounds, j: usize, stored: usize, ranges: usize, whole: usize) -> bool
    ensures { result ≡ is_sendable b.most b.limit b.room j stored ranges whole }
{
    ranges <= b.most && whole <= b.room && (j <= 1 || stored as u64 <= b.limit)
}

impl Page {
    // Nothing taken yet.
    fn new(ranges: usize, spelled: usize) -> Page
        ensures { result ≡ record { count = 0; bytes = 0; place = 0; ranges = ranges; spelled = spelled } }
    {
        Page {
            count: 0,
            bytes: 0,
            place: 0,
            ranges,
            spelled,
        }
    }

    // Takes the wanted element at the place, whose price is p: its serial number goes into the rows.
    fn take(self, t: &mut [u64], x: Element, p: Price) -> Page
        requires { (self.count < most_elements) × (self.place < most_elements) × (self.bytes + x.length < 2 ^ 64) × (self.ranges * range_width ≤ length t.old) × (p.ranges * range_width ≤ length t.old) × Priced t.old self.ranges (serial_range x) p }
        ensures { (result ≡ record { count = self.count + 1; bytes = self.bytes + x.length; place = self.place + 1; ranges = p.ranges; spelled = p.spelled }) × (t.new ≡ laid_with x (ranges_at t.old 0 self.ranges) t.old) }
    {
        shift(t, p.at, p.next, self.ranges, p.range);
        Page {
            count: self.count + 1,
            bytes: self.bytes + x.length,
            place: self.place + 1,
            ranges: p.ranges,
            spelled: p.spelled,
        }
    }

    // What was taken is sent, in an answer of so many bytes.
    fn sent(self, length: usize, more: bool) -> Decision
        ensures { result ≡ record { count = self.count; length = length; ranges = self.ranges; more = more } }
    {
        Decision {
            count: self.count,
            length,
            ranges: self.ranges,
            more,
        }
    }

    // The answer where the next page, of `ranges` and `whole`, is not sendable.
    #[tactic(auto, unfolding(crate::specs::Tables::stopped))]
    fn stop(self, b: Bounds, ranges: usize, whole: usize) -> Decided
        requires { b.fixed + 25 + self.bytes + self.spelled < 2 ^ 64 }
        ensures { result ≡ stopped b.most self.count (whole_of b.fixed self.bytes self.ranges self.spelled) self.ranges ranges whole }
    {
        if self.count == 0 {
            if b.most < ranges {
                return Err(Unsent::Crowded);
            }
            return Err(Unsent::Short(whole));
        }
        let so_far = whole_of(b.fixed, self.bytes, self.ranges, self.spelled);
        Ok(self.sent(so_far, true))
    }

    // The answer where nothing more is wanted.
    #[tactic(auto, unfolding(crate::specs::Tables::ended))]
    fn end(self, b: Bounds) -> Decided
        requires { b.fixed + 25 + self.bytes + self.spelled < 2 ^ 64 }
        ensures { result ≡ ended b.room self.count (whole_of b.fixed self.bytes self.ranges self.spelled) self.ranges }
    {
        let whole = whole_of(b.fixed, self.bytes, self.ranges, self.spelled);
        if self.count == 0 && b.room < whole {
            return Err(Unsent::Short(whole));
        }
        Ok(self.sent(whole, false))
    }
}

// The longest page of so many rows that are queued, in their order, each as long as the column has it; the table of ranges then holds the
// serial numbers of those that are sent too. Ruled out (proofs/WrongAnswers), with nothing wanted and no room: a page that is sent; the
// room as the needed length. (The ranges and their count stay two parameters, as the table is written.)
pub(crate) fn decide(
    weights: Weights,
    wanted: Wanted,
    t: &mut [u64],
    count: usize,
    b: Bounds,
) -> Decided
    requires { ToDecide weights.all.rows.now weights.all.ids.now weights.lengths.now weights.column wanted.count wanted.queue.now t.old count b.most × (b.fixed ≤ 2 ^ 32) }
    ensures { Decides (wanted_rows weights.entry wanted.entry) (ranges_at t.old 0 count) b result t.old t.new }
{
    let mut p = Page::new(count, ranges_length(t, 0, count));
    // The page counts for itself: taking an element brings it to its next place.
    while p.place < wanted.count {
        let x = weights.row(row_at(wanted.queue, p.place));
        let q = price_of(t, p.ranges, p.spelled, serial_range(x));
        let stored = p.bytes + x.length;
        let whole = whole_of(b.fixed, stored, q.ranges, q.spelled);
        if !is_sendable(b, p.count + 1, stored, q.ranges, whole) {
            return p.stop(b, q.ranges, whole);
        }
        p = p.take(t, x, q);
    }
    p.end(b)
}

// How many groups are sent.
pub(crate) fn taken_in(d: Decided) -> usize
    ensures { result ≡ taken_in d }
{
    d.map_or(0, |x| x.count)
}
