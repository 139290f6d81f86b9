// The working table of ranges, in normal form: four numbers to a row (the GUID's sixteen bytes as two numbers, the first
// byte highest; from; to). One range is added, one pair of GUID and number is looked up.
#![tactic(auto)]

ghost use Rattle.std.specs.Prelude.{◌≡◌, ◌++◌, ◌∷◌, ◌+◌, ◌-◌, ◌*◌, ◌≤◌, length, take, drop};
ghost use Rattle.talk.specs.Ranges.{is_before, joined, insert, within};
ghost use Rattle.ranges.specs.RangeTable.{range_width, range_at, ranges_at, RangesStand, range_numbers, numbers_of, added_to, laid_in, FirstNotBefore, Gathers};
ghost use Rattle.ranges.specs.Ranged.{range_of, knows};

use numbers::guid::{Guid, swap};
use talk::range::Range;

// How many numbers a row has.
pub const RANGE_WIDTH: usize = 4;

// The number that nothing follows.
pub const LAST: u64 = u64::MAX;

// How many rows there are then; or none was added, for want of room.
pub type Added = Option<usize>;

// A range, and the first row that it does not meet.
#[derive(Drop)]
pub struct Gathered {
    pub range: Range,
    pub next: usize,
}

// Whether a lies wholly before b, and does not touch it. (No order of `Ord`: of two that touch, neither lies before the other.)
fn is_before(a: Range, b: Range) -> bool
    ensures { result ≡ is_before a b }
{
    if a.upper != b.upper {
        return a.upper < b.upper;
    }
    if a.lower != b.lower {
        return a.lower < b.lower;
    }
    a.to != LAST && a.to + 1 < b.from
}

// The numbers from `from` to `to` under a GUID.
#[tactic(auto, unfolding(crate::specs::Ranged::range_of))]
pub fn range_of(g: Guid, from: u64, to: u64) -> Range
    ensures { result ≡ range_of g from to }
{
    Range {
        upper: swap(g.low),
        lower: swap(g.high),
        from,
        to,
    }
}

// Two ranges that touch or overlap, as one.
#[tactic(auto, unfolding(talk::specs::Ranges::joined))]
fn join(a: Range, b: Range) -> Range
    ensures { result ≡ joined a b }
{
    Range {
        upper: a.upper,
        lower: a.lower,
        from: a.from.min(b.from),
        to: a.to.max(b.to),
    }
}

// Row k.
pub fn range_at(t: &[u64], k: usize) -> Range
    requires { k * range_width + range_width ≤ length t.now }
    ensures { result ≡ range_at t.now k }
{
    let at = k * RANGE_WIDTH;
    Range {
        upper: t[at],
        lower: t[at + 1],
        from: t[at + 2],
        to: t[at + 3],
    }
}

// Row k is written.
fn put_range(t: &mut [u64], k: usize, x: Range)
    requires { k * range_width + range_width ≤ length t.old }
    ensures { t.new ≡ take (k * range_width) t.old ++ (range_numbers x ++ drop (k * range_width + range_width) t.old) }
{
    let at = k * RANGE_WIDTH;
    t[at] = x.upper;
    t[at + 1] = x.lower;
    t[at + 2] = x.from;
    t[at + 3] = x.to;
}

// How many rows lie wholly before x: found by halving, as the rows are in order. The last row is looked at first, so that what
// comes in order costs one comparison.
pub fn rows_before(t: &[u64], count: usize, x: Range) -> usize
    requires { RangesStand t.now count }
    ensures { FirstNotBefore t.now count x result }
{
    if count == 0 {
        return 0;
    }
    let last = count - 1;
    if is_before(range_at(t, last), x) {
        return count;
    }
    // By hand, as `partition_point` looks at one row more: with it, looking up took 3 to 13 hundredths longer.
    let mut low = 0;
    let mut high = last;
    while low < high {
        let middle = low + (high - low) / 2;
        if is_before(range_at(t, middle), x) {
            low = middle + 1;
        } else {
            high = middle;
        }
    }
    low
}

// x joined with the rows from i on that it meets.
pub fn gather(t: &[u64], count: usize, i: usize, x: Range) -> Gathered
    requires { (i ≤ count) × (count * range_width ≤ length t.now) }
    ensures { Gathers t.now count i x result }
{
    let mut y = x;
    for j in i..count {
        let z = range_at(t, j);
        if is_before(y, z) {
            return Gathered { range: y, next: j };
        }
        y = join(y, z);
    }
    Gathered {
        range: y,
        next: count,
    }
}

// x as row i, and behind it the rows that were j to count: rows move up or down.
pub fn shift(t: &mut [u64], i: usize, j: usize, count: usize, x: Range)
    requires { (i ≤ j) × (j ≤ count) × (count * range_width ≤ length t.old) × (i * range_width + range_width + (count - j) * range_width ≤ length t.old) }
    ensures { t.new ≡ take (i * range_width) t.old ++ (numbers_of (x ∷ ranges_at t.old j (count - j)) ++ drop (i * range_width + range_width + (count - j) * range_width) t.old) }
{
    // Where one row comes for another, the rows behind it stand.
    if j != i + 1 {
        t.copy_within(j * RANGE_WIDTH..count * RANGE_WIDTH, (i + 1) * RANGE_WIDTH);
    }
    put_range(t, i, x);
}

// A range added to the first `count` rows: the rows are then those with the range inserted; or there is no room, and the
// table is as it was. Ruled out (proofs/KnowledgeWrongAnswers of `store`): two rows for ranges that touch; what stands behind the rows
// put to 0.
pub fn add_range(t: &mut [u64], count: usize, x: Range) -> Added
    requires { RangesStand t.old count }
    ensures { (result ≡ added_to t.old (insert x (ranges_at t.old 0 count))) × (t.new ≡ laid_in t.old (insert x (ranges_at t.old 0 count))) }
{
    let i = rows_before(t, count, x);
    let g = gather(t, count, i, x);
    let y = g.range;
    let j = g.next;
    let moved = count - j;
    let new = i + 1 + moved;
    if t.len() / RANGE_WIDTH < new {
        return None;
    }
    shift(t, i, j, count, y);
    Some(new)
}

// Whether n under the GUID lies in x.
#[tactic(auto, unfolding(talk::specs::Ranges::within))]
fn is_within(x: Range, upper: u64, lower: u64, n: u64) -> bool
    ensures { result ≡ within x upper lower n }
{
    x.upper == upper && x.lower == lower && x.from <= n && n <= x.to
}

// Whether one of the first `count` rows holds n under the GUID: only the first that does not lie before it can. Ruled out
// (proofs/KnowledgeWrongAnswers of `store`): 5 known by a row of 1 to 4, which it touches; 4 not known by it.
pub fn is_known(t: &[u64], count: usize, g: Guid, n: u64) -> bool
    requires { RangesStand t.now count }
    ensures { result ≡ knows (ranges_at t.now 0 count) g n }
{
    let x = range_of(g, n, n);
    let i = rows_before(t, count, x);
    if i == count {
        return false;
    }
    is_within(range_at(t, i), x.upper, x.lower, n)
}
