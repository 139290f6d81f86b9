// Everything at once. Where all that is wanted cannot fail to be carried, the page is all of it, and the order in which its serial numbers
// are put to the ranges does not matter: the union is the same. So they are put in the store's order, in which they mostly rise, and few
// rows of ranges move. Where it is not sure, but nothing is known yet, all of it is tried so, and if it does not fit, deciding begins again
// in the order of the queue.
ghost use Rattle.std.specs.Prelude.{◌≡◌, [], ℕ, ◌+◌, ◌^◌, ◌≤◌, ◌<◌, length, get_or};
ghost use Rattle.ranges.specs.RangeTable.{ranges_at};
ghost use Rattle.store.specs.Tables.{most_elements};
ghost use Rattle.order.specs.Queue.{chosen};
ghost use Rattle.pages.specs.Weighed.{length_place, weighed, wanted_rows, weighed_rows};
ghost use Rattle.pages.specs.Tables.{takes_all, tries_all, is_whole, ToTry, ToWeigh, DecidesPage, Gathered};

use crate::page::{Bounds, Decided, decide};
use crate::weighed::{Wanted, Weights};
use store::table::MOST_ELEMENTS;

// How many elements, and the sum of their stored lengths.
#[derive(Clone, Copy)]
pub struct Flagged {
    pub count: usize,
    pub stored: usize,
}

// The positions of those rows whose flag is not 0, in the store's order, at the front of a queue. Only these need a length that is
// not long: of another row the column may hold anything.
fn flagged_rows(weights: Weights, flags: &[u8], queue: &mut [u8]) -> Flagged
    requires { (weights.all.count ≤ most_elements) × (weights.all.count ≤ length flags.now) × (weights.all.count ≤ length queue.old) × ((i : ℕ) → i < weights.all.count → length_place weights.column i < length weights.lengths.now) × ((i : ℕ) → i < weights.all.count → 0 < get_or flags.now i 0 → (weighed weights.all.rows.now weights.all.ids.now weights.lengths.now weights.column i).length ≤ 2 ^ 32) }
    ensures { Gathered weights.entry.all.rows.now weights.entry.all.ids.now weights.entry.lengths.now weights.entry.column (chosen (weighed_rows weights.entry.all.rows.now weights.entry.all.ids.now weights.entry.lengths.now weights.entry.column weights.entry.all.count) flags.now) queue.new result }
{
    let mut count = 0;
    let mut stored = 0;
    for i in 0..weights.all.count {
        if flags[i] == 0 {
            continue;
        }
        let x = weights.row(i);
        queue[count] = i as u8;
        count += 1;
        stored += x.length;
    }
    Flagged { count, stored }
}

// Whether so many wanted elements of so many bytes cannot fail to be carried, where so many ranges are known.
#[tactic(auto, unfolding(crate::specs::Tables::takes_all))]
fn takes_all(b: Bounds, count: usize, f: Flagged) -> bool
    requires { (count + f.count ≤ 2 ^ 16) × (b.fixed ≤ 2 ^ 32) × (f.stored ≤ 2 ^ 40) }
    ensures { result ≡ takes_all b count f.count f.stored }
{
    f.count != 0
        && count + f.count <= b.most
        && f.stored as u64 <= b.limit
        && b.fixed + 25 + f.stored + 36 * (count + f.count) <= b.room
}

// Whether all may be tried at once, though it is not sure that they fit: nothing is known yet, so that there is nothing to put back.
#[tactic(auto, unfolding(crate::specs::Tables::tries_all))]
fn tries_all(b: Bounds, count: usize, f: Flagged) -> bool
    requires { (b.fixed ≤ 2 ^ 32) × (f.stored ≤ 2 ^ 40) }
    ensures { result ≡ tries_all b count f.count f.stored }
{
    count == 0
        && f.count != 0
        && f.count <= b.most
        && f.stored as u64 <= b.limit
        && b.fixed + f.stored <= b.room
}

// Whether no wanted element remains.
#[tactic(auto, unfolding(crate::specs::Tables::is_whole))]
fn is_whole(d: Decided) -> bool
    ensures { result ≡ is_whole d }
{
    d.is_ok_and(|x| !x.more)
}

// The page where nothing is known: all of them, if they fit, tried in the store's order; else as many as fit in the order of the queue.
fn try_all(weights: Weights, tried: Wanted, wanted: Wanted, t: &mut [u64], b: Bounds) -> Decided
    requires { ToTry weights.all.rows.now weights.all.ids.now weights.lengths.now weights.column tried.count tried.queue.now wanted.count wanted.queue.now t.old b × (b.fixed ≤ 2 ^ 32) }
    ensures { DecidesPage (wanted_rows weights.entry wanted.entry) [] b result t.new }
{
    let first = decide(weights, tried, t, 0, b);
    if is_whole(first) {
        return first;
    }
    decide(weights, wanted, t, 0, b)
}

// The longest page of those rows whose flag is not 0, each as long as the column has it, in the order of a queue of their positions.
// They are tried in the store's order first, where all of them may be taken at once.
pub(crate) fn decide_queued(
    weights: Weights,
    flags: &[u8],
    wanted: Wanted,
    known: &mut [u64],
    count: usize,
    b: Bounds,
) -> Decided
    requires { ToWeigh weights.all.rows.now weights.all.ids.now weights.all.count weights.lengths.now weights.column flags.now wanted.queue.now wanted.count known.old count b.most × (b.fixed ≤ 2 ^ 32) }
    ensures { DecidesPage (wanted_rows weights.entry wanted.entry) (ranges_at known.old 0 count) b result known.new }
{
    let mut queue = [0u8; MOST_ELEMENTS];
    let all = flagged_rows(weights, flags, &mut queue);
    let tried = Wanted {
        queue: &queue,
        count: all.count,
    };
    if takes_all(b, count, all) {
        return decide(weights, tried, known, count, b);
    }
    if tries_all(b, count, all) {
        return try_all(weights, tried, wanted, known, b);
    }
    decide(weights, wanted, known, count, b)
}
