// The longest page of groups, where elements share a serial number: a group counts as one, with the stored lengths of all its members, and
// goes out whole. One of its rows stands for it while the page is decided, weighed by their sum.
ghost use Rattle.std.specs.Prelude.{◌≡◌, ◌^◌, ◌≤◌, length};
ghost use Rattle.ranges.specs.RangeTable.{ranges_at};
ghost use Rattle.order.specs.Links.{SomeTest};
ghost use Rattle.pages.specs.Weighed.{sum_column, weighed_in};
ghost use Rattle.pages.specs.Tables.{ToChoose, ToSum, DecidesPage, DecidesChosen};

use crate::page::{Bounds, Chosen, Decided, decide, taken_in};
use crate::weighed::{Wanted, Weights, sum_column};
use crate::whole::decide_queued;
use order::groups::group_rows;
use order::queue::{mark_rows, rises};
use store::table::{Elements, MOST_ELEMENTS};

// Where the groups end, from none of them to all.
const ENDS: usize = MOST_ELEMENTS + 1;

// The longest page of rows that stand for groups, each as long as its sum, in the order of their queue. If their positions rise, this is the
// store's order already, and no other is tried.
fn decide_sums(
    all: Elements,
    sums: &[u64],
    earliest: Wanted,
    known: &mut [u64],
    count: usize,
    bounds: Bounds,
) -> Decided
    requires { ToSum all.rows.now all.ids.now all.count sums.now earliest.queue.now earliest.count known.old count bounds.most × (bounds.fixed ≤ 2 ^ 32) }
    ensures { DecidesPage (weighed_in all.entry.rows.now all.entry.ids.now sums.now sum_column earliest.entry.count earliest.entry.queue.now) (ranges_at known.old 0 count) bounds result known.new }
{
    let weights = Weights {
        all,
        lengths: sums,
        column: sum_column(),
    };
    if rises(earliest.queue, earliest.count) {
        return decide(weights, earliest, known, count, bounds);
    }
    let mut marks = [0u8; MOST_ELEMENTS];
    mark_rows(earliest.queue, earliest.count, &mut marks);
    decide_queued(weights, &marks, earliest, known, count, bounds)
}

// The longest page of the groups of which one member's flag is not 0, and the members of those that are sent at the front of the queue.
pub(crate) fn decide_groups(
    all: Elements,
    flags: &[u8],
    known: &mut [u64],
    count: usize,
    queue: &mut [u8],
    bounds: Bounds,
) -> Chosen
    requires { ToChoose all.rows.now all.ids.now all.count queue.old known.old count bounds.most × (all.count ≤ length flags.now) × (bounds.fixed ≤ 2 ^ 32) × SomeTest all.rows.now all.ids.now all.count flags.now }
    ensures { DecidesChosen all.entry.rows.now all.entry.ids.now all.entry.count flags.now (ranges_at known.old 0 count) bounds result queue.new known.new }
{
    let mut sums = [0u64; MOST_ELEMENTS];
    let mut earliest = [0u8; MOST_ELEMENTS];
    let mut ends = [0usize; ENDS];
    let wanted = group_rows(all, flags, &mut sums, &mut earliest, queue, &mut ends);
    let standing = Wanted {
        queue: &earliest,
        count: wanted,
    };
    let decided = decide_sums(all, &sums, standing, known, count, bounds);
    let sent = taken_in(decided);
    Chosen {
        decided,
        rows: ends[sent],
    }
}
