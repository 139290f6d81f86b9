// The longest page of elements where no two share a serial number. Each is a group by itself, so that nothing has to be gathered into
// groups, and the page is that of the wanted elements.
ghost use Rattle.std.specs.Prelude.{◌≡◌, ◌^◌, ◌≤◌, length};
ghost use Rattle.laws.specs.Placed.{laid};
ghost use Rattle.ranges.specs.RangeTable.{ranges_at};
ghost use Rattle.store.specs.Elements.{elements_of};
ghost use Rattle.order.specs.Order.{ordered};
ghost use Rattle.order.specs.Queue.{chosen, queue_of};
ghost use Rattle.pages.specs.Tables.{ToChoose, DecidesPage};

use crate::page::{Bounds, Decided};
use crate::weighed::{Wanted, Weights, length_column};
use crate::whole::decide_queued;
use order::queue::queue_rows;
use store::table::Elements;

// The longest page of those of all elements whose flag is not 0, queued in row order, each as long as its row says.
pub(crate) fn decide_singles(
    all: Elements,
    flags: &[u8],
    known: &mut [u64],
    count: usize,
    queue: &mut [u8],
    bounds: Bounds,
) -> Decided
    requires { ToChoose all.rows.now all.ids.now all.count queue.old known.old count bounds.most × (all.count ≤ length flags.now) × (bounds.fixed ≤ 2 ^ 32) }
    ensures { (queue.new ≡ laid 0 (queue_of (elements_of all.entry) flags.now) queue.old) × DecidesPage (ordered (chosen (elements_of all.entry) flags.now)) (ranges_at known.old 0 count) bounds result known.new }
{
    let wanted = queue_rows(all, flags, queue);
    let weights = Weights {
        all,
        lengths: all.rows,
        column: length_column(),
    };
    let wanted = Wanted {
        queue,
        count: wanted,
    };
    decide_queued(weights, flags, wanted, known, count, bounds)
}
