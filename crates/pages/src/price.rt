// What one more serial number would cost: where it goes among the rows of the working table, how many rows there are then, and
// how many bytes they take. Nothing is written, so that nothing has to be undone.
ghost use Rattle.std.specs.Prelude.{◌≡◌, ◌*◌, ◌≤◌, length};
ghost use Rattle.talk.specs.Ranges.{Normal};
ghost use Rattle.ranges.specs.RangeTable.{range_width, ranges_at};
ghost use Rattle.store.specs.Knowledge.{most_said};
ghost use Rattle.store.specs.KnowledgeWritten.{ranges_bytes};
ghost use Rattle.pages.specs.Tables.{Priced};

use ranges::{gather, rows_before};
use store::knowledge_write::{range_length, ranges_length};
use talk::range::Range;

// `range` takes the place of the rows from `at` to `next`; how many rows there are then, and their bytes.
#[derive(Drop)]
pub struct Price {
    pub at: usize,
    pub next: usize,
    pub range: Range,
    pub ranges: usize,
    pub spelled: usize,
}

// The price of x, where the first `count` rows take `spelled` bytes. Ruled out (proofs/WrongAnswers), in an empty table: no row
// for a new range; its GUID not counted.
pub(crate) fn price_of(t: &[u64], count: usize, spelled: usize, x: Range) -> Price
    requires { (count ≤ most_said) × (count * range_width ≤ length t.now) × (spelled ≡ length (ranges_bytes (ranges_at t.now 0 count))) × Normal (ranges_at t.now 0 count) }
    ensures { Priced t.now count x result }
{
    let at = rows_before(t, count, x);
    let g = gather(t, count, at, x);
    let range = g.range;
    let next = g.next;
    let behind = count - next;
    let left = spelled - ranges_length(t, at, next);
    Price {
        at,
        next,
        range,
        ranges: at + 1 + behind,
        spelled: left + range_length(range),
    }
}
