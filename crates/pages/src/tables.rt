// What is copied out when nothing is refused any more: the ranges.
ghost use Rattle.std.specs.Prelude.{◌≡◌, ◌++◌, ◌+◌, ◌*◌, ◌≤◌, length, take, drop};
ghost use Rattle.ranges.specs.RangeTable.{range_width, ranges_at};
ghost use Rattle.pages.specs.Answer.{range_row, range_rows};

use numbers::guid::swap;
use ranges::{RANGE_WIDTH, range_at};
use talk::range::Range;

// A range as row k of the lent table: its GUID as two little-endian numbers.
fn put_range_row(to: &mut [u64], k: usize, x: Range)
    requires { k * range_width + range_width ≤ length to.old }
    ensures { to.new ≡ take (k * range_width) to.old ++ (range_row x ++ drop (k * range_width + range_width) to.old) }
{
    let at = k * RANGE_WIDTH;
    to[at] = swap(x.upper);
    to[at + 1] = swap(x.lower);
    to[at + 2] = x.from;
    to[at + 3] = x.to;
}

// The first rows of the working table of ranges, as rows of the lent table. Ruled out (proofs/WrongAnswers): the GUID's halves as
// the working table has them; the halves turned.
pub(crate) fn copy_ranges(to: &mut [u64], table: &[u64], rows: usize)
    requires { (rows * range_width ≤ length to.old) × (rows * range_width ≤ length table.now) }
    ensures { to.new ≡ range_rows (ranges_at table.now 0 rows) ++ drop (rows * range_width) to.old }
{
    for k in 0..rows {
        put_range_row(to, k, range_at(table, k));
    }
}
