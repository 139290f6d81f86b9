// Elements of the working tables: those that the ranges know are no longer wanted.
ghost use Rattle.std.specs.Prelude.{◌≡◌, ◌≤◌, length};
ghost use Rattle.ranges.specs.RangeTable.{ranges_at, RangesStand};
ghost use Rattle.store.specs.Elements.{elements_of};
ghost use Rattle.request.specs.Choice.{set_flags};
ghost use Rattle.pages.specs.Choice.{is_known};

use numbers::guid::Guid;
use ranges::is_known;
use store::element::Element;
use store::table::Elements;

// Whether the first rows of the table of ranges hold an element's serial number.
fn knows_element(table: &[u64], count: usize, x: Element) -> bool
    requires { RangesStand table.now count }
    ensures { result ≡ is_known (ranges_at table.now 0 count) x }
{
    let serial = x.serial;
    is_known(table, count, Guid::from(serial), serial.number)
}

// The flag of each of all elements whose serial number is known is put to 0. Ruled out (proofs/WrongAnswers): a known one that stays
// wanted; an unknown one that does not.
pub(crate) fn clear_known(all: Elements, table: &[u64], count: usize, flags: &mut [u8])
    requires { (all.count ≤ length flags.old) × RangesStand table.now count }
    ensures { flags.new ≡ set_flags (is_known (ranges_at table.now 0 count)) 0 (elements_of all.entry) flags.old }
{
    for i in 0..all.count {
        if knows_element(table, count, all.element(i)) {
            flags[i] = 0;
        }
    }
}
