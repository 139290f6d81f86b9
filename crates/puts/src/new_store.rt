// The new store as it was planned: how long it is, the ranges of its serial numbers, and its bytes.
ghost use Rattle.std.specs.Prelude.{◌≡◌, [], ◌+◌, ◌*◌, ◌^◌, ◌≤◌, max, length};
ghost use Rattle.laws.specs.Placed.{Lays};
ghost use Rattle.talk.specs.Ranges.{insert, Normal};
ghost use Rattle.ranges.specs.RangeTable.{range_width, ranges_at};
ghost use Rattle.laws.specs.Pick.{pick};
ghost use Rattle.store.specs.Tables.{most_elements};
ghost use Rattle.store.specs.Elements.{elements_of};
ghost use Rattle.store.specs.Held.{key_range};
ghost use Rattle.puts.specs.NewStore.{under_guid, highest_under};
ghost use Rattle.puts.specs.Plan.{source_serial, source_bytes, source_length, planned_bytes, planned_length, planned_ranges, sides_of, HasSource, HasPlan};

use crate::entering::{entering_length, lay_entering};
use numbers::guid::Guid;
use objects::layout::part;
use ranges::add_range;
use store::element::{Element, Key, key_of};
use store::held::Held;
use store::lay::lay_part;
use store::table::{Elements, MOST_ELEMENTS, element_in_row};
use talk::range::Range;

// A store and a put that were read, the hub's GUID and the highest serial number under it in the store.
#[derive(Clone, Copy)]
pub(crate) struct Inputs<'a> {
    pub(crate) stored: Held<'a, 'a>,
    pub(crate) handed: Held<'a, 'a>,
    pub(crate) guid: Guid,
    pub(crate) highest: u64,
}

// How long the element is for which a number of the plan stands.
fn source_length(inputs: Inputs, source: usize) -> usize
    requires { HasSource inputs source }
    ensures { (result ≡ source_length inputs.entry.stored.elements.rows.now inputs.entry.stored.elements.ids.now inputs.entry.handed.bytes.now inputs.entry.handed.elements.rows.now inputs.entry.handed.elements.ids.now source) × (result ≤ 2 ^ 24 + 68) }
{
    if source < MOST_ELEMENTS {
        let stored = inputs.stored.elements;
        return element_in_row(stored.rows, stored.ids, source).length;
    }
    let handed = inputs.handed.elements;
    entering_length(
        inputs.handed.bytes,
        element_in_row(handed.rows, handed.ids, source - MOST_ELEMENTS),
    )
}

// How long all of them are.
pub(crate) fn planned_length(inputs: Inputs, plan: &[u16]) -> usize
    requires { HasPlan inputs plan.now }
    ensures { (result ≡ planned_length inputs.entry.stored.elements.rows.now inputs.entry.stored.elements.ids.now inputs.entry.handed.bytes.now inputs.entry.handed.elements.rows.now inputs.entry.handed.elements.ids.now plan.now) × (result ≤ length plan.now * (2 ^ 24 + 68)) }
{
    let mut whole = 0;
    for &source in plan {
        whole += source_length(inputs, usize::from(source));
    }
    whole
}

// The serial number of the element for which a number of the plan stands.
fn source_serial(inputs: Inputs, source: usize) -> Key
    requires { HasSource inputs source }
    ensures { result ≡ source_serial inputs.entry.stored.elements.rows.now inputs.entry.stored.elements.ids.now inputs.entry.guid inputs.entry.highest source }
{
    if source < MOST_ELEMENTS {
        let stored = inputs.stored.elements;
        return element_in_row(stored.rows, stored.ids, source).serial;
    }
    key_of(
        inputs.guid,
        inputs.highest + 1 + (source - MOST_ELEMENTS) as u64,
    )
}

// One serial number more in a table that has room for it; how many ranges there are then.
fn add_serial(table: &mut [u64], held: usize, k: Key) -> usize
    requires { (held * range_width + range_width ≤ length table.old) × Normal (ranges_at table.old 0 held) }
    ensures { (result ≤ held + 1) × (ranges_at table.new 0 result ≡ insert (key_range k) (ranges_at table.old 0 held)) × Normal (ranges_at table.new 0 result) }
{
    // None does not come: there is room for one row more.
    add_range(table, held, Range::from(k)).unwrap_or(held)
}

// The ranges of the serial numbers of all of them, put into the table, of which no row counts before; how many they are.
pub(crate) fn planned_ranges(inputs: Inputs, plan: &[u16], table: &mut [u64]) -> usize
    requires { HasPlan inputs plan.now × (most_elements * range_width ≤ length table.old) }
    ensures { (result ≤ length plan.now) × (ranges_at table.new 0 result ≡ planned_ranges inputs.entry.stored.elements.rows.now inputs.entry.stored.elements.ids.now inputs.entry.guid inputs.entry.highest [] plan.now) × Normal (ranges_at table.new 0 result) }
{
    let mut held = 0;
    for &source in plan {
        held = add_serial(table, held, source_serial(inputs, usize::from(source)));
    }
    held
}

// The element for which a number of the plan stands, at a place.
fn lay_source(out: &mut [u8], at: usize, inputs: Inputs, source: usize) -> usize
    requires { HasSource inputs source × (at + length (source_bytes (sides_of inputs) source) ≤ length out.old) }
    ensures { Lays at (source_bytes (sides_of inputs.entry) source) out.old result out.new }
{
    if source < MOST_ELEMENTS {
        let stored = inputs.stored.elements;
        let x = element_in_row(stored.rows, stored.ids, source);
        return lay_part(out, at, part(inputs.stored.bytes, x.place, x.length as u64));
    }
    let handed = inputs.handed.elements;
    let y = element_in_row(handed.rows, handed.ids, source - MOST_ELEMENTS);
    lay_entering(
        out,
        at,
        inputs.handed.bytes,
        y,
        key_of(
            inputs.guid,
            inputs.highest + 1 + (source - MOST_ELEMENTS) as u64,
        ),
    )
}

// All of them, one behind the other.
pub(crate) fn lay_planned(out: &mut [u8], at: usize, inputs: Inputs, plan: &[u16]) -> usize
    requires { HasPlan inputs plan.now × (at + length (planned_bytes (sides_of inputs) plan.now) ≤ length out.old) }
    ensures { Lays at (planned_bytes (sides_of inputs.entry) plan.now) out.old result out.new }
{
    let mut p = at;
    for &source in plan {
        p = lay_source(out, p, inputs, usize::from(source));
    }
    p
}

// The highest number of the stored elements under a GUID; 0 if there is none.
pub(crate) fn highest_under(stored: Elements, g: Guid) -> u64
    ensures { result ≡ highest_under g (elements_of stored.entry) }
{
    let mut highest = 0;
    for i in (0..stored.count).rev() {
        highest = higher(g, stored.element(i), highest);
    }
    highest
}

// The higher of a number and an element's under the GUID.
#[tactic(auto, unfolding(crate::specs::NewStore::under_guid))]
fn higher(g: Guid, x: Element, highest: u64) -> u64
    ensures { result ≡ pick (under_guid g x.serial) (max x.serial.number highest) highest }
{
    if x.serial.low == g.low && x.serial.high == g.high {
        return highest.max(x.serial.number);
    }
    highest
}
