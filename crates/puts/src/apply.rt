// A put applied to a store. Everything is decided in tables of its own; only when no refusal is left are the new store and the answer
// written. Each function judges one thing and goes on: the store, the put, the expected index, the serial numbers, the count, the length,
// the output.
ghost use Rattle.std.specs.Prelude.{◌≡◌, [], ◌+◌, ◌≤◌, length};
ghost use Rattle.laws.specs.Placed.{Lays};
ghost use Rattle.numbers.specs.Refusals.{longest_input};
ghost use Rattle.ranges.specs.RangeTable.{ranges_at, RangesStand};
ghost use Rattle.store.specs.Store.{store_walk};
ghost use Rattle.store.specs.Tables.{most_elements};
ghost use Rattle.store.specs.Written.{framed};
ghost use Rattle.puts.specs.NewStore.{highest_under, new_elements};
ghost use Rattle.puts.specs.Put.{put_walk, put_head, put_in};
ghost use Rattle.puts.specs.Plan.{sides_of, planned_bytes, planned_ranges, HasPlan, HoldsStore, HoldsPut};
ghost use Rattle.puts.specs.Applied.{put_answer_bytes, answered, sized, counted, last_number, numbered, same_id, expecting, on_put, GivesPut, Puts};

use crate::new_store::{Inputs, highest_under, lay_planned, planned_length, planned_ranges};
use crate::put::{PUT_CHANGES_REQUEST, PutHead, read_put, read_put_head};
use enter::plan::{PLANNED, plan_elements};
use numbers::compact::compact_length;
use numbers::extended_guid::ExtendedGuid;
use numbers::guid::Guid;
use numbers::refusal::{Fault, LONGEST_INPUT, Refusal, at_place, over_long, too_short};
use objects::layout::COMPOUND;
use ranges::{LAST, RANGE_WIDTH};
use request::message::in_request;
use request::response::{lay_back, lay_front, lay_sub_response};
use store::element::{PACKAGE, key_of};
use store::held::{Held, storage_index};
use store::knowledge_write::{knowledge_length, lay_knowledge};
use store::lay::{lay_byte, lay_end, lay_start};
use store::package::read_store;
use store::table::{Elements, ID_NUMBERS, MOST_ELEMENTS, ROW_NUMBERS};

// The answer's length and the new store's; or the refusal.
pub type Applied = Result<(usize, usize), Refusal>;

// The answer's bytes but for the id and the knowledge, and those of a package but for its elements: its start, zero byte and end.
const FRAME_LENGTH: usize = 31;

const PACKAGE_LENGTH: usize = 4;

// The numbers of the answer's ranges: no more than elements.
const STORED_NUMBERS: usize = MOST_ELEMENTS * RANGE_WIDTH;

// How long the answer is, with the knowledge of the first rows of the table.
fn answer_length(id: u64, table: &[u64], held: usize) -> usize
    requires { (held ≤ most_elements) × RangesStand table.now held }
    ensures { result ≡ length (put_answer_bytes id (ranges_at table.now 0 held)) }
{
    FRAME_LENGTH + compact_length(id) + knowledge_length(table, held)
}

// The answer.
fn lay_answer(out: &mut [u8], id: u64, table: &[u64], held: usize) -> usize
    requires { RangesStand table.now held × (length (put_answer_bytes id (ranges_at table.now 0 held)) ≤ length out.old) }
    ensures { Lays 0 (put_answer_bytes id (ranges_at table.now 0 held)) out.old result out.new }
{
    let behind_front = lay_front(out, 0);
    let behind_package = lay_end(out, behind_front, PACKAGE);
    let behind_sub_response = lay_sub_response(out, behind_package, id, PUT_CHANGES_REQUEST);
    let behind_knowledge = lay_knowledge(out, behind_sub_response, table, held);
    lay_back(out, behind_knowledge)
}

// The new store: the package's start and its zero byte, what was planned, its end.
fn lay_new_store(out: &mut [u8], inputs: Inputs, plan: &[u16]) -> usize
    requires { HasPlan inputs plan.now × (length (framed (planned_bytes (sides_of inputs) plan.now)) ≤ length out.old) }
    ensures { Lays 0 (framed (planned_bytes (sides_of inputs.entry) plan.now)) out.old result out.new }
{
    let behind_start = lay_start(out, 0, PACKAGE, COMPOUND, 1);
    let behind_front = lay_byte(out, behind_start, 0);
    let behind_elements = lay_planned(out, behind_front, inputs, plan);
    lay_end(out, behind_elements, PACKAGE)
}

// 14 for the output; then both are written. `whole` is the new store's length, for which there is room.
fn send(
    inputs: Inputs,
    id: u64,
    plan: &[u16],
    whole: usize,
    newstore: &mut [u8],
    out: &mut [u8],
) -> Applied
    requires { HasPlan inputs plan.now × (whole ≡ length (framed (planned_bytes (sides_of inputs) plan.now))) × (whole ≤ length newstore.old) }
    ensures { GivesPut (answered id (framed (planned_bytes (sides_of inputs.entry) plan.now)) (planned_ranges inputs.entry.stored.elements.rows.now inputs.entry.stored.elements.ids.now inputs.entry.guid inputs.entry.highest [] plan.now) (length out.old)) result newstore.old newstore.new out.old out.new }
{
    let mut table = [0u64; STORED_NUMBERS];
    let held = planned_ranges(inputs, plan, &mut table);
    let needed = answer_length(id, &table, held);
    if out.len() < needed {
        return Err(too_short(needed));
    }
    lay_new_store(newstore, inputs, plan);
    lay_answer(out, id, &table, held);
    Ok((needed, whole))
}

// 1 for the new store, 14 for its buffer.
fn size(inputs: Inputs, id: u64, plan: &[u16], newstore: &mut [u8], out: &mut [u8]) -> Applied
    requires { HasPlan inputs plan.now }
    ensures { GivesPut (sized id (framed (planned_bytes (sides_of inputs.entry) plan.now)) (planned_ranges inputs.entry.stored.elements.rows.now inputs.entry.stored.elements.ids.now inputs.entry.guid inputs.entry.highest [] plan.now) (length newstore.old) (length out.old)) result newstore.old newstore.new out.old out.new }
{
    let whole = PACKAGE_LENGTH + planned_length(inputs, plan);
    if LONGEST_INPUT < whole {
        return Err(at_place(Fault::InputTooLong as u8, 0));
    }
    if newstore.len() < whole {
        return Err(too_short(whole));
    }
    send(inputs, id, plan, whole, newstore, out)
}

// 9 for the new store's elements.
fn count(inputs: Inputs, id: u64, newstore: &mut [u8], out: &mut [u8]) -> Applied
    requires { HoldsStore inputs.stored × HoldsPut inputs.handed × (inputs.highest ≡ highest_under inputs.guid (store_walk inputs.stored.bytes.now).elements) × (inputs.highest + inputs.handed.elements.count ≤ last_number) }
    ensures { GivesPut (counted id (new_elements inputs.entry.stored.bytes.now (store_walk inputs.entry.stored.bytes.now).elements inputs.entry.handed.bytes.now (put_walk inputs.entry.handed.bytes.now).elements inputs.entry.guid) (length newstore.old) (length out.old)) result newstore.old newstore.new out.old out.new }
{
    let stored = inputs.stored.elements;
    let handed = inputs.handed.elements;
    let mut plan = [0u16; PLANNED];
    let planned = plan_elements(
        stored.ids,
        stored.count,
        handed.ids,
        handed.count,
        &mut plan,
    );
    if MOST_ELEMENTS < planned {
        return Err(at_place(Fault::TooMany as u8, 0));
    }
    size(inputs, id, &plan[..planned], newstore, out)
}

// 16 for the serial numbers.
fn number(
    stored: Held,
    handed: Held,
    id: u64,
    g: Guid,
    newstore: &mut [u8],
    out: &mut [u8],
) -> Applied
    requires { HoldsStore stored × HoldsPut handed }
    ensures { GivesPut (numbered stored.entry.bytes.now (store_walk stored.entry.bytes.now).elements handed.entry.bytes.now id g (length newstore.old) (length out.old)) result newstore.old newstore.new out.old out.new }
{
    let highest = highest_under(stored.elements, g);
    if LAST - highest < handed.elements.count as u64 {
        return Err(at_place(Fault::NoSerialLeft as u8, 0));
    }
    let inputs = Inputs {
        stored,
        handed,
        guid: g,
        highest,
    };
    count(inputs, id, newstore, out)
}

// Whether two extended GUIDs are the same: null is the same as null alone.
#[tactic(auto, using(store::proofs::Rows::same_fields), unfolding(crate::specs::Applied::same_id))]
fn same_id(a: ExtendedGuid, b: ExtendedGuid) -> bool
    ensures { result ≡ same_id a b }
{
    match (a, b) {
        (None, None) => true,
        (Some((g, x)), Some((h, y))) => key_of(g, u64::from(x)) == key_of(h, u64::from(y)),
        _ => false,
    }
}

// 15 for the storage index that is expected.
fn expect(
    stored: Held,
    handed: Held,
    id: u64,
    expected: ExtendedGuid,
    g: Guid,
    newstore: &mut [u8],
    out: &mut [u8],
) -> Applied
    requires { HoldsStore stored × HoldsPut handed }
    ensures { GivesPut (expecting stored.entry.bytes.now (store_walk stored.entry.bytes.now).elements handed.entry.bytes.now id expected g (length newstore.old) (length out.old)) result newstore.old newstore.new out.old out.new }
{
    let index = storage_index(stored.elements);
    if same_id(expected, index) {
        return number(stored, handed, id, g, newstore, out);
    }
    Err(at_place(Fault::OtherIndex as u8, 0))
}

// The faults of the put's package, then what it does.
fn apply_handed(
    stored: Held,
    request: &[u8],
    head: PutHead,
    g: Guid,
    newstore: &mut [u8],
    out: &mut [u8],
) -> Applied
    requires { HoldsStore stored × (length request.now ≤ longest_input) × (head ≡ put_head request.now) }
    ensures { GivesPut (on_put stored.entry.bytes.now (store_walk stored.entry.bytes.now).elements request.now g (length newstore.old) (length out.old) (put_in request.now)) result newstore.old newstore.new out.old out.new }
{
    let mut rows = [0u64; ROW_NUMBERS];
    let mut ids = [0u64; ID_NUMBERS];
    let put = read_put(request, head, &mut rows, &mut ids)?;
    let elements = Elements {
        rows: &rows,
        ids: &ids,
        count: put.count,
    };
    let handed = Held {
        bytes: request,
        elements,
    };
    expect(stored, handed, put.id, put.expected, g, newstore, out)
}

// The put's faults, then what it does.
fn apply_put(stored: Held, request: &[u8], g: Guid, newstore: &mut [u8], out: &mut [u8]) -> Applied
    requires { HoldsStore stored }
    ensures { GivesPut (on_put stored.entry.bytes.now (store_walk stored.entry.bytes.now).elements request.now g (length newstore.old) (length out.old) (put_in request.now)) result newstore.old newstore.new out.old out.new }
{
    if LONGEST_INPUT < request.len() {
        return Err(in_request(over_long()));
    }
    apply_handed(stored, request, read_put_head(request), g, newstore, out)
}

// A put applied to a store: the store's faults, then the put's, then what it does. Nothing is asked of the caller. Ruled out
// (proofs/WrongAnswers), of no store and no put: the put's fault; a byte of the new store's buffer put to 0. And of a put that enters
// (proofs/PutExample): the new store's buffer left as it was; both lengths exchanged.
pub fn put(store: &[u8], request: &[u8], g: Guid, newstore: &mut [u8], out: &mut [u8]) -> Applied
    ensures { Puts store.now request.now g result newstore.old newstore.new out.old out.new }
{
    let mut rows = [0u64; ROW_NUMBERS];
    let mut ids = [0u64; ID_NUMBERS];
    let n = read_store(store, &mut rows, &mut ids)?;
    let elements = Elements {
        rows: &rows,
        ids: &ids,
        count: n,
    };
    let stored = Held {
        bytes: store,
        elements,
    };
    apply_put(stored, request, g, newstore, out)
}
