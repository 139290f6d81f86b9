// The answer written for a page that was decided: each function lays a part at a place, and answers the place behind it. The
// whole length was judged before.
ghost use Rattle.std.specs.Prelude.{◌≡◌, ◌+◌, ◌≤◌, length};
ghost use Rattle.laws.specs.Placed.{Lays};
ghost use Rattle.store.specs.Held.{elements_bytes};
ghost use Rattle.order.specs.Queue.{Queued, queued_in};
ghost use Rattle.pages.specs.Written.{changes_bytes};
ghost use Rattle.pages.specs.Tables.{ToSend, sent_bytes, answer_middle, fixed_length};

use numbers::compact::compact_length;
use numbers::extended_guid::{ExtendedGuid, extended_guid_length};
use objects::layout::{PLAIN, part};
use order::queue::row_at;
use request::message::QUERY_CHANGES_REQUEST;
use request::response::{lay_back, lay_front, lay_sub_response};
use store::element::PACKAGE;
use store::knowledge_write::lay_knowledge;
use store::lay::{lay_byte, lay_end, lay_extended_guid, lay_part, lay_start};
use store::table::element_in_row;

// The type of the object with the storage index and the partial byte.
pub const CHANGES: u64 = 0x5F;

// The answer's length without elements and ranges. Ruled out (proofs/WrongAnswers), with id 1 and no storage index: 40, and 45.
#[tactic(auto, unfolding(crate::specs::Tables::fixed_length))]
pub(crate) fn fixed_length(id: u64, index: ExtendedGuid) -> usize
    ensures { (result ≡ fixed_length id index) × (result ≤ 69) }
{
    39 + compact_length(id) + extended_guid_length(index)
}

// The stored bytes of the first k elements that are queued. (By rows and ids, as `write_answer` is told how many are sent, and not how many
// the store has.)
fn lay_elements(
    out: &mut [u8],
    at: usize,
    store: &[u8],
    rows: &[u64],
    ids: &[u64],
    queue: &[u8],
    k: usize,
) -> usize
    requires { Queued rows.now ids.now queue.now k × (at + length (elements_bytes store.now (queued_in rows.now ids.now k queue.now)) ≤ length out.old) }
    ensures { Lays at (elements_bytes store.now (queued_in rows.now ids.now k queue.now)) out.old result out.new }
{
    let mut p = at;
    for i in 0..k {
        let x = element_in_row(rows, ids, row_at(queue, i));
        p = lay_part(out, p, part(store, x.place, x.length as u64));
    }
    p
}

// The storage index and the partial byte.
fn lay_changes(out: &mut [u8], at: usize, index: ExtendedGuid, partial: bool) -> usize
    requires { at + length (changes_bytes index partial) ≤ length out.old }
    ensures { Lays at (changes_bytes index partial) out.old result out.new }
{
    let n = extended_guid_length(index) + 1;
    let behind_start = lay_start(out, at, CHANGES, PLAIN, n as u64);
    let behind_index = lay_extended_guid(out, behind_start, index);
    lay_byte(out, behind_index, u8::from(partial))
}

// From the package's end to the knowledge.
fn lay_middle(out: &mut [u8], at: usize, id: u64, index: ExtendedGuid, partial: bool) -> usize
    requires { at + length (answer_middle id index partial) ≤ length out.old }
    ensures { Lays at (answer_middle id index partial) out.old result out.new }
{
    let behind_package = lay_end(out, at, PACKAGE);
    let behind_sub_response = lay_sub_response(out, behind_package, id, QUERY_CHANGES_REQUEST);
    lay_changes(out, behind_sub_response, index, partial)
}

// What is sent: how many elements, the id as asked, the storage index, whether a wanted element remains, and how many ranges.
#[derive(Drop)]
pub struct Sending {
    pub count: usize,
    pub id: u64,
    pub index: ExtendedGuid,
    pub partial: bool,
    pub ranges: usize,
}

// The answer: the first elements that are queued, and the knowledge of the first rows of the table. Ruled out
// (proofs/WrongAnswers): a partial answer that is not marked; another type of sub-request in it.
pub fn write_answer(
    out: &mut [u8],
    store: &[u8],
    rows: &[u64],
    ids: &[u64],
    queue: &[u8],
    page: Sending,
    table: &[u64],
) -> usize
    requires { ToSend store.now rows.now ids.now queue.now page table.now (length out.old) }
    ensures { Lays 0 (sent_bytes store.now rows.now ids.now queue.now page table.now) out.old result out.new }
{
    let behind_front = lay_front(out, 0);
    let behind_elements = lay_elements(out, behind_front, store, rows, ids, queue, page.count);
    let index = page.index;
    let behind_middle = lay_middle(out, behind_elements, page.id, index, page.partial);
    let behind_knowledge = lay_knowledge(out, behind_middle, table, page.ranges);
    lay_back(out, behind_knowledge)
}
