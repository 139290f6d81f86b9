// A put written from an id, the storage index that is expected, and elements: these are judged first, as in a put, and the exact length
// is known before a byte is written.
ghost use Rattle.std.specs.Prelude.{◌≡◌, ◌+◌, ◌≤◌, length};
ghost use Rattle.laws.specs.Placed.{Lays};
ghost use Rattle.client.specs.Ask.{written_in, WroteAs};
ghost use Rattle.client.specs.PutWritten.{put_changes_bytes, put_front_bytes, put_ends_bytes, put_bytes, elements_given, WritesPut};

use crate::ask::{lay_identified, no_more, room_for};
use numbers::compact::compact_length;
use numbers::extended_guid::{ExtendedGuid, extended_guid_length};
use numbers::refusal::{LONGEST_INPUT, Wrote, over_long};
use objects::layout::{COMPOUND, PLAIN};
use objects::reading::{FRONT, Reading};
use puts::put::{PUT_CHANGES, PUT_CHANGES_REQUEST, put_strictness};
use request::filter::SUB_REQUEST;
use request::message::REQUEST;
use store::element::{ELEMENT, PACKAGE};
use store::lay::{lay_byte, lay_end, lay_extended_guid, lay_part, lay_start};
use store::package::read_elements;
use store::table::{ID_NUMBERS, ROW_NUMBERS};

// A put without elements takes so many bytes, but for its id and the storage index that is expected.
const FIXED_BYTES: usize = 42;

// The elements handed in.
#[tactic(auto, unfolding(crate::specs::PutWritten::elements_given))]
fn elements_given(s: &[u8]) -> Reading
    ensures { result ≡ elements_given s.now }
{
    if LONGEST_INPUT < s.len() {
        return Err(over_long());
    }
    let mut rows = [0u64; ROW_NUMBERS];
    let mut ids = [0u64; ID_NUMBERS];
    let (e, _) = read_elements(s, FRONT, &mut rows, &mut ids, put_strictness())?;
    no_more(s, Ok((e, 0)), PACKAGE, ELEMENT)
}

// 0x5A: a null storage index, the one that is expected, and a zero byte.
fn lay_put_changes(out: &mut [u8], at: usize, expected: ExtendedGuid) -> usize
    requires { at + length (put_changes_bytes expected) ≤ length out.old }
    ensures { Lays at (put_changes_bytes expected) out.old result out.new }
{
    let n = extended_guid_length(expected) + 2;
    let behind_start = lay_start(out, at, PUT_CHANGES, PLAIN, n as u64);
    let behind_null = lay_byte(out, behind_start, 0);
    let behind_expected = lay_extended_guid(out, behind_null, expected);
    lay_byte(out, behind_expected, 0)
}

// Up to the first element.
fn lay_put_front(out: &mut [u8], at: usize, id: u64, expected: ExtendedGuid) -> usize
    requires { at + length (put_front_bytes id expected) ≤ length out.old }
    ensures { Lays at (put_front_bytes id expected) out.old result out.new }
{
    let behind_fields = lay_identified(out, at, id, PUT_CHANGES_REQUEST);
    let behind_put = lay_put_changes(out, behind_fields, expected);
    let behind_sub_request = lay_end(out, behind_put, SUB_REQUEST);
    let behind_start = lay_start(out, behind_sub_request, PACKAGE, COMPOUND, 1);
    lay_byte(out, behind_start, 0)
}

// The ends.
fn lay_put_ends(out: &mut [u8], at: usize) -> usize
    requires { at + length put_ends_bytes ≤ length out.old }
    ensures { Lays at put_ends_bytes out.old result out.new }
{
    let behind_package = lay_end(out, at, PACKAGE);
    lay_end(out, behind_package, REQUEST)
}

// The whole put.
fn lay_put(out: &mut [u8], id: u64, expected: ExtendedGuid, elements: &[u8]) -> usize
    requires { length (put_bytes id expected elements.now) ≤ length out.old }
    ensures { Lays 0 (put_bytes id expected elements.now) out.old result out.new }
{
    let behind_front = lay_put_front(out, 0, id, expected);
    let behind_elements = lay_part(out, behind_front, elements);
    lay_put_ends(out, behind_elements)
}

// How many bytes the put takes.
fn put_length(id: u64, expected: ExtendedGuid, elements: &[u8]) -> usize
    requires { length elements.now ≤ 16777216 }
    ensures { result ≡ length (put_bytes id expected elements.now) }
{
    FIXED_BYTES + compact_length(id) + extended_guid_length(expected) + elements.len()
}

// The put, of elements that were judged.
fn write_judged_put(out: &mut [u8], id: u64, expected: ExtendedGuid, elements: &[u8]) -> Wrote
    requires { length elements.now ≤ 16777216 }
    ensures { WroteAs (written_in (length out.old) (put_bytes id expected elements.now)) (put_bytes id expected elements.now) result out.old out.new }
{
    let needed = room_for(out, put_length(id, expected, elements))?;
    lay_put(out, id, expected, elements);
    Ok(needed)
}

// The put that a bench sends, of elements that stand one behind the other with no package around them. Nothing is asked of the caller.
// Ruled out (proofs/WrongAnswers), of the id 1 and no storage index, without room: of no elements, a needed length of 43; of one byte,
// which is half a header, a fault of a byte that does not belong there.
pub fn write_put(out: &mut [u8], id: u64, expected: ExtendedGuid, elements: &[u8]) -> Wrote
    ensures { WritesPut id expected elements.now result out.old out.new }
{
    elements_given(elements)?;
    write_judged_put(out, id, expected, elements)
}
