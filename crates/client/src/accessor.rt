// One element of an answer by its position: where it stands, and its own bytes as a part of the answer.
ghost use Rattle.std.specs.Prelude.{◌≡◌};
ghost use Rattle.client.specs.Accessor.{FindsReceived, received_bytes};

use crate::answer::read_rows;
use numbers::refusal::{Fault, at_place};
use objects::layout::part;
use store::accessor::Found;
use store::table::{ID_NUMBERS, ROW_NUMBERS, element_in_row};

// Where the element at a position stands: the answer's faults first, then 9 for a position at or past the count. Ruled out
// (proofs/WrongAnswers), of no bytes: 9, which comes behind the answer's faults; an element at their front. Of an answer that holds
// one element: 9 for the first position. (As `store::accessor::find_element` of a store, with which it shares all but what is read: the
// three lines behind that, with both tables handed over, would be no shorter as a function of both.)
pub fn find_received(s: &[u8], position: usize) -> Found
    ensures { FindsReceived s.now position result }
{
    let mut rows = [0u64; ROW_NUMBERS];
    let mut ids = [0u64; ID_NUMBERS];
    let x = read_rows(s, &mut rows, &mut ids)?;
    if x.count <= position {
        return Err(at_place(Fault::TooMany as u8, 0));
    }
    let e = element_in_row(&rows, &ids, position);
    Ok((e.place, e.length))
}

// The element's own bytes, from its start to its end; on a refusal, which `find_received` tells, the empty part at the answer's
// front. Ruled out (proofs/WrongAnswers): of one byte, the byte itself; of an answer that holds one element, no bytes.
pub fn received_bytes(s: &[u8], position: usize) -> &[u8]
    ensures { result.now ≡ received_bytes s.now position }
{
    let (at, n) = find_received(s, position).unwrap_or((0, 0));
    part(s, at, n as u64)
}
