// One element of a lent store by its position: where it stands, and its own bytes as a part of the store.
ghost use Rattle.std.specs.Prelude.{◌≡◌};
ghost use Rattle.store.specs.Accessor.{FindsElement, element_bytes};

use crate::package::read_store;
use crate::table::{ID_NUMBERS, ROW_NUMBERS, element_in_row};
use numbers::refusal::{Fault, Refusal, at_place};
use objects::layout::part;

// The place and the length of an element.
pub type Found = Result<(usize, usize), Refusal>;

// Where the element at a position stands: the store's faults first, then 9 for a position at or past the count. Ruled out
// (proofs/WrongAnswers): an element of the store without any; 9 for a store that is at fault.
pub fn find_element(s: &[u8], position: usize) -> Found
    ensures { FindsElement s.now position result }
{
    let mut rows = [0u64; ROW_NUMBERS];
    let mut ids = [0u64; ID_NUMBERS];
    let n = read_store(s, &mut rows, &mut ids)?;
    if n <= position {
        return Err(at_place(Fault::TooMany as u8, 0));
    }
    let x = element_in_row(&rows, &ids, position);
    Ok((x.place, x.length))
}

// The element's own bytes, from its start to its end; on a refusal, which `find_element` tells, the empty part at the
// store's front. Ruled out (proofs/WrongAnswers): the whole store where it has no element; one byte of it there.
pub fn element_bytes(s: &[u8], position: usize) -> &[u8]
    ensures { result.now ≡ element_bytes s.now position }
{
    let (at, n) = find_element(s, position).unwrap_or((0, 0));
    part(s, at, n as u64)
}
