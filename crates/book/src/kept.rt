// The new book as it was planned: how long its elements are, and their bytes, each as it stands in the book or in the answer.
ghost use Rattle.std.specs.Prelude.{◌≡◌, ◌+◌, ◌*◌, ◌^◌, ◌≤◌, ◌<◌, length};
ghost use Rattle.laws.specs.Placed.{Lays};
ghost use Rattle.store.specs.Tables.{most_elements};
ghost use Rattle.store.specs.Written.{framed};
ghost use Rattle.book.specs.Plan.{sides_of, source_element, source_bytes, planned_bytes, planned_length, HasSource, HasPlan};

use objects::layout::{COMPOUND, part};
use store::element::PACKAGE;
use store::held::Held;
use store::lay::{lay_byte, lay_end, lay_part, lay_start};
use store::table::{MOST_ELEMENTS, element_in_row};

// How long the element is for which a number of the plan stands.
fn source_length(book: Held, answer: Held, source: usize) -> usize
    requires { HasSource book answer source }
    ensures { (result ≡ (source_element book.entry.elements.rows.now book.entry.elements.ids.now answer.entry.elements.rows.now answer.entry.elements.ids.now source).length) × (result ≤ 2 ^ 25) }
{
    if source < MOST_ELEMENTS {
        let there = book.elements;
        return element_in_row(there.rows, there.ids, source).length;
    }
    let came = answer.elements;
    element_in_row(came.rows, came.ids, source - MOST_ELEMENTS).length
}

// How long all of them are.
pub(crate) fn planned_length(book: Held, answer: Held, plan: &[u16]) -> usize
    requires { HasPlan book answer plan.now }
    ensures { (result ≡ planned_length book.entry.elements.rows.now book.entry.elements.ids.now answer.entry.elements.rows.now answer.entry.elements.ids.now plan.now) × (result ≤ length plan.now * 2 ^ 25) }
{
    let mut whole = 0;
    for &source in plan {
        whole += source_length(book, answer, usize::from(source));
    }
    whole
}

// The element for which a number of the plan stands, at a place.
fn lay_source(out: &mut [u8], at: usize, book: Held, answer: Held, source: usize) -> usize
    requires { HasSource book answer source × (at + length (source_bytes (sides_of book answer) source) ≤ length out.old) }
    ensures { Lays at (source_bytes (sides_of book.entry answer.entry) source) out.old result out.new }
{
    if source < MOST_ELEMENTS {
        let there = book.elements;
        let x = element_in_row(there.rows, there.ids, source);
        return lay_part(out, at, part(book.bytes, x.place, x.length as u64));
    }
    let came = answer.elements;
    let y = element_in_row(came.rows, came.ids, source - MOST_ELEMENTS);
    lay_part(out, at, part(answer.bytes, y.place, y.length as u64))
}

// All of them, one behind the other.
fn lay_planned(out: &mut [u8], at: usize, book: Held, answer: Held, plan: &[u16]) -> usize
    requires { HasPlan book answer plan.now × (at + length (planned_bytes (sides_of book answer) plan.now) ≤ length out.old) }
    ensures { Lays at (planned_bytes (sides_of book.entry answer.entry) plan.now) out.old result out.new }
{
    let mut p = at;
    for &source in plan {
        p = lay_source(out, p, book, answer, usize::from(source));
    }
    p
}

// The new book: the package's start and its zero byte, what was planned, its end.
pub(crate) fn lay_book(out: &mut [u8], book: Held, answer: Held, plan: &[u16]) -> usize
    requires { HasPlan book answer plan.now × (length (framed (planned_bytes (sides_of book answer) plan.now)) ≤ length out.old) }
    ensures { Lays 0 (framed (planned_bytes (sides_of book.entry answer.entry) plan.now)) out.old result out.new }
{
    let behind_start = lay_start(out, 0, PACKAGE, COMPOUND, 1);
    let behind_front = lay_byte(out, behind_start, 0);
    let behind_elements = lay_planned(out, behind_front, book, answer, plan);
    lay_end(out, behind_elements, PACKAGE)
}
