// An answer kept in a book. Everything is decided in tables of its own; only when no refusal is left is the new book written. Each function
// judges one thing and goes on: the book, the answer, the count, the length and the buffer.
ghost use Rattle.std.specs.Prelude.{length};
ghost use Rattle.store.specs.Store.{store_walk};
ghost use Rattle.store.specs.Written.{framed};
ghost use Rattle.client.specs.Read.{package_in, answer_end};
ghost use Rattle.book.specs.Keep.{kept_elements, sized, counted, on_answer, GivesBook, KeepsAnswer};
ghost use Rattle.book.specs.Plan.{HoldsRows, HasPlan, sides_of, planned_bytes};

use crate::kept::{lay_book, planned_length};
use client::answer::read_rows;
use enter::plan::{PLANNED, plan_elements};
use numbers::refusal::{Fault, LONGEST_INPUT, Refusal, at_place, too_short};
use request::message::in_request;
use store::held::Held;
use store::package::read_store;
use store::table::{Elements, ID_NUMBERS, MOST_ELEMENTS, ROW_NUMBERS};

// The new book's length; or the refusal.
pub type Keeping = Result<usize, Refusal>;

// The bytes of a package but for its elements: its start, zero byte and end.
const PACKAGE_LENGTH: usize = 4;

// 1 for the new book, 14 for its buffer; then it is written.
fn size(book: Held, answer: Held, plan: &[u16], newbook: &mut [u8]) -> Keeping
    requires { HasPlan book answer plan.now }
    ensures { GivesBook (sized (framed (planned_bytes (sides_of book.entry answer.entry) plan.now)) (length newbook.old)) result newbook.old newbook.new }
{
    let whole = PACKAGE_LENGTH + planned_length(book, answer, plan);
    if LONGEST_INPUT < whole {
        return Err(at_place(Fault::InputTooLong as u8, 0));
    }
    if newbook.len() < whole {
        return Err(too_short(whole));
    }
    lay_book(newbook, book, answer, plan);
    Ok(whole)
}

// 9 for the new book's elements.
fn count(book: Held, answer: Held, newbook: &mut [u8]) -> Keeping
    requires { HoldsRows book (store_walk book.bytes.now).elements × HoldsRows answer (package_in answer.bytes.now).elements }
    ensures { GivesBook (counted (kept_elements book.entry.bytes.now answer.entry.bytes.now) (length newbook.old)) result newbook.old newbook.new }
{
    let mut plan = [0u16; PLANNED];
    let there = book.elements;
    let came = answer.elements;
    let planned = plan_elements(there.ids, there.count, came.ids, came.count, &mut plan);
    if MOST_ELEMENTS < planned {
        return Err(at_place(Fault::TooMany as u8, 0));
    }
    size(book, answer, &plan[..planned], newbook)
}

// The answer's faults, then what keeping it does.
fn keep_answer(book: Held, answer: &[u8], newbook: &mut [u8]) -> Keeping
    requires { HoldsRows book (store_walk book.bytes.now).elements }
    ensures { GivesBook (on_answer book.entry.bytes.now answer.now (length newbook.old) (answer_end answer.now)) result newbook.old newbook.new }
{
    let mut rows = [0u64; ROW_NUMBERS];
    let mut ids = [0u64; ID_NUMBERS];
    let x = read_rows(answer, &mut rows, &mut ids).map_err(in_request)?;
    let elements = Elements {
        rows: &rows,
        ids: &ids,
        count: x.count,
    };
    let came = Held {
        bytes: answer,
        elements,
    };
    count(book, came, newbook)
}

// An answer kept in a book: the book's faults, then the answer's, then what keeping it does. Nothing is asked of the caller. Ruled out
// (proofs/KeepExample), of no book and no answer: the answer's fault; a byte of the new book's buffer put to 0. And of an answer that is
// kept: the new book's buffer left as it was; the old bytes under an id that came; the last element dropped.
pub fn keep(book: &[u8], answer: &[u8], newbook: &mut [u8]) -> Keeping
    ensures { KeepsAnswer book.now answer.now result newbook.old newbook.new }
{
    let mut rows = [0u64; ROW_NUMBERS];
    let mut ids = [0u64; ID_NUMBERS];
    let n = read_store(book, &mut rows, &mut ids)?;
    let elements = Elements {
        rows: &rows,
        ids: &ids,
        count: n,
    };
    let held = Held {
        bytes: book,
        elements,
    };
    keep_answer(held, answer, newbook)
}
