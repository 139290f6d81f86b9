// The two answering calls. One decides the page for an output length that is offered, and tells how long its answer is; the other
// trusts nothing that was told, decides again and writes. Everything is decided in tables of the call's own; only when no refusal is
// left are the lent tables and the output written.
ghost use Rattle.std.specs.Prelude.{◌≡◌, true, ◌*◌, ◌≤◌, ◌++◌, ltb, length, drop};
ghost use Rattle.laws.specs.Pick.{pick};
ghost use Rattle.ranges.specs.RangeTable.{range_width, ranges_at};
ghost use Rattle.store.specs.Tables.{most_elements};
ghost use Rattle.store.specs.Elements.{elements_of};
ghost use Rattle.order.specs.Order.{ordered, ranked_rows, ranked_width, ranked_numbers};
ghost use Rattle.pages.specs.Answer.{knowledge_numbers, range_rows, outcome, Tells, Gives, TellsLength, WritesAnswer};

use crate::deciding::decide_answer;
use crate::tables::copy_ranges;
use crate::write::write_answer;
use numbers::refusal::{Fault, Refusal, at_place};
use order::rows::{RANKED_NUMBERS, put_rows};
use store::knowledge::SAID_NUMBERS;
use store::table::{Elements, ID_NUMBERS, MOST_ELEMENTS, ROW_NUMBERS};

// How many numbers the lent table of ranges has at least.
pub const KNOWLEDGE_NUMBERS: usize = 2048;

// The answer's length, how many rows the store's table has, and how many the knowledge's.
#[derive(Drop)]
pub struct Filled {
    pub length: usize,
    pub rows: usize,
    pub ranges: usize,
}

// What was filled, or the refusal.
pub type Answered = Result<Filled, Refusal>;

// Whether a lent table has too few numbers.
fn too_few(rows: &[u64], ranges: &[u64]) -> bool
    ensures { result ≡ pick (ltb (length rows.now) ranked_numbers) true (ltb (length ranges.now) knowledge_numbers) }
{
    rows.len() < RANKED_NUMBERS || ranges.len() < KNOWLEDGE_NUMBERS
}

// The lent tables: the rows of the elements, in their order and with their ranks, and so many ranges.
fn fill_tables(rows: &mut [u64], ranges: &mut [u64], all: Elements, known: &[u64], count: usize)
    requires { (all.count ≤ most_elements) × (all.count * ranked_width ≤ length rows.old) × (count * range_width ≤ length known.now) × (count * range_width ≤ length ranges.old) }
    ensures { (rows.new ≡ ranked_rows (ordered (elements_of all.entry)) ++ drop (all.entry.count * ranked_width) rows.old) × (ranges.new ≡ range_rows (ranges_at known.now 0 count) ++ drop (count * range_width) ranges.old) }
{
    put_rows(rows, all);
    copy_ranges(ranges, known, count);
}

// The length told where the tables suffice.
fn tell_length(
    store: &[u8],
    request: &[u8],
    offered: usize,
    rows: &mut [u64],
    ranges: &mut [u64],
) -> Answered
    requires { (ranked_numbers ≤ length rows.old) × (knowledge_numbers ≤ length ranges.old) }
    ensures { Tells (outcome store.now request.now offered) result rows.old rows.new ranges.old ranges.new }
{
    let mut elements = [0u64; ROW_NUMBERS];
    let mut ids = [0u64; ID_NUMBERS];
    let mut known = [0u64; SAID_NUMBERS];
    let mut queue = [0u8; MOST_ELEMENTS];
    let reckoned = decide_answer(
        store,
        request,
        offered,
        &mut elements,
        &mut ids,
        &mut known,
        &mut queue,
    )?;
    let all = Elements {
        rows: &elements,
        ids: &ids,
        count: reckoned.elements,
    };
    fill_tables(rows, ranges, all, &known, reckoned.page.ranges);
    Ok(Filled {
        length: reckoned.length,
        rows: reckoned.elements,
        ranges: reckoned.page.ranges,
    })
}

// The answer sent where the tables suffice.
fn send_answer(
    store: &[u8],
    request: &[u8],
    rows: &mut [u64],
    ranges: &mut [u64],
    out: &mut [u8],
) -> Answered
    requires { (ranked_numbers ≤ length rows.old) × (knowledge_numbers ≤ length ranges.old) }
    ensures { Gives (outcome store.now request.now (length out.old)) result rows.old rows.new ranges.old ranges.new out.old out.new }
{
    let mut elements = [0u64; ROW_NUMBERS];
    let mut ids = [0u64; ID_NUMBERS];
    let mut known = [0u64; SAID_NUMBERS];
    let mut queue = [0u8; MOST_ELEMENTS];
    let reckoned = decide_answer(
        store,
        request,
        out.len(),
        &mut elements,
        &mut ids,
        &mut known,
        &mut queue,
    )?;
    let carried = reckoned.page.ranges;
    write_answer(out, store, &elements, &ids, &queue, reckoned.page, &known);
    let all = Elements {
        rows: &elements,
        ids: &ids,
        count: reckoned.elements,
    };
    fill_tables(rows, ranges, all, &known, carried);
    Ok(Filled {
        length: reckoned.length,
        rows: reckoned.elements,
        ranges: carried,
    })
}

// How long the answer to a request is in an output of the offered length, with both tables. Nothing is asked of the caller, and nothing
// that was in the tables matters. Ruled out (proofs/WrongAnswers), with a table too short: the store's fault before 13; a number of the
// table put to 0.
pub fn length(
    store: &[u8],
    request: &[u8],
    offered: usize,
    rows: &mut [u64],
    ranges: &mut [u64],
) -> Answered
    ensures { TellsLength store.now request.now offered result rows.old rows.new ranges.old ranges.new }
{
    if too_few(rows, ranges) {
        return Err(at_place(Fault::TablesTooShort as u8, 0));
    }
    tell_length(store, request, offered, rows, ranges)
}

// One answer to one request, written, with both tables. Nothing is asked of the caller, and nothing that was in the tables matters.
// Ruled out (proofs/WrongAnswers), with a table too short: the store's fault before 13; a number of the table put to 0. And
// (WrongHubs in `evidence`) the hubs that document 01 names.
pub fn write(
    store: &[u8],
    request: &[u8],
    rows: &mut [u64],
    ranges: &mut [u64],
    out: &mut [u8],
) -> Answered
    ensures { WritesAnswer store.now request.now result rows.old rows.new ranges.old ranges.new out.old out.new }
{
    if too_few(rows, ranges) {
        return Err(at_place(Fault::TablesTooShort as u8, 0));
    }
    send_answer(store, request, rows, ranges, out)
}
