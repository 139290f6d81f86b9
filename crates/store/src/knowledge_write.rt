// Knowledge written from the rows of the working table: empty, or one cell knowledge of ranges only. Its exact length is
// known before anything is written.
ghost use Rattle.std.specs.Prelude.{◌≡◌, ◌++◌, false, ◌+◌, ◌-◌, ◌*◌, ◌≤◌, ◌<◌, length, drop};
ghost use Rattle.laws.specs.Placed.{Lays};
ghost use Rattle.numbers.specs.Calls.{Writes};
ghost use Rattle.objects.specs.Header.{start_bytes};
ghost use Rattle.ranges.specs.RangeTable.{range_width, ranges_at};
ghost use Rattle.store.specs.Knowledge.{most_said};
ghost use Rattle.store.specs.KnowledgeWritten.{range_guid, range_data, range_bytes, ranges_bytes, cell_front, cell_back, knowledge_bytes};

use crate::item::{CELL, SHORT_RANGE};
use crate::knowledge::{CELL_HIGH, CELL_LOW, KNOWLEDGE, SPECIALIZED};
use crate::lay::{lay_byte, lay_end, lay_guid, lay_number, lay_start};
use numbers::compact::compact_length;
use numbers::guid::{Guid, swap};
use numbers::refusal::{Wrote, too_short};
use objects::layout::COMPOUND;
use ranges::range_at;
use talk::range::Range;

// How many bytes a range takes: its header two, its GUID sixteen. Ruled out (proofs/KnowledgeWrongAnswers): 18 for a range
// from 0 to 0, its header not counted; 36 for it.
pub fn range_length(x: Range) -> usize
    ensures { (result ≡ length (range_bytes x)) × (result ≤ 36) }
{
    18 + compact_length(x.from) + compact_length(x.to)
}

// How many bytes the ranges of the rows from `first` up to `rows` take.
#[tactic(auto, using(crate::proofs::KnowledgeLengths::length_turn, crate::proofs::KnowledgeLengths::length_end))]
pub fn ranges_length(table: &[u64], first: usize, rows: usize) -> usize
    requires { (first ≤ rows) × (rows ≤ most_said) × (rows * range_width ≤ length table.now) }
    ensures { (result ≡ length (ranges_bytes (ranges_at table.now first (rows - first)))) × (result ≤ rows * 36) }
{
    let mut n = 0;
    for i in first..rows {
        n += range_length(range_at(table, i));
    }
    n
}

// How many bytes the knowledge of the first rows takes. Ruled out (proofs/KnowledgeWrongAnswers): 28 for no row, as without
// a range there is no cell knowledge; 44 for one short range, its four bytes of ends not counted.
pub fn knowledge_length(table: &[u64], rows: usize) -> usize
    requires { (rows ≤ most_said) × (rows * range_width ≤ length table.now) }
    ensures { (result ≡ length (knowledge_bytes (ranges_at table.now 0 rows))) × (result ≤ 28 + most_said * 36) }
{
    if rows == 0 {
        return 3;
    }
    28 + ranges_length(table, 0, rows)
}

// A range's GUID.
fn range_guid(x: Range) -> Guid
    ensures { result ≡ range_guid x }
{
    Guid {
        low: swap(x.upper),
        high: swap(x.lower),
    }
}

// A range's data: its GUID and both ends.
fn lay_data(out: &mut [u8], at: usize, x: Range) -> usize
    requires { at + length (range_data x) ≤ length out.old }
    ensures { Lays at (range_data x) out.old result out.new }
{
    let behind_guid = lay_guid(out, at, range_guid(x));
    let behind_from = lay_number(out, behind_guid, x.from);
    lay_number(out, behind_from, x.to)
}

// The start of a range with n bytes of data, few enough for 16 bits.
fn lay_range_start(out: &mut [u8], at: usize, n: usize) -> usize
    requires { (n < 128) × (at + 2 ≤ length out.old) }
    ensures { Lays at (start_bytes 0x0F false n) out.old result out.new }
{
    let behind_type = lay_byte(out, at, SHORT_RANGE);
    lay_byte(out, behind_type, (n * 2) as u8)
}

// A range: how many bytes its data takes, all but the two of its header, stands in its start.
fn lay_range(out: &mut [u8], at: usize, x: Range) -> usize
    requires { at + length (range_bytes x) ≤ length out.old }
    ensures { Lays at (range_bytes x) out.old result out.new }
{
    let n = range_length(x) - 2;
    let behind_start = lay_range_start(out, at, n);
    lay_data(out, behind_start, x)
}

// The ranges of the first rows, one behind the other.
#[tactic(auto, using(crate::proofs::KnowledgeLengths::length_turn))]
fn lay_ranges(out: &mut [u8], at: usize, table: &[u64], rows: usize) -> usize
    requires { (rows * range_width ≤ length table.now) × (at + length (ranges_bytes (ranges_at table.now 0 rows)) ≤ length out.old) }
    ensures { Lays at (ranges_bytes (ranges_at table.now 0 rows)) out.old result out.new }
{
    let mut p = at;
    for i in 0..rows {
        p = lay_range(out, p, range_at(table, i));
    }
    p
}

// A knowledge with one cell knowledge, up to its first range.
fn lay_front(out: &mut [u8], at: usize) -> usize
    requires { at + length cell_front ≤ length out.old }
    ensures { Lays at cell_front out.old result out.new }
{
    let behind_knowledge = lay_start(out, at, KNOWLEDGE, COMPOUND, 0);
    let behind_specialized = lay_start(out, behind_knowledge, SPECIALIZED, COMPOUND, 16);
    let kind = Guid {
        low: CELL_LOW,
        high: CELL_HIGH,
    };
    let behind_kind = lay_guid(out, behind_specialized, kind);
    lay_start(out, behind_kind, CELL, COMPOUND, 0)
}

// From behind its last range.
fn lay_back(out: &mut [u8], at: usize) -> usize
    requires { at + length cell_back ≤ length out.old }
    ensures { Lays at cell_back out.old result out.new }
{
    let behind_cell = lay_end(out, at, CELL);
    let behind_specialized = lay_end(out, behind_cell, SPECIALIZED);
    lay_end(out, behind_specialized, KNOWLEDGE)
}

// The knowledge of the first rows at a place.
pub fn lay_knowledge(out: &mut [u8], at: usize, table: &[u64], rows: usize) -> usize
    requires { (rows * range_width ≤ length table.now) × (at + length (knowledge_bytes (ranges_at table.now 0 rows)) ≤ length out.old) }
    ensures { Lays at (knowledge_bytes (ranges_at table.now 0 rows)) out.old result out.new }
{
    if rows == 0 {
        let behind_start = lay_start(out, at, KNOWLEDGE, COMPOUND, 0);
        return lay_end(out, behind_start, KNOWLEDGE);
    }
    let behind_front = lay_front(out, at);
    let behind_ranges = lay_ranges(out, behind_front, table, rows);
    lay_back(out, behind_ranges)
}

// The knowledge of the first rows at the front of out.
fn put_knowledge(out: &mut [u8], table: &[u64], rows: usize)
    requires { (rows * range_width ≤ length table.now) × (length (knowledge_bytes (ranges_at table.now 0 rows)) ≤ length out.old) }
    ensures { out.new ≡ knowledge_bytes (ranges_at table.now 0 rows) ++ drop (length (knowledge_bytes (ranges_at table.now 0 rows))) out.old }
{
    lay_knowledge(out, 0, table, rows);
}

// The knowledge of the first rows. Ruled out (proofs/KnowledgeWrongAnswers): a needed length of 2 for no row, as its end
// counts; a range's GUID with its bytes in the order of the row's little-endian numbers.
pub fn write_knowledge(out: &mut [u8], table: &[u64], rows: usize) -> Wrote
    requires { (rows ≤ most_said) × (rows * range_width ≤ length table.now) }
    ensures { Writes (knowledge_bytes (ranges_at table.now 0 rows)) out.old result out.new }
{
    let needed = knowledge_length(table, rows);
    if out.len() < needed {
        return Err(too_short(needed));
    }
    put_knowledge(out, table, rows);
    Ok(needed)
}
