// Knowledge read into the working table of ranges: its cell knowledges united, its other kinds passed over.
ghost use Rattle.std.specs.Prelude.{◌≡◌, ◌+◌, ◌*◌, ◌≤◌, length};
ghost use Rattle.talk.specs.Ranges.{Normal};
ghost use Rattle.ranges.specs.RangeTable.{range_width, ranges_at, laid_ranges};
ghost use Rattle.store.specs.Knowledge.{united, knowing, items_from, is_cell, cell_from, specialized_from, knowledge_at, knowledge_answer, KnownIs, ReadsKnowledge};

use crate::item::{CELL, Item, item_kind, item_next, read_item};
use numbers::refusal::Refusal;
use objects::layout::{COMPOUND, NO_ROOM, PLAIN, ROOM, ReadObjects, closed};
use objects::reading::{FRONT, GoesOn, ReadFields, Reading, ReadingGuid};
use ranges::{RANGE_WIDTH, add_range};

// The types of the objects.
pub const KNOWLEDGE: u64 = 0x10;

pub const SPECIALIZED: u64 = 0x44;

// The kind of cell knowledge: the bytes of 327A35F6-0761-4414-9686-51E900667A4D as two little-endian numbers.
pub const CELL_LOW: u64 = 0x44140761327A35F6;

pub const CELL_HIGH: u64 = 0x4D7A6600E9518696;

// A knowledge says at most so many ranges and entries.
pub const MOST_SAID: usize = 512;

// The numbers of a working table that has a row for each.
pub const SAID_NUMBERS: usize = MOST_SAID * RANGE_WIDTH;

// How many rows the table has, how many ranges and entries may still come, and where the reading stands.
#[derive(Clone, Copy)]
pub struct Known {
    pub rows: usize,
    pub left: usize,
    pub last: Reading,
}

// The place behind a knowledge, and how many rows it has.
pub type ReadKnowledge = Result<(usize, usize), Refusal>;

// The rows with what an item adds.
fn unite(table: &mut [u64], rows: usize, item: Item) -> usize
    requires { (rows * range_width + range_width ≤ length table.old) × Normal (ranges_at table.old 0 rows) }
    ensures { (result ≡ length (united item (ranges_at table.old 0 rows))) × (table.new ≡ laid_ranges (united item (ranges_at table.old 0 rows)) table.old) }
{
    let Ok((_, adds)) = item else {
        return rows;
    };
    match adds {
        None => rows,
        // It does come: there is room for one row more.
        Some(x) => add_range(table, rows, x).unwrap_or(rows),
    }
}

// The ranges and entries of a cell knowledge, and its end. What stands next ends the loop, and not a count.
fn read_items(s: &[u8], known: Known, table: &mut [u64], padding: bool) -> Known
    requires { ((known.rows + known.left) * range_width ≤ length table.old) × Normal (ranges_at table.old 0 known.rows) }
    ensures { KnownIs (items_from padding known.left s.now (ranges_at table.old 0 known.rows) table.old known.last) result table.new }
{
    let mut k = known;
    while item_next(s, k.last) {
        if k.left == 0 {
            let last = k
                .last
                .start(s, CELL, item_kind(s, k.last), PLAIN, NO_ROOM, padding);
            return Known { last, ..k };
        }
        let item = read_item(s, k.last, padding);
        k = Known {
            rows: unite(table, k.rows, item),
            left: k.left - 1,
            last: item.on(),
        };
    }
    Known {
        last: k.last.end(s, CELL),
        ..k
    }
}

// Whether this is the GUID of cell knowledge.
#[tactic(auto, unfolding(crate::specs::Knowledge::is_cell))]
fn is_cell(c: ReadingGuid) -> bool
    ensures { result ≡ is_cell c }
{
    match c {
        Err(_) => false,
        Ok((_, g)) => { g.low == CELL_LOW && g.high == CELL_HIGH }
    }
}

// A cell knowledge, from behind its GUID.
fn read_cell(s: &[u8], known: Known, table: &mut [u64], padding: bool) -> Known
    requires { ((known.rows + known.left) * range_width ≤ length table.old) × Normal (ranges_at table.old 0 known.rows) }
    ensures { KnownIs (cell_from padding s.now (knowing (ranges_at table.old 0 known.rows) table.old known.left known.last) known.last) result table.new }
{
    let o = known
        .last
        .start_of_length(s, SPECIALIZED, CELL, COMPOUND, ROOM, 0, padding);
    let k = read_items(s, Known { last: o, ..known }, table, padding);
    Known {
        last: k.last.end(s, SPECIALIZED),
        ..k
    }
}

// One specialized knowledge: cell knowledge is united, another kind is passed over.
fn read_specialized(s: &[u8], known: Known, depth: usize, table: &mut [u64], padding: bool) -> Known
    requires { ((known.rows + known.left) * range_width ≤ length table.old) × Normal (ranges_at table.old 0 known.rows) }
    ensures { KnownIs (specialized_from padding depth s.now (knowing (ranges_at table.old 0 known.rows) table.old known.left known.last)) result table.new }
{
    let o = known
        .last
        .start_of_length(s, KNOWLEDGE, SPECIALIZED, COMPOUND, ROOM, 16, padding);
    let g = FRONT.guid(o.run(s));
    let behind = closed(o, s, g.on());
    if is_cell(g) {
        return read_cell(
            s,
            Known {
                last: behind,
                ..known
            },
            table,
            padding,
        );
    }
    Known {
        last: behind.inside(s, depth, SPECIALIZED, padding),
        ..known
    }
}

// The answer, if no fault stands.
#[tactic(auto, unfolding(crate::specs::Knowledge::knowledge_answer))]
pub fn answer(rows: usize, c: Reading) -> ReadKnowledge
    ensures { result ≡ knowledge_answer rows c }
{
    let (e, _) = c?;
    Ok((e, rows))
}

// The knowledge that begins here, inside an open object of type `outer`, with so many levels inside a specialized knowledge
// of another kind: 12 in a request, where four objects are open there. At most `allowed` ranges and entries may come, and the table
// has room for them. It then holds the ranges in normal form; on a refusal, those before the fault. Padding is refused in a request and
// taken in an answer. Ruled out (proofs/KnowledgeWrongAnswers), of `84 00 41`: one row; a number of the table put to 0.
pub fn read_knowledge(
    s: &[u8],
    c: Reading,
    outer: u64,
    depth: usize,
    allowed: usize,
    table: &mut [u64],
    padding: bool,
) -> ReadKnowledge
    requires { allowed * range_width ≤ length table.old }
    ensures { ReadsKnowledge (knowledge_at padding allowed depth outer s.now table.old c) result table.new }
{
    let mut k = Known {
        rows: 0,
        left: allowed,
        last: c.start_of_length(s, outer, KNOWLEDGE, COMPOUND, ROOM, 0, padding),
    };
    // What stands next ends the loop, and not a count.
    while k.last.next_is(s, SPECIALIZED) {
        k = read_specialized(s, k, depth, table, padding);
    }
    answer(k.rows, k.last.end(s, KNOWLEDGE))
}
