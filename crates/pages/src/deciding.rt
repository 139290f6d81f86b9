// Deciding: everything that both answering calls do before one of them writes. The store is read, then the request, then the longest
// page is chosen, in working tables that the caller lends; nothing of the answer is written. Each function judges one thing and goes
// on: the store, the request, the page.
ghost use Rattle.std.specs.Prelude.{◌≡◌, ◌≤◌, length, drop};
ghost use Rattle.ranges.specs.RangeTable.{ranges_at, RangesStand};
ghost use Rattle.store.specs.Knowledge.{said_numbers};
ghost use Rattle.store.specs.Elements.{elements_of};
ghost use Rattle.pages.specs.Tables.{ToChoose, DecidesGroups};
ghost use Rattle.pages.specs.Held.{SomeStore, WorkingTables, RequestHeld, wanted_flags, groups_wanted, bounds_for, PageReckoned, RequestReckoned, StoreReckoned};

use crate::grouped::decide_groups;
use crate::page::{Bounds, Chosen, taken_in};
use crate::singles::decide_singles;
use crate::wanted::clear_known;
use crate::write::{Sending, fixed_length};
use numbers::extended_guid::ExtendedGuid;
use numbers::refusal::Refusal;
use request::choice::choose;
use request::message::read_request;
use store::held::storage_index;
use store::knowledge::SAID_NUMBERS;
use store::package::read_store;
use store::sharing::serials_once;
use store::table::{Elements, ID_NUMBERS, MOST_ELEMENTS, ROW_NUMBERS};

// A page carries at most so many ranges.
pub const MOST_CARRIED: usize = 512;

// The page that is sent, how long its answer is, and how many elements the store has.
#[derive(Drop)]
pub struct Reckoning {
    pub page: Sending,
    pub length: usize,
    pub elements: usize,
}

// What was reckoned, or the refusal.
pub type Reckoned = Result<Reckoning, Refusal>;

// A request that was read: its id, how many ranges a page for it may carry, its limit, where its filters stand, how many they are,
// and how many ranges are known.
#[derive(Clone, Copy)]
pub struct Asked {
    pub id: u64,
    pub most: usize,
    pub limit: u64,
    pub place: usize,
    pub count: u64,
    pub known: usize,
}

// The flag of each of all elements: 1 where it is wanted, 0 where not.
fn mark_wanted(request: &[u8], a: Asked, all: Elements, known: &[u64], flags: &mut [u8])
    requires { (all.count ≤ length flags.old) × RangesStand known.now a.known }
    ensures { flags.new ≡ wanted_flags request.now a (ranges_at known.now 0 a.known) (elements_of all.entry) (drop all.entry.count flags.old) }
{
    choose(request, Ok((a.place, 0)), a.count, all, flags);
    clear_known(all, known, a.known, flags);
}

// What is asked of a page: at most so many ranges, the limit, and room in the output.
fn bounds_of(a: Asked, index: ExtendedGuid, room: usize) -> Bounds
    ensures { (result ≡ bounds_for a index room) × (result.fixed ≤ 69) }
{
    Bounds {
        most: a.most,
        limit: a.limit,
        fixed: fixed_length(a.id, index),
        room,
    }
}

// Which groups are wanted, in which order, and the longest page of them.
fn decide_page(
    request: &[u8],
    a: Asked,
    index: ExtendedGuid,
    all: Elements,
    known: &mut [u64],
    queue: &mut [u8],
    room: usize,
) -> Chosen
    requires { ToChoose all.rows.now all.ids.now all.count queue.old known.old a.known a.most }
    ensures { DecidesGroups all.entry.rows.now all.entry.ids.now (groups_wanted request.now a (ranges_at known.old 0 a.known) (elements_of all.entry)) (ranges_at known.old 0 a.known) (bounds_for a index room) result.decided result.rows queue.new known.new }
{
    let mut flags = [0u8; MOST_ELEMENTS];
    mark_wanted(request, a, all, known, &mut flags);
    let bounds = bounds_of(a, index, room);
    let count = a.known;
    if serials_once(all.rows, all.count) {
        let decided = decide_singles(all, &flags, known, count, queue, bounds);
        return Chosen {
            decided,
            rows: taken_in(decided),
        };
    }
    decide_groups(all, &flags, known, count, queue, bounds)
}

// The page for a request that was read, of the store that stands in the tables.
fn decide_asked(
    request: &[u8],
    a: Asked,
    all: Elements,
    known: &mut [u64],
    queue: &mut [u8],
    room: usize,
) -> Reckoned
    requires { SomeStore all.rows.now all.ids.now all.count × RequestHeld request.now a known.old × (all.count ≤ length queue.old) }
    ensures { PageReckoned request.now a all.entry.rows.now all.entry.ids.now all.entry.count room result known.old known.new queue.old queue.new }
{
    let index = storage_index(all);
    let chosen = decide_page(request, a, index, all, known, queue, room);
    let decision = chosen.decided?;
    let page = Sending {
        count: chosen.rows,
        id: a.id,
        index,
        partial: decision.more,
        ranges: decision.ranges,
    };
    Ok(Reckoning {
        page,
        length: decision.length,
        elements: all.count,
    })
}

// The request's faults, then the page, of the store that stands in the tables; they may be empty if it has no elements. (Of the length of
// the array the prover is not told.) Ruled out (proofs/WrongAnswers), of a store without elements and no request: the first input for the
// second; a table of ranges that is written to.
pub fn decide_request(
    request: &[u8],
    all: Elements,
    known: &mut [u64; SAID_NUMBERS],
    queue: &mut [u8],
    room: usize,
) -> Reckoned
    requires { SomeStore all.rows.now all.ids.now all.count × (length known.old ≡ said_numbers) × (all.count ≤ length queue.old) }
    ensures { RequestReckoned request.now all.entry.rows.now all.entry.ids.now all.entry.count room result known.old known.new queue.old queue.new }
{
    let query = read_request(request, known)?;
    let a = Asked {
        id: query.id,
        most: MOST_CARRIED,
        limit: query.limit,
        place: query.place,
        count: query.count,
        known: query.known,
    };
    decide_asked(request, a, all, known, queue, room)
}

// The store's faults, then the request's, then the page's: what is to be sent into an output of `room` bytes. Nothing that was in the
// tables matters. (What is asked of their lengths every array of its type has; of one that is lent the prover is not told so.)
// Ruled out (proofs/WrongAnswers), of no store: another number than 2; a queue that is written to.
pub fn decide_answer(
    store: &[u8],
    request: &[u8],
    room: usize,
    elements: &mut [u64; ROW_NUMBERS],
    ids: &mut [u64; ID_NUMBERS],
    known: &mut [u64; SAID_NUMBERS],
    queue: &mut [u8; MOST_ELEMENTS],
) -> Reckoned
    requires { WorkingTables elements.old ids.old known.old queue.old }
    ensures { StoreReckoned store.now request.now room result elements.old elements.new ids.old ids.new known.old known.new queue.old queue.new }
{
    let n = read_store(store, elements, ids)?;
    let all = Elements {
        rows: elements,
        ids,
        count: n,
    };
    decide_request(request, all, known, queue, room)
}
