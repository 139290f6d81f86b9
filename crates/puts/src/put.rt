// A put (000, 2.2.2.1.4), read whole: a function for each part, in the order of its definition. Padding is refused in every part.
ghost use Rattle.std.specs.Prelude.{◌≡◌, ◌≤◌, length};
ghost use Rattle.numbers.specs.Refusals.{longest_input};
ghost use Rattle.objects.specs.Steps.{Good};
ghost use Rattle.store.specs.Store.{PackageTo};
ghost use Rattle.puts.specs.Put.{put_fields, put_changes, flag_fields, additional_flags, optional_bytes, client_knowledge, before_package, put_strictness, put_package, put_head, ReadsPut};

use numbers::extended_guid::ExtendedGuid;
use numbers::refusal::Refusal;
use objects::layout::{PLAIN, ROOM, ReadObjects, closed};
use objects::reading::{FRONT, GoesOn, ReadFields, Reading};
use request::filter::{REQUEST_PADDING, SUB_REQUEST};
use request::message::{REQUEST, id_in, identified, in_request, knowledge_part, on_knowledge};
use store::element::{PACKAGE, Strictness};
use store::knowledge::SAID_NUMBERS;
use store::package::{Packaged, read_package};
use store::table::{ID_NUMBERS, ROW_NUMBERS};

// The types of the objects.
pub const PUT_CHANGES: u64 = 0x5A;

const ADDITIONAL_FLAGS: u64 = 0x86;

const LOCK_ID: u64 = 0x85;

const DIAGNOSTIC_INPUT: u64 = 0x8A;

// The request type of Put Changes.
pub const PUT_CHANGES_REQUEST: u64 = 5;

// So many levels are left inside an element.
const LEVELS_INSIDE: usize = 13;

// The storage index that is expected; `last` stands behind the data.
#[derive(Drop)]
pub struct PutFields {
    pub expected: ExtendedGuid,
    pub last: Reading,
}

// What stands before the package: the id, the storage index that is expected; `behind` is where the package stands or would stand.
#[derive(Drop)]
pub struct PutHead {
    pub id: u64,
    pub expected: ExtendedGuid,
    pub behind: Reading,
}

// What was handed in: the id, the storage index that is expected, how many elements.
#[derive(Drop)]
pub struct Handed {
    pub id: u64,
    pub expected: ExtendedGuid,
    pub count: usize,
}

pub type Put = Result<Handed, Refusal>;

// Both extended GUIDs and the flags, in the part that their data run is. It is the second that is expected.
fn put_fields(d: &[u8]) -> PutFields
    ensures { result ≡ put_fields d.now }
{
    let index = FRONT.extended_guid(d);
    let expected = index.on().extended_guid(d);
    PutFields {
        expected: id_in(expected),
        last: expected.on().skip(d, 1),
    }
}

fn put_changes(s: &[u8], c: Reading) -> PutFields
    ensures { result ≡ put_changes s.now c }
{
    let o = c.start(s, SUB_REQUEST, PUT_CHANGES, PLAIN, ROOM, REQUEST_PADDING);
    let f = put_fields(o.run(s));
    PutFields {
        expected: f.expected,
        last: closed(o, s, f.last),
    }
}

// Two bytes and a number, in the part that the additional flags' data run is.
fn flag_fields(d: &[u8]) -> Reading
    ensures { result ≡ flag_fields d.now }
{
    FRONT.skip(d, 2).number(d, REQUEST_PADDING)
}

// The additional flags, which may be absent.
fn additional_flags(s: &[u8], c: Reading) -> Reading
    ensures { result ≡ additional_flags s.now c }
{
    if c.next_is(s, ADDITIONAL_FLAGS) {
        let o = c.start(
            s,
            SUB_REQUEST,
            ADDITIONAL_FLAGS,
            PLAIN,
            ROOM,
            REQUEST_PADDING,
        );
        return closed(o, s, flag_fields(o.run(s)));
    }
    c
}

// An object of this type with so many bytes, which may be absent.
fn optional_bytes(s: &[u8], c: Reading, kind: u64, n: u64) -> Reading
    ensures { result ≡ optional_bytes s.now kind n c }
{
    if c.next_is(s, kind) {
        let o = c.start(s, SUB_REQUEST, kind, PLAIN, ROOM, REQUEST_PADDING);
        return closed(o, s, FRONT.skip(o.run(s), n));
    }
    c
}

// The client's knowledge, which may be absent. It is not used.
fn client_knowledge(s: &[u8], c: Reading) -> Reading
    ensures { result ≡ client_knowledge s.now c }
{
    let mut table = [0u64; SAID_NUMBERS];
    on_knowledge(knowledge_part(s, c, &mut table))
}

// From behind 0x5A to the package.
fn before_package(s: &[u8], c: Reading) -> Reading
    ensures { result ≡ before_package s.now c }
{
    let behind_lock = optional_bytes(s, additional_flags(s, c), LOCK_ID, 16);
    let behind_knowledge = client_knowledge(s, behind_lock);
    optional_bytes(s, behind_knowledge, DIAGNOSTIC_INPUT, 1).end(s, SUB_REQUEST)
}

// How strictly its elements are read, and those that are handed in to be put.
pub fn put_strictness() -> Strictness
    ensures { result ≡ put_strictness }
{
    Strictness {
        padding: REQUEST_PADDING,
        levels: LEVELS_INSIDE,
        serials: false,
    }
}

// The package, which may be absent: then nothing was handed in.
fn put_package(
    s: &[u8],
    c: Reading,
    rows: &mut [u64; ROW_NUMBERS],
    ids: &mut [u64; ID_NUMBERS],
) -> Packaged
    requires { Good s.now c }
    ensures { PackageTo (put_package s.now c) result rows.old rows.new ids.old ids.new }
{
    if c.next_is(s, PACKAGE) {
        return read_package(s, c, REQUEST, rows, ids, put_strictness());
    }
    let (e, _) = c?;
    Ok((e, 0))
}

// A put up to its package.
pub(crate) fn read_put_head(s: &[u8]) -> PutHead
    ensures { result ≡ put_head s.now }
{
    let a = identified(s, PUT_CHANGES_REQUEST);
    let f = put_changes(s, a);
    PutHead {
        id: a.value(),
        expected: f.expected,
        behind: before_package(s, f.last),
    }
}

// The rest of a put that is not over-long, with the rows and ids of its elements in the tables: each table then holds those of the elements
// that were read, and behind them what it held, on a refusal too. (The head is read apart, so that the room for its knowledge and these
// tables are never taken at once.) Ruled out (proofs/WrongAnswers), of no bytes: 7 for the version that is not there; a fault of the first
// input.
pub(crate) fn read_put(
    s: &[u8],
    head: PutHead,
    rows: &mut [u64; ROW_NUMBERS],
    ids: &mut [u64; ID_NUMBERS],
) -> Put
    requires { (length s.now ≤ longest_input) × (head ≡ put_head s.now) }
    ensures { ReadsPut s.now result rows.old rows.new ids.old ids.new }
{
    let (e, count) = put_package(s, head.behind, rows, ids).map_err(in_request)?;
    Ok((e, 0)).end(s, REQUEST).finish(s).map_err(in_request)?;
    Ok(Handed {
        id: head.id,
        expected: head.expected,
        count,
    })
}
