// An answer read whole: a function for each part, in the order of document 01's answer bytes. Padding is taken in every part.
ghost use Rattle.std.specs.Prelude.{◌≡◌};
ghost use Rattle.client.specs.Read.{status_byte, response_fields, response_start, sub_response_fields, sub_response, changes_fields, behind_knowledge, ends_of, answer_on, received_from, rest_of, answer_in, answer_strictness, ReadsAnswer};
ghost use Rattle.client.specs.Accessor.{rows_received, ids_received};

use numbers::compact::PADDING_TAKEN;
use numbers::extended_guid::ExtendedGuid;
use numbers::refusal::{Fault, Refusal, at_place};
use objects::layout::{COMPOUND, NOTHING, PLAIN, ROOM, ReadObjects, closed};
use objects::reading::{FRONT, GoesOn, ReadFields, Reading};
use pages::write::CHANGES;
use request::message::{QUERY_CHANGES_REQUEST, id_in, on_knowledge, versions};
use request::response::{RESPONSE, SIGNATURE, SUB_RESPONSE};
use store::element::Strictness;
use store::knowledge::{MOST_SAID, SAID_NUMBERS, read_knowledge};
use store::package::{LEVELS_INSIDE, package_start, read_package};
use store::table::{ID_NUMBERS, ROW_NUMBERS};

// An answer that is longer is refused with 1.
pub const LONGEST_ANSWER: usize = 16842752;

// Levels left inside a specialized knowledge of another kind.
const KNOWLEDGE_LEVELS: usize = 13;

// Padding is taken in every part of an answer that is read.
const ANSWER_PADDING: bool = PADDING_TAKEN;

// How strictly the elements of an answer are read.
pub(crate) fn answer_strictness() -> Strictness
    ensures { result ≡ answer_strictness }
{
    Strictness {
        padding: ANSWER_PADDING,
        levels: LEVELS_INSIDE,
        serials: true,
    }
}

// What came: the id, whether the answer is marked partial, the storage index, the place and the number of the elements, and the
// place and the length of the knowledge.
#[derive(Drop)]
pub struct Received {
    pub id: u64,
    pub partial: bool,
    pub index: ExtendedGuid,
    pub elements: usize,
    pub count: usize,
    pub knowledge: usize,
    pub length: usize,
}

pub type ReadAnswer = Result<Received, Refusal>;

// A status byte.
fn status_byte(d: &[u8], c: Reading) -> Reading
    ensures { result ≡ status_byte d.now c }
{
    let b = c.fixed_in(d, 1, 0, 255, Fault::WrongLayout as u8);
    b.need(b.value() % 2 == 0, Fault::WrongLayout as u8, c.place())
}

// The status, in the part that the response's data run is.
fn response_fields(d: &[u8]) -> Reading
    ensures { result ≡ response_fields d.now }
{
    status_byte(d, FRONT)
}

// The versions, the signature, and the response's start.
pub(crate) fn response_start(s: &[u8]) -> Reading
    ensures { result ≡ response_start s.now }
{
    let o = versions(s, SIGNATURE).start(s, NOTHING, RESPONSE, COMPOUND, ROOM, ANSWER_PADDING);
    closed(o, s, response_fields(o.run(s)))
}

// Id, this type and status, in the part that the sub-response's data run is.
fn sub_response_fields(d: &[u8], kind: u64) -> Reading
    ensures { result ≡ sub_response_fields kind d.now }
{
    let id = FRONT.number(d, ANSWER_PADDING);
    status_byte(
        d,
        id.number_is(d, kind, Fault::NotServed as u8, ANSWER_PADDING),
    )
    .valued(id.value())
}

pub(crate) fn sub_response(s: &[u8], c: Reading, kind: u64) -> Reading
    ensures { result ≡ sub_response kind s.now c }
{
    let o = c.start(s, RESPONSE, SUB_RESPONSE, COMPOUND, ROOM, ANSWER_PADDING);
    closed(o, s, sub_response_fields(o.run(s), kind))
}

// Storage index and partial byte, in the part that their data run is.
fn changes_fields(d: &[u8]) -> Reading
    ensures { result ≡ changes_fields d.now }
{
    FRONT
        .extended_guid(d)
        .on()
        .fixed_in(d, 1, 0, 255, Fault::WrongLayout as u8)
}

// On from behind the knowledge, whose ranges are not asked for here.
pub(crate) fn behind_knowledge(s: &[u8], c: Reading) -> Reading
    ensures { result ≡ behind_knowledge s.now c }
{
    let mut table = [0u64; SAID_NUMBERS];
    on_knowledge(read_knowledge(
        s,
        c,
        SUB_RESPONSE,
        KNOWLEDGE_LEVELS,
        MOST_SAID,
        &mut table,
        ANSWER_PADDING,
    ))
}

// The ends, and nothing after them.
pub(crate) fn ends(s: &[u8], c: Reading) -> Reading
    ensures { result ≡ ends_of s.now c }
{
    c.end(s, SUB_RESPONSE).end(s, RESPONSE).finish(s)
}

// From behind the package to the end; the package's elements begin at a place, and are so many.
fn read_rest(s: &[u8], c: Reading, elements: usize, count: usize) -> ReadAnswer
    ensures { result ≡ answer_on (rest_of s.now c) (received_from s.now c elements count) }
{
    let sub = sub_response(s, c, QUERY_CHANGES_REQUEST);
    let o = sub.start(s, SUB_RESPONSE, CHANGES, PLAIN, ROOM, ANSWER_PADDING);
    let d = o.run(s);
    let mark = closed(o, s, changes_fields(d));
    let k = behind_knowledge(s, mark);
    ends(s, k)?;
    Ok(Received {
        id: sub.value(),
        partial: mark.value() % 2 == 1,
        index: id_in(FRONT.extended_guid(d)),
        elements,
        count,
        knowledge: mark.place(),
        length: k.place() - mark.place(),
    })
}

// An answer, with the rows and ids of its elements in working tables.
pub fn read_rows(s: &[u8], rows: &mut [u64; ROW_NUMBERS], ids: &mut [u64; ID_NUMBERS]) -> ReadAnswer
    ensures { (result ≡ answer_in s.now) × (rows.new ≡ rows_received s.now rows.old) × (ids.new ≡ ids_received s.now ids.old) }
{
    if LONGEST_ANSWER < s.len() {
        return Err(at_place(Fault::InputTooLong as u8, LONGEST_ANSWER));
    }
    let c = response_start(s);
    let first = package_start(s, c, RESPONSE, ANSWER_PADDING).place();
    let (e, n) = read_package(s, c, RESPONSE, rows, ids, answer_strictness())?;
    read_rest(s, Ok((e, 0)), first, n)
}

// An answer. Nothing is asked of the caller. Ruled out (proofs/WrongAnswers), of no bytes: 7 for the version that is not there; an
// answer read out of nothing. Of the smallest answer, of 41 bytes: the mark that it is partial; 3 where its id is padded.
pub fn read_answer(s: &[u8]) -> ReadAnswer
    ensures { ReadsAnswer s.now result }
{
    let mut rows = [0u64; ROW_NUMBERS];
    let mut ids = [0u64; ID_NUMBERS];
    read_rows(s, &mut rows, &mut ids)
}
