// The request message, read whole: a function for each part, in the order of document 01. Padding is refused in every part.
ghost use Rattle.std.specs.Prelude.{◌≡◌};
ghost use Rattle.store.specs.Knowledge.{ReadsKnowledge};
ghost use Rattle.request.specs.Message.{versions, id_in, user_agent, sub_request_fields, sub_request, query_changes, argument_fields, arguments, constraint, package_part, identified, constrained_from, request_end, knowledge_part, on_knowledge, rows_known, in_request, request_answer, ReadsRequest};

use crate::filter::{REQUEST_PADDING, SUB_REQUEST, one_number, read_filters};
use numbers::extended_guid::ExtendedGuid;
use numbers::refusal::{Fault, LONGEST_INPUT, Refusal, over_long};
use objects::layout::{COMPOUND, NOTHING, PLAIN, ROOM, ReadObjects, closed};
use objects::reading::{FRONT, ReadFields, Reading, ReadingId};
use store::element::PACKAGE;
use store::knowledge::{KNOWLEDGE, MOST_SAID, ReadKnowledge, SAID_NUMBERS, read_knowledge};

// The types of the objects.
pub const REQUEST: u64 = 0x40;

pub const USER_AGENT: u64 = 0x5D;

pub const QUERY_CHANGES: u64 = 0x51;

pub const ARGUMENTS: u64 = 0x5B;

pub const CONSTRAINT: u64 = 0x59;

// The request type of Query Changes.
pub const QUERY_CHANGES_REQUEST: u64 = 2;

// The signature of a request.
pub const SIGNATURE: u64 = 0x9B069439F329CF9C;

// The limit where there is no constraint.
pub const NO_LIMIT: u64 = u64::MAX;

// Levels left inside the user agent and the package, and inside a specialized knowledge of another kind.
const LEVELS_INSIDE: usize = 14;

pub const KNOWLEDGE_LEVELS: usize = 12;

// What was asked: the id, the limit, where the filters stand, how many they are, and how many ranges are known.
#[derive(Drop)]
pub struct Query {
    pub id: u64,
    pub limit: u64,
    pub place: usize,
    pub count: u64,
    pub known: usize,
}

pub type Request = Result<Query, Refusal>;

// The versions, and this signature.
#[tactic(auto, unfolding(crate::specs::Message::versions))]
pub fn versions(s: &[u8], signature: u64) -> Reading
    ensures { result ≡ versions signature s.now }
{
    FRONT
        .fixed_in(s, 2, 12, 0xFFFF, Fault::WrongVersion as u8)
        .fixed_in(s, 2, 0, 12, Fault::WrongVersion as u8)
        .fixed_in(s, 8, signature, signature, Fault::WrongVersion as u8)
}

// The extended GUID that was read; null after a fault.
#[tactic(auto, unfolding(crate::specs::Message::id_in))]
pub fn id_in(c: ReadingId) -> ExtendedGuid
    ensures { result ≡ id_in c }
{
    match c {
        Ok((_, x)) => x,
        Err(_) => None,
    }
}

// The start of the request, and the user agent.
#[tactic(auto, unfolding(crate::specs::Message::user_agent))]
fn user_agent(s: &[u8], c: Reading) -> Reading
    ensures { result ≡ user_agent s.now c }
{
    c.start_of_length(s, NOTHING, REQUEST, COMPOUND, ROOM, 0, REQUEST_PADDING)
        .start_of_length(s, REQUEST, USER_AGENT, COMPOUND, ROOM, 0, REQUEST_PADDING)
        .inside(s, LEVELS_INSIDE, USER_AGENT, REQUEST_PADDING)
}

// Id, this type and priority of the sub-request, in the part that its data run is.
#[tactic(auto, unfolding(crate::specs::Message::sub_request_fields))]
fn sub_request_fields(d: &[u8], kind: u64) -> Reading
    ensures { result ≡ sub_request_fields kind d.now }
{
    let id = FRONT.number(d, REQUEST_PADDING);
    id.number_is(d, kind, Fault::NotServed as u8, REQUEST_PADDING)
        .number(d, REQUEST_PADDING)
        .valued(id.value())
}

#[tactic(auto, using(crate::proofs::Inside::good_sub_request_fields), unfolding(crate::specs::Message::sub_request))]
fn sub_request(s: &[u8], c: Reading, kind: u64) -> Reading
    ensures { result ≡ sub_request kind s.now c }
{
    let o = c.start(s, REQUEST, SUB_REQUEST, COMPOUND, ROOM, REQUEST_PADDING);
    closed(o, s, sub_request_fields(o.run(s), kind))
}

#[tactic(auto, unfolding(crate::specs::Message::query_changes))]
fn query_changes(s: &[u8], c: Reading) -> Reading
    ensures { result ≡ query_changes s.now c }
{
    c.start_of_length(
        s,
        SUB_REQUEST,
        QUERY_CHANGES,
        PLAIN,
        ROOM,
        1,
        REQUEST_PADDING,
    )
    .skip(s, 1)
}

// Flags and cell ID, in the part that the arguments' data run is.
#[tactic(auto, unfolding(crate::specs::Message::argument_fields))]
fn argument_fields(d: &[u8]) -> Reading
    ensures { result ≡ argument_fields d.now }
{
    let flags = FRONT.fixed_in(d, 1, 0, 255, Fault::NotServed as u8);
    flags
        .need(flags.value() % 4 == 3, Fault::NotServed as u8, 0)
        .null_id(d, Fault::NotServed as u8)
        .null_id(d, Fault::NotServed as u8)
}

#[tactic(auto, using(crate::proofs::Inside::good_argument_fields), unfolding(crate::specs::Message::arguments))]
fn arguments(s: &[u8], c: Reading) -> Reading
    ensures { result ≡ arguments s.now c }
{
    let o = c.start(s, SUB_REQUEST, ARGUMENTS, PLAIN, ROOM, REQUEST_PADDING);
    closed(o, s, argument_fields(o.run(s)))
}

// The constraint, which may be absent.
#[tactic(auto, using(crate::proofs::Inside::good_one_number), unfolding(crate::specs::Message::constraint))]
fn constraint(s: &[u8], c: Reading) -> Reading
    ensures { result ≡ constraint s.now c }
{
    if c.next_is(s, CONSTRAINT) {
        let o = c.start(s, SUB_REQUEST, CONSTRAINT, PLAIN, ROOM, REQUEST_PADDING);
        return closed(o, s, one_number(o.run(s)));
    }
    c.valued(NO_LIMIT)
}

// The package, which may be absent: it is passed over.
#[tactic(auto, unfolding(crate::specs::Message::package_part))]
fn package_part(s: &[u8], c: Reading) -> Reading
    ensures { result ≡ package_part s.now c }
{
    if c.next_is(s, PACKAGE) {
        return c
            .start_of_length(s, REQUEST, PACKAGE, COMPOUND, ROOM, 1, REQUEST_PADDING)
            .skip(s, 1)
            .inside(s, LEVELS_INSIDE, PACKAGE, REQUEST_PADDING);
    }
    c
}

// Up to the fields of a sub-request of this type.
#[tactic(auto, unfolding(crate::specs::Message::identified))]
pub fn identified(s: &[u8], kind: u64) -> Reading
    ensures { result ≡ identified kind s.now }
{
    sub_request(s, user_agent(s, versions(s, SIGNATURE)), kind)
}

// From there to the constraint.
#[tactic(auto, unfolding(crate::specs::Message::constrained_from))]
fn constrained(s: &[u8], c: Reading) -> Reading
    ensures { result ≡ constrained_from s.now c }
{
    constraint(s, arguments(s, query_changes(s, c)))
}

// From behind the knowledge to the end.
#[tactic(auto, unfolding(crate::specs::Message::request_end))]
fn request_end(s: &[u8], c: Reading) -> Reading
    ensures { result ≡ request_end s.now c }
{
    package_part(s, c.end(s, SUB_REQUEST))
        .end(s, REQUEST)
        .finish(s)
}

// On from behind the knowledge.
#[tactic(auto, unfolding(crate::specs::Message::on_knowledge))]
pub fn on_knowledge(k: ReadKnowledge) -> Reading
    ensures { result ≡ on_knowledge k }
{
    let (e, _) = k?;
    Ok((e, 0))
}

// How many ranges it has.
#[tactic(auto, unfolding(crate::specs::Message::rows_known))]
fn rows_known(k: ReadKnowledge) -> usize
    ensures { result ≡ rows_known k }
{
    match k {
        Ok((_, n)) => n,
        Err(_) => 0,
    }
}

// The knowledge, which may be absent: then nothing is known.
pub fn knowledge_part(s: &[u8], c: Reading, table: &mut [u64; SAID_NUMBERS]) -> ReadKnowledge
    ensures { ReadsKnowledge (knowledge_part s.now table.old c) result table.new }
{
    if c.next_is(s, KNOWLEDGE) {
        return read_knowledge(
            s,
            c,
            SUB_REQUEST,
            KNOWLEDGE_LEVELS,
            MOST_SAID,
            table,
            REQUEST_PADDING,
        );
    }
    store::knowledge::answer(0, c)
}

// A fault of the second input.
pub fn in_request(r: Refusal) -> Refusal
    ensures { result ≡ in_request r }
{
    Refusal {
        number: r.number,
        input: 1,
        place: r.place,
        needed: r.needed,
    }
}

// The answer, if no fault stands.
#[tactic(auto, unfolding(crate::specs::Message::request_answer))]
fn answer(c: Reading, id: u64, limit: u64, place: usize, count: u64, rows: usize) -> Request
    ensures { result ≡ request_answer c id limit place count rows }
{
    match c {
        Ok((_, _)) => Ok(Query {
            id,
            limit,
            place,
            count,
            known: rows,
        }),
        Err(r) => Err(in_request(r)),
    }
}

// The request, with its knowledge in the table: after a refusal the ranges before the fault. Ruled out (proofs/WrongAnswers):
// of no bytes, 7 for the version that is not there, and a fault of the first input; of the shortest request, a limit of 0; the same
// read with a padded priority.
pub fn read_request(s: &[u8], table: &mut [u64; SAID_NUMBERS]) -> Request
    ensures { ReadsRequest s.now table.old result table.new }
{
    if LONGEST_INPUT < s.len() {
        return Err(in_request(over_long()));
    }
    let a = identified(s, QUERY_CHANGES_REQUEST);
    let b = constrained(s, a);
    let c = read_filters(s, b);
    let k = knowledge_part(s, c, table);
    let e = request_end(s, on_knowledge(k));
    answer(e, a.value(), b.value(), b.place(), c.value(), rows_known(k))
}
