// A request written from an id, a limit, filters and knowledge: what is handed in is judged first, as in a request, so that padding
// is refused, and the exact length is known before a byte is written.
ghost use Rattle.std.specs.Prelude.{◌≡◌, ◌+◌, ◌≤◌, length};
ghost use Rattle.laws.specs.Placed.{Lays};
ghost use Rattle.client.specs.AskWritten.{user_agent_bytes, sub_request_bytes, identified_bytes, query_bytes, argument_bytes, constraint_bytes, ask_front, ask_ends, ask_bytes};
ghost use Rattle.client.specs.Ask.{no_more, filters_given, knowledge_given, room_for, written_in, WroteAs, WritesRequest};

use numbers::compact::compact_length;
use numbers::refusal::{Fault, LONGEST_INPUT, Wrote, at_place, over_long, too_short};
use objects::layout::{COMPOUND, PLAIN, ROOM, ReadObjects};
use objects::reading::{FRONT, Reading};
use request::filter::{FILTER, REQUEST_PADDING, SUB_REQUEST, read_filters};
use request::message::{
    ARGUMENTS, CONSTRAINT, KNOWLEDGE_LEVELS, NO_LIMIT, QUERY_CHANGES, QUERY_CHANGES_REQUEST,
    REQUEST, SIGNATURE, USER_AGENT, in_request, on_knowledge,
};
use request::response::lay_versions;
use store::knowledge::{MOST_SAID, SAID_NUMBERS, read_knowledge};
use store::lay::{lay_byte, lay_end, lay_number, lay_part, lay_start};

// A request without constraint, filters and knowledge takes so many bytes, but for its id.
const FIXED_BYTES: usize = 44;

// The header of a constraint.
const CONSTRAINT_HEADER: usize = 4;

// Bytes left behind the last object of a type are at fault, as the start of one more would be.
#[tactic(auto, unfolding(crate::specs::Ask::no_more))]
pub(crate) fn no_more(s: &[u8], c: Reading, outer: u64, kind: u64) -> Reading
    ensures { result ≡ no_more outer kind s.now c }
{
    let (at, n) = c?;
    if at < s.len() {
        return c.start(s, outer, kind, COMPOUND, ROOM, REQUEST_PADDING);
    }
    Ok((at, n))
}

// The filters handed in.
fn filters_given(f: &[u8]) -> Reading
    ensures { result ≡ filters_given f.now }
{
    if LONGEST_INPUT < f.len() {
        return Err(over_long());
    }
    no_more(f, read_filters(f, FRONT), SUB_REQUEST, FILTER)
}

// The knowledge handed in.
fn knowledge_given(k: &[u8]) -> Reading
    ensures { result ≡ knowledge_given k.now }
{
    if LONGEST_INPUT < k.len() {
        return Err(over_long());
    }
    if k.len() == 0 {
        return Ok((0, 0));
    }
    let mut table = [0u64; SAID_NUMBERS];
    let read = read_knowledge(
        k,
        FRONT,
        SUB_REQUEST,
        KNOWLEDGE_LEVELS,
        MOST_SAID,
        &mut table,
        REQUEST_PADDING,
    );
    on_knowledge(read).finish(k)
}

// The request's start, and an empty user agent.
fn lay_user_agent(out: &mut [u8], at: usize) -> usize
    requires { at + length user_agent_bytes ≤ length out.old }
    ensures { Lays at user_agent_bytes out.old result out.new }
{
    let behind_request = lay_start(out, at, REQUEST, COMPOUND, 0);
    let behind_start = lay_start(out, behind_request, USER_AGENT, COMPOUND, 0);
    lay_end(out, behind_start, USER_AGENT)
}

// The id, this type and the priority 0.
fn lay_sub_request(out: &mut [u8], at: usize, id: u64, kind: u64) -> usize
    requires { at + length (sub_request_bytes kind id) ≤ length out.old }
    ensures { Lays at (sub_request_bytes kind id) out.old result out.new }
{
    let n = compact_length(id) + compact_length(kind) + 1;
    let behind_start = lay_start(out, at, SUB_REQUEST, COMPOUND, n as u64);
    let behind_id = lay_number(out, behind_start, id);
    let behind_type = lay_number(out, behind_id, kind);
    lay_number(out, behind_type, 0)
}

// Up to the fields of a sub-request of this type.
pub(crate) fn lay_identified(out: &mut [u8], at: usize, id: u64, kind: u64) -> usize
    requires { at + length (identified_bytes kind id) ≤ length out.old }
    ensures { Lays at (identified_bytes kind id) out.old result out.new }
{
    let behind_versions = lay_versions(out, at, SIGNATURE);
    let behind_agent = lay_user_agent(out, behind_versions);
    lay_sub_request(out, behind_agent, id, kind)
}

fn lay_query(out: &mut [u8], at: usize) -> usize
    requires { at + length query_bytes ≤ length out.old }
    ensures { Lays at query_bytes out.old result out.new }
{
    let behind_start = lay_start(out, at, QUERY_CHANGES, PLAIN, 1);
    lay_byte(out, behind_start, 0)
}

// The two flags, and a cell ID of two nulls.
fn lay_arguments(out: &mut [u8], at: usize) -> usize
    requires { at + length argument_bytes ≤ length out.old }
    ensures { Lays at argument_bytes out.old result out.new }
{
    let behind_start = lay_start(out, at, ARGUMENTS, PLAIN, 3);
    let behind_flags = lay_byte(out, behind_start, 3);
    let behind_first = lay_byte(out, behind_flags, 0);
    lay_byte(out, behind_first, 0)
}

// Up to the constraint.
fn lay_front(out: &mut [u8], at: usize, id: u64) -> usize
    requires { at + length (ask_front id) ≤ length out.old }
    ensures { Lays at (ask_front id) out.old result out.new }
{
    let behind_sub_request = lay_identified(out, at, id, QUERY_CHANGES_REQUEST);
    let behind_query = lay_query(out, behind_sub_request);
    lay_arguments(out, behind_query)
}

// How many bytes the constraint takes: none where there is no limit.
fn constraint_length(limit: u64) -> usize
    ensures { (result ≡ length (constraint_bytes limit)) × (result ≤ 13) }
{
    if limit == NO_LIMIT {
        return 0;
    }
    CONSTRAINT_HEADER + compact_length(limit)
}

fn lay_constraint(out: &mut [u8], at: usize, limit: u64) -> usize
    requires { at + length (constraint_bytes limit) ≤ length out.old }
    ensures { Lays at (constraint_bytes limit) out.old result out.new }
{
    if limit == NO_LIMIT {
        return at;
    }
    let n = compact_length(limit);
    let behind_start = lay_start(out, at, CONSTRAINT, PLAIN, n as u64);
    lay_number(out, behind_start, limit)
}

fn lay_ends(out: &mut [u8], at: usize) -> usize
    requires { at + length ask_ends ≤ length out.old }
    ensures { Lays at ask_ends out.old result out.new }
{
    let behind_sub_request = lay_end(out, at, SUB_REQUEST);
    lay_end(out, behind_sub_request, REQUEST)
}

// The whole request.
fn lay_request(out: &mut [u8], id: u64, limit: u64, filters: &[u8], knowledge: &[u8]) -> usize
    requires { length (ask_bytes id limit filters.now knowledge.now) ≤ length out.old }
    ensures { Lays 0 (ask_bytes id limit filters.now knowledge.now) out.old result out.new }
{
    let behind_front = lay_front(out, 0, id);
    let behind_constraint = lay_constraint(out, behind_front, limit);
    let behind_filters = lay_part(out, behind_constraint, filters);
    let behind_knowledge = lay_part(out, behind_filters, knowledge);
    lay_ends(out, behind_knowledge)
}

// How many bytes the request takes.
fn request_length(id: u64, limit: u64, filters: &[u8], knowledge: &[u8]) -> usize
    requires { (length filters.now ≤ 16777216) × (length knowledge.now ≤ 16777216) }
    ensures { result ≡ length (ask_bytes id limit filters.now knowledge.now) }
{
    FIXED_BYTES + compact_length(id) + constraint_length(limit) + filters.len() + knowledge.len()
}

// The length of what is written where there is room for it: 1 where it would be an over-long request, then 14.
pub(crate) fn room_for(out: &[u8], needed: usize) -> Wrote
    ensures { result ≡ room_for (length out.now) needed }
{
    if LONGEST_INPUT < needed {
        return Err(at_place(Fault::InputTooLong as u8, 0));
    }
    if out.len() < needed {
        return Err(too_short(needed));
    }
    Ok(needed)
}

// The request, of filters and knowledge that were judged.
fn write_judged(out: &mut [u8], id: u64, limit: u64, filters: &[u8], knowledge: &[u8]) -> Wrote
    requires { (length filters.now ≤ 16777216) × (length knowledge.now ≤ 16777216) }
    ensures { WroteAs (written_in (length out.old) (ask_bytes id limit filters.now knowledge.now)) (ask_bytes id limit filters.now knowledge.now) result out.old out.new }
{
    let needed = room_for(out, request_length(id, limit, filters, knowledge))?;
    lay_request(out, id, limit, filters, knowledge);
    Ok(needed)
}

// The request that a bench sends; the limit 2^64-1 is no constraint. Nothing is asked of the caller. Ruled out
// (proofs/WrongAnswers), without filters, limit and room: of the knowledge `00`, a fault of the first input; of no knowledge and
// the id 1, a needed length of 44; of a knowledge with a padded number, a request.
pub fn write_request(out: &mut [u8], id: u64, limit: u64, filters: &[u8], knowledge: &[u8]) -> Wrote
    ensures { WritesRequest id limit filters.now knowledge.now result out.old out.new }
{
    filters_given(filters)?;
    knowledge_given(knowledge).map_err(in_request)?;
    write_judged(out, id, limit, filters, knowledge)
}
