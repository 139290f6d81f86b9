// The answer to a put, read whole, in the order of its definition: up to its package as each answer, and then the knowledge alone.
ghost use Rattle.std.specs.Prelude.{◌≡◌};
ghost use Rattle.client.specs.ReadPut.{received_put_from, put_rest_of, put_answer_on, ReadsPutAnswer};

use crate::answer::{
    LONGEST_ANSWER, answer_strictness, behind_knowledge, ends, response_start, sub_response,
};
use numbers::refusal::{Fault, Refusal, at_place};
use objects::reading::{ReadFields, Reading};
use puts::put::PUT_CHANGES_REQUEST;
use request::response::RESPONSE;
use store::package::read_package;
use store::table::{ID_NUMBERS, ROW_NUMBERS};

// What came: the id, and the place and the length of the knowledge.
#[derive(Drop)]
pub struct ReceivedPut {
    pub id: u64,
    pub knowledge: usize,
    pub length: usize,
}

pub type ReadPutAnswer = Result<ReceivedPut, Refusal>;

// From behind the package to the end.
fn read_put_rest(s: &[u8], c: Reading) -> ReadPutAnswer
    ensures { result ≡ put_answer_on (put_rest_of s.now c) (received_put_from s.now c) }
{
    let sub = sub_response(s, c, PUT_CHANGES_REQUEST);
    let k = behind_knowledge(s, sub);
    ends(s, k)?;
    Ok(ReceivedPut {
        id: sub.value(),
        knowledge: sub.place(),
        length: k.place() - sub.place(),
    })
}

// The answer to a put. Nothing is asked of the caller. Ruled out (proofs/WrongAnswers): of no bytes, 7 for the version that is not
// there; of the smallest one, of 35 bytes, the place of its ends for that of its knowledge; of the smallest answer to a request, an
// answer to a put.
pub fn read_put_answer(s: &[u8]) -> ReadPutAnswer
    ensures { ReadsPutAnswer s.now result }
{
    if LONGEST_ANSWER < s.len() {
        return Err(at_place(Fault::InputTooLong as u8, LONGEST_ANSWER));
    }
    let mut rows = [0u64; ROW_NUMBERS];
    let mut ids = [0u64; ID_NUMBERS];
    let (e, _) = read_package(
        s,
        response_start(s),
        RESPONSE,
        &mut rows,
        &mut ids,
        answer_strictness(),
    )?;
    read_put_rest(s, Ok((e, 0)))
}
