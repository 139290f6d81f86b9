// The bench's side of a talk: a request written, an answer read, and one element of an answer by its position; a put written, and the
// answer to it read.
#![tactic(auto)]

pub mod accessor;
pub mod answer;
pub mod ask;
pub mod put;
pub mod put_answer;
