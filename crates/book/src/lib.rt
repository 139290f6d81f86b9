// The book of a bench: an answer is taken into it. A book is a store; what enters it keeps its bytes as they came.
#![tactic(auto)]

pub mod keep;
pub mod kept;
