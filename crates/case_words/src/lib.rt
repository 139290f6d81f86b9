// What the test program reads and writes: the words of a case, and what a line of output is made of.
#![tactic(auto)]

pub mod say;
pub mod words;
