// The modes of the test program for the two calls that answer a request.
#![tactic(auto)]

pub mod answers;
pub mod lengths;
pub mod tables;
