// The modes of the test program for a request.
#![tactic(auto)]

pub mod requests;
