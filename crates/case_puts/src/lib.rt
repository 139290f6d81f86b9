// The mode of the test program for puts.
#![tactic(auto)]

pub mod changes;
