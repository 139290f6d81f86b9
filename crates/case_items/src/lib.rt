// The modes of the test program for a single item or header.
#![tactic(auto)]

pub mod headers;
pub mod items;
