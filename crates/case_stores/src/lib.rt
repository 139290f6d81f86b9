// The modes of the test program for a store and for a knowledge.
#![tactic(auto)]

pub mod knowledges;
pub mod stores;
