// Puts (document 02, Q-1): a put read whole; what enters the store, where and with which serial number; the new store's bytes, and the
// answer.
#![tactic(auto)]

pub mod apply;
pub mod entering;
pub mod new_store;
pub mod put;
