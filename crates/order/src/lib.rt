// The order of a store's rows (document 02, Q-14): by rank and, within a rank, by place in the store. The rows that flags choose are
// queued in it, and the rows of all elements go out in it, each with its rank. And the groups of rows that share a serial number (Q-3), linked
// in this order. Whoever is above asks for order and groups and does not know how they come about.
#![tactic(auto)]

pub mod groups;
mod links;
pub mod queue;
pub mod rows;
