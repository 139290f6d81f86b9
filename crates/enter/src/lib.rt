// Elements enter what is there (document 02, Q-1): an id already held is replaced, new ones follow at the end. Puts enter so into a
// store, and answers into a book. Decided here by the ids alone; with which bytes and serial numbers they come is the caller's.
#![tactic(auto)]

pub mod plan;
