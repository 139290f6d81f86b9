// The store (document 01, 'Store, knowledge, request'): one data element package and nothing after it, its rows in lent
// tables, what its elements say there, whether some share a serial number, and one element by its position; and knowledge: ranges in a working table, read and written.
#![tactic(auto)]

pub mod accessor;
pub mod element;
pub mod held;
pub mod item;
pub mod knowledge;
pub mod knowledge_write;
pub mod lay;
pub mod package;
pub mod sharing;
pub mod table;
