// Compact integers, GUIDs, extended GUIDs and serial numbers, read and written (document 01, 'Numbers and names').
// `item` reads one from the front of a part; `read_..` and `write_..` are the calls for a single item.
#![tactic(auto)]

pub mod bytes;
pub mod compact;
pub mod extended_guid;
pub mod guid;
pub mod refusal;
pub mod serial;
