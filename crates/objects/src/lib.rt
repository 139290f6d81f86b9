// Objects within objects (document 01): stream object headers read and written, one object and a run of objects, and
// the steps of which every layout above is made.
#![tactic(auto)]

pub mod header;
pub mod header_write;
pub mod layout;
pub mod nesting;
pub mod reading;
