// Pages (document 01, 'One page'; document 02, Q-6 and Q-3): which groups of elements are wanted, the longest page of them, the answer's
// bytes, and the two lent tables: the two answering calls.
#![tactic(auto)]

pub mod answer;
pub mod deciding;
pub mod grouped;
pub mod page;
pub mod price;
pub mod singles;
pub mod tables;
pub mod wanted;
pub mod weighed;
pub mod whole;
pub mod write;
