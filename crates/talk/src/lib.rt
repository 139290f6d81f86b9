// The mathematics of a talk, of which the crates above are instances: sets of pairs of GUID and number as lists of ranges
// in normal form, the page rule, and what a series of answers comes to. There is no function here: the definitions are in
// specs/, the laws in proofs/. A reader of contracts needs only specs/.
#![tactic(auto)]

pub mod range;
