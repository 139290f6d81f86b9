// The three demands as theorems. There is no function here: the definitions that the theorems need are in specs/, the theorems in
// proofs/, one file for each demand. A reader opens proofs/DemandThree.antt first.
#![tactic(auto)]
