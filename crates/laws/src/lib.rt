// What every proof of the project cites, each law once. There is no function here: the definitions are in specs/,
// the laws in proofs/. A reader of contracts needs only specs/.
#![tactic(auto)]
