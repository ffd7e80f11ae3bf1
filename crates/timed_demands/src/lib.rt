// What is demanded of walks at a quarter hour, as theorems over the calls and over whole lists of them: `proofs/Listed.antt` has the third demand's.
// No code.
#![tactic(auto)]
