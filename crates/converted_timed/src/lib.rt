// What is claimed of walks at a quarter hour over what a timed conversion leaves, as theorems: `proofs/Walks.antt` has the third demand's. No code.
#![tactic(auto)]
