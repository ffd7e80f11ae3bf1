// What the mission demands of a converted record, as theorems over its bytes and words: `proofs/Demands.antt` states them. No code.
#![tactic(auto)]
