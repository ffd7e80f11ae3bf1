// Internal: laws of the slot test and of the hit mask on nodes that meet the node rule. They stand in proofs/; there is no code.
#![tactic(auto)]
