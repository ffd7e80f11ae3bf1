// What is claimed of losses and reports at quarter hours, as theorems over the calls: `proofs/Loss.antt` and `proofs/Report.antt` have them.
#![tactic(auto)]
