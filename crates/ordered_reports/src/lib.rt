// Internal: what ordering leaves as it is, as theorems about conversion, any-hit, losses and reports. Laws; no code.
#![tactic(auto)]
