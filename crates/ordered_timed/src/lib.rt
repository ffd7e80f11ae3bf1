// Internal: what ordering leaves as it is at a quarter hour, as theorems about timed conversion, any-hit, losses and reports. Laws; no code.
#![tactic(auto)]
