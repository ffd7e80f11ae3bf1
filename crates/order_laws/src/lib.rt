// Internal: what the order in which children take their slots is, as theorems about the calls `assign` and `seat_children`. Laws; no code.
#![tactic(auto)]
