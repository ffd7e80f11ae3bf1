// Internal: counts and permutations of lists of numbers, for the definitions and laws of the other crates. It has no code.
#![tactic(auto)]
