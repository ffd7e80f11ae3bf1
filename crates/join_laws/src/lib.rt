// Internal: what two joined trees are, as theorems about the call `join`. Laws; no code.
#![tactic(auto)]
