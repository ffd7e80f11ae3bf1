// Internal: trees whose first cause is computed from the definitions. It has no code.
#![tactic(auto)]
