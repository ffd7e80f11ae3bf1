// Internal: the worked samples over the definitions, as one checked table. It has no code of its own.
#![tactic(auto)]
