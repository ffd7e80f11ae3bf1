// Internal: the worked samples of quarter hours over the definitions, as one checked table. It has no code of its own.
#![tactic(auto)]
