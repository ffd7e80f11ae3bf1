// Internal: the record of a wide tree as bytes. Definitions and laws; no code.
#![tactic(auto)]
