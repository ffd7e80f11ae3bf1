// Internal: what the bytes of a wide tree's record say, read back by the definitions of a record. Laws; no code.
#![tactic(auto)]
