// Internal: the shape of a record's bytes, when a record is sound, and the record check's answer. Definitions stand in specs/, laws in proofs/.
#![tactic(auto)]
