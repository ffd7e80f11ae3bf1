// Internal: the theory of a ray's walk over a record, for any slot test. Definitions stand in specs/, laws in proofs/. No code.
#![tactic(auto)]
