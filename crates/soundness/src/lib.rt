// Internal: when the child ranges and leaf ranges of a record are sound. Definitions stand in specs/, laws in proofs/.
#![tactic(auto)]
