// Internal: walks over a record as bytes. `specs/` says what a walk's tests read of them, `proofs/Demands.antt` what holds on every sound record. No
// code.
#![tactic(auto)]
