// Internal: the timed conversion beside the untimed one, as theorems about the public call. Laws; no code.
#![tactic(auto)]
