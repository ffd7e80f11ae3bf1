// Internal: the wide tree that a binary tree becomes (bvh2_to_cwbvh.rs). Definitions and laws only.
#![tactic(auto)]
