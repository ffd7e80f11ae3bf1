// Internal: what a walk meets in the record of a wide tree, child by child of the tree. Definitions and laws; no code.
#![tactic(auto)]
