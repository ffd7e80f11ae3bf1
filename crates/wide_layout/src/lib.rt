// Internal: wide trees and the layout of their nodes in a record (cwbvh/bvh2_to_cwbvh.rs). Definitions stand in specs/, laws in proofs/.
#![tactic(auto)]
