// Internal: the test of a node (cwbvh/node.rs): the node rule, and the hit mask for a ray.
#![tactic(auto)]

ghost use Rattle.std.specs.Prelude.{◌≡◌, ◌+◌, ◌*◌, ◌≤◌, length};
ghost use Rattle.node.specs.Node.{node_at};
ghost use Rattle.node_test.specs.Test.{tested};

use gate::Gate;
use node_slot::Aim;

// What a walk reads of a node that meets the rule: its hit mask and the fields from which its children and positions are counted.
#[derive(Clone, Copy)]
pub struct Tested {
    pub mask: u32,
    pub imask: u8,
    pub child_base_idx: u32,
    pub primitive_base_idx: u32,
}

// Tests node i of a record of m nodes and n positions, for a ray of this octant; nothing is read of a node that breaks the rule.
#[tactic(auto, unfolding(crate::specs::Test::tested))]
pub fn test_node<G: Gate>(
    s: &[u8],
    i: usize,
    m: usize,
    n: usize,
    aim: &Aim,
    gate: G,
) -> Option<Tested>
    requires { 80 * i + 80 ≤ length s.now }
    ensures { result ≡ tested (G.gates gate) (node_at s.now i) m n i aim.now.ray aim.now.octant }
{
    let node = node::node_ref(s, i);
    if !node_rule::meets_rule(node, i, m, n) {
        return None;
    }
    Some(Tested {
        mask: node_slot::intersect_ray(node, i, aim, gate),
        imask: node.imask(),
        child_base_idx: node.child_base_idx(),
        primitive_base_idx: node.primitive_base_idx(),
    })
}
