// Internal: the eight meta bytes of a node, decoded at once in a 64-bit word (cwbvh/node.rs).
#![tactic(auto)]

ghost use Rattle.std.specs.Prelude.{◌≡◌, ◌<◌};
ghost use Rattle.node_meta.specs.Meta.{child_bits, bit_index, each_byte};

// A byte for each slot: the bits that it puts into the hit mask, and the place where they go.
#[derive(Clone, Copy)]
pub struct Bits {
    pub child: u64,
    pub index: u64,
}

// The child bits and the bit indices of eight meta bytes, for a ray of this octant.
pub fn get_child_and_index_bits(meta8: u64, octant: u32) -> Bits
    requires { octant < 8 }
    ensures { (result.child ≡ each_byte child_bits meta8) × (result.index ≡ each_byte (bit_index octant) meta8) }
{
    let oct_inv8 = octant as u64 * 0x0101_0101_0101_0101;
    let inner_mask = 0x1010_1010_1010_1010;
    let is_inner8 = (meta8 & (meta8 << 1)) & inner_mask;
    let inner_mask8 = (is_inner8 >> 4) * 0xff;
    let index_mask = 0x1f1f_1f1f_1f1f_1f1f;
    let bit_index8 = (meta8 ^ (oct_inv8 & inner_mask8)) & index_mask;
    let child_mask = 0x0707_0707_0707_0707;
    let child_bits8 = (meta8 >> 5) & child_mask;
    Bits {
        child: child_bits8,
        index: bit_index8,
    }
}
