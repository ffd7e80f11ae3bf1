// Internal: a record's node of 80 bytes, as a value and in the record.
#![tactic(auto)]

ghost use Rattle.std.specs.Prelude.{◌≡◌, [], ◌∷◌, ◌+◌, ◌*◌, ◌%◌, ◌≤◌, ◌<◌, eqb, length, get_or};
ghost use Rattle.lists.specs.Splice.{splice};
ghost use Rattle.node.specs.Node.{slot_offset, node_from, node_at, MetaWord, inner_bit, code_count, put_slot, put_slots, head_bytes, node_bytes};

// How many bytes a node takes.
pub const BYTES: usize = 80;

// The six bytes of a slot's box on the node's grid.
#[derive(Clone, Copy)]
pub struct Slot {
    pub min_x: u8,
    pub min_y: u8,
    pub min_z: u8,
    pub max_x: u8,
    pub max_y: u8,
    pub max_z: u8,
}

// A node; p is kept as bits, and metas and slots are two arrays, as in the published node.
#[derive(Clone, Copy)]
pub struct Node {
    pub px: u32,
    pub py: u32,
    pub pz: u32,
    pub ex: u8,
    pub ey: u8,
    pub ez: u8,
    pub imask: u8,
    pub child_base_idx: u32,
    pub primitive_base_idx: u32,
    pub child_meta: [u8; 8],
    pub slots: [Slot; 8],
}

// A node's bytes, as they stand in a record.
#[derive(Clone, Copy)]
pub struct NodeRef<'a> {
    pub bytes: &'a [u8; BYTES],
}

// Node i of a record.
pub fn node_ref(record: &[u8], i: usize) -> NodeRef<'_>
    requires { 80 * i + 80 ≤ length «record».now }
    ensures { node_from result.bytes.now 0 ≡ node_at «record».now i }
{
    let (nodes, _) = record.as_chunks::<BYTES>();
    NodeRef { bytes: &nodes[i] }
}

// The offset of a slot's byte in its node: the axis 0, 1, 2 for x, y, z, the end 0 for min, 1 for max. A slot is a number below 8, as the index of
// arrays of eight: a type of its own would be no plainer, since every use takes the number out of it. Axis and end are factors of the sum.
pub fn slot_offset(axis: usize, end: usize, slot: usize) -> usize
    requires { (axis < 3) × (end < 2) × (slot < 8) }
    ensures { (result ≡ slot_offset axis end slot) × (result < 80) }
{
    32 + 16 * axis + 8 * end + slot
}

// The reference is copied out of its field where a whole slice is read from it: only so is that proved. Methods that differ in an offset are the
// published node's fields, by their names.
impl<'a> NodeRef<'a> {
    // A byte of a slot's box.
    pub fn corner(self, axis: usize, end: usize, slot: usize) -> u8
        requires { (axis < 3) × (end < 2) × (slot < 8) }
        ensures { result ≡ get_or self.entry.bytes.now (slot_offset axis end slot) 0 }
    {
        self.bytes[slot_offset(axis, end, slot)]
    }

    // The bits of p's coordinates.
    pub fn point(self) -> [u32; 3]
        ensures { let v = node_from self.entry.bytes.now 0 in result ≡ v.px ∷ v.py ∷ v.pz ∷ [] }
    {
        let bytes = self.bytes;
        [
            words::load_u32(bytes, 0),
            words::load_u32(bytes, 4),
            words::load_u32(bytes, 8),
        ]
    }

    // The exponent bytes.
    pub fn exponents(self) -> [u8; 3]
        ensures { let v = node_from self.entry.bytes.now 0 in result ≡ v.ex ∷ v.ey ∷ v.ez ∷ [] }
    {
        [self.bytes[12], self.bytes[13], self.bytes[14]]
    }

    // Which slots hold a node.
    pub fn imask(self) -> u8
        ensures { result ≡ (node_from self.entry.bytes.now 0).imask }
    {
        self.bytes[15]
    }

    // The number of the first child.
    pub fn child_base_idx(self) -> u32
        ensures { result ≡ (node_from self.entry.bytes.now 0).child_base_idx }
    {
        let bytes = self.bytes;
        words::load_u32(bytes, 16)
    }

    // The first position.
    pub fn primitive_base_idx(self) -> u32
        ensures { result ≡ (node_from self.entry.bytes.now 0).primitive_base_idx }
    {
        let bytes = self.bytes;
        words::load_u32(bytes, 20)
    }

    // A slot's meta byte.
    pub fn child_meta(self, child: usize) -> u8
        requires { child < 8 }
        ensures { result ≡ get_or (node_from self.entry.bytes.now 0).child_meta child 0 }
    {
        self.bytes[24 + child]
    }

    // The eight metas in a word.
    pub fn metas(self) -> u64
        ensures { MetaWord (node_from self.entry.bytes.now 0) result }
    {
        let bytes = self.bytes;
        words::load_u64(bytes, 24)
    }
}

// Writes a slot among a node's bytes.
fn write_slot(bytes: &mut [u8; BYTES], slot: usize, t: Slot)
    requires { slot < 8 }
    ensures { bytes.new ≡ put_slot bytes.old 0 slot t }
{
    bytes[slot_offset(0, 0, slot)] = t.min_x;
    bytes[slot_offset(1, 0, slot)] = t.min_y;
    bytes[slot_offset(2, 0, slot)] = t.min_z;
    bytes[slot_offset(0, 1, slot)] = t.max_x;
    bytes[slot_offset(1, 1, slot)] = t.max_y;
    bytes[slot_offset(2, 1, slot)] = t.max_z;
}

// Writes the eight slots.
fn write_slots(bytes: &mut [u8; BYTES], slots: [Slot; 8])
    ensures { bytes.new ≡ put_slots 8 bytes.old 0 slots }
{
    for k in 0..8 {
        write_slot(bytes, k, slots[k]);
    }
}

// Writes the first 32 bytes.
fn write_head(bytes: &mut [u8; BYTES], n: Node)
    ensures { bytes.new ≡ splice bytes.old 0 (head_bytes n) }
{
    words::store_u32(bytes, 0, n.px);
    words::store_u32(bytes, 4, n.py);
    words::store_u32(bytes, 8, n.pz);
    bytes[12..16].copy_from_slice(&[n.ex, n.ey, n.ez, n.imask]);
    words::store_u32(bytes, 16, n.child_base_idx);
    words::store_u32(bytes, 20, n.primitive_base_idx);
    bytes[24..32].copy_from_slice(&n.child_meta);
}

// The 80 bytes of a node.
fn bytes_of(n: Node) -> [u8; BYTES]
    ensures { result ≡ node_bytes n }
{
    let mut bytes = [0; BYTES];
    write_head(&mut bytes, n);
    write_slots(&mut bytes, n.slots);
    bytes
}

// Writes node i of a record.
pub fn write_node(s: &mut [u8], i: usize, n: Node)
    requires { 80 * i + 80 ≤ length s.old }
    ensures { s.new ≡ splice s.old (80 * i) (node_bytes n) }
{
    let o = BYTES * i;
    s[o..o + BYTES].copy_from_slice(&bytes_of(n));
}

// Whether a slot holds no node: a leaf, or nothing.
pub fn is_leaf(imask: u8, child: u32) -> bool
    requires { child < 8 }
    ensures { result ≡ eqb (inner_bit imask child) 0 }
{
    (imask as u32 >> child) % 2 == 0
}

// A leaf's first position and how many it has. The sum needs more than 32 bits.
#[derive(Clone, Copy)]
pub struct Primitives {
    pub start: usize,
    pub count: u32,
}

// The positions of a leaf with this meta byte.
pub fn child_primitives(primitive_base_idx: u32, meta: u8) -> Primitives
    ensures { (result.start ≡ primitive_base_idx + meta % 32) × (result.count ≡ code_count meta) }
{
    let m = meta as u32;
    Primitives {
        start: primitive_base_idx as usize + (m % 32) as usize,
        count: u32::count_ones(m / 32),
    }
}
