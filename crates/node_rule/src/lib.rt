// Internal: the node rule, the eight slots tested at once in a word.
#![tactic(auto)]

ghost use Rattle.std.specs.Prelude.{◌≡◌, ℕ, ◌+◌, ◌-◌, ◌*◌, ◌/◌, ◌≤◌, ◌<◌, length};
ghost use Rattle.std.specs.Int.Bits.{bit_and};
ghost use Rattle.words.specs.Fields.{field};
ghost use Rattle.words.specs.Ones.{ones_below};
ghost use Rattle.node.specs.Node.{node_from, node_at, inner_bit};
ghost use Rattle.node_rule.specs.Rule.{point_ok, exponent_ok, head_ok, children_ok, slots_ok, node_rule};
ghost use Rattle.node_rule.specs.Tells.{Tells};
ghost use Rattle.node_rule.specs.Words.{Bytes, InnerRule, LeafRule, MetaRule, RoomOf, ones_top};

use node::NodeRef;

// Whether a coordinate of p, given as bits, is within 2^40 of zero: its bits without the sign don't exceed those of 2^40.
#[tactic(auto, using(crate::proofs::PointBits::point_bits))]
fn point_ok(bits: u32) -> bool
    ensures { result ≡ point_ok bits }
{
    bits % 0x8000_0000 <= 0x5380_0000
}

// Whether an exponent byte is 53 to 161.
#[tactic(auto, unfolding(crate::specs::Rule::exponent_ok))]
fn exponent_ok(e: u8) -> bool
    ensures { result ≡ exponent_ok e }
{
    (53..=161).contains(&e)
}

// Whether p and e of a node are in their ranges.
#[tactic(auto, unfolding(crate::specs::Rule::head_ok))]
fn head_ok(node: NodeRef) -> bool
    ensures { result ≡ head_ok (node_from node.entry.bytes.now 0) }
{
    let [px, py, pz] = node.point();
    let [ex, ey, ez] = node.exponents();
    point_ok(px)
        && point_ok(py)
        && point_ok(pz)
        && exponent_ok(ex)
        && exponent_ok(ey)
        && exponent_ok(ez)
}

// How many slots hold a node.
pub fn child_count(imask: u8) -> u32
    ensures { (result ≡ ones_below 8 imask) × (result ≤ 8) }
{
    imask.count_ones()
}

// Whether the children of a node, number i of m, come after it and exist.
#[tactic(auto, unfolding(crate::specs::Rule::children_ok))]
fn children_ok(node: NodeRef, m: usize, i: usize) -> bool
    ensures { result ≡ children_ok (node_from node.entry.bytes.now 0) m i }
{
    let imask = node.imask();
    let base = node.child_base_idx() as usize;
    imask == 0 || (i < base && base + child_count(imask) as usize <= m)
}

// What two words have in common, which is at most the second.
fn common(x: u64, m: u64) -> u64
    ensures { (result ≡ bit_and x m) × (result ≤ m) }
{
    x & m
}

// 0xff in each byte whose bit of imask is set, 0 in the others: a byte of x is 0 or a power of two, so that the sums stay in their bytes.
fn spread(imask: u8) -> u64
    ensures { Bytes result (λ k. inner_bit imask k * 255) }
{
    let x = common(
        (imask as u64) * 0x0101_0101_0101_0101,
        0x8040_2010_0804_0201,
    );
    let y = x + 0x7f7f_7f7f_7f7f_7f7f;
    common(y >> 7, 0x0101_0101_0101_0101) * 0xff
}

// Each byte that inner has is 56 plus its place.
#[tactic(auto, using(crate::proofs::MetaWords::inner_tells))]
fn inner_ok(meta8: u64, imask: u8, inner: u64) -> bool
    requires { Bytes inner (λ k. inner_bit imask k * 255) }
    ensures { Tells ((k : ℕ) → k < 8 → InnerRule (field 8 k meta8) (inner_bit imask k) k) result }
{
    (meta8 ^ 0x3f3e_3d3c_3b3a_3938) & inner == 0
}

// The bytes that inner has not.
#[tactic(auto, using(crate::proofs::MetaWords::rest_is))]
fn rest(meta8: u64, inner: u64) -> u64
    ensures { Bytes result (λ k. bit_and (field 8 k meta8) (255 - field 8 k inner)) }
{
    meta8 & !inner
}

// The three high bits of each byte.
#[tactic(auto, using(crate::proofs::MetaWords::tops_are))]
fn tops(leaf: u64) -> u64
    ensures { Bytes result (λ k. field 8 k leaf / 32) × (result ≤ 0x0707_0707_0707_0707) }
{
    common(leaf >> 5, 0x0707_0707_0707_0707)
}

// How many of the three low bits are set in each byte.
#[tactic(auto, using(crate::proofs::MetaWords::ones_are))]
fn ones3(t: u64) -> u64
    requires { t ≤ 0x0707_0707_0707_0707 }
    ensures { Bytes result (λ k. ones_top (field 8 k t)) × (result ≤ 0x0303_0303_0303_0303) }
{
    common(t, 0x0101_0101_0101_0101)
        + common(t >> 1, 0x0101_0101_0101_0101)
        + common(t >> 2, 0x0101_0101_0101_0101)
}

// Each byte is 0 or a leaf code whose positions end within room.
#[tactic(auto, using(crate::proofs::MetaWords::leaves_fail, crate::proofs::MetaWords::leaves_tell))]
fn leaves_ok(leaf: u64, room: u32) -> bool
    requires { room ≤ 24 }
    ensures { Tells ((k : ℕ) → k < 8 → LeafRule (field 8 k leaf) room) result }
{
    let t = tops(leaf);
    if t & (t + 0x0101_0101_0101_0101) != 0 {
        return false;
    }
    let c = ones3(t);
    let low = common(leaf, 0x1f1f_1f1f_1f1f_1f1f);
    let k = (127 - room) as u64;
    let over = low + c + k * 0x0101_0101_0101_0101;
    let lone = (low + 0x7f7f_7f7f_7f7f_7f7f) & !(c + 0x7f7f_7f7f_7f7f_7f7f);
    (over | lone) & 0x8080_8080_8080_8080 == 0
}

// The eight slots: bytes of meta8, bits of imask, positions that end within room.
fn metas_ok(meta8: u64, imask: u8, room: u32) -> bool
    requires { room ≤ 24 }
    ensures { Tells ((k : ℕ) → k < 8 → MetaRule (field 8 k meta8) (inner_bit imask k) k room) result }
{
    let inner = spread(imask);
    inner_ok(meta8, imask, inner) && leaves_ok(rest(meta8, inner), room)
}

// How far from its node's base a leaf's positions may end.
const MOST: usize = 24;

// As many positions as a node may use from its base on.
fn room_of(base: u32, n: usize) -> u32
    ensures { RoomOf base n result }
{
    let left = n.saturating_sub(base as usize);
    left.min(MOST) as u32
}

// Whether the eight slots of a node meet the rule, with n positions.
#[tactic(auto, using(crate::proofs::Slots::slots_word))]
fn slots_ok(node: NodeRef, n: usize) -> bool
    ensures { result ≡ slots_ok 8 (node_from node.entry.bytes.now 0) n }
{
    let room = room_of(node.primitive_base_idx(), n);
    metas_ok(node.metas(), node.imask(), room)
}

// Whether a node meets the node rule as node i of a record of m nodes and n positions: the three are the definition's own arguments.
#[tactic(auto, unfolding(crate::specs::Rule::node_rule))]
pub fn meets_rule(node: NodeRef, i: usize, m: usize, n: usize) -> bool
    ensures { result ≡ node_rule (node_from node.entry.bytes.now 0) m n i }
{
    head_ok(node) && children_ok(node, m, i) && slots_ok(node, n)
}

// Whether node i of a record of m nodes and n positions meets the node rule. It does not call `meets_rule`: that has one caller, the walk's test of a
// node, into whose loop it is compiled.
#[tactic(auto, unfolding(crate::specs::Rule::node_rule))]
pub fn node_rule(s: &[u8], i: usize, m: usize, n: usize) -> bool
    requires { 80 * i + 80 ≤ length s.now }
    ensures { result ≡ node_rule (node_at s.now i) m n i }
{
    let node = node::node_ref(s, i);
    head_ok(node) && children_ok(node, m, i) && slots_ok(node, n)
}
