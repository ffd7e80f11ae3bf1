// Internal: words as fields of bits, counts of ones, the highest bit, and numbers in a slice of bytes, the lowest byte first.
// The laws that u32 and u64 share stand in proofs/, with the width as parameter.
#![tactic(auto)]

ghost use Rattle.std.specs.Prelude.{◌≡◌, ◌+◌, ◌-◌, ◌/◌, ◌^◌, ◌%◌, ◌<◌, ◌≤◌, length, take, drop};
ghost use Rattle.words.specs.Fields.{field};
ghost use Rattle.words.specs.Le.{store_le};
ghost use Rattle.words.specs.Loaded.{Loaded};
ghost use Rattle.words.specs.Ones.{ones_below};
ghost use Rattle.words.specs.Top.{Top};

// A word's kind stands in its bits 31 and 30: it is the quotient by this, and the rest is the remainder.
pub const KIND: u32 = 0x4000_0000;

// The kind of a word.
pub fn kind(word: u32) -> u32
    ensures { result ≡ word / 0x4000_0000 }
{
    word / KIND
}

// The rest of a word: its bits below the kind.
pub fn below_kind(word: u32) -> u32
    ensures { result ≡ word % 0x4000_0000 }
{
    word % KIND
}

// Of two words in one of 64 bits the upper is the quotient by this, and the lower the remainder.
pub const UPPER: u64 = 0x1_0000_0000;

// The rank of a slot: how many ones of the mask stand below it.
pub fn rank(imask: u32, slot: u32) -> u32
    requires { slot < 32 }
    ensures { result ≡ ones_below slot imask }
{
    (imask & !(u32::MAX << slot)).count_ones()
}

// The place of the highest set bit.
pub fn highest(bits: u32) -> u32
    requires { 0 < bits }
    ensures { Top 32 bits result }
{
    bits.ilog2()
}

// The word without its highest set bit r.
pub fn clear_highest(bits: u32, r: u32) -> u32
    requires { Top 32 bits r }
    ensures { (result ≡ bits - 2 ^ r) × (result ≡ bits % 2 ^ r) }
{
    bits & !(1 << r)
}

// The N bytes at a place of a slice.
fn bytes_at<const N: usize>(s: &[u8], at: usize) -> [u8; N]
    requires { at + N ≤ length s.now }
    ensures { result ≡ take N (drop at s.now) }
{
    s[at..at + N].try_into().unwrap()
}

// The word at a place of a slice. Two widths, a line each: std has no trait with `from_le_bytes`.
pub fn load_u32(s: &[u8], at: usize) -> u32
    requires { at + 4 ≤ length s.now }
    ensures { Loaded 4 s.now at result }
{
    u32::from_le_bytes(bytes_at(s, at))
}

// The 64-bit word at a place of a slice.
pub fn load_u64(s: &[u8], at: usize) -> u64
    requires { at + 8 ≤ length s.now }
    ensures { Loaded 8 s.now at result }
{
    u64::from_le_bytes(bytes_at(s, at))
}

// Writes a word at a place of a slice.
pub fn store_u32(s: &mut [u8], at: usize, v: u32)
    requires { at + 4 ≤ length s.old }
    ensures { s.new ≡ store_le 4 s.old at v }
{
    s[at..at + 4].copy_from_slice(&v.to_le_bytes());
}

// The lowest byte of a word.
#[tactic(auto, unfolding(crate::specs::Fields::field))]
pub fn low_byte(w: u64) -> u32
    ensures { result ≡ field 8 0 w }
{
    (w % 256) as u32
}
