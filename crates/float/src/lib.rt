// Internal: small float operations that the other crates share. The laws on floats stand in proofs/.
#![tactic(auto)]

ghost use Rattle.std.specs.Prelude.{◌≡◌};
ghost use Rattle.std.specs.Float.{binary32};
ghost use Rattle.std.specs.Float.Ieee.{of_bits};
ghost use Rattle.float.specs.Compare.{min_of, max_of, unsigned_zero, is_minus_zero, in_bounds};
ghost use Rattle.float.specs.PowerOfTwo.{scale_of};

// The two operands of an operation, here and in `aabb`, are no thing of their own that a struct could name.

// The lesser of two, as a vector's min takes it; the standard min gives another one at a NaN.
#[tactic(auto, unfolding(crate::specs::Compare::min_of))]
pub fn min(a: f32, b: f32) -> f32
    ensures { result ≡ min_of a b }
{
    if a < b { a } else { b }
}

// The greater of two, as a vector's max takes it; the standard max gives another one at a NaN.
#[tactic(auto, unfolding(crate::specs::Compare::max_of))]
pub fn max(a: f32, b: f32) -> f32
    ensures { result ≡ max_of a b }
{
    if a > b { a } else { b }
}

// +0.0 for a zero of either sign.
pub fn unsigned_zero(x: f32) -> f32
    ensures { result ≡ unsigned_zero x }
{
    if x == 0.0 { 0.0 } else { x }
}

// Whether x is -0.0.
pub fn is_minus_zero(x: f32) -> bool
    ensures { result ≡ is_minus_zero x }
{
    x == 0.0 && x.is_sign_negative()
}

// Whether x is finite and within 2^40 of zero.
pub fn in_bounds(x: f32) -> bool
    ensures { result ≡ in_bounds x }
{
    -1099511627776.0 <= x && x <= 1099511627776.0
}

// The float of a bit pattern; every NaN pattern gives the NaN.
pub fn of_bits(bits: u32) -> f32
    ensures { result ≡ of_bits binary32 bits }
{
    if bits % 0x8000_0000 > 0x7f80_0000 {
        f32::NAN
    } else {
        f32::from_bits(bits)
    }
}

// The float with exponent field e: the step of a grid with that exponent byte.
#[tactic(auto, using(crate::proofs::NanBits::no_nan_pattern), unfolding(crate::specs::PowerOfTwo::scale_of))]
pub fn scale(e: u8) -> f32
    ensures { result ≡ scale_of e }
{
    f32::from_bits(u32::from(e) * 8388608)
}
