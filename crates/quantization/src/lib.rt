// Internal: from floats to bytes. The exponent byte of an axis, the reciprocal of its scale, and a value on the grid rounded down or up to a byte.
#![tactic(auto)]

ghost use Rattle.std.specs.Prelude.{◌≡◌};
ghost use Rattle.quantization.specs.Ends.{quant_min, quant_max, reciprocal_of};
ghost use Rattle.quantization.specs.Exponent.{extent_scale, exponent_of};

// No extent counts as less.
const LEAST_EXTENT: f32 = 1e-20;

// The part of an extent that a step covers.
const DENOM: f32 = 1.0 / 255.0;

// The extent's 255th part, with 1e-20 in the place of a smaller extent. Its two ends are coordinates of two corners: a pair of them has no other use.
fn extent_scale(lo: f32, hi: f32) -> f32
    ensures { result ≡ extent_scale lo hi }
{
    float::max(hi - lo, LEAST_EXTENT) * DENOM
}

// The biased exponent of the next power of two at or above the extent's 255th part.
// 2^23 - 1 added to a pattern carries into its exponent field unless the digits below are all 0.
pub fn exponent_byte(lo: f32, hi: f32) -> u8
    ensures { result ≡ exponent_of lo hi }
{
    let scale = extent_scale(lo, hi);
    ((scale.to_bits() + 8388607) / 8388608) as u8
}

// The reciprocal of the power of two that an exponent byte stands for.
pub fn reciprocal(e: u8) -> f32
    ensures { result ≡ reciprocal_of e }
{
    1.0 / float::scale(e)
}

// The floor of x, clamped to a byte: two comparisons and a cut, since the standard cast that saturates takes an f64.
pub fn quantize_min(x: f32) -> u8
    ensures { result ≡ quant_min x }
{
    if x >= 255.0 {
        255
    } else if x > 0.0 {
        std::num::truncating_f32_to_u64(x) as u8
    } else {
        0
    }
}

// The ceiling of x, clamped to a byte.
pub fn quantize_max(x: f32) -> u8
    ensures { result ≡ quant_max x }
{
    let floor = quantize_min(x);
    if floor < 255 && f32::from(floor) < x {
        floor + 1
    } else {
        floor
    }
}
