// The stored cases of rays, boxes and quantised ends.
use aabb::Aabb;
use ray::{Beam, Ray};
use stored::{beam, behind, real, same, same_vector, vector, word};

// A float, its safe inverse.
fn safe_inverse(case: &[u8]) -> bool {
    same(case, 1, ray::safe_inverse(real(case, 0)))
}

// Origin, direction, tmin, tmax; inverse, octant, whether it is accepted.
fn rays(case: &[u8]) -> bool {
    let beam = beam(case, 0);
    let r = Ray::new(beam);
    same_vector(case, 8, r.inverse)
        && same(case, 11, ray::octant(beam.direction))
        && same(case, 12, u32::from(r.accepted()))
}

// The box in the six words from word i on.
fn box_at(case: &[u8], i: usize) -> Aabb {
    let corners = behind(case, i);
    let min = vector(corners, 0);
    let max = vector(corners, 3);
    Aabb { min, max }
}

// A box; half area, centre, whether it is accepted.
fn boxes(case: &[u8]) -> bool {
    let b = box_at(case, 0);
    same(case, 6, b.half_area())
        && same_vector(case, 7, b.center())
        && same(case, 10, u32::from(b.accepted()))
}

// Two boxes; their union.
fn unions(case: &[u8]) -> bool {
    let u = box_at(case, 0).union(box_at(case, 6));
    same_vector(case, 12, u.min) && same_vector(case, 15, u.max)
}

// A box, a ray's origin and direction; the distance at which it enters.
fn entries(case: &[u8]) -> bool {
    let origin = vector(case, 6);
    let direction = vector(case, 9);
    let r = Ray::new(Beam {
        origin,
        direction,
        tmin: 0.0,
        tmax: 1.0,
    });
    same(case, 12, box_at(case, 0).intersect_ray(r))
}

// The two ends of an axis; the exponent byte of its extent.
fn exponents(case: &[u8]) -> bool {
    let byte = quantization::exponent_byte(real(case, 0), real(case, 1));
    same(case, 2, u32::from(byte))
}

// A child's end on its parent's grid; its floor in the lowest byte, its ceiling in the next.
fn ends(case: &[u8]) -> bool {
    let x = real(case, 0);
    let bytes = word(case, 1);
    u32::from(quantization::quantize_min(x)) == bytes % 0x100
        && u32::from(quantization::quantize_max(x)) == bytes / 0x100
}

// Whether the library agrees with a case, whose kind the file tells by a number.
pub fn agrees(kind: u32, case: &[u8]) -> bool {
    match kind {
        1 => safe_inverse(case),
        2 => rays(case),
        3 => boxes(case),
        4 => unions(case),
        5 => entries(case),
        6 => exponents(case),
        7 => ends(case),
        _ => false,
    }
}
