// The words of a stored case, and its floats.
ghost use Rattle.std.specs.Prelude.{◌≡◌, ◌+◌, ◌≤◌, length};

use ray::{Beam, Vec3};

// The bytes of 65,536 nodes, one more than a record may have, and of a part of another: room for any stored record.
pub const RECORD_BYTES: usize = 5242959;

// A type whose values a case stores in a word each: a number as it is, a float by its pattern.
pub trait OneWord: Copy + PartialEq {
    fn of_word(word: u32) -> Self;

    fn to_word(self) -> u32;
}

impl OneWord for u32 {
    fn of_word(word: u32) -> u32 {
        word
    }

    fn to_word(self) -> u32 {
        self
    }
}

impl OneWord for f32 {
    fn of_word(word: u32) -> f32 {
        float::of_bits(word)
    }

    // Every NaN has one pattern.
    fn to_word(self) -> u32 {
        if self.is_nan() {
            0x7fc0_0000
        } else {
            self.to_bits()
        }
    }
}

// So many items of one value.
pub fn filled_with<T: Copy, const N: usize>(x: T) -> [T; N]
    ensures { N ≡ length result }
{
    [x; N]
}

// Word i of a case; 0 past its end. A case is a slice and no struct: programs cut parts out of it, each of which is a case again.
pub fn word(case: &[u8], i: usize) -> u32 {
    if i < case.len() / 4 {
        words::load_u32(case, i * 4)
    } else {
        0
    }
}

// The lowest byte of word i.
pub fn byte(case: &[u8], i: usize) -> u8 {
    (word(case, i) % 256) as u8
}

// The case behind its first n words; nothing where it has no more.
pub fn behind(case: &[u8], n: usize) -> &[u8] {
    if n <= case.len() / 4 {
        &case[n * 4..]
    } else {
        &[]
    }
}

// Words i and i + 1 of a case as one number, the low one first; by words, so that one past the end is 0.
pub fn wide(case: &[u8], i: usize) -> u64 {
    let two = behind(case, i);
    u64::from(word(two, 0)) + u64::from(word(two, 1)) * 0x1_0000_0000
}

// The words that a case starts with, as many as `into` has, go there; gives the case behind them.
pub fn copy_words<'a, T: OneWord>(case: &'a [u8], into: &mut [T]) -> &'a [u8] {
    for i in 0..into.len() {
        into[i] = T::of_word(word(case, i));
    }
    behind(case, into.len())
}

// The bytes of a case from byte `from` on, as many as `into` has; none where the case has fewer.
pub fn copy_bytes(case: &[u8], from: usize, into: &mut [u8]) {
    if let Some(rest) = case.get(from..) {
        if let Some(bytes) = rest.get(..into.len()) {
            into.copy_from_slice(bytes);
        }
    }
}

// Word i as a float.
pub fn real(case: &[u8], i: usize) -> f32 {
    f32::of_word(word(case, i))
}

// Words i to i + 2 as a vector.
pub fn vector(case: &[u8], i: usize) -> Vec3 {
    let three = behind(case, i);
    let x = real(three, 0);
    let y = real(three, 1);
    let z = real(three, 2);
    Vec3 { x, y, z }
}

// The eight floats from word i on as a ray: its origin, its direction, tmin and tmax.
pub fn beam(case: &[u8], i: usize) -> Beam {
    let floats = behind(case, i);
    let origin = vector(floats, 0);
    let direction = vector(floats, 3);
    let tmin = real(floats, 6);
    let tmax = real(floats, 7);
    Beam {
        origin,
        direction,
        tmin,
        tmax,
    }
}

// Whether word i is this number, or this float's pattern. What a program compares are words of a file and no values of an answer's type: so
// comparisons are functions here, and no PartialEq.
pub fn same<T: OneWord>(case: &[u8], i: usize, x: T) -> bool {
    word(case, i) == x.to_word()
}

// Whether three words are a vector's patterns.
pub fn same_vector(case: &[u8], i: usize, v: Vec3) -> bool {
    let three = behind(case, i);
    same(three, 0, v.x) && same(three, 1, v.y) && same(three, 2, v.z)
}

// The bytes of the whole words that so many bytes fill.
pub fn filled_up(bytes: u32) -> usize
    ensures { (bytes ≤ result) × (result ≤ bytes + 3) }
{
    (bytes as usize + 3) / 4 * 4
}

// Whether each of so many parts of a case is as stored, from word `from` on, where the case ends with them; `part` tells how many words such a one
// has.
pub fn same_parts<F: Fn(&[u8]) -> Option<usize>>(
    case: &[u8],
    from: usize,
    parts: u32,
    part: F,
) -> bool
    requires { F.IsAlwaysCallable part }
{
    let words = case.len() / 4;
    let mut at = from;
    for _ in 0..parts {
        if at >= words {
            return false;
        }
        let Some(long) = part(&case[at * 4..]) else {
            return false;
        };
        at = at.saturating_add(long);
    }
    at == words
}
