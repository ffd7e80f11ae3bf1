// Digests of words in their order, in the place of large answers.
use crate::cases::{OneWord, word};

// A digest with one word more.
pub fn digest_with(digest: u32, x: u32) -> u32 {
    digest.wrapping_mul(16777619).wrapping_add(x)
}

// Of numbers, or of the patterns of floats.
pub fn digest_of<T: OneWord>(items: &[T]) -> u32 {
    items
        .iter()
        .fold(0, |digest, x| digest_with(digest, x.to_word()))
}

// Of bytes, four to a word.
pub fn digest_of_bytes(bytes: &[u8]) -> u32 {
    (0..bytes.len() / 4).fold(0, |digest, i| digest_with(digest, word(bytes, i)))
}
