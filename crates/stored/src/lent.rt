// Items that are lent filled with a pattern, and what they hold afterwards.
use crate::cases::{OneWord, same};
use crate::digests::digest_of;

// What lent words, bytes, costs and totals hold before.
pub const WORD: u32 = 0xdead_beef;

pub const BYTE: u8 = 0xa5;

pub const COST: f32 = 1.5;

pub const TOTAL: u64 = 0xdead_beef_0bad_cafe;

// A type whose items hold a pattern when they are lent.
pub trait Lent: Copy + PartialEq {
    const BEFORE: Self;
}

impl Lent for u32 {
    const BEFORE: u32 = WORD;
}

impl Lent for u8 {
    const BEFORE: u8 = BYTE;
}

impl Lent for f32 {
    const BEFORE: f32 = COST;
}

impl Lent for u64 {
    const BEFORE: u64 = TOTAL;
}

// Whether each of these is x.
pub fn all_are<T: PartialEq + Copy>(items: &[T], x: T) -> bool {
    items.iter().all(|item| *item == x)
}

// Whether these are as they were lent.
pub fn untouched<T: Lent>(items: &[T]) -> bool {
    all_are(items, T::BEFORE)
}

// Whether the first `count` items are as `first` says, and the others as they were lent.
pub fn written<T: Lent, F: Fn(&[T]) -> bool>(items: &[T], count: usize, first: F) -> bool
    requires { F.IsAlwaysCallable first }
{
    match items.split_at_checked(count) {
        Some((front, rest)) => first(front) && untouched(rest),
        None => false,
    }
}

// Whether a case starts with the words of these.
fn same_words<T: OneWord>(case: &[u8], items: &[T]) -> bool {
    items
        .iter()
        .enumerate()
        .all(|(i, item)| same(case, i, *item))
}

// Whether the first `count` items are the words that a case starts with, and the others as they were lent.
pub fn written_words<T: OneWord + Lent>(case: &[u8], items: &[T], count: usize) -> bool {
    written(items, count, |front| same_words(case, front))
}

// Whether the first `count` bytes are those that a case starts with, and the others as they were lent.
pub fn written_bytes(case: &[u8], bytes: &[u8], count: usize) -> bool {
    written(bytes, count, |front| case.starts_with(front))
}

// Whether the first `count` items are zero in every bit, and the others as they were lent.
pub fn cleared_words<T: OneWord + Lent>(items: &[T], count: usize) -> bool {
    written(
        items,
        count,
        |front| front.iter().all(|item| item.to_word() == 0),
    )
}

// Whether the first `count` items have this digest, and the others are as they were lent.
pub fn digested_words<T: OneWord + Lent>(items: &[T], count: usize, digest: u32) -> bool {
    written(items, count, |front| digest_of(front) == digest)
}
