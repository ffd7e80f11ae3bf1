// The stored cases of slots given by any costs, and to children with any boxes.
use aabb::Aabb;
use std::array;
use stored::{behind, real, vector, word};

// Whether the eight bytes from word `at` on are these places, 8 for none.
fn same_places(case: &[u8], at: usize, places: [usize; 8]) -> bool {
    places
        .iter()
        .zip(behind(case, at))
        .all(|(place, byte)| *place == usize::from(*byte))
}

// Whether the eight words from word `at` on are these numbers.
fn same_words(case: &[u8], at: usize, numbers: [u32; 8]) -> bool {
    let told = behind(case, at);
    let stored: [u32; 8] = array::from_fn(|i| word(told, i));
    stored == numbers
}

// Whether word `at` is so many children, and 256 times so many searches.
fn same_counts(case: &[u8], at: usize, count: usize, rounds: usize) -> bool {
    let told = word(case, at) as usize;
    count == told % 256 && rounds == told / 256
}

// The eight costs from word i on.
fn row(case: &[u8], i: usize) -> [f32; 8] {
    let told = behind(case, i);
    array::from_fn(|s| real(told, s))
}

// A count and 64 costs; the slot of each child, the child of each slot and the children in the order seated; how many, and by how many searches.
pub fn table(case: &[u8]) -> bool {
    let cost: [[f32; 8]; 8] = array::from_fn(|c| row(case, 1 + 8 * c));
    let a = order::assign(cost, word(case, 0) as usize);
    case.len() == 4 * 72
        && same_places(case, 65, a.slot)
        && same_places(case, 67, a.child)
        && same_places(case, 69, a.seated)
        && same_counts(case, 71, a.count, a.rounds)
}

// The box in the six words from word i on.
fn box_at(case: &[u8], i: usize) -> Aabb {
    let corners = behind(case, i);
    let min = vector(corners, 0);
    let max = vector(corners, 3);
    Aabb { min, max }
}

// Order, count, parent, eight boxes and numbers; these by slots and in the order seated; how many, and by how many searches.
pub fn node(case: &[u8]) -> bool {
    let ordered = word(case, 0) == 1;
    let count = word(case, 1) as usize;
    let parent = box_at(case, 2);
    let boxes: [Aabb; 8] = array::from_fn(|c| box_at(case, 8 + 6 * c));
    let children: [u32; 8] = array::from_fn(|c| word(case, 56 + c));
    let s = order::seat_children(ordered, parent, boxes, children, count);
    case.len() == 4 * 81
        && same_words(case, 64, s.slots)
        && same_words(case, 72, s.seated)
        && same_counts(case, 80, s.count, s.rounds)
        && (!ordered || s.slots == order::order_children(parent, boxes, children, count))
}
