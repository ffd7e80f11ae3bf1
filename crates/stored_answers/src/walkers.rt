// Walkers: one that is made up, whether two are the same, and whether one is what a walk came to.
use ray::{Ray, Vec3};
use stored::{OneWord, behind, real, same, vector, word};
use traverse::{Group, Walk, Walker};

// The groups of a walker's stack.
const GROUPS: usize = 32;

// A walker made up, and how many words tell of it.
#[derive(Clone, Copy)]
pub struct Made {
    pub walker: Walker,
    pub words: u32,
}

// ---- one that is made up

// A group in the words at i and after it: its base and its bits.
fn group_at(walk: &[u8], i: usize) -> Group {
    let two = behind(walk, i);
    let base = word(two, 0);
    let bits = word(two, 1);
    Group { base, bits }
}

// The stack whose first groups, `count` of them, stand from word 20 on; the others are zero.
fn stack_of(walk: &[u8], count: usize) -> [u64; GROUPS] {
    let mut stack = [0u64; GROUPS];
    for i in 0..count.min(GROUPS) {
        stack[i] = u64::from(group_at(walk, 20 + 2 * i));
    }
    stack
}

// A walker in words: 0; ray 11, octant, tests, positions and group in hand, depth, groups given; these.
fn walker_of(walk: &[u8]) -> Walker {
    let ray = Ray {
        origin: vector(walk, 1),
        direction: vector(walk, 4),
        inverse: vector(walk, 7),
        tmin: real(walk, 10),
        tmax: real(walk, 11),
    };
    let held = Walk {
        tests: word(walk, 13),
        positions: group_at(walk, 14),
        current: group_at(walk, 16),
        depth: word(walk, 18),
    };
    Walker {
        ray,
        octant: word(walk, 12),
        walk: held,
        stack: stack_of(walk, word(walk, 19) as usize),
    }
}

// Such a walker, if its stack has room for the groups.
pub fn made_up(walk: &[u8]) -> Option<Made> {
    let count = word(walk, 19);
    if count as usize > GROUPS {
        return None;
    }
    Some(Made {
        walker: walker_of(walk),
        words: 20 + 2 * count,
    })
}

// The walker whose calls are stored beside a refusal to begin one: of zeros, as no words tell of one.
pub fn no_walker() -> Walker {
    walker_of(&[])
}

// ---- whether two walkers are the same

// Whether two floats have the same bits; every NaN is the same.
fn same_float(a: f32, b: f32) -> bool {
    a.to_word() == b.to_word()
}

fn same_vector(a: Vec3, b: Vec3) -> bool {
    same_float(a.x, b.x) && same_float(a.y, b.y) && same_float(a.z, b.z)
}

fn same_ray(a: Ray, b: Ray) -> bool {
    same_vector(a.origin, b.origin)
        && same_vector(a.direction, b.direction)
        && same_vector(a.inverse, b.inverse)
        && same_float(a.tmin, b.tmin)
        && same_float(a.tmax, b.tmax)
}

// Whether two walkers are the same in every word.
pub fn same_walker(a: Walker, b: Walker) -> bool {
    same_ray(a.ray, b.ray) && a.octant == b.octant && a.walk == b.walk && a.stack == b.stack
}

// A walker without its group in hand.
fn without_group(w: Walker) -> Walker {
    let walk = Walk {
        current: Group { base: 0, bits: 0 },
        ..w.walk
    };
    Walker { walk, ..w }
}

// Whether a step that was done on a record of so many bytes gave back the walker that it took, without nodes at least all but its group in hand.
pub fn same_done(bytes: usize, before: Walker, after: Walker) -> bool {
    if bytes > 0 {
        same_walker(before, after)
    } else {
        same_walker(without_group(before), without_group(after))
    }
}

// ---- what a walk came to

// Whether these words tell of a walker: tests, tmax, positions and children in hand, groups that wait.
pub fn came_to(end: &[u8], w: Walker) -> bool {
    let walk = w.walk;
    word(end, 0) == walk.tests
        && same(end, 1, w.ray.tmax)
        && word(end, 2) == u32::count_ones(walk.positions.bits)
        && word(end, 3) == u32::count_ones(walk.current.bits / advance::CHILDREN)
        && word(end, 4) == walk.depth
}
