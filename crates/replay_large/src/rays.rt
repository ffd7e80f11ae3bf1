// A stored ray on a large record: any-hit with a list of just the length needed and with one word less, closest, miss, and a walker to its end.
use any_hit::{AnyHit, AnyHitError};
use closest::{ClosestHit, Occlusion};
use stored::{WORD, beam, digest_with, digested_words, real, same, untouched, word};
use traverse::{Answer, Walker};

// Room for all positions and guard words past them.
pub const SPACE: usize = 20064;

// The most steps of a walk.
const MOST_STEPS: u32 = 1000000;

// What is asked: a stored ray on a record, with its index words and panes.
#[derive(Clone, Copy)]
pub struct Asked<'a> {
    pub ray: &'a [u8],
    pub record: &'a [u8],
    pub list: &'a [u32],
    pub panes: &'a [f32],
}

// ---- any-hit

// Whether any-hit, lent so many of these words, answered as stored from word 8 on: tests, positions, digest.
pub fn same_found(
    ray: &[u8],
    room: usize,
    answer: Result<AnyHit, AnyHitError>,
    space: &[u32],
) -> bool {
    match answer {
        Ok(found) => {
            found.tests == word(ray, 8)
                && found.count == word(ray, 9)
                && digested_words(space, found.count as usize, word(ray, 10))
        }
        Err(AnyHitError::Short(needed)) => {
            room < needed as usize && needed == word(ray, 9) && untouched(space)
        }
        Err(AnyHitError::Refused(_)) => false,
    }
}

// Whether any-hit with room for so many positions answers as stored.
fn same_any(asked: Asked, room: usize, space: &mut [u32]) -> bool {
    if room > space.len() {
        return false;
    }
    let answer = any_hit::any_hit(
        asked.record,
        asked.list.len(),
        beam(asked.ray, 0),
        &mut space[..room],
    );
    same_found(asked.ray, room, answer, space)
}

// The same with words that hold a pattern before, lent to another function, as in other programs, whose calls differ.
fn same_lent(asked: Asked, room: usize) -> bool {
    let mut space = [WORD; SPACE];
    same_any(asked, room, &mut space)
}

// With just the room needed, and with one word less.
fn same_any_hit(asked: Asked) -> bool {
    let needed = word(asked.ray, 9) as usize;
    same_lent(asked, needed) && (needed == 0 || same_lent(asked, needed - 1))
}

// ---- closest and miss

// Whether closest answers as stored from word 11 on: tests, whether it hit, position and distance.
fn same_closest(asked: Asked) -> bool {
    let ray = asked.ray;
    let found = closest::closest(asked.record, asked.list, asked.panes, beam(ray, 0));
    found.tests == word(ray, 11)
        && match found.answer {
            ClosestHit::Hit(p, distance) => {
                word(ray, 12) == 1 && word(ray, 13) == p && same(ray, 14, distance)
            }
            ClosestHit::NoHit => word(ray, 12) == 0,
            ClosestHit::Refused(_) => false,
        }
}

// Whether miss answers as stored from word 15 on: tests, whether it missed.
fn same_miss(asked: Asked) -> bool {
    let ray = asked.ray;
    match closest::miss(asked.record, asked.list, asked.panes, beam(ray, 0)) {
        Ok(found) => {
            found.tests == word(ray, 15)
                && word(ray, 16) == u32::from(found.answer == Occlusion::Missed)
        }
        Err(_) => false,
    }
}

// ---- steps

// Whether a walker's steps to the end are as stored from word 20 on: how many, and their digest, a test as 0 and a report as one more than its
// position. Each report is told the next of the three distances at word 17, in turn.
fn same_walk(asked: Asked) -> bool {
    let ray = asked.ray;
    let Ok(mut walker) = Walker::new(beam(ray, 0)) else {
        return false;
    };
    let mut reports = 0;
    let mut digest = 0;
    for steps in 0..MOST_STEPS {
        let s = walker.step(asked.record, asked.list.len());
        walker = s.walker;
        match s.answer {
            Answer::Tested(_) => digest = digest_with(digest, 0),
            Answer::Position(p) => {
                walker = walker.tell(real(ray, 17 + reports % 3));
                reports += 1;
                digest = digest_with(digest, p.wrapping_add(1));
            }
            Answer::Done => return word(ray, 20) == steps && word(ray, 21) == digest,
            Answer::Refused(_) => return false,
        }
    }
    false
}

// Whether all is answered as stored.
pub fn same_ray(asked: Asked) -> bool {
    same_any_hit(asked) && same_closest(asked) && same_miss(asked) && same_walk(asked)
}
