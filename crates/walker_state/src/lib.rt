// Internal: a walker kept in words that a caller lends: it begins there, steps, and is told distances. Any words hold some walker.
// They are two arrays, as the C interface lends them.
#![tactic(auto)]

ghost use Rattle.std.specs.Prelude.{◌≡◌, not, List, ℕ, ◌<◌, ◌+◌, ◌%◌, ◌^◌, eqb, get_or};
ghost use Rattle.std.specs.Float.Ieee.{of_bits};
ghost use Rattle.std.specs.Float.{binary32};
ghost use Rattle.causes.specs.Refusal.{cause_in};
ghost use Rattle.ray.specs.Ray.{ray_from};
ghost use Rattle.advance.specs.Turn.{step_answer, walker_of};
ghost use Rattle.traverse.specs.Walker.{walker_words, started, told_walker, step_bytes};
ghost use Rattle.walker_state.specs.State.{half_in, float_in, vec_held, ray_held, group_in, walk_in, walker_in, held, is_refused, Leaves, Patterns};

use causes::Refusal;
use ray::{Beam, Ray, Vec3};
use traverse::{Answer, Group, Walk, Walker};

// ---- the walker that words hold

// The lower half of word k.
fn half_in(s: &[u64; 18], k: usize) -> u32
    requires { k < 18 }
    ensures { result ≡ half_in s.now k }
{
    (s[k] % 0x1_0000_0000) as u32
}

fn float_in(s: &[u64; 18], k: usize) -> f32
    requires { k < 18 }
    ensures { result ≡ float_in s.now k }
{
    float::of_bits(half_in(s, k))
}

fn vec_in(s: &[u64; 18], k: usize) -> Vec3
    requires { k < 16 }
    ensures { result ≡ vec_held s.now k }
{
    let x = float_in(s, k);
    let y = float_in(s, k + 1);
    let z = float_in(s, k + 2);
    Vec3 { x, y, z }
}

fn ray_in(s: &[u64; 18]) -> Ray
    ensures { result ≡ ray_held s.now }
{
    let origin = vec_in(s, 0);
    let direction = vec_in(s, 3);
    let inverse = vec_in(s, 6);
    let tmin = float_in(s, 9);
    let tmax = float_in(s, 10);
    Ray {
        origin,
        direction,
        inverse,
        tmin,
        tmax,
    }
}

fn group_in(s: &[u64; 18], k: usize) -> Group
    requires { k < 17 }
    ensures { result ≡ group_in s.now k }
{
    let base = half_in(s, k);
    let bits = half_in(s, k + 1);
    Group { base, bits }
}

fn walk_in(s: &[u64; 18]) -> Walk
    ensures { result ≡ walk_in s.now }
{
    let tests = half_in(s, 12);
    let positions = group_in(s, 13);
    let current = group_in(s, 15);
    let depth = half_in(s, 17);
    Walk {
        tests,
        positions,
        current,
        depth,
    }
}

fn walker_in(s: &[u64; 18], t: &[u64; 32]) -> Walker
    ensures { walker_words result ≡ walker_in s.now t.now }
{
    let ray = ray_in(s);
    let octant = half_in(s, 11);
    let walk = walk_in(s);
    let stack = *t;
    Walker {
        ray,
        octant,
        walk,
        stack,
    }
}

// ---- words that hold a walker

// The pattern of a float; a NaN has the one of the quiet NaN without a payload.
fn pattern(x: f32) -> u64
    ensures { of_bits binary32 (result % 2 ^ 32) ≡ x }
{
    if x.is_nan() {
        return 0x7fc0_0000;
    }
    u64::from(x.to_bits())
}

// The patterns of three floats.
fn patterns(v: Vec3) -> [u64; 3]
    ensures { Patterns (get_or result 0 0) (get_or result 1 0) (get_or result 2 0) v }
{
    [pattern(v.x), pattern(v.y), pattern(v.z)]
}

// The words of all but the stack.
fn head_of(ray: Ray, octant: u32, walk: Walk) -> [u64; 18]
    ensures { (t : List ℕ) → walker_in result t ≡ walker_of ray octant walk t }
{
    let [ox, oy, oz] = patterns(ray.origin);
    let [dx, dy, dz] = patterns(ray.direction);
    let [ix, iy, iz] = patterns(ray.inverse);
    let tmin = pattern(ray.tmin);
    let tmax = pattern(ray.tmax);
    [
        ox,
        oy,
        oz,
        dx,
        dy,
        dz,
        ix,
        iy,
        iz,
        tmin,
        tmax,
        u64::from(octant),
        u64::from(walk.tests),
        u64::from(walk.positions.base),
        u64::from(walk.positions.bits),
        u64::from(walk.current.base),
        u64::from(walk.current.bits),
        u64::from(walk.depth),
    ]
}

fn put_walker(s: &mut [u64; 18], t: &mut [u64; 32], w: Walker)
    ensures { walker_in s.new t.new ≡ walker_words w }
{
    // by a variable, since no proof is made of an array field that is stored straight
    let stack = w.stack;
    *s = head_of(w.ray, w.octant, w.walk);
    *t = stack;
}

// ---- the calls

// A walker that has the first node before it, in the words lent, for a ray that is accepted.
pub fn begin(beam: Beam, s: &mut [u64; 18], t: &mut [u64; 32]) -> Result<(), Refusal>
    ensures value { cause_in result ≡ (started (ray_from beam)).refused }
    ensures leaves { Leaves (not (eqb (cause_in result) 0)) (held s.old t.old) (held s.new t.new)
        (started (ray_from beam)).walker }
{
    let walker = Walker::new(beam)?;
    put_walker(s, t, walker);
    Ok(())
}

// Whether an answer is a refusal.
#[tactic(auto, unfolding(advance::specs::Turn::step_answer))]
fn is_refused(answer: Answer) -> bool
    ensures { result ≡ is_refused (step_answer answer) }
{
    matches!(answer, Answer::Refused(_))
}

// A step of the walker that the words hold, on a record taken to have n positions. A refused step leaves the words as they were.
pub fn step(s: &mut [u64; 18], t: &mut [u64; 32], record: &[u8], n: usize) -> Answer
    ensures result_value { step_answer result ≡ (step_bytes «record».now n (walker_in s.old t.old)).answer }
    ensures leaves { Leaves (is_refused (step_answer result)) (held s.old t.old) (held s.new t.new)
        (step_bytes «record».now n (walker_in s.old t.old)).walker }
{
    let stepped = walker_in(s, t).step(record, n);
    let answer = stepped.answer;
    let refused = is_refused(answer);
    if refused {
        return answer;
    }
    put_walker(s, t, stepped.walker);
    answer
}

// Tells the walker that the words hold a distance.
pub fn tell(s: &mut [u64; 18], t: &mut [u64; 32], distance: f32)
    ensures { walker_in s.new t.new ≡ told_walker distance (walker_in s.old t.old) }
{
    let told = walker_in(s, t).tell(distance);
    put_walker(s, t, told);
}
