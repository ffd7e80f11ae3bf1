// Internal: the core of every walk (cwbvh/traverse_macro.rs): what is due, the test of a node, what follows it, and on until positions are in hand.
#![tactic(auto)]

ghost use Rattle.std.specs.Prelude.{◌≡◌, false, ◌≤◌, ◌<◌, length, IfSome};
ghost use Rattle.causes.proofs.Sizes.{Fit};
ghost use Rattle.faststack.specs.Stack.{capacity};
ghost use Rattle.record_shape.specs.Record.{node_count};
ghost use Rattle.walk.specs.Words.{packed, unpacked, first_position, first_child, rest_of};
ghost use Rattle.walk.specs.WordStep.{visit_words, advance_words, seek_words};
ghost use Rattle.walk_record.specs.WalkRay.{rays_of};
ghost use Rattle.walk_record.specs.Record.{node_words_at};
ghost use Rattle.advance.specs.Turn.{group_of, walker_of, begun, turned, seeking, due_in, due_group, lacks_room, waits, stacked, is_past};
ghost use Rattle.advance.specs.Turn.{followed, goes_on};

use causes::Refusal;
use gate::Gate;
use node_slot::Aim;
use node_test::Tested;

// Bits 31 to 24 of a group are its children.
pub const CHILDREN: u32 = 0x100_0000;

// More tests than any walk makes, so that a search for positions goes on until it finds some or the walk ends.
const ALL_TESTS: u32 = 0xffff_ffff;

// Bits counted from a base: positions, or children in bits 31 to 24 by slot XOR octant over an imask.
#[derive(Clone, Copy, Debug, PartialEq, Eq)]
pub struct Group {
    pub base: u32,
    pub bits: u32,
}

impl From<Group> for u64 {
    ghost from_gives = { λ g word. word ≡ packed (group_of g) };

    // The word of a group that waits.
    fn from(g: Group) -> u64 {
        u64::from(g.bits) * words::UPPER + u64::from(g.base)
    }
}

impl From<u64> for Group {
    ghost from_gives = { λ word g. group_of g ≡ unpacked word };

    // The group of a word.
    fn from(word: u64) -> Group {
        Group {
            base: (word % words::UPPER) as u32,
            bits: (word / words::UPPER) as u32,
        }
    }
}

// What a walk holds beside its ray and its stack: the tests made, the positions and the group in hand, and how many groups wait.
#[derive(Clone, Copy, Debug, PartialEq, Eq)]
pub struct Walk {
    pub tests: u32,
    pub positions: Group,
    pub current: Group,
    pub depth: u32,
}

// A record of whole nodes, neither too many of them nor too many positions.
#[derive(Clone, Copy)]
pub struct CwBvh<'a> {
    pub bytes: &'a [u8],
    pub positions: usize,
    pub ghost fit: { Fit (length bytes.now) positions },
}

// The groups that wait: of 32 words, those below the depth. It is lent beside the record, since it changes and the record does not; the depth goes in
// a register, among the walk's numbers.
pub type Stack = [u64; 32];

// What a step did: it tested a node, reported a position, found nothing left, or was refused. These are the requirements' four answers, each with the
// walk beside it: a refused step gives its walker back, so that this is no Result.
#[derive(Clone, Copy, Debug, PartialEq, Eq)]
pub enum Answer {
    Tested(u32),
    Position(u32),
    Done,
    Refused(Refusal),
}

// The answer, and the walk then.
#[derive(Clone, Copy)]
pub struct Turn {
    pub answer: Answer,
    pub walk: Walk,
}

// The group whose first child is due, and how many groups wait below it.
#[derive(Clone, Copy)]
pub struct Due {
    pub group: Group,
    pub depth: u32,
}

// Only the first node is in hand.
pub fn begin() -> Walk
    ensures { result ≡ begun }
{
    Walk {
        tests: 0,
        positions: Group { base: 0, bits: 0 },
        current: Group {
            base: 0,
            bits: 0x8000_0000,
        },
        depth: 0,
    }
}

// The position of the highest bit of a group.
#[tactic(auto, using(crate::proofs::Groups::highest_found))]
pub fn first_position(g: Group) -> usize
    requires { 0 < g.bits }
    ensures { result ≡ first_position (group_of g) }
{
    let top = words::highest(g.bits);
    g.base as usize + top as usize
}

// The group without its highest bit.
#[tactic(auto, using(crate::proofs::Groups::highest_found))]
pub fn rest_of(g: Group) -> Group
    requires { 0 < g.bits }
    ensures { group_of result ≡ rest_of (group_of g) }
{
    let top = words::highest(g.bits);
    Group {
        base: g.base,
        bits: words::clear_highest(g.bits, top),
    }
}

// The child of the highest bit of a group, for a ray of this octant.
#[tactic(auto, using(crate::proofs::Groups::child_is))]
pub fn first_child(g: Group, octant: u32) -> usize
    requires { (0x100_0000 ≤ g.bits) × (octant < 8) }
    ensures { result ≡ first_child octant (group_of g) }
{
    let top = words::highest(g.bits);
    node_slot::hit_child(g.base, g.bits, top, octant)
}

// The group in hand is due, or else the last that waits and holds a child.
#[tactic(auto, using(crate::proofs::Dues::due_hand, crate::proofs::Dues::due_none))]
pub fn due_group(current: Group, depth: u32, stack: &[u64]) -> Option<Due>
    requires { capacity ≤ length stack.now }
    ensures value { due_in result ≡ due_group (group_of current) stack.now depth }
    ensures child { IfSome result (λ g. 0x100_0000 ≤ g.group.bits) }
{
    let untested = current.bits >= CHILDREN;
    if untested {
        return Some(Due {
            group: current,
            depth,
        });
    }
    for below in (0..depth).rev() {
        let group = Group::from(faststack::top(stack, below as usize + 1));
        if group.bits >= CHILDREN {
            return Some(Due {
                group,
                depth: below,
            });
        }
    }
    None
}

// Whether what is left of a group would be the 33rd to wait.
fn lacks_room(depth: u32, bits: u32) -> bool
    ensures { result ≡ lacks_room depth bits }
{
    bits >= CHILDREN && depth >= 32
}

// Whether node `child` of m does not exist, or all tests were made.
#[tactic(auto, unfolding(crate::specs::Turn::is_past))]
fn is_past(child: usize, tests: u32, m: usize) -> bool
    ensures { result ≡ is_past child tests m }
{
    child >= m || tests as usize >= m
}

// Lets what is left of a group wait above `depth` others, if it holds a child; how many wait then.
fn wait(stack: &mut [u64], depth: u32, rest: Group) -> u32
    requires room { lacks_room depth rest.bits ≡ false }
    requires stack { capacity ≤ length stack.old }
    ensures value { result ≡ waits depth rest.bits }
    ensures stack_after { stack.new ≡ stacked stack.old depth (group_of rest) }
{
    if rest.bits < CHILDREN {
        return depth;
    }
    faststack::push(stack, depth as usize, u64::from(rest));
    depth + 1
}

// What follows the test of a node: its passed positions and children are in hand, and so many groups wait.
#[tactic(auto, unfolding(crate::specs::Turn::followed))]
fn follow(tests: u32, t: Tested, depth: u32) -> Walk
    requires { tests < 65536 }
    ensures { result ≡ followed tests t depth }
{
    Walk {
        tests: tests + 1,
        positions: Group {
            base: t.primitive_base_idx,
            bits: t.mask % CHILDREN,
        },
        current: Group {
            base: t.child_base_idx,
            bits: t.mask / CHILDREN * CHILDREN + t.imask as u32,
        },
        depth,
    }
}

// Tests the first child of a group; what is left of the group waits above those below it. Aim, gate, stack and record go by themselves here and
// below: closest lowers an aim's reach, a walk changes the stack, and gate and record stay.
fn visit<G: Gate>(walk: Walk, g: Due, aim: &Aim, gate: G, stack: &mut [u64], bvh: CwBvh) -> Turn
    requires child { 0x100_0000 ≤ g.group.bits }
    requires stack { capacity ≤ length stack.old }
    ensures { let bytes = bvh.entry.bytes.now in turned aim.now.ray aim.now.octant result stack.new
        ≡ visit_words (node_count bytes) (node_words_at bytes (rays_of (G.gates gate))) bvh.entry.positions
        (walker_of aim.now.ray aim.now.octant walk stack.old) (group_of g.group) g.depth }
{
    let group = g.group;
    let rest = rest_of(group);
    let child = first_child(group, aim.octant);
    let m = bvh.bytes.len() / node::BYTES;
    if lacks_room(g.depth, rest.bits) {
        return Turn {
            answer: Answer::Refused(Refusal::Fault),
            walk,
        };
    }
    if is_past(child, walk.tests, m) {
        return Turn {
            answer: Answer::Refused(Refusal::Fault),
            walk,
        };
    }
    let Some(t) = node_test::test_node(bvh.bytes, child, m, bvh.positions, aim, gate) else {
        return Turn {
            answer: Answer::Refused(Refusal::Fault),
            walk,
        };
    };
    let depth = wait(stack, g.depth, rest);
    Turn {
        answer: Answer::Tested(child as u32),
        walk: follow(walk.tests, t, depth),
    }
}

// One turn without positions in hand: the node that is due is tested, or nothing is left.
fn test_due<G: Gate>(walk: Walk, aim: &Aim, gate: G, stack: &mut [u64], bvh: CwBvh) -> Turn
    requires none { walk.positions.bits ≡ 0 }
    requires stack { capacity ≤ length stack.old }
    ensures { let bytes = bvh.entry.bytes.now in turned aim.now.ray aim.now.octant result stack.new
        ≡ advance_words (node_count bytes) (node_words_at bytes (rays_of (G.gates gate))) bvh.entry.positions
        (walker_of aim.now.ray aim.now.octant walk stack.old) }
{
    let Some(g) = due_group(walk.current, walk.depth, stack) else {
        return Turn {
            answer: Answer::Done,
            walk,
        };
    };
    visit(walk, g, aim, gate, stack, bvh)
}

// Whether a search for positions goes on after a turn: it tested a node, none of whose positions is passed, and tests are left.
#[tactic(auto, unfolding(crate::specs::Turn::goes_on, crate::specs::Turn::step_answer))]
fn goes_on(turn: Turn, left: u32) -> bool
    ensures { result ≡ goes_on turn left }
{
    matches!(turn.answer, Answer::Tested(_)) && turn.walk.positions.bits == 0 && left > 0
}

// On from a walk without positions in hand until some are, nothing is left, or a test is refused: one test, and up to `most` more. It takes the
// walk's numbers one by one, which go in registers: a struct would go through memory, and what is stored in parts and read whole waits for the
// stores.
pub fn seek<G: Gate>(
    tests: u32,
    held: u32,
    current: u32,
    bits: u32,
    depth: u32,
    most: u32,
    aim: &Aim,
    gate: G,
    stack: &mut [u64],
    bvh: CwBvh,
) -> Turn
    requires { capacity ≤ length stack.old }
    ensures { let bytes = bvh.entry.bytes.now in turned aim.now.ray aim.now.octant result stack.new
        ≡ seek_words (node_count bytes) (node_words_at bytes (rays_of (G.gates gate))) most bvh.entry.positions
        (walker_of aim.now.ray aim.now.octant (seeking tests held current bits depth) stack.old) }
{
    let mut walk = Walk {
        tests,
        positions: Group {
            base: held,
            bits: 0,
        },
        current: Group {
            base: current,
            bits,
        },
        depth,
    };
    // not a `for` over `left`: the loop gives what its last turn gave
    let mut left = most;
    loop {
        let turn = test_due(walk, aim, gate, stack, bvh);
        if !goes_on(turn, left) {
            return turn;
        }
        walk = turn.walk;
        left -= 1;
    }
}

// The same from a walk, until positions are in hand or the walk ends. Compiled into each query, so that the walk's numbers go in registers.
#[inline(always)]
pub fn seek_on<G: Gate>(walk: Walk, aim: &Aim, gate: G, stack: &mut Stack, bvh: CwBvh) -> Turn
    ensures { let bytes = bvh.entry.bytes.now in turned aim.now.ray aim.now.octant result stack.new
        ≡ seek_words (node_count bytes) (node_words_at bytes (rays_of (G.gates gate))) 0xffff_ffff bvh.entry.positions
        (walker_of aim.now.ray aim.now.octant (seeking walk.tests walk.positions.base walk.current.base walk.current.bits walk.depth) stack.old) }
{
    let current = walk.current;
    seek(
        walk.tests,
        walk.positions.base,
        current.base,
        current.bits,
        walk.depth,
        ALL_TESTS,
        aim,
        gate,
        stack,
        bvh,
    )
}

// The walk after a turn. It is read number by number, as it was stored, for speed: `turn.walk` read whole would wait for the stores.
pub fn walk_after(turn: Turn) -> Walk
    ensures { result ≡ turn.walk }
{
    Walk {
        tests: turn.walk.tests,
        positions: Group {
            base: turn.walk.positions.base,
            bits: turn.walk.positions.bits,
        },
        current: Group {
            base: turn.walk.current.base,
            bits: turn.walk.current.bits,
        },
        depth: turn.walk.depth,
    }
}
