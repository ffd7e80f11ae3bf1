// Internal: a stack with room for 32 groups (faststack.rs). A group is a word, the stack a lent part of an array with its depth beside it.
#![tactic(auto)]

ghost use Rattle.std.specs.Prelude.{◌≡◌, ◌≤◌, length};
ghost use Rattle.faststack.specs.Stack.{capacity, has_room, pushed, top_of};

// The most groups of a stack.
const CAPACITY: usize = 32;

// Stores a group on a stack of the given depth, and says whether it had room: a 33rd group is not stored. The C interface lends the array.
// It says so by a bool, which the definition has too: a walk asks for room before it stores, and refuses by itself.
#[tactic(auto, unfolding(crate::specs::Stack::pushed))]
pub fn push(stack: &mut [u64], depth: usize, group: u64) -> bool
    requires { capacity ≤ length stack.old }
    ensures { (result ≡ has_room depth) × (stack.new ≡ pushed stack.old depth group) }
{
    let room = depth < CAPACITY;
    if room {
        stack[depth] = group;
    }
    room
}

// The group last pushed on a stack of the given depth; 0, a group that holds nothing, where it is empty, so that a walk makes no case of it.
#[tactic(auto, unfolding(crate::specs::Stack::top_of))]
pub fn top(stack: &[u64], depth: usize) -> u64
    requires { capacity ≤ length stack.now }
    ensures { result ≡ top_of stack.now depth }
{
    let held = 0 < depth && depth <= CAPACITY;
    if held { stack[depth - 1] } else { 0 }
}
