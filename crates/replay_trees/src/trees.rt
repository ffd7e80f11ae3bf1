// What a tree of a stored case is accepted or refused for.
ghost use Rattle.std.specs.Prelude.{◌≡◌, ◌<◌, ◌≤◌, IfSome};
ghost use Rattle.bvh2.specs.Causes.{Accepted};
ghost use Rattle.bvh2.specs.Words.{tree_nodes};

use bvh2_check::{AcceptedBvh2, sizes, structure};
use stored::all_are;

// Room for the words of a stored tree, seven for each node.
pub const MOST_WORDS: usize = 2048;

// The nodes of n leaves. Counted here, so that what is replayed is not measured by its own counting.
pub fn node_count(n: usize) -> usize
    requires { n ≤ 512 }
    ensures { result ≡ tree_nodes n }
{
    if n == 0 { 0 } else { 2 * n - 1 }
}

// A tree with leaves of which none of causes 1, 2, 5, 6 and 7 holds, if the check for it leaves its marks zero.
pub fn accepted(words: &[u32], n: usize) -> Option<AcceptedBvh2<'_>>
    requires { n ≤ 512 }
    ensures leaves { IfSome result (λ a. 0 < a.tree.leaves) }
    ensures tree { IfSome result (λ a. (a.tree.words.now ≡ words.now) × (a.tree.leaves ≡ n)) }
    ensures accepted { IfSome result (λ _. Accepted words.now n) }
{
    let tree = sizes(words, n).ok()?;
    let mut marks = [0u32; MOST_WORDS];
    let accepted = structure(tree, &mut marks).ok()?;
    (tree.leaves > 0 && all_are(&marks, 0)).then_some(accepted)
}
