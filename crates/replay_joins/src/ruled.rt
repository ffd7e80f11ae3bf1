// The stored cases of joins by lengths: trees made by a rule, of as many leaves as are joined and more, and digests of what is written.
ghost use Rattle.std.specs.Prelude.{◌≤◌};

use crate::calls::{HEAD, SPARE, answers, in_two_turns};
use crate::made::{put_indices, put_tree};
use stored::{WORD, digested_words, word};

// Where the second tree's root stands in a case, and the digests.
const SECOND_ROOT: usize = 20;

const DIGESTS: usize = 27;

// Room for the words of two trees of 65,540 leaves together, or of one that joins so many; for the words of one of 32,769; and for the index words of
// any.
const LARGE: usize = 917568;

const HALF: usize = 458784;

const LEAVES: usize = 65552;

// Room for the marks of a tree of 32,769 leaves.
const MARKS: usize = 98320;

// Few words to lend, where two trees take the room for a joined one.
const FEW: usize = 64;

// Whether the words and the index words, those past the lent ones too, are as a case says.
fn same_outputs(case: &[u8], words: &[u32], indices: &[u32]) -> bool {
    let count = word(case, 11) as usize;
    let leaves = word(case, 12) as usize;
    digested_words(words, count, word(case, DIGESTS))
        && digested_words(indices, leaves, word(case, DIGESTS + 1))
}

// Whether a join ends as stored in two turns, where the first tree's words stand at the front of these and the second's from word `from` on, and the
// index words of both in a list.
fn of_parts(
    case: &[u8],
    trees: &[u32],
    from: usize,
    list: &[u32],
    marks: &mut [u32],
    words: &mut [u32],
    indices: &mut [u32],
) -> bool
    requires { from ≤ 4294967295 }
{
    let first_end = word(case, 0) as usize;
    let n = word(case, 1) as usize;
    let second_end = from + word(case, 2) as usize;
    let m = word(case, 3) as usize;
    if first_end > trees.len() || second_end > trees.len() {
        return false;
    }
    if n > list.len() || m > list.len() {
        return false;
    }
    let first = &trees[..first_end];
    let first_indices = &list[..n];
    let second = &trees[from..second_end];
    let second_indices = &list[..m];
    in_two_turns(case, |spare| {
        answers(
            case,
            spare,
            first,
            first_indices,
            second,
            second_indices,
            marks,
            words,
            indices,
        ) && same_outputs(case, words, indices)
    })
}

// A case with few words lent: the second tree stands behind the first.
fn apart(
    case: &[u8],
    trees: &mut [u32],
    list: &[u32],
    marks: &mut [u32],
    words: &mut [u32],
    indices: &mut [u32],
) -> bool {
    let from = word(case, 0) as usize;
    let end = from + word(case, 2) as usize;
    if end > trees.len() {
        return false;
    }
    put_tree(case, HEAD, word(case, 1) as usize, &mut trees[..from]);
    put_tree(
        case,
        SECOND_ROOT,
        word(case, 3) as usize,
        &mut trees[from..end],
    );
    of_parts(case, trees, from, list, marks, words, indices)
}

// A case of a tree with itself.
fn with_itself(
    case: &[u8],
    tree: &mut [u32],
    list: &[u32],
    marks: &mut [u32],
    words: &mut [u32],
    indices: &mut [u32],
) -> bool {
    let size = word(case, 0) as usize;
    if size > tree.len() {
        return false;
    }
    put_tree(case, HEAD, word(case, 1) as usize, &mut tree[..size]);
    of_parts(case, tree, 0, list, marks, words, indices)
}

// Whether a case has a tree to join with itself: the lengths of both are the same.
fn is_twice(case: &[u8]) -> bool {
    word(case, 0) == word(case, 2) && word(case, 1) == word(case, 3)
}

// A case with few words lent.
fn with_few(case: &[u8], trees: &mut [u32], list: &[u32]) -> bool {
    let mut marks = [WORD; FEW];
    let mut words = [WORD; FEW];
    let mut indices = [WORD; FEW];
    apart(case, trees, list, &mut marks, &mut words, &mut indices)
}

// What a call starts with; the roots of the first tree and of the second; digests of the words and of the index words written. Where more than few
// words are lent, both trees are one, and two trees stand where a joined one would: the stack has no room for more.
pub fn sized(case: &[u8]) -> bool {
    // Written out, and not by filled_with: a second copy of so many words would leave the stack no room.
    let mut list = [0u32; LEAVES];
    let mut large = [WORD; LARGE];
    let mut half = [WORD; HALF];
    let mut marks = [WORD; MARKS];
    let mut indices = [WORD; LEAVES];
    put_indices(&mut list);
    if word(case, 5) as usize + SPARE as usize <= FEW {
        return with_few(case, &mut large, &list);
    }
    if is_twice(case) {
        return with_itself(case, &mut half, &list, &mut marks, &mut large, &mut indices);
    }
    false
}
