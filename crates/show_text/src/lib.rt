// Internal: the work of the program `showrecord`, from the bytes that it reads to the bytes that it prints.
#![tactic(auto)]

ghost use Rattle.std.specs.Prelude.{◌≡◌, ◌≤◌, length};
ghost use Rattle.lists.specs.Splice.{splice};
ghost use Rattle.show_text.specs.ShowText.{most_leaves, tree_size, tree_text, show_text};
ghost use Rattle.show_text.specs.Room.{TextRoom};

use causes::Refusal;

// How many words the tree of n leaves has: counted here, since the input is read by it before there are words of a tree.
fn tree_size(n: usize) -> usize
    requires { n ≤ most_leaves }
    ensures { result ≡ tree_size n }
{
    if n == 0 { 0 } else { (2 * n - 1) * 7 }
}

// Converts a tree and writes its record and index list, or the number of the cause of refusal. The slices and `ordered` are the conversion's own
// arguments, as the requirements give them, and go on to it one by one.
fn tree_text(
    words: &[u32],
    indices: &[u32],
    limit: u32,
    ordered: bool,
    decisions: &mut [u32],
    costs: &mut [f32],
    record: &mut [u8],
    list: &mut [u32],
    out: &mut [u8],
) -> usize
    requires indices_len_bound { length indices.now ≤ most_leaves }
    requires text_room { TextRoom (length decisions.old) (length costs.old) (length «record».old) (length list.old) (length out.old) }
    ensures value { result ≡ length (tree_text words.now indices.now limit ordered) }
    ensures out_after { out.new ≡ splice out.old 0 (tree_text words.now indices.now limit ordered) }
{
    let n = indices.len();
    let conversion = bvh2_to_cwbvh::bvh2_to_cwbvh(
        words, indices, limit, ordered, decisions, costs, record, list,
    );
    match conversion {
        Ok(converted) => show::print_record(record, converted.nodes as usize, list, n, out),
        Err(refusal) => show::print_refusal(refusal, out),
    }
}

// Reads n, leaf limit, order, a tree and its index words, and writes the tree's record and index list, or the number of the cause of refusal; the
// working slices are enough for any tree that is read.
pub fn show_text(
    input: &[u8],
    words: &mut [u32],
    indices: &mut [u32],
    decisions: &mut [u32],
    costs: &mut [f32],
    record: &mut [u8],
    list: &mut [u32],
    out: &mut [u8],
) -> usize
    requires most_leaves_in_bounds { (tree_size most_leaves ≤ length words.old) × (most_leaves ≤ length indices.old) }
    requires text_room { TextRoom (length decisions.old) (length costs.old) (length «record».old) (length list.old) (length out.old) }
    ensures value { result ≡ length (show_text input.now) }
    ensures out_after { out.new ≡ splice out.old 0 (show_text input.now) }
{
    if input.len() < 4 {
        return show::print_refusal(Refusal::LengthUnfit, out);
    }
    let n = words::load_u32(input, 0) as usize;
    if n > 256 {
        return show::print_refusal(Refusal::TooMany, out);
    }
    let k = tree_size(n);
    if input.len() != 12 + 4 * (k + n) {
        return show::print_refusal(Refusal::LengthUnfit, out);
    }
    let limit = words::load_u32(input, 4);
    let order = words::load_u32(input, 8);
    if order > 1 {
        return show::print_refusal(Refusal::LimitOver, out);
    }
    show::read_words(input, 12, k, words);
    show::read_words(input, 12 + 4 * k, n, indices);
    let ws = &words[..k];
    let is = &indices[..n];
    let ordered = order == 1;
    tree_text(ws, is, limit, ordered, decisions, costs, record, list, out)
}
