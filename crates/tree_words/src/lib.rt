// Internal: nodes of a binary tree written as words, seven each.
#![tactic(auto)]

ghost use Rattle.std.specs.Prelude.{◌≡◌, true, [], ◌∷◌, ◌++◌, ◌+◌, ◌*◌, ◌≤◌, length};
ghost use Rattle.lists.specs.Splice.{splice};
ghost use Rattle.lists.specs.Values.{values};
ghost use Rattle.aabb.specs.Aabb.{accepted_box};
ghost use Rattle.ray.specs.Ray.{bounded_vec};
ghost use Rattle.bvh2.specs.Words.{word_at};
ghost use Rattle.bvh2.specs.Words.{corner_words, boxed_words};

use aabb::Aabb;
use ray::Vec3;

// A corner from word `at` on.
fn put_corner(words: &mut [u32], at: usize, p: Vec3)
    requires { (at + 3 ≤ length words.old) × (bounded_vec p ≡ true) }
    ensures { words.new ≡ splice words.old at (corner_words p []) }
{
    words[at] = p.x.to_bits();
    words[at + 1] = p.y.to_bits();
    words[at + 2] = p.z.to_bits();
}

// Node v: an accepted box and the link word. The two are no struct, since a copied node has the box of another one.
pub fn put_node(words: &mut [u32], v: usize, b: Aabb, link: u32)
    requires { (v * 7 + 7 ≤ length words.old) × (accepted_box b ≡ true) }
    ensures { words.new ≡ splice words.old (v * 7) (boxed_words b link) }
{
    put_corner(words, v * 7, b.min);
    put_corner(words, v * 7 + 3, b.max);
    words[v * 7 + 6] = link;
}

// Node v: the box words of node u elsewhere, bit for bit, and the link word.
pub fn copy_node(from: &[u32], u: usize, words: &mut [u32], v: usize, link: u32)
    requires { (u * 7 + 7 ≤ length from.now) × (v * 7 + 7 ≤ length words.old) }
    ensures { words.new
        ≡ splice words.old (v * 7) (values (word_at from.now u) 6 ++ (link ∷ [])) }
{
    words[v * 7..v * 7 + 6].copy_from_slice(&from[u * 7..u * 7 + 6]);
    words[v * 7 + 6] = link;
}
