// Lengths of what a conversion is given and writes. Counted here, so that what is replayed is not measured by its own counting.
ghost use Rattle.std.specs.Prelude.{◌≤◌};

// The words of a tree of n leaves.
pub fn tree_size(n: usize) -> usize
    requires { n ≤ 128 }
    ensures { result ≤ 1785 }
{
    if n == 0 { 0 } else { (2 * n - 1) * 7 }
}

// The most nodes of a record of n leaves.
fn most_nodes(n: usize) -> usize
    requires { n ≤ 128 }
    ensures { result ≤ 127 }
{
    match n {
        0 => 0,
        1 => 1,
        _ => n - 1,
    }
}

// The record bytes that a tree of n leaves needs.
pub fn record_size(n: usize) -> usize
    requires { n ≤ 128 }
    ensures { result ≤ 10160 }
{
    80 * most_nodes(n)
}

// The bytes of a side table that it needs.
pub fn side_size(n: usize) -> usize
    requires { n ≤ 128 }
    ensures { result ≤ 2032 }
{
    16 * most_nodes(n)
}

// How much of the tables a refusal zeroes: nothing for causes 1 to 4, else all that is needed, which is as much as the tree has.
pub fn cleared(number: u32, size: usize) -> usize {
    if number < 5 { 0 } else { size }
}
