// The two records of a tree.

// The most leaves of a stored tree.
pub const MOST_LEAVES: usize = 64;

// Panes: what each takes, and the boxes of six floats each.
#[derive(Clone, Copy)]
pub struct Panes<'a> {
    pub losses: &'a [u32],
    pub boxes: &'a [f32],
}

// A record with the index words of its positions, and the panes that these name.
#[derive(Clone, Copy)]
pub struct Glazed<'a> {
    pub record: &'a [u8],
    pub list: &'a [u32],
    pub panes: Panes<'a>,
}

// The record of a tree's conversion with its children ordered, and of the one with them as gathered.
#[derive(Clone, Copy)]
pub struct Pair<'a> {
    pub ordered: Glazed<'a>,
    pub gathered: Glazed<'a>,
}

// What pane k takes: another loss than every other pane.
pub fn loss_of(k: u32) -> u32 {
    k.saturating_add(1000)
}
