// Internal: the side table of a record, which says of each slot in which quarter hours anything below it is drawn. The published code has none.
#![tactic(auto)]

ghost use Rattle.std.specs.Prelude.{◌≡◌, ◌+◌, ◌*◌, ◌<◌, ◌≤◌, length, IfNone, IfSome};
ghost use Rattle.lists.specs.At.{words_at};
ghost use Rattle.lists.specs.Splice.{splice};
ghost use Rattle.span.specs.Hull.{hull, joined};
ghost use Rattle.wide_layout.specs.Sizes.{slots_positions};
ghost use Rattle.wide_layout.specs.Shape.{layout_entry};
ghost use Rattle.side_table.specs.SideTable.{slot_span, node_spans, side_bytes};
ghost use Rattle.side_table.specs.Laid.{Laid, StandsAt, StandFrom};

use span::Span;

// How many bytes stand beside a node.
pub const BYTES: usize = 16;

// The span of a slot with no pane below it.
const NO_PANE: Span = Span { first: 0, last: 0 };

// A record of so many nodes with its index list, as conversion left them, and the spans of the panes.
#[derive(Clone, Copy)]
struct Converted<'a> {
    bytes: &'a [u8],
    list: &'a [u32],
    spans: &'a [u8],
    nodes: usize,
}

// The narrowest span that holds what was found, if anything was, and another.
fn widened(found: Option<Span>, span: Span) -> Span
    ensures none { IfNone found (result ≡ span) }
    ensures some { IfSome found (λ s. result ≡ joined s span) }
{
    match found {
        None => span,
        Some(s) => s.joined(span),
    }
}

impl Converted<'_> {
    // The narrowest span over all panes below node v, whose own spans stand in the table.
    fn span_under(self, side: &[u8], v: usize) -> Span
        requires { Laid self.bytes.now self.list.now self.spans.now self.nodes × (v < self.nodes) × (16 * self.nodes ≤ length side.now) }
        ensures { (h : Laid self.entry.bytes.now self.entry.list.now self.entry.spans.now self.entry.nodes)
            → StandsAt self.entry.spans.now h.indices side.now v (layout_entry h.tree v)
            → result ≡ hull self.entry.spans.now (words_at h.indices (slots_positions (layout_entry h.tree v).slots)) }
    {
        let node = node::node_ref(self.bytes, v);
        let mut found = None;
        for slot in 0..8 {
            let meta = node.child_meta(slot);
            if meta != 0 {
                found = Some(widened(found, span::span_at(side, 8 * v + slot)));
            }
        }
        found.unwrap_or(NO_PANE)
    }

    // The span of a slot of node v, where the spans of all nodes behind it stand in the table.
    fn slot_span(self, side: &[u8], v: usize, slot: usize) -> Span
        requires { Laid self.bytes.now self.list.now self.spans.now self.nodes × (v < self.nodes) × (16 * self.nodes ≤ length side.now)
            × (slot < 8) }
        ensures { (h : Laid self.entry.bytes.now self.entry.list.now self.entry.spans.now self.entry.nodes)
            → StandFrom self.entry.spans.now h.indices h.tree side.now (v + 1)
            → result ≡ slot_span self.entry.spans.now h.indices (layout_entry h.tree v).slots slot }
    {
        let node = node::node_ref(self.bytes, v);
        let meta = node.child_meta(slot);
        if meta == 0 {
            return NO_PANE;
        }
        let imask = node.imask();
        if node::is_leaf(imask, slot as u32) {
            let held = node::child_primitives(node.primitive_base_idx(), meta);
            let end = held.start + held.count as usize;
            return span::hull(self.spans, &self.list[held.start..end]);
        }
        let rank = words::rank(imask as u32, slot as u32);
        let child = node.child_base_idx() as usize + rank as usize;
        self.span_under(side, child)
    }

    // The bytes beside node v, where those of all nodes behind it stand in the table.
    fn node_spans(self, side: &[u8], v: usize) -> [u8; BYTES]
        requires { Laid self.bytes.now self.list.now self.spans.now self.nodes × (v < self.nodes) × (16 * self.nodes ≤ length side.now) }
        ensures { (h : Laid self.entry.bytes.now self.entry.list.now self.entry.spans.now self.entry.nodes)
            → StandFrom self.entry.spans.now h.indices h.tree side.now (v + 1)
            → result ≡ node_spans self.entry.spans.now h.indices (layout_entry h.tree v) }
    {
        let mut bytes = [0u8; BYTES];
        for slot in 0..8 {
            let s = self.slot_span(side, v, slot);
            bytes[span::BYTES * slot] = s.first;
            bytes[span::BYTES * slot + 1] = s.last;
        }
        bytes
    }
}

// Writes the side table of a record of so many nodes in front of `side`, from the last node to the first: a node's children stand behind it, and what
// is below an inner child is found in the spans beside the child's own node.
pub fn write_side(record: &[u8], nodes: usize, list: &[u32], spans: &[u8], side: &mut [u8])
    requires { Laid «record».now list.now spans.now nodes × (16 * nodes ≤ length side.old) }
    ensures { (h : Laid «record».now list.now spans.now nodes) → side.new ≡ splice side.old 0 (side_bytes spans.now h.indices h.tree) }
{
    let converted = Converted {
        bytes: record,
        list,
        spans,
        nodes,
    };
    for v in (0..nodes).rev() {
        let bytes = converted.node_spans(side, v);
        let at = BYTES * v;
        side[at..at + BYTES].copy_from_slice(&bytes);
    }
}
