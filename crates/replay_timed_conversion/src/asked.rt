// What a timed conversion is asked of, and the call.
use bvh2_to_cwbvh::Converted;
use bvh2_to_cwbvh_timed::bvh2_to_cwbvh_timed;
use causes::Refusal;

// A tree, how it is to be converted, and the spans of so many panes.
#[derive(Clone, Copy)]
pub struct Asked<'a> {
    pub words: &'a [u32],
    pub indices: &'a [u32],
    pub limit: u32,
    pub ordered: bool,
    pub panes: usize,
    pub spans: &'a [u8],
}

// The conversion with these slices, which are lent to it one by one.
pub fn convert(
    asked: Asked,
    decisions: &mut [u32],
    costs: &mut [f32],
    record: &mut [u8],
    list: &mut [u32],
    side: &mut [u8],
) -> Result<Converted, Refusal> {
    bvh2_to_cwbvh_timed(
        asked.words,
        asked.indices,
        asked.limit,
        asked.ordered,
        asked.panes,
        asked.spans,
        decisions,
        costs,
        record,
        list,
        side,
    )
}
