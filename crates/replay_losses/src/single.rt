// The loss of one ray by itself.
use crate::lent::Priced;
use stored::beam;

// Whether the single call answers as stored for a ray's eight floats.
pub fn same_loss(ray: &[u8], answer: &[u8], priced: Priced) -> bool {
    let found = loss::loss(
        priced.record,
        priced.list,
        priced.panes,
        priced.losses,
        beam(ray, 0),
    );
    stored_answers::same_loss(answer, found)
}
