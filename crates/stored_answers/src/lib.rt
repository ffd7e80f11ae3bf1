// Internal: whether the answers of queries, reports and walkers are as stored words say. The programs make the calls, timed or not.
#![tactic(auto)]

mod calls;
mod losses;
mod queries;
mod walkers;

pub use calls::{TELL, all_called, same_answer};
pub use losses::{Totals, same_loss, same_report, same_report_alike};
pub use queries::{same_any_hit, same_closest, same_miss};
pub use walkers::{Made, came_to, made_up, no_walker, same_done, same_walker};
