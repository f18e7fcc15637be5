//! What takes the switches from the rows of one policy to those of the next, batch by batch (SIGCOMM 2012,
//! section 5).
//!
//! Layer: updates. The root of the crate, which update_coordinator and update_tests call.
#![tactic(auto)]

mod batch;
mod cursor;
mod places;
mod planning;
mod reading;
mod switch_plan;

pub use batch::{Batch, Batches};
pub use cursor::{Cursor, RowIndex, Share, Span, SwitchSpan};
pub use places::internal;
pub use planning::{mod_of, plan, plan_at, plan_for, round_count};
pub use reading::{NextRow, read_next};
pub use switch_plan::{Plan, SwitchPlan};
