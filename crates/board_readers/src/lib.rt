//! Workers that read a board while a run goes on: one keeps what it saw, and one tells an onlooker.
//!
//! Layer: runs. The root of the crate, which drive_workers and fleet_workers call.
#![tactic(auto)]

mod ending;
mod progress;
mod sight_desk;
mod sights;
mod watcher;

pub use ending::Ending;
pub use progress::{Onlooker, Progress};
pub use sight_desk::SightDesk;
pub use sights::{Sights, newest_alone};
pub use status_board::{Board, BoardName, Eye, Pen, Sighting};
pub use watcher::Watcher;
