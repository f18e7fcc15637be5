//! The workers of outside switches, and a drive of all of them (SIGCOMM 2012, section 5).
//!
//! Layer: switches outside. The root of the crate, which drive_command calls.
#![tactic(auto)]

mod caller;
mod closed;
mod crew;
mod ends;
mod fault;
mod kept;
mod lookout;
mod over;
mod worker;

pub use board_readers::Onlooker;
pub use caller::steer;
pub use closed::run_drive;
pub use crew::drive_fleet;
pub use ends::{meet_ends, port_at};
pub use fault::{DriveError, DriveFault};
pub use kept::take_back;
pub use lookout::OpenBoard;
pub use over::drive_over;
pub use worker::DriveWorker;
pub use worker_desk::{Gate, Host};
