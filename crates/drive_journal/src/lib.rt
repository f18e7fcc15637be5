//! The controller beside the journal of what it did and heard, and the one lock over which the workers of outside
//! switches share both (SIGCOMM 2012, section 5).
//!
//! Layer: switches outside. The root of the crate, which drive_command, drive_text and drive_workers call.
#![tactic(auto)]

mod calls;
mod desk_calls;
mod drive;
mod drive_desk;
mod element;
mod ends;
mod intake;
mod laws;
mod moment;
mod name;
mod parts;
mod refused;
mod seat;
mod steered;
mod steering;
mod updates;

pub use drive::Drive;
pub use drive_desk::DriveDesk;
pub use element::Element;
pub use laws::{a_lost_session_is_last, greetings_are_noted, starts_halt_at_loss};
pub use name::DriveName;
pub use refused::Rejection;
pub use seat::DriveSeat;
pub use steered::DriveState;
pub use steering::Steering;
pub use updates::CallerTask;
