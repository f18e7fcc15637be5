//! A board on which one pen posts where a run stands, and which eyes read without a lock.
//!
//! Layer: runs. The root of the crate, which many crates call.
#![tactic(auto)]

mod board;
mod eye;
mod history;
mod note;
mod pen;
mod post;

pub use board::Board;
pub use eye::{Eye, Sighting};
pub use history::BoardName;
pub use note::Note;
pub use pen::Pen;
pub use post::Post;
