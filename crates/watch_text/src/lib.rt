//! The text of what was seen of a run: a line a post.
//!
//! Layer: the program. The root of the crate, which thread_commands calls.
#![tactic(auto)]

mod reads;

pub use reads::watch_text;
