//! Packets that are to come in.
//!
//! Layer: runs; public. Called by `making`, `run` and `steps` here, and by fleet_workers and thread_commands.
use nk_values::{Packet, Tag};

/// A packet that comes in once in a run, with its tag.
#[derive(Clone, Copy, Debug, PartialEq, Eq)]
pub struct Line {
    pub packet: Packet,
    pub tag: Tag,
}
