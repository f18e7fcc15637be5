//! What a journal has.
//!
//! Layer: runs; public. Called by `cutting`, `held` and `run` here, and by fleet_workers and thread_commands.
use world_core::Event;

/// A step: the number of the worker that made it, and its event.
#[derive(Drop)]
pub struct Entry {
    pub worker: usize,
    pub event: Event,
}
