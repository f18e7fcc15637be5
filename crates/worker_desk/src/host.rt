//! What the workers of a run stand on.
//!
//! Layer: runs; public. Called by many crates.

use std::sync::Arc;

/// What workers stand on: the runtime, the net that makes their links, what starts their threads, and the gate that
/// they pass.
#[derive(Drop)]
pub struct Host<R, N, T, G> {
    pub rt: R,
    pub net: N,
    pub threads: T,
    pub gate: Arc<G>,
}
