//! Events that did not happen.
//!
//! Layer: switches outside; public. Called by many modules.

use thiserror::Error;

/// Why an event did not happen. What was handed in comes back.
#[derive(Debug, Drop, Error)]
pub enum Rejection<X> {
    /// It cannot happen now.
    #[error("the event cannot happen now")]
    NotEnabled(X),
    /// Out of memory.
    #[error("out of memory")]
    Memory(X),
}
