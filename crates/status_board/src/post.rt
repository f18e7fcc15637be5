//! What stands on a board.
//!
//! Layer: runs; public. Called by many modules here, and by many crates. Clauses of watch_laws name it.

use update_coordinator::Phase;

/// Where a run stands after a number of events.
#[derive(Clone, Copy, Debug, PartialEq, Eq)]
pub struct Post {
    /// The number of events.
    pub count: u64,
    /// The phase of the updates after them.
    pub phase: Phase,
    /// Whether the updates had halted by then.
    pub halted: bool,
}

impl Post {
    ghost use Rattle.std.specs.Prelude.{◌≡◌};
    ghost use Rattle.status_board.specs.Posts.{opening};

    /// What stands on a board before anything was posted: no event, the opening, not halted.
    pub fn opening() -> Post
        ensures { result ≡ opening }
    {
        Post {
            count: 0,
            phase: Phase::Opening,
            halted: false,
        }
    }
}
