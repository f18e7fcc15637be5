//! The packets of a history before its newest one. Histories that go on from one packet share them.
//!
//! Layer: values and policies; private. Called by `history`. Clauses of update_coordinator name it.
ghost use Rattle.std.specs.Prelude.{◌≡◌};

use crate::packet::Packet;
use std::sync::Arc;

/// A packet of a history, and those before it.
#[derive(Debug)]
pub struct Past {
    pub packet: Packet,
    pub older: Option<Arc<Past>>,
}

impl Past {
    ghost use Rattle.nk_values.specs.declared.past.Past.{out-Past};

    /// The packets before this one.
    pub fn into_older(self) -> Option<Arc<Past>>
        ensures { result ≡ (out-Past self).older }
    {
        let Past { packet: _, older } = self;
        older
    }
}

impl Drop for Past {
    // A loop, since a past may be long: it ends at the first packet that another history shares.
    fn drop(mut self) {
        loop {
            let Past { packet: _, older } = self;
            let Some(shared) = older else {
                return;
            };
            match Arc::into_inner(shared) {
                Some(past) => self = past,
                None => return,
            }
        }
    }
}
