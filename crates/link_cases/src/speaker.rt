//! Whoever reports over a wire.
//!
//! Layer: tests; private. Called by `tcp`.
use crate::wire::Wire;
use outside_net::Job;

/// Says its bytes as soon as it is in, and then leaves or stays until the other side is gone.
#[derive(Drop)]
pub struct Speaker<W: Wire> {
    wire: W,
    bytes: Vec<u8>,
    leaves: bool,
}

impl<W: Wire> Speaker<W> {
    /// It did not speak yet.
    pub fn new(wire: W, bytes: Vec<u8>, leaves: bool) -> Speaker<W> {
        Speaker {
            wire,
            bytes,
            leaves,
        }
    }
}

impl<W: Wire + Send + 'static> Job for Speaker<W> {
    fn run(self) {
        let Speaker {
            mut wire,
            bytes,
            leaves,
        } = self;
        if wire.open() && wire.put(bytes.as_slice()) && !leaves {
            let _ = wire.get(&mut [0u8; 16]);
        }
    }
}
