//! What becomes of the bytes that an end in memory sends.
//!
//! Layer: runs; private. Called by `link`.
ghost use Rattle.std.specs.Prelude.{◌≡◌, ◌≢◌, ◌↔◌};

use super::MemoryEnd;
use crate::trouble::Effect;
use std::sync::Wait;

// What became of bytes that were to be put into a pipe.
#[derive(Drop)]
pub(super) enum Delivery {
    // They are in.
    Done,
    // The pipe is closed.
    Closed,
    // The pipe had no room.
    Full,
    // They are not to be put in.
    Spoiled,
}

impl<R: Wait + Drop> MemoryEnd<R> {
    ghost use Rattle.std.specs.Prelude.{false};
    ghost use Rattle.outside_net.specs.Troubles.{Spoils};
    ghost use Rattle.outside_net.specs.Memory.{end_effect, end_failed, end_faults, end_full, IsSameEnd};

    // Counts a send, and learns what is to become of it.
    pub(super) fn begin_send(&mut self)
        ensures same { IsSameEnd self.old self.new }
        ensures failed { (end_failed self.new ≡ end_failed self.old) × (end_faults self.new ≡ end_faults self.old) }
        ensures full { end_full self.new ≡ false }
    {
        self.sends = self.sends.saturating_add(1);
        self.full = false;
        self.effect = self.calls.effect(&self.rt, self.name, self.end, self.sends);
    }

    // Delivers the bytes of a send, or what is to come in their place.
    pub(super) fn deliver(&self, bytes: &[u8]) -> Delivery
        ensures { result ≡ Delivery.Spoiled ↔ Spoils (end_effect self.now) }
    {
        match &self.effect {
            None => self.put(bytes),
            Some(Effect::Fails) => Delivery::Spoiled,
            Some(Effect::Repeats) => match self.put(bytes) {
                Delivery::Done => self.put(bytes),
                other => other,
            },
            Some(Effect::Replaces(others)) => self.put(others),
            Some(Effect::Cuts(others)) => {
                let _ = self.put(others);
                Delivery::Spoiled
            }
        }
    }

    // Puts bytes into the pipe, all or none.
    fn put(&self, bytes: &[u8]) -> Delivery
        ensures { result ≢ Delivery.Spoiled }
    {
        match self.out.put(&self.rt, bytes) {
            Ok(true) => Delivery::Done,
            Ok(false) => Delivery::Closed,
            Err(_) => Delivery::Full,
        }
    }
}
