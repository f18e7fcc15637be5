//! Which workers wait.
//!
//! Layer: runs; private. Called by `steps`.
ghost use Rattle.std.specs.Prelude.{◌≡◌, ◌↔◌, IsTrue, None, slice_get};

use super::{Run, is_last};
use crate::name::RunName;
use outside_net::Link;
use update_coordinator::Side;

impl<L: RunName, E: Link> Run<L, E> {
    ghost use Rattle.std.specs.Prelude.{◌<◌, false, None, Some};
    ghost use Rattle.world_journal.specs.Journals.{switches};
    ghost use Rattle.world_journal.specs.Runs.{Stops, waits, marking};

    /// Whether the last message that this side of a switch put on its channel waits to be handed out.
    pub fn waits(&self, side: Side, s: usize) -> bool
        ensures { result ≡ waits self.now side s }
    {
        let marks = match side {
            Side::Controller => &self.to_waits,
            Side::Switch => &self.back_waits,
        };
        match marks.get(s) {
            None => false,
            Some(mark) => *mark && self.held.world().newest(s, side).is_some(),
        }
    }

    /// Notes whether it waits.
    pub fn mark(&mut self, side: Side, s: usize, waits: bool)
        requires { s < switches L.start }
        ensures { self.new ≡ marking self.old side s waits }
    {
        match side {
            Side::Controller => self.to_waits[s] = waits,
            Side::Switch => self.back_waits[s] = waits,
        }
    }

    /// Whether the workers of a switch are to stop. One that is there again late is quiet by itself while its HELLO
    /// waits, so both sides are asked.
    pub fn stops(&self, s: usize) -> bool
        ensures { IsTrue result ↔ Stops self.now s }
    {
        let world = self.held.world();
        self.closed
            || world.coordinator().halt().is_some()
            || (is_last(world)
                && world.is_quiet(s, Side::Controller)
                && world.is_quiet(s, Side::Switch))
    }
}

// The mark at a place, if there is one.
pub(super) fn mark_at(marks: &[bool], place: usize) -> Option<bool>
    ensures { result ≡ slice_get marks.now place }
{
    match marks.get(place) {
        Some(mark) => Some(*mark),
        None => None,
    }
}
