//! The beginning of an update.
//!
//! Layer: updates; private. Adds calls to `Coordinator`.
ghost use Rattle.std.specs.Prelude.{IsTrue, ◌↔◌, ◌≡◌, None, OnOk, OnErr};

use super::Coordinator;
use crate::phase::Phase;
use crate::refusal::Refusal;

impl Coordinator {
    ghost use Rattle.update_coordinator.specs.Calls.{begun, begin_refusal, refusal_of};

    /// Whether the next update can begin.
    pub fn may_begin(&self) -> bool
        ensures { IsTrue result ↔ (begin_refusal self.now ≡ None) }
    {
        if self.halt.is_some() {
            return false;
        }
        match self.phase {
            Phase::Idle(policy) => policy < self.versions.len() && self.has_stamp(policy),
            _ => false,
        }
    }

    /// Begins the next update.
    pub fn begin(&mut self) -> Result<(), Refusal>
        ensures refused { refusal_of result ≡ begin_refusal self.old }
        ensures ok { OnOk result (self.new ≡ begun self.old) }
        ensures err { OnErr result (self.new ≡ self.old) }
    {
        if self.halt.is_some() {
            return Err(Refusal::Halted);
        }
        let Phase::Idle(policy) = self.phase else {
            return Err(Refusal::NotIdle);
        };
        if policy >= self.versions.len() {
            return Err(Refusal::NothingLeft);
        }
        if !self.has_stamp(policy) {
            return Err(Refusal::NoStamp);
        }
        self.enter(Phase::Install(policy + 1));
        Ok(())
    }
}
