//! The steps of one switch and of its session.
//!
//! Layer: the world; private. Adds calls to `WiredSwitch`.
ghost use Rattle.std.specs.Prelude.{◌≡◌, ◌<◌, ◌≢◌, None, [], length, OnOk, OnErr};

use super::WiredSwitch;
use openflow_wire::Message;
use std::alloc::{AllocError, Global};
use switch_model::ApplyError;
use update_coordinator::{Coordinator, Move};

impl WiredSwitch {
    ghost use Rattle.update_coordinator.specs.Sending.{MaySend};
    ghost use Rattle.world_core.specs.Ends.{channel, IsTaken, IsAppliedAt, IsSentTo, IsAnswering, IsHeardFrom};
    ghost use Rattle.world_core.specs.Ends.{HasSession, MayRejoin, IsBackAt, left};

    /// The coordinator's next message goes into the channel.
    pub(crate) fn send(
        &mut self,
        coordinator: &mut Coordinator,
        place: usize,
    ) -> Result<(), AllocError>
        requires here { place < length coordinator.old.peers }
        requires some { MaySend place coordinator.old }
        ensures ok { OnOk result (IsSentTo place coordinator.old coordinator.new self.old self.new) }
        ensures err { OnErr result ((coordinator.new ≡ coordinator.old) × (self.new ≡ self.old)) }
    {
        self.there.reserve(1)?;
        if let Some(message) = coordinator.next_out(place)? {
            self.there.push_back_reserved(message);
        }
        Ok(())
    }

    /// The switch takes the front of the channel.
    pub(crate) fn take(&mut self, alloc: Global) -> Result<(), AllocError>
        requires front { self.old.there ≢ [] }
        requires open { self.old.switch.awaited ≡ None }
        ensures ok { OnOk result (IsTaken self.old self.new) }
        ensures err { OnErr result (self.new ≡ self.old) }
    {
        self.back.reserve(1)?;
        let Some(message) = self.there.pop_front() else {
            unreachable!()
        };
        match self.switch.take(alloc, message) {
            Ok(None) => Ok(()),
            Ok(Some(answer)) => {
                self.back.push_back_reserved(answer);
                Ok(())
            }
            Err(kept) => {
                self.there.push_front_reserved(kept.message);
                Err(AllocError)
            }
        }
    }

    /// The switch applies what is pending at a place. If it is away, nobody is told.
    pub(crate) fn apply(
        &mut self,
        alloc: Global,
        place: usize,
        away: bool,
    ) -> Result<(), AllocError>
        requires { place < length self.old.switch.pending }
        ensures ok { OnOk result (IsAppliedAt place away self.old self.new) }
        ensures err { OnErr result (self.new ≡ self.old) }
    {
        self.back.reserve(1)?;
        match self.switch.apply(alloc, place) {
            Ok(None) => Ok(()),
            Ok(Some(answer)) => {
                if away {
                    return Ok(());
                }
                self.back.push_back_reserved(answer);
                Ok(())
            }
            Err(ApplyError::Fault(_)) => unreachable!(),
            Err(ApplyError::Memory) => Err(AllocError),
        }
    }

    /// The switch answers its barrier.
    pub(crate) fn reply(&mut self) -> Result<(), AllocError>
        requires awaits { self.old.switch.awaited ≢ None }
        requires done { self.old.switch.pending ≡ [] }
        ensures ok { OnOk result (IsAnswering self.old self.new) }
        ensures err { OnErr result (self.new ≡ self.old) }
    {
        self.back.reserve(1)?;
        let Ok(answer) = self.switch.reply() else {
            unreachable!()
        };
        self.back.push_back_reserved(answer);
        Ok(())
    }

    /// The coordinator hears the front of the channel from the switch.
    pub(crate) fn heard(&mut self, coordinator: &mut Coordinator, place: usize) -> Move
        requires here { place < length coordinator.old.peers }
        requires front { self.old.back ≢ [] }
        requires session { HasSession place coordinator.old }
        ensures { IsHeardFrom place result coordinator.old coordinator.new self.old self.new }
    {
        let Some(message) = self.back.pop_front() else {
            unreachable!()
        };
        let Ok(heard) = coordinator.heard(place, &message) else {
            unreachable!()
        };
        heard
    }

    /// Its session is lost: the channels are emptied, and a barrier that it awaited is forgotten.
    pub(crate) fn lose(&mut self)
        ensures { self.new ≡ left self.old }
    {
        self.there.clear();
        self.back.clear();
        self.switch.drop_session();
    }

    /// It is there again, and its HELLO goes into the channel from it.
    pub(crate) fn rejoin(
        &mut self,
        coordinator: &mut Coordinator,
        place: usize,
    ) -> Result<(), AllocError>
        requires here { place < length coordinator.old.peers }
        requires away { MayRejoin place coordinator.old }
        ensures ok { OnOk result (IsBackAt place coordinator.old coordinator.new self.old self.new) }
        ensures err { OnErr result ((coordinator.new ≡ coordinator.old) × (self.new ≡ self.old)) }
    {
        self.back.reserve(1)?;
        let Ok(()) = coordinator.rejoin(place) else {
            unreachable!()
        };
        self.back
            .push_back_reserved(Message::Hello { version: 1, xid: 0 });
        Ok(())
    }
}
