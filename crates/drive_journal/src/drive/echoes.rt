//! The replies to echo requests that wait to be sent.
//!
//! Layer: switches outside; private. Called by `drive`.
ghost use Rattle.std.specs.Prelude.{◌≡◌, None, IfOk, replicate};

use super::Drive;
use crate::name::DriveName;
use openflow_wire::Message;
use outside_net::{Link, Receipt};
use std::alloc::{AllocError, Global};

impl<L: DriveName, E: Link, Q: Receipt> Drive<L, E, Q> {
    ghost use Rattle.std.specs.Prelude.{◌≡◌, ◌≢◌, ◌<◌, ◌↔◌, None, IsTrue, IfSome, length};
    ghost use Rattle.openflow_wire.specs.Writing.{Fits};
    ghost use Rattle.drive_journal.specs.Drives.{answering, echo_at};

    /// Whether an answer is still to be sent to the switch at a place.
    pub fn has_echo(&self, place: usize) -> bool
        requires { place < length L.start.peers }
        ensures { IsTrue result ↔ (echo_at self.now place ≢ None) }
    {
        self.echoes[place].is_some()
    }

    /// Takes the answer that is still to be sent to the switch at a place.
    pub fn take_echo(&mut self, place: usize) -> Option<Message>
        requires { place < length L.start.peers }
        ensures is { result ≡ echo_at self.old place }
        ensures fits { IfSome result Fits }
        ensures taken { self.new ≡ answering self.old place None }
    {
        self.echoes[place].take()
    }

    /// Notes what is to be answered to the last message of the switch at a place.
    pub fn note_echo(&mut self, place: usize, reply: Option<Message>)
        requires place { place < length L.start.peers }
        requires fits { IfSome reply Fits }
        ensures { self.new ≡ answering self.old place reply }
    {
        self.echoes[place] = reply;
    }
}

// No answer to any of the switches.
pub(super) fn no_echoes(alloc: Global, count: usize) -> Result<Vec<Option<Message>>, AllocError>
    ensures { IfOk result (λ v. v.items ≡ replicate count None) }
{
    let mut echoes = Vec::new(alloc);
    for _ in 0..count {
        let Ok(()) = echoes.push(None) else {
            return Err(AllocError);
        };
    }
    Ok(echoes)
}
