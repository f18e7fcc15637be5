//! The calls of an end in memory.
//!
//! Layer: runs; private. Adds calls to `MemoryEnd`.
ghost use Rattle.std.specs.Prelude.{◌≡◌, ◌≢◌, ◌↔◌, ◌≤◌, IfSome, length};

use super::MemoryEnd;
use super::delivery::Delivery;
use crate::link::{Link, LinkFault};
use std::alloc::AllocError;
use std::sync::Wait;

impl<R: Wait + Drop> MemoryEnd<R> {
    ghost use Rattle.std.specs.Prelude.{IsTrue, IsSome, false};
    ghost use Rattle.outside_net.specs.Memory.{end_effect, end_failed, end_faults, end_full, end_met};
    ghost use Rattle.outside_net.specs.Memory.{CallIsListed, IsSameEnd};

    // Takes bytes of those on their way. There are none where the pipe is closed, or for an end that was met if none
    // came.
    fn take(&self, place: &mut [u8]) -> Option<usize>
        ensures within { IfSome result (λ n. n ≤ length place.new) }
        ensures pair { end_met self.now ≡ false → IsSome result }
    {
        if self.met {
            return self.into.take_soon(&self.rt, place);
        }
        Some(self.into.take(&self.rt, place))
    }

    // Counts a call among those of all ends, and says whether it is listed to fail.
    fn is_listed(&mut self) -> bool
        ensures listed { IsTrue result ↔ CallIsListed self.new }
        ensures same { IsSameEnd self.old self.new }
        ensures failed { (end_failed self.new ≡ end_failed self.old) × (end_faults self.new ≡ end_faults self.old) }
        ensures effect { (end_effect self.new ≡ end_effect self.old) × (end_full self.new ≡ end_full self.old) }
    {
        self.call = self.calls.next(&self.rt);
        self.calls.fails(self.call)
    }
}

impl<R: Wait + Drop> Link for MemoryEnd<R> {
    ghost use Rattle.std.specs.Prelude.{◌≡◌, ◌≢◌, ◌↔◌, ◌<◌, ◌≤◌, false, true, take, length, IfOk, OnOk, OnErr, Some};
    ghost use Rattle.std.specs.Io.KnownBytes.{Appends};
    ghost use Rattle.outside_io.specs.Lists.{AppendsPrefix};
    ghost use Rattle.outside_net.specs.Causes.{LinkCause};
    ghost use Rattle.outside_net.specs.Told.{Grows};
    ghost use Rattle.outside_net.specs.Memory.{end_failed, end_failing, end_faults, end_met, end_name, end_received};
    ghost use Rattle.outside_net.specs.Memory.{end_sent, CallIsListed, HasByteRoom, SendIsToFail};

    ghost named = { λ e. e.name };

    ghost faults = { λ e. e.faults };

    ghost sent = { λ e. Some e.sent.items };

    ghost received = { λ e. Some e.received.items };

    fn name(&self) -> u32 {
        self.name
    }

    fn make_room(&mut self, bytes: usize) -> Result<(), AllocError>
        ensures sent { Some (end_sent self.new) ≡ Some (end_sent self.old) }
        ensures received { Some (end_received self.new) ≡ Some (end_received self.old) }
        ensures named { end_name self.new ≡ end_name self.old }
        ensures faults { end_faults self.new ≡ end_faults self.old }
        ensures room { OnOk result (HasByteRoom self.new bytes) }
        ensures failed { end_failed self.new ≡ end_failed self.old }
        ensures met { end_met self.new ≡ end_met self.old }
        ensures failing { end_failing self.new ≡ end_failing self.old }
    {
        self.sent.reserve(bytes)?;
        self.received.reserve(bytes)?;
        self.out.make_room(&self.rt, bytes)
    }

    // An end of a pair that is open and has room fails exactly if the call is listed, the send is, or the pipe has no
    // room.
    fn send(&mut self, bytes: &[u8]) -> Result<(), LinkFault>
        ensures ok { OnOk result (Appends (Some (end_sent self.old)) (Some (end_sent self.new)) bytes.now) }
        ensures err { OnErr result (AppendsPrefix (Some (end_sent self.old)) (Some (end_sent self.new)) bytes.now) }
        ensures received { Some (end_received self.new) ≡ Some (end_received self.old) }
        ensures named { end_name self.new ≡ end_name self.old }
        ensures cause { LinkCause (end_faults self.old) (end_faults self.new) result }
        ensures listed { end_failed self.old ≡ false → SendIsToFail self.new → result ≡ Err LinkFault.Failed }
        ensures fails { end_failed self.old ≡ false → end_met self.old ≡ false →
            HasByteRoom self.old (length bytes.now) → result ≡ Err LinkFault.Failed → SendIsToFail self.new }
        ensures closed { end_failed self.old ≡ true → end_met self.old ≡ false → result ≡ Err LinkFault.Closed }
        ensures shut { result ≡ Err LinkFault.Failed → end_failed self.new ≡ true }
        ensures open { result ≢ Err LinkFault.Failed → end_failed self.new ≡ end_failed self.old }
        ensures met { end_met self.new ≡ end_met self.old }
        ensures failing { end_failing self.new ≡ end_failing self.old }
    {
        if self.failed {
            return Err(self.close());
        }
        self.begin_send();
        if self.is_listed() || self.sent.reserve(bytes.len()).is_err() {
            return Err(self.fail());
        }
        match self.deliver(bytes) {
            Delivery::Done => {
                if self.sent.extend_from_slice(bytes).is_err() {
                    return Err(self.fail());
                }
                Ok(())
            }
            Delivery::Closed => Err(self.close()),
            Delivery::Full => {
                self.full = true;
                Err(self.fail())
            }
            Delivery::Spoiled => Err(self.fail()),
        }
    }

    // An end of a pair that is open and has room fails exactly if the call is listed.
    fn recv(&mut self, place: &mut [u8]) -> Result<usize, LinkFault>
        ensures within { IfOk result (λ n. n ≤ length place.new) }
        ensures ok { IfOk result
            (λ n. Grows (Some (end_received self.old)) (Some (end_received self.new)) (take n place.new)) }
        ensures err { OnErr result (Some (end_received self.new) ≡ Some (end_received self.old)) }
        ensures sent { Some (end_sent self.new) ≡ Some (end_sent self.old) }
        ensures named { end_name self.new ≡ end_name self.old }
        ensures cause { LinkCause (end_faults self.old) (end_faults self.new) result }
        ensures listed { end_failed self.old ≡ false → CallIsListed self.new → result ≡ Err LinkFault.Failed }
        ensures fails { end_failed self.old ≡ false → end_met self.old ≡ false →
            HasByteRoom self.old (length place.old) → result ≡ Err LinkFault.Failed → CallIsListed self.new }
        ensures closed { end_failed self.old ≡ true → end_met self.old ≡ false → result ≡ Err LinkFault.Closed }
        ensures shut { result ≡ Err LinkFault.Failed → end_failed self.new ≡ true }
        ensures open { result ≢ Err LinkFault.Failed → end_failed self.new ≡ end_failed self.old }
        ensures met { end_met self.new ≡ end_met self.old }
        ensures failing { end_failing self.new ≡ end_failing self.old }
    {
        if self.failed {
            return Err(self.close());
        }
        if self.is_listed() || self.received.reserve(place.len()).is_err() {
            return Err(self.fail());
        }
        let Some(count) = self.take(place) else {
            return Ok(0);
        };
        if count == 0 {
            return Err(self.close());
        }
        if self.received.extend_from_slice(&place[..count]).is_err() {
            return Err(self.fail());
        }
        Ok(count)
    }
}
