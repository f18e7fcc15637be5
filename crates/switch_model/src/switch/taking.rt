//! Messages that a switch takes, and its answers.
//!
//! Layer: updates; private. Adds calls to `Switch`.
ghost use Rattle.std.specs.Prelude.{◌≡◌, ◌<◌, ◌↔◌, None, Some, Err, IfOk, IfErr, IfSome, IsSome, OnOk, OnErr, []};
ghost use Rattle.openflow_wire.specs.Writing.{Fits};
ghost use Rattle.openflow_wire.specs.declared.message.Message.TheVariants as to;
ghost use Rattle.switch_model.specs.Switches.{bad_type, features};

use super::{RejectedMessage, Switch, TakeError, TakeFault};
use crate::pending::PendingMod;
use crate::refusing::bad_type;
use nk_values::FlowMod;
use openflow_wire::{Message, Octets};
use std::alloc::Global;

// OFPC_FLOW_STATS (OpenFlow 1.0.0, 5.3.1).
const FLOW_STATS: u32 = 1;

// Bit t for each action type t of `nk_values::Action` (5.2.4).
const ACTIONS: u32 = 0x6fb;

impl Switch {
    ghost use Rattle.openflow_wire.specs.declared.message.Message.TheVariants as to;
    ghost use Rattle.switch_model.specs.Switches.{answer_of, taken, NeedsMemory};

    /// Takes a message of the controller, and answers what can be answered at once. While a barrier is awaited
    /// nothing is taken. A message that is not taken comes back, and the switch is as it was.
    pub fn take(
        &mut self,
        alloc: Global,
        message: Message,
    ) -> Result<Option<Message>, RejectedMessage>
        requires { Fits message }

        ensures open { OnOk result (self.old.awaited ≡ None) }
        ensures taken { OnOk result (self.new ≡ taken message self.old) }
        ensures answer { IfOk result (λ answer. answer ≡ answer_of self.old.sw message) }
        ensures fits { IfOk result (λ answer. IfSome answer Fits) }

        ensures waiting { IfErr result (λ e. (e.error ≡ TakeError.Fault TakeFault.Waiting) ↔ IsSome self.old.awaited) }
        ensures memory { IfErr result (λ e. e.error ≡ TakeError.Memory → NeedsMemory message) }
        ensures back { IfErr result (λ e. e.message ≡ message) }
        ensures err { OnErr result (self.new ≡ self.old) }
    {
        if self.awaited.is_some() {
            let error = TakeError::Fault(TakeFault::Waiting);
            return Err(RejectedMessage { error, message });
        }
        match message {
            Message::FlowMod { xid, change } => self.hold(xid, change),
            Message::BarrierRequest { xid } => {
                self.awaited = Some(xid);
                Ok(None)
            }
            Message::EchoRequest { xid, payload } => Ok(Some(Message::EchoReply { xid, payload })),
            Message::FeaturesRequest { xid } => identify(alloc, self.sw, xid),
            unknown @ (Message::FlowStatsRequest { .. }
            | Message::FlowStatsReply { .. }
            | Message::Other { .. }) => refuse(alloc, unknown),
            Message::Hello { .. }
            | Message::Error { .. }
            | Message::EchoReply { .. }
            | Message::FeaturesReply { .. }
            | Message::BarrierReply { .. } => Ok(None),
        }
    }

    // Holds a flow mod until it is applied.
    fn hold(&mut self, xid: u32, change: FlowMod) -> Result<Option<Message>, RejectedMessage>
        requires { Fits (to.FlowMod xid change) }
        ensures taken { OnOk result (self.new ≡ taken (to.FlowMod xid change) self.old) }
        ensures answer { IfOk result (λ answer. answer ≡ None) }
        ensures back { IfErr result (λ e. e ≡ record { error = TakeError.Memory; message = to.FlowMod xid change }) }
        ensures err { OnErr result (self.new ≡ self.old) }
    {
        if self.pending.reserve(1).is_err() {
            return Err(RejectedMessage {
                error: TakeError::Memory,
                message: Message::FlowMod { xid, change },
            });
        }
        self.pending.push_reserved(PendingMod { xid, change });
        Ok(None)
    }
}

// Answers a request for the features, or gives it back.
fn identify(alloc: Global, sw: u16, xid: u32) -> Result<Option<Message>, RejectedMessage>
    ensures answer { IfOk result (λ answer. answer ≡ Some (features sw xid)) }
    ensures fits { IfOk result (λ answer. IfSome answer Fits) }
    ensures back { IfErr result (λ e. e ≡ record { error = TakeError.Memory; message = to.FeaturesRequest xid }) }
{
    let Ok(ports) = Octets::from_slice(alloc, &[]) else {
        return Err(RejectedMessage {
            error: TakeError::Memory,
            message: Message::FeaturesRequest { xid },
        });
    };
    Ok(Some(Message::FeaturesReply {
        xid,
        datapath: u64::from(sw),
        buffers: 0,
        tables: 1,
        capabilities: FLOW_STATS,
        actions: ACTIONS,
        ports,
    }))
}

// Answers a message of a kind that switches do not know, or gives it back.
fn refuse(alloc: Global, message: Message) -> Result<Option<Message>, RejectedMessage>
    requires { Fits message }
    ensures answer { IfOk result (λ answer. answer ≡ Some (bad_type message)) }
    ensures fits { IfOk result (λ answer. IfSome answer Fits) }
    ensures back { IfErr result (λ e. e ≡ record { error = TakeError.Memory; message = message }) }
{
    match bad_type(alloc, &message) {
        Ok(error) => Ok(Some(error)),
        Err(_) => Err(RejectedMessage {
            error: TakeError::Memory,
            message,
        }),
    }
}
