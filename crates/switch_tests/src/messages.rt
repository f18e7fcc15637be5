//! Messages for switches, and how their answers are written.
//!
//! Layer: tests; private. Called by `answers`, `barriers` and `changes`.
ghost use Rattle.std.specs.Prelude.{IfOk};
ghost use Rattle.openflow_wire.specs.Writing.{Fits};

use bytes::BytesMut;
use nk_values::{ANY_PORT, Action, Actions, FlowCommand, FlowMod, Pattern};
use openflow_wire::{Message, encode};
use std::alloc::{AllocError, Global};
use switch_model::Switch;

// A flow mod that adds a row of this priority, which sends what comes in at port 1 out of port 2.
pub fn add(alloc: Global, xid: u32, priority: u16) -> Result<Message, AllocError>
    ensures { IfOk result Fits }
{
    let actions = Actions::one(Action::Output(2));
    let change = FlowMod {
        command: FlowCommand::Add,
        pattern: Pattern {
            in_port: Some(1),
            ..Pattern::any()
        },
        priority,
        out_port: ANY_PORT,
        actions,
    };
    Ok(Message::FlowMod { xid, change })
}

// A switch of this capacity that was given additions with the priorities 5 and 6, whose numbers are 1 and 2, and
// after them a barrier request with the number 3.
pub fn waiting(alloc: Global, capacity: usize) -> Result<Switch, AllocError> {
    let mut switch = Switch::new(alloc, 7, capacity);
    let _first = switch.take(alloc, add(alloc, 1, 5)?);
    let _second = switch.take(alloc, add(alloc, 2, 6)?);
    let _barrier = switch.take(alloc, Message::BarrierRequest { xid: 3 });
    Ok(switch)
}

// Whether a message is written as these bytes.
pub fn is_written(alloc: Global, message: &Message, bytes: &[u8]) -> Result<bool, AllocError>
    requires { Fits message.now }
{
    let mut out = BytesMut::new(alloc);
    encode(message, &mut out)?;
    Ok(out.as_slice() == bytes)
}
