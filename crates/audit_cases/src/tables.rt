//! A switch that is asked for its rows.
//!
//! Layer: tests; private. Called by the root of the crate.
ghost use Rattle.std.specs.Prelude.{◌≤◌, ◌<◌, ◌^◌, IsTrue, IfOk};
ghost use Rattle.std.specs.List.{AllByRecursion};
ghost use Rattle.nk_values.specs.declared.row.Row.{Row as RowValue};
ghost use Rattle.nk_values.specs.Fitting.{actions_len};
ghost use Rattle.openflow_wire.specs.declared.message.Message.{Message as MessageValue};
ghost use Rattle.openflow_wire.specs.Writing.{Fits, wire_len};

use crate::reports::verdict_text;
use flow_audit::audit;
use nk_values::{ANY_PORT, Action, Actions, FlowCommand, FlowMod, Pattern, Row, UNTAGGED};
use openflow_wire::{Message, wire_len};
use std::alloc::{AllocError, Global};
use switch_model::Switch;

/// What a switch with this many rows answers that is asked for all of them, in short.
pub fn table_answer(alloc: Global, count: u16) -> Result<String, AllocError> {
    let mut switch = Switch::new(alloc, 1, usize::from(count));
    for port in 0..count {
        add_row(alloc, &mut switch, port)?;
    }
    let request = Message::FlowStatsRequest {
        xid: 1,
        pattern: Pattern::any(),
        table: 0,
        out_port: ANY_PORT,
    };
    if !are_short(switch.table().rows()) {
        return String::from_str(alloc, "a row of more than one action");
    }
    let replies = switch.stats(alloc, &request)?;
    let verdict = verdict_text(alloc, audit(alloc, switch.table().rows(), &replies))?;
    format!(in alloc; "{}, {verdict}", short(alloc, &replies)?)
}

// Adds the row that sends what comes in at a port, untagged, out of port 2.
fn add_row(alloc: Global, switch: &mut Switch, port: u16) -> Result<(), AllocError> {
    let message = addition(alloc, port)?;
    if switch.take(alloc, message).is_err() || switch.apply(alloc, 0).is_err() {
        return Err(AllocError);
    }
    Ok(())
}

fn addition(alloc: Global, port: u16) -> Result<Message, AllocError>
    ensures { IfOk result Fits }
{
    let actions = Actions::one(Action::Output(2));
    let change = FlowMod {
        command: FlowCommand::Add,
        pattern: Pattern {
            in_port: Some(port),
            dl_vlan: Some(UNTAGGED),
            ..Pattern::any()
        },
        priority: 1,
        out_port: ANY_PORT,
        actions,
    };
    Ok(Message::FlowMod { xid: 1, change })
}

// Whether each row has just one action, an output.
fn are_short(rows: &[Row]) -> bool
    ensures { IsTrue result → AllByRecursion (λ (r : RowValue). actions_len r.actions ≤ 60000) rows.now }
{
    for row in rows {
        if !is_short(row.actions.as_slice()) {
            return false;
        }
    }
    true
}

fn is_short(actions: &[Action]) -> bool
    ensures { IsTrue result → actions_len actions.now ≤ 60000 }
{
    matches!(actions, [Action::Output(_)])
}

// Replies in short: how many they are, how many bytes the first and the last take, and how many have more.
fn short(alloc: Global, replies: &[Message]) -> Result<String, AllocError>
    requires { AllByRecursion (λ (m : MessageValue). wire_len m < 2 ^ 63) replies.now }
{
    let mut more = 0u64;
    let (mut first, mut last) = (0usize, 0usize);
    for reply in replies {
        last = wire_len(reply);
        if first == 0 {
            first = last;
        }
        if has_more(reply) {
            more = more.saturating_add(1);
        }
    }
    format!(in alloc;
        "{} in all, first {first} bytes, last {last} bytes, {more} with more",
        replies.len()
    )
}

fn has_more(message: &Message) -> bool {
    matches!(message, Message::FlowStatsReply { more: true, .. })
}
