//! Flow mods and their actions written as bytes (OpenFlow 1.0.0, 5.2.4 and 5.3.3).
//!
//! Layer: messages; private. Called by `encoding`, `spelling` and `stats_writing`.
ghost use Rattle.std.specs.Prelude.{◌≡◌, ◌+◌, ◌<◌, ◌≤◌, ◌^◌, ◌++◌};
ghost use Rattle.std.specs.List.{AllByRecursion};
ghost use Rattle.nk_values.specs.Fitting.{action_len, actions_len, FitsAction, FitsChange};
ghost use Rattle.openflow_wire.specs.ActionLists.{action_kind};
ghost use Rattle.openflow_wire.specs.Spelling.{command_number};
ghost use Rattle.openflow_wire.specs.Writing.{PutsBytes, action_bytes, actions_bytes, change_bytes, operand};

use crate::action_lists::action_len;
use crate::writing::{put_half, put_long, put_match, put_station, put_word};
use bytes::BytesMut;
use nk_values::{Action, FlowCommand, FlowMod};

// The buffer number that says that no packet is buffered (5.3.3).
const NO_BUFFER: u32 = 0xffff_ffff;

// The type number of an action.
fn action_kind(action: Action) -> u16
    ensures { result ≡ action_kind action }
{
    match action {
        Action::Output(_) => 0,
        Action::SetVlanVid(_) => 1,
        Action::StripVlan => 3,
        Action::SetDlSrc(_) => 4,
        Action::SetDlDst(_) => 5,
        Action::SetNwSrc(_) => 6,
        Action::SetNwDst(_) => 7,
        Action::SetTpSrc(_) => 9,
        Action::SetTpDst(_) => 10,
    }
}

// What stands after an action's type and length.
#[tactic(auto, unfolding(crate::specs::Writing::operand))]
fn put_operand(out: &mut BytesMut, action: Action)
    requires room { action_len action ≤ out.old.spare + 4 }
    requires fits { FitsAction action }
    ensures items { out.new.items ≡ out.old.items ++ operand action }
    ensures spare { out.old.spare + 4 ≤ out.new.spare + action_len action }
{
    match action {
        Action::Output(n) | Action::SetVlanVid(n) | Action::SetTpSrc(n) | Action::SetTpDst(n) => {
            put_half(out, n);
            put_half(out, 0);
        }
        Action::StripVlan => put_word(out, 0),
        Action::SetDlSrc(n) | Action::SetDlDst(n) => {
            put_station(out, n);
            put_station(out, 0);
        }
        Action::SetNwSrc(n) | Action::SetNwDst(n) => put_word(out, n),
    }
}

#[tactic(auto, unfolding(crate::specs::Writing::action_bytes))]
fn put_action(out: &mut BytesMut, action: Action)
    requires room { action_len action ≤ out.old.spare }
    requires fits { FitsAction action }
    ensures { PutsBytes out.old out.new (action_len action) (action_bytes action) }
{
    put_half(out, action_kind(action));
    put_half(out, action_len(action) as u16);
    put_operand(out, action);
}

pub fn put_actions(out: &mut BytesMut, actions: &[Action])
    requires room { actions_len actions.now ≤ out.old.spare }
    requires fits { AllByRecursion FitsAction actions.now }
    ensures { PutsBytes out.old out.new (actions_len actions.now) (actions_bytes actions.now) }
{
    for action in actions {
        put_action(out, *action);
    }
}

/// The number of a command.
pub fn command_number(command: FlowCommand) -> u16
    ensures { result ≡ command_number command }
{
    match command {
        FlowCommand::Add => 0,
        FlowCommand::Modify => 1,
        FlowCommand::ModifyStrict => 2,
        FlowCommand::Delete => 3,
        FlowCommand::DeleteStrict => 4,
    }
}

// What stands after the header of a flow mod: no cookie, no timeouts, no buffer, no flags.
#[tactic(auto, unfolding(crate::specs::Writing::change_bytes))]
pub fn put_change(out: &mut BytesMut, change: &FlowMod)
    requires room { 64 + actions_len change.now.actions ≤ out.old.spare }
    requires fits { FitsChange change.now }
    ensures { PutsBytes out.old out.new (64 + actions_len change.now.actions) (change_bytes change.now) }
{
    put_match(out, &change.pattern);
    put_long(out, 0);
    put_half(out, command_number(change.command));
    put_word(out, 0);
    put_half(out, change.priority);
    put_word(out, NO_BUFFER);
    put_half(out, change.out_port);
    put_half(out, 0);
    put_actions(out, change.actions.as_slice());
}

/// How many bytes these actions take.
pub fn actions_wire_len(actions: &[Action]) -> usize
    ensures value { result ≡ actions_len actions.now }
    ensures small { result < 2 ^ 63 }
{
    let mut len = 0;
    for action in actions {
        len += action_len(*action);
    }
    len
}
