//! What is wrong with bytes, found with no memory taken.
//!
//! Layer: messages; public. Called by of_framing.
ghost use Rattle.std.specs.Prelude.{ℕ, OnOk, IfErr};
ghost use Rattle.openflow_wire.specs.declared.message.Message.{Message};
ghost use Rattle.openflow_wire.specs.Spelling.{Spells};
ghost use Rattle.openflow_wire.specs.Faults.{IsFirstFault};
ghost use Rattle.openflow_wire.specs.Reading.{ChecksAs, actions_of, change_of, error_of, bare, features_of, request_of};
ghost use Rattle.openflow_wire.specs.Reading.{reply_of, body_of, reads};

use crate::action_lists::are_whole;
use crate::fault::WireFault;
use crate::places::{byte_at, half_at};
use crate::reading::command_of;
use crate::stats_reading::{FLOWS, check_entries};

/// Whether these bytes are a message, all of them, with no memory taken (OpenFlow 1.0.0, 5.1 to 5.5). If they are
/// none, the first fault is told.
pub fn check(bytes: &[u8]) -> Result<(), WireFault>
    ensures message { OnOk result ((m : Message) × Spells bytes.now m) }
    ensures fault { IfErr result (λ f. IsFirstFault bytes.now f) }
{
    check_whole(bytes)
}

// The header is asked in this order: whether it is there, its version, its length.
#[tactic(auto, unfolding(crate::specs::Reading::reads))]
fn check_whole(bytes: &[u8]) -> Result<(), WireFault>
    ensures { ChecksAs result (reads bytes.now) }
{
    if bytes.len() < 8 {
        return Err(WireFault::BadLength);
    }
    let kind = byte_at(bytes, 1);
    if byte_at(bytes, 0) != 1 && kind != 0 {
        return Err(WireFault::BadVersion);
    }
    if half_at(bytes, 2) as usize != bytes.len() {
        return Err(WireFault::BadLength);
    }
    let (_, body) = bytes.split_at(8);
    check_body(kind, body)
}

// What stands after a header.
fn check_body(kind: u8, body: &[u8]) -> Result<(), WireFault>
    ensures { (version xid : ℕ) → ChecksAs result (body_of version kind xid body.now) }
{
    match kind {
        0 | 2 | 3 => Ok(()),
        1 => check_error(body),
        5 | 18 | 19 => check_bare(body),
        6 => check_features(body),
        14 => check_change(body),
        16 => check_request(body),
        17 => check_reply(body),
        _ => Ok(()),
    }
}

// What stands after the header of an error.
#[tactic(auto, unfolding(crate::specs::Reading::error_of))]
fn check_error(body: &[u8]) -> Result<(), WireFault>
    ensures { (xid : ℕ) → ChecksAs result (error_of xid body.now) }
{
    if body.len() < 4 {
        return Err(WireFault::BadLength);
    }
    Ok(())
}

// A message without a body.
fn check_bare(body: &[u8]) -> Result<(), WireFault>
    ensures { (message : Message) → ChecksAs result (bare message body.now) }
{
    if body.is_empty() {
        Ok(())
    } else {
        Err(WireFault::BadLength)
    }
}

// What stands after the header of a features reply.
#[tactic(auto, unfolding(crate::specs::Reading::features_of))]
fn check_features(body: &[u8]) -> Result<(), WireFault>
    ensures { (xid : ℕ) → ChecksAs result (features_of xid body.now) }
{
    if body.len() < 24 {
        return Err(WireFault::BadLength);
    }
    if (body.len() - 24) % 48 != 0 {
        return Err(WireFault::BadLength);
    }
    Ok(())
}

// What stands after the header of a flow mod: the length is asked first, then the command, then the actions.
#[tactic(auto, unfolding(crate::specs::Reading::change_of))]
fn check_change(body: &[u8]) -> Result<(), WireFault>
    ensures { ChecksAs result (change_of body.now) }
{
    if body.len() < 64 {
        return Err(WireFault::BadLength);
    }
    let Some(_) = command_of(half_at(body, 48)) else {
        return Err(WireFault::BadCommand);
    };
    let (_, behind) = body.split_at(64);
    check_actions(behind)
}

// What is to be actions.
fn check_actions(bytes: &[u8]) -> Result<(), WireFault>
    ensures { ChecksAs result (actions_of bytes.now) }
{
    if are_whole(bytes) {
        Ok(())
    } else {
        Err(WireFault::BadAction)
    }
}

// What stands after the header of a request for statistics.
#[tactic(auto, unfolding(crate::specs::Reading::request_of))]
fn check_request(body: &[u8]) -> Result<(), WireFault>
    ensures { (xid : ℕ) → ChecksAs result (request_of xid body.now) }
{
    if body.len() < 4 {
        return Err(WireFault::BadLength);
    }
    if half_at(body, 0) != FLOWS {
        return Ok(());
    }
    if body.len() != 48 {
        return Err(WireFault::BadLength);
    }
    Ok(())
}

// What stands after the header of a reply with statistics.
#[tactic(auto, unfolding(crate::specs::Reading::reply_of))]
fn check_reply(body: &[u8]) -> Result<(), WireFault>
    ensures { (xid : ℕ) → ChecksAs result (reply_of xid body.now) }
{
    if body.len() < 4 {
        return Err(WireFault::BadLength);
    }
    if half_at(body, 0) != FLOWS {
        return Ok(());
    }
    check_entries(&body[4..])
}
