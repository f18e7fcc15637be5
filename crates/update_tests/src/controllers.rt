//! A coordinator of two policies at two switches, and what the switches answer.
//!
//! Layer: tests; private. Called by `fleet`, `returns` and `updates`.
ghost use Rattle.std.specs.Prelude.{◌≡◌, ◌≤◌, ◌∷◌, [], IfOk, IfSome};
ghost use Rattle.openflow_wire.specs.Writing.{Fits};
ghost use Rattle.policy_rows.specs.Limits.{AreWithinLimits, AreWritable};
ghost use Rattle.update_tests.specs.Rows.{one_row};

use nk_values::{
    Action, Actions, Band, Pattern, PortKind, PortLists, PortRows, Row, RowList, Rows,
};
use openflow_wire::{Message, Octets};
use session_core::Move;
use std::alloc::{AllocError, Global};
use update_coordinator::Coordinator;

// An edge port of a switch, with one row.
fn port(alloc: Global, sw: u16, priority: u16) -> Result<PortRows, AllocError>
    ensures { IfOk result (λ p. p.rows ≡ one_row priority ∷ []) }
{
    let actions = Actions::one(Action::Output(2));
    let mut rows = RowList::new(alloc);
    rows.push(Row {
        pattern: Pattern {
            in_port: Some(1),
            ..Pattern::any()
        },
        priority,
        actions,
    })?;
    Ok(PortRows {
        sw,
        pt: 1,
        kind: PortKind::Edge,
        rows,
    })
}

// The rows of a policy: one at each of two ports, given by their switches and priorities.
#[tactic(auto, using(crate::proofs::Rows::few, crate::proofs::Rows::written))]
fn version(
    alloc: Global,
    stamp: u16,
    band: Band,
    first: (u16, u16),
    second: (u16, u16),
) -> Result<Rows, AllocError>
    ensures limits { IfOk result AreWithinLimits }
    ensures writable { IfOk result AreWritable }
{
    let mut ports = PortLists::new(alloc);
    ports.push(port(alloc, first.0, first.1)?)?;
    ports.push(port(alloc, second.0, second.1)?)?;
    Ok(Rows { stamp, band, ports })
}

// Two policies, one after the other.
fn both(alloc: Global, first: Rows, second: Rows) -> Result<Vec<Rows>, AllocError>
    ensures { IfOk result (λ v. v.items ≡ first ∷ second ∷ []) }
{
    let mut versions = Vec::new(alloc);
    versions.push(first)?;
    versions.push(second)?;
    Ok(versions)
}

pub fn start(alloc: Global, rejoins: usize) -> Result<Coordinator, AllocError>
    requires { rejoins ≤ 1000 }
{
    let first = version(alloc, 1, Band::High, (1, 36000), (2, 36000))?;
    let second = version(alloc, 2, Band::Low, (1, 16000), (2, 16000))?;
    Coordinator::new(alloc, both(alloc, first, second)?, &[1, 2], rejoins, None)
}

/// The same with both ports at the first switch, so that its batches have two flow mods.
pub fn start_at_one(alloc: Global, rejoins: usize) -> Result<Coordinator, AllocError>
    requires { rejoins ≤ 1000 }
{
    let first = version(alloc, 1, Band::High, (1, 36000), (1, 35999))?;
    let second = version(alloc, 2, Band::Low, (1, 16000), (1, 15999))?;
    Coordinator::new(alloc, both(alloc, first, second)?, &[1, 2], rejoins, None)
}

fn features(alloc: Global, xid: u32, datapath: u64) -> Option<Message> {
    Some(Message::FeaturesReply {
        xid,
        datapath,
        buffers: 0,
        tables: 1,
        capabilities: 1,
        actions: 0x6fb,
        ports: Octets::from_slice(alloc, &[]).ok()?,
    })
}

// What the switch with this number answers.
fn answer(alloc: Global, sw: u64, message: &Message) -> Option<Message> {
    match message {
        Message::Hello { .. } => Some(Message::Hello { version: 1, xid: 0 }),
        Message::FeaturesRequest { xid } => features(alloc, *xid, sw),
        Message::BarrierRequest { xid } => Some(Message::BarrierReply { xid: *xid }),
        _ => None,
    }
}

// The answer of a switch whose table is full, with none of the bytes that it answers.
pub fn full(alloc: Global) -> Option<Message> {
    Some(Message::Error {
        xid: 3,
        form: 3,
        code: 0,
        payload: Octets::from_slice(alloc, &[]).ok()?,
    })
}

// The next message to the switch at a place.
pub fn next_out(c: &mut Coordinator, place: usize) -> Option<Message>
    ensures { IfSome result Fits }
{
    if place >= c.switch_count() {
        return None;
    }
    c.next_out(place).ok()?
}

// The move of a message that was heard.
pub fn hear(c: &mut Coordinator, place: usize, message: Option<Message>) -> Option<Move> {
    let message = message?;
    if place >= c.switch_count() {
        return None;
    }
    c.heard(place, &message).ok()
}

pub fn lose(c: &mut Coordinator, place: usize) -> bool {
    place < c.switch_count() && c.lost(place).is_ok()
}

pub fn owes(c: &Coordinator, place: usize) -> bool {
    place < c.switch_count() && c.owes(place)
}

pub fn may_send(c: &Coordinator, place: usize) -> bool {
    place < c.switch_count() && c.may_send(place)
}

// Sends all that may go to a switch, which answers at once. Gives how many messages went.
pub fn serve(alloc: Global, c: &mut Coordinator, place: usize, sw: u64) -> u32 {
    for sent in 0..100 {
        let Some(message) = next_out(c, place) else {
            return sent;
        };
        let reply = answer(alloc, sw, &message);
        let _move = hear(c, place, reply);
    }
    100
}

// Serves both switches until nothing may go to either. Gives how many messages went.
pub fn settle(alloc: Global, c: &mut Coordinator) -> u32 {
    let mut all: u32 = 0;
    for _ in 0..20 {
        let went = serve(alloc, c, 0, 1).saturating_add(serve(alloc, c, 1, 2));
        all = all.saturating_add(went);
    }
    all
}
