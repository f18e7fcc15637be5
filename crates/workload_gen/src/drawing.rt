//! Runs by drawn events.
//!
//! Layer: the world; public. Called by `driving`.
ghost use Rattle.std.specs.Prelude.{◌≡◌, ◌++◌, ◌∷◌, [], List, IfOk, IfErr, IfNone, IfSome, OnOk, OnErr, length};
ghost use Rattle.world_core.specs.declared.event.Event.{Event as EventValue};
ghost use Rattle.world_core.specs.Settling.{NoneIs};
ghost use Rattle.world_core.specs.Steps.{IsEnabled, Runs, Step};
ghost use Rattle.workload_gen.specs.Counts.{AreCounts, AreOthers};
ghost use Rattle.workload_gen.specs.Draws.{Drawn, Draws, IsDrawn, left_by, tried};
ghost use Rattle.workload_gen.specs.Words.{behind, next_word};

use crate::finding::event_by;
use crate::others::{OtherCounts, is_quiet};
use crate::tally::Tally;
use crate::words::next_word;
use document_text::PacketLine;
use rand_pcg::Lcg64Xsh32;
use std::alloc::{AllocError, Global};
use world_core::{Event, Events, PacketEvent, World};

/// Lets these packets come in and does the updates of a world by drawn events, until none can happen, and gives the
/// events. In each turn one word is drawn, and of the events that can happen the one with the number that the word
/// leaves when it is divided by their count, from 0, is done. They are counted switch by switch: the coordinator hears
/// it, it answers its barrier, it applies a flow mod that is pending, it takes a message, one is sent to it. Then come
/// the hops of the copies in flight, the arrival of the next packet, the beginning of the next update, and the report
/// of the drain. If memory runs out, some of the events are done.
pub fn draw(
    alloc: Global,
    world: &mut World,
    packets: &[PacketLine],
    rng: &mut Lcg64Xsh32,
) -> Result<Events, AllocError>
    ensures draws { IfOk result (λ events. Draws packets.now rng.old world.old events.items world.new) }
    ensures runs { IfOk result (λ events. Runs world.old events.items world.new) }
    ensures words { IfOk result (λ events. rng.new ≡ behind (length events.items) rng.old) }
    ensures err { IfErr result
        (λ e. (events : List EventValue) × Drawn packets.now rng.old world.old events world.new) }
{
    let mut events = Events::new(alloc);
    let mut tally = Tally::new(alloc, world)?;
    let mut left = packets;
    let mut others = OtherCounts::count(world, left);
    for _ in 0..u64::MAX {
        let next = next_event(alloc, world, &tally, left, others, rng)?;
        let Some(event) = next else {
            return Ok(events);
        };
        let quiet = is_quiet(&event);
        left = left_by(&event, left);
        do_next(alloc, world, &mut tally, event, &mut events)?;
        others = others.after(quiet, world, left);
    }
    Err(AllocError)
}

// The event that the next word draws, if one can happen.
fn next_event(
    alloc: Global,
    world: &World,
    tally: &Tally,
    packets: &[PacketLine],
    others: OtherCounts,
    rng: &mut Lcg64Xsh32,
) -> Result<Option<Event>, AllocError>
    requires counts { AreCounts world.now tally.now }
    requires others { AreOthers world.now packets.now others.hops others.last }
    ensures none { IfOk result (λ r. IfNone r (NoneIs world.now (tried packets.now world.now) × (rng.new ≡ rng.old))) }
    ensures some { IfOk result
        (λ r. IfSome r (λ e. IsDrawn packets.now world.now rng.old e × (rng.new ≡ (next_word rng.old).1))) }
{
    let OtherCounts { hops, last } = others;
    let rest = hops.saturating_add(last);
    let count = tally.total().saturating_add(rest);
    if count == 0 {
        return Ok(None);
    }
    let word = next_word(rng);
    let number = u64::from(word) % count;
    let found = event_by(alloc, world, tally, packets, hops, number)?;
    Ok(found)
}

// The packets that are left after an event.
fn left_by<'a>(event: &Event, packets: &'a [PacketLine]) -> &'a [PacketLine]
    ensures { result.now ≡ left_by event.now packets.now }
{
    match event {
        Event::Packet(PacketEvent::Arrive(_, _)) => match packets.split_first() {
            Some((_, rest)) => rest,
            None => packets,
        },
        _ => packets,
    }
}

// Does an event that can happen, and notes it.
fn do_next(
    alloc: Global,
    world: &mut World,
    tally: &mut Tally,
    event: Event,
    events: &mut Events,
) -> Result<(), AllocError>
    requires can { IsEnabled world.old event }
    requires counts { AreCounts world.old tally.old }
    ensures ok { OnOk result ((events.new.items ≡ events.old.items ++ event ∷ []) × Step world.old event world.new) }
    ensures counts { OnOk result (AreCounts world.new tally.new) }
    ensures err { OnErr result (world.new ≡ world.old) }
{
    events.reserve()?;
    let phase = world.coordinator().phase();
    match world.step(alloc, &event) {
        Ok(()) => {
            tally.recount(world, &event, phase);
            events.push_reserved(event);
            Ok(())
        }
        Err(_) => Err(AllocError),
    }
}
