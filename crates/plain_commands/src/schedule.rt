//! Schedules, carried out in a world.
//!
//! Layer: the program; private. Called by `outcome`.
ghost use Rattle.std.specs.Prelude.{◌≡◌, ◌++◌, ◌-◌, [], List, Err, IfOk, IfErr, OnOk, option_map, slice_get};
ghost use Rattle.world_core.specs.declared.event.Event.{Event as EventValue};
ghost use Rattle.plain_commands.specs.Schedules.{arrive, event_of, CannotHappen, CarriedOut, Does};
ghost use Rattle.plain_commands.specs.Told.{TellsStop};

use document_text::{PacketLine, ScheduleLine, ScheduleStep};
use program_answer::AnswerError;
use report_text::Fault;
use std::alloc::{AllocError, Global};
use topology_model::Topology;
use world_core::{
    ControllerEvent, Event, Events, PacketEvent, StepError, StepFault, SwitchEvent, World,
};

/// Carries out a schedule line by line, and gives the events that were done; or the first line whose event cannot
/// happen.
pub fn carry_out(
    alloc: Global,
    world: &mut World,
    packets: &[PacketLine],
    schedule: &[ScheduleLine],
) -> Result<Events, AnswerError>
    ensures done { IfOk result
        (λ events. CarriedOut world.old.topology.switches packets.now world.old schedule.now events.items world.new) }
    ensures stop { IfErr result (TellsStop world.old.topology.switches packets.now world.old schedule.now) }
{
    let mut events = Events::new(alloc);
    for line in schedule {
        match carry(alloc, world, packets, line.event, &mut events) {
            Ok(()) => {}
            Err(StepError::Fault(StepFault::NotEnabled)) => {
                return Err(AnswerError::Fault(Fault::NotEnabled { line: line.line }));
            }
            Err(StepError::Memory) => return Err(AnswerError::Memory),
        }
    }
    Ok(events)
}

// Carries out an order, and puts the events that were done after the others.
fn carry(
    alloc: Global,
    world: &mut World,
    packets: &[PacketLine],
    order: ScheduleStep,
    events: &mut Events,
) -> Result<(), StepError>
    ensures done { OnOk result
        ((more : List EventValue) × Does world.old.topology.switches packets.now order world.old more world.new ×
        (events.new.items ≡ events.old.items ++ more)) }
    ensures topology { OnOk result (world.new.topology ≡ world.old.topology) }
    ensures refused { result ≡ Err (StepError.Fault StepFault.NotEnabled) →
        CannotHappen world.old.topology.switches packets.now order world.old }
{
    match order {
        ScheduleStep::Settle => world.settle(alloc, events)?,
        ScheduleStep::Flow => world.flow(alloc, events)?,
        _ => {
            let named = event_of(alloc, world.topology(), packets, order)?;
            let Some(event) = named else {
                return Err(StepError::Fault(StepFault::NotEnabled));
            };
            events.reserve()?;
            world.step(alloc, &event)?;
            events.push_reserved(event);
        }
    }
    Ok(())
}

// The event that an order names.
fn event_of(
    alloc: Global,
    topology: &Topology,
    packets: &[PacketLine],
    order: ScheduleStep,
) -> Result<Option<Event>, AllocError>
    ensures { IfOk result (λ e. e ≡ event_of topology.now.switches packets.now order) }
{
    match order {
        ScheduleStep::Arrive(number) => arrival(alloc, packets, number),
        _ => Ok(event_without(topology, order)),
    }
}

// The arrival of the packet of a line, by its number from 1.
fn arrival(
    alloc: Global,
    packets: &[PacketLine],
    number: usize,
) -> Result<Option<Event>, AllocError>
    ensures { IfOk result (λ e. e ≡ option_map arrive (slice_get packets.now (number - 1))) }
{
    match packets.get(number.saturating_sub(1)) {
        Some(line) => Ok(Some(Event::arrival(alloc, line.packet, line.tag)?)),
        None => Ok(None),
    }
}

// The event that an order names if there are no packet lines.
fn event_without(topology: &Topology, order: ScheduleStep) -> Option<Event>
    ensures { result ≡ event_of topology.now.switches [] order }
{
    match order {
        ScheduleStep::Begin => Some(Event::Controller(ControllerEvent::Begin)),
        ScheduleStep::Send(sw) => Some(Event::Controller(ControllerEvent::Send(topology.place(
            sw,
        )?))),
        ScheduleStep::Take(sw) => Some(Event::Switch(SwitchEvent::Take(topology.place(sw)?))),
        ScheduleStep::Apply(sw, pending) => Some(Event::Switch(SwitchEvent::Apply(
            topology.place(sw)?,
            pending as usize,
        ))),
        ScheduleStep::Reply(sw) => Some(Event::Switch(SwitchEvent::Reply(topology.place(sw)?))),
        ScheduleStep::Heard(sw) => Some(Event::Controller(ControllerEvent::Heard(topology.place(
            sw,
        )?))),
        ScheduleStep::Hop(copy) => Some(Event::Packet(PacketEvent::Hop(copy as usize))),
        ScheduleStep::Drained(stamp) => Some(Event::Controller(ControllerEvent::Drained(stamp))),
        ScheduleStep::Lost(sw) => Some(Event::Controller(ControllerEvent::Lost(topology.place(
            sw,
        )?))),
        ScheduleStep::Rejoin(sw) => Some(Event::Controller(ControllerEvent::Rejoin(topology.place(
            sw,
        )?))),
        ScheduleStep::Stuck(copy) => Some(Event::Packet(PacketEvent::Stuck(copy as usize))),
        ScheduleStep::Arrive(_) | ScheduleStep::Settle | ScheduleStep::Flow => None,
    }
}
