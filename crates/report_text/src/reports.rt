//! The texts of reports.
//!
//! Layer: the program; public. Called by program_answer and report_tests.
ghost use Rattle.std.specs.Prelude.{◌≡◌, ◌++◌, OnOk, IfOk, map, option_map, string_bytes};
ghost use Rattle.report_text.specs.Causes.{state_text};
ghost use Rattle.value_text.specs.Values.{line};
ghost use Rattle.value_text.specs.Traces.{AddsText, AreTexts};
ghost use Rattle.report_text.specs.Reports.{arrival_text, HasFate, IsArrivalText, IsReportText, IsWorldReport};

use crate::causes::{UpdateState, put_entry, put_state};
use crate::copies::open_lines;
use crate::events::put_events;
use flight_queues::Flights;
use std::alloc::{AllocError, Global};
use std::fmt::Write;
use topology_model::DeclaredSwitch;
use value_text::{Text, history_lines, put_lines, put_place, sort_lines};
use world_core::{Arrival, Events, World};

/// How a network stands: its switches, how far the updates are, the copies in flight, and the packets that came in.
#[derive(Clone, Copy)]
pub struct Standing<'a> {
    pub switches: &'a [DeclaredSwitch],
    pub updates: UpdateState<'a>,
    pub flights: &'a Flights,
    pub arrivals: &'a [Arrival],
}

/// The events that were done, in order, and how the network stands then: the phase, the stamps that drain, if any do,
/// and the cause of a halt, if there is one. For each packet that came in, from 1 on, a line `done` follows for each
/// finished history, and then a line `open` for each copy in flight. These lines are sorted by bytes, equal lines once.
/// Events tell a switch by its number, and nothing if none is at their place. A copy of no packet that came in is left
/// out.
pub fn report_text(
    alloc: Global,
    standing: &Standing<'_>,
    events: &Events,
) -> Result<Text, AllocError>
    ensures { IfOk result (λ t. IsReportText standing.now.switches.now events.now.items
        (state_text standing.now.updates.stamps.now standing.now.updates.draining.now standing.now.updates.phase
        (option_map (λ c. c.now) standing.now.updates.halt)) standing.now.flights.now standing.now.arrivals.now t) }
{
    let mut out = String::new(alloc);
    put_events(alloc, &mut out, standing.switches, events)?;
    put_state(alloc, &mut out, standing.updates)?;
    put_arrivals(alloc, &mut out, standing.arrivals, standing.flights)?;
    Ok(Text::new(out))
}

/// The report of a world and of the events that led to it.
pub fn world_report(alloc: Global, world: &World, events: &Events) -> Result<Text, AllocError>
    ensures { IfOk result (λ t. IsWorldReport world.now events.now.items t) }
{
    let coordinator = world.coordinator();
    let standing = Standing {
        switches: world.topology().switches(),
        updates: UpdateState {
            phase: coordinator.phase(),
            stamps: coordinator.stamps(),
            draining: coordinator.draining(),
            halt: coordinator.halt(),
        },
        flights: world.flights(),
        arrivals: world.arrivals(),
    };
    report_text(alloc, &standing, events)
}

// Puts the lines of arrivals at the end.
fn put_arrivals(
    alloc: Global,
    out: &mut String,
    arrivals: &[Arrival],
    flights: &Flights,
) -> Result<(), AllocError>
    ensures { OnOk result (AddsText (AreTexts (IsArrivalText flights.now) 0 arrivals.now) (string_bytes out.old)
        (string_bytes out.new)) }
{
    let mut copies = open_lines(alloc, flights, arrivals.len())?;
    for (before, arrival) in arrivals.iter().enumerate() {
        sort_lines(&mut copies[before])?;
        put_arrival(alloc, out, before as u64 + 1, arrival, &copies[before])?;
    }
    Ok(())
}

// Puts the lines of an arrival at the end.
fn put_arrival(
    alloc: Global,
    out: &mut String,
    number: u64,
    arrival: &Arrival,
    copies: &[String],
) -> Result<(), AllocError>
    ensures { OnOk result (AddsText (HasFate (map string_bytes copies.now) number arrival.now) (string_bytes out.old)
        (string_bytes out.new)) }
{
    let done = history_lines(alloc, "done ", arrival.finished())?;
    put_head(out, number, arrival)?;
    put_lines(out, &done)?;
    put_lines(out, copies)
}

// Puts the line of an arrival at the end.
fn put_head(out: &mut String, number: u64, arrival: &Arrival) -> Result<(), AllocError>
    ensures { OnOk result (string_bytes out.new ≡ string_bytes out.old ++ line (arrival_text number arrival.now)) }
{
    let packet = arrival.packet();
    write!(out, "arrival {number} at ")?;
    put_place(out, packet.sw, packet.pt)?;
    out.push_str(" ")?;
    put_entry(out, arrival.entry())?;
    out.push_str("\n")
}
