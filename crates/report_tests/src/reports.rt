//! The text of reports.
//!
//! Layer: tests; private. Its tests are run by `rt test`.
use crate::histories::{history, packet};
use flight_queues::Flights;
use nk_values::Tag;
use openflow_wire::Octets;
use report_text::{Standing, Text, UpdateState, report_text};
use session_core::SessionFault;
use std::alloc::{AllocError, Global};
use std::test::Fail;
use topology_model::{DeclaredSwitch, Ports};
use update_coordinator::{Cause, Phase, Side};
use world_core::{ControllerEvent, Event, Events, PacketEvent, SwitchEvent};

// Events of each kind at switches 1 and 7.
const CONTROLLER: [ControllerEvent; 6] = [
    ControllerEvent::Begin,
    ControllerEvent::Send(0),
    ControllerEvent::Heard(0),
    ControllerEvent::Drained(1),
    ControllerEvent::Lost(1),
    ControllerEvent::Rejoin(1),
];

const SWITCH: [SwitchEvent; 3] = [
    SwitchEvent::Take(1),
    SwitchEvent::Apply(0, 2),
    SwitchEvent::Reply(1),
];

const EVENTS: &str =
    "e begin\ne send 1\ne heard 1\ne drained 1\ne lost 7\ne rejoin 7\ne take 7\ne apply 1 2\ne reply 7\ne arrive 1:2 vlan=none ethTyp=0x0800 ipProto=0 ethSrc=00:00:00:00:00:00 ethDst=00:00:00:00:00:05 ip4Src=0.0.0.0 ip4Dst=0.0.0.0 tcpSrcPort=0 tcpDstPort=0\ne hop 3\ne stuck 4\ne foreign 1 controller\ne foreign 7 switch\nphase idle 2\n";

// Puts a switch of two ports at the end.
fn push_switch(
    alloc: Global,
    switches: &mut Vec<DeclaredSwitch>,
    sw: u16,
) -> Result<(), AllocError> {
    let ports = Ports::of(vec![in alloc; 1, 2]?);
    switches.push(DeclaredSwitch { sw, ports })?;
    Ok(())
}

// Puts bytes from nobody at the end.
fn push_foreign(
    alloc: Global,
    events: &mut Events,
    place: usize,
    side: Side,
) -> Result<(), AllocError> {
    let came = Octets::from_slice(alloc, &[1, 2])?;
    events.push(Event::Foreign(place, side, came))?;
    Ok(())
}

fn push_events(alloc: Global, events: &mut Events) -> Result<(), AllocError> {
    for event in CONTROLLER {
        events.push(Event::Controller(event))?;
    }
    for event in SWITCH {
        events.push(Event::Switch(event))?;
    }
    events.push(Event::arrival(alloc, packet((1, 2), 5), Tag::none())?)?;
    events.push(Event::Packet(PacketEvent::Hop(3)))?;
    events.push(Event::Packet(PacketEvent::Stuck(4)))?;
    push_foreign(alloc, events, 0, Side::Controller)?;
    push_foreign(alloc, events, 1, Side::Switch)
}

// Whether the text is this one.
fn is(told: Result<Text, AllocError>, text: &str) -> Result<bool, AllocError> {
    Ok(told?.as_str() == text)
}

// The report of these events if no packet came in.
fn report_over(
    alloc: Global,
    switches: &[DeclaredSwitch],
    flights: &Flights,
    (phase, halt): (Phase, Option<&Cause>),
    events: &Events,
) -> Result<Text, AllocError> {
    let standing = Standing {
        switches,
        updates: UpdateState {
            phase,
            stamps: &[],
            draining: &[],
            halt,
        },
        flights,
        arrivals: &[],
    };
    report_text(alloc, &standing, events)
}

// Whether that report is this text.
fn report(
    alloc: Global,
    state: (Phase, Option<&Cause>),
    events: &Events,
    text: &str,
) -> Result<bool, AllocError> {
    let mut switches = Vec::new(alloc);
    push_switch(alloc, &mut switches, 1)?;
    push_switch(alloc, &mut switches, 7)?;
    let flights = Flights::new(alloc);
    is(report_over(alloc, &switches, &flights, state, events), text)
}

// Whether each kind of event is told.
fn tells_events(alloc: Global) -> Result<bool, AllocError> {
    let mut events = Events::new(alloc);
    push_events(alloc, &mut events)?;
    report(alloc, (Phase::Idle(2), None), &events, EVENTS)
}

#[test]
fn events_of_each_kind(rt: HostRuntime) -> Result<(), Fail> {
    assert!(rt; tells_events(rt.alloc())?);
    Ok(())
}

// Whether an update that is halted for this cause is told so.
fn tells(alloc: Global, phase: Phase, cause: Cause, text: &str) -> Result<bool, AllocError> {
    report(alloc, (phase, Some(&cause)), &Events::new(alloc), text)
}

#[test]
fn lost_in_a_flip(rt: HostRuntime) -> Result<(), Fail> {
    let text = "phase flip 2 1\nhalted switch 7 lost\n";
    assert!(rt; tells(rt.alloc(), Phase::Flip(2, 1), Cause::Lost(7), text)?);
    Ok(())
}

// Whether a switch's session that failed is told so.
fn tells_failed(
    alloc: Global,
    phase: Phase,
    (sw, fault): (u16, SessionFault),
    text: &str,
) -> Result<bool, AllocError> {
    tells(alloc, phase, Cause::Failed(sw, fault), text)
}

#[test]
fn failed_sessions(rt: HostRuntime) -> Result<(), Fail> {
    let full = SessionFault::SwitchError { form: 3, code: 0 };
    let text = "phase install 2\nhalted switch 1 error 3 0\n";
    assert!(rt; tells_failed(rt.alloc(), Phase::Install(2), (1, full), text)?);
    let old = SessionFault::Incompatible;
    let text = "phase opening\nhalted switch 1 incompatible\n";
    assert!(rt; tells_failed(rt.alloc(), Phase::Opening, (1, old), text)?);
    let other = SessionFault::WrongSwitch {
        expected: 2,
        got: 3,
    };
    let text = "phase opening\nhalted switch 2 identity 2 3\n";
    assert!(rt; tells_failed(rt.alloc(), Phase::Opening, (2, other), text)?);
    Ok(())
}

// Whether bytes that came to a side of switch 7's channel are told so, where these were due.
fn tells_foreign(
    alloc: Global,
    side: Side,
    expected: Option<Octets>,
    text: &str,
) -> Result<bool, AllocError> {
    let got = Octets::from_slice(alloc, &[0x01, 0x2f])?;
    let cause = Cause::Foreign {
        sw: 7,
        side,
        expected,
        got,
    };
    tells(alloc, Phase::Clean(3), cause, text)
}

#[test]
fn foreign_bytes(rt: HostRuntime) -> Result<(), Fail> {
    let due = Octets::from_slice(rt.alloc(), &[0xab, 0x00])?;
    let text = "phase clean 3\nhalted switch 7 foreign controller ab00 012f\n";
    assert!(rt; tells_foreign(rt.alloc(), Side::Controller, Some(due), text)?);
    let text = "phase clean 3\nhalted switch 7 foreign switch none 012f\n";
    assert!(rt; tells_foreign(rt.alloc(), Side::Switch, None, text)?);
    Ok(())
}

#[test]
fn a_copy_that_goes_round(rt: HostRuntime) -> Result<(), Fail> {
    let past = history(rt.alloc(), &[packet((1, 2), 0), packet((2, 1), 0)])?;
    let text = "phase drain 2\nhalted undrained 1:1>1:2>2:1\n";
    assert!(rt; tells(rt.alloc(), Phase::Drain(2), Cause::Undrained(past), text)?);
    Ok(())
}
