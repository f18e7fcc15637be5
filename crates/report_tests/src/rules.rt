//! The text of rows.
//!
//! Layer: tests; private. Called by `worlds`.
use nk_syntax::{Pol, Pred};
use nk_values::{
    Action, Actions, Band, List, Pattern, PortKind, PortLists, PortRows, Row, RowList, Rows,
    UNTAGGED,
};
use policy_rows::{Intent, Version};
use report_text::{Text, rules_text};
use std::alloc::{AllocError, Global};
use std::process::Abort;
use std::test::Fail;
use topology_model::{PortRef, Ports, TopoError, TopoLine, Topology};

const RULES: &str =
    "policy 1 stamp 1 band high\nswitch 1\n36000 in=1 vlan=none : vlan 1, output 2\n56000 in=2 vlan=1 : drop\nswitch 2\n56000 in=1 vlan=1 : strip, output 2\n36000 in=2 vlan=none : drop\npolicy 2 stamp 1 band low\nswitch 1\nswitch 2\n16000 in=1 vlan=none ethTyp=0x0800 ipProto=6 tcpDstPort=80 : output 2, set ethDst 00:00:00:00:00:05, set ip4Src 10.0.0.1, output 3\n";

// Puts a switch with ports 1 and 2 at the end.
fn push_switch(alloc: Global, lines: &mut Vec<TopoLine>, sw: u16) -> Result<(), AllocError> {
    let ports = Ports::of(vec![in alloc; 1, 2]?);
    lines.push(TopoLine::Switch { sw, ports })?;
    Ok(())
}

// Switches from 1 on with ports 1 and 2.
fn push_switches(
    alloc: Global,
    lines: &mut Vec<TopoLine>,
    switches: u16,
) -> Result<(), AllocError> {
    for place in 0..switches {
        push_switch(alloc, lines, place.saturating_add(1))?;
    }
    Ok(())
}

/// Switches from 1 on with ports 1 and 2, and no links.
pub(crate) fn topology(
    rt: &impl Abort,
    alloc: Global,
    switches: u16,
) -> Result<Topology, TopoError> {
    let mut lines = Vec::new(alloc);
    push_switches(alloc, &mut lines, switches)?;
    assert!(rt; lines.iter().all(|line| line.is_in_range()));
    Topology::build(alloc, &lines)
}

// These actions.
fn actions_of(alloc: Global, list: &[Action]) -> Result<Actions, AllocError> {
    let mut actions = List::new(alloc);
    for action in list {
        actions.push(*action)?;
    }
    Actions::of(alloc, actions)
}

// A list of one row.
fn one_row(alloc: Global, row: Row) -> Result<RowList, AllocError> {
    let mut rows = RowList::new(alloc);
    rows.push(row)?;
    Ok(rows)
}

// One row for a port of a switch.
fn add_port(
    alloc: Global,
    ports: &mut PortLists,
    (sw, pt): PortRef,
    (pattern, priority): (Pattern, u16),
    list: &[Action],
) -> Result<(), AllocError> {
    let actions = actions_of(alloc, list)?;
    let row = Row {
        pattern,
        priority,
        actions,
    };
    let rows = one_row(alloc, row)?;
    ports.push(PortRows {
        sw,
        pt,
        kind: PortKind::Edge,
        rows,
    })
}

fn version(band: Band, ports: PortLists) -> Version {
    let rows = Rows {
        stamp: 1,
        band,
        ports,
    };
    Version::new(Intent::of(&Pol::Filter(Pred::One)), rows)
}

// The pattern of a port, for packets with this number as dl_vlan.
fn at(port: u16, vlan: u16) -> Pattern {
    Pattern {
        in_port: Some(port),
        dl_vlan: Some(vlan),
        ..Pattern::any()
    }
}

// Rows at two switches that put a stamp on and take it off.
fn add_stamped(alloc: Global, ports: &mut PortLists) -> Result<(), AllocError> {
    let sends = [Action::SetVlanVid(1), Action::Output(2)];
    add_port(alloc, ports, (1, 1), (at(1, UNTAGGED), 36000), &sends)?;
    add_port(alloc, ports, (1, 2), (at(2, 1), 56000), &[])?;
    let leaves = [Action::StripVlan, Action::Output(2)];
    add_port(alloc, ports, (2, 1), (at(1, 1), 56000), &leaves)?;
    add_port(alloc, ports, (2, 2), (at(2, UNTAGGED), 36000), &[])
}

// One row that asks for web requests and changes them.
fn add_web(alloc: Global, ports: &mut PortLists) -> Result<(), AllocError> {
    let sets = [
        Action::Output(2),
        Action::SetDlDst(5),
        Action::SetNwSrc(0x0a00_0001),
        Action::Output(3),
    ];
    let tcp = Pattern {
        dl_type: Some(2048),
        nw_proto: Some(6),
        tp_dst: Some(80),
        ..at(1, UNTAGGED)
    };
    add_port(alloc, ports, (2, 1), (tcp, 16000), &sets)
}

fn stamped(alloc: Global) -> Result<Version, AllocError> {
    let mut ports = PortLists::new(alloc);
    add_stamped(alloc, &mut ports)?;
    Ok(version(Band::High, ports))
}

fn web(alloc: Global) -> Result<Version, AllocError> {
    let mut ports = PortLists::new(alloc);
    add_web(alloc, &mut ports)?;
    Ok(version(Band::Low, ports))
}

fn push_versions(alloc: Global, versions: &mut Vec<Version>) -> Result<(), AllocError> {
    versions.push(stamped(alloc)?)?;
    versions.push(web(alloc)?)?;
    Ok(())
}

fn text_of(alloc: Global, two: &Topology) -> Result<Text, AllocError> {
    let mut versions = Vec::new(alloc);
    push_versions(alloc, &mut versions)?;
    rules_text(alloc, &versions, two)
}

// Whether the rows of both policies have this text.
fn tell(rt: &impl Abort, alloc: Global, text: &str) -> Result<bool, TopoError> {
    let two = topology(rt, alloc, 2)?;
    Ok(is(text_of(alloc, &two), text))
}

fn is(told: Result<Text, AllocError>, text: &str) -> bool {
    told.is_ok_and(|told| told.as_str() == text)
}

#[test]
fn rules(rt: HostRuntime) -> Result<(), Fail> {
    assert!(rt; tell(&rt, rt.alloc(), RULES)?);
    Ok(())
}
