//! Single hops by a table of one row.
//!
//! Layer: tests; private. Its tests are run by `rt test`.
ghost use Rattle.std.specs.Prelude.{◌≡◌, IfOk};
ghost use Rattle.nk_values.specs.declared.row.Row.{Row};
ghost use Rattle.nk_values.specs.Members.{IsIn};
ghost use Rattle.nk_values.specs.Changes.{row_of};

use crate::networks::{Net, topology};
use flow_index::{ChangeError, Table};
use nk_values::{
    ANY_PORT, Action, Actions, FlowCommand, FlowMod, Header, History, IN_PORT, List, Packet,
    Pattern, Tag, in_range,
};
use packet_tracer::{Flight, HopResult, hop};
use std::alloc::{AllocError, Global};
use std::process::Abort;
use std::test::Fail;
use topology_model::Topology;

// A copy that has just entered at port 1 of switch 1, after some hops.
fn entering(alloc: Global, hops: u64) -> Flight {
    let header = Header {
        eth_typ: 2048,
        ip_proto: 0,
        eth_src: 0,
        eth_dst: 0,
        ip4_src: 0,
        ip4_dst: 0,
        tcp_src_port: 0,
        tcp_dst_port: 0,
    };
    let packet = Packet {
        sw: 1,
        pt: 1,
        header,
    };
    Flight {
        history: History::new(packet),
        tag: Tag::none(),
        hops,
        arrival: 0,
    }
}

// A table of one row, which any packet hits.
fn table(alloc: Global, change: &mut FlowMod) -> Result<Table, ChangeError>
    requires { change.old.command ≡ FlowCommand.Add }
    ensures { IfOk result (λ t. (r : Row) → IsIn t.rows r → r ≡ row_of change.old) }
{
    let mut table = Table::new(alloc, 1);
    table.change(alloc, change)?;
    Ok(table)
}

// A row that sends a packet back as it is, and one with another destination over the link.
fn two_ways(alloc: Global) -> Result<FlowMod, AllocError>
    ensures { IfOk result (λ change. change.command ≡ FlowCommand.Add) }
{
    let mut actions = List::new(alloc);
    actions.push(Action::Output(IN_PORT))?;
    actions.push(Action::SetVlanVid(1))?;
    actions.push(Action::SetDlDst(5))?;
    actions.push(Action::Output(2))?;
    Ok(FlowMod {
        command: FlowCommand::Add,
        pattern: Pattern::any(),
        priority: 1,
        out_port: ANY_PORT,
        actions: Actions::of(alloc, actions)?,
    })
}

// What a table of this row makes of a copy.
fn hopped_by<R: Abort>(
    rt: &R,
    alloc: Global,
    change: &mut FlowMod,
    topology: &Topology,
    flight: &Flight,
) -> Result<HopResult, ChangeError>
    requires { change.old.command ≡ FlowCommand.Add }
{
    let table = table(alloc, change)?;
    assert!(rt; in_range(flight.history.newest()));
    let hopped = hop(alloc, &table, topology, flight)?;
    Ok(hopped)
}

// What it makes of the copy.
fn hopped(rt: &impl Abort, alloc: Global, hops: u64) -> Option<HopResult> {
    let two = Net {
        switches: &[(1, &[1, 2]), (2, &[1, 2])],
        links: &[((1, 2), (2, 1))],
    };
    let topology = topology(rt, alloc, two)?;
    let mut change = two_ways(alloc).ok()?;
    let flight = entering(alloc, hops);
    hopped_by(rt, alloc, &mut change, &topology, &flight).ok()
}

#[test]
fn one_hop(rt: HostRuntime) -> Result<(), Fail> {
    let hopped = hopped(&rt, rt.alloc(), 0).ok_or("a hop")?;
    assert_eq!(rt; (hopped.finished.len(), hopped.flights.len()), (1, 1));
    let back = hopped.finished.first().ok_or("a history")?;
    assert_eq!(rt; (back.newest().sw, back.newest().pt), (1, 1));
    assert_eq!(rt; back.older(rt.alloc())?.len(), 1);
    let flight = hopped.flights.first().ok_or("a copy in flight")?;
    let packet = flight.history.newest();
    assert_eq!(rt; (packet.sw, packet.pt, packet.header.eth_dst), (2, 1, 5));
    assert_eq!(rt; (flight.hops, flight.tag.id()), (1, Some(1)));
    Ok(())
}

#[test]
fn the_count_of_hops_stops(rt: HostRuntime) -> Result<(), Fail> {
    let hopped = hopped(&rt, rt.alloc(), u64::MAX).ok_or("a hop")?;
    let flight = hopped.flights.first().ok_or("a copy in flight")?;
    assert_eq!(rt; flight.hops, u64::MAX);
    Ok(())
}
