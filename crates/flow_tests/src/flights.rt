//! Copies in flight at three switches: which is the k-th, and new numbers for all.
//!
//! Layer: tests; private. Its tests are run by `rt test`.
use flight_queues::Flights;
use nk_values::{Header, History, Packet, Tag};
use packet_tracer::Flight;
use std::alloc::{AllocError, Global};
use std::test::Fail;

const HEADER: Header = Header {
    eth_typ: 2048,
    ip_proto: 6,
    eth_src: 1,
    eth_dst: 2,
    ip4_src: 0x0a00_0001,
    ip4_dst: 0x0a01_0203,
    tcp_src_port: 80,
    tcp_dst_port: 443,
};

// A copy that came to a switch, told apart by the number of its arrival.
fn copy(alloc: Global, sw: u64, arrival: usize) -> Flight {
    let packet = Packet {
        sw,
        pt: 1,
        header: HEADER,
    };
    Flight {
        history: History::new(packet),
        tag: Tag::none(),
        hops: 0,
        arrival,
    }
}

// Copies that came to these switches, with arrivals from 0 on, the first of them with this number.
fn sent(alloc: Global, first: u64, switches: &[u64]) -> Result<Flights, AllocError> {
    let mut flights = Flights::starting_at(alloc, first);
    for (arrival, sw) in switches.iter().enumerate() {
        flights.append(vec![in alloc; copy(alloc, *sw, arrival)]?)?;
    }
    Ok(flights)
}

// The copy at a place goes on to a switch, with another arrival; nothing where there is none.
fn hop(
    alloc: Global,
    flights: &mut Flights,
    place: usize,
    (sw, arrival): (u64, usize),
) -> Result<(), AllocError> {
    if place < flights.len() {
        flights.replace(place, vec![in alloc; copy(alloc, sw, arrival)]?)?;
    }
    Ok(())
}

// The arrivals of all copies, in order.
fn order(alloc: Global, flights: &Flights) -> Result<Vec<usize>, AllocError> {
    flights.iter().map(|flight| flight.arrival).collect(alloc)
}

// The arrivals of the copies at a switch, in order.
fn at(alloc: Global, flights: &Flights, sw: u64) -> Result<Vec<usize>, AllocError> {
    let mut arrivals = Vec::new(alloc);
    let Some(queue) = flights.queue(sw) else {
        return Ok(arrivals);
    };
    for place in 0..queue.len() {
        if let Some(numbered) = queue.get(place) {
            arrivals.push(numbered.flight.arrival)?;
        }
    }
    Ok(arrivals)
}

// Two hops from the midst: the order before and after them, and the queues of switches 1 to 4 then.
fn hops(alloc: Global, first: u64) -> Result<Vec<Vec<usize>>, AllocError> {
    let mut flights = sent(alloc, first, &[1, 2, 1, 3, 2, 1])?;
    let before = order(alloc, &flights)?;
    hop(alloc, &mut flights, 2, (3, 8))?;
    hop(alloc, &mut flights, 3, (1, 9))?;
    Ok(vec![in alloc;
        before,
        order(alloc, &flights)?,
        at(alloc, &flights, 1)?,
        at(alloc, &flights, 2)?,
        at(alloc, &flights, 3)?,
        at(alloc, &flights, 4)?,
    ]?)
}

// Whether the lists are those of two hops.
fn are_hops(lists: &[Vec<usize>]) -> bool {
    let wanted: [&[usize]; 6] = [
        &[0, 1, 2, 3, 4, 5],
        &[0, 1, 3, 5, 8, 9],
        &[0, 5, 9],
        &[1],
        &[3, 8],
        &[],
    ];
    lists.len() == wanted.len()
        && lists
            .iter()
            .zip(wanted)
            .all(|(list, other)| list.as_slice() == other)
}

#[test]
fn hops_from_the_midst(rt: HostRuntime) -> Result<(), Fail> {
    assert!(rt; are_hops(&hops(rt.alloc(), 0)?));
    Ok(())
}

// All get new numbers before the first copy, before each of the others, and before each hop.
#[test]
fn hops_past_the_greatest_number(rt: HostRuntime) -> Result<(), Fail> {
    for less in 0..9 {
        assert!(rt; are_hops(&hops(rt.alloc(), u64::MAX - less)?));
    }
    Ok(())
}
