//! A topology of a few lines.
//!
//! Layer: tests; private. Its tests are run by `rt test`.
use nk_syntax::{Pol, Pols};
use std::alloc::{AllocError, Global};
use std::process::Abort;
use std::test::Fail;
use topology_model::{PortRef, Ports, TopoError, TopoLine, Topology};

// Switches with their ports, and then links.
fn lines(
    alloc: Global,
    switches: &[(u16, &[u16])],
    links: &[(PortRef, PortRef)],
) -> Result<Vec<TopoLine>, AllocError> {
    let mut lines = Vec::new(alloc);
    for (sw, ports) in switches {
        let ports = Ports::of(ports.to_vec(alloc)?);
        lines.push(TopoLine::Switch { sw: *sw, ports })?;
    }
    for (a, b) in links {
        lines.push(TopoLine::Link { a: *a, b: *b })?;
    }
    Ok(lines)
}

fn built(rt: &impl Abort, alloc: Global, lines: &[TopoLine]) -> Result<Topology, TopoError> {
    assert!(rt; lines.iter().all(|line| line.is_in_range()));
    Topology::build(alloc, lines)
}

// How many members a sum has, 0 for out of memory.
fn members(term: Result<Pol, AllocError>) -> usize {
    match term {
        Ok(Pol::Sum(Pols { items })) => items.len(),
        _ => 0,
    }
}

fn two(rt: &impl Abort, alloc: Global) -> Result<Topology, TopoError> {
    let lines = lines(alloc, &[(1, &[1, 2]), (2, &[9, 1])], &[((1, 2), (2, 1))])?;
    built(rt, alloc, &lines)
}

// A port, the far end of its link, 0 for none, and whether it is declared and an edge port.
const PORTS: [(u16, u16, u16, u16, bool, bool); 6] = [
    (1, 1, 0, 0, true, true),
    (1, 2, 2, 1, true, false),
    (2, 1, 1, 2, true, false),
    (2, 9, 0, 0, true, true),
    (2, 2, 0, 0, false, false),
    (3, 1, 0, 0, false, false),
];

#[test]
fn looks_up(rt: HostRuntime) -> Result<(), Fail> {
    let topology = two(&rt, rt.alloc())?;
    for (sw, pt, far_sw, far_pt, live, edge) in PORTS {
        let far = topology.far_end(sw, pt).unwrap_or((0, 0));
        assert!(rt; far.0 == far_sw && far.1 == far_pt);
        assert!(rt; topology.is_live(sw, pt) == live);
        assert!(rt; topology.is_edge(sw, pt) == edge);
    }
    for (sw, place) in [(1, 0), (2, 1), (3, 9)] {
        assert!(rt; topology.place(sw).unwrap_or(9) == place);
    }
    Ok(())
}

#[test]
fn lists(rt: HostRuntime) -> Result<(), Fail> {
    let topology = two(&rt, rt.alloc())?;
    assert!(rt; topology.switches().len() == 2);
    assert_eq!(rt; topology.ports_of(1), [9, 1].as_slice());
    assert!(rt; topology.ports_before(0) == 0 && topology.ports_before(1) == 2);
    assert_eq!(rt; topology.links(), [((1, 2), (2, 1))].as_slice());
    assert_eq!(rt; topology.edges(), [(1, 1), (2, 9)].as_slice());
    Ok(())
}

#[test]
fn terms(rt: HostRuntime) -> Result<(), Fail> {
    let topology = two(&rt, rt.alloc())?;
    assert!(rt; members(topology.link_term(rt.alloc())) == 2);
    assert!(rt; members(topology.enter_term(rt.alloc())) == 2);
    assert!(rt; members(topology.leave_term(rt.alloc())) == 2);
    Ok(())
}
