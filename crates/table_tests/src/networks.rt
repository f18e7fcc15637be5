//! Small networks.
//!
//! Layer: tests; private. Called by `hops`.
use std::alloc::Global;
use std::process::Abort;
use topology_model::{PortRef, Ports, TopoLine, Topology};

/// Switches with their ports, and links.
#[derive(Clone, Copy)]
pub struct Net<'a> {
    pub switches: &'a [(u16, &'a [u16])],
    pub links: &'a [(PortRef, PortRef)],
}

fn lines(alloc: Global, net: Net) -> Option<Vec<TopoLine>> {
    let mut lines = Vec::new(alloc);
    for (sw, ports) in net.switches {
        let ports = Ports::of(ports.to_vec(alloc).ok()?);
        lines.push(TopoLine::Switch { sw: *sw, ports }).ok()?;
    }
    for (a, b) in net.links {
        lines.push(TopoLine::Link { a: *a, b: *b }).ok()?;
    }
    Some(lines)
}

pub fn topology(rt: &impl Abort, alloc: Global, net: Net) -> Option<Topology> {
    let lines = lines(alloc, net)?;
    assert!(rt; lines.iter().all(|line| line.is_in_range()));
    Topology::build(alloc, &lines).ok()
}
