//! A topology that grows line by line.
//!
//! Layer: values and policies; public. Called by `building` and `topology` here, and by document_text.
ghost use Rattle.std.specs.Prelude.{◌≡◌, ◌&&◌, ◌++◌, IfOk, OnOk, Option, option_map, not, map, filter};
ghost use Rattle.std.specs.List.{flat_map};
ghost use Rattle.topology_model.specs.Layouts.{location_of, place_in, has_switch, has_port, far_end};
ghost use Rattle.topology_model.specs.Layouts.{is_linked, is_edge, locations_at, edges_of};

use crate::line::{DeclaredSwitch, PortRef};
use std::alloc::{AllocError, Global};
use std::collections::HashMap;
use std::marker::Model;

mod adding;
mod faults;

use adding::copied;

/// How many switches there may be, and how many ports a switch may have.
pub const MOST_SWITCHES: usize = 256;

pub const MOST_PORTS: usize = 256;

/// The switches, ports and links of some lines without a fault. There need be no edge port yet.
#[derive(Drop)]
pub struct Draft {
    // as declared
    switches: Vec<DeclaredSwitch>,
    links: Vec<(PortRef, PortRef)>,
    // where each switch stands in `switches`
    places: HashMap<u16, usize>,
    // the declared ports, each with the far end of its link, if it has one
    far_ends: HashMap<PortRef, Option<PortRef>>,
}

impl Model for Draft {
    ghost use Rattle.topology_model.specs.Layouts.{Layout};

    ghost Value = { Layout };

    ghost use Rattle.topology_model.specs.Drafts.{layout, IsIndexed};

    ghost view = { layout };

    ghost invariant = { IsIndexed };
}

impl Draft {
    ghost use Rattle.topology_model.specs.Layouts.{empty};
    ghost use Rattle.topology_model.specs.Wired.{IsSound};
    ghost use Rattle.topology_model.specs.Layouts.{both_ways};

    /// Nothing declared.
    pub fn new(alloc: Global) -> Draft
        ensures { result ≡ empty }
    {
        Draft {
            switches: Vec::new(alloc),
            links: Vec::new(alloc),
            places: HashMap::new(alloc),
            far_ends: HashMap::new(alloc),
        }
    }

    /// The switches with their ports, in declared order.
    pub fn switches(&self) -> &[DeclaredSwitch]
        ensures { result.now ≡ self.now.switches }
    {
        &self.switches
    }

    /// The links, in declared order.
    pub fn links(&self) -> &[(PortRef, PortRef)]
        ensures { flat_map both_ways result.now ≡ self.now.links }
    {
        &self.links
    }

    /// Where a switch stands among the switches, if it is declared.
    pub fn place(&self, sw: u16) -> Option<usize>
        ensures { result ≡ place_in self.now.switches sw }
    {
        self.places.get(&sw).copied()
    }

    /// Whether a switch is declared.
    pub fn has_switch(&self, sw: u16) -> bool
        ensures { result ≡ has_switch self.now.switches sw }
    {
        self.places.contains_key(&sw)
    }

    /// Whether a port is declared.
    pub fn has_port(&self, end: PortRef) -> bool
        ensures { result ≡ has_port self.now.switches (location_of end) }
    {
        self.far_ends.contains_key(&end)
    }

    /// The other end of a port's link, if it has one.
    pub fn far_end(&self, end: PortRef) -> Option<PortRef>
        ensures { option_map location_of result ≡ far_end self.now.links (location_of end) }
    {
        self.far_ends.get(&end).copied().flatten()
    }

    /// Whether a port is in a link.
    pub fn is_linked(&self, end: PortRef) -> bool
        ensures { result ≡ is_linked self.now (location_of end) }
    {
        self.far_end(end).is_some()
    }

    /// Whether a port is declared and in no link.
    pub fn is_edge(&self, end: PortRef) -> bool
        ensures { result ≡ is_edge self.now (location_of end) }
    {
        self.has_port(end) && !self.is_linked(end)
    }

    /// The declared ports that no link has, in declared order.
    pub fn edges(&self, alloc: Global) -> Result<Vec<PortRef>, AllocError>
        ensures edges { IfOk result (λ v. map location_of v.items ≡ edges_of self.now) }
        ensures sound { IsSound self.now }
    {
        let mut edges = Vec::new(alloc);
        for site in &self.switches {
            self.add_edges(site, &mut edges)?;
        }
        Ok(edges)
    }

    // Puts those of one switch at the end.
    fn add_edges(&self, site: &DeclaredSwitch, edges: &mut Vec<PortRef>) -> Result<(), AllocError>
        ensures { OnOk result (map location_of edges.new.items ≡ map location_of edges.old.items ++ filter
            (λ a. not (is_linked self.now a)) (locations_at site.now)) }
    {
        let ports = site.ports.as_slice();
        for port in ports {
            let end = (site.sw, *port);
            if !self.is_linked(end) {
                edges.push(end)?;
            }
        }
        Ok(())
    }
}

ghost use Rattle.std.specs.Prelude.{◌<◌, ◌+◌, is_some};
ghost use Rattle.std.specs.HashMap.{get};
