//! Topologies.
//!
//! Layer: values and policies; public. Called by many crates.
ghost use Rattle.std.specs.Prelude.{◌≡◌, ◌<◌, ◌↔◌, length, IsTrue, IsSome, IfSome, IsSomeAnd, Some, None, option_map};
ghost use Rattle.std.specs.Prelude.{slice_get, map, take};
ghost use Rattle.std.specs.List.{flat_map};
ghost use Rattle.nk_values.specs.Members.{IsIn};
ghost use Rattle.history_meaning.specs.Network.{Location};
ghost use Rattle.topology_model.specs.Layouts.{location_of, locations_at, both_ways, place_in, has_switch};
ghost use Rattle.topology_model.specs.Layouts.{has_port, far_end, is_edge, wiring};

use crate::draft::Draft;
use crate::line::{DeclaredSwitch, PortRef};
use std::marker::Model;

mod building;
mod terms;

use building::firsts_of;

/// Switches with their ports, and links between ports. Each port lies in at most one link, and some
/// port in none. Clauses see the switches in declared order, and the links in both directions.
pub struct Topology {
    draft: Draft,
    // the ports without a link, in declared order
    edges: Vec<PortRef>,
    // how many ports the switches before each one have
    firsts: Vec<usize>,
}

impl Drop for Topology {
    fn drop(self) {
        let Topology {
            draft: _draft,
            edges: _edges,
            firsts: _firsts,
        } = self;
    }
}

impl Model for Topology {
    ghost use Rattle.topology_model.specs.Layouts.{Layout};

    ghost Value = { Layout };

    ghost use Rattle.topology_model.specs.Topologies.{IsFinished};

    ghost view = { λ t. t.draft };

    ghost invariant = { IsFinished };
}

impl Topology {
    ghost use Rattle.topology_model.specs.Firsts.{HasPortsBehind};
    ghost use Rattle.topology_model.specs.Wired.{IsTopology, IsDeclared, IsWiring};

    /// The switches with their ports, in declared order.
    pub fn switches(&self) -> &[DeclaredSwitch]
        ensures switches { result.now ≡ self.now.switches }
        ensures topology { IsTopology self.now }
    {
        self.draft.switches()
    }

    /// The ports of the switch at a place, in declared order.
    pub fn ports_of(&self, place: usize) -> &[u16]
        requires { place < length self.now.switches }
        ensures { IsSomeAnd (slice_get self.now.switches place) (λ s. result.now ≡ s.ports) }
    {
        self.draft.switches()[place].ports.as_slice()
    }

    /// How many ports the switches before a place have: where the ports of the switch at that place begin among
    /// those of all switches in declared order.
    pub fn ports_before(&self, place: usize) -> usize
        requires { place < length self.now.switches }
        ensures count { result ≡ length (flat_map locations_at (take place self.now.switches)) }
        ensures parts { IsSomeAnd (slice_get self.now.switches place) (λ s. HasPortsBehind self.now s result) }
    {
        self.firsts[place]
    }

    /// The links, in declared order.
    pub fn links(&self) -> &[(PortRef, PortRef)]
        ensures links { flat_map both_ways result.now ≡ (wiring self.now).links }
        ensures wiring { IsWiring (wiring self.now) }
    {
        self.draft.links()
    }

    /// The ports without a link, in declared order.
    pub fn edges(&self) -> &[PortRef]
        ensures edges { map location_of result.now ≡ (wiring self.now).edges }
        ensures wiring { IsWiring (wiring self.now) }
    {
        &self.edges
    }

    /// Where a switch stands among the switches; `None` exactly if it is not declared.
    pub fn place(&self, sw: u16) -> Option<usize>
        ensures value { result ≡ place_in self.now.switches sw }
        ensures declared { IsSome result ↔ IsTrue (has_switch self.now.switches sw) }
        ensures named { IfSome result (λ k. IsSomeAnd (slice_get self.now.switches k) (λ s. s.sw ≡ sw)) }
    {
        self.draft.place(sw)
    }

    /// The other end of a port's link; `None` exactly if no link has it.
    pub fn far_end(&self, sw: u16, pt: u16) -> Option<(u16, u16)>
        ensures value { option_map location_of result ≡ far_end (wiring self.now).links (location_of (sw, pt)) }
        ensures joined { (b : Location) → (option_map location_of result ≡ Some b) ↔
            IsIn (wiring self.now).links (location_of (sw, pt), b) }
        ensures wiring { IsWiring (wiring self.now) }
    {
        self.draft.far_end((sw, pt))
    }

    /// Whether a port is declared and in no link.
    pub fn is_edge(&self, sw: u16, pt: u16) -> bool
        ensures value { result ≡ is_edge self.now (location_of (sw, pt)) }
        ensures edge { IsTrue result ↔ IsIn (wiring self.now).edges (location_of (sw, pt)) }
        ensures wiring { IsWiring (wiring self.now) }
    {
        self.draft.is_edge((sw, pt))
    }

    /// Whether a port is declared.
    pub fn is_live(&self, sw: u16, pt: u16) -> bool
        ensures value { result ≡ has_port self.now.switches (location_of (sw, pt)) }
        ensures declared { IsTrue result ↔ IsDeclared self.now (location_of (sw, pt)) }
    {
        self.draft.has_port((sw, pt))
    }
}

ghost use Rattle.topology_model.specs.declared.line.DeclaredSwitch.{DeclaredSwitch};
