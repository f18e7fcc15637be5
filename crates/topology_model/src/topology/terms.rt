//! The terms of a topology: its links, and how packets enter and leave.
//!
//! Layer: values and policies; private. Adds calls to `Topology`.
ghost use Rattle.std.specs.Prelude.{◌≡◌, ◌<◌, IfOk};
ghost use Rattle.nk_syntax.specs.Views.{term_of};
ghost use Rattle.history_meaning.specs.Network.{link_term, edge_term};
ghost use Rattle.topology_model.specs.Layouts.{wiring};

use super::Topology;
use crate::terms::{going, standing_at};
use nk_syntax::{Pol, Pols};
use std::alloc::{AllocError, Global};

impl Topology {
    /// The links as a policy: the sum of `sw=a; pt=b; sw:=c; pt:=d` over both directions of each link
    /// (POPL 2014, section 2).
    pub fn link_term(&self, alloc: Global) -> Result<Pol, AllocError>
        ensures { IfOk result (λ p. term_of p ≡ link_term (wiring self.now)) }
    {
        let mut items = Vec::new(alloc);
        for (a, b) in self.draft.links() {
            items.push(going(alloc, *a, *b)?)?;
            items.push(going(alloc, *b, *a)?)?;
        }
        Ok(Pol::Sum(Pols { items }))
    }

    /// The sum of `sw=a; pt=b` over the edge ports: a packet enters the network.
    pub fn enter_term(&self, alloc: Global) -> Result<Pol, AllocError>
        ensures { IfOk result (λ p. term_of p ≡ edge_term (wiring self.now)) }
    {
        let mut items = Vec::new(alloc);
        for end in &self.edges {
            items.push(standing_at(alloc, *end)?)?;
        }
        Ok(Pol::Sum(Pols { items }))
    }

    /// The same sum: a packet leaves the network.
    pub fn leave_term(&self, alloc: Global) -> Result<Pol, AllocError>
        ensures { IfOk result (λ p. term_of p ≡ edge_term (wiring self.now)) }
    {
        self.enter_term(alloc)
    }
}
