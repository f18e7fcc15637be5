//! Copies by the ports at which they leave.
//!
//! Layer: rows and packets; public. Called by many modules. Clauses of workload_laws name it.
ghost use Rattle.std.specs.Prelude.{◌≡◌, IfOk};

use fdd_nodes::Assignments;
use nk_values::PortKind;
use std::alloc::AllocError;
use std::cmp::Ordering;

/// A copy with the declared port by which it leaves: how many header fields it sets that its path does not fix, the
/// port's number and kind, and its assignments. Routes are ordered by the number of fields, the port and the
/// assignments.
#[derive(Drop)]
pub struct Route {
    pub count: u64,
    pub port: u16,
    pub kind: PortKind,
    pub copy: Assignments,
}

impl Route {
    /// The same route again.
    pub fn copy(&self) -> Result<Route, AllocError>
        ensures { IfOk result (λ r. r ≡ self.now) }
    {
        Ok(Route {
            count: self.count,
            port: self.port,
            kind: self.kind,
            copy: self.copy.copy()?,
        })
    }
}

impl PartialEq for Route {
    ghost use Rattle.std.specs.Cmp.{partial_equiv_from_equiv, eq_by_cmp_equiv};
    ghost use Rattle.leaf_actions.specs.Routes.{route_eq};
    ghost use Rattle.leaf_actions.specs.Orders.{route_total};

    ghost eq = { route_eq };

    ghost laws = { partial_equiv_from_equiv (eq_by_cmp_equiv route_total) };

    fn eq(&self, other: &Route) -> bool {
        self.cmp(other) == Ordering::Equal
    }
}

impl Eq for Route {
    ghost use Rattle.std.specs.Cmp.{eq_by_cmp_equiv};
    ghost use Rattle.leaf_actions.specs.Orders.{route_total};

    ghost laws = { eq_by_cmp_equiv route_total };
}

impl Ord for Route {
    ghost use Rattle.std.proofs.Common.{rules};
    ghost use Rattle.std.specs.Cmp.Rules.{comparing};
    ghost use Rattle.leaf_actions.specs.Orders.{route_total};
    ghost use Rattle.leaf_actions.specs.Routes.{route_cmp};

    ghost cmp = { route_cmp };

    ghost total = { route_total };

    ghost matches_partial_cmp = { Prim.search (comparing, rules) };

    ghost matches_eq = { Prim.search (comparing, rules) };

    fn cmp(&self, other: &Route) -> Ordering {
        self.count
            .cmp(&other.count)
            .then(self.port.cmp(&other.port))
            .then(self.copy.cmp(&other.copy))
    }
}

impl PartialOrd for Route {
    ghost use Rattle.std.specs.Cmp.{partial_order_from_total};
    ghost use Rattle.std.specs.Ordering.{as_partial_cmp};
    ghost use Rattle.leaf_actions.specs.Orders.{route_total};
    ghost use Rattle.leaf_actions.specs.Routes.{route_cmp};

    ghost partial_cmp = { as_partial_cmp route_cmp };

    ghost laws = { partial_order_from_total route_total };

    fn partial_cmp(&self, other: &Route) -> Option<Ordering> {
        Some(self.cmp(other))
    }
}
