//! The rows of a policy as a walk looks them up: with the order of each port's. Who follows packets makes it once.
//!
//! Layer: rows and packets; public. Called by `walking` here, and by plain_commands.
ghost use Rattle.std.specs.Prelude.{◌≡◌, ◌<◌, length, slice_get, IfOk, IsSomeAnd, option_map};
ghost use Rattle.nk_values.specs.Tables.{first};
ghost use Rattle.packet_tracer.specs.Orders.{AreOrders};

use crate::order::Order;
use crate::sending::first_from;
use nk_values::{Header, PortRows, Row, Rows, Tag};
use std::alloc::{AllocError, Global};
use std::marker::Model;

/// The rows of a policy, and where a search for the first one that hits may begin. Clauses see the rows.
#[derive(Drop)]
pub struct OrderedRows<'a> {
    rows: &'a Rows,
    orders: Vec<Order>,
}

impl<'a> Model for OrderedRows<'a> {
    ghost use Rattle.nk_values.specs.declared.rows.Rows.{Rows as RowsValue};
    ghost use Rattle.packet_tracer.specs.Orders.{AreOrders};

    ghost Value = { RowsValue };

    ghost view = { λ r. r.rows.now };

    ghost invariant = { λ r. AreOrders r.rows.now.ports r.orders.items };
}

impl<'a> OrderedRows<'a> {
    /// These rows, with the order of each port's.
    pub fn new(alloc: Global, rows: &'a Rows) -> Result<OrderedRows<'a>, AllocError>
        ensures { IfOk result (λ r. r ≡ rows.now) }
    {
        let orders = orders_of(alloc, rows.ports.as_slice())?;
        Ok(OrderedRows { rows, orders })
    }

    /// The rows, port by port.
    pub(crate) fn ports(&self) -> &[PortRows]
        ensures { result.now ≡ self.now.ports }
    {
        self.rows.ports.as_slice()
    }

    /// The first row of the port at a place that hits a packet there.
    pub(crate) fn first_hit(&self, place: usize, header: &Header, tag: Tag) -> Option<&Row>
        requires { place < length self.now.ports }
        ensures { IsSomeAnd (slice_get self.now.ports place)
            (λ p. option_map (λ r. r.now) result ≡ first (record { port = p.pt; header = header.now; tag = tag })
            p.rows) }
    {
        let port = &self.rows.ports.as_slice()[place];
        let start = self.orders[place].start(header);
        first_from(port.rows.as_slice(), start, port.pt, header, tag)
    }
}

// The order of each port's rows.
fn orders_of(alloc: Global, ports: &[PortRows]) -> Result<Vec<Order>, AllocError>
    ensures { IfOk result (λ v. AreOrders ports.now v.items) }
{
    let mut orders = Vec::with_capacity(alloc, ports.len())?;
    for port in ports {
        orders.push(Order::new(alloc, port.rows.as_slice())?)?;
    }
    Ok(orders)
}
