//! The order of a port's rows by a destination: where a search for the first row that hits may begin. `ordered` asks
//! it.
//!
//! Layer: rows and packets; private. Called by `ordered`.
ghost use Rattle.std.specs.Prelude.{◌≡◌, List, IfOk, length};
ghost use Rattle.nk_values.specs.declared.row.Row.{Row as RowValue};
ghost use Rattle.packet_tracer.specs.Orders.{fixed, whole, number_in, AreLeading, IsOrder, IsStart};

use nk_values::{Header, Pattern, Prefix, Row};
use std::alloc::{AllocError, Global};

/// A destination that rows fix: that of the frame, or that of the network.
#[derive(Clone, Copy, Debug, PartialEq, Eq)]
pub(crate) enum Destination {
    Frame,
    Network,
}

/// The numbers that the leading rows of a port fix one destination to, for as many rows as fix it and ascend.
#[derive(Drop)]
pub(crate) struct Order {
    destination: Destination,
    numbers: Vec<u64>,
}

impl Order {
    /// That of some rows.
    pub(crate) fn new(alloc: Global, rows: &[Row]) -> Result<Order, AllocError>
        ensures { IfOk result (IsOrder rows.now) }
    {
        let frames = leading(alloc, Destination::Frame, rows)?;
        if !frames.is_empty() {
            return Ok(Order {
                destination: Destination::Frame,
                numbers: frames,
            });
        }
        Ok(Order {
            destination: Destination::Network,
            numbers: leading(alloc, Destination::Network, rows)?,
        })
    }

    /// A place before which no row hits a packet with this header.
    pub(crate) fn start(&self, header: &Header) -> usize
        ensures { (rows : List RowValue) → IsOrder rows self.now → IsStart rows header.now result }
    {
        let number = number_in(self.destination, header);
        let start = self.numbers.partition_point(|other| *other < number);
        match self.numbers.get(start) {
            Some(other) if *other != number => self.numbers.len(),
            _ => start,
        }
    }
}

// The numbers of the leading rows that fix a destination, for as many as ascend.
fn leading(alloc: Global, destination: Destination, rows: &[Row]) -> Result<Vec<u64>, AllocError>
    ensures { IfOk result (λ v. AreLeading destination rows.now v.items) }
{
    let mut numbers = Vec::new(alloc);
    let mut last = 0;
    for row in rows {
        match fixed(destination, &row.pattern) {
            Some(number) if last <= number => {
                numbers.push(number)?;
                last = number;
            }
            _ => return Ok(numbers),
        }
    }
    Ok(numbers)
}

// The number that a pattern fixes a destination to, if it leaves nothing of it open.
fn fixed(destination: Destination, pattern: &Pattern) -> Option<u64>
    ensures { result ≡ fixed destination pattern.now }
{
    match destination {
        Destination::Frame => pattern.dl_dst.get(),
        Destination::Network => whole(pattern.nw_dst.get()),
    }
}

// An address of which all bits are fixed.
fn whole(prefix: Option<Prefix>) -> Option<u64>
    ensures { result ≡ whole prefix }
{
    match prefix {
        Some(prefix) if prefix.length == 32 => Some(u64::from(prefix.address)),
        _ => None,
    }
}

// A packet's destination.
fn number_in(destination: Destination, header: &Header) -> u64
    ensures { result ≡ number_in destination header.now }
{
    match destination {
        Destination::Frame => header.eth_dst,
        Destination::Network => header.ip4_dst,
    }
}
