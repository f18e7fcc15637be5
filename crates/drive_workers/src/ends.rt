//! The ends of a drive.
//!
//! Layer: switches outside; public. Called by `over`.
ghost use Rattle.std.specs.Prelude.{◌≡◌, ◌+◌, vec_len, IfOk, min};
ghost use Rattle.outside_net.specs.Causes.{NetCause};
ghost use Rattle.drive_workers.specs.Ends.{AreEnds};

use outside_net::{Net, NetError};
use std::alloc::Global;

/// The port of a place: as many ports after the first one, and 65,535 if there is no such port. A net cannot open a
/// port twice, so it counts a fault if several places come to the last one.
pub fn port_at(first: u16, place: u32) -> u16
    ensures { result ≡ min (first + place) 65535 }
{
    let port = u64::from(first) + u64::from(place);
    port.min(65535) as u16
}

/// Ends in the order of their places, 0 to `count` - 1, each named by its place and met at its port. Nothing has gone
/// over them.
pub fn meet_ends<N: Net>(
    alloc: Global,
    net: &mut N,
    first: u16,
    count: u32,
) -> Result<Vec<N::End>, NetError>
    ensures ends { IfOk result (λ es. AreEnds N.End.named N.End.received es.items) }
    ensures count { IfOk result (λ es. vec_len es ≡ count) }
    ensures broken { N.broken net.new ≡ N.broken net.old }
    ensures cause { NetCause (N.faults net.old) (N.faults net.new) result }
{
    let mut ends = Vec::new(alloc);
    for place in 0..count {
        let end = net.meet(port_at(first, place), place)?;
        let Ok(()) = ends.push(end) else {
            return Err(NetError::Memory);
        };
    }
    Ok(ends)
}
