//! Ends that a drive gives back.
//!
//! Layer: switches outside; public. Called by `over`.
ghost use Rattle.std.specs.Prelude.{◌≡◌, ◌<◌, ◌≤◌};
ghost use Rattle.nk_values.specs.Members.{IsIn};
ghost use Rattle.outside_io.specs.Causes.{Rose};

use outside_net::Net;

/// Gives ends back to their net, which counts those that had failed.
pub fn take_back<N: Net>(net: &mut N, ends: Vec<N::End>)
    ensures later { N.broken net.old ≤ N.broken net.new }
    ensures broken { (e : N.End) → IsIn ends.items e → 0 < N.End.faults e → Rose (N.broken net.old) (N.broken net.new) }
    ensures faults { N.faults net.new ≡ N.faults net.old }
{
    let mut ends = ends;
    while let Some(end) = ends.pop() {
        net.take_back(end);
    }
}
