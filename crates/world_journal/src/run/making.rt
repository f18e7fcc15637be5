//! A run before its first step.
//!
//! Layer: runs; private. Adds calls to `Run`.
ghost use Rattle.std.specs.Prelude.{◌≡◌, IfOk, None, replicate, true};

use super::Run;
use crate::held::BookedWorld;
use crate::line::Line;
use crate::name::RunName;
use crate::seat::Seat;
use outside_net::Link;
use std::alloc::{AllocError, Global};

impl<L: RunName, E: Link> Run<L, E> {
    ghost use Rattle.std.specs.Prelude.{◌<◌, [], false, true, IfSome, replicate, length, None, Some};
    ghost use Rattle.world_journal.specs.Journals.{switches};
    ghost use Rattle.world_journal.specs.Runs.{waits};

    /// A run that begins: no packet has come in, and each switch's HELLO waits to be handed out.
    pub fn new(
        alloc: Global,
        held: BookedWorld<L, E>,
        seat: &mut Seat<L>,
        lines: Vec<Line>,
        all: u64,
    ) -> Option<Run<L, E>>
        requires begins { (held.world.arrivals ≡ []) × (held.journal ≡ []) }
        requires lines { lines.items ≡ L.lines }
        requires all { all ≡ L.all }
        ensures held { IfSome result (λ r. r.held ≡ held) }
        ensures back { IfSome result (λ r. (r.back ≡ 0) × (r.closed ≡ false)) }
        ensures waits { IfSome result
            (λ r. (r.to_waits ≡ replicate (switches L.start) false) ×
            (r.back_waits ≡ replicate (switches L.start) true)) }
        ensures arrived { IfSome result (λ r. r.arrived ≡ replicate (length L.lines) false) }
        ensures seat { (seat.new.worker ≡ seat.old.worker) × (seat.new.share.parts ≡ seat.old.share.parts) ×
            (seat.new.share.amount ≡ seat.old.share.amount) }
    {
        let left = lines.len();
        let count = held.switch_count();
        let Ok(arrived) = vec![in alloc; false; left] else {
            return None;
        };
        let Ok(to_waits) = vec![in alloc; false; count] else {
            return None;
        };
        let Ok(back_waits) = vec![in alloc; true; count] else {
            return None;
        };
        let Ok(sessions) = vec![in alloc; 0; count] else {
            return None;
        };
        let Ok(to_told) = vec![in alloc; 0; count] else {
            return None;
        };
        let Ok(back_told) = vec![in alloc; 0; count] else {
            return None;
        };
        let Ok(to_ends) = no_ends(alloc, count) else {
            return None;
        };
        let Ok(back_ends) = no_ends(alloc, count) else {
            return None;
        };
        Some(Run {
            held,
            lines,
            arrived,
            left,
            closed: false,
            laid: seat.nothing(),
            back: 0,
            all,
            to_waits,
            back_waits,
            sessions,
            to_told,
            back_told,
            to_ends,
            back_ends,
        })
    }
}

// A place for a new end of each switch, and none there.
fn no_ends<E: Link>(alloc: Global, count: usize) -> Result<Vec<Option<E>>, AllocError>
    ensures { IfOk result (λ ends. ends.items ≡ replicate count None) }
{
    let mut ends = Vec::new(alloc);
    for _made in 0..count {
        ends.push(None)?;
    }
    Ok(ends)
}
