//! Laws of runs of the world, each the contract of a call that does nothing.
//!
//! Layer: laws alone; public. No crate here calls it.
ghost use Rattle.run_laws.specs.Laws.{CopiesCarry, HaltsExactly, HaltsTell, OnlyRefused};

use world_core::{halts_stay, has_room, losses_count};

/// In every world that events lead to from a start of accepted policies, all copies of a packet carry one stamp. It is
/// that of the policy that was current when the packet came in, or of the one that was coming in. Copies may carry it
/// in the phase of the world, and the history of each begins with the packet.
pub fn copies_carry()
    ensures { CopiesCarry }
{}

/// These halt the updates, and no other event does: a lost session beyond those allowed, a message that fails a
/// session, a stuck copy, foreign bytes. If the updates have halted after some events, one of these is such an event,
/// for the cause that is told. In a run from a start of accepted policies a session fails only by the error of a full
/// table. Without overlap it fails by none if switches have room for 130,000 rows.
pub fn halts_tell()
    ensures exactly { HaltsExactly }
    ensures runs { HaltsTell }
    ensures refused { OnlyRefused }
{
    halts_stay();
    losses_count();
    has_room();
}
