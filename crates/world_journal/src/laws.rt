//! Laws of the answers of a run, each the contract of a call that does nothing.
//!
//! Layer: runs; public. No crate here calls it.
ghost use Rattle.world_journal.specs.Laws.{HelloWaits, SentIsPut};

use outside_net::Link;

/// What a session sends, and what a switch answers to a barrier, is always put on the channel: so it is handed out
/// with that step, or waits.
pub fn sent_is_put()
    ensures { SentIsPut }
{}

/// At the start the HELLO of each switch waits: it is the first message that the switch is given to send.
pub fn hello_waits<E: Link>()
    ensures { HelloWaits E }
{}
