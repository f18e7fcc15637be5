//! What happens to one switch among all of them, and to all as a phase begins.
//!
//! Layer: updates; private. Called by `inbound` and `outbound`.
ghost use Rattle.std.specs.Prelude.{◌≡◌, ◌+◌, ◌<◌, ◌^◌, true, false, length, map, IfNone, IfSome, Some, slice_get};
ghost use Rattle.openflow_wire.specs.Writing.{Fits};
ghost use Rattle.update_coordinator.specs.Controls as control;
ghost use Rattle.update_coordinator.specs.Controls.{Change, begun_peer};
ghost use Rattle.update_coordinator.specs.Peers.{HearsAt, SendsAt, LosesAt, ReturnsAt, GreetsAt, FencesAt};

use crate::peer::Peer;
use nk_values::FlowMod;
use openflow_wire::Message;
use session_core::Move;

// A phase begins, which has a batch or none.
pub(crate) fn begin_phases(peers: &mut [Peer], works: bool)
    ensures { peers.new ≡ map (begun_peer works) peers.old }
{
    for peer in peers.iter_mut() {
        peer.begin_phase(works);
    }
}

// Takes a message of the switch at a place.
pub(crate) fn hear(peers: &mut [Peer], place: usize, message: &Message, due: bool) -> Move
    requires within { place < length peers.old }
    requires there { (s : control.Peer) → slice_get peers.old place ≡ Some s → s.away ≡ false }
    ensures { HearsAt place message.now due result peers.old peers.new }
{
    peers[place].heard(message, due)
}

// The session with the switch at a place is lost.
pub(crate) fn lose(peers: &mut [Peer], place: usize)
    requires within { place < length peers.old }
    requires few { (s : control.Peer) → slice_get peers.old place ≡ Some s → s.losses < 1000 }
    ensures { LosesAt place peers.old peers.new }
{
    peers[place].lose();
}

// The switch at a place is there again.
pub(crate) fn come_back(peers: &mut [Peer], place: usize)
    requires within { place < length peers.old }
    requires away { (s : control.Peer) → slice_get peers.old place ≡ Some s → s.away ≡ true }
    ensures { ReturnsAt place peers.old peers.new }
{
    peers[place].come_back();
}

// HELLO or the request for the features goes to the switch at a place, where they come first.
pub(crate) fn greet(peers: &mut [Peer], place: usize) -> Option<Message>
    requires within { place < length peers.old }
    requires small { (s : control.Peer) → slice_get peers.old place ≡ Some s → s.sent + 1 < 2 ^ 32 }
    ensures none { IfNone result
        ((peers.new ≡ peers.old) ×
        ((s : control.Peer) → slice_get peers.old place ≡ Some s → (s.greets ≡ false) × (s.asks ≡ false))) }
    ensures some { IfSome result (GreetsAt place peers.old peers.new) }
    ensures fits { IfSome result Fits }
{
    peers[place].greet()
}

// A flow mod goes to the switch at a place.
pub(crate) fn change(peers: &mut [Peer], place: usize, change: FlowMod) -> Message
    requires within { place < length peers.old }
    requires small { (s : control.Peer) → slice_get peers.old place ≡ Some s → (s.sent + 1 < 2 ^ 32) ×
        (s.next < 130000) }
    ensures { SendsAt place (Change change) peers.old peers.new result }
{
    peers[place].change(change)
}

// The barrier that ends the batch goes to the switch at a place.
pub(crate) fn fence(peers: &mut [Peer], place: usize) -> u32
    requires within { place < length peers.old }
    requires small { (s : control.Peer) → slice_get peers.old place ≡ Some s → (s.sent + 1 < 2 ^ 32) ×
        (s.sends ≡ true) }
    ensures { FencesAt place peers.old peers.new result }
{
    peers[place].fence()
}
