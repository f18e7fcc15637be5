//! Laws of the controller's part of the world, each the contract of a call that does nothing.
//!
//! Layer: laws alone; public. No crate here calls it.
ghost use Rattle.drive_laws.specs.Laws.{RunsAreDriven, SteeringIsEnabled};

use world_core::switches_follow;

/// What the controller does in a run of the world without foreign bytes and without a report of a stuck copy is a run
/// of the controller alone, with the same coordinator. The run begins in a world in which the first loss halts it.
pub fn runs_are_driven()
    ensures { RunsAreDriven }
{}

/// What the controller alone can do next can happen in the world too, and leads to the same coordinator there. A
/// message is the front of its channel, no copy carries the stamp of a drain, and the first loss halts the world.
pub fn steering_is_enabled()
    ensures { SteeringIsEnabled }
{
    switches_follow();
}
