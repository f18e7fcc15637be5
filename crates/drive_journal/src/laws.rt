//! Laws of a drive, each the contract of a call that does nothing.
//!
//! Layer: switches outside; public. Called by drive_command and drive_workers.
ghost use Rattle.drive_journal.specs.Greetings.{GreetingsAreNoted};
ghost use Rattle.drive_journal.specs.Lasting.{LostIsLast};
ghost use Rattle.drive_journal.specs.Losses.{StartsHaltAtLoss};

/// As long as the coordinator has not halted, a switch has not greeted exactly if the journal has no HELLO of it.
pub fn greetings_are_noted()
    ensures { GreetingsAreNoted }
{}

/// A coordinator halts at the first loss, and has all its sessions, at a start that allows no loss.
pub fn starts_halt_at_loss()
    ensures { StartsHaltAtLoss }
{}

/// A session that is lost is so by the last event of a drive.
pub fn a_lost_session_is_last()
    ensures { LostIsLast }
{}
