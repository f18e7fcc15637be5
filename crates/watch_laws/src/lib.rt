//! Laws of what a run posts on a board. No code.
//!
//! Layer: laws alone. The root of the crate, which no code calls.
#![tactic(auto)]

ghost use Rattle.watch_laws.specs.Laws.{PostsStay, StandIsPost};

/// What is a post of a run stays one when the run goes on.
pub fn posts_stay()
    ensures { PostsStay }
{}

/// Where a run stands is a post of it.
pub fn a_stand_is_a_post()
    ensures { StandIsPost }
{}
