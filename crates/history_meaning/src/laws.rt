//! Laws of the meaning, each the contract of a call that does nothing.
//!
//! Layer: values and policies; public. No crate here calls it.
ghost use Rattle.history_meaning.specs.Laws.{FlatRenewsTheNewest, FuturesGoOn, MoreIterationsMoreHistories};

/// One more iteration of each star gives no fewer histories, so a result under some number of iterations is one
/// under every greater number.
pub fn more_iterations_more_histories()
    ensures { MoreIterationsMoreHistories }
{}

/// A policy without `dup` renews the newest packet of a history, by that packet alone.
pub fn flat_renews_the_newest()
    ensures { FlatRenewsTheNewest }
{}

/// Each future of a copy has the copy's history as its past, whatever the policy: a hop only adds packets.
pub fn futures_go_on()
    ensures { FuturesGoOn }
{}
