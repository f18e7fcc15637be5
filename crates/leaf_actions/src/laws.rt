//! Laws of lists of copies, each the contract of a call that does nothing.
//!
//! Layer: rows and packets; public. No crate here calls it.
ghost use Rattle.leaf_actions.specs.Laws.{ChainsHaveNoFirstPair, ListsExcludeFaults, ListsAreOne};

/// The copies of a leaf form a chain exactly if no first pair of them stands apart.
pub fn chains_have_no_first_pair()
    ensures { ChainsHaveNoFirstPair }
{}

/// Copies that have a list of actions have no first pair that no order makes both.
pub fn lists_exclude_faults()
    ensures { ListsExcludeFaults }
{}

/// The copies of a leaf have one list of actions at most.
pub fn lists_are_one()
    ensures { ListsAreOne }
{}
