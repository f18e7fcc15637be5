//! Actions that rows share.
//!
//! Layer: tests; private. Its tests are run by `rt test`.
use crate::actions::{are, edge, leaving};
use fdd_nodes::Path;
use leaf_actions::{ActionsError, SharedActions, actions, are_settable};
use nk_values::{Action, Actions, GREATEST_VLAN_ID};
use std::alloc::Global;
use std::test::Fail;

// The actions of a packet that leaves an edge port by the link, beside some that were made before.
fn stamped(alloc: Global, stamp: u16, shared: &SharedActions) -> Result<Actions, ActionsError> {
    let (Some(leaf), Some(mut view)) = (leaving(alloc, 2), edge(alloc)) else {
        return Err(ActionsError::Memory);
    };
    view.stamp = stamp;
    if !are_settable(&leaf) || stamp < 1 || stamp > GREATEST_VLAN_ID {
        return Err(ActionsError::Memory);
    }
    actions(alloc, Path::new(alloc).cell(), &leaf, &view, shared)
}

#[test]
fn only_equal_lists_are_shared(rt: HostRuntime) -> Result<(), Fail> {
    let alloc = rt.alloc();
    let Ok(shared) = SharedActions::new(alloc) else {
        return Err(Fail::from("memory ran out"));
    };
    for stamp in [7, 7, 8, 7] {
        let made = stamped(alloc, stamp, &shared);
        assert!(rt; are(made, &[Action::SetVlanVid(stamp), Action::Output(2)]));
    }
    Ok(())
}
