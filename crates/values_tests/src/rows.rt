//! Rows and flow mods, copied.
//!
//! Layer: tests; private. Its tests are run by `rt test`.
use nk_values::{
    ANY_PORT, Action, Actions, Band, Duplicate, FlowCommand, FlowMod, Pattern, PortKind, PortLists,
    PortRows, RowList, Rows,
};
use std::alloc::{AllocError, Global};
use std::test::Fail;

// An addition with one output.
fn change() -> FlowMod {
    FlowMod {
        command: FlowCommand::Add,
        pattern: Pattern::any(),
        priority: 7,
        out_port: ANY_PORT,
        actions: Actions::one(Action::Output(2)),
    }
}

// The rows of one port, with the row of a copied flow mod.
fn rows(alloc: Global) -> Result<Rows, AllocError> {
    let mut list = RowList::new(alloc);
    list.push(change().copy(alloc)?.row()?)?;
    let mut ports = PortLists::new(alloc);
    ports.push(PortRows {
        sw: 1,
        pt: 2,
        kind: PortKind::Edge,
        rows: list,
    })?;
    Ok(Rows {
        stamp: 5,
        band: Band::High,
        ports,
    })
}

#[test]
fn copies(rt: HostRuntime) -> Result<(), Fail> {
    let copy = rows(rt.alloc())?.copy(rt.alloc())?;
    assert_eq!(rt; (copy.stamp, copy.band), (5, Band::High));
    assert_eq!(rt; copy.ports.len(), 1);
    let port = &copy.ports.as_slice()[0];
    assert_eq!(rt; (port.sw, port.pt, port.kind), (1, 2, PortKind::Edge));
    assert_eq!(rt; port.rows.len(), 1);
    let row = &port.rows.as_slice()[0];
    assert_eq!(rt; row.priority, 7);
    assert_eq!(rt; row.actions.as_slice(), [Action::Output(2)].as_slice());
    Ok(())
}
