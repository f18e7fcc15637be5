//! Modifications and deletions, on a table of two rows.
//!
//! Layer: tests; private. Its tests are run by `rt test`.
use flow_table::{ChangeError, ChangeFault, Table};
use nk_values::{ANY_PORT, Action, Actions, FlowCommand, FlowMod, Pattern, StationMatch};
use std::alloc::Global;

// The pattern of packets that come in by port 1.
fn at() -> Pattern {
    Pattern {
        in_port: Some(1),
        ..Pattern::any()
    }
}

// The same, of packets for one address.
fn to_five() -> Pattern {
    Pattern {
        in_port: Some(1),
        dl_dst: StationMatch::of(Some(5)),
        ..Pattern::any()
    }
}

// A flow mod with one output, or none for 0.
fn flow_mod(
    command: FlowCommand,
    pattern: Pattern,
    priority: u16,
    out: u16,
    out_port: u16,
) -> FlowMod {
    let actions = if out > 0 {
        Actions::one(Action::Output(out))
    } else {
        Actions::none()
    };
    FlowMod {
        command,
        pattern,
        priority,
        out_port,
        actions,
    }
}

// The output of the row of this priority: 0 if it has none, and nothing if there is no such row.
fn output(table: &Table, priority: u16) -> Option<u16> {
    for row in table.rows() {
        if row.priority == priority {
            return match row.actions.as_slice().first() {
                Some(Action::Output(out)) => Some(*out),
                _ => Some(0),
            };
        }
    }
    None
}

// One change of a table of two rows, the one to port 2 of priority 5, and a more specific one to port 3 of priority
// 6: the outputs of both after it, or nothing where the change failed.
fn both_after(
    alloc: Global,
    command: FlowCommand,
    pattern: Pattern,
    priority: u16,
    out: u16,
    out_port: u16,
) -> Result<(Option<u16>, Option<u16>), ChangeError> {
    let mut table = Table::new(alloc, 2);
    let add = FlowCommand::Add;
    table.change(alloc, &flow_mod(add, at(), 5, 2, ANY_PORT))?;
    table.change(alloc, &flow_mod(add, to_five(), 6, 3, ANY_PORT))?;
    table.change(alloc, &flow_mod(command, pattern, priority, out, out_port))?;
    Ok((output(&table, 5), output(&table, 6)))
}

#[test]
fn removes_by_key(rt: HostRuntime) {
    let alloc = rt.alloc();
    let strict = FlowCommand::DeleteStrict;
    assert_eq!(rt;
        both_after(alloc, strict, at(), 5, 0, ANY_PORT),
        Ok((None, Some(3)))
    );
    assert_eq!(rt;
        both_after(alloc, strict, at(), 6, 0, ANY_PORT),
        Ok((Some(2), Some(3)))
    );
    assert_eq!(rt;
        both_after(alloc, strict, at(), 5, 0, 3),
        Ok((Some(2), Some(3)))
    );
}

#[test]
fn modifies_what_is_more_specific(rt: HostRuntime) {
    let alloc = rt.alloc();
    let modify = FlowCommand::Modify;
    let strict = FlowCommand::ModifyStrict;
    assert_eq!(rt;
        both_after(alloc, modify, at(), 9, 0, ANY_PORT),
        Ok((Some(0), Some(0)))
    );
    assert_eq!(rt;
        both_after(alloc, modify, to_five(), 9, 4, ANY_PORT),
        Ok((Some(2), Some(4)))
    );
    assert_eq!(rt;
        both_after(alloc, strict, at(), 5, 7, ANY_PORT),
        Ok((Some(7), Some(3)))
    );
}

#[test]
fn removes_by_out_port(rt: HostRuntime) {
    let alloc = rt.alloc();
    let delete = FlowCommand::Delete;
    assert_eq!(rt;
        both_after(alloc, delete, at(), 0, 0, 3),
        Ok((Some(2), None))
    );
    assert_eq!(rt;
        both_after(alloc, delete, at(), 0, 0, ANY_PORT),
        Ok((None, None))
    );
}

// Two modifications of an empty table for one row: the output of the first, and what came of the second.
fn modified_nothing(alloc: Global) -> Result<(Option<u16>, Result<(), ChangeError>), ChangeError> {
    let mut table = Table::new(alloc, 1);
    let (modify, strict) = (FlowCommand::Modify, FlowCommand::ModifyStrict);
    table.change(alloc, &flow_mod(modify, at(), 5, 2, ANY_PORT))?;
    let second = table.change(alloc, &flow_mod(strict, to_five(), 6, 3, ANY_PORT));
    Ok((output(&table, 5), second))
}

#[test]
fn modification_of_nothing_adds(rt: HostRuntime) {
    let wanted = Ok((Some(2), Err(ChangeError::Fault(ChangeFault::Full))));
    assert_eq!(rt; modified_nothing(rt.alloc()), wanted);
}
