//! Two additions, and a table with room for one.
//!
//! Layer: tests; private. Its tests are run by `rt test`.
use crate::messages::{is_written, waiting};
use std::alloc::{AllocError, Global};
use std::test::Fail;
use switch_model::{ApplyError, ApplyFault, Switch};

// The error about the addition with the number 1: its first 64 bytes, which end with the priority.
const FULL: [u8; 76] = [
    1, 1, 0, 76, 0, 0, 0, 1, 0, 3, 0, 0, // the flow mod failed: all tables are full
    1, 14, 0, 80, 0, 0, 0, 1, // the header
    0, 0x3f, 0xff, 0xfe, 0, 1, // the pattern: all is open but the port
    0, 0, 0, 0, 0, 0, 0, 0, 0, 0, 0, 0, 0, 0, 0, 0, 0, //
    0, 0, 0, 0, 0, 0, 0, 0, 0, 0, 0, 0, 0, 0, 0, 0, 0, // its other fields
    0, 0, 0, 0, 0, 0, 0, 0, // no cookie
    0, 0, 0, 0, 0, 0, 0, 5, // ADD, no timeouts, and the priority
];

// Whether the flow mod at a place finds the table full, and the switch answers so.
fn finds_it_full(alloc: Global, switch: &mut Switch, place: usize) -> Result<bool, AllocError> {
    match switch.apply(alloc, place) {
        Ok(Some(error)) => is_written(alloc, &error, &FULL),
        Ok(None) | Err(_) => Ok(false),
    }
}

// The priority of the first row.
fn priority(switch: &Switch) -> Option<u16> {
    switch.table().rows().first().map(|row| row.priority)
}

#[test]
fn applies_the_second_first(rt: HostRuntime) -> Result<(), Fail> {
    let alloc = rt.alloc();
    let mut switch = waiting(alloc, 1)?;
    assert!(rt; matches!(switch.apply(alloc, 1), Ok(None)));
    assert_eq!(rt; priority(&switch), Some(6));
    assert_eq!(rt;
        switch.apply(alloc, 1).err(),
        Some(ApplyError::Fault(ApplyFault::NotPending))
    );
    assert_eq!(rt; finds_it_full(alloc, &mut switch, 0).ok(), Some(true));
    assert_eq!(rt; priority(&switch), Some(6));
    assert_eq!(rt; (switch.pending(), switch.awaits()), (0, true));
    Ok(())
}
