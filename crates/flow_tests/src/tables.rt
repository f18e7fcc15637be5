//! Look-ups in tables to which rows are added.
//!
//! Layer: tests; private. Its tests are run by `rt test`.
use flow_index::{ChangeError, ChangeFault, Table};
use nk_values::{
    ANY_PORT, Action, Actions, FlowCommand, FlowMod, Header, NetworkMatch, Pattern, Prefix,
    StationMatch, Tag, UNTAGGED,
};
use std::alloc::Global;
use std::test::Fail;

const HEADER: Header = Header {
    eth_typ: 2048,
    ip_proto: 6,
    eth_src: 1,
    eth_dst: 2,
    ip4_src: 0x0a00_0001,
    ip4_dst: 0x0a01_0203,
    tcp_src_port: 80,
    tcp_dst_port: 443,
};

// The pattern of packets that come in at port 1.
fn at_one() -> Pattern {
    Pattern {
        in_port: Some(1),
        ..Pattern::any()
    }
}

// The pattern of just the packet of that header, without a tag at port 1.
fn exact() -> Pattern {
    Pattern {
        in_port: Some(1),
        dl_src: StationMatch::of(Some(1)),
        dl_dst: StationMatch::of(Some(2)),
        dl_vlan: Some(UNTAGGED),
        dl_vlan_pcp: Some(0),
        dl_type: Some(2048),
        nw_tos: Some(0),
        nw_proto: Some(6),
        nw_src: NetworkMatch::of(Some(Prefix {
            address: 0x0a00_0001,
            length: 32,
        })),
        nw_dst: NetworkMatch::of(Some(Prefix {
            address: 0x0a01_0203,
            length: 32,
        })),
        tp_src: Some(80),
        tp_dst: Some(443),
    }
}

// Adds a row with one output.
fn add(
    alloc: Global,
    table: &mut Table,
    pattern: Pattern,
    priority: u16,
    out: u16,
) -> Result<(), ChangeError> {
    let actions = Actions::one(Action::Output(out));
    let mut change = FlowMod {
        command: FlowCommand::Add,
        pattern,
        priority,
        out_port: ANY_PORT,
        actions,
    };
    table.change(alloc, &mut change)
}

// The output of the row that the packet meets at port 1; 0 if it meets none.
fn met(table: &Table) -> u16 {
    let Some(row) = table.look_up(1, &HEADER, Tag::none()) else {
        return 0;
    };
    match row.actions.as_slice().first() {
        Some(Action::Output(out)) => *out,
        _ => 0,
    }
}

// Adds rows, pattern by pattern with priority and output, to a table; where the packet then goes, how
// many rows there are, and whether the last one was refused.
fn added(
    alloc: Global,
    capacity: usize,
    rows: &[(Pattern, u16, u16)],
) -> (u16, usize, Result<(), ChangeError>) {
    let mut table = Table::new(alloc, capacity);
    let mut last = Ok(());
    for (pattern, priority, out) in rows {
        last = add(alloc, &mut table, *pattern, *priority, *out);
    }
    (met(&table), table.rows().len(), last)
}

#[test]
fn the_greater_priority_counts(rt: HostRuntime) {
    let any = Pattern::any();
    assert_eq!(rt; added(rt.alloc(), 2, &[]), (0, 0, Ok(())));
    assert_eq!(rt; added(rt.alloc(), 2, &[(at_one(), 5, 2)]), (2, 1, Ok(())));
    assert_eq!(rt;
        added(rt.alloc(), 2, &[(at_one(), 5, 2), (any, 6, 3)]),
        (3, 2, Ok(()))
    );
}

#[test]
fn a_full_table_replaces_alone(rt: HostRuntime) {
    let any = Pattern::any();
    let full = Err(ChangeError::Fault(ChangeFault::Full));
    assert_eq!(rt;
        added(rt.alloc(), 1, &[(at_one(), 6, 3), (any, 7, 4)]),
        (3, 1, full)
    );
    assert_eq!(rt;
        added(rt.alloc(), 1, &[(at_one(), 6, 3), (at_one(), 6, 9)]),
        (9, 1, Ok(()))
    );
    assert_eq!(rt; Table::new(rt.alloc(), 7).capacity(), 7);
}

#[test]
fn exact_rows_outrank(rt: HostRuntime) {
    let rows = [(Pattern::any(), 65535, 2), (exact(), 1, 3), (exact(), 2, 4)];
    assert_eq!(rt; added(rt.alloc(), 3, &rows[..2]), (3, 2, Ok(())));
    assert_eq!(rt; added(rt.alloc(), 3, &rows), (4, 3, Ok(())));
}

// Removes the row with this pattern and priority.
fn remove(
    alloc: Global,
    table: &mut Table,
    pattern: Pattern,
    priority: u16,
) -> Result<(), ChangeError> {
    let mut change = FlowMod {
        command: FlowCommand::DeleteStrict,
        pattern,
        priority,
        out_port: ANY_PORT,
        actions: Actions::none(),
    };
    table.change(alloc, &mut change)
}

// A table with a row for all packets, of this priority, and one of priority 10 for untagged ones at port 1.
fn two_rows(alloc: Global, priority: u16) -> Table {
    let mut table = Table::new(alloc, 2);
    let untagged = Pattern {
        dl_vlan: Some(UNTAGGED),
        ..at_one()
    };
    let _all = add(alloc, &mut table, Pattern::any(), priority, 3);
    let _one = add(alloc, &mut table, untagged, 10, 2);
    table
}

// Where an untagged packet goes at port 1 by both rows, and by the second alone; and whether a row hits it there with
// tag 7 then.
fn alone(alloc: Global, priority: u16) -> (u16, u16, bool) {
    let mut table = two_rows(alloc, priority);
    let both = met(&table);
    let _gone = remove(alloc, &mut table, Pattern::any(), priority);
    let tagged = Tag::vlan(7).unwrap_or(Tag::none());
    let hit = table.look_up(1, &HEADER, tagged).is_some();
    (both, met(&table), hit)
}

#[test]
fn a_row_of_another_group_outranks(rt: HostRuntime) {
    assert_eq!(rt; alone(rt.alloc(), 20), (3, 2, false));
    assert_eq!(rt; alone(rt.alloc(), 5), (2, 2, false));
}

#[test]
fn of_rows_that_tie_one_acts(rt: HostRuntime) {
    let (both, one, hit) = alone(rt.alloc(), 10);
    assert!(rt; both == 2 || both == 3);
    assert_eq!(rt; (one, hit), (2, false));
}
