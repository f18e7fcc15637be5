//! What actions send.
//!
//! Layer: tests; private. Its tests are run by `rt test`.
use flow_table::act;
use nk_values::{Action, Header, IN_PORT, SentPacket, Tag};
use std::alloc::{AllocError, Global};
use std::test::Fail;

const HEADER: Header = Header {
    eth_typ: 2048,
    ip_proto: 6,
    eth_src: 1,
    eth_dst: 2,
    ip4_src: 0x0a00_0001,
    ip4_dst: 0x0a01_0203,
    tcp_src_port: 80,
    tcp_dst_port: 443,
};

// The packet of this place among those that actions send of one without a tag that came in by port 1.
fn nth_sent(
    alloc: Global,
    actions: &[Action],
    place: usize,
) -> Result<Option<SentPacket>, AllocError> {
    let sent = act(alloc, actions, 1, &HEADER, Tag::none())?;
    Ok(sent.get(place).copied())
}

#[test]
fn by_port(rt: HostRuntime) -> Result<(), Fail> {
    for (number, out) in [
        (2, Some(2)),
        (65279, Some(65279)),
        (65280, None),
        (0, None),
        (1, None),
        (IN_PORT, Some(1)),
        (65533, None),
    ] {
        let sent = nth_sent(rt.alloc(), &[Action::Output(number)], 0)?;
        assert_eq!(rt; sent.map(|one| one.port), out, "output {number}");
    }
    Ok(())
}

const STAMPING: [Action; 7] = [
    Action::Output(2),
    Action::SetDlDst(5),
    Action::SetVlanVid(7),
    Action::SetVlanVid(4095),
    Action::Output(3),
    Action::StripVlan,
    Action::Output(IN_PORT),
];

// The packet that leaves by a port with this address and tag.
fn stamped(port: u16, eth_dst: u64, tag: Tag) -> Option<SentPacket> {
    let header = Header { eth_dst, ..HEADER };
    Some(SentPacket { port, header, tag })
}

#[test]
fn in_order(rt: HostRuntime) -> Result<(), Fail> {
    let seven = Tag::vlan(7).unwrap_or(Tag::none());
    assert_eq!(rt;
        nth_sent(rt.alloc(), &STAMPING, 0)?,
        stamped(2, 2, Tag::none())
    );
    assert_eq!(rt; nth_sent(rt.alloc(), &STAMPING, 1)?, stamped(3, 5, seven));
    assert_eq!(rt;
        nth_sent(rt.alloc(), &STAMPING, 2)?,
        stamped(1, 5, Tag::none())
    );
    assert_eq!(rt; nth_sent(rt.alloc(), &STAMPING, 3)?, None);
    Ok(())
}

const SETTING: [Action; 7] = [
    Action::SetDlSrc(11),
    Action::SetDlDst(12),
    Action::SetNwSrc(13),
    Action::SetNwDst(14),
    Action::SetTpSrc(15),
    Action::SetTpDst(16),
    Action::Output(2),
];

#[test]
fn with_each_field_set(rt: HostRuntime) -> Result<(), Fail> {
    let header = Header {
        eth_src: 11,
        eth_dst: 12,
        ip4_src: 13,
        ip4_dst: 14,
        tcp_src_port: 15,
        tcp_dst_port: 16,
        ..HEADER
    };
    let sent = nth_sent(rt.alloc(), &SETTING, 0)?;
    assert_eq!(rt; sent.map(|one| (one.port, one.header)), Some((2, header)));
    Ok(())
}
