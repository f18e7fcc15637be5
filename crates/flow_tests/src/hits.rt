//! Which packets hit a pattern, field by field, and which patterns are more specific.
//!
//! Layer: tests; private. Its tests are run by `rt test`.
use flow_table::{hits, narrows};
use nk_values::{Header, NetworkMatch, Pattern, Prefix, StationMatch, Tag, UNTAGGED};

const HEADER: Header = Header {
    eth_typ: 2048,
    ip_proto: 6,
    eth_src: 1,
    eth_dst: 2,
    ip4_src: 0x0a00_0001,
    ip4_dst: 0x0a01_0203,
    tcp_src_port: 80,
    tcp_dst_port: 443,
};

// Whether a pattern hits the packet of that header at port 3, without a tag.
fn hit(pattern: Pattern) -> bool {
    hits(&pattern, 3, &HEADER, Tag::none())
}

#[test]
fn by_port_and_tag(rt: HostRuntime) {
    assert!(rt; hit(Pattern::any()));
    let any = Pattern::any();
    for (in_port, wanted) in [(Some(3), true), (Some(4), false)] {
        assert_eq!(rt; hit(Pattern { in_port, ..any }), wanted);
    }
    for (dl_vlan, wanted) in [(Some(UNTAGGED), true), (Some(1), false)] {
        assert_eq!(rt; hit(Pattern { dl_vlan, ..any }), wanted);
    }
    for (dl_vlan_pcp, wanted) in [(Some(0), true), (Some(1), false)] {
        assert_eq!(rt; hit(Pattern { dl_vlan_pcp, ..any }), wanted);
    }
}

#[test]
fn by_ethernet(rt: HostRuntime) {
    let any = Pattern::any();
    for (number, wanted) in [(Some(1), true), (Some(2), false)] {
        let dl_src = StationMatch::of(number);
        assert_eq!(rt; hit(Pattern { dl_src, ..any }), wanted);
    }
    for (number, wanted) in [(Some(2), true), (Some(1), false)] {
        let dl_dst = StationMatch::of(number);
        assert_eq!(rt; hit(Pattern { dl_dst, ..any }), wanted);
    }
    for (dl_type, wanted) in [(Some(2048), true), (Some(2054), false)] {
        assert_eq!(rt; hit(Pattern { dl_type, ..any }), wanted);
    }
}

#[test]
fn by_protocol(rt: HostRuntime) {
    let any = Pattern::any();
    for (nw_tos, wanted) in [(Some(0), true), (Some(4), false)] {
        assert_eq!(rt; hit(Pattern { nw_tos, ..any }), wanted);
    }
    for (nw_proto, wanted) in [(Some(6), true), (Some(17), false)] {
        assert_eq!(rt; hit(Pattern { nw_proto, ..any }), wanted);
    }
}

#[test]
fn by_transport(rt: HostRuntime) {
    let any = Pattern::any();
    for (tp_src, wanted) in [(Some(80), true), (Some(443), false)] {
        assert_eq!(rt; hit(Pattern { tp_src, ..any }), wanted);
    }
    for (tp_dst, wanted) in [(Some(443), true), (Some(80), false)] {
        assert_eq!(rt; hit(Pattern { tp_dst, ..any }), wanted);
    }
}

// The pattern of packets whose source begins with these bits.
fn from_source(address: u32, length: u8) -> Pattern {
    Pattern {
        nw_src: NetworkMatch::of(Some(Prefix { address, length })),
        ..Pattern::any()
    }
}

#[test]
fn by_high_bits(rt: HostRuntime) {
    for (address, length, wanted) in [
        (0x0a00_0001, 32, true),
        (0x0a00_0002, 32, false),
        (0x0a00_0000, 31, true),
        (0x0a00_0002, 31, false),
        (0x0a00_0000, 8, true),
        (0x0b00_0000, 8, false),
        (0, 1, true),
        (0x8000_0000, 1, false),
    ] {
        assert_eq!(rt;
            hit(from_source(address, length)),
            wanted,
            "{address} {length}"
        );
    }
}

#[test]
fn by_high_bits_of_a_destination(rt: HostRuntime) {
    let nw_dst = NetworkMatch::of(Some(Prefix {
        address: 0x0a01_0200,
        length: 24,
    }));
    assert!(rt;
        hit(Pattern {
            nw_dst,
            ..Pattern::any()
        })
    );
}

#[test]
fn by_tag(rt: HostRuntime) {
    for (wanted, id, hit) in [(7, 7, true), (8, 7, false), (UNTAGGED, 7, false)] {
        let pattern = Pattern {
            dl_vlan: Some(wanted),
            ..Pattern::any()
        };
        let tag = Tag::vlan(id).unwrap_or(Tag::none());
        assert_eq!(rt; hits(&pattern, 3, &HEADER, tag), hit, "{wanted} {id}");
    }
}

#[test]
fn more_specific_by_bits(rt: HostRuntime) {
    let given = from_source(0x0a00_0000, 16);
    for (length, address, wanted) in [
        (24, 0x0a00_0100, true),
        (16, 0x0a00_0000, true),
        (15, 0x0a00_0000, false),
        (24, 0x0a01_0000, false),
    ] {
        let pattern = Pattern {
            in_port: Some(1),
            ..from_source(address, length)
        };
        assert_eq!(rt; narrows(&given, &pattern), wanted, "{address} {length}");
    }
}
