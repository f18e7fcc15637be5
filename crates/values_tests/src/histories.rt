//! Histories, on their happy path.
//!
//! Layer: tests; private. Its tests are run by `rt test`.
use nk_values::{Header, History, Packet};
use std::test::Fail;

// A packet at this port.
fn packet(pt: u64) -> Packet {
    let header = Header {
        eth_typ: 2048,
        ip_proto: 0,
        eth_src: 0,
        eth_dst: 0,
        ip4_src: 0,
        ip4_dst: 0,
        tcp_src_port: 0,
        tcp_dst_port: 0,
    };
    Packet { sw: 1, pt, header }
}

#[test]
fn doubles_and_copies(rt: HostRuntime) -> Result<(), Fail> {
    let mut history = History::new(packet(1));
    history.double(rt.alloc())?;
    history.set_newest(packet(2));
    let copy = history.copy()?;
    assert_eq!(rt; *copy.newest(), packet(2));
    assert_eq!(rt; copy.older(rt.alloc())?.as_slice(), [packet(1)].as_slice());
    Ok(())
}
