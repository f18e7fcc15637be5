//! Texts of histories.
//!
//! Layer: tests; private. Called by `reports` and `traces`.
use nk_values::{Header, History, Packet};
use report_text::history_text;
use std::alloc::{AllocError, Global};
use std::test::Fail;

// A packet at a port for this destination.
pub fn packet((sw, pt): (u64, u64), eth_dst: u64) -> Packet {
    let header = Header {
        eth_typ: 2048,
        ip_proto: 0,
        eth_src: 0,
        eth_dst,
        ip4_src: 0,
        ip4_dst: 0,
        tcp_src_port: 0,
        tcp_dst_port: 0,
    };
    Packet { sw, pt, header }
}

// Goes on with these packets, oldest first.
fn go_on(alloc: Global, history: &mut History, packets: &[Packet]) -> Result<(), AllocError> {
    for packet in packets {
        history.double(alloc)?;
        history.set_newest(*packet);
    }
    Ok(())
}

// A history from port 1 of switch 1 through these packets.
pub fn history(alloc: Global, packets: &[Packet]) -> Result<History, AllocError> {
    let mut history = History::new(packet((1, 1), 0));
    go_on(alloc, &mut history, packets)?;
    Ok(history)
}

// Whether the text of such a history is this one.
fn tells(alloc: Global, packets: &[Packet], text: &str) -> Result<bool, AllocError> {
    let history = history(alloc, packets)?;
    has_text(alloc, &history, text)
}

fn has_text(alloc: Global, history: &History, text: &str) -> Result<bool, AllocError> {
    Ok(history_text(alloc, history)?.as_str() == text)
}

#[test]
fn histories(rt: HostRuntime) -> Result<(), Fail> {
    let packets = [packet((1, 2), 0), packet((2, 1), 0)];
    assert!(rt; tells(rt.alloc(), &packets, "1:1>1:2>2:1")?);
    Ok(())
}

// A packet with fields that differ from those of the packets of `history`.
fn changed() -> Packet {
    let mut packet = packet((2, 2), 0x0000_1234_5678_9abc);
    packet.header.eth_typ = 0x86dd;
    packet.header.ip4_dst = 0x0a00_01ff;
    packet.header.tcp_dst_port = 80;
    packet
}

#[test]
fn fields_that_changed(rt: HostRuntime) -> Result<(), Fail> {
    let packets = [packet((1, 2), 0), packet((2, 1), 0), changed()];
    let text =
        "1:1>1:2>2:1>2:2{ethTyp=0x86dd,ethDst=12:34:56:78:9a:bc,ip4Dst=10.0.1.255,tcpDstPort=80}";
    assert!(rt; tells(rt.alloc(), &packets, text)?);
    Ok(())
}
