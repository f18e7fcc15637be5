//! Packets and policies that lines stand for.
//!
//! Layer: tests; private. Called by `diagrams`.
use netkat_parser::{ParseError, parse_policy};
use nk_syntax::Pol;
use nk_values::{Header, Packet};
use std::alloc::{AllocError, Global};

// A packet at port 1 of switch 1, of type 2054, with zeros elsewhere.
const PLAIN: Packet = Packet {
    sw: 1,
    pt: 1,
    header: Header {
        eth_typ: 2054,
        ip_proto: 0,
        eth_src: 0,
        eth_dst: 0,
        ip4_src: 0,
        ip4_dst: 0,
        tcp_src_port: 0,
        tcp_dst_port: 0,
    },
};

/// The packet of a line of assignments.
pub fn packet_of(alloc: Global, assignments: &str) -> Result<Packet, AllocError> {
    match parse_policy(alloc, assignments.as_bytes()) {
        Ok(Pol::Seq(pols)) => {
            let mut packet = PLAIN;
            for pol in &pols.items {
                packet = assigned(pol, &packet);
            }
            Ok(packet)
        }
        Ok(pol) => Ok(assigned(&pol, &PLAIN)),
        Err(ParseError::Fault(_)) => Ok(PLAIN),
        Err(ParseError::Memory) => Err(AllocError),
    }
}

fn assigned(pol: &Pol, packet: &Packet) -> Packet {
    match pol {
        Pol::Assign(l) => l.put(packet),
        _ => *packet,
    }
}

/// The text of the star of some steps, each after a guard.
pub fn steps(alloc: Global, count: u64, guard: &str) -> Result<String, AllocError> {
    let mut text = String::from_str(alloc, "(drop")?;
    for i in 0..count {
        let from = i.saturating_add(1);
        let to = i.saturating_add(2);
        text.push_str(&format!(in alloc; " + {guard}; ethDst={from}; ethDst:={to}")?)?;
    }
    text.push_str(")*")?;
    Ok(text)
}

/// The text of a rectangle: packets of TCP with one of some numbers in each of four fields go to port 2.
pub fn rectangle(alloc: Global, count: u64) -> Result<String, AllocError> {
    let mut text = rectangle_tests(alloc, count)?;
    text.push_str("; pt:=2")?;
    Ok(text)
}

/// The text of the tests of a rectangle.
pub fn rectangle_tests(alloc: Global, count: u64) -> Result<String, AllocError> {
    let mut text = String::from_str(alloc, "ipProto=6")?;
    for field in ["ip4Src", "ip4Dst", "tcpSrcPort", "tcpDstPort"] {
        text.push_str("; (drop")?;
        add_tests(alloc, &mut text, field, count)?;
        text.push_str(")")?;
    }
    Ok(text)
}

/// The text of the star of a rectangle at port 1. Its packets go on to ports 2 to 5, each of which sets one of the four
/// fields to
/// 1. Beside them stand sums that set ethDst by the numbers of the four fields, each sum at a port of its own that no
///   turn leads to from port 1.
pub fn star_of_rectangle(alloc: Global, count: u64) -> Result<String, AllocError> {
    let tests = rectangle_tests(alloc, count)?;
    let mut text = format!(in alloc; "(pt=1; {tests}; pt:=2")?;
    for (from, to, port, field) in [
        (2, 3, 10, "ip4Src"),
        (3, 4, 11, "ip4Dst"),
        (4, 5, 12, "tcpSrcPort"),
        (5, 6, 13, "tcpDstPort"),
    ] {
        text.push_str(&format!(in alloc; " + pt={from}; ipProto=6; {field}:=1; pt:={to}")?)?;
        text.push_str(&format!(in alloc; " + pt={port}; ipProto=6; (drop")?)?;
        add_assignments(alloc, &mut text, field, count)?;
        text.push_str(")")?;
    }
    text.push_str(")*")?;
    Ok(text)
}

fn add_assignments(
    alloc: Global,
    text: &mut String,
    field: &str,
    count: u64,
) -> Result<(), AllocError> {
    for i in 0..count {
        let value = i.saturating_add(1);
        text.push_str(&format!(in alloc; " + {field}={value}; ethDst:={value}")?)?;
    }
    Ok(())
}

fn add_tests(alloc: Global, text: &mut String, field: &str, count: u64) -> Result<(), AllocError> {
    for i in 0..count {
        let value = i.saturating_add(1);
        text.push_str(&format!(in alloc; " + {field}={value}")?)?;
    }
    Ok(())
}
