//! Packets, literals and diagrams that the tests ask.
//!
//! Layer: tests; private. Called by many modules.
use fdd_nodes::{Assignments, Fdd, are_few};
use fdd_ops::{assign, sequence, test};
use nk_values::{Field, Header, Lit, Packet};
use std::alloc::Global;
use std::test::Fail;

pub(crate) fn lit(field: Field, value: u64) -> Result<Lit, Fail> {
    Ok(Lit::new(field, value).ok_or("no literal")?)
}

/// A packet at a port, of IPv4, to an address.
pub(crate) fn packet(pt: u64, eth_dst: u64) -> Packet {
    let header = Header {
        eth_typ: 2048,
        ip_proto: 0,
        eth_src: 7,
        eth_dst,
        ip4_src: 0,
        ip4_dst: 0,
        tcp_src_port: 0,
        tcp_dst_port: 0,
    };
    Packet { sw: 1, pt, header }
}

/// One assignment.
pub(crate) fn one(alloc: Global, field: Field, value: u64) -> Result<Assignments, Fail> {
    Ok(Assignments::one(alloc, lit(field, value)?)?)
}

/// The diagram of `pt:=to`.
pub(crate) fn goes_to(alloc: Global, to: u64) -> Result<Fdd, Fail> {
    Ok(assign(alloc, lit(Field::Pt, to)?)?)
}

/// The diagram of `pt=from; pt:=to`.
pub(crate) fn moves(alloc: Global, from: u64, to: u64) -> Result<Fdd, Fail> {
    let here = test(alloc, lit(Field::Pt, from)?)?;
    let there = goes_to(alloc, to)?;
    if !are_few(alloc, &here, &there)? {
        return Err("too many values".into());
    }
    Ok(sequence(alloc, &here, &there)?)
}

/// Whether a diagram makes just a packet at one port of a packet at another.
pub(crate) fn sends(alloc: Global, a: &Fdd, from: u64, to: u64) -> Result<bool, Fail> {
    let answer = a.answer(alloc, &packet(from, 9))?;
    Ok(answer.as_slice() == [packet(to, 9)].as_slice())
}

/// How many packets a diagram makes of a packet at a port.
pub(crate) fn count(alloc: Global, a: &Fdd, from: u64) -> Result<usize, Fail> {
    let answer = a.answer(alloc, &packet(from, 9))?;
    Ok(answer.len())
}
