//! The patterns of rows, written as the matches of messages, and the numbers of their fields.
//!
//! Layer: messages; private. Called by `writing`.
ghost use Rattle.std.specs.Prelude.{◌≡◌, ◌+◌, ◌<◌, ◌≤◌, ◌^◌, IfSome};
ghost use Rattle.nk_values.specs.Fitting.{FitsPattern};
ghost use Rattle.openflow_wire.specs.Writing.{PutsBytes, wild, wild_bits, wildcards, number_or_zero};
ghost use Rattle.openflow_wire.specs.Writing.{address_or_zero, frame_bytes, network_bytes, match_bytes};

use super::{put_byte, put_half, put_station, put_word};
use bytes::BytesMut;
use nk_values::{Pattern, Prefix};

fn wild<T>(field: &Option<T>) -> u32
    ensures value { result ≡ wild field.now }
    ensures small { result ≤ 1 }
{
    match field {
        None => 1,
        Some(_) => 0,
    }
}

fn wild_bits(address: &Option<Prefix>) -> u32
    ensures value { result ≡ wild_bits address.now }
    ensures small { result ≤ 63 }
{
    match address {
        None => 63,
        Some(p) => 32u32.saturating_sub(p.length as u32),
    }
}

/// The wildcards of a match.
#[tactic(auto, unfolding(crate::specs::Writing::wildcards))]
pub fn wildcards(p: &Pattern) -> u32
    ensures { result ≡ wildcards p.now }
{
    wild(&p.in_port)
        + 2 * wild(&p.dl_vlan)
        + 4 * wild(&p.dl_src.get())
        + 8 * wild(&p.dl_dst.get())
        + 16 * wild(&p.dl_type)
        + 32 * wild(&p.nw_proto)
        + 64 * wild(&p.tp_src)
        + 128 * wild(&p.tp_dst)
        + 256 * wild_bits(&p.nw_src.get())
        + 16384 * wild_bits(&p.nw_dst.get())
        + 1048576 * wild(&p.dl_vlan_pcp)
        + 2097152 * wild(&p.nw_tos)
}

/// The number of a field, or 0.
pub fn byte(n: Option<u8>) -> u8
    ensures { result ≡ number_or_zero n }
{
    match n {
        None => 0,
        Some(n) => n,
    }
}

/// The number of a field, or 0.
pub fn half(n: Option<u16>) -> u16
    ensures { result ≡ number_or_zero n }
{
    match n {
        None => 0,
        Some(n) => n,
    }
}

/// The number of a station, or 0.
pub fn station_or_zero(n: Option<u64>) -> u64
    ensures { result ≡ number_or_zero n }
{
    match n {
        None => 0,
        Some(n) => n,
    }
}

fn station(n: Option<u64>) -> u64
    requires { IfSome n (λ n. n < 2 ^ 48) }
    ensures value { result ≡ number_or_zero n }
    ensures small { result < 2 ^ 48 }
{
    match n {
        None => 0,
        Some(n) => n,
    }
}

/// The fixed bits of an address, or 0.
pub fn address(p: Option<Prefix>) -> u32
    ensures { result ≡ address_or_zero p }
{
    match p {
        None => 0,
        Some(p) => p.address,
    }
}

#[tactic(auto, unfolding(crate::specs::Writing::frame_bytes))]
fn put_frame(out: &mut BytesMut, p: &Pattern)
    requires room { 22 ≤ out.old.spare }
    requires fits { FitsPattern p.now }
    ensures { PutsBytes out.old out.new 22 (frame_bytes p.now) }
{
    put_word(out, wildcards(p));
    put_half(out, half(p.in_port));
    put_station(out, station(p.dl_src.get()));
    put_station(out, station(p.dl_dst.get()));
    put_half(out, half(p.dl_vlan));
    put_byte(out, byte(p.dl_vlan_pcp));
    put_byte(out, 0);
}

#[tactic(auto, unfolding(crate::specs::Writing::network_bytes))]
fn put_network(out: &mut BytesMut, p: &Pattern)
    requires { 18 ≤ out.old.spare }
    ensures { PutsBytes out.old out.new 18 (network_bytes p.now) }
{
    put_half(out, half(p.dl_type));
    put_byte(out, byte(p.nw_tos));
    put_byte(out, byte(p.nw_proto));
    put_half(out, 0);
    put_word(out, address(p.nw_src.get()));
    put_word(out, address(p.nw_dst.get()));
    put_half(out, half(p.tp_src));
    put_half(out, half(p.tp_dst));
}

#[tactic(auto, unfolding(crate::specs::Writing::match_bytes))]
pub fn put_match(out: &mut BytesMut, p: &Pattern)
    requires room { 40 ≤ out.old.spare }
    requires fits { FitsPattern p.now }
    ensures { PutsBytes out.old out.new 40 (match_bytes p.now) }
{
    put_frame(out, p);
    put_network(out, p);
}
