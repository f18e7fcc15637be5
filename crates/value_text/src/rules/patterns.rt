//! Patterns of rows, field by field.
//!
//! Layer: the program; private. Called by `rules`.
ghost use Rattle.std.specs.Prelude.{◌≡◌, ◌++◌, OnOk, string_bytes};
ghost use Rattle.value_text.specs.Rules.{in_text, vlan_text, fixed_text, address_of, frame_text, network_text};
ghost use Rattle.value_text.specs.Rules.{pattern_text};

use crate::numbers::put_number;
use crate::values::put_headed;
use nk_values::{Field, Pattern, Prefix, UNTAGGED};
use std::alloc::AllocError;

// Puts what a pattern fixes at the end.
pub(super) fn put_pattern(out: &mut String, pattern: &Pattern) -> Result<(), AllocError>
    ensures { OnOk result (string_bytes out.new ≡ string_bytes out.old ++ pattern_text pattern.now) }
{
    put_in(out, pattern.in_port)?;
    put_vlan(out, pattern.dl_vlan)?;
    put_frame(out, pattern)?;
    put_network(out, pattern)
}

fn put_in(out: &mut String, port: Option<u16>) -> Result<(), AllocError>
    ensures { OnOk result (string_bytes out.new ≡ string_bytes out.old ++ in_text port) }
{
    match port {
        None => Ok(()),
        Some(port) => {
            out.push_str(" in=")?;
            put_number(out, u64::from(port))
        }
    }
}

fn put_vlan(out: &mut String, vlan: Option<u16>) -> Result<(), AllocError>
    ensures { OnOk result (string_bytes out.new ≡ string_bytes out.old ++ vlan_text vlan) }
{
    match vlan {
        None => Ok(()),
        Some(UNTAGGED) => out.push_str(" vlan=none"),
        Some(id) => {
            out.push_str(" vlan=")?;
            put_number(out, u64::from(id))
        }
    }
}

fn put_frame(out: &mut String, pattern: &Pattern) -> Result<(), AllocError>
    ensures { OnOk result (string_bytes out.new ≡ string_bytes out.old ++ frame_text pattern.now) }
{
    put_fixed(out, Field::EthTyp, half(pattern.dl_type))?;
    put_fixed(out, Field::IpProto, byte(pattern.nw_proto))?;
    put_fixed(out, Field::EthSrc, pattern.dl_src.get())?;
    put_fixed(out, Field::EthDst, pattern.dl_dst.get())
}

fn put_network(out: &mut String, pattern: &Pattern) -> Result<(), AllocError>
    ensures { OnOk result (string_bytes out.new ≡ string_bytes out.old ++ network_text pattern.now) }
{
    put_fixed(out, Field::Ip4Src, address(pattern.nw_src.get()))?;
    put_fixed(out, Field::Ip4Dst, address(pattern.nw_dst.get()))?;
    put_fixed(out, Field::TcpSrcPort, half(pattern.tp_src))?;
    put_fixed(out, Field::TcpDstPort, half(pattern.tp_dst))
}

// The number of 16 bits, if there is one.
fn half(number: Option<u16>) -> Option<u64>
    ensures { result ≡ number }
{
    match number {
        None => None,
        Some(number) => Some(u64::from(number)),
    }
}

// The number of 8 bits, if there is one.
fn byte(number: Option<u8>) -> Option<u64>
    ensures { result ≡ number }
{
    match number {
        None => None,
        Some(number) => Some(u64::from(number)),
    }
}

// The address, if some of its bits are fixed. The rows of a policy fix all of them.
fn address(prefix: Option<Prefix>) -> Option<u64>
    ensures { result ≡ address_of prefix }
{
    match prefix {
        None => None,
        Some(prefix) => Some(u64::from(prefix.address)),
    }
}

// Puts a field and its number at the end, if it is fixed.
fn put_fixed(out: &mut String, field: Field, number: Option<u64>) -> Result<(), AllocError>
    ensures { OnOk result (string_bytes out.new ≡ string_bytes out.old ++ fixed_text field number) }
{
    match number {
        None => Ok(()),
        Some(number) => put_headed(out, field, number),
    }
}
