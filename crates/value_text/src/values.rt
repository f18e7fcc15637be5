//! The texts of numbers and fields.
//!
//! Layer: the program; public. Called by many modules here, and by report_text.
ghost use Rattle.std.specs.Prelude.{◌≡◌, ◌+◌, ◌/◌, ◌%◌, ◌++◌, ◌<◌, ◌≤◌, ◌∷◌, [], OnOk, codes, string_bytes, decimal};
ghost use Rattle.value_text.specs.Values.{dotted_pair, ip_text, value_text};
ghost use Rattle.value_text.specs.Values.{field_text, fields_text, packet_text, location_text};
ghost use Rattle.nk_values.specs.Names.{name_of};

use crate::hex::{put_hex_half, put_mac};
use crate::numbers::{put_number, put_number_and};
use nk_values::{Field, Packet};
use std::alloc::AllocError;

// Puts an ASCII character at the end.
pub(crate) fn put_ascii(out: &mut String, character: u8) -> Result<(), AllocError>
    requires { character < 128 }
    ensures { OnOk result (string_bytes out.new ≡ string_bytes out.old ++ character ∷ []) }
{
    out.push(char::from(character))
}

// Puts the last two bytes at the end, in decimal.
fn put_dotted_pair(out: &mut String, number: u64) -> Result<(), AllocError>
    ensures { OnOk result (string_bytes out.new ≡ string_bytes out.old ++ dotted_pair number) }
{
    put_number_and(out, number / 256 % 256, b'.')?;
    put_number(out, number % 256)
}

fn put_ip(out: &mut String, number: u64) -> Result<(), AllocError>
    ensures { OnOk result (string_bytes out.new ≡ string_bytes out.old ++ ip_text number) }
{
    put_dotted_pair(out, number / 65536)?;
    put_ascii(out, b'.')?;
    put_dotted_pair(out, number)
}

/// Puts the number of a field at the end: ethTyp in hexadecimal, addresses in their usual forms, others in
/// decimal.
pub fn put_value(out: &mut String, field: Field, number: u64) -> Result<(), AllocError>
    ensures { OnOk result (string_bytes out.new ≡ string_bytes out.old ++ value_text field number) }
{
    match field {
        Field::EthTyp => put_hex_half(out, number),
        Field::EthSrc | Field::EthDst => put_mac(out, number),
        Field::Ip4Src | Field::Ip4Dst => put_ip(out, number),
        Field::Sw | Field::Pt | Field::IpProto | Field::TcpSrcPort | Field::TcpDstPort => {
            put_number(out, number)
        }
    }
}

/// Puts `f=value` at the end.
pub fn put_field(out: &mut String, field: Field, number: u64) -> Result<(), AllocError>
    ensures { OnOk result (string_bytes out.new ≡ string_bytes out.old ++ field_text field number) }
{
    out.push_str(field.name())?;
    put_ascii(out, b'=')?;
    put_value(out, field, number)
}

/// Puts ` f=value` at the end.
pub(crate) fn put_headed(out: &mut String, field: Field, number: u64) -> Result<(), AllocError>
    ensures { OnOk result (string_bytes out.new ≡ string_bytes out.old ++ (codes " " ++ field_text field number)) }
{
    out.push_str(head_of(field))?;
    put_value(out, field, number)
}

// What stands before a number: one text for each field, since tables have a great many.
fn head_of(field: Field) -> &'static str
    ensures { result.now ≡ codes " " ++ (name_of field ++ codes "=") }
{
    match field {
        Field::Sw => " sw=",
        Field::Pt => " pt=",
        Field::EthTyp => " ethTyp=",
        Field::IpProto => " ipProto=",
        Field::EthSrc => " ethSrc=",
        Field::EthDst => " ethDst=",
        Field::Ip4Src => " ip4Src=",
        Field::Ip4Dst => " ip4Dst=",
        Field::TcpSrcPort => " tcpSrcPort=",
        Field::TcpDstPort => " tcpDstPort=",
    }
}

/// Puts `S:B` at the end.
pub fn put_place(out: &mut String, sw: u64, pt: u64) -> Result<(), AllocError>
    ensures { OnOk result (string_bytes out.new ≡ string_bytes out.old ++ location_text sw pt) }
{
    put_number_and(out, sw, b':')?;
    put_number(out, pt)
}

/// Puts a packet at the end: `S:B` and then ` f=value` for the header.
pub fn put_packet(out: &mut String, packet: &Packet) -> Result<(), AllocError>
    ensures { OnOk result (string_bytes out.new ≡ string_bytes out.old ++ packet_text packet.now) }
{
    put_place(out, packet.sw, packet.pt)?;
    put_fields(out, packet, &Field::HEADER)
}

/// Puts fields with their numbers at the end, each after a blank.
pub fn put_fields(out: &mut String, packet: &Packet, fields: &[Field]) -> Result<(), AllocError>
    ensures { OnOk result (string_bytes out.new ≡ string_bytes out.old ++ fields_text packet.now fields.now) }
{
    for field in fields {
        put_headed(out, *field, packet.get(*field))?;
    }
    Ok(())
}
