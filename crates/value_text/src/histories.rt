//! The texts of histories.
//!
//! Layer: the program; public. Called by `lines` here, and by report_text.
ghost use Rattle.std.specs.Prelude.{◌≡◌, ◌++◌, [], true, OnOk, IfOk, string_bytes};
ghost use Rattle.value_text.specs.Histories.{changed, more_fields, braced, step_text, steps_text, path_text};
ghost use Rattle.value_text.specs.Histories.{history_text};

use crate::text::Text;
use crate::values::{put_ascii, put_field, put_place};
use nk_values::{Field, History, Packet};
use std::alloc::{AllocError, Global};

/// A history, oldest packet first: for each packet `S:B`, joined by `>`, and after each but the first the
/// header fields that changed, between braces.
pub fn history_text(alloc: Global, history: &History) -> Result<Text, AllocError>
    ensures { IfOk result (λ t. t ≡ history_text history.now) }
{
    let mut out = String::new(alloc);
    put_history(alloc, &mut out, history)?;
    Ok(Text::new(out))
}

/// Puts a history at the end.
pub fn put_history(alloc: Global, out: &mut String, history: &History) -> Result<(), AllocError>
    ensures { OnOk result (string_bytes out.new ≡ string_bytes out.old ++ history_text history.now) }
{
    put_path(alloc, out, &history.older(alloc)?, history.newest())
}

// Puts a path at the end: these packets, and the last one.
fn put_path(
    alloc: Global,
    out: &mut String,
    packets: &[Packet],
    newest: &Packet,
) -> Result<(), AllocError>
    ensures { OnOk result (string_bytes out.new ≡ string_bytes out.old ++ path_text packets.now newest.now) }
{
    match packets.split_first() {
        None => put_place(out, newest.sw, newest.pt),
        Some((first, more)) => {
            put_place(out, first.sw, first.pt)?;
            put_steps(alloc, out, first, more, newest)
        }
    }
}

// Puts the packets after one at the end, and the last one.
fn put_steps(
    alloc: Global,
    out: &mut String,
    first: &Packet,
    packets: &[Packet],
    newest: &Packet,
) -> Result<(), AllocError>
    ensures { OnOk result (string_bytes out.new ≡ string_bytes out.old ++ steps_text first.now packets.now newest.now) }
{
    let mut last = *first;
    for packet in packets {
        put_step(alloc, out, &last, packet)?;
        last = *packet;
    }
    put_step(alloc, out, &last, newest)
}

// Puts a packet after another at the end.
fn put_step(
    alloc: Global,
    out: &mut String,
    before: &Packet,
    packet: &Packet,
) -> Result<(), AllocError>
    ensures { OnOk result (string_bytes out.new ≡ string_bytes out.old ++ step_text before.now packet.now) }
{
    put_ascii(out, b'>')?;
    put_place(out, packet.sw, packet.pt)?;
    if keeps_header(before, packet) {
        return Ok(());
    }
    put_braced(out, packet, &changed(alloc, before, packet)?)
}

// Whether a packet has the header of the one before.
fn keeps_header(before: &Packet, packet: &Packet) -> bool
    ensures { result ≡ true → changed before.now packet.now ≡ [] }
{
    let old = &before.header;
    let new = &packet.header;
    old.eth_typ == new.eth_typ
        && old.ip_proto == new.ip_proto
        && old.eth_src == new.eth_src
        && old.eth_dst == new.eth_dst
        && old.ip4_src == new.ip4_src
        && old.ip4_dst == new.ip4_dst
        && old.tcp_src_port == new.tcp_src_port
        && old.tcp_dst_port == new.tcp_dst_port
}

// The header fields in which a packet differs from the one before.
fn changed(alloc: Global, before: &Packet, packet: &Packet) -> Result<Vec<Field>, AllocError>
    ensures { IfOk result (λ v. v.items ≡ changed before.now packet.now) }
{
    Field::HEADER
        .iter()
        .copied()
        .filter(|field| !(before.get(*field) == packet.get(*field)))
        .collect(alloc)
}

// Puts fields of a packet at the end, between braces, if there are any.
fn put_braced(out: &mut String, packet: &Packet, fields: &[Field]) -> Result<(), AllocError>
    ensures { OnOk result (string_bytes out.new ≡ string_bytes out.old ++ braced packet.now fields.now) }
{
    let Some((first, more)) = fields.split_first() else {
        return Ok(());
    };
    put_ascii(out, b'{')?;
    put_field(out, *first, packet.get(*first))?;
    put_more_fields(out, packet, more)?;
    put_ascii(out, b'}')
}

// Puts fields at the end, each after a comma.
fn put_more_fields(out: &mut String, packet: &Packet, fields: &[Field]) -> Result<(), AllocError>
    ensures { OnOk result (string_bytes out.new ≡ string_bytes out.old ++ more_fields packet.now fields.now) }
{
    for field in fields {
        put_ascii(out, b',')?;
        put_field(out, *field, packet.get(*field))?;
    }
    Ok(())
}
