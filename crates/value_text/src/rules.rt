//! The texts of rows.
//!
//! Layer: the program; public. Called by audit_command and report_text.
ghost use Rattle.std.specs.Prelude.{◌≡◌, ◌++◌, OnOk, IfOk, string_bytes};
ghost use Rattle.value_text.specs.Values.{line};
ghost use Rattle.value_text.specs.Rules.{set_text, set_words, action_text, actions_text, row_text, rows_text};
ghost use Rattle.value_text.specs.Rules.{port_text, switch_text, band_text, head_text, version_text, rules_text};

use crate::numbers::put_number;
use crate::text::Text;
use crate::values::{put_ascii, put_value};
use nk_values::{Action, Band, Field, IN_PORT, PortRows, Row, Rows};
use policy_rows::Version;
use std::alloc::{AllocError, Global};
use topology_model::{DeclaredSwitch, Topology};

mod patterns;

use patterns::put_pattern;

/// The rows of all policies, which count from 1: for each its stamp and band, and switch by switch the rows of
/// its ports, in the order in which they count.
pub fn rules_text(
    alloc: Global,
    versions: &[Version],
    topology: &Topology,
) -> Result<Text, AllocError>
    ensures { IfOk result (λ t. t ≡ rules_text versions.now topology.now) }
{
    let mut out = String::new(alloc);
    for (before, version) in versions.iter().enumerate() {
        put_version(
            &mut out,
            before as u64 + 1,
            &version.rows,
            topology.switches(),
        )?;
    }
    Ok(Text::new(out))
}

// Puts the rows of a policy at the end.
fn put_version(
    out: &mut String,
    policy: u64,
    rows: &Rows,
    sites: &[DeclaredSwitch],
) -> Result<(), AllocError>
    ensures { OnOk result (string_bytes out.new ≡ string_bytes out.old ++ version_text policy rows.now sites.now) }
{
    put_head(out, policy, rows)?;
    for site in sites {
        put_switch(out, rows.ports.as_slice(), site)?;
    }
    Ok(())
}

// Puts the line of a policy at the end.
fn put_head(out: &mut String, policy: u64, rows: &Rows) -> Result<(), AllocError>
    ensures { OnOk result (string_bytes out.new ≡ string_bytes out.old ++ head_text policy rows.now) }
{
    out.push_str("policy ")?;
    put_number(out, policy)?;
    out.push_str(" stamp ")?;
    put_number(out, u64::from(rows.stamp))?;
    out.push_str(band(rows.band))?;
    out.push_str("\n")
}

fn band(band: Band) -> &'static str
    ensures { result.now ≡ band_text band }
{
    match band {
        Band::High => " band high",
        Band::Low => " band low",
    }
}

// Puts a switch and the rows of its ports at the end.
fn put_switch(out: &mut String, ports: &[PortRows], site: &DeclaredSwitch) -> Result<(), AllocError>
    ensures { OnOk result (string_bytes out.new ≡ string_bytes out.old ++ switch_text ports.now site.now) }
{
    out.push_str("switch ")?;
    put_number(out, u64::from(site.sw))?;
    out.push_str("\n")?;
    for port in ports {
        put_port_at(out, port, site.sw)?;
    }
    Ok(())
}

// Puts the rows of a port at the end, if it is the switch's.
fn put_port_at(out: &mut String, port: &PortRows, sw: u16) -> Result<(), AllocError>
    ensures { OnOk result (string_bytes out.new ≡ string_bytes out.old ++ port_text sw port.now) }
{
    if port.sw == sw {
        put_rows(out, port.rows.as_slice())?;
    }
    Ok(())
}

fn put_rows(out: &mut String, rows: &[Row]) -> Result<(), AllocError>
    ensures { OnOk result (string_bytes out.new ≡ string_bytes out.old ++ rows_text rows.now) }
{
    for row in rows {
        put_row(out, row)?;
    }
    Ok(())
}

/// Puts the line of a row at the end: its priority, what it fixes, and its actions.
pub fn put_row(out: &mut String, row: &Row) -> Result<(), AllocError>
    ensures { OnOk result (string_bytes out.new ≡ string_bytes out.old ++ line (row_text row.now)) }
{
    put_number(out, u64::from(row.priority))?;
    put_pattern(out, &row.pattern)?;
    out.push_str(" : ")?;
    put_actions(out, row.actions.as_slice())?;
    put_ascii(out, b'\n')
}

// Puts actions at the end, joined by commas, or `drop`.
fn put_actions(out: &mut String, actions: &[Action]) -> Result<(), AllocError>
    ensures { OnOk result (string_bytes out.new ≡ string_bytes out.old ++ actions_text actions.now) }
{
    let Some((first, more)) = actions.split_first() else {
        return out.push_str("drop");
    };
    put_action(out, first)?;
    for action in more {
        out.push_str(", ")?;
        put_action(out, action)?;
    }
    Ok(())
}

fn put_action(out: &mut String, action: &Action) -> Result<(), AllocError>
    ensures { OnOk result (string_bytes out.new ≡ string_bytes out.old ++ action_text action.now) }
{
    match action {
        // a packet's own port, which many rows send to
        Action::Output(IN_PORT) => out.push_str("output 65528"),
        Action::Output(port) => {
            out.push_str("output ")?;
            put_number(out, u64::from(*port))
        }
        Action::SetVlanVid(id) => {
            out.push_str("vlan ")?;
            put_number(out, u64::from(*id))
        }
        Action::StripVlan => out.push_str("strip"),
        Action::SetDlSrc(number) => put_set(out, Field::EthSrc, *number),
        Action::SetDlDst(number) => put_set(out, Field::EthDst, *number),
        Action::SetNwSrc(number) => put_set(out, Field::Ip4Src, u64::from(*number)),
        Action::SetNwDst(number) => put_set(out, Field::Ip4Dst, u64::from(*number)),
        Action::SetTpSrc(number) => put_set(out, Field::TcpSrcPort, u64::from(*number)),
        Action::SetTpDst(number) => put_set(out, Field::TcpDstPort, u64::from(*number)),
    }
}

// Puts the setting of a field at the end.
fn put_set(out: &mut String, field: Field, number: u64) -> Result<(), AllocError>
    ensures { OnOk result (string_bytes out.new ≡ string_bytes out.old ++ set_text field number) }
{
    out.push_str(set_words(field))?;
    put_value(out, field, number)
}

// The words in front of the number.
fn set_words(field: Field) -> &'static str
    ensures { result.now ≡ set_words field }
{
    match field {
        Field::Sw => "set sw ",
        Field::Pt => "set pt ",
        Field::EthTyp => "set ethTyp ",
        Field::IpProto => "set ipProto ",
        Field::EthSrc => "set ethSrc ",
        Field::EthDst => "set ethDst ",
        Field::Ip4Src => "set ip4Src ",
        Field::Ip4Dst => "set ip4Dst ",
        Field::TcpSrcPort => "set tcpSrcPort ",
        Field::TcpDstPort => "set tcpDstPort ",
    }
}
