//! The texts of traces.
//!
//! Layer: the program; public. Called by plain_commands and report_text.
ghost use Rattle.std.specs.Prelude.{◌≡◌, ◌++◌, OnOk, IfOk, map, string_bytes, decimal, codes};
ghost use Rattle.value_text.specs.Traces.{AddsText, IsPacketText, AreTexts, IsPolicyText, IsTraceText};
ghost use Rattle.value_text.specs.Values.{line};

use crate::lines::{history_lines, put_lines};
use crate::text::Text;
use packet_tracer::Walk;
use std::alloc::{AllocError, Global};
use std::fmt::Write;

/// What becomes of packets under policies: for each policy the walks of the packets, in order. A packet has a
/// line `done` for each finished history, and then a line `open` for each copy in flight, sorted by bytes,
/// equal lines once.
pub fn trace_text(alloc: Global, walks: &[Vec<Walk>]) -> Result<Text, AllocError>
    ensures { IfOk result (λ t. IsTraceText (map (λ v. v.items) walks.now) t) }
{
    let mut out = String::new(alloc);
    for (before, walks) in walks.iter().enumerate() {
        put_policy(alloc, &mut out, before as u64 + 1, walks)?;
    }
    Ok(Text::new(out))
}

// Puts the lines of a policy at the end.
fn put_policy(
    alloc: Global,
    out: &mut String,
    policy: u64,
    walks: &[Walk],
) -> Result<(), AllocError>
    ensures { OnOk result (AddsText (IsPolicyText policy walks.now) (string_bytes out.old) (string_bytes out.new)) }
{
    put_policy_line(out, policy)?;
    put_packets(alloc, out, walks)
}

/// Puts the line of a policy, by its number from 1, at the end. What becomes of its packets follows.
pub fn put_policy_line(out: &mut String, policy: u64) -> Result<(), AllocError>
    ensures { OnOk result (string_bytes out.new ≡ string_bytes out.old ++ line (codes "policy " ++ decimal policy)) }
{
    write!(out, "policy {policy}\n")?;
    Ok(())
}

// Puts the lines of packets at the end.
fn put_packets(alloc: Global, out: &mut String, walks: &[Walk]) -> Result<(), AllocError>
    ensures { OnOk result (AddsText (AreTexts IsPacketText 0 walks.now) (string_bytes out.old) (string_bytes out.new)) }
{
    for (before, walk) in walks.iter().enumerate() {
        put_walk(alloc, out, before as u64 + 1, walk)?;
    }
    Ok(())
}

/// Puts what becomes of a packet, by its number from 1, at the end: a line `done` for each finished history, and
/// then a line `open` for each copy in flight, sorted by bytes, equal lines once.
pub fn put_walk(alloc: Global, out: &mut String, packet: u64, walk: &Walk) -> Result<(), AllocError>
    ensures { OnOk result (AddsText (IsPacketText packet walk.now) (string_bytes out.old) (string_bytes out.new)) }
{
    let done = history_lines(alloc, "done ", &walk.finished)?;
    let open = history_lines(alloc, "open ", &walk.in_flight)?;
    write!(out, "packet {packet}\n")?;
    put_lines(out, &done)?;
    put_lines(out, &open)
}
