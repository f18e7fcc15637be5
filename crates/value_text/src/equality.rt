//! The texts of comparisons of two policies.
//!
//! Layer: the program; public. Called by equal_command.
ghost use Rattle.std.specs.Prelude.{◌≡◌, ◌++◌, OnOk, IfOk, string_bytes};
ghost use Rattle.value_text.specs.Equality.{equal_text, apart_text};

use crate::faults::put_pair;
use crate::text::Text;
use nk_values::Packet;
use std::alloc::{AllocError, Global};
use std::fmt::Write;

/// The line of two policies with the same results.
pub fn equal_text(alloc: Global) -> Result<Text, AllocError>
    ensures { IfOk result (λ t. t ≡ equal_text) }
{
    Ok(Text::new(String::from_str(alloc, "equal\n")?))
}

/// The line of two policies that are told apart: a packet, and an output that the policy of this number alone gives.
pub fn apart_text(
    alloc: Global,
    packet: &Packet,
    output: &Packet,
    policy: u64,
) -> Result<Text, AllocError>
    ensures { IfOk result (λ t. t ≡ apart_text packet.now output.now policy) }
{
    let mut out = String::new(alloc);
    put_apart(&mut out, packet, output, policy)?;
    Ok(Text::new(out))
}

// Puts that line at the end.
fn put_apart(
    out: &mut String,
    packet: &Packet,
    output: &Packet,
    policy: u64,
) -> Result<(), AllocError>
    ensures { OnOk result (string_bytes out.new ≡ string_bytes out.old ++ apart_text packet.now output.now policy) }
{
    out.push_str("apart")?;
    put_pair(out, packet, output)?;
    write!(out, " policy {policy}\n")
}
