//! The lines of histories.
//!
//! Layer: the program; public. Called by `traces` here, and by report_text.
ghost use Rattle.std.specs.Prelude.{◌≡◌, ◌++◌, OnOk, IfOk, map, string_bytes};
ghost use Rattle.std.specs.List.{flat_map};
ghost use Rattle.nk_values.specs.Members.{SameMembers};
ghost use Rattle.value_text.specs.Values.{line};
ghost use Rattle.value_text.specs.Histories.{history_text};
ghost use Rattle.value_text.specs.Traces.{Ascends, AreLinesOf};

use crate::histories::put_history;
use crate::values::put_ascii;
use nk_values::History;
use std::alloc::{AllocError, Global};

/// The lines of histories, each once, in byte order.
pub fn history_lines(
    alloc: Global,
    head: &str,
    histories: &[History],
) -> Result<Vec<String>, AllocError>
    ensures { IfOk result (λ v. AreLinesOf head.now histories.now (map string_bytes v.items)) }
{
    let mut lines = all_lines(alloc, head, histories)?;
    sort_lines(&mut lines)?;
    Ok(lines)
}

// The line of each history.
fn all_lines(alloc: Global, head: &str, histories: &[History]) -> Result<Vec<String>, AllocError>
    ensures { IfOk result (λ v. map string_bytes v.items ≡ map (λ h. head.now ++ history_text h) histories.now) }
{
    let mut lines = Vec::new(alloc);
    for history in histories {
        lines.push(line_of(alloc, head, history)?)?;
    }
    Ok(lines)
}

/// The line of a history, after these words.
pub fn line_of(alloc: Global, head: &str, history: &History) -> Result<String, AllocError>
    ensures { IfOk result (λ s. string_bytes s ≡ head.now ++ history_text history.now) }
{
    let mut line = String::from_str(alloc, head)?;
    put_history(alloc, &mut line, history)?;
    Ok(line)
}

/// Brings lines into byte order, equal ones once.
pub fn sort_lines(lines: &mut Vec<String>) -> Result<(), AllocError>
    ensures order { OnOk result (Ascends (map string_bytes lines.new.items)) }
    ensures members { OnOk result (SameMembers (map string_bytes lines.new.items) (map string_bytes lines.old.items)) }
{
    lines.sort()?;
    lines.dedup();
    Ok(())
}

/// Puts lines at the end.
pub fn put_lines(out: &mut String, lines: &[String]) -> Result<(), AllocError>
    ensures { OnOk result (string_bytes out.new ≡ string_bytes out.old ++ flat_map line (map string_bytes lines.now)) }
{
    for line in lines {
        out.push_str(line)?;
        put_ascii(out, b'\n')?;
    }
    Ok(())
}
