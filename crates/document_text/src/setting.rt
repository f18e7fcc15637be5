//! The settings, and the line that begins a policy.
//!
//! Layer: texts that are read; private. Called by `take`.
ghost use Rattle.std.specs.Prelude.{◌≡◌, ◌≤◌, true, IfOk, OnOk};
ghost use Rattle.document_text.specs.States.{State, has_edge};
ghost use Rattle.document_text.specs.Lines.{set_once, one_numeral, two_numerals, new_number, hops_line, capacity_line};
ghost use Rattle.document_text.specs.Lines.{stamps_line, rejoins_line, overlap_line, policy_line};
ghost use Rattle.document_text.specs.Answers.{texts, state_of, Becomes, Forms, Leads, Lets};

use crate::declaration::LineKind;
use crate::fault::Stop;
use crate::reader::Reader;
use crate::words::number;
use nk_values::{GREATEST_VLAN_ID, TextFault};
use std::alloc::Global;

// The greatest hop limit, capacity and number of sessions that may be lost.
const MOST_HOPS: u64 = 1000;

const MOST_ROWS: u64 = 200_000;

const MOST_REJOINS: u64 = 1000;

// Stops if a setting may not stand here, or was given before.
fn set_once(reader: &Reader, alloc: Global, given: bool) -> Result<(), Stop>
    ensures tests { Lets {A = State} (set_once (state_of reader.now) given) result }
    ensures edge { OnOk result (has_edge reader.now.draft ≡ true) }
{
    if reader.is_late(LineKind::Setting) || given {
        return Err(Stop::Fault(TextFault::BadLine));
    }
    reader.after_topology(alloc)
}

fn one_numeral(words: &[&[u8]]) -> Result<u64, Stop>
    ensures { Forms (λ n. n) (one_numeral (texts words.now)) result }
{
    match words {
        [word] => number(word),
        _ => Err(Stop::Fault(TextFault::BadLine)),
    }
}

fn two_numerals(words: &[&[u8]]) -> Result<(u64, u64), Stop>
    ensures { Forms (λ x. x) (two_numerals (texts words.now)) result }
{
    match words {
        [first, second] => {
            let a = number(first)?;
            let b = number(second)?;
            Ok((a, b))
        }
        _ => Err(Stop::Fault(TextFault::BadLine)),
    }
}

// The number of a setting that was not given before, from `least` to `most`.
fn new_number(
    reader: &Reader,
    alloc: Global,
    words: &[&[u8]],
    given: bool,
    least: u64,
    most: u64,
) -> Result<u64, Stop>
    ensures leads { Leads {A = State} (new_number (state_of reader.now) given least most (texts words.now)) result }
    ensures range { IfOk result (λ n. n ≤ most) }
    ensures edge { OnOk result (has_edge reader.now.draft ≡ true) }
{
    let number = one_numeral(words)?;
    set_once(reader, alloc, given)?;
    if number < least || number > most {
        return Err(Stop::Fault(TextFault::ValueRange));
    }
    Ok(number)
}

/// Takes `hops N`.
pub fn hops_line(reader: &mut Reader, alloc: Global, words: &[&[u8]]) -> Result<(), Stop>
    ensures { Becomes (hops_line (state_of reader.old) (texts words.now)) (state_of reader.old) (state_of reader.new)
        result }
{
    let given = reader.declared.hops.is_some();
    let hops = new_number(reader, alloc, words, given, 1, MOST_HOPS)?;
    reader.declared.hops = Some(hops as u32);
    reader.declared.reached = LineKind::Setting;
    Ok(())
}

/// Takes `capacity N`.
pub fn capacity_line(reader: &mut Reader, alloc: Global, words: &[&[u8]]) -> Result<(), Stop>
    ensures { Becomes (capacity_line (state_of reader.old) (texts words.now)) (state_of reader.old)
        (state_of reader.new) result }
{
    let given = reader.declared.capacity.is_some();
    let capacity = new_number(reader, alloc, words, given, 1, MOST_ROWS)?;
    reader.declared.capacity = Some(capacity as u32);
    reader.declared.reached = LineKind::Setting;
    Ok(())
}

/// Takes `stamps LO HI`.
pub fn stamps_line(reader: &mut Reader, alloc: Global, words: &[&[u8]]) -> Result<(), Stop>
    ensures { Becomes (stamps_line (state_of reader.old) (texts words.now)) (state_of reader.old) (state_of reader.new)
        result }
{
    let (low, high) = two_numerals(words)?;
    set_once(reader, alloc, reader.declared.stamps.is_some())?;
    if low < 1 || low > high || high > u64::from(GREATEST_VLAN_ID) {
        return Err(Stop::Fault(TextFault::StampRange));
    }
    if low == high {
        return Err(Stop::Fault(TextFault::TooFewStamps));
    }
    reader.declared.stamps = Some((low as u16, high as u16));
    reader.declared.reached = LineKind::Setting;
    Ok(())
}

/// Takes `rejoins N`.
pub fn rejoins_line(reader: &mut Reader, alloc: Global, words: &[&[u8]]) -> Result<(), Stop>
    ensures { Becomes (rejoins_line (state_of reader.old) (texts words.now)) (state_of reader.old)
        (state_of reader.new) result }
{
    let given = reader.declared.rejoins.is_some();
    let rejoins = new_number(reader, alloc, words, given, 0, MOST_REJOINS)?;
    reader.declared.rejoins = Some(rejoins as u32);
    reader.declared.reached = LineKind::Setting;
    Ok(())
}

/// Takes `overlap`.
pub fn overlap_line(reader: &mut Reader, alloc: Global, words: &[&[u8]]) -> Result<(), Stop>
    ensures { Becomes (overlap_line (state_of reader.old) (texts words.now)) (state_of reader.old)
        (state_of reader.new) result }
{
    if !words.is_empty() {
        return Err(Stop::Fault(TextFault::BadLine));
    }
    set_once(reader, alloc, reader.declared.overlap)?;
    reader.declared.overlap = true;
    reader.declared.reached = LineKind::Setting;
    Ok(())
}

/// Takes `policy`, after which a policy's text begins.
pub fn policy_line(reader: &mut Reader, alloc: Global, words: &[&[u8]]) -> Result<(), Stop>
    ensures { Becomes (policy_line (state_of reader.old) (texts words.now)) (state_of reader.old) (state_of reader.new)
        result }
{
    if !words.is_empty() || reader.is_late(LineKind::Policy) {
        return Err(Stop::Fault(TextFault::BadLine));
    }
    reader.after_topology(alloc)?;
    reader.declared.reached = LineKind::Policy;
    Ok(())
}
