//! The lines of the topology.
//!
//! Layer: texts that are read; private. Called by `packet`, `schedule` and `take`.
ghost use Rattle.std.specs.Prelude.{◌≡◌, false, nat_le};
ghost use Rattle.std.specs.List.{list_all};
ghost use Rattle.nk_values.specs.declared.field.Field.TheVariants.{Sw, Pt};
ghost use Rattle.topology_model.specs.Lines.{IsLineInRange};
ghost use Rattle.document_text.specs.Packets.{is_value};
ghost use Rattle.document_text.specs.States.{place_of_kind};
ghost use Rattle.document_text.specs.Lines.{switch_form, switch_line, link_form, link_line, is_end_value, placed};
ghost use Rattle.document_text.specs.Answers.{texts, state_of, Becomes, Forms, Ranges};

use crate::declaration::LineKind;
use crate::fault::Stop;
use crate::head::is_text;
use crate::reader::Reader;
use crate::words::{end_of, number, numbers};
use nk_values::{Field, TextFault};
use std::alloc::Global;
use topology_model::{LineError, PortRef, Ports, TopoLine};

/// Takes `switch S ports B1 B2 ..`.
pub fn switch_line(reader: &mut Reader, alloc: Global, words: &[&[u8]]) -> Result<(), Stop>
    ensures { Becomes (switch_line (state_of reader.old) (texts words.now)) (state_of reader.old) (state_of reader.new)
        result }
{
    let (number, numbers) = switch_form(alloc, words)?;
    if reader.is_late(LineKind::Switch) {
        return Err(Stop::Fault(TextFault::BadLine));
    }
    let sw = switch_of(number)?;
    let in_range = ports_of(alloc, &numbers)?;
    let ports = Ports::of(in_range);
    placed(
        reader,
        alloc,
        LineKind::Switch,
        &TopoLine::Switch { sw, ports },
    )
}

// The numbers of a switch and its ports.
fn switch_form(alloc: Global, words: &[&[u8]]) -> Result<(u64, Vec<u64>), Stop>
    ensures { Forms (λ x. (x.0, x.1.items)) (switch_form (texts words.now)) result }
{
    match words {
        [first, ports, _, ..] if is_text(ports, "ports") => {
            let sw = number(first)?;
            let numbers = numbers(alloc, &words[2..])?;
            Ok((sw, numbers))
        }
        _ => Err(Stop::Fault(TextFault::BadLine)),
    }
}

// The ports with these numbers, where all are in their range.
fn ports_of(alloc: Global, numbers: &[u64]) -> Result<Vec<u16>, Stop>
    ensures { Ranges (list_all (is_value Pt) numbers.now) (λ v. v.items ≡ numbers.now) result }
{
    let mut ports = Vec::new(alloc);
    for number in numbers {
        ports.push(port_of(*number)?)?;
    }
    Ok(ports)
}

/// The switch with this number, if it is in its range.
pub fn switch_of(number: u64) -> Result<u16, Stop>
    ensures { Ranges (is_value Sw number) (λ n. n ≡ number) result }
{
    if Field::Sw.is_value(number) {
        Ok(number as u16)
    } else {
        Err(Stop::Fault(TextFault::ValueRange))
    }
}

/// The port with this number, if it is in its range.
pub fn port_of(number: u64) -> Result<u16, Stop>
    ensures { Ranges (is_value Pt number) (λ n. n ≡ number) result }
{
    if Field::Pt.is_value(number) {
        Ok(number as u16)
    } else {
        Err(Stop::Fault(TextFault::ValueRange))
    }
}

/// The end with these numbers, if both are in their range.
pub fn end_in_range(numbers: (u64, u64)) -> Result<PortRef, Stop>
    ensures { Ranges (is_end_value numbers) (λ e. e ≡ numbers) result }
{
    let sw = switch_of(numbers.0)?;
    let pt = port_of(numbers.1)?;
    Ok((sw, pt))
}

/// Takes `link S:B S:B`.
pub fn link_line(reader: &mut Reader, alloc: Global, words: &[&[u8]]) -> Result<(), Stop>
    ensures { Becomes (link_line (state_of reader.old) (texts words.now)) (state_of reader.old) (state_of reader.new)
        result }
{
    let (first, second) = link_form(words)?;
    if reader.is_late(LineKind::Link) {
        return Err(Stop::Fault(TextFault::BadLine));
    }
    let a = end_in_range(first)?;
    let b = end_in_range(second)?;
    placed(reader, alloc, LineKind::Link, &TopoLine::Link { a, b })
}

// The numbers of the two ends.
fn link_form(words: &[&[u8]]) -> Result<((u64, u64), (u64, u64)), Stop>
    ensures { Forms (λ x. x) (link_form (texts words.now)) result }
{
    match words {
        [first, second] => {
            let a = end_of(first)?;
            let b = end_of(second)?;
            Ok((a, b))
        }
        _ => Err(Stop::Fault(TextFault::BadLine)),
    }
}

// With one more line of the topology.
fn placed(reader: &mut Reader, alloc: Global, kind: LineKind, line: &TopoLine) -> Result<(), Stop>
    requires in_range { IsLineInRange line.now }
    requires kind { nat_le 2 (place_of_kind kind) ≡ false }
    ensures { Becomes (placed (state_of reader.old) kind line.now) (state_of reader.old) (state_of reader.new) result }
{
    match reader.draft.add(alloc, line) {
        Ok(()) => {
            reader.declared.reached = kind;
            Ok(())
        }
        Err(LineError::Fault(fault)) => Err(Stop::Fault(fault)),
        Err(LineError::Memory) => Err(Stop::Memory),
    }
}
