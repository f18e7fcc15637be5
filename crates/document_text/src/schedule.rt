//! The schedule: its first line, and its events.
//!
//! Layer: texts that are read; private. Called by `take`.
ghost use Rattle.std.specs.Prelude.{◌≡◌};
ghost use Rattle.nk_values.specs.declared.field.Field.TheVariants.{Sw};
ghost use Rattle.event_words.specs.Words.{word_of};
ghost use Rattle.document_text.specs.Schedules.{arrival, at_switch, is_index, event_alone, event_of_one, event_of_two};
ghost use Rattle.document_text.specs.Schedules.{event_of};
ghost use Rattle.document_text.specs.Lines.{schedule_line};
ghost use Rattle.document_text.specs.Packets.{is_vlan_id};
ghost use Rattle.document_text.specs.Answers.{texts, state_of, Becomes, Forms, Matches, Ranges, NamesSwitch};

use crate::declaration::LineKind;
use crate::document::ScheduleStep;
use crate::fault::Stop;
use crate::reader::Reader;
use crate::topology::switch_of;
use crate::words::number;
use event_words::EventWord;
use nk_values::{GREATEST_VLAN_ID, TextFault};
use std::alloc::Global;

// The greatest place of a flow mod or a flight.
const LAST_INDEX: u64 = 0xffff_ffff;

/// Takes `schedule`, after which events stand.
pub fn schedule_line(reader: &mut Reader, alloc: Global, words: &[&[u8]]) -> Result<(), Stop>
    ensures { Becomes (schedule_line (state_of reader.old) (texts words.now)) (state_of reader.old)
        (state_of reader.new) result }
{
    if !words.is_empty() || reader.declared.reached.place() >= 5 {
        return Err(Stop::Fault(TextFault::BadLine));
    }
    reader.after_policies(alloc)?;
    reader.declared.reached = LineKind::Schedule;
    reader.declared.inside = true;
    Ok(())
}

/// The event of a line.
pub fn event_of(reader: &Reader, words: &[&[u8]]) -> Result<ScheduleStep, Stop>
    ensures { Matches (λ e. e) (event_of (state_of reader.now) (texts words.now)) result }
{
    match words {
        [word] => event_alone(word_of(word)?),
        [word, first] => {
            let word = word_of(word)?;
            event_of_one(reader, word, number(first)?)
        }
        [word, first, second] => {
            let word = word_of(word)?;
            let sw = number(first)?;
            let index = number(second)?;
            event_of_two(reader, word, sw, index)
        }
        _ => Err(Stop::Fault(TextFault::BadLine)),
    }
}

// A word of events, which has to be there.
fn word_of(word: &[u8]) -> Result<EventWord, Stop>
    ensures { Forms (λ w. w) (word_of word.now) result }
{
    match EventWord::of_bytes(word) {
        Some(word) => Ok(word),
        None => Err(Stop::Fault(TextFault::BadLine)),
    }
}

fn event_alone(word: EventWord) -> Result<ScheduleStep, Stop>
    ensures { Matches (λ e. e) (event_alone word) result }
{
    match word {
        EventWord::Begin => Ok(ScheduleStep::Begin),
        EventWord::Settle => Ok(ScheduleStep::Settle),
        EventWord::Flow => Ok(ScheduleStep::Flow),
        _ => Err(Stop::Fault(TextFault::BadLine)),
    }
}

// A command with one number.
fn event_of_one(reader: &Reader, word: EventWord, number: u64) -> Result<ScheduleStep, Stop>
    ensures { Matches (λ e. e) (event_of_one (state_of reader.now) word number) result }
{
    match word {
        EventWord::Send => Ok(ScheduleStep::Send(declared(reader, number)?)),
        EventWord::Take => Ok(ScheduleStep::Take(declared(reader, number)?)),
        EventWord::Reply => Ok(ScheduleStep::Reply(declared(reader, number)?)),
        EventWord::Heard => Ok(ScheduleStep::Heard(declared(reader, number)?)),
        EventWord::Lost => Ok(ScheduleStep::Lost(declared(reader, number)?)),
        EventWord::Rejoin => Ok(ScheduleStep::Rejoin(declared(reader, number)?)),
        EventWord::Arrive => arrive(reader, number),
        EventWord::Hop => Ok(ScheduleStep::Hop(index_of(number)?)),
        EventWord::Stuck => Ok(ScheduleStep::Stuck(index_of(number)?)),
        EventWord::Drained => Ok(ScheduleStep::Drained(stamp_of(number)?)),
        _ => Err(Stop::Fault(TextFault::BadLine)),
    }
}

// The arrival of a packet line.
fn arrive(reader: &Reader, number: u64) -> Result<ScheduleStep, Stop>
    ensures { Matches (λ e. e) (arrival (state_of reader.now) number) result }
{
    if number >= 1 && number <= reader.declared.packets.len() as u64 {
        Ok(ScheduleStep::Arrive(number as usize))
    } else {
        Err(Stop::Fault(TextFault::BadLine))
    }
}

// `apply` with a switch and the place of a flow mod.
fn event_of_two(reader: &Reader, word: EventWord, sw: u64, index: u64) -> Result<ScheduleStep, Stop>
    ensures { Matches (λ e. e) (event_of_two (state_of reader.now) word sw index) result }
{
    if word != EventWord::Apply {
        return Err(Stop::Fault(TextFault::BadLine));
    }
    let index = index_of(index)?;
    Ok(ScheduleStep::Apply(declared(reader, sw)?, index))
}

// A switch that the topology declares.
fn declared(reader: &Reader, number: u64) -> Result<u16, Stop>
    ensures { NamesSwitch (state_of reader.now) number result }
{
    let sw = switch_of(number)?;
    if reader.draft.has_switch(sw) {
        Ok(sw)
    } else {
        Err(Stop::Fault(TextFault::UnknownSwitch))
    }
}

// The place of a flow mod or a flight.
fn index_of(number: u64) -> Result<u32, Stop>
    ensures { Ranges (is_index number) (λ n. n ≡ number) result }
{
    if number <= LAST_INDEX {
        Ok(number as u32)
    } else {
        Err(Stop::Fault(TextFault::ValueRange))
    }
}

fn stamp_of(number: u64) -> Result<u16, Stop>
    ensures { Ranges (is_vlan_id number) (λ n. n ≡ number) result }
{
    if number >= 1 && number <= u64::from(GREATEST_VLAN_ID) {
        Ok(number as u16)
    } else {
        Err(Stop::Fault(TextFault::ValueRange))
    }
}
