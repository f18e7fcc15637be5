//! The lines of events that name one switch, made once for each: most of a report consists of them.
//!
//! Layer: the program; private. Called by `events`.
ghost use Rattle.std.specs.Prelude.{◌≡◌, List, IfOk, IfSome, map, string_bytes};
ghost use Rattle.topology_model.specs.declared.line.DeclaredSwitch.{DeclaredSwitch as SwitchValue};
ghost use Rattle.report_text.specs.Events.{event_line};
ghost use Rattle.report_text.specs.SwitchLines.{apply_line, number_of, word_line};

use crate::heads::put_numbered;
use event_words::EventWord;
use std::alloc::{AllocError, Global};
use std::marker::Model;
use topology_model::DeclaredSwitch;
use value_text::put_number;
use world_core::{ControllerEvent, Event, SwitchEvent};

/// The lines of a switch: for a message sent, taken or heard, for the first pending flow mod, and for a barrier
/// that is answered. Clauses see its number.
#[derive(Drop)]
pub(crate) struct SwitchLines {
    number: u16,
    send: String,
    take: String,
    apply: String,
    reply: String,
    heard: String,
}

impl Model for SwitchLines {
    ghost use Rattle.std.specs.Prelude.{ℕ, string_bytes};
    ghost use Rattle.report_text.specs.SwitchLines.{AreSwitchLines};

    ghost Value = { ℕ };

    ghost view = { λ l. l.number };

    ghost invariant = { λ l. AreSwitchLines l.number (string_bytes l.send) (string_bytes l.take) (string_bytes l.apply)
        (string_bytes l.reply) (string_bytes l.heard) };
}

/// Those of all switches.
pub(crate) fn lines_of_all(
    alloc: Global,
    switches: &[DeclaredSwitch],
) -> Result<Vec<SwitchLines>, AllocError>
    ensures { IfOk result (λ v. v.items ≡ map number_of switches.now) }
{
    let mut lines = Vec::new(alloc);
    for switch in switches {
        lines.push(lines_of(alloc, switch.sw)?)?;
    }
    Ok(lines)
}

// Those of the switch with this number.
fn lines_of(alloc: Global, number: u16) -> Result<SwitchLines, AllocError>
    ensures { IfOk result (λ l. l ≡ number) }
{
    Ok(SwitchLines {
        number,
        send: line_of(alloc, EventWord::Send, number)?,
        take: line_of(alloc, EventWord::Take, number)?,
        apply: first_apply(alloc, number)?,
        reply: line_of(alloc, EventWord::Reply, number)?,
        heard: line_of(alloc, EventWord::Heard, number)?,
    })
}

// The line of a word and a number.
fn line_of(alloc: Global, word: EventWord, number: u16) -> Result<String, AllocError>
    ensures { IfOk result (λ s. string_bytes s ≡ word_line word number) }
{
    let mut line = String::new(alloc);
    put_numbered(&mut line, word, usize::from(number))?;
    line.push('\n')?;
    Ok(line)
}

// The line of the first flow mod that is pending at the switch with this number.
fn first_apply(alloc: Global, number: u16) -> Result<String, AllocError>
    ensures { IfOk result (λ s. string_bytes s ≡ apply_line number) }
{
    let mut line = String::new(alloc);
    put_numbered(&mut line, EventWord::Apply, usize::from(number))?;
    line.push(' ')?;
    put_number(&mut line, 0)?;
    line.push('\n')?;
    Ok(line)
}

/// The line of an event, if it is among those of its switch.
#[inline]
pub(crate) fn kept_line<'a>(lines: &'a [SwitchLines], event: &Event) -> Option<&'a str>
    ensures { (switches : List SwitchValue) → lines.now ≡ map number_of switches →
        IfSome result (λ t. t.now ≡ event_line switches event.now) }
{
    match event {
        Event::Controller(ControllerEvent::Send(place)) => Some(&lines.get(*place)?.send),
        Event::Controller(ControllerEvent::Heard(place)) => Some(&lines.get(*place)?.heard),
        Event::Switch(SwitchEvent::Take(place)) => Some(&lines.get(*place)?.take),
        Event::Switch(SwitchEvent::Apply(place, 0)) => Some(&lines.get(*place)?.apply),
        Event::Switch(SwitchEvent::Reply(place)) => Some(&lines.get(*place)?.reply),
        _ => None,
    }
}
