//! The beginnings of lines of events: a word and a number.
//!
//! Layer: the program; public. Called by `events` and `switch_lines` here, and by drive_text.
ghost use Rattle.std.specs.Prelude.{◌≡◌, ◌++◌, OnOk, string_bytes, codes};
ghost use Rattle.std.specs.Fmt.{decimal};
ghost use Rattle.event_words.specs.Words.{text_of};
ghost use Rattle.report_text.specs.Events.{number_at, worded};

use event_words::EventWord;
use std::alloc::AllocError;
use topology_model::DeclaredSwitch;
use value_text::put_number;

/// Puts the beginning of the line of an event at the end: `e `, a word and the number of the switch at a place.
pub fn put_named(
    out: &mut String,
    word: EventWord,
    switches: &[DeclaredSwitch],
    place: usize,
) -> Result<(), AllocError>
    ensures { OnOk result (string_bytes out.new ≡ string_bytes out.old ++
        (codes "e " ++ worded word (number_at switches.now place))) }
{
    out.push_str(head_of(word))?;
    put_switch(out, switches, place)
}

/// Puts the beginning of the line of an event at the end: `e `, a word and a number.
pub fn put_numbered(out: &mut String, word: EventWord, number: usize) -> Result<(), AllocError>
    ensures { OnOk result (string_bytes out.new ≡ string_bytes out.old ++
        (codes "e " ++ worded word (decimal number))) }
{
    out.push_str(head_of(word))?;
    put_number(out, number as u64)
}

/// What stands in a line before the number: one text for each word, since a report of updates has many lines.
pub(crate) fn head_of(word: EventWord) -> &'static str
    ensures { result.now ≡ codes "e " ++ (text_of word ++ codes " ") }
{
    match word {
        EventWord::Begin => "e begin ",
        EventWord::Send => "e send ",
        EventWord::Take => "e take ",
        EventWord::Apply => "e apply ",
        EventWord::Reply => "e reply ",
        EventWord::Heard => "e heard ",
        EventWord::Arrive => "e arrive ",
        EventWord::Hop => "e hop ",
        EventWord::Drained => "e drained ",
        EventWord::Lost => "e lost ",
        EventWord::Rejoin => "e rejoin ",
        EventWord::Stuck => "e stuck ",
        EventWord::Foreign => "e foreign ",
        EventWord::Garbled => "e garbled ",
        EventWord::Settle => "e settle ",
        EventWord::Flow => "e flow ",
    }
}

// Puts the number of the switch at a place at the end.
fn put_switch(out: &mut String, switches: &[DeclaredSwitch], place: usize) -> Result<(), AllocError>
    ensures { OnOk result (string_bytes out.new ≡ string_bytes out.old ++ number_at switches.now place) }
{
    match switches.get(place) {
        None => Ok(()),
        Some(site) => put_number(out, u64::from(site.sw)),
    }
}
