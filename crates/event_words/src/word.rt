//! The table of words.
//!
//! Layer: texts that are read; public. Called by document_text, drive_text and report_text. Clauses of report_laws name
//! it.
ghost use Rattle.std.specs.Prelude.{◌≡◌};
ghost use Rattle.event_words.specs.Words.{text_of, word_of};

/// The word that names an event. `Settle` and `Flow` stand for many events, and only schedules have them. Only reports
/// of the world have `Foreign`, and only those of outside switches `Garbled`.
#[derive(Clone, Copy, Debug, PartialEq, Eq)]
pub enum EventWord {
    Begin,
    Send,
    Take,
    Apply,
    Reply,
    Heard,
    Arrive,
    Hop,
    Drained,
    Lost,
    Rejoin,
    Stuck,
    Foreign,
    Garbled,
    Settle,
    Flow,
}

impl EventWord {
    /// All words.
    pub const ALL: [EventWord; 16] = [
        EventWord::Begin,
        EventWord::Send,
        EventWord::Take,
        EventWord::Apply,
        EventWord::Reply,
        EventWord::Heard,
        EventWord::Arrive,
        EventWord::Hop,
        EventWord::Drained,
        EventWord::Lost,
        EventWord::Rejoin,
        EventWord::Stuck,
        EventWord::Foreign,
        EventWord::Garbled,
        EventWord::Settle,
        EventWord::Flow,
    ];

    /// The word as it is written in schedules and reports.
    pub fn text(self) -> &'static str
        ensures { result.now ≡ text_of self }
    {
        match self {
            EventWord::Begin => "begin",
            EventWord::Send => "send",
            EventWord::Take => "take",
            EventWord::Apply => "apply",
            EventWord::Reply => "reply",
            EventWord::Heard => "heard",
            EventWord::Arrive => "arrive",
            EventWord::Hop => "hop",
            EventWord::Drained => "drained",
            EventWord::Lost => "lost",
            EventWord::Rejoin => "rejoin",
            EventWord::Stuck => "stuck",
            EventWord::Foreign => "foreign",
            EventWord::Garbled => "garbled",
            EventWord::Settle => "settle",
            EventWord::Flow => "flow",
        }
    }

    /// The word that these bytes are, if they are one.
    pub fn of_bytes(bytes: &[u8]) -> Option<EventWord>
        ensures { result ≡ word_of bytes.now }
    {
        EventWord::ALL
            .iter()
            .copied()
            .find(|word| bytes == word.text().as_bytes())
    }
}
