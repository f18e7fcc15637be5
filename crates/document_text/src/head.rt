//! The first word of a line.
//!
//! Layer: texts that are read; private. Called by many modules. Clauses of report_laws name it.
ghost use Rattle.std.specs.Prelude.{◌≡◌};
ghost use Rattle.std.specs.Str.{bytes_eq};
ghost use Rattle.document_text.specs.Steps.{head_of};

/// What the first word of a line says that it is.
#[derive(Clone, Copy, Debug, PartialEq, Eq)]
pub enum Head {
    Switch,
    Link,
    Hops,
    Capacity,
    Stamps,
    Rejoins,
    Overlap,
    Policy,
    Packet,
    Schedule,
    Unlisted,
}

/// What this word says.
pub fn head_of(word: &[u8]) -> Head
    ensures { result ≡ head_of word.now }
{
    if is_text(word, "switch") {
        Head::Switch
    } else if is_text(word, "link") {
        Head::Link
    } else if is_text(word, "hops") {
        Head::Hops
    } else if is_text(word, "capacity") {
        Head::Capacity
    } else if is_text(word, "stamps") {
        Head::Stamps
    } else if is_text(word, "rejoins") {
        Head::Rejoins
    } else if is_text(word, "overlap") {
        Head::Overlap
    } else if is_text(word, "policy") {
        Head::Policy
    } else if is_text(word, "packet") {
        Head::Packet
    } else if is_text(word, "schedule") {
        Head::Schedule
    } else {
        Head::Unlisted
    }
}

/// Whether the bytes are those of a text.
pub fn is_text(bytes: &[u8], text: &str) -> bool
    ensures { result ≡ bytes_eq bytes.now text.now }
{
    bytes == text.as_bytes()
}
