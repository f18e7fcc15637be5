//! What a reader of documents keeps.
//!
//! Layer: texts that are read; public. Called by many modules here, and by document_cases, program_answer and
//! text_tests.
ghost use Rattle.std.specs.Prelude.{◌≤◌, ◌+◌, length};

use crate::fault::DocFault;
use crate::reader::Reader;
use bytes::BytesMut;
use netkat_parser::{PolicyReader, Position};

/// What is read next. The number in `Text`, `Inside` and `Closing` is the line at which the policy began.
#[derive(Clone, Copy, Debug)]
pub enum Spot {
    /// A line of the document.
    Line,
    /// A line of a policy's text.
    Text(u64),
    /// The rest of a line of a policy's text, which is not its `end` line.
    Inside(u64),
    /// Nothing yet: the `end` line was read, and the policy is still to be made.
    Closing(u64),
    /// Nothing more: the first fault was met.
    Refused(DocFault),
}

/// Reads a document that comes in pieces of any size. It keeps what was read as terms and lines, the bytes of the
/// line or token that may go on, and the first fault. It does not keep the text.
#[derive(Drop)]
pub struct DocReader {
    pub(crate) reader: Reader,
    pub(crate) spot: Spot,
    // The number of the line at the spot, or of the one inside of which it is.
    pub(crate) line: u64,
    // Of the policy in whose text the spot is, and the place after what it was fed.
    pub(crate) policy: PolicyReader,
    pub(crate) behind: Position,
    pub(crate) pending: BytesMut,
    // How many bytes that count were fed, at most one more than a document has, and the number of the line of the
    // byte after those that a document may have.
    pub(crate) fed: usize,
    pub(crate) row: u64,
    // The number of pending bytes at which they are gone through.
    pub(crate) look: usize,
    ghost few: { fed ≤ 4194305 },
    ghost held: { length pending.items ≤ fed },
    ghost rows: { row ≤ fed + 1 },
    ghost lines: { line + length pending.items ≤ fed + 1 },
    ghost place_lines: { behind.line + length pending.items ≤ fed + 1 },
    ghost place_columns: { behind.column + length pending.items ≤ fed + 1 },
}
