//! What a reader of a policy's text keeps.
//!
//! Layer: texts that are read; public. Called by `parse` and `reader` here, and by document_text and policy_cases.
ghost use Rattle.std.specs.Prelude.{◌<◌, ◌+◌, ◌^◌, length};

use crate::fault::{ParseFault, Position};
use crate::reading::Reading;
use bytes::BytesMut;

/// Reads a policy's text that comes in pieces of any size. It keeps what was read as terms, the bytes of the
/// sign or value that may go on, and the first fault. It does not keep the text.
#[derive(Drop)]
pub struct PolicyReader {
    pub(crate) reading: Reading,
    pub(crate) in_comment: bool,
    pub(crate) pending: BytesMut,
    pub(crate) position: Position,
    pub(crate) room: u64,
    pub(crate) look: usize,
    pub(crate) fault: Option<ParseFault>,
    ghost lines: { position.line + length pending.items + room < 2 ^ 64 },
    ghost columns: { position.column + length pending.items + room < 2 ^ 64 },
}
