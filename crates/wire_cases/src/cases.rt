//! What is printed for a line.
//!
//! Layer: tests; private. Called by the root of the crate.
use crate::short::short;
use bytes::BytesMut;
use of_framing::{Framer, take_whole};
use openflow_wire::{WireError, decode, encode, spells};
use std::alloc::{AllocError, Global};

/// What is printed for a line.
pub fn answer(alloc: Global, line: &str) -> Result<String, AllocError> {
    if let Some(bytes) = line.strip_prefix("message ") {
        message_answer(alloc, &bytes_of(alloc, bytes)?)
    } else if let Some(pieces) = line.strip_prefix("stream ") {
        stream_answer(alloc, &pieces_of(alloc, pieces)?)
    } else if let Some(bytes) = line.strip_prefix("singly ") {
        stream_answer(alloc, &single_bytes(alloc, &bytes_of(alloc, bytes)?)?)
    } else {
        line.to_string(alloc)
    }
}

// The bytes that these hexadecimal digits tell; all else, as a dash for no bytes, is left out.
fn bytes_of(alloc: Global, text: &str) -> Result<Vec<u8>, AllocError> {
    let mut digits = Vec::new(alloc);
    for byte in text.as_bytes() {
        if byte.is_ascii_hexdigit() {
            digits.push(*byte)?;
        }
    }
    match hex::decode(alloc, digits.as_slice()) {
        Ok(bytes) => Ok(bytes),
        Err(_) => Err(AllocError),
    }
}

// The pieces between bars.
fn pieces_of(alloc: Global, text: &str) -> Result<Vec<Vec<u8>>, AllocError> {
    let mut pieces = Vec::new(alloc);
    for piece in text.split('|') {
        pieces.push(bytes_of(alloc, piece)?)?;
    }
    Ok(pieces)
}

// Each byte as a piece of its own.
fn single_bytes(alloc: Global, bytes: &[u8]) -> Result<Vec<Vec<u8>>, AllocError> {
    let mut pieces = Vec::new(alloc);
    for byte in bytes {
        pieces.push(Vec::from_slice(alloc, &[*byte])?)?;
    }
    Ok(pieces)
}

// The message that the bytes are, in short, and the bytes of a copy of it, or their first fault.
fn message_answer(alloc: Global, bytes: &[u8]) -> Result<String, AllocError> {
    match decode(alloc, bytes) {
        Ok(message) => {
            let again = message.copy(alloc)?;
            let mut out = BytesMut::new(alloc);
            encode(&again, &mut out)?;
            let spelled = if spells(bytes, &again) { "" } else { "not " };
            let written = hex::encode(alloc, out.as_slice())?;
            format!(in alloc; "{spelled}{}\n{written}", short(alloc, &again)?)
        }
        Err(WireError::Fault(fault)) => format!(in alloc; "{fault:?}"),
        Err(WireError::Memory) => Err(AllocError),
    }
}

// What a framer answers that gets these pieces.
fn stream_answer(alloc: Global, pieces: &[Vec<u8>]) -> Result<String, AllocError> {
    let mut framer = Framer::new(alloc);
    let mut told = String::new(alloc);
    let mut came = 0usize;
    for piece in pieces {
        framer.feed(piece)?;
        came = came.saturating_add(piece.len());
        tell(alloc, &mut framer, came, &mut told)?;
    }
    format!(in alloc; "{told}{} held", framer.held().len())
}

// Tells the messages that are whole now, and the fault at the front.
fn tell(
    alloc: Global,
    framer: &mut Framer,
    came: usize,
    told: &mut String,
) -> Result<(), AllocError> {
    let mut messages = Vec::new(alloc);
    let ended = take_whole(alloc, framer, &mut messages);
    for message in &messages {
        told.push_str(&format!(in alloc; "{came}: {}\n", short(alloc, message)?)?)?;
    }
    match ended {
        Ok(None) => Ok(()),
        Ok(Some(fault)) => told.push_str(&format!(in alloc; "{came}: {fault:?}\n")?),
        Err(_) => Err(AllocError),
    }
}
