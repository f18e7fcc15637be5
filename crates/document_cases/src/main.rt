//! Reads documents from standard input, each after a line `== ..`, and prints that line and what the document
//! says in short, or the line and the column of its first fault with the fault's number and name.
//!
//! The lines of a document are joined by LF, so the last one has none. `\r` stands for CR. What is printed of a
//! document that comes byte by byte, and of one that is cut in two, at each place, has to be the same.
//!
//! Layer: tests; nothing calls it.
#![tactic(auto)]

use document_text::{DocReader, Document, DocumentError, PacketLine, read_document};
use nk_values::Field;
use std::alloc::{AllocError, Global};
use std::io;

fn main(rt: HostRuntime) -> io::Result<()> {
    let alloc = rt.alloc();
    let text = io::read_to_string(alloc, rt.stdin())?;
    for block in text.split("== ") {
        if let Some((name, document)) = block.split_once("\n") {
            let document = document.strip_suffix("\n").unwrap_or(document);
            let bytes = document.replace(alloc, "\\r", "\r")?;
            let answer = answer(alloc, read_document(alloc, bytes.as_bytes()))?;
            println!(rt; "== {name}\n{answer}")?;
            if let Some(other) = cut_otherwise(alloc, bytes.as_bytes(), &answer)? {
                println!(rt; "{other}")?;
            }
        }
    }
    Ok(())
}

// What is answered otherwise to the document in pieces.
fn cut_otherwise(
    alloc: Global,
    document: &[u8],
    answer: &str,
) -> Result<Option<String>, AllocError> {
    for cut in 0..=document.len() {
        let pieces = in_pieces(alloc, document, cut)?;
        if pieces.as_str() != answer {
            return Ok(Some(format!(in alloc; "cut at {cut}: {pieces}")?));
        }
    }
    Ok(None)
}

// The answer to a document that is cut in two at a place, or that comes byte by byte where the place is its end.
fn in_pieces(alloc: Global, document: &[u8], cut: usize) -> Result<String, AllocError> {
    let mut reader = DocReader::new(alloc);
    if cut < document.len() {
        reader.feed(alloc, &document[..cut])?;
        reader.feed(alloc, &document[cut..])?;
    } else {
        for i in 0..document.len() {
            reader.feed(alloc, &document[i..i + 1])?;
        }
    }
    answer(alloc, reader.finish(alloc))
}

// What a document says, or the place of its fault, its number and its name.
fn answer(alloc: Global, read: Result<Document, DocumentError>) -> Result<String, AllocError> {
    match read {
        Ok(document) => told(alloc, &document),
        Err(DocumentError::Fault(it)) => format!(in alloc;
            "{}:{} {}",
            it.line, it.column, it.fault
        ),
        Err(DocumentError::Memory) => Err(AllocError),
    }
}

// The parts of a document: counts and settings, and then policies, packets and events, each in a line.
fn told(alloc: Global, document: &Document) -> Result<String, AllocError> {
    let topology = &document.topology;
    let settings = document.settings;
    let mut out = format!(in alloc;
        "{} switches, {} links, {} edge ports; hops {}, capacity {}, stamps {} to {}, rejoins {}",
        topology.switches().len(),
        topology.links().len(),
        topology.edges().len(),
        settings.hops,
        settings.capacity,
        settings.stamps.0,
        settings.stamps.1,
        settings.rejoins
    )?;
    if settings.overlap {
        out.push_str(", overlap")?;
    }
    for policy in &document.policies {
        let printed = policy.print(alloc)?;
        out.push_str(&format!(in alloc; "\npolicy {printed}")?)?;
    }
    for packet in &document.packets {
        out.push_str(&packet_text(alloc, packet)?)?;
    }
    for it in &document.schedule {
        out.push_str(&format!(in alloc; "\nline {}: {:?}", it.line, it.event)?)?;
    }
    Ok(out)
}

// A packet in a line of its own: its place, its fields and its tag.
fn packet_text(alloc: Global, line: &PacketLine) -> Result<String, AllocError> {
    let packet = line.packet;
    let mut out = format!(in alloc; "\npacket {}:{}", packet.sw, packet.pt)?;
    for field in Field::HEADER {
        out.push_str(&format!(in alloc; " {field}={}", packet.get(field))?)?;
    }
    if let Some(id) = line.tag.id() {
        out.push_str(&format!(in alloc; " vlan={id}")?)?;
    }
    Ok(out)
}
