//! The histories of a packet through a network, by the definition.
//!
//! Layer: tests; private. Called by `links` and `plain`.
use document_text::{PacketLine, read_document};
use history_meaning::some_results;
use netkat_parser::parse_policy;
use nk_syntax::{Pol, Pols};
use nk_values::History;
use report_text::{Text, history_text};
use std::alloc::{AllocError, Global};

// How often a star is taken.
const TURNS: usize = 64;

/// Where packets come in and go out, and the links, as policies.
#[derive(Clone, Copy)]
pub struct Wiring {
    pub edges: &'static str,
    pub links: &'static str,
}

// A policy of a text that is one.
fn parsed(alloc: Global, text: &str) -> Result<Pol, AllocError> {
    parse_policy(alloc, text.as_bytes()).map_err(|_| AllocError)
}

// The network of a policy: `in; (dup; p; dup; t)*; dup; p; out` (POPL 2014, section 2).
fn network(alloc: Global, wiring: Wiring, policy: &str) -> Result<Pol, AllocError> {
    let mut turn = Vec::new(alloc);
    turn.push(Pol::Dup)?;
    turn.push(parsed(alloc, policy)?)?;
    turn.push(Pol::Dup)?;
    turn.push(parsed(alloc, wiring.links)?)?;
    let mut all = Vec::new(alloc);
    all.push(parsed(alloc, wiring.edges)?)?;
    all.push(Pol::Star(Box::new(alloc, Pol::Seq(Pols { items: turn }))?))?;
    all.push(Pol::Dup)?;
    all.push(parsed(alloc, policy)?)?;
    all.push(parsed(alloc, wiring.edges)?)?;
    Ok(Pol::Seq(Pols { items: all }))
}

// The complete histories that a policy gives a packet, as text, sorted, each once.
fn histories(
    alloc: Global,
    wiring: Wiring,
    policy: &str,
    packet: &PacketLine,
) -> Result<Vec<Text>, AllocError> {
    let network = network(alloc, wiring, policy)?;
    let start = History::new(packet.packet);
    let mut texts = Vec::new(alloc);
    for history in &some_results(alloc, &network, &start, TURNS)? {
        texts.push(history_text(alloc, history)?)?;
    }
    texts.sort_by(|a, b| a.as_bytes().cmp(b.as_bytes()))?;
    texts.dedup_by(|a, b| a.as_bytes() == b.as_bytes());
    Ok(texts)
}

/// The histories of each packet of a document, by policies from 0.
pub fn meanings(
    alloc: Global,
    document: &str,
    wiring: Wiring,
    policies: &[&str],
) -> Result<Vec<Vec<Vec<Text>>>, AllocError> {
    let document = read_document(alloc, document.as_bytes()).map_err(|_| AllocError)?;
    let mut all = Vec::new(alloc);
    for packet in &document.packets {
        all.push(by_policy(alloc, wiring, policies, packet)?)?;
    }
    Ok(all)
}

// Those of one packet.
fn by_policy(
    alloc: Global,
    wiring: Wiring,
    policies: &[&str],
    packet: &PacketLine,
) -> Result<Vec<Vec<Text>>, AllocError> {
    let mut all = Vec::new(alloc);
    for policy in policies {
        all.push(histories(alloc, wiring, policy, packet)?)?;
    }
    Ok(all)
}
