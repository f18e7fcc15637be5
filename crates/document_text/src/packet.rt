//! Packet lines.
//!
//! Layer: texts that are read; private. Called by `take`.
ghost use Rattle.std.specs.Prelude.{◌≡◌, true};
ghost use Rattle.document_text.specs.declared.document.PacketLine.{PacketLine as Line};
ghost use Rattle.document_text.specs.Packets.{pair_of, plain_packet, given_at, with_tag, with_number, with_field};
ghost use Rattle.document_text.specs.Packets.{with_named, with_word, with_words};
ghost use Rattle.document_text.specs.Lines.{packet_line, at_edge};
ghost use Rattle.document_text.specs.Answers.{texts, state_of, given_of, Forms, GivesValues, Lets, Matches};

use crate::declaration::LineKind;
use crate::document::PacketLine;
use crate::fault::Stop;
use crate::head::is_text;
use crate::reader::Reader;
use crate::topology::end_in_range;
use crate::words::{end_of, number};
use indexmap::IndexSet;
use netkat_parser::{has_form, number_of};
use nk_values::{Field, GREATEST_VLAN_ID, Header, IPV4_TYPE, Packet, Tag, TextFault};
use std::alloc::Global;
use topology_model::PortRef;

mod words;

use words::{header_field, is_name, is_run, pair_of};

/// What the words so far give: their names, the packet and its tag, whether a name is not listed, and
/// whether a value is out of its range.
#[derive(Drop)]
pub struct GivenFields<'a> {
    names: IndexSet<&'a [u8]>,
    packet: Packet,
    tag: Tag,
    unknown: bool,
    outside: bool,
}

/// The packet of `packet S:B` and words with its values.
pub fn packet_line(reader: &Reader, alloc: Global, words: &[&[u8]]) -> Result<PacketLine, Stop>
    ensures { Matches (λ p. p) (packet_line (state_of reader.now) (texts words.now)) result }
{
    let Some((first, rest)) = words.split_first() else {
        return Err(Stop::Fault(TextFault::BadLine));
    };
    let numbers = end_of(first)?;
    let given = with_words(GivenFields::new(alloc, numbers), rest)?;
    if reader.is_late(LineKind::Packet) {
        return Err(Stop::Fault(TextFault::BadLine));
    }
    reader.after_policies(alloc)?;
    if given.unknown {
        return Err(Stop::Fault(TextFault::UnknownName));
    }
    let end = end_in_range(numbers)?;
    if given.outside {
        return Err(Stop::Fault(TextFault::ValueRange));
    }
    at_edge(reader, end)?;
    Ok(PacketLine {
        packet: given.packet,
        tag: given.tag,
    })
}

// Stops where this is no declared port without a link.
fn at_edge(reader: &Reader, end: PortRef) -> Result<(), Stop>
    ensures { Lets {A = Line} (at_edge (state_of reader.now) end) result }
{
    if !reader.draft.has_switch(end.0) {
        Err(Stop::Fault(TextFault::UnknownSwitch))
    } else if !reader.draft.has_port(end) {
        Err(Stop::Fault(TextFault::UnknownPort))
    } else if reader.draft.is_linked(end) {
        Err(Stop::Fault(TextFault::NotEdge))
    } else {
        Ok(())
    }
}

// With all words.
fn with_words<'a>(given: GivenFields<'a>, words: &[&'a [u8]]) -> Result<GivenFields<'a>, Stop>
    ensures { Forms given_of (with_words (given_of given.entry) (texts words.now)) result }
{
    let mut given = given;
    for word in words {
        given.add(word)?;
    }
    Ok(given)
}

impl<'a> GivenFields<'a> {
    // An IPv4 packet at a place, with 0 in each other field.
    fn new(alloc: Global, end: (u64, u64)) -> GivenFields<'a>
        ensures { given_of result ≡ given_at end }
    {
        GivenFields {
            names: IndexSet::new(alloc),
            packet: plain_packet(end),
            tag: Tag::none(),
            unknown: false,
            outside: false,
        }
    }

    // With one more word.
    fn add(&mut self, word: &'a [u8]) -> Result<(), Stop>
        ensures { GivesValues (with_word (given_of self.old) word.now) (given_of self.new) result }
    {
        let (name, run) = pair_of(word)?;
        if self.names.contains(&name) {
            return Err(Stop::Fault(TextFault::BadLine));
        }
        self.names.insert(name)?;
        self.put(name, run)
    }

    // With the value of a name.
    fn put(&mut self, name: &[u8], run: &[u8]) -> Result<(), Stop>
        ensures { GivesValues (with_named (given_of self.old) name.now run.now) (given_of self.new) result }
    {
        if is_text(name, "vlan") {
            let id = number(run)?;
            self.put_tag(id);
            return Ok(());
        }
        match header_field(name) {
            Some(field) => self.put_value(field, run),
            None => {
                self.unknown = true;
                Ok(())
            }
        }
    }

    fn put_tag(&mut self, id: u64)
        ensures { given_of self.new ≡ with_tag (given_of self.old) id }
    {
        if id < 1 || id > u64::from(GREATEST_VLAN_ID) {
            self.outside = true;
        } else if let Some(tag) = Tag::vlan(id as u16) {
            self.tag = tag;
        }
    }

    fn put_value(&mut self, field: Field, run: &[u8]) -> Result<(), Stop>
        ensures { GivesValues (with_field (given_of self.old) (Some field) run.now) (given_of self.new) result }
    {
        match number_of(field, run) {
            Some(n) => self.put_number(field, n),
            None => {
                if !has_form(field, run) {
                    return Err(Stop::Fault(TextFault::BadLine));
                }
                self.outside = true;
            }
        }
        Ok(())
    }

    #[tactic(auto, using(crate::proofs::Ranged::value_true, crate::proofs::Ranged::value_false))]
    fn put_number(&mut self, field: Field, n: u64)
        ensures { given_of self.new ≡ with_number (given_of self.old) field n }
    {
        if field.is_value(n) {
            self.packet = self.packet.with(field, n);
        } else {
            self.outside = true;
        }
    }
}

fn plain_packet(end: (u64, u64)) -> Packet
    ensures { result ≡ plain_packet end }
{
    Packet {
        sw: end.0,
        pt: end.1,
        header: Header {
            eth_typ: IPV4_TYPE,
            ip_proto: 0,
            eth_src: 0,
            eth_dst: 0,
            ip4_src: 0,
            ip4_dst: 0,
            tcp_src_port: 0,
            tcp_dst_port: 0,
        },
    }
}
