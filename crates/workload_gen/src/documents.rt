//! Documents from a number.
//!
//! Layer: the world; public. Called by `driving` here, and by rejoin_tests.
ghost use Rattle.std.specs.Prelude.{◌≡◌, ◌≤◌, ◌++◌, ◌*◌, ◌-◌, ◌∷◌, [], IfOk, OnOk, map};
ghost use Rattle.topology_model.specs.Lines.{layout_of};
ghost use Rattle.document_text.specs.Answers.{doc_of};
ghost use Rattle.workload_laws.specs.Workload.{numbers};
ghost use Rattle.workload_gen.specs.Documents.{document_of, generator, link_line, packet, packets, switch_line};
ghost use Rattle.workload_gen.specs.Documents.{topology_lines};
ghost use Rattle.workload_gen.specs.Words.{behind};

use crate::policies::policies;
use crate::words::number_by;
use document_text::{Document, PacketLine, Settings};
use nk_values::{Header, IPV4_TYPE, Packet, Tag};
use rand_pcg::Lcg64Xsh32;
use std::alloc::{AllocError, Global};
use topology_model::{Ports, TopoError, TopoLine, Topology};

/// The document of a number n, and the generator after the words that were drawn for it. It has 2 + n mod 31 switches
/// in a line, and 3 + n mod 6 policies that send packets along it by their destination. Each policy drops the packets
/// to one destination, which a word draws. There are 10 packets a switch; two words draw where each comes in and where
/// it goes.
pub fn generate(alloc: Global, number: u64) -> Result<(Document, Lcg64Xsh32), AllocError>
    ensures document { IfOk result (λ x. doc_of x.0 ≡ document_of number) }
    ensures generator { IfOk result (λ x. x.1 ≡ generator number) }
{
    let switches = 2 + (number % 31) as u16;
    let mut rng = Lcg64Xsh32::new(number, 1);
    let topology = line(alloc, switches)?;
    let policies = policies(alloc, switches, 3 + (number % 6) as u16, &mut rng)?;
    let packets = packets(alloc, switches, 10 * switches, &mut rng)?;
    let document = Document {
        topology,
        policies,
        packets,
        settings: Settings {
            hops: 64,
            capacity: 200_000,
            stamps: (1, 4094),
            rejoins: 0,
            overlap: false,
        },
        schedule: Vec::new(alloc),
    };
    Ok((document, rng))
}

// Switches in a line.
fn line(alloc: Global, switches: u16) -> Result<Topology, AllocError>
    requires some { 2 ≤ switches }
    requires few { switches ≤ 32 }
    ensures { IfOk result (λ t. t ≡ layout_of (topology_lines switches)) }
{
    let mut lines = switch_lines(alloc, switches)?;
    add_links(alloc, switches, &mut lines)?;
    match Topology::build(alloc, &lines) {
        Ok(topology) => Ok(topology),
        Err(TopoError::Memory) => Err(AllocError),
        Err(TopoError::Fault { .. }) => unreachable!(),
    }
}

// The switches, each with the ports 1 to 3.
fn switch_lines(alloc: Global, switches: u16) -> Result<Vec<TopoLine>, AllocError>
    requires { switches ≤ 32 }
    ensures { IfOk result (λ v. v.items ≡ map switch_line (numbers 1 switches)) }
{
    let mut lines = Vec::new(alloc);
    for switch in 1..switches + 1 {
        let ports = Ports::of(Vec::from_array(alloc, [1, 2, 3])?);
        lines.push(TopoLine::Switch { sw: switch, ports })?;
    }
    Ok(lines)
}

// The links, each from port 2 of a switch to port 1 of the next one.
fn add_links(alloc: Global, switches: u16, lines: &mut Vec<TopoLine>) -> Result<(), AllocError>
    requires some { 1 ≤ switches }
    requires few { switches ≤ 32 }
    ensures { OnOk result (lines.new.items ≡ lines.old.items ++ map link_line (numbers 1 (switches - 1))) }
{
    for switch in 1..switches {
        lines.push(TopoLine::Link {
            a: (switch, 2),
            b: (switch + 1, 1),
        })?;
    }
    Ok(())
}

// Packets, as many as are asked for; words draw where each comes in and where it goes.
fn packets(
    alloc: Global,
    switches: u16,
    count: u16,
    rng: &mut Lcg64Xsh32,
) -> Result<Vec<PacketLine>, AllocError>
    requires some { 1 ≤ switches }
    requires few { switches ≤ 32 }
    ensures packets { IfOk result (λ v. v.items ≡ packets switches count rng.old) }
    ensures words { OnOk result (rng.new ≡ behind (2 * count) rng.old) }
{
    let mut packets = Vec::new(alloc);
    for drawn in 0..count {
        let source = number_by(switches, rng);
        let destination = number_by(switches, rng);
        packets.push(PacketLine {
            packet: packet(source, destination),
            tag: Tag::none(),
        })?;
    }
    Ok(packets)
}

// The packet that comes in at a switch and goes to another.
fn packet(source: u16, destination: u16) -> Packet
    ensures { result ≡ packet source destination }
{
    Packet {
        sw: u64::from(source),
        pt: 3,
        header: Header {
            eth_typ: IPV4_TYPE,
            ip_proto: 0,
            eth_src: u64::from(source),
            eth_dst: u64::from(destination),
            ip4_src: 0,
            ip4_dst: 0,
            tcp_src_port: 0,
            tcp_dst_port: 0,
        },
    }
}
