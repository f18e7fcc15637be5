//! Well-shaped packets of paths.
//!
//! Layer: diagrams; public. Called by policy_cases.
ghost use Rattle.std.specs.Prelude.{◌≡◌, ◌↔◌, IsTrue, MatchOption};
ghost use Rattle.nk_values.specs.declared.packet.Packet.{Packet};
ghost use Rattle.fdd_nodes.specs.Paths.{IsFewOn};
ghost use Rattle.fdd_differ.specs.Witness.{IsWitness, IsWitnessOf, narrowed_by_one, narrowed};

use crate::frame::Frame;
use crate::fresh::unnamed;
use fdd_nodes::{Cell, Knowledge, Path};
use nk_values::{Lit, Packet, well_shaped};

/// A well-shaped packet of a path, or none if there is no such packet.
pub fn path_packet(path: &Path) -> Option<Packet>
    requires { IsFewOn path.now }
    ensures { MatchOption result ((p : Packet) → ¬ IsWitness path.now p) (IsWitness path.now) }
{
    if let Some(packet) = path_packet_in(path, Frame::NoIp) {
        return Some(packet);
    }
    if let Some(packet) = path_packet_in(path, Frame::OtherIp) {
        return Some(packet);
    }
    if let Some(packet) = path_packet_in(path, Frame::Tcp) {
        return Some(packet);
    }
    path_packet_in(path, Frame::Udp)
}

/// A well-shaped packet of a path that is a frame of one kind, or none if there is no such packet.
///
/// One candidate is enough: it has what the kind and the true tests fix, and elsewhere values that the path doesn't
/// name.
pub fn path_packet_in(path: &Path, frame: Frame) -> Option<Packet>
    requires { IsFewOn path.now }
    ensures { MatchOption result ((p : Packet) → ¬ IsWitnessOf path.now frame p) (IsWitnessOf path.now frame) }
{
    let cell = narrowed_by(frame.cell(), path.trues());
    let packet = cell.filled(&unnamed(path));
    if is_witness(path, frame, &packet) {
        Some(packet)
    } else {
        None
    }
}

fn is_witness(path: &Path, frame: Frame, packet: &Packet) -> bool
    ensures { IsTrue result ↔ IsWitnessOf path.now frame packet.now }
{
    if !well_shaped(packet) {
        return false;
    }
    if !frame.includes(packet) {
        return false;
    }
    path.has(packet)
}

// The cell with what literals name, where it leaves their fields open.
fn narrowed_by(cell: Cell, lits: &[Lit]) -> Cell
    ensures { result ≡ narrowed cell lits.now }
{
    let mut inner = cell;
    for l in lits {
        inner = narrowed_once(&inner, l);
    }
    inner
}

fn narrowed_once(cell: &Cell, l: &Lit) -> Cell
    ensures { result ≡ narrowed_by_one cell.now l.now }
{
    match cell.knows(l) {
        Knowledge::Unset => cell.with(l),
        _ => *cell,
    }
}
