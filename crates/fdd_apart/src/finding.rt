//! Where two diagrams answer a well-shaped packet apart.
//!
//! Layer: diagrams; public. Called by policy_equality. Clauses of equal_command name it.
ghost use Rattle.std.specs.Prelude.{IfOk, MatchOption};
ghost use Rattle.nk_values.specs.Members.{Within};
ghost use Rattle.fdd_differ.specs.Unnamed.{AreFewNames};
ghost use Rattle.fdd_nodes.specs.Trees.{answers, SameAnswers};
ghost use Rattle.fdd_store.specs.Stores.{Has, Grows, tree_at};
ghost use Rattle.fdd_apart.specs.Aparts.{AreAlikeShaped, AreAlikeOf, AreAlikeBoth, AreNamesOf, IsApart, IsAsked};
ghost use Rattle.fdd_apart.specs.Aparts.{IsPacketOf, IsApartOn};

use crate::kinds::restriction;
use crate::outputs::lone_output;
use crate::walk::{are_one, cell_apart};
use fdd_differ::{Frame, LiteralList, unnamed};
use fdd_nodes::Cell;
use fdd_store::{Id, Store};
use nk_values::{Lit, Packet};
use std::alloc::{AllocError, Global};

/// One of two diagrams.
#[derive(Clone, Copy, Debug, PartialEq, Eq)]
pub enum Side {
    First,
    Second,
}

/// A well-shaped packet, and an output that just one side gives.
#[derive(Clone, Copy)]
pub struct Difference {
    pub packet: Packet,
    pub output: Packet,
    pub side: Side,
}

// The two diagrams that are compared.
#[derive(Clone, Copy)]
struct Comparison {
    a: Id,
    b: Id,
}

/// A well-shaped packet and an output that just one of two diagrams gives, or none if they answer each well-shaped
/// packet alike (ICFP 2015, section 3).
///
/// The diagrams are compared on one kind of frame at a time. A store has one diagram for each answer, so what they are
/// on the packets of a kind has two names exactly if one of these packets tells them apart. Equal names are answered at
/// once.
///
/// `names` has all literals that the diagrams test and assign, in any order. The error is that memory ran out.
pub fn apart_in(
    alloc: Global,
    store: &mut Store,
    a: Id,
    b: Id,
    names: &[Lit],
) -> Result<Option<Difference>, AllocError>
    requires has_a { Has store.old a }
    requires has_b { Has store.old b }
    requires few { AreFewNames names.now }
    requires named_a { AreNamesOf names.now (tree_at store.old a) }
    requires named_b { AreNamesOf names.now (tree_at store.old b) }
    ensures grows { Grows store.old store.new }
    ensures told { IfOk result
        (λ o. MatchOption o (AreAlikeShaped (tree_at store.old a) (tree_at store.old b))
        (IsApart (tree_at store.old a) (tree_at store.old b))) }
{
    if are_one(store, a, b) {
        return Ok(None);
    }
    let compared = Comparison { a, b };
    if let Some(found) = apart_in_two_kinds(
        alloc,
        store,
        &compared,
        names,
        Frame::NoIp,
        Frame::OtherIp,
    )? {
        return Ok(Some(found));
    }
    apart_in_two_kinds(alloc, store, &compared, names, Frame::Tcp, Frame::Udp)
}

// The same on the packets of two kinds of frames.
fn apart_in_two_kinds(
    alloc: Global,
    store: &mut Store,
    compared: &Comparison,
    names: &[Lit],
    first: Frame,
    second: Frame,
) -> Result<Option<Difference>, AllocError>
    requires { IsAsked store.old compared.now.a compared.now.b names.now }
    ensures grows { Grows store.old store.new }
    ensures told { IfOk result
        (λ o. MatchOption o
        (AreAlikeBoth first second (tree_at store.old compared.now.a) (tree_at store.old compared.now.b))
        (IsApart (tree_at store.old compared.now.a) (tree_at store.old compared.now.b))) }
{
    if let Some(found) = apart_in_kind(alloc, store, compared, names, first)? {
        return Ok(Some(found));
    }
    apart_in_kind(alloc, store, compared, names, second)
}

// The same on the packets of one kind.
fn apart_in_kind(
    alloc: Global,
    store: &mut Store,
    compared: &Comparison,
    names: &[Lit],
    frame: Frame,
) -> Result<Option<Difference>, AllocError>
    requires { IsAsked store.old compared.now.a compared.now.b names.now }
    ensures grows { Grows store.old store.new }
    ensures told { IfOk result
        (λ o. MatchOption o (AreAlikeOf frame (tree_at store.old compared.now.a) (tree_at store.old compared.now.b))
        (IsApart (tree_at store.old compared.now.a) (tree_at store.old compared.now.b))) }
{
    let x = restriction(alloc, store, frame, compared.a)?;
    let y = restriction(alloc, store, frame, compared.b)?;
    if are_one(store, x, y) {
        return Ok(None);
    }
    let cell = cell_apart(alloc, store, x, y, &Cell::whole())?;
    let packet = packet_of(&cell, frame, names);
    Ok(output_apart(store, compared.a, compared.b, &packet))
}

// The packet of a cell that is otherwise what a kind of frame fixes, and else of unnamed values.
fn packet_of(cell: &Cell, frame: Frame, names: &[Lit]) -> Packet
    requires { AreFewNames names.now }
    ensures { IsPacketOf cell.now frame names.now result }
{
    let other = unnamed(&LiteralList { lits: names });
    cell.filled(&frame.cell().filled(&other))
}

// An output of a packet that just one side gives, or none if both answer it alike.
fn output_apart(store: &Store, a: Id, b: Id, packet: &Packet) -> Option<Difference>
    requires has_a { Has store.now a }
    requires has_b { Has store.now b }
    ensures { MatchOption result
        (SameAnswers (answers (tree_at store.now a) packet.now) (answers (tree_at store.now b) packet.now))
        (IsApartOn (tree_at store.now a) (tree_at store.now b) packet.now) }
{
    let packet = *packet;
    if let Some(output) = lone_output(store, a, b, &packet) {
        let side = Side::First;
        return Some(Difference {
            packet,
            output,
            side,
        });
    }
    let output = lone_output(store, b, a, &packet)?;
    let side = Side::Second;
    Some(Difference {
        packet,
        output,
        side,
    })
}
