//! Diagrams made by hand, cells and paths, and what they answer.
//!
//! Layer: tests; private. Its tests are run by `rt test`.
use crate::made::{lit, one, packet};
use fdd_nodes::{Assignments, Cell, Fdd, Leaf, Node, Path, parting};
use nk_values::Field;
use std::alloc::Global;
use std::rc::Rc;
use std::test::Fail;

// The leaf that sets ethDst to 2 in one copy, and pt to 5 in another.
fn two_copies(alloc: Global) -> Result<Leaf, Fail> {
    let mut leaf = Leaf::of(alloc, one(alloc, Field::EthDst, 2)?)?;
    leaf.put(one(alloc, Field::Pt, 5)?)?;
    leaf.put(one(alloc, Field::EthDst, 2)?)?;
    Ok(leaf)
}

#[test]
fn copies_rise_and_stand_once(rt: HostRuntime) -> Result<(), Fail> {
    let leaf = two_copies(rt.alloc())?;
    let copies = leaf.copies();
    assert_eq!(rt; copies.len(), 2);
    assert_eq!(rt; copies[0].get(Field::Pt), Some(5));
    assert_eq!(rt; copies[1].get(Field::EthDst), Some(2));
    assert!(rt; copies[0] < copies[1]);
    assert!(rt; leaf.copy(rt.alloc())? == leaf);
    Ok(())
}

#[test]
fn gathered_copies_are_a_leaf(rt: HostRuntime) -> Result<(), Fail> {
    let mut copies = Vec::new(rt.alloc());
    copies.push(one(rt.alloc(), Field::EthDst, 2)?)?;
    copies.push(one(rt.alloc(), Field::Pt, 5)?)?;
    copies.push(one(rt.alloc(), Field::EthDst, 2)?)?;
    let leaf = Leaf::gathered(rt.alloc(), copies)?;
    assert!(rt; leaf == two_copies(rt.alloc())?);
    let room = Leaf::with_capacity(rt.alloc(), 3)?;
    assert_eq!(rt; room.copies().len(), 0);
    Ok(())
}

// Some assignments and then one more.
fn followed(alloc: Global, a: &Assignments, field: Field, value: u64) -> Result<Assignments, Fail> {
    let last = one(alloc, field, value)?;
    Ok(a.followed_by(alloc, &last)?)
}

// Whether a packet at port 1 with ethDst 9 goes to a port with another ethDst.
fn sends(a: &Assignments, pt: u64, eth_dst: u64) -> bool {
    a.apply(&packet(1, 9)) == packet(pt, eth_dst)
}

fn ethernet_twice(alloc: Global) -> Result<Assignments, Fail> {
    let first = one(alloc, Field::EthDst, 2)?;
    let both = followed(alloc, &first, Field::Pt, 5)?;
    followed(alloc, &both, Field::EthDst, 3)
}

#[test]
fn later_assignments_count(rt: HostRuntime) -> Result<(), Fail> {
    let alloc = rt.alloc();
    let last = ethernet_twice(alloc)?;
    assert!(rt; sends(&last, 5, 3));
    let fixed = Cell::of(&lit(Field::EthDst, 3)?);
    let stripped = last.stripped(alloc, &fixed)?;
    assert!(rt; sends(&stripped, 5, 9));
    Ok(())
}

// A test of port 1 before the leaf of two copies.
fn at_port_one(alloc: Global) -> Result<Node, Fail> {
    let yes = Rc::new(alloc, Node::Leaf(two_copies(alloc)?))?;
    let no = Rc::new(alloc, Node::Leaf(Leaf::empty(alloc)))?;
    Ok(Node::Test(lit(Field::Pt, 1)?, yes, no))
}

#[test]
fn a_diagram_answers(rt: HostRuntime) -> Result<(), Fail> {
    let root = at_port_one(rt.alloc())?;
    assert_eq!(rt; root.leaf_of(&packet(1, 9)).copies().len(), 2);
    assert_eq!(rt; root.leaf_of(&packet(2, 9)).copies().len(), 0);
    let again = root.copy(rt.alloc())?;
    assert!(rt; parting(&Cell::whole(), &root, &again).is_none());
    Ok(())
}

#[test]
fn answers_are_the_copies(rt: HostRuntime) -> Result<(), Fail> {
    let alloc = rt.alloc();
    let keeps = Leaf::of(alloc, Assignments::none(alloc)?)?;
    let a = Fdd::new(Node::Leaf(keeps));
    let answer = a.answer(alloc, &packet(1, 9))?;
    assert!(rt; answer.as_slice() == [packet(1, 9)].as_slice());
    assert!(rt; a.normal() && a.copy(alloc)?.normal());
    Ok(())
}

#[test]
fn a_path_tells_its_cell(rt: HostRuntime) -> Result<(), Fail> {
    let mut path = Path::new(rt.alloc());
    path.push_true(&lit(Field::Pt, 1)?)?;
    path.push_true(&lit(Field::EthDst, 9)?)?;
    path.push_false(&lit(Field::IpProto, 6)?)?;
    assert_eq!(rt; path.cell().get(Field::EthDst), Some(9));
    assert!(rt; path.has(&packet(1, 9)));
    assert!(rt; path.pop_true().is_some() && path.cell().is_unset(Field::EthDst));
    assert_eq!(rt; path.cell().get(Field::Pt), Some(1));
    Ok(())
}
