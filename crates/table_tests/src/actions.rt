//! Lists of actions at a port of a switch.
//!
//! Layer: tests; private. Called by `shared`.
use fdd_nodes::{Assignments, Leaf, Path};
use leaf_actions::{
    ActionsError, ActionsFault, PortView, SharedActions, SwitchPort, SwitchPorts, actions,
    are_settable,
};
use nk_values::{Action, Actions, Field, GREATEST_VLAN_ID, IN_PORT, Lit, PortKind};
use std::alloc::Global;
use std::test::Fail;

// Port 1 of a switch with edge ports 1 and 3, and a link at port 2.
fn view(alloc: Global, pt: u16, kind: PortKind) -> Option<PortView> {
    let mut ports = SwitchPorts::new(alloc);
    for (pt, kind) in [
        (1, PortKind::Edge),
        (2, PortKind::Linked),
        (3, PortKind::Edge),
    ] {
        ports.push(SwitchPort { pt, kind }).ok()?;
    }
    Some(PortView {
        sw: 1,
        pt,
        kind,
        stamp: 7,
        ports,
    })
}

pub(crate) fn edge(alloc: Global) -> Option<PortView> {
    view(alloc, 1, PortKind::Edge)
}

fn linked(alloc: Global) -> Option<PortView> {
    view(alloc, 2, PortKind::Linked)
}

// A copy that leaves by a port, and one that sets a field before.
fn leave(alloc: Global, pt: u64) -> Option<Assignments> {
    Assignments::one(alloc, Lit::new(Field::Pt, pt)?).ok()
}

fn set_and_leave(alloc: Global, f: Field, n: u64, pt: u64) -> Option<Assignments> {
    let set = Assignments::one(alloc, Lit::new(f, n)?).ok()?;
    set.followed_by(alloc, &leave(alloc, pt)?).ok()
}

fn both(alloc: Global, a: Option<Assignments>, b: Option<Assignments>) -> Option<Leaf> {
    let mut leaf = Leaf::of(alloc, a?).ok()?;
    leaf.put(b?).ok()?;
    Some(leaf)
}

// A copy as it came, and one that leaves by another port.
fn every(alloc: Global) -> Option<Leaf> {
    Leaf::of(alloc, Assignments::none(alloc).ok()?).ok()
}

pub(crate) fn leaving(alloc: Global, pt: u64) -> Option<Leaf> {
    Leaf::of(alloc, leave(alloc, pt)?).ok()
}

// The actions of a leaf on a path, or that there are none.
fn made(
    alloc: Global,
    path: Option<Path>,
    leaf: Option<Leaf>,
    view: Option<PortView>,
) -> Result<Actions, ActionsError> {
    let (Some(path), Some(leaf), Some(view)) = (path, leaf, view) else {
        return Err(ActionsError::Memory);
    };
    if !are_settable(&leaf) || view.stamp < 1 || view.stamp > GREATEST_VLAN_ID {
        return Err(ActionsError::Memory);
    }
    actions(
        alloc,
        path.cell(),
        &leaf,
        &view,
        &SharedActions::new(alloc)?,
    )
}

// Whether these are the actions.
pub(crate) fn are(made: Result<Actions, ActionsError>, wanted: &[Action]) -> bool {
    match made {
        Ok(made) => made.as_slice() == wanted,
        Err(_) => false,
    }
}

// Nothing is tested on the path.
fn open(alloc: Global) -> Option<Path> {
    Some(Path::new(alloc))
}

// The path tests for a source address.
fn from_nine(alloc: Global) -> Option<Path> {
    let mut path = Path::new(alloc);
    path.push_true(&Lit::new(Field::EthSrc, 9)?).ok()?;
    Some(path)
}

#[test]
fn a_packet_goes_back(rt: HostRuntime) {
    let alloc = rt.alloc();
    let made = made(alloc, open(alloc), every(alloc), edge(alloc));
    assert!(rt; are(made, &[Action::Output(IN_PORT)]));
}

#[test]
fn a_stamp_is_put_on(rt: HostRuntime) {
    let alloc = rt.alloc();
    let made = made(alloc, open(alloc), leaving(alloc, 2), edge(alloc));
    assert!(rt; are(made, &[Action::SetVlanVid(7), Action::Output(2)]));
}

#[test]
fn a_stamp_is_taken_off(rt: HostRuntime) {
    let alloc = rt.alloc();
    let made = made(alloc, open(alloc), leaving(alloc, 3), linked(alloc));
    assert!(rt; are(made, &[Action::StripVlan, Action::Output(3)]));
}

#[test]
fn nothing_leaves_by_an_undeclared_port(rt: HostRuntime) {
    let alloc = rt.alloc();
    let made = made(alloc, open(alloc), leaving(alloc, 4), linked(alloc));
    assert!(rt; are(made, &[]));
}

#[test]
fn the_copy_that_sets_less_comes_first(rt: HostRuntime) {
    let alloc = rt.alloc();
    let set = set_and_leave(alloc, Field::EthDst, 5, 1);
    let leaf = both(alloc, set, leave(alloc, 3));
    let wanted = [
        Action::Output(3),
        Action::SetDlDst(5),
        Action::Output(IN_PORT),
    ];
    assert!(rt; are(made(alloc, open(alloc), leaf, edge(alloc)), &wanted));
}

// One copy sets the source, the other the destination.
fn apart(alloc: Global) -> Option<Leaf> {
    let first = set_and_leave(alloc, Field::EthSrc, 1, 1);
    let second = set_and_leave(alloc, Field::EthDst, 2, 3);
    both(alloc, second, first)
}

#[test]
fn two_copies_that_no_order_makes(rt: HostRuntime) -> Result<(), Fail> {
    let alloc = rt.alloc();
    match made(alloc, open(alloc), apart(alloc), edge(alloc)) {
        Err(ActionsError::Fault(pair)) => {
            assert_eq!(rt; (pair.a.port, pair.field_a), (1, Field::EthSrc));
            assert_eq!(rt; (pair.b.port, pair.field_b), (3, Field::EthDst));
            Ok(())
        }
        _ => Err(Fail::from("two copies")),
    }
}

#[test]
fn what_the_path_fixes_is_restored(rt: HostRuntime) {
    let alloc = rt.alloc();
    let wanted = [
        Action::SetDlSrc(1),
        Action::Output(IN_PORT),
        Action::SetDlSrc(9),
        Action::SetDlDst(2),
        Action::Output(3),
    ];
    assert!(rt;
        are(
            made(alloc, from_nine(alloc), apart(alloc), edge(alloc)),
            &wanted
        )
    );
}
