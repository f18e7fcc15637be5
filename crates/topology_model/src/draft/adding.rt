//! Lines that are added to a topology: all of a line, or nothing.
//!
//! Layer: values and policies; private. Called by `draft`.
ghost use Rattle.std.specs.Prelude.{◌≡◌, ◌&&◌, IsTrue, IfOk, IfErr, OnOk, OnErr, Option, Some, None};
ghost use Rattle.std.specs.Prelude.{ℕ, ◌<◌, ◌≤◌, ◌+◌, ◌==◌, length, nat_eq, vec_len, vec_capacity, if◌then◌else◌};
ghost use Rattle.std.specs.Prelude.{IsTrue, is_some};
ghost use Rattle.std.specs.List.{list_any};
ghost use Rattle.std.specs.HashMap.{get, spare};
ghost use Rattle.topology_model.specs.Ends.{entry, same_end};

use super::Draft;
use crate::fault::LineError;
use crate::line::{DeclaredSwitch, PortRef, Ports, TopoLine};
use nk_values::List;
use std::alloc::{AllocError, Global};
use std::collections::HashMap;

impl Draft {
    ghost use Rattle.topology_model.specs.Lines.{IsLineInRange, with_line, line_fault};
    ghost use Rattle.topology_model.specs.Causes.{IsLineCause};

    /// Takes one more line. Each number of the line is in its range. After an `Err` the lines are those that
    /// there were.
    pub fn add(&mut self, alloc: Global, line: &TopoLine) -> Result<(), LineError>
        requires { IsLineInRange line.now }
        ensures line { OnOk result (self.new ≡ with_line self.old line.now) }
        ensures faultless { OnOk result (line_fault self.old line.now ≡ None) }
        ensures same { OnErr result (self.new ≡ self.old) }
        ensures cause { IfErr result (IsLineCause self.old line.now) }
    {
        if let Some(fault) = self.fault(line) {
            return Err(LineError::Fault(fault));
        }
        match line {
            TopoLine::Switch { sw, ports } => self.add_switch(alloc, *sw, ports)?,
            TopoLine::Link { a, b } => self.add_link(*a, *b)?,
        }
        Ok(())
    }

    // Takes one more switch.
    fn add_switch(&mut self, alloc: Global, sw: u16, ports: &Ports) -> Result<(), AllocError>
        requires in_range { IsLineInRange (TopoLine.Switch sw ports.now) }
        requires faultless { line_fault self.old (TopoLine.Switch sw ports.now) ≡ None }
        ensures ok { OnOk result (self.new ≡ with_line self.old (TopoLine.Switch sw ports.now)) }
        ensures err { OnErr result (self.new ≡ self.old) }
    {
        let site = DeclaredSwitch {
            sw,
            ports: copied(alloc, ports)?,
        };
        make_room(
            &mut self.switches,
            &mut self.places,
            &mut self.far_ends,
            ports.as_slice().len(),
        )?;
        put_place(&mut self.places, sw, self.switches.len());
        put_edges(&mut self.far_ends, sw, ports.as_slice());
        self.switches.push_reserved(site);
        Ok(())
    }

    // Takes one more link.
    fn add_link(&mut self, a: PortRef, b: PortRef) -> Result<(), AllocError>
        requires in_range { IsLineInRange (TopoLine.Link a b) }
        requires faultless { line_fault self.old (TopoLine.Link a b) ≡ None }
        ensures ok { OnOk result (self.new ≡ with_line self.old (TopoLine.Link a b)) }
        ensures err { OnErr result (self.new ≡ self.old) }
    {
        self.links.reserve(1)?;
        join(&mut self.far_ends, a, b);
        join(&mut self.far_ends, b, a);
        self.links.push_reserved((a, b));
        Ok(())
    }
}

// Makes room for one more switch with `count` ports. All stays as it is.
fn make_room(
    switches: &mut Vec<DeclaredSwitch>,
    places: &mut HashMap<u16, usize>,
    far_ends: &mut HashMap<PortRef, Option<PortRef>>,
    ports: usize,
) -> Result<(), AllocError>
    ensures switches { switches.new.items ≡ switches.old.items }
    ensures places { (q : ℕ) → get nat_eq places.new q ≡ get nat_eq places.old q }
    ensures ends { (e : ℕ × ℕ) → entry far_ends.new e ≡ entry far_ends.old e }
    ensures site { OnOk result (vec_len switches.new < vec_capacity switches.new) }
    ensures place { OnOk result (0 < spare places.new) }
    ensures edges { OnOk result (ports ≤ spare far_ends.new) }
{
    switches.reserve(1)?;
    places.reserve(1)?;
    far_ends.reserve(ports)
}

// Puts where a switch stands, for which there is room.
fn put_place(places: &mut HashMap<u16, usize>, sw: u16, place: usize)
    requires { 0 < spare places.old }
    ensures { (q : ℕ) → get nat_eq places.new q ≡ (if nat_eq sw q then Some place else get nat_eq places.old q) }
{
    if let Err(_) = places.insert(sw, place) {
        prove!(false);
    }
}

// Puts the ports of a switch, with no link. There is room for them.
fn put_edges(far_ends: &mut HashMap<PortRef, Option<PortRef>>, sw: u16, ports: &[u16])
    requires { length ports.now ≤ spare far_ends.old }
    ensures { (e : ℕ × ℕ) →
        entry far_ends.new e ≡ (if sw ==
        e.0 && list_any (λ n. n == e.1) ports.now then Some None else entry far_ends.old e) }
{
    for port in ports {
        put_edge(far_ends, (sw, *port));
    }
}

// Puts a port, with no link, for which there is room.
fn put_edge(far_ends: &mut HashMap<PortRef, Option<PortRef>>, end: PortRef)
    requires { 0 < spare far_ends.old }
    ensures edge { (e : ℕ × ℕ) → entry far_ends.new e ≡ (if same_end end e then Some None else entry far_ends.old e) }
    ensures room { spare far_ends.old ≤ spare far_ends.new + 1 }
{
    if let Err(_) = far_ends.insert(end, None) {
        prove!(false);
    }
}

// Puts the far end of a port that is there.
fn join(far_ends: &mut HashMap<PortRef, Option<PortRef>>, from: PortRef, to: PortRef)
    requires { IsTrue (is_some (entry far_ends.old from)) }
    ensures { (e : ℕ × ℕ) → entry far_ends.new e ≡ (if same_end from e then Some (Some to) else entry far_ends.old e) }
{
    if let Err(_) = far_ends.insert(from, Some(to)) {
        prove!(false);
    }
}

// The same ports.
pub(super) fn copied(alloc: Global, ports: &Ports) -> Result<Ports, AllocError>
    ensures { IfOk result (λ p. p ≡ ports.now) }
{
    Ok(List::of(Vec::from_slice(alloc, ports.as_slice())?))
}
