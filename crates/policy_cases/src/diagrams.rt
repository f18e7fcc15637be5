//! Diagrams of policies: how many tests each has and what it makes of each packet that was asked, or its first fault.
//!
//! A heading drops the packets that were asked. A line that begins with `>` asks for one packet more: at port 1 of
//! switch 1, of type 2054, with zeros elsewhere, but for the assignments in the line.
//!
//! - `steps N` stands for the star of the sum of `ethDst=i; ethDst:=i+1` for i from 1 to N.
//! - `steps N in TEST` has `TEST;` before each of these.
//! - `rectangle N` is for the packets of TCP with one of N numbers in each of four fields, which go to port 2.
//! - `steps N in rectangle M` has the steps for such packets.
//! - `star of rectangle N` lets them go from port 1 any number of times, and on to ports that set the four fields.
//!   Beside them are sums at other ports, which set ethDst by the numbers of one field each.
//!
//! The diagrams of rectangles share their parts: their tests are not counted, since each path has its own. What is made
//! of a packet is told as a policy: the assignments that make each of its packets, `skip` for the packet itself and
//! `drop` for none. If they are more than nine, the line says how many. A packet that is made twice is told twice.
//!
//! Layer: tests; private. Called by the root of the crate.
use crate::policies::{packet_of, rectangle, rectangle_tests, star_of_rectangle, steps};
use crate::told::{Tests, answer};
use fdd_compile::Compiler;
use nk_values::Packet;
use std::alloc::{AllocError, Global};

/// The packets that were asked since the last heading, and one compiler for all policies.
#[derive(Drop)]
pub struct Diagrams {
    compiler: Compiler,
    asked: Vec<Packet>,
}

impl Diagrams {
    /// Before the first line.
    pub fn new(alloc: Global) -> Diagrams {
        Diagrams {
            compiler: Compiler::new(alloc),
            asked: Vec::new(alloc),
        }
    }

    /// Drops the packets that were asked.
    pub fn begin(&mut self) {
        self.asked.clear();
    }

    /// What is told of a line: the line itself if it asks for a packet.
    pub fn answer(&mut self, alloc: Global, line: &str) -> Result<String, AllocError> {
        if let Some(packet) = line.strip_prefix(">") {
            self.asked.push(packet_of(alloc, packet)?)?;
            return String::from_str(alloc, line);
        }
        of_line(alloc, &mut self.compiler, line, &self.asked)
    }
}

fn of_line(
    alloc: Global,
    compiler: &mut Compiler,
    line: &str,
    asked: &[Packet],
) -> Result<String, AllocError> {
    if let Some(rest) = line.strip_prefix("steps ") {
        let (count, guard) = rest.split_once(" in ").unwrap_or((rest, "skip"));
        return of_steps(alloc, compiler, count.parse().unwrap_or(0), guard, asked);
    }
    if let Some(count) = line.strip_prefix("star of rectangle ") {
        let policy = star_of_rectangle(alloc, count.parse().unwrap_or(0))?;
        return answer(alloc, compiler, &policy, asked, Tests::Uncounted);
    }
    match line.strip_prefix("rectangle ") {
        Some(count) => {
            let policy = rectangle(alloc, count.parse().unwrap_or(0))?;
            answer(alloc, compiler, &policy, asked, Tests::Uncounted)
        }
        None => answer(alloc, compiler, line, asked, Tests::Counted),
    }
}

fn of_steps(
    alloc: Global,
    compiler: &mut Compiler,
    count: u64,
    guard: &str,
    asked: &[Packet],
) -> Result<String, AllocError> {
    match guard.strip_prefix("rectangle ") {
        Some(numbers) => {
            let tests = rectangle_tests(alloc, numbers.parse().unwrap_or(0))?;
            let policy = steps(alloc, count, &tests)?;
            answer(alloc, compiler, &policy, asked, Tests::Uncounted)
        }
        None => answer(
            alloc,
            compiler,
            &steps(alloc, count, guard)?,
            asked,
            Tests::Counted,
        ),
    }
}
