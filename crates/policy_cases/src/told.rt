//! Answers of diagrams, and faults, as they are printed.
//!
//! Layer: tests; private. Called by `diagrams`.
use fdd_compile::{CompileError, CompileFault, CompiledPolicy, Compiler, names_few};
use fdd_nodes::Node;
use netkat_parser::{ParseError, parse_policy};
use nk_syntax::Pol;
use nk_values::{Field, IPV4_TYPE, Packet};
use std::alloc::{AllocError, Global};

/// Whether the tests of a diagram are counted, path by path.
#[derive(Clone, Copy, PartialEq)]
pub enum Tests {
    Counted,
    Uncounted,
}

/// What is told of a policy.
pub fn answer(
    alloc: Global,
    compiler: &mut Compiler,
    policy: &str,
    asked: &[Packet],
    tests: Tests,
) -> Result<String, AllocError> {
    match parse_policy(alloc, policy.as_bytes()) {
        Ok(pol) => compiled(alloc, compiler, &pol, asked, tests),
        Err(ParseError::Fault(_)) => String::from_str(alloc, "no policy"),
        Err(ParseError::Memory) => Err(AllocError),
    }
}

fn compiled(
    alloc: Global,
    compiler: &mut Compiler,
    pol: &Pol,
    asked: &[Packet],
    tests: Tests,
) -> Result<String, AllocError> {
    if !names_few(alloc, pol)? {
        return String::from_str(alloc, "too many values");
    }
    match compiler.compile(alloc, pol) {
        Ok(done) => told(alloc, &done, asked, tests),
        Err(CompileError::Fault(fault)) => fault_text(alloc, fault),
        Err(CompileError::Memory) => Err(AllocError),
    }
}

// How many tests the diagram has, and what it makes of the packets.
fn told(
    alloc: Global,
    done: &CompiledPolicy,
    asked: &[Packet],
    tests: Tests,
) -> Result<String, AllocError> {
    let mut text = match tests {
        Tests::Counted => format!(in alloc; "{} tests", count(done.diagram().root()))?,
        Tests::Uncounted => String::from_str(alloc, "compiled")?,
    };
    for packet in asked {
        let made = done.diagram().answer(alloc, packet)?;
        text.push_str(&format!(in alloc; " | {}", sum(alloc, packet, &made)?)?)?;
    }
    Ok(text)
}

fn count(node: &Node) -> u64 {
    match node {
        Node::Leaf(_) => 0,
        Node::Test(_, yes, no) => count(yes).saturating_add(count(no)).saturating_add(1),
    }
}

// Packets as a sum of what makes them, each as often as it is made, in the order of its texts.
fn sum(alloc: Global, from: &Packet, made: &[Packet]) -> Result<String, AllocError> {
    let mut texts = Vec::new(alloc);
    for to in made {
        texts.push(change(alloc, from, to)?)?;
    }
    texts.sort()?;
    if texts.len() > 9 {
        return format!(in alloc; "{} packets", texts.len());
    }
    joined(alloc, &texts)
}

fn joined(alloc: Global, texts: &[String]) -> Result<String, AllocError> {
    let mut sum = String::new(alloc);
    for text in texts {
        if !sum.is_empty() {
            sum.push_str(" + ")?;
        }
        sum.push_str(text)?;
    }
    if sum.is_empty() {
        sum.push_str("drop")?;
    }
    Ok(sum)
}

// The assignments that make a packet of another.
fn change(alloc: Global, from: &Packet, to: &Packet) -> Result<String, AllocError> {
    let mut text = String::new(alloc);
    for f in Field::ALL {
        if from.get(f) != to.get(f) {
            let gap = if text.is_empty() { "" } else { "; " };
            text.push_str(&format!(in alloc; "{gap}{f}:={}", to.get(f))?)?;
        }
    }
    if text.is_empty() {
        text.push_str("skip")?;
    }
    Ok(text)
}

// A fault by its number and name, with what shows it.
fn fault_text(alloc: Global, fault: CompileFault) -> Result<String, AllocError> {
    let label = format!(in alloc; "{} {}", fault.number(), fault.name())?;
    match fault {
        CompileFault::StarDeep { packet, output } => format!(in alloc;
            "{label} from ethDst {} to ethDst {}",
            packet.header.eth_dst, output.header.eth_dst
        ),
        CompileFault::Unguarded { packet } if packet.header.eth_typ == IPV4_TYPE => {
            format!(in alloc; "{label} of IPv4")
        }
        CompileFault::Unguarded { .. } => format!(in alloc; "{label} of no IPv4"),
        _ => Ok(label),
    }
}
