//! Commands without threads whose reads or writes fail, and an update that is cut off.
//!
//! Layer: tests; private. Called by the root of the crate.
use crate::calls::{Failures, Outcome, call_plain, plain, words};
use crate::meaning::{Wiring, meanings};
use crate::report::{have_one_policy, line_of, tells_of_loss};
use controller_program::Status;
use report_text::Text;
use std::alloc::{AllocError, Global};

// One packet at two switches.
const PAIR: &str =
    "switch 1 ports 1 2\nswitch 2 ports 1 2\nlink 1:2 2:1\npolicy\npt=1; pt:=2\nend\npacket 1:1\n";

const TRACE: &str = "policy 1\npacket 1\ndone 1:1>1:2>2:1>2:2\n";

// One switch, and two policies for two packets.
const UPDATE: &str =
    "switch 1 ports 1 2 3\npolicy\npt=1; ethDst=5; pt:=2\nend\npolicy\npt=1; pt:=3\nend\npacket 1:1 ethDst=5\npacket 1:1 ethDst=6\n";

const WIRING: Wiring = Wiring {
    edges: "sw=1; (pt=1 + pt=2 + pt=3)",
    links: "drop",
};

const POLICIES: [&str; 3] = ["drop", "pt=1; ethDst=5; pt:=2", "pt=1; pt:=3"];

// How much a read or a write moves.
const PIECE: usize = 16;

// A trace of the packet in pieces. A read and a write fail by their numbers, from 1, or none does at 0.
fn trace(alloc: Global, read: u64, write: u64) -> Result<Outcome, AllocError> {
    let mut failures = Failures::nothing(alloc);
    failures.piece = PIECE;
    failures.reads.push(read)?;
    failures.writes.push(write)?;
    let words = words(alloc, "trace")?;
    call_plain(alloc, &words, PAIR, failures)
}

/// Each read of a document fails, one a call, until none is left that could.
pub fn reads(alloc: Global) -> Result<Option<usize>, AllocError> {
    for read in 1..1_000 {
        let Outcome { status, text } = trace(alloc, read, 0)?;
        if status == Status::Done && read > 6 {
            return Ok(None);
        }
        if status != Status::ReadFault || text.as_str() != "nkctl: read fault\n" {
            return Ok(Some(read as usize));
        }
    }
    Ok(Some(1_000))
}

/// Each write of a trace fails, one a call: the sink has the pieces before it.
pub fn writes(alloc: Global) -> Result<Option<usize>, AllocError> {
    for write in 1..1_000 {
        let Outcome { status, text } = trace(alloc, 0, write)?;
        if status == Status::Done && text.as_str() == TRACE && write > 2 {
            return Ok(None);
        }
        let whole = PIECE * (write as usize - 1);
        if status != Status::WriteFault
            || text.len() != whole
            || !TRACE.starts_with(text.as_str())
        {
            return Ok(Some(write as usize));
        }
    }
    Ok(Some(1_000))
}

// What happens in the update: the flip goes on in another order than its flow mods came, with packets between them.
const SCHEDULE: &str =
    "settle\nbegin\nsettle\nbegin\nsend 1\nsend 1\nsend 1\nsend 1\ntake 1\ntake 1\ntake 1\ntake 1\napply 1 0\napply 1 0\napply 1 0\nreply 1\nheard 1\nsend 1\nsend 1\nsend 1\ntake 1\ntake 1\ntake 1\napply 1 2\narrive 2\napply 1 0\narrive 2\narrive 1\nsettle\ndrained 1\nsettle\n";

// What happened so far, as a schedule, and the packet lines that came in, from 0.
#[derive(Drop)]
struct Course {
    schedule: String,
    came: Vec<usize>,
}

impl Course {
    // Takes an event.
    fn push(&mut self, event: &str) -> Result<(), AllocError> {
        match arrival_of(event) {
            None => self.schedule.push_str(event)?,
            Some(line) => {
                self.came.push(line)?;
                let event = if line == 0 { "arrive 1" } else { "arrive 2" };
                self.schedule.push_str(event)?;
            }
        }
        self.schedule.push_str("\n")
    }
}

/// The session is lost after each event of an update, and two packets come in then: the phase stays what it was.
pub fn events(alloc: Global) -> Result<Option<usize>, AllocError> {
    let meanings = meanings(alloc, UPDATE, WIRING, &POLICIES)?;
    let whole = simulated(alloc, SCHEDULE)?;
    let mut course = Course {
        schedule: String::new(alloc),
        came: Vec::new(alloc),
    };
    first_wrong(alloc, &whole.text, &mut course, &meanings)
}

// The first event of a report after which a loss does more.
fn first_wrong(
    alloc: Global,
    whole: &str,
    course: &mut Course,
    meanings: &[Vec<Vec<Text>>],
) -> Result<Option<usize>, AllocError> {
    for (place, line) in whole.lines().enumerate() {
        if !stands_when_lost(alloc, course, meanings)? {
            return Ok(Some(place));
        }
        let Some(event) = line.strip_prefix("e ") else {
            return Ok(None);
        };
        course.push(event)?;
    }
    Ok(Some(0))
}

// The packet line of an arrival, from 0.
fn arrival_of(event: &str) -> Option<usize> {
    if !event.starts_with("arrive ") {
        return None;
    }
    Some(usize::from(!event.contains("ethDst=00:00:00:00:00:05")))
}

// Whether the phase stays and each packet has one policy if the session is lost after these events.
fn stands_when_lost(
    alloc: Global,
    course: &Course,
    meanings: &[Vec<Vec<Text>>],
) -> Result<bool, AllocError> {
    let before = simulated(alloc, &course.schedule)?;
    let after = simulated_cut(alloc, &course.schedule)?;
    let lines = with_both(alloc, &course.came)?;
    let same = line_of(&after.text, "phase ") == line_of(&before.text, "phase ");
    let told = after.status == Status::Halted && tells_of_loss(&after.text);
    if !same || !told {
        return Ok(false);
    }
    have_one_policy(alloc, &after.text, meanings, &lines)
}

// Packet lines, and then both.
fn with_both(alloc: Global, came: &[usize]) -> Result<Vec<usize>, AllocError> {
    let mut lines = Vec::from_slice(alloc, came)?;
    lines.push(0)?;
    lines.push(1)?;
    Ok(lines)
}

// A simulation of the update with this schedule, after which the session is lost and both packets come in.
fn simulated_cut(alloc: Global, schedule: &str) -> Result<Outcome, AllocError> {
    let cut = format!(in alloc; "{schedule}lost 1\narrive 1\narrive 2\n")?;
    simulated(alloc, &cut)
}

// A simulation of the update with this schedule.
fn simulated(alloc: Global, schedule: &str) -> Result<Outcome, AllocError> {
    let document = format!(in alloc; "{UPDATE}schedule\n{schedule}end\n")?;
    plain(alloc, "simulate", &document)
}
