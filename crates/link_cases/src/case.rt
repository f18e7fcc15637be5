//! One case: what is odd about its switches and its reporter, and the document.
//!
//! Layer: tests; private. Called by `memory`, `tcp` and `telling`.
use crate::fake::Twist;
use std::alloc::{AllocError, Global};

/// A case, with its name.
#[derive(Drop)]
pub struct Case {
    pub name: String,
    /// What is odd about the switch of this number.
    pub twist: Twist,
    pub twisted: u16,
    /// When a reporter in memory reports, and which call of it fails.
    pub after: u64,
    pub failing: u64,
    /// The switch whose port cannot be opened.
    pub closed: u16,
    /// The switch that comes late over TCP, and the one that never comes.
    pub late: u16,
    pub absent: u16,
    /// Whether it is a run over TCP, and no drive.
    pub runs: bool,
    /// Whether the drive is over TCP, what the reporter writes then, and whether it leaves after that.
    pub tcp: bool,
    pub said: String,
    pub leaves: bool,
    /// Whether of its text the lines of events are not printed.
    pub short: bool,
    /// The numbers of its switches, in the order of the document.
    pub switches: Vec<u16>,
    pub document: String,
}

impl Case {
    /// The case of a name, with an empty document so far.
    pub fn new(alloc: Global, name: &str) -> Result<Case, AllocError> {
        Ok(Case {
            name: name.to_string(alloc)?,
            twist: Twist::Plain,
            twisted: 0,
            after: 0,
            failing: 0,
            closed: 0,
            late: 0,
            absent: 0,
            runs: false,
            tcp: false,
            said: String::new(alloc),
            leaves: false,
            short: false,
            switches: Vec::new(alloc),
            document: String::new(alloc),
        })
    }

    /// Takes a line: one of what is odd, or one of the document.
    pub fn push_line(&mut self, line: &str) -> Result<(), AllocError> {
        if let Some(words) = line.strip_prefix("= switch ") {
            let (number, words) = words.split_once(" ").unwrap_or((words, ""));
            self.twisted = number.parse::<u16>().unwrap_or(0);
            self.twist = read_twist(words);
            return Ok(());
        }
        if let Some(words) = line.strip_prefix("= ") {
            return self.take_words(words);
        }
        if let Some(rest) = line.strip_prefix("switch ") {
            let number = rest.split_ascii_whitespace().next().unwrap_or("");
            self.switches.push(number.parse::<u16>().unwrap_or(0))?;
        }
        self.document.push_str(line)?;
        self.document.push_str("\n")
    }

    /// What is odd about a switch.
    pub fn twist_of(&self, sw: u16) -> Twist {
        if sw == self.twisted {
            self.twist
        } else {
            Twist::Plain
        }
    }

    // Takes what is odd: one word, or words with a number after them.
    fn take_words(&mut self, words: &str) -> Result<(), AllocError> {
        match words {
            "short" => self.short = true,
            "over tcp" => self.tcp = true,
            "runs" => self.runs = true,
            "reporter leaves" => self.leaves = true,
            _ => {
                if let Some(line) = words.strip_prefix("reporter says ") {
                    self.said.push_str(line)?;
                    return self.said.push_str("\n");
                }
                let (kind, number) = words.rsplit_once(" ").unwrap_or((words, ""));
                self.take_number(kind, number.parse::<u16>().unwrap_or(0));
            }
        }
        Ok(())
    }

    // Takes what is odd with its number.
    fn take_number(&mut self, kind: &str, number: u16) {
        match kind {
            "late" => self.late = number,
            "absent" => self.absent = number,
            "closed" => self.closed = number,
            "reporter after" => self.after = u64::from(number),
            "reporter fails at" => self.failing = u64::from(number),
            _ => {}
        }
    }
}

/// The cases of a text.
pub fn read_cases(alloc: Global, text: &str) -> Result<Vec<Case>, AllocError> {
    let mut cases: Vec<Case> = Vec::new(alloc);
    for line in text.lines() {
        if let Some(name) = line.strip_prefix("== ") {
            cases.push(Case::new(alloc, name)?)?;
        } else if let Some(case) = cases.last_mut() {
            case.push_line(line)?;
        }
    }
    Ok(cases)
}

// What words say that is odd.
fn read_twist(words: &str) -> Twist {
    if words == "probes" {
        return Twist::Probes;
    }
    let (kind, number) = words.rsplit_once(" ").unwrap_or((words, ""));
    let number = number.parse::<u64>().unwrap_or(0);
    match kind {
        "tells" => Twist::Tells(number),
        "capacity" => Twist::Capacity(usize::try_from(number).unwrap_or(0)),
        "greets with" => Twist::Greets(u8::try_from(number).unwrap_or(0)),
        "speaks" => Twist::Speaks(u8::try_from(number).unwrap_or(0)),
        "leaves after" => Twist::Leaves(number),
        _ => Twist::Plain,
    }
}
