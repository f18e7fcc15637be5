//! One case: the words, the document, and what is to fail.
//!
//! Layer: tests; private. Called by the root of the crate.
use crate::calls::{Failures, Outcome, call, call_plain};
use crate::expanding::push_expanded;
use crate::holding::HoldGate;
use crate::shown::{shown, shown_run};
use crate::trouble::trouble_of;
use std::alloc::{AllocError, Global};
use std::sync::{Arc, Wait};
use std::thread::Threads;
use std::time::Clock;

/// A case, with its head line as it stands.
#[derive(Drop)]
pub struct Case {
    head: String,
    words: Vec<String>,
    has_threads: bool,
    failures: Failures,
    document: String,
}

impl Case {
    /// The case of a head line, with an empty document so far.
    pub fn new(alloc: Global, head: &str) -> Result<Case, AllocError> {
        let mut case = Case {
            head: head.to_string(alloc)?,
            words: Vec::new(alloc),
            has_threads: true,
            failures: Failures::nothing(alloc),
            document: String::new(alloc),
        };
        case.take_head(alloc, head)?;
        Ok(case)
    }

    // Takes the words of a head line, and what is to fail.
    fn take_head(&mut self, alloc: Global, head: &str) -> Result<(), AllocError> {
        let (words, rest) = head.split_once(",").unwrap_or((head, ""));
        for word in words.split_ascii_whitespace() {
            self.words.push(word.to_string(alloc)?)?;
        }
        for part in rest.split(",") {
            self.take_part(alloc, part.trim())?;
        }
        Ok(())
    }

    // Takes what is to fail.
    fn take_part(&mut self, alloc: Global, part: &str) -> Result<(), AllocError> {
        if let Some(most) = part.strip_prefix("pieces of ") {
            self.failures.piece = most.parse::<usize>().unwrap_or(1);
        } else if let Some(number) = call_of(part, "read ") {
            self.failures.reads.push(number)?;
        } else if let Some(number) = call_of(part, "write ") {
            self.failures.writes.push(number)?;
        } else if let Some(number) = call_of(part, "pair ") {
            self.failures.pairs.push(number)?;
        } else if let Some(number) = call_of(part, "thread ") {
            self.failures.threads.push(number)?;
        } else if part == "no threads" {
            self.has_threads = false;
        } else if let Some(trouble) = trouble_of(alloc, part)? {
            self.failures.links.push(trouble)?;
        }
        Ok(())
    }

    /// Its head line.
    pub fn head(&self) -> &str {
        &self.head
    }

    /// Takes a line of the document.
    pub fn push_line(&mut self, alloc: Global, line: &str) -> Result<(), AllocError> {
        push_expanded(alloc, &mut self.document, line)
    }

    // Whether its command is one with threads, and the call may have some.
    fn runs(&self) -> bool {
        self.has_threads
            && self
                .words
                .get(1)
                .is_some_and(|word| word.as_str() == "run" || word.as_str() == "watch")
    }

    /// How the call ends, and what is to be printed of what it writes.
    pub fn told<
        R: Wait + Clock + Threads + AllocGlobal + Copy + Clone + Drop + Send + Sync + 'static,
    >(self, rt: R) -> Result<String, AllocError> {
        let alloc = rt.alloc();
        let runs = self.runs();
        let Case {
            head: _head,
            words,
            has_threads: _has_threads,
            failures,
            document,
        } = self;
        if runs {
            let gate = Arc::new(alloc, HoldGate::new(rt, None))?;
            let outcome = call(rt, alloc, &words, &document, failures, gate)?;
            return shown_run(alloc, &outcome);
        }
        let outcome = call_plain(alloc, &words, &document, failures)?;
        shown(alloc, &outcome)
    }
}

// The number of a call that is to fail.
fn call_of(part: &str, kind: &str) -> Option<u64> {
    let number = part.strip_prefix(kind)?.strip_suffix(" fails")?;
    number.parse::<u64>().ok()
}
