//! Reports in memory, at calls that are known before.
//!
//! Layer: runs; public. Called by link_cases and nkctl_cases.
ghost use Rattle.outside_net.specs.Causes.{ReportCause};

use crate::reporter::{Receipt, ReportFailure, Reporter};

/// A report in memory.
#[derive(Drop)]
pub struct MemoryReceipt {
    stamp: u16,
}

impl Receipt for MemoryReceipt {
    ghost stamped = { λ r. r.stamp };

    fn stamp(&self) -> u16 {
        self.stamp
    }
}

/// Reports a stamp after it was asked for as often as was said, except at calls that are to fail.
#[derive(Drop)]
pub struct MemoryReporter {
    early: u64,
    asked: u64,
    calls: u64,
    failing: Vec<u64>,
    faults: u64,
}

impl MemoryReporter {
    /// A reporter that answers `early` calls of `wait` with nothing before each report. Calls of both kinds with these
    /// numbers, counted from 1, fail.
    pub fn new(early: u64, failing: Vec<u64>) -> MemoryReporter {
        MemoryReporter {
            early,
            asked: 0,
            calls: 0,
            failing,
            faults: 0,
        }
    }

    // One call more, which may be one that fails.
    fn call(&mut self) -> Result<(), ReportFailure>
        ensures { ReportCause self.old.faults self.new.faults result }
    {
        self.calls = self.calls.saturating_add(1);
        if self.failing.contains(&self.calls) {
            self.faults = self.faults.saturating_add(1);
            return Err(ReportFailure);
        }
        Ok(())
    }
}

impl Reporter for MemoryReporter {
    type Receipt = MemoryReceipt;

    ghost faults = { λ r. r.faults };

    fn listen(&mut self, _port: u16) -> Result<(), ReportFailure> {
        self.call()
    }

    fn wait(&mut self, stamp: u16) -> Result<Option<MemoryReceipt>, ReportFailure> {
        self.call()?;
        if self.asked < self.early {
            self.asked += 1;
            return Ok(None);
        }
        self.asked = 0;
        Ok(Some(MemoryReceipt { stamp }))
    }
}
