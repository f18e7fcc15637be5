//! Both ends of a pair in memory.
//!
//! Layer: runs; private. Adds calls to `MemoryNet`.
ghost use Rattle.std.specs.Prelude.{IfOk};
ghost use Rattle.outside_net.specs.Memory.{IsNewEnd, IsPairEnd, net_listed};

use super::MemoryNet;
use crate::memory_end::MemoryEnd;
use crate::pipe::{Pipe, Pipes};
use crate::trouble::End;
use std::alloc::AllocError;
use std::sync::{Arc, Wait};

impl<R: Wait + Clone + Drop> MemoryNet<R> {
    // One end of a pair.
    fn end(
        &self,
        name: u32,
        end: End,
        out: &Arc<Pipe>,
        into: &Arc<Pipe>,
    ) -> Result<MemoryEnd<R>, AllocError>
        ensures new { IfOk result (λ e. IsNewEnd name e) }
        ensures pair { IfOk result (λ e. IsPairEnd (net_listed self.now) e) }
    {
        let rt = self.rt.clone()?;
        let pipes = Pipes {
            out: Arc::try_clone(out)?,
            into: Arc::try_clone(into)?,
        };
        let calls = Arc::try_clone(&self.calls)?;
        Ok(MemoryEnd::new(self.alloc, rt, name, end, pipes, calls))
    }

    // Both ends of a pair.
    pub(super) fn ends(&self, name: u32) -> Result<(MemoryEnd<R>, MemoryEnd<R>), AllocError>
        ensures first { IfOk result (λ p. IsNewEnd name p.0 × IsPairEnd (net_listed self.now) p.0) }
        ensures second { IfOk result (λ p. IsNewEnd name p.1 × IsPairEnd (net_listed self.now) p.1) }
    {
        let to = Arc::new(self.alloc, Pipe::new(self.alloc))?;
        let back = Arc::new(self.alloc, Pipe::new(self.alloc))?;
        let here = self.end(name, End::First, &to, &back)?;
        let there = self.end(name, End::Second, &back, &to)?;
        Ok((here, there))
    }
}
