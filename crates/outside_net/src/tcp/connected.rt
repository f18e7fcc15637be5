//! The calls of an end over TCP.
//!
//! Layer: runs; private. Adds calls to `TcpEnd`.
ghost use Rattle.std.specs.Prelude.{None};

use super::{TcpEnd, is_early};
use crate::link::{Link, LinkFault};
use std::alloc::AllocError;
use std::time::Clock;

impl<R: Clock + Drop> Link for TcpEnd<R> {
    ghost named = { λ e. e.name };

    ghost faults = { λ e. e.faults };

    ghost sent = { λ e. None };

    ghost received = { λ e. None };

    fn name(&self) -> u32 {
        self.name
    }

    fn make_room(&mut self, _bytes: usize) -> Result<(), AllocError> {
        Ok(())
    }

    fn send(&mut self, bytes: &[u8]) -> Result<(), LinkFault> {
        if self.failed {
            return Err(self.close());
        }
        match self.write(bytes) {
            Ok(()) => Ok(()),
            Err(error) => Err(self.fault(&error)),
        }
    }

    fn recv(&mut self, place: &mut [u8]) -> Result<usize, LinkFault> {
        if self.failed {
            return Err(self.close());
        }
        match self.read(place) {
            Ok(0) => Err(self.close()),
            Ok(count) => Ok(count),
            Err(error) => {
                if self.is_met() && is_early(&error) {
                    return Ok(0);
                }
                Err(self.fault(&error))
            }
        }
    }
}
