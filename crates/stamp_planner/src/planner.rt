//! Stamps: the VLAN ids that tell the packets of one policy from those of another.
//!
//! Layer: updates; public. Called by flow_tests.
ghost use Rattle.std.specs.Prelude.{◌≡◌, ◌≤◌, ◌<◌, ◌↔◌, IsErr, IfOk, MatchOption, OnErr, ◌+◌, ◌-◌};
ghost use Rattle.stamp_planner.specs.Stamps.{Planning, IsLive, AllLive, IsFirstFree, rotated, none_live, given};
ghost use Rattle.stamp_planner.specs.Stamps.{released};

use nk_values::GREATEST_VLAN_ID;
use std::marker::Model;
use thiserror::Error;

// How many numbers a stamp may be below.
const NUMBERS: usize = GREATEST_VLAN_ID as usize + 1;

/// Every stamp is live.
#[derive(Clone, Copy, Debug, PartialEq, Eq, Error)]
#[error("every stamp is live")]
pub struct NoStamp;

/// Gives the stamps of a range, which lies in 1 to 4094, one after another and going round, and leaves out
/// those that are live (SIGCOMM 2012: the version number in a packet's VLAN tag).
#[derive(Drop)]
pub struct Planner {
    low: u16,
    high: u16,
    next: u16,
    live: [bool; NUMBERS],
}

impl Model for Planner {
    ghost use Rattle.stamp_planner.specs.Stamps.{Planning, IsPlanning, planning_of};

    ghost Value = { Planning };

    ghost view = { λ p. planning_of p.low p.high p.next p.live };

    ghost invariant = { λ p. IsPlanning (planning_of p.low p.high p.next p.live) };
}

impl Planner {
    /// A planner of the stamps from the one to the other, none of which is live.
    pub fn new(low: u16, high: u16) -> Planner
        requires some { 1 ≤ low }
        requires two { low < high }
        requires vlan { high ≤ 4094 }
        ensures { result ≡ none_live low high }
    {
        Planner {
            low,
            high,
            next: low,
            live: [false; NUMBERS],
        }
    }

    /// Gives a stamp, which is then live: the first one after the last that was given, going round, that is not
    /// live. Before any was given the search begins at the first of the range.
    pub fn next_stamp(&mut self) -> Result<u16, NoStamp>
        ensures first { IfOk result (λ stamp. IsFirstFree self.old stamp) }
        ensures given { IfOk result (λ stamp. self.new ≡ given self.old stamp) }
        ensures none { IsErr result ↔ AllLive self.old }
        ensures unchanged { OnErr result (self.new ≡ self.old) }
    {
        let Some(stamp) = self.first_free() else {
            return Err(NoStamp);
        };
        self.live[usize::from(stamp)] = true;
        self.next = if stamp == self.high {
            self.low
        } else {
            stamp + 1
        };
        Ok(stamp)
    }

    /// Releases a stamp, which may be given again.
    pub fn release(&mut self, stamp: u16)
        ensures released { self.new ≡ released self.old stamp }
        ensures idle { ¬ (IsLive self.old stamp) → self.new ≡ self.old }
    {
        if stamp <= GREATEST_VLAN_ID {
            self.live[usize::from(stamp)] = false;
        }
    }

    // The first free stamp, if there is one.
    fn first_free(&self) -> Option<u16>
        ensures { MatchOption result (AllLive self.now) (IsFirstFree self.now) }
    {
        for steps in 0..self.high - self.low + 1 {
            let stamp = self.rotated(steps);
            if !self.live[usize::from(stamp)] {
                return Some(stamp);
            }
        }
        None
    }

    // The stamp a number of places on, going round.
    fn rotated(&self, steps: u16) -> u16
        requires { steps < self.now.high + 1 - self.now.low }
        ensures value { result ≡ rotated self.now steps }
        ensures low { self.now.low ≤ result }
        ensures high { result ≤ self.now.high }
    {
        if steps <= self.high - self.next {
            self.next + steps
        } else {
            self.low + (steps - (self.high - self.next) - 1)
        }
    }
}
