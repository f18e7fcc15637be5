//! A switch at the other end of a wire.
//!
//! Layer: tests; private. Called by `case`, `memory` and `tcp`.
ghost use Rattle.openflow_wire.specs.Writing.{Fits};

use crate::wire::Wire;
use bytes::BytesMut;
use of_framing::Framer;
use openflow_wire::{Message, encode};
use outside_net::Job;
use std::alloc::Global;
use switch_model::Switch;

mod replies;

/// What a switch does otherwise than others.
#[derive(Clone, Copy, Debug, PartialEq, Eq)]
pub enum Twist {
    /// Nothing.
    Plain,
    /// It tells this datapath id.
    Tells(u64),
    /// The number of rows that its table has room for.
    Capacity(usize),
    /// Its HELLO has this version.
    Greets(u8),
    /// The first byte of its messages after HELLO is this.
    Speaks(u8),
    /// It sends an ECHO_REQUEST before each answer.
    Probes,
    /// It goes once it took this number of messages.
    Leaves(u64),
}

/// A switch that greets, takes what comes, and does each thing at once.
#[derive(Drop)]
pub struct Fake<W: Wire> {
    alloc: Global,
    wire: W,
    switch: Switch,
    twist: Twist,
}

// How many rows a table has room for.
const CAPACITY: usize = 1000;

impl<W: Wire> Fake<W> {
    /// A switch of this number, over this wire.
    pub fn new(alloc: Global, wire: W, sw: u16, twist: Twist) -> Fake<W> {
        let capacity = match twist {
            Twist::Capacity(rows) => rows,
            _ => CAPACITY,
        };
        Fake {
            alloc,
            wire,
            switch: Switch::new(alloc, sw, capacity),
            twist,
        }
    }

    // Says a message, with this first byte, and whether it went out.
    fn say(&mut self, message: &Message, version: u8) -> bool
        requires { Fits message.now }
    {
        let mut out = BytesMut::new(self.alloc);
        if encode(message, &mut out).is_err() {
            return false;
        }
        if let Some(first) = out.as_mut_slice().first_mut() {
            *first = version;
        }
        self.wire.put(out.as_slice())
    }

    // Greets, and says whether that went out.
    fn greet(&mut self) -> bool {
        let version = match self.twist {
            Twist::Greets(version) => version,
            _ => 1,
        };
        self.say(&Message::Hello { version: 1, xid: 0 }, version)
    }

    // Takes a message, applies what is pending, and answers the barrier; and says whether it can go on.
    fn take(&mut self, message: Message) -> bool
        requires { Fits message }
    {
        let Ok(answer) = self.switch.take(self.alloc, message) else {
            return false;
        };
        if !self.answer(answer) {
            return false;
        }
        for _ in 0..self.switch.pending() {
            let Ok(error) = self.switch.apply(self.alloc, 0) else {
                return false;
            };
            if !self.answer(error) {
                return false;
            }
        }
        match self.switch.reply() {
            Ok(reply) => self.answer(Some(reply)),
            Err(_) => true,
        }
    }

    // Receives some bytes, and says whether there were any.
    fn receive(&mut self, framer: &mut Framer) -> bool {
        let mut place = [0u8; 512];
        match self.wire.get(&mut place) {
            Some(count) => framer.feed(&place[..count]).is_ok(),
            None => false,
        }
    }

    // Works until the wire is closed.
    fn work(&mut self) {
        let mut framer = Framer::new(self.alloc);
        let mut taken = 0;
        if !self.wire.open() || !self.greet() {
            return;
        }
        for _ in 0..u64::MAX {
            match framer.next(self.alloc) {
                None => {
                    if !self.receive(&mut framer) {
                        return;
                    }
                }
                Some(Ok(message)) => {
                    if self.twist == Twist::Leaves(taken) || !self.take(message) {
                        return;
                    }
                    taken = u64::saturating_add(taken, 1);
                }
                Some(Err(_)) => return,
            }
        }
    }
}

impl<W: Wire + Send + 'static> Job for Fake<W> {
    fn run(self) {
        let mut fake = self;
        fake.work();
    }
}
