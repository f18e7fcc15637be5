//! What the switch of a case answers.
//!
//! Layer: tests; private. Adds calls to `Fake`.
ghost use Rattle.std.specs.Prelude.{IfSome};
ghost use Rattle.openflow_wire.specs.Writing.{Fits};

use super::{Fake, Twist};
use crate::wire::Wire;
use openflow_wire::{Message, Octets};

impl<W: Wire> Fake<W> {
    // Says an answer, if there is one, and whether it went out.
    pub(super) fn answer(&mut self, answer: Option<Message>) -> bool
        requires { IfSome answer Fits }
    {
        let Some(message) = answer else {
            return true;
        };
        if self.twist == Twist::Probes && !self.probe() {
            return false;
        }
        let message = self.twisted(message);
        match self.twist {
            Twist::Speaks(version) => self.say(&message, version),
            _ => self.say(&message, 1),
        }
    }

    // Asks whether the other side is there.
    fn probe(&mut self) -> bool {
        let Ok(payload) = Octets::from_slice(self.alloc, b"there?") else {
            return false;
        };
        self.say(&Message::EchoRequest { xid: 77, payload }, 1)
    }

    // The message as this switch says it.
    fn twisted(&self, message: Message) -> Message
        requires { Fits message }
        ensures { Fits result }
    {
        match (message, self.twist) {
            (
                Message::FeaturesReply {
                    xid,
                    datapath: _,
                    buffers,
                    tables,
                    capabilities,
                    actions,
                    ports,
                },
                Twist::Tells(datapath),
            ) => Message::FeaturesReply {
                xid,
                datapath,
                buffers,
                tables,
                capabilities,
                actions,
                ports,
            },
            (message, _) => message,
        }
    }
}
