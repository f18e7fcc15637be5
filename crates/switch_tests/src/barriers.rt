//! A barrier after two flow mods.
//!
//! Layer: tests; private. Its tests are run by `rt test`.
use crate::messages::waiting;
use openflow_wire::Message;
use std::test::Fail;
use switch_model::{NotReady, RejectedMessage, TakeError, TakeFault};

#[test]
fn answers_once_both_are_applied(rt: HostRuntime) -> Result<(), Fail> {
    let alloc = rt.alloc();
    let mut switch = waiting(alloc, 2)?;
    assert_eq!(rt; (switch.pending(), switch.awaits()), (2, true));
    assert_eq!(rt; switch.reply().err(), Some(NotReady));
    assert!(rt; matches!(switch.apply(alloc, 1), Ok(None)));
    assert_eq!(rt; switch.reply().err(), Some(NotReady));
    assert!(rt; matches!(switch.apply(alloc, 0), Ok(None)));
    assert!(rt; matches!(switch.reply(), Ok(Message::BarrierReply { xid: 3 })));
    assert_eq!(rt; (switch.pending(), switch.awaits()), (0, false));
    assert_eq!(rt; switch.reply().err(), Some(NotReady));
    Ok(())
}

#[test]
fn takes_nothing_before(rt: HostRuntime) -> Result<(), Fail> {
    let alloc = rt.alloc();
    let mut switch = waiting(alloc, 2)?;
    let answer = switch.take(alloc, Message::FeaturesRequest { xid: 4 });
    assert!(rt;
        matches!(
            answer,
            Err(RejectedMessage {
                error: TakeError::Fault(TakeFault::Waiting),
                message: Message::FeaturesRequest { xid: 4 }
            })
        )
    );
    assert_eq!(rt; (switch.pending(), switch.awaits()), (2, true));
    Ok(())
}

#[test]
fn says_why(rt: HostRuntime) -> Result<(), Fail> {
    let alloc = rt.alloc();
    let mut switch = waiting(alloc, 2)?;
    match switch.take(alloc, Message::FeaturesRequest { xid: 4 }) {
        Err(not_taken) => {
            let shown = format!(in alloc; "{not_taken}")?;
            assert_eq!(rt; shown.as_str(), "a barrier is awaited");
        }
        Ok(_) => assert!(rt; false, "it is taken"),
    }
    Ok(())
}
