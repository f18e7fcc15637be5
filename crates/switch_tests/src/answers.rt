//! What a switch answers at once.
//!
//! Layer: tests; private. Its tests are run by `rt test`.
ghost use Rattle.std.specs.Prelude.{IfOk};
ghost use Rattle.openflow_wire.specs.Writing.{Fits};

use crate::messages::is_written;
use openflow_wire::{Message, Octets};
use std::alloc::{AllocError, Global};
use std::test::Fail;
use switch_model::Switch;

// Whether the switch with the number 7 answers a message by these bytes; none are for no answer.
fn answers(alloc: Global, message: Message, bytes: &[u8]) -> Result<bool, AllocError>
    requires { Fits message }
{
    match Switch::new(alloc, 7, 1).take(alloc, message) {
        Ok(Some(answer)) => is_written(alloc, &answer, bytes),
        Ok(None) => Ok(bytes.is_empty()),
        Err(_) => Ok(false),
    }
}

// An echo request with two bytes.
fn echo(alloc: Global) -> Result<Message, AllocError>
    ensures { IfOk result Fits }
{
    let payload = Octets::from_slice(alloc, b"ab")?;
    Ok(Message::EchoRequest { xid: 9, payload })
}

#[test]
fn answers_an_echo(rt: HostRuntime) -> Result<(), Fail> {
    let reply = [1, 3, 0, 10, 0, 0, 0, 9, 0x61, 0x62];
    assert!(rt; answers(rt.alloc(), echo(rt.alloc())?, &reply)?);
    Ok(())
}

#[test]
fn tells_its_features(rt: HostRuntime) -> Result<(), Fail> {
    let reply = [
        1, 6, 0, 32, 0, 0, 0, 2, // the header
        0, 0, 0, 0, 0, 0, 0, 7, // the datapath id
        0, 0, 0, 0, 1, 0, 0, 0, // no buffers, one table
        0, 0, 0, 1, 0, 0, 6, 0xfb, // flow statistics, and actions
    ];
    let request = Message::FeaturesRequest { xid: 2 };
    assert!(rt; answers(rt.alloc(), request, &reply)?);
    Ok(())
}

// A request for statistics: what is in its 12 bytes.
fn statistics(alloc: Global) -> Result<Message, AllocError>
    ensures { IfOk result Fits }
{
    Ok(Message::Other {
        number: 16,
        xid: 9,
        body: Octets::from_slice(alloc, &[0, 3, 0, 0])?,
    })
}

#[test]
fn refuses_other_kinds(rt: HostRuntime) -> Result<(), Fail> {
    let error = [
        1, 1, 0, 24, 0, 0, 0, 9, 0, 1, 0, 1, // a bad request: its type
        1, 16, 0, 12, 0, 0, 0, 9, 0, 3, 0, 0, // all of the request
    ];
    assert!(rt; answers(rt.alloc(), statistics(rt.alloc())?, &error)?);
    Ok(())
}

#[test]
fn ignores_replies(rt: HostRuntime) -> Result<(), Fail> {
    let hello = Message::Hello { version: 1, xid: 1 };
    assert!(rt; answers(rt.alloc(), hello, &[])?);
    let reply = Message::BarrierReply { xid: 2 };
    assert!(rt; answers(rt.alloc(), reply, &[])?);
    Ok(())
}
