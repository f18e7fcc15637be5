//! Sessions, message by message.
//!
//! Layer: tests; private. Its tests are run by `rt test`.
use openflow_wire::{Message, Octets};
use session_core::{Move, Session, SessionFault, SessionState, echo_reply};
use std::alloc::{AllocError, Global};
use std::test::Fail;

// What a session answers to the greeting with this version.
fn greet(session: &mut Session, version: u8) -> Move {
    session.take(&Message::Hello { version, xid: 1 })
}

// What a session answers to a features reply with this id.
fn identify(alloc: Global, session: &mut Session, datapath: u64) -> Result<Move, AllocError> {
    let reply = Message::FeaturesReply {
        xid: 2,
        datapath,
        buffers: 0,
        tables: 1,
        capabilities: 1,
        actions: 0x6fb,
        ports: Octets::from_slice(alloc, &[])?,
    };
    Ok(session.take(&reply))
}

// What a session answers to an error of type 3 and code 0.
fn refuse(alloc: Global, session: &mut Session) -> Result<Move, AllocError> {
    let error = Message::Error {
        xid: 5,
        form: 3,
        code: 0,
        payload: Octets::from_slice(alloc, &[])?,
    };
    Ok(session.take(&error))
}

// What a session answers to a barrier reply.
fn bar(session: &mut Session) -> Move {
    session.take(&Message::BarrierReply { xid: 4 })
}

#[test]
fn greets_before_it_is_known(rt: HostRuntime) -> Result<(), Fail> {
    let mut session = Session::new(2);
    assert_eq!(rt; identify(rt.alloc(), &mut session, 2)?, Move::Ignored);
    assert_eq!(rt; bar(&mut session), Move::Ignored);
    assert_eq!(rt; greet(&mut session, 4), Move::Greeted);
    assert_eq!(rt; greet(&mut session, 0), Move::Ignored);
    assert_eq!(rt; bar(&mut session), Move::Ignored);
    assert_eq!(rt; session.state(), SessionState::Greeted);
    Ok(())
}

#[test]
fn comes_up(rt: HostRuntime) -> Result<(), Fail> {
    let mut session = Session::new(2);
    assert_eq!(rt; greet(&mut session, 1), Move::Greeted);
    assert_eq!(rt; identify(rt.alloc(), &mut session, 2)?, Move::Up);
    assert_eq!(rt; identify(rt.alloc(), &mut session, 3)?, Move::Ignored);
    assert_eq!(rt; bar(&mut session), Move::Barrier(4));
    assert_eq!(rt;
        session.take(&Message::BarrierRequest { xid: 4 }),
        Move::Ignored
    );
    assert_eq!(rt; session.state(), SessionState::Up);
    Ok(())
}

#[test]
fn incompatible_for_ever(rt: HostRuntime) -> Result<(), Fail> {
    let incompatible = Move::Failed(SessionFault::Incompatible);
    let mut session = Session::new(2);
    assert_eq!(rt; greet(&mut session, 0), incompatible);
    assert_eq!(rt; greet(&mut session, 1), incompatible);
    assert_eq!(rt; refuse(rt.alloc(), &mut session)?, incompatible);
    Ok(())
}

#[test]
fn wrong_for_ever(rt: HostRuntime) -> Result<(), Fail> {
    let wrong = Move::Failed(SessionFault::WrongSwitch {
        expected: 2,
        got: 3,
    });
    let mut session = Session::new(2);
    assert_eq!(rt; greet(&mut session, 1), Move::Greeted);
    assert_eq!(rt; identify(rt.alloc(), &mut session, 3)?, wrong);
    assert_eq!(rt; identify(rt.alloc(), &mut session, 2)?, wrong);
    Ok(())
}

#[test]
fn refused_for_ever(rt: HostRuntime) -> Result<(), Fail> {
    let refused = Move::Failed(SessionFault::SwitchError { form: 3, code: 0 });
    let mut session = Session::new(2);
    assert_eq!(rt; greet(&mut session, 1), Move::Greeted);
    assert_eq!(rt; identify(rt.alloc(), &mut session, 2)?, Move::Up);
    assert_eq!(rt; refuse(rt.alloc(), &mut session)?, refused);
    assert_eq!(rt; bar(&mut session), refused);
    Ok(())
}

// How many bytes an echo reply carries.
fn carried(reply: &Message) -> Option<usize> {
    match reply {
        Message::EchoReply { payload, .. } => Some(payload.as_slice().len()),
        _ => None,
    }
}

// What a fresh session answers to an echo request of two bytes, and how many the reply carries that is owed to it.
fn echoed(alloc: Global) -> Result<(Move, Option<usize>), AllocError> {
    let request = Message::EchoRequest {
        xid: 9,
        payload: Octets::from_slice(alloc, &[0x61, 0x62])?,
    };
    let answer = Session::new(2).take(&request);
    let reply = echo_reply(alloc, &request)?;
    Ok((answer, reply.as_ref().and_then(|reply| carried(reply))))
}

#[test]
fn answers_an_echo(rt: HostRuntime) -> Result<(), Fail> {
    assert_eq!(rt; echoed(rt.alloc())?, (Move::Echo, Some(2)));
    assert!(rt; echo_reply(rt.alloc(), &Message::BarrierReply { xid: 4 })?.is_none());
    Ok(())
}
