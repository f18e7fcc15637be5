//! Barrier replies of two switches.
//!
//! Layer: tests; private. Its tests are run by `rt test`.
use barrier_tracker::{ReplyKind, Tracker};
use std::test::Fail;

#[test]
fn hears_two_switches(rt: HostRuntime) -> Result<(), Fail> {
    let mut tracker = Tracker::new(rt.alloc(), 2)?;
    assert_eq!(rt; tracker.heard(0, 5), ReplyKind::Stray);
    tracker.expect(0, 5);
    tracker.expect(1, 9);
    assert_eq!(rt; tracker.heard(0, 9), ReplyKind::Stray);
    assert_eq!(rt; tracker.heard(0, 5), ReplyKind::More);
    assert_eq!(rt; tracker.heard(0, 5), ReplyKind::Stray);
    assert_eq!(rt; tracker.heard(1, 9), ReplyKind::Last);
    tracker.restart();
    assert_eq!(rt; tracker.heard(1, 9), ReplyKind::Stray);
    Ok(())
}

#[test]
fn tells_what_is_owed(rt: HostRuntime) -> Result<(), Fail> {
    let mut tracker = Tracker::new(rt.alloc(), 2)?;
    tracker.expect(1, 9);
    assert_eq!(rt; (tracker.owes(0), tracker.owes(1)), (false, true));
    let _more = tracker.heard(1, 9);
    assert_eq!(rt; (tracker.owes(0), tracker.owes(1)), (false, false));
    Ok(())
}
