//! Stamps of a range of three.
//!
//! Layer: tests; private. Its tests are run by `rt test`.
use stamp_planner::{NoStamp, Planner};

#[test]
fn goes_round(rt: HostRuntime) {
    let mut planner = Planner::new(7, 9);
    assert_eq!(rt; planner.next_stamp(), Ok(7));
    assert_eq!(rt; planner.next_stamp(), Ok(8));
    planner.release(7);
    assert_eq!(rt; planner.next_stamp(), Ok(9));
    assert_eq!(rt; planner.next_stamp(), Ok(7));
    assert_eq!(rt; planner.next_stamp(), Err(NoStamp));
    planner.release(4095);
    planner.release(8);
    assert_eq!(rt; planner.next_stamp(), Ok(8));
    assert_eq!(rt; planner.next_stamp(), Err(NoStamp));
}
