//! An eye that reads in one thread while the pen posts in another, and an eye that rests meanwhile.
//!
//! Layer: tests; private. Its tests are run by `rt test`.
ghost use Rattle.std.specs.Prelude.{◌≡◌};

use crate::reads::{post, seen};
use status_board::{Board, BoardName, Eye, Pen, Sighting};
use std::alloc::Global;
use std::marker::Brand;
use std::sync::Wait;
use std::test::Fail;
use std::thread::{Threads, join};
use update_coordinator::Phase;

#[test]
fn an_eye_reads_while_a_pen_posts(rt: HostRuntime) -> Result<(), Fail> {
    let (posted, rises, reads) = beside::<Brand, _>(&rt, rt.alloc(), Board::new()).ok_or(
        "out of memory",
    )?;
    assert_eq!(rt; (posted, rises), (Some(()), true));
    assert_eq!(rt; reads, [seen(100, true), seen(100, true)]);
    Ok(())
}

// Whether all posts were made, whether the counts of the reads never fell, and what both eyes read at the end.
fn beside<J: BoardName + Send + Sync, R: Threads + Wait + Sync>(
    rt: &R,
    alloc: Global,
    board: Board,
) -> Option<(Option<()>, bool, [Sighting; 2])>
    requires { board ≡ J.book }
{
    let (mut pen, mut eyes) = board.named::<J, &R>(alloc, rt, 2).ok()?;
    let (Some(mut resting), Some(mut eye)) = (eyes.pop(), eyes.pop()) else {
        return None;
    };
    let (posted, rises) = join(rt, || post_all(&mut pen), || rise(&mut eye));
    let reads = [eye.read(), resting.read()];
    drop(pen);
    Some((posted, rises, reads))
}

// Makes a hundred posts.
fn post_all<J: BoardName, R: Wait + Drop>(pen: &mut Pen<J, R>) -> Option<()> {
    for count in 1..101 {
        post(pen, count, Phase::Opening, false)?;
    }
    Some(())
}

// Whether the counts of a thousand reads never fall.
fn rise<J: BoardName>(eye: &mut Eye<J>) -> bool {
    let mut last = 0;
    for _ in 0..1000 {
        let read = eye.read();
        if read.count < last {
            return false;
        }
        last = read.count;
    }
    true
}
