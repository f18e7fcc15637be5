//! What two eyes read, one call after another.
//!
//! Layer: tests; private. Called by `threads`.
ghost use Rattle.std.specs.Prelude.{◌≡◌};

use status_board::{Board, BoardName, Eye, Pen, Sighting};
use std::alloc::Global;
use std::marker::Brand;
use std::sync::Wait;
use std::test::Fail;
use update_coordinator::Phase;

/// What a read says in the opening, not halted.
pub fn seen(count: u64, fresh: bool) -> Sighting {
    Sighting {
        count,
        phase: Phase::Opening,
        halted: false,
        fresh,
    }
}

/// Posts, if the count is above that of the newest post and there is memory.
pub fn post<J: BoardName, R: Wait + Drop>(
    pen: &mut Pen<J, R>,
    count: u64,
    phase: Phase,
    halted: bool,
) -> Option<()> {
    if pen.newest().count >= count {
        return None;
    }
    pen.post(count, phase, halted).ok()
}

#[test]
fn eyes_read_what_they_were_not_told(rt: HostRuntime) -> Result<(), Fail> {
    let (live, gone) = reads::<Brand, _>(&rt, rt.alloc(), Board::new()).ok_or("out of memory")?;
    let last = Sighting {
        count: 9,
        phase: Phase::Idle(3),
        halted: true,
        fresh: true,
    };
    assert_eq!(rt; live, [seen(0, true), seen(1, true), seen(2, true), last]);
    assert_eq!(rt;
        gone,
        (
            true,
            Sighting {
                fresh: false,
                ..last
            }
        )
    );
    Ok(())
}

// The reads of a first eye before any post, after one that it was told of and after one that it was not told of, and
// the first read of a second eye, after a third post. Then the pen is gone: whether the first eye's note begins the
// second's, and what the first reads after it learnt from the second.
fn reads<J: BoardName, R: Wait>(
    rt: &R,
    alloc: Global,
    board: Board,
) -> Option<([Sighting; 4], (bool, Sighting))>
    requires { board ≡ J.book }
{
    let (mut pen, mut eyes) = board.named::<J, &R>(alloc, rt, 2).ok()?;
    let (Some(mut second), Some(mut first)) = (eyes.pop(), eyes.pop()) else {
        return None;
    };
    let live = live_reads(&mut pen, &mut first, &mut second)?;
    drop(pen);
    let begins = first.known().begins(second.known());
    first.learn(second.known());
    Some((live, (begins, first.read())))
}

fn live_reads<J: BoardName, R: Wait>(
    pen: &mut Pen<J, &R>,
    first: &mut Eye<J>,
    second: &mut Eye<J>,
) -> Option<[Sighting; 4]> {
    let before = first.read();
    post(pen, 1, Phase::Opening, false)?;
    first.learn(&pen.tell());
    let told = first.read();
    post(pen, 2, Phase::Opening, false)?;
    let untold = first.read();
    post(pen, 9, Phase::Idle(3), true)?;
    Some([before, told, untold, second.read()])
}
