//! Reads a board in one thread while the pen posts in another. Standard input has two numbers, how many reads and how
//! many posts there are to be. The count of a last read, after both, is printed: that of the last post. `bench/board`
//! times it.
//!
//! Layer: tests; nothing calls it.
#![tactic(auto)]

ghost use Rattle.std.specs.Prelude.{◌≡◌};

use status_board::{Board, BoardName, Eye, Pen};
use std::alloc::Global;
use std::io;
use std::marker::Brand;
use std::sync::Wait;
use std::thread::{Threads, join};
use update_coordinator::Phase;

fn main(rt: HostRuntime) -> io::Result<()> {
    let alloc = rt.alloc();
    let text = io::read_to_string(alloc, rt.stdin())?;
    let mut numbers = text.split_whitespace();
    let reads = number(numbers.next());
    let posts = number(numbers.next());
    match last_count::<Brand, _>(&rt, alloc, Board::new(), reads, posts) {
        Some(count) => println!(rt; "{count}"),
        None => println!(rt; "out of memory"),
    }
}

// The number that a word spells, or 0.
fn number(word: Option<&str>) -> u64 {
    match word {
        Some(word) => word.parse().unwrap_or(0),
        None => 0,
    }
}

// The count of a read after all reads and posts.
fn last_count<J: BoardName + Send + Sync, R: Threads + Wait + Sync>(
    rt: &R,
    alloc: Global,
    board: Board,
    reads: u64,
    posts: u64,
) -> Option<u64>
    requires { board ≡ J.book }
{
    let (mut pen, mut eyes) = board.named::<J, &R>(alloc, rt, 1).ok()?;
    let mut eye = eyes.pop()?;
    let (posted, ()) = join(
        rt,
        || post_all(&mut pen, posts),
        || read_all(&mut eye, reads),
    );
    let last = eye.read().count;
    drop(pen);
    posted.map(|()| last)
}

// Posts with the counts from 1 on.
fn post_all<J: BoardName, R: Wait + Drop>(pen: &mut Pen<J, R>, posts: u64) -> Option<()> {
    for _ in 0..posts {
        let count = pen.newest().count.checked_add(1)?;
        pen.post(count, Phase::Idle(1), false).ok()?;
    }
    Some(())
}

fn read_all<J: BoardName>(eye: &mut Eye<J>, reads: u64) {
    for _ in 0..reads {
        eye.read();
    }
}
