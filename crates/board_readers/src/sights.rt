//! What an eye has seen.
//!
//! Layer: runs; public. Called by `sight_desk` and `watcher` here, and by fleet_workers.
ghost use Rattle.std.specs.Prelude.{◌≡◌, IfOk};
ghost use Rattle.status_board.specs.Posts.{newest};
ghost use Rattle.status_board.specs.Reads.{post_of};
ghost use Rattle.board_readers.specs.Sights.{AreSeen, is_new};

use status_board::{BoardName, Eye, Note, Post, Sighting};
use std::alloc::{AllocError, Global};
use std::marker::Model;

/// What one eye of the board that `J` names has seen: the post of each read whose count differs from that of the read
/// before. Contracts see it as the posts that the eye knows, and those that it saw.
#[derive(Drop)]
pub struct Sights<J: BoardName> {
    eye: Eye<J>,
    seen: Vec<Post>,
}

impl<J: BoardName> Model for Sights<J> {
    ghost use Rattle.board_readers.specs.Sights.{AreSights, SightsValue};

    ghost Value = { SightsValue };

    ghost view = { λ s. record { known = s.eye; seen = s.seen.items } };

    ghost invariant = { λ s. AreSights s.eye s.seen.items };
}

impl<J: BoardName> Sights<J> {
    /// What an eye has seen that has not looked yet.
    pub fn new(alloc: Global, eye: Eye<J>) -> Sights<J> {
        Sights {
            eye,
            seen: Vec::new(alloc),
        }
    }

    /// Reads the board. An `Err` says out of memory.
    pub fn look(&mut self) -> Result<Sighting, AllocError>
        ensures { IfOk result (λ s. post_of s ≡ newest self.new.known) }
    {
        let read = self.eye.read();
        if is_new(&self.seen, read.count) {
            self.seen.push(post_of(read))?;
        }
        Ok(read)
    }

    /// What it saw, and last the newest of all posts of its board: the eye is told of them and reads once more.
    pub fn finish(self, alloc: Global, all: &Note<J>) -> Result<Vec<Post>, AllocError>
        ensures { IfOk result (λ posts. AreSeen all.now posts.items) }
    {
        let Sights { eye, seen } = self;
        let mut eye = eye;
        let mut seen = seen;
        eye.learn(all);
        let last = eye.read();
        if !eye.known().begins(all) {
            // No eye knows more than its pen. If one did, the newest post would stand alone.
            return newest_alone(alloc, all);
        }
        seen.push(post_of(last))?;
        Ok(seen)
    }
}

/// What is seen of a board if nobody reads it: the newest of its posts.
pub fn newest_alone<J: BoardName>(alloc: Global, all: &Note<J>) -> Result<Vec<Post>, AllocError>
    ensures { IfOk result (λ posts. AreSeen all.now posts.items) }
{
    let mut seen = Vec::new(alloc);
    seen.push(all.post())?;
    Ok(seen)
}

// Whether no post has been seen, or the last one has another count.
fn is_new(seen: &[Post], count: u64) -> bool
    ensures { result ≡ is_new seen.now count }
{
    match seen.last() {
        None => true,
        Some(post) => post.count != count,
    }
}

// The post that was read.
fn post_of(read: Sighting) -> Post
    ensures { result ≡ post_of read }
{
    Post {
        count: read.count,
        phase: read.phase,
        halted: read.halted,
    }
}
