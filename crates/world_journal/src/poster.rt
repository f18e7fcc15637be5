//! What posts the steps of a run.
//!
//! Layer: runs; public. Called by many modules here, and by fleet_workers.
ghost use Rattle.std.specs.Prelude.{◌≡◌, ◌++◌, ◌∷◌, [], List, OnOk, OnErr};
ghost use Rattle.status_board.specs.declared.post.Post.{Post as PostValue};
ghost use Rattle.status_board.specs.Posts.{MayFollow, newest, post_at};

use status_board::{BoardName, Pen, Post};
use std::alloc::AllocError;
use std::sync::Wait;
use update_coordinator::Phase;

/// Posts where a run stands, one post after the other. A pen of a board does.
pub trait Poster: Drop {
    /// What it has posted.
    ghost posts: { Self → List PostValue };

    /// Posts where a run stands after a number of events above that of the newest post. If it is refused, nothing is
    /// posted.
    fn post(&mut self, count: u64, phase: Phase, halted: bool) -> Result<(), AllocError>
        requires { MayFollow (Self.posts self.old) (post_at count phase halted) }
        ensures ok { OnOk result (Self.posts self.new ≡ Self.posts self.old ++ post_at count phase halted ∷ []) }
        ensures err { OnErr result (Self.posts self.new ≡ Self.posts self.old) };

    /// The newest post, or the opening before the first.
    fn newest(&self) -> Post
        ensures { result ≡ newest (Self.posts self.now) };
}

impl<J: BoardName, R: Wait + Drop> Poster for Pen<J, R> {
    ghost posts = { λ p. p };

    fn post(&mut self, count: u64, phase: Phase, halted: bool) -> Result<(), AllocError> {
        Pen::post(self, count, phase, halted)
    }

    fn newest(&self) -> Post {
        Pen::newest(self)
    }
}
