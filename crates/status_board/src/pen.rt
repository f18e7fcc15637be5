//! The one that posts.
//!
//! Layer: runs; public. Called by `board` here, and by many crates.
ghost use Rattle.std.specs.Prelude.{◌≡◌, ◌∷◌, ◌++◌, [], IfOk, OnOk, OnErr};
ghost use Rattle.status_board.specs.Posts.{MayFollow, newest, post_at};

use crate::eye::Eye;
use crate::history::{BoardName, Head};
use crate::note::Note;
use crate::post::Post;
use left_right::{Absorb, WriteHandle};
use std::alloc::AllocError;
use std::marker::Model;
use std::sync::Wait;
use update_coordinator::Phase;

/// Posts on the board that `J` names. Contracts see it as its posts. It keeps the handle `R`, since a post waits for
/// eyes that are in the midst of a read, and so does the end of the pen.
// The bound is met by each `J`; it is repeated since the writer has ghost fields of its `Absorb`.
#[derive(Drop)]
pub struct Pen<J: BoardName, R: Wait + Drop>
where
    Note<J>: Absorb<Note<J>, State = [Post; 0]>,
{
    head: Head<J>,
    writer: WriteHandle<Note<J>, Note<J>, R>,
    known: Note<J>,
}

impl<J: BoardName, R: Wait + Drop> Model for Pen<J, R>
where
    Note<J>: Absorb<Note<J>, State = [Post; 0]>,
{
    ghost use Rattle.std.specs.Prelude.{◌≡◌, List, []};
    ghost use Rattle.left_right.specs.Handles.{published, pending};
    ghost use Rattle.status_board.specs.declared.post.Post.{Post};

    ghost Value = { List Post };

    ghost view = { λ p. p.known };

    ghost invariant = { λ p. (published p.writer ≡ p.known) × (pending p.writer ≡ []) };
}

impl<J: BoardName, R: Wait + Drop> Pen<J, R> {
    ghost use Rattle.left_right.specs.Handles.{published, pending};

    // The pen of a board without posts.
    pub(crate) fn of(
        head: Head<J>,
        writer: WriteHandle<Note<J>, Note<J>, R>,
        known: Note<J>,
    ) -> Pen<J, R>
        requires empty { known ≡ [] }
        requires published { published writer ≡ [] }
        requires pending { pending writer ≡ [] }
        ensures { result ≡ [] }
    {
        Pen {
            head,
            writer,
            known,
        }
    }

    // A new eye of this board, which knows its posts.
    pub(crate) fn eye(&self) -> Result<Eye<J>, AllocError>
        ensures { IfOk result (λ e. e ≡ self.now) }
    {
        Ok(Eye::of(self.writer.handle()?, self.known.copy()))
    }

    /// Posts where a run stands after a number of events above that of the newest post. An `Err` says out of memory,
    /// or that 2^61 posts were made: nothing is published then, and every later post is refused too.
    pub fn post(&mut self, count: u64, phase: Phase, halted: bool) -> Result<(), AllocError>
        requires { MayFollow self.old (post_at count phase halted) }
        ensures ok { OnOk result (self.new ≡ self.old ++ post_at count phase halted ∷ []) }
        ensures err { OnErr result (self.new ≡ self.old) }
    {
        let post = Post {
            count,
            phase,
            halted,
        };
        let Some(next) = self.known.add(&self.head, post) else {
            return Err(AllocError);
        };
        if self.writer.append(next.copy()).is_err() {
            return Err(AllocError);
        }
        self.known = next;
        self.writer.publish()
    }

    /// The newest post, or the opening before the first.
    pub fn newest(&self) -> Post
        ensures { result ≡ newest self.now }
    {
        self.known.post()
    }

    /// A note of all posts.
    pub fn tell(&self) -> Note<J>
        ensures { result ≡ self.now }
    {
        self.known.copy()
    }
}
