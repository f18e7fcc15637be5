//! A post with a token of the history up to it.
//!
//! Layer: runs; public. Called by `board`, `eye` and `pen` here, and by board_readers and fleet_workers.
ghost use Rattle.std.specs.Prelude.{◌≡◌, ◌≤◌, ◌⊎◌, ◌∷◌, ◌++◌, [], length, true, false, IfSome};
ghost use mathlib.Core.List.{IsPrefix};
ghost use Rattle.status_board.specs.Posts.{IsHistory, IsLonger, MayFollow, newest};

use crate::history::{Add, BoardName, Head, Law, NoGain, Token};
use crate::post::Post;
use left_right::Absorb;
use logbook::Offer;
use std::alloc::AllocError;
use std::marker::{Model, PhantomData};

// The most posts of a board.
const MOST: u64 = 1 << 61;

/// A post of the board that `J` names, or what stands there before the first. Contracts see it as the posts of the
/// board up to this one. A board has one history, and each note of it is a beginning.
#[derive(Drop)]
pub struct Note<J: BoardName> {
    number: u64,
    post: Post,
    token: Token,
    of: PhantomData<J>,
}

impl<J: BoardName> Model for Note<J> {
    ghost use Rattle.std.specs.Prelude.{◌≡◌, List, length};
    ghost use Rattle.status_board.specs.declared.post.Post.{Post};
    ghost use Rattle.status_board.specs.Posts.{IsHistory, newest};

    ghost Value = { List Post };

    ghost view = { λ n. n.token.log };

    ghost invariant = { λ n. (n.number ≡ length n.token.log) × (n.post ≡ newest n.token.log) ×
        (n.token.book ≡ J.book) × IsHistory n.token.log };
}

impl<J: BoardName> Note<J> {
    // The note of a board without posts.
    pub(crate) fn first(token: Token) -> Note<J>
        requires book { token.book ≡ J.book }
        requires empty { token.log ≡ [] }
        ensures { result ≡ [] }
    {
        Note {
            number: 0,
            post: Post::opening(),
            token,
            of: PhantomData,
        }
    }

    /// The newest of its posts, or the opening if it has none. The counts of its posts rise from 1 at least.
    pub fn post(&self) -> Post
        ensures post { result ≡ newest self.now }
        ensures history { IsHistory self.now }
    {
        self.post
    }

    /// The same note. It takes no memory.
    pub fn copy(&self) -> Note<J>
        ensures { result ≡ self.now }
    {
        Note {
            number: self.number,
            post: self.post,
            token: self.token.again(),
            of: PhantomData,
        }
    }

    /// Whether the other has as many posts or more. If it has, its posts begin with these; if not, these begin with its
    /// posts and go on.
    pub fn begins(&self, other: &Note<J>) -> bool
        ensures begins { result ≡ true → IsPrefix self.now other.now }
        ensures long { result ≡ true → length self.now ≤ length other.now }
        ensures longer { result ≡ false → IsLonger other.now self.now }
    {
        let mut both = self.token.again();
        both.learn(&other.token);
        self.number <= other.number
    }

    /// The longer of two notes, which begins with the posts of both.
    pub fn longer(&self, other: &Note<J>) -> Note<J>
        ensures one { (result ≡ self.now) ⊎ (result ≡ other.now) }
        ensures this { IsPrefix self.now result }
        ensures that { IsPrefix other.now result }
        ensures history { IsHistory result }
    {
        if self.begins(other) {
            other.copy()
        } else {
            self.copy()
        }
    }

    // Adds a post to the history, if these are all its posts.
    pub(crate) fn add(&self, head: &Head<J>, post: Post) -> Option<Note<J>>
        requires { MayFollow self.now post }
        ensures { IfSome result (λ n. n ≡ self.now ++ post ∷ []) }
    {
        if self.number >= MOST {
            return None;
        }
        let number = self.number;
        let mut token = self.token.again();
        let mut offer: Offer<Post, u64, Law, NoGain> = token.plain::<NoGain, Post, Add>(&post);
        let mut pen = token.no_pen();
        let found = head
            .word
            .compare_exchange::<Add, NoGain>(number, number + 1, &mut token, &mut offer, &mut pen);
        if found != number {
            return None;
        }
        Some(Note {
            number: number + 1,
            post,
            token,
            of: PhantomData,
        })
    }
}

// A note that is published takes the place of the one before.
impl<J: BoardName> Absorb<Note<J>> for Note<J> {
    type State = [Post; 0];

    ghost state = { λ n. n };

    ghost applied = { λ _ n. n };

    ghost never_fails = { Unit {0} };

    fn absorb_first(&mut self, operation: &Note<J>, _other: &Note<J>) -> Result<(), AllocError> {
        *self = operation.copy();
        Ok(())
    }
}
