//! The one that reads.
//!
//! Layer: runs; public. Called by `board` and `pen` here, and by many crates.
ghost use Rattle.std.specs.Prelude.{◌≡◌, ◌≤◌, ◌⊎◌, false};
ghost use mathlib.Core.List.{IsPrefix};
ghost use Rattle.status_board.specs.Posts.{IsHistory, newest};

use crate::history::BoardName;
use crate::note::Note;
use left_right::ReadHandle;
use std::marker::Model;
use update_coordinator::Phase;

/// What a read says: a post, and whether it stood on the board.
#[derive(Clone, Copy, Debug, PartialEq, Eq)]
pub struct Sighting {
    /// The number of events.
    pub count: u64,
    /// The phase of the updates after them.
    pub phase: Phase,
    /// Whether the updates had halted by then.
    pub halted: bool,
    /// Whether this call found it on the board. If not, it is what the eye knew.
    pub fresh: bool,
}

/// Reads the board that `J` names. Contracts see it as the posts of the board up to the newest that it read or was told
/// of.
#[derive(Drop)]
pub struct Eye<J: BoardName> {
    handle: ReadHandle<Note<J>>,
    known: Note<J>,
}

impl<J: BoardName> Model for Eye<J> {
    ghost use Rattle.std.specs.Prelude.{List};
    ghost use Rattle.status_board.specs.declared.post.Post.{Post};

    ghost Value = { List Post };

    ghost view = { λ e. e.known };
}

impl<J: BoardName> Eye<J> {
    ghost use Rattle.status_board.specs.Reads.{post_of};

    // An eye that knows these posts.
    pub(crate) fn of(handle: ReadHandle<Note<J>>, known: Note<J>) -> Eye<J>
        ensures { result ≡ known }
    {
        Eye { handle, known }
    }

    /// Reads the board: the newest post that the eye knows by now. It takes no lock and no memory, and waits for
    /// nobody.
    pub fn read(&mut self) -> Sighting
        ensures post { post_of result ≡ newest self.new }
        ensures later { IsPrefix self.old self.new }
        ensures rises { (newest self.old).count ≤ result.count }
        ensures stale { result.fresh ≡ false → self.new ≡ self.old }
        ensures history { IsHistory self.new }
    {
        let fresh = self.look();
        let post = self.known.post();
        Sighting {
            count: post.count,
            phase: post.phase,
            halted: post.halted,
            fresh,
        }
    }

    // Takes over the note on the board, and says whether it did.
    fn look(&mut self) -> bool
        ensures later { IsPrefix self.old self.new }
        ensures stale { result ≡ false → self.new ≡ self.old }
    {
        let found = match self.handle.enter() {
            Some(guard) => Some(guard.copy()),
            None => None,
        };
        match found {
            Some(note) => self.follow(note),
            None => false,
        }
    }

    // Takes over a note if it begins with what the eye knows, and says whether it did.
    fn follow(&mut self, note: Note<J>) -> bool
        ensures later { IsPrefix self.old self.new }
        ensures stale { result ≡ false → self.new ≡ self.old }
    {
        let goes_on = self.known.begins(&note);
        if goes_on {
            self.known = note;
        }
        goes_on
    }

    /// Takes in what a pen or another eye of the board told. It forgets nothing that it read or was told of.
    pub fn learn(&mut self, note: &Note<J>)
        ensures one { (self.new ≡ self.old) ⊎ (self.new ≡ note.now) }
        ensures old { IsPrefix self.old self.new }
        ensures told { IsPrefix note.now self.new }
    {
        self.known = self.known.longer(note);
    }

    /// A note of all that it knows.
    pub fn known(&self) -> &Note<J>
        ensures { result.now ≡ self.now }
    {
        &self.known
    }
}
