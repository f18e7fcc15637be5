//! The one history of a board, which only grows. It stands in proofs alone: a token without bytes says that the history
//! has come to a list, and one word holds how long it is.
//!
//! Layer: runs; public. Called by many modules here, and by many crates.
ghost use Rattle.std.specs.Prelude.{◌≡◌};
ghost use Rattle.status_board.specs.Rules.{head_of};

use crate::post::Post;
use logbook::{Gain, Plain, Play, Rule, Seen, Word};
use std::marker::{Brand, PhantomData};

// The rule of a history: counts rise.
pub(crate) struct Law;

impl Rule<Post, u64> for Law {
    ghost use Rattle.std.specs.Prelude.{[]};
    ghost use base.Fml.{ftrue};
    ghost use Rattle.status_board.specs.Rules.{IsKept};

    ghost holds = { λ cells log. IsKept cells log };

    ghost first = { [] };

    ghost hinted = { λ n log. Unit {0} };

    ghost shows = { λ log. [] };

    ghost keeps = { λ names log. ftrue };

    ghost moves = { λ ask before after answer. Unit {0} };
}

// Who adds a post gains nothing else.
pub(crate) struct NoGain;

impl Gain<Post, u64> for NoGain {
    ghost use base.Fml.{ftrue};

    ghost after = { λ names about answer. ftrue };
}

// The step that adds a post.
pub(crate) struct Add;

impl Play<Post, u64> for Add {
    ghost use Rattle.status_board.specs.Rules.{AddsPost};

    ghost then = { AddsPost };
}

// It asks for the post.
impl Plain<Post, Post, u64> for Add {
    ghost use Rattle.std.specs.Prelude.{None};

    ghost ask = { λ post. post };

    ghost state = { λ post. None };
}

/// Names a board, in contracts alone. A caller leaves it open as a parameter, and `Brand` stands for it in the end.
pub trait BoardName {
    ghost use Rattle.logbook.specs.Pages.{Book};

    /// The book of its history.
    ghost book: { Book };
}

impl BoardName for Brand {
    ghost book = { record { number = 0; log_name = 0; cells_name = 0 } };
}

// That the history has come to a list.
pub(crate) type Token = Seen<Post, u64, Law>;

// The length of the history of a board.
#[derive(Drop)]
pub(crate) struct Head<J: BoardName> {
    pub word: Word<Post, u64, Law>,
    pub of: PhantomData<J>,
    ghost head_is: { word ≡ head_of J.book },
}
