//! A board, and the pen and the eyes that are made of it.
//!
//! Layer: runs; public. Called by many crates.
ghost use Rattle.std.specs.Prelude.{◌≡◌, ◌<◌, ◌^◌, [], IfOk, All, vec_len};

use crate::eye::Eye;
use crate::history::{BoardName, Head, Law, Token};
use crate::note::Note;
use crate::pen::Pen;
use crate::post::Post;
use left_right::WriteHandle;
use logbook::{Seen, Start, Word};
use std::alloc::{AllocError, Global};
use std::marker::{Model, PhantomData};
use std::sync::Wait;

/// A board without posts that has no name yet. Contracts see it as the book of its history.
#[derive(Drop)]
pub struct Board {
    word: Word<Post, u64, Law>,
    token: Token,
}

impl Model for Board {
    ghost use Rattle.std.specs.Prelude.{◌≡◌, []};
    ghost use Rattle.logbook.specs.Pages.{Book};
    ghost use Rattle.status_board.specs.Rules.{head_of};

    ghost Value = { Book };

    ghost view = { λ b. b.token.book };

    ghost invariant = { λ b. (b.token.log ≡ []) × (b.word ≡ head_of b.token.book) };
}

impl Board {
    /// A new board. It takes no memory.
    pub fn new() -> Board {
        let (token, mut first, _second) = Seen::open(Start::alone(), 0, 0);
        Board {
            word: Word::tracked(0, &mut first),
            token,
        }
    }

    /// The pen of the board under a name, and as many eyes as there are to be readers, 1 to 2^32 - 1. None knows a
    /// post. An `Err` says out of memory.
    pub fn named<J: BoardName, R: Wait + Drop>(
        self,
        alloc: Global,
        rt: R,
        readers: usize,
    ) -> Result<(Pen<J, R>, Vec<Eye<J>>), AllocError>
        requires readers { (0 < readers) × (readers < 2 ^ 32) }
        requires book { self ≡ J.book }
        ensures pen { IfOk result (λ r. r.0 ≡ []) }
        ensures count { IfOk result (λ r. vec_len r.1 ≡ readers) }
        ensures eyes { IfOk result (λ r. All (λ e. e ≡ []) r.1.items) }
    {
        let Board { word, token } = self;
        let known = Note::<J>::first(token);
        let head = Head {
            word,
            of: PhantomData,
        };
        let writer = WriteHandle::new(alloc, rt, known.copy(), known.copy(), readers)?;
        let pen = Pen::of(head, writer, known);
        let mut eyes = Vec::new(alloc);
        for _ in 0..readers {
            eyes.push(pen.eye()?)?;
        }
        Ok((pen, eyes))
    }
}
