//! What a pattern is made of.
ghost use Rattle.std.specs.Prelude.{◌≡◌, IfOk};

use std::alloc::{AllocError, Global};
use std::marker::Model;

/// A piece of a part: it stands for characters of one name.
#[derive(Clone, Copy, Debug, PartialEq, Eq)]
pub enum Piece {
    /// `*`: any characters, also none.
    Run,
    /// `?`: one character, whichever.
    One,
    /// This character.
    Same(char),
}

/// The pieces of a part that doesn't span, in order. A contract sees the list.
#[derive(Debug, Drop)]
pub struct Glob {
    pieces: Vec<Piece>,
}

impl Model for Glob {
    ghost use Rattle.std.specs.Prelude.{List};
    ghost use Rattle.ignore_glob.specs.declared.piece.Piece.{Piece};

    ghost Value = { List Piece };

    ghost view = { λ g. g.pieces.items };
}

impl Glob {
    /// A part of these pieces. It takes no memory.
    pub(crate) fn of(pieces: Vec<Piece>) -> Glob
        ensures { result ≡ pieces.items }
    {
        Glob { pieces }
    }

    /// Other pieces of the same kinds. Cost: their number.
    pub(crate) fn copy(&self, alloc: Global) -> Result<Glob, AllocError>
        ensures { IfOk result (λ glob. glob ≡ self.now) }
    {
        let pieces = self.pieces.to_vec(alloc)?;
        Ok(Glob { pieces })
    }

    /// The pieces. It takes no memory.
    pub(crate) fn as_slice(&self) -> &[Piece]
        ensures { result.now ≡ self.now }
    {
        self.pieces.as_slice()
    }
}

/// A part of a pattern: it stands for names of a path.
#[derive(Debug, Drop)]
pub enum Part {
    /// `**`: any names, also none.
    Span,
    /// One name that these pieces match.
    Glob(Glob),
}

impl Part {
    /// Another part that stands for the same names. Cost: the number of its pieces.
    pub(crate) fn copy(&self, alloc: Global) -> Result<Part, AllocError>
        ensures { IfOk result (λ part. part ≡ self.now) }
    {
        match self {
            Part::Span => Ok(Part::Span),
            Part::Glob(glob) => {
                let copied = glob.copy(alloc)?;
                Ok(Part::Glob(copied))
            }
        }
    }
}
