//! Reads a part of a pattern.
ghost use Rattle.std.specs.Prelude.{◌≡◌, ◌≢◌, ◌∷◌, [], MatchOption, IfOk, IfErr};
ghost use Rattle.std.specs.Str.{chars};
ghost use Rattle.ignore_glob.specs.Grammar.{IsPart, ArePieces};
ghost use Rattle.ignore_glob.specs.Faults.{Offends};
ghost use Rattle.ignore_glob.specs.Reading.{TakesPiece, ReadsPieces, ReadsPart};

use crate::fault::Fault;
use crate::piece::{Glob, Part, Piece};
use crate::text::split_char;
use std::alloc::Global;

/// The piece that begins with this character, and the text behind it; none where it is no piece.
fn take_piece(c: char, behind: &str) -> Option<(Piece, &str)>
    ensures { MatchOption result (Offends (c ∷ chars behind.now)) (λ taken. TakesPiece (c ∷ chars behind.now) taken.0 (chars taken.1.now)) }
{
    match c {
        '*' => Some((Piece::Run, behind)),
        '?' => Some((Piece::One, behind)),
        '{' => None,
        '[' => None,
        '\\' => match split_char(behind) {
            Some((escaped, rest)) => Some((Piece::Same(escaped), rest)),
            None => None,
        },
        _ => Some((Piece::Same(c), behind)),
    }
}

/// The pieces of a part's text.
fn read_pieces(alloc: Global, text: &str) -> Result<Vec<Piece>, Fault>
    ensures { ReadsPieces text.now result }
{
    let mut pieces = Vec::new(alloc);
    let mut rest = text;
    while let Some((c, behind)) = split_char(rest) {
        match take_piece(c, behind) {
            None => return Err(Fault::At(text.len() - rest.len())),
            Some((piece, left)) => {
                pieces.push(piece)?;
                rest = left;
            }
        }
    }
    Ok(pieces)
}

/// The part of this text.
pub(crate) fn read_part(alloc: Global, text: &str) -> Result<Part, Fault>
    ensures { ReadsPart text.now result }
{
    if text == "**" {
        return Ok(Part::Span);
    }
    if text.is_empty() {
        return Err(Fault::At(0));
    }
    match read_pieces(alloc, text) {
        Ok(pieces) => Ok(Part::Glob(Glob::of(pieces))),
        Err(fault) => Err(fault),
    }
}
