//! Whether the pieces of a part match a name.
ghost use Rattle.std.specs.Prelude.{◌≡◌, ◌↔◌, IsTrue, drop, false, length};
ghost use Rattle.std.specs.List.{list_any};
ghost use Rattle.std.specs.Str.{chars};
ghost use Rattle.ignore_glob.specs.Matching.{is_run, FitsChar, MatchesPieces, MatchesSuffix};
ghost use Rattle.ignore_glob.specs.Stretch.{FindsStretch, Stretches};

use crate::piece::Piece;
use crate::text::split_char;

/// How far pieces go along a text up to the first run.
enum Stretch<'a> {
    /// They have no run, and match the text.
    Whole,
    /// They don't match it.
    Fails,
    /// They match it up to here: the text that is left, and the pieces behind the run.
    Run(&'a str, &'a [Piece]),
}

/// Whether the piece is a run.
fn is_run(piece: Piece) -> bool
    ensures { result ≡ is_run piece }
{
    matches!(&piece, Piece::Run)
}

/// Whether the piece stands for this one character.
fn fits(piece: Piece, c: char) -> bool
    ensures { IsTrue result ↔ FitsChar piece c }
{
    match piece {
        Piece::Run => false,
        Piece::One => true,
        Piece::Same(wanted) => c == wanted,
    }
}

/// Goes along the text, a character for each piece, up to the first run.
fn go_along<'a>(text: &'a str, pieces: &'a [Piece]) -> Stretch<'a>
    ensures { Stretches (chars text.now) pieces.now result }
{
    let mut rest = text;
    let mut left = pieces;
    while let Some((piece, behind)) = left.split_first() {
        if is_run(*piece) {
            return Stretch::Run(rest, behind);
        }
        match split_char(rest) {
            None => return Stretch::Fails,
            Some((c, after)) => {
                if !fits(*piece, c) {
                    return Stretch::Fails;
                }
                rest = after;
                left = behind;
            }
        }
    }
    match split_char(rest) {
        None => Stretch::Whole,
        Some(_) => Stretch::Fails,
    }
}

/// Goes along the text from the first place on from which the pieces reach their first run, or its end where they have none.
///
/// Where they reach a run, only what is behind it is still open: a match further on leaves less. So nothing is tried twice.
fn find_stretch<'a>(text: &'a str, pieces: &'a [Piece]) -> Stretch<'a>
    ensures { FindsStretch (chars text.now) pieces.now result }
{
    let mut text = text;
    loop {
        match go_along(text, pieces) {
            Stretch::Whole => return Stretch::Whole,
            Stretch::Run(rest, behind) => return Stretch::Run(rest, behind),
            Stretch::Fails => match split_char(text) {
                None => return Stretch::Fails,
                Some((_, behind)) => text = behind,
            },
        }
    }
}

/// Whether one of the pieces is a run.
fn has_run(pieces: &[Piece]) -> bool
    ensures { result ≡ list_any is_run pieces.now }
{
    pieces.iter().any(|piece| is_run(*piece))
}

/// How many characters the text has.
fn count_chars(text: &str) -> usize
    ensures { result ≡ length (chars text.now) }
{
    text.chars().count()
}

/// The text without its first characters, so many of them.
fn skip_chars(text: &str, count: usize) -> &str
    ensures { chars result.now ≡ drop count (chars text.now) }
{
    let mut rest = text;
    for _ in 0..count {
        match split_char(rest) {
            Some((_, behind)) => rest = behind,
            None => return rest,
        }
    }
    rest
}

/// Whether pieces without a run match an end of the text, which has as many characters as there are pieces.
fn matches_end(text: &str, pieces: &[Piece]) -> bool
    requires { list_any is_run pieces.now ≡ false }
    ensures { IsTrue result ↔ MatchesSuffix is_run FitsChar (chars text.now) pieces.now }
{
    let count = count_chars(text);
    if count < pieces.len() {
        return false;
    }
    match go_along(skip_chars(text, count - pieces.len()), pieces) {
        Stretch::Whole => true,
        Stretch::Fails => false,
        Stretch::Run(_, _) => false,
    }
}

/// Whether the pieces match some end of the text: what stands behind a run.
///
/// The pieces behind their last run are compared at the end of the text alone. Cost: at most the characters times the pieces.
fn matches_suffix(text: &str, pieces: &[Piece]) -> bool
    ensures { IsTrue result ↔ MatchesSuffix is_run FitsChar (chars text.now) pieces.now }
{
    let mut text = text;
    let mut pieces = pieces;
    while has_run(pieces) {
        match find_stretch(text, pieces) {
            Stretch::Whole => return true,
            Stretch::Fails => return false,
            Stretch::Run(rest, behind) => {
                text = rest;
                pieces = behind;
            }
        }
    }
    matches_end(text, pieces)
}

/// Whether the pieces match the whole name. It takes no memory.
///
/// Cost: at most the characters of the name times the pieces.
pub(crate) fn matches_name(pieces: &[Piece], name: &str) -> bool
    ensures { IsTrue result ↔ MatchesPieces (chars name.now) pieces.now }
{
    match go_along(name, pieces) {
        Stretch::Whole => true,
        Stretch::Fails => false,
        Stretch::Run(rest, behind) => matches_suffix(rest, behind),
    }
}
