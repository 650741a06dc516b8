//! A word of a line.
ghost use Rattle.std.specs.Prelude.{◌≡◌, IfOk, length};
ghost use Rattle.std.specs.List.{list_all};
ghost use Rattle.line_words.specs.Spelling.{stands, word_of};
ghost use Rattle.line_words.specs.Steps.{bytes_of, Fits, ReadsPart};

use crate::escape::{stands, unescape, unescape_into};
use crate::reading::Reading;
use std::alloc::{AllocError, Global};
use std::marker::Model;

/// Where the bytes of a word are.
#[derive(Drop)]
pub(crate) enum Held<'a> {
    /// In the line, in which they stand as themselves.
    Lent(&'a [u8]),
    /// Unescaped, on their own.
    Made(Vec<u8>),
}

/// A word of a line: the byte of the line at which it begins, and its bytes, unescaped.
///
/// Its bytes are lent from the line where nothing in it is escaped.
#[derive(Drop)]
pub struct Word<'a> {
    place: usize,
    held: Held<'a>,
}

impl<'a> Model for Word<'a> {
    ghost use Rattle.line_words.specs.Placed.{Placed};

    ghost Value = { Placed };

    ghost use Rattle.line_words.specs.Steps.{bytes_of};

    ghost view = { λ w. record { place = w.place; bytes = bytes_of w.held } };
}

impl<'a> Word<'a> {
    pub(crate) fn new(place: usize, held: Held<'a>) -> Word<'a>
        ensures { result ≡ record { place = place; bytes = bytes_of held.entry } }
    {
        Word { place, held }
    }

    /// The byte of the line at which the word begins.
    pub fn place(&self) -> usize
        ensures { result ≡ self.now.place }
    {
        self.place
    }

    /// The bytes of the word: at least one.
    pub fn bytes(&self) -> &[u8]
        ensures { result.now ≡ self.now.bytes }
    {
        match &self.held {
            Held::Lent(bytes) => bytes,
            Held::Made(bytes) => bytes.as_slice(),
        }
    }
}

// The bytes of the word that a part of a line spells.
pub(crate) fn read_part(
    alloc: Global,
    reading: Reading,
    part: &[u8],
) -> Result<Option<Held<'_>>, AllocError>
    ensures { IfOk result (ReadsPart reading part.now) }
{
    if part.is_empty() {
        return Ok(None);
    }
    if all_stand(reading, part) {
        return Ok(Some(Held::Lent(part)));
    }
    match unescape(alloc, reading, part)? {
        Some(bytes) => Ok(Some(Held::Made(bytes))),
        None => Ok(None),
    }
}

// Writes the word that a part of a line spells to the beginning of `room`, and gives its length.
pub(crate) fn part_into(reading: Reading, part: &[u8], room: &mut [u8]) -> Option<usize>
    ensures fits { Fits (word_of reading part.now) room.new result }
    ensures room { length room.new ≡ length room.old }
{
    if part.is_empty() {
        return None;
    }
    unescape_into(reading, part, room)
}

// Whether each byte stands for itself.
fn all_stand(reading: Reading, part: &[u8]) -> bool
    ensures { result ≡ list_all (stands reading) part.now }
{
    part.iter().all(|b| stands(reading, *b))
}
