//! The words of a line, one after another.
ghost use Rattle.std.specs.Prelude.{◌≡◌};
ghost use Rattle.line_words.specs.Lines.{line_items};
ghost use Rattle.line_words.specs.Steps.{Reads};

use crate::error::{BadWord, WordError};
use crate::part::next_part;
use crate::reading::Reading;
use crate::word::{Word, read_part};
use std::alloc::Global;
use std::marker::Model;

/// The words of a line that are left to come, each with the byte of the line at which it begins.
///
/// Contracts see them as a list of items: each has its place, and its word, or none where it isn't spelt as one. So words behind
/// others, as an atom's in a line, are read by whoever reads on with the same `Words`.
#[derive(Drop)]
pub struct Words<'a> {
    pub(crate) reading: Reading,
    pub(crate) line: &'a [u8],
    pub(crate) next: Option<usize>,
}

impl<'a> Model for Words<'a> {
    ghost use Rattle.std.specs.Prelude.{List};
    ghost use Rattle.line_words.specs.Lines.{Item};

    ghost Value = { List Item };

    ghost use Rattle.line_words.specs.Steps.{left_of, IsWithin};

    ghost view = { λ w. left_of w.reading w.line.now w.next };

    ghost invariant = { λ w. IsWithin w.line.now w.next };
}

impl<'a> Words<'a> {
    /// The words of a whole line, without the bytes that end it. It takes no memory, and looks at no byte.
    pub fn new(reading: Reading, line: &'a [u8]) -> Words<'a>
        ensures { result ≡ line_items reading line.now }
    {
        Words {
            reading,
            line,
            next: if line.is_empty() { None } else { Some(0) },
        }
    }

    /// Reads the next word: None where no word is left, and `Bad` with the byte at which it begins where what stands there isn't
    /// spelt as a word. Either way, and where memory runs out too, the words behind it are left.
    ///
    /// Cost: the spaces before the word, and its length; one allocation where something in it is escaped, else none.
    pub fn next(&mut self, alloc: Global) -> Result<Option<Word<'a>>, WordError>
        ensures { Reads self.old result self.new }
    {
        let Some(part) = next_part(self.reading, self.line, self.next) else {
            self.next = None;
            return Ok(None);
        };
        self.next = part.next;
        match read_part(alloc, self.reading, part.bytes)? {
            Some(held) => Ok(Some(Word::new(part.place, held))),
            None => Err(WordError::Bad(BadWord { place: part.place })),
        }
    }
}
