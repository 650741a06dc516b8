//! Words of a line that are read without memory.
ghost use Rattle.std.specs.Prelude.{◌≡◌, length};
ghost use Rattle.line_words.specs.Steps.{ReadsInto, Skips};

use crate::error::BadWord;
use crate::part::next_part;
use crate::word::part_into;
use crate::words::Words;

/// A word that was read into a buffer: the byte of the line at which it begins, and how many bytes of the buffer it takes.
#[derive(Clone, Copy, Debug, PartialEq, Eq)]
pub struct Filled {
    pub place: usize,
    pub len: usize,
}

impl<'a> Words<'a> {
    /// Reads the next word into the beginning of `room`, without memory: None where no word is left, and the byte at which it begins
    /// where what stands there isn't spelt as a word, or is one of more bytes than `room` has. Either way the words behind it are
    /// left, and after an `Err` what `room` holds is open.
    ///
    /// Cost: the spaces before the word, and its length.
    pub fn read_into(&mut self, room: &mut [u8]) -> Result<Option<Filled>, BadWord>
        ensures reads { ReadsInto self.old room.new result self.new }
        ensures room { length room.new ≡ length room.old }
    {
        let Some(part) = next_part(self.reading, self.line, self.next) else {
            self.next = None;
            return Ok(None);
        };
        self.next = part.next;
        match part_into(self.reading, part.bytes, room) {
            Some(len) => Ok(Some(Filled {
                place: part.place,
                len,
            })),
            None => Err(BadWord { place: part.place }),
        }
    }

    /// Passes over the next word, spelt or not, and gives the byte at which it begins: None where no word is left.
    ///
    /// It takes no memory. Cost: the spaces before the word, and its length.
    pub fn skip(&mut self) -> Option<usize>
        ensures { Skips self.old result self.new }
    {
        let Some(part) = next_part(self.reading, self.line, self.next) else {
            self.next = None;
            return None;
        };
        self.next = part.next;
        Some(part.place)
    }
}
