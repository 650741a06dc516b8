//! The numbers that end a line.
ghost use Rattle.std.specs.Prelude.{◌≡◌, IfOk};
ghost use Rattle.frame_text.specs.Reading.{ReadsNumbers};

use line_words::{WordError, Words, read_number};
use sqlite_items::Items;
use std::alloc::{AllocError, Global};

// The numbers that the words left of a line write, if each writes one.
pub(crate) fn read_numbers(
    alloc: Global,
    words: &mut Words<'_>,
) -> Result<Option<Items<u64>>, AllocError>
    ensures { IfOk result (ReadsNumbers words.old) }
{
    let mut numbers = Items::new(alloc);
    loop {
        match words.next(alloc) {
            Ok(Some(word)) => match read_number(word.bytes(), u64::MAX) {
                Some(number) => numbers.push(number)?,
                None => return Ok(None),
            },
            Ok(None) => return Ok(Some(numbers)),
            Err(WordError::Bad(_)) => return Ok(None),
            Err(WordError::Memory) => return Err(AllocError),
        }
    }
}
