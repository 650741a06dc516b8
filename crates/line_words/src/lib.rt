//! The words of a line: how they are spelt, and how they are read.
//!
//! A line is a list of words, and a word is bytes, at least one. [`write_word`] and [`write_next_word`] spell them: a byte from
//! 0x21 to 0x7E other than `%` as itself, every other as `%` and two upper-case hexadecimal digits, and one space between two
//! words. [`Words`] reads a line word by word, with the byte at which each begins: freely, as people type, or only what a writer
//! writes ([`Reading`]). Numbers stand in decimal, without signs and leading zeros; a byte is two hexadecimal digits.
//! The laws that join writing and reading are in [`laws`].
//!
//! ```rust
//! let mut words = Words::new(Reading::Free, b"sync list");
//! let first = words.next(alloc)?; // the word `sync`, at byte 0
//! let second = words.next(alloc)?; // the word `list`, at byte 5
//! let end = words.next(alloc)?; // None
//! ```
//!
//! The test `lines_are_read_in_two_ways` of `word_tests` makes these calls.
#![tactic(auto)]

mod byte;
mod error;
mod escape;
mod filled;
pub mod laws;
mod number;
mod part;
mod reading;
mod word;
mod words;

pub use byte::read_byte;
pub use error::{BadWord, WordError};
pub use escape::{write_next_word, write_word};
pub use filled::Filled;
pub use number::{read_number, read_u32, read_usize};
pub use reading::Reading;
pub use word::Word;
pub use words::Words;
