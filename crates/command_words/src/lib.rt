//! The words of request lines and replies: what each type of word holds, how it is read, and how it is spelt.
//!
//! Each type holds only what a line can spell: names, labels in order of their keys, identifiers, endpoints, numbers within their
//! bounds. A word is its bytes, unescaped, as `line_words` cuts a line. What is read is exactly what is written: for each value there
//! is one word, but for [`read_byte`](line_words::read_byte), which takes digits in both cases.
//!
//! ```rust
//! let identifier = Identifier::read(b"sync_00000000-0000-4000-8000-000000000000");
//! let label = read_label(alloc, b"host=a.b")?;
//! ```
//!
//! The test `words_are_read_and_written` of `word_tests` makes these calls.
#![tactic(auto)]

mod ascii;
mod bounded;
mod client;
mod contents;
mod cut;
mod endpoint;
mod given_name;
mod identifier;
mod keywords;
mod label;
mod label_text;
mod labels;
pub mod laws;
mod pattern;
mod piece;
mod root_name;
mod session;
mod session_kind;
mod stream_side;

pub use bounded::{
    Bounded, ClientNumber, EntryLimit, FillLength, Port, ReadMost, SizeLimit, StepCount,
    StreamFillLength,
};
pub use client::Client;
pub use contents::{Contents, StreamBytes};
pub use endpoint::Endpoint;
pub use given_name::{GivenName, MAX_GIVEN_NAME_LEN};
pub use identifier::{Identifier, write_identifier};
pub use keywords::{
    halt_word, mode_by, mode_word, phase_by, phase_word, side_word, stream_side_by,
    stream_side_word, switch_by, switch_word,
};
pub use label::{Label, read_label, write_label};
pub use label_text::{LabelText, MAX_LABEL_TEXT_LEN};
pub use labels::{Labels, MAX_LABELS};
pub use pattern::PatternText;
pub use piece::{Piece, write_pieces};
pub use root_name::{MAX_ROOT_NAME_LEN, RootName};
pub use session::{SessionWord, write_session};
pub use session_kind::SessionKind;
pub use stream_side::StreamSide;
