//! The messages by which a root behind a connection is asked and answers: one spelling for each, read exactly.
//!
//! A message is a length, four bytes high first and at most 67,108,864, and so many bytes behind it: a kind (`wire`) and fields.
//! A request's kind is followed by its session's identifier (16 bytes), run (4) and cycle (8). `specs/Messages.antt` has the table
//! of kinds and fields, and what the fields may be; `specs/Fields.antt` has the bytes of each field.
//!
//! [`write_ask`] and [`write_answer`] give a message's one spelling, [`write_no_memory`] and [`write_too_long`] what is told in place
//! of an answer. [`read_body`] reads what stands behind a length, once all of it is there. A [`MessageReader`] takes a stream in pieces
//! of any size, and tells the first byte with which no message goes on: it walks over each byte once, by the places of `src/place.rt`,
//! and passes over contents at once.
//!
//! ```rust
//! let who = Who::Session { id: 7, run: 1, cycle: 2 };
//! let bytes = write_ask(alloc, &who, &Op::StageClear)?; // 33 bytes
//! let mut reader = MessageReader::new();
//! let messages = reader.feed(alloc, bytes.as_slice())?; // one: Message::Ask(who, Op::StageClear)
//! ```
//!
//! The test `a_request_is_written_and_read` of `agent_tests` makes these calls.
#![tactic(auto)]

mod batch;
mod behind;
mod character;
mod field_place;
mod held;
mod kept;
mod kind;
pub mod laws;
mod limits;
mod message;
mod path_place;
mod place;
mod read;
mod read_fields;
mod read_reply;
mod reader;
mod sizes;
mod walk;
mod wire;
mod write;
mod write_fields;

pub use limits::MAX_MESSAGE;
pub use message::Message;
pub use read::read_body;
pub use reader::{FeedError, MessageReader};
pub use write::{WriteFault, write_answer, write_ask, write_no_memory, write_too_long};
