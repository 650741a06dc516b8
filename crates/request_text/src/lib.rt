//! The request lines: what a user, a script or a client asks for, as one type, and the lines that spell it.
//!
//! A [`Request`] has a variant for each line of the tables in docs/FORMATS.md, and an [`Asked`] is a request with the client that
//! asks it, if the line names one. [`read_request`] reads a line, and says where a bad one goes wrong; [`write_request`] writes the
//! canonical line. `specs/Words.antt` has the words of each request, a row for each line of the tables, and `specs/Grammar.antt` says
//! which lines spell it.
//!
//! ```rust
//! let asked = read_request(alloc, b"@c 7  sync  flush %73")?;
//! let line = write_request(alloc, &asked)?; // `@c 7 sync flush s`
//! ```
//!
//! The test `each_freedom_is_read_and_each_place_told` of `request_tests` makes these calls. [`Setting`], [`SyncOptions`] and
//! [`ForwardOptions`] are public because `specs/Given.antt`, by which a reader of a law goes, speaks of them; no call takes or gives
//! them.
//!
//! A new line is a row of `words_of`, a variant of [`Request`], and a place of the reader for each word that isn't read yet
//! (`place.rt`, with its row of `Goes` in `specs/Places.antt`).
#![tactic(auto)]

mod advance;
mod asked;
mod create;
mod kinds;
mod leads;
mod limits;
mod line_error;
mod options;
mod order;
mod patterns;
mod place;
mod read;
mod request;
mod setting;
mod setting_words;
mod skipped;
mod state;
mod steps;
mod stream_end;
mod target;
mod verbs;
mod write;
mod write_options;
mod write_rows;

pub use asked::Asked;
pub use create::{ForwardCreate, SyncCreate};
pub use limits::{
    MAX_ENTRY_LIMIT, MAX_FILL_LEN, MAX_READ, MAX_SIZE_LIMIT, MAX_STEP_COUNT, MAX_STREAM_FILL_LEN,
};
pub use line_error::{BadLine, LineError};
pub use options::{ForwardOptions, SyncOptions};
pub use order::{ForwardOrder, SyncOrder};
pub use patterns::{MAX_PATTERNS, Patterns};
pub use read::read_request;
pub use request::Request;
pub use setting::Setting;
pub use skipped::is_skipped;
pub use stream_end::StreamEnd;
pub use target::Target;
pub use write::write_request;
