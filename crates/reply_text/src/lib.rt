//! Replies and refusals: what each holds, and its one spelling.
//!
//! A reply is a first line and lines of detail, which begin with two spaces; each line ends with LF. `specs/Replies.antt` has the bytes
//! of each reply, and `specs/Refusals.antt` those of each refusal, a line for each row of the tables in docs/FORMATS.md. A reply holds
//! no more than its lines spell.
//!
//! ```rust
//! let text = write_reply(alloc, &Reply::Refused(Refusal::BadLine(5)))?;
//! assert_eq!(rt; text.as_str(), "refused 30 bad-line 5\n");
//! ```
//!
//! The test `replies_have_one_spelling` of `text_tests` makes this call.
#![tactic(auto)]

mod conflict_row;
mod copies;
mod forward_row;
mod line;
mod listed;
mod refusal;
mod refusal_line;
mod reply;
mod reply_lines;
mod report_rows;
mod stream_read;
mod sync_row;

pub use conflict_row::ConflictRow;
pub use forward_row::{ForwardRow, ForwardState};
pub use listed::Listed;
pub use refusal::{MAX_CLIENTS, MAX_SESSIONS, Refusal};
pub use reply::Reply;
pub use reply_lines::write_reply;
pub use report_rows::ReportRows;
pub use stream_read::StreamRead;
pub use sync_row::{SyncRow, SyncState};
