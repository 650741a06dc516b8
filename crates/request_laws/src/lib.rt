//! The law of request lines: a written line is read back as the request that it was written of.
//!
//! The law is the contract of a function that does nothing. Requests and lines are those of `request_text`; `specs/` states what the law
//! speaks of. [`is_held`] gives what the law asks of a request, but for one thing: a client stands only before a line that may name one.
//!
//! ```text
//! request_laws::laws::a_written_line_is_read();
//! ```
#![tactic(auto)]

mod kept;
pub mod laws;

pub use kept::is_held;
