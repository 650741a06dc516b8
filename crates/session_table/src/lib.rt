//! The session table: which sessions there are, what each is to do next, and what a client gets that asks again.
//!
//! The table is one machine. An operation is answered, and leaves the next table; `specs/Machine.antt` has both, by cases. Sessions
//! of both kinds stand in order of creation, and are found by their identifier, or by their name among those of their kind. A
//! client counts its lines: a line that it sends again gets the reply that was kept, and isn't done again.
//!
//! ```rust
//! let mut table = Table::new(alloc, 1);
//! let reply = table.step(TableOp::Look { id });
//! ```
//!
//! The test `a_session_is_made_and_looked_at` of `session_tests` makes these calls.
#![tactic(auto)]

mod change;
mod client_row;
mod clients;
mod create;
mod kinds;
pub mod laws;
mod lists;
mod name_map;
mod op;
mod refusal;
mod reply;
mod request;
mod session;
mod sessions;
mod standings;
mod table;

pub use client_row::MAX_CLIENTS;
pub use create::{Create, ForwardCreate, SyncCreate};
pub use op::TableOp;
pub use refusal::TableRefusal;
pub use reply::{CommandReply, ForwardRow, Order, SyncRow, SyncState, TableReply};
pub use request::{TableQuery, TableRequest};
pub use session::{MAX_SESSIONS, Row};
pub use table::{Prepared, Table};
