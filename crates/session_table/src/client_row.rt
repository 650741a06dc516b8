//! What is kept of a client.

use crate::reply::CommandReply;
use command_words::GivenName;

/// How many clients are kept.
pub const MAX_CLIENTS: usize = 64;

/// What is kept of a client: its last number, and the reply to it.
#[derive(Debug, Drop)]
pub(crate) struct ClientRow {
    pub(crate) name: GivenName,
    pub(crate) number: u64,
    pub(crate) reply: CommandReply,
}
