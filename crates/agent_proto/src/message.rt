//! A message.

use roots_api::{Answer, Op, Who};

/// What one side of a connection sends to the other: a request, an answer, or why there is no answer.
#[derive(Debug, Drop)]
pub enum Message {
    /// A session asks for this operation.
    Ask(Who, Op),
    /// The root's answer.
    Answer(Answer),
    /// There was no memory for the operation or for its answer.
    NoMemory,
    /// The answer's message would have so many bytes behind its length, more than `MAX_MESSAGE`.
    TooLong(u64),
}
