//! The ends of the streams of a session.

use command_words::{SessionWord, StreamSide};

/// An end of a stream of a forwarding session. No stream has the number 0, but a line may spell it.
#[derive(Debug, Drop)]
pub struct StreamEnd {
    pub session: SessionWord,
    pub stream: u32,
    pub side: StreamSide,
}
