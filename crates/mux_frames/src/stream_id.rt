//! The number of a stream.
ghost use Rattle.std.specs.Prelude.{◌≡◌, ◌<◌};
ghost use Rattle.std.specs.Option.{SomeIff};
ghost use Rattle.mux_frames.specs.Fields.{IsStreamId};

use std::marker::Model;

/// The number of a stream, from 1 to 4,294,967,295. A contract sees the number.
#[derive(Clone, Copy, Debug, PartialEq, Eq)]
pub struct StreamId {
    number: u32,
}

impl Model for StreamId {
    ghost use Rattle.std.specs.Prelude.{ℕ, ◌<◌};

    ghost Value = { ℕ };

    ghost view = { λ s. s.number };

    ghost invariant = { λ s. 0 < s.number };

    ghost inverse = { λ n. record { number = n } };
}

impl StreamId {
    /// The stream of this number, where there is one: not at 0. It takes no memory.
    pub fn new(number: u32) -> Option<StreamId>
        ensures { SomeIff result (0 < number) number }
    {
        if number == 0 {
            None
        } else {
            Some(StreamId { number })
        }
    }

    /// The same where the caller knows that it is one. It takes no memory.
    pub fn of(number: u32) -> StreamId
        requires { 0 < number }
        ensures { result ≡ number }
    {
        StreamId { number }
    }

    /// The number.
    pub fn number(self) -> u32
        ensures value { result ≡ self }
        ensures range { IsStreamId self }
    {
        self.number
    }
}
