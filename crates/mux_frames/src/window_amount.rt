//! How much a Window frame raises a stream's credit.
ghost use Rattle.std.specs.Prelude.{◌≡◌};
ghost use Rattle.std.specs.Option.{SomeIff};
ghost use Rattle.mux_frames.specs.Fields.{IsAmount};

use crate::wire::MAX_AMOUNT;
use std::marker::Model;

/// How many bytes a Window frame adds to a credit, from 1 to 65,536. A contract sees the number.
#[derive(Clone, Copy, Debug, PartialEq, Eq)]
pub struct WindowAmount {
    count: u32,
}

impl Model for WindowAmount {
    ghost use Rattle.std.specs.Prelude.{ℕ};

    ghost Value = { ℕ };

    ghost use Rattle.mux_frames.specs.Fields.{IsAmount};

    ghost view = { λ a. a.count };

    ghost invariant = { λ a. IsAmount a.count };

    ghost inverse = { λ n. record { count = n } };
}

impl WindowAmount {
    /// The amount, where it is one: from 1 to 65,536. It takes no memory.
    pub fn new(count: u32) -> Option<WindowAmount>
        ensures { SomeIff result (IsAmount count) count }
    {
        if count == 0 || count > MAX_AMOUNT {
            None
        } else {
            Some(WindowAmount { count })
        }
    }

    /// The same where the caller knows that it is one. It takes no memory.
    pub fn of(count: u32) -> WindowAmount
        requires { IsAmount count }
        ensures { result ≡ count }
    {
        WindowAmount { count }
    }

    /// The number of bytes.
    pub fn count(self) -> u32
        ensures value { result ≡ self }
        ensures range { IsAmount self }
    {
        self.count
    }
}
