//! The two sides of a session.
ghost use Rattle.std.specs.Prelude.{◌≡◌};
ghost use Rattle.entry_tree.specs.Side.{other_side};

/// A side of a session, after Mutagen's names.
#[derive(Clone, Copy, Debug, PartialEq, Eq)]
pub enum Side {
    Alpha,
    Beta,
}

impl Side {
    /// The other side.
    pub fn other(self) -> Side
        ensures { result ≡ other_side self }
    {
        match self {
            Side::Alpha => Side::Beta,
            Side::Beta => Side::Alpha,
        }
    }
}
