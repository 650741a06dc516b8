//! The two kinds of sessions.

/// The kind of a session.
#[derive(Clone, Copy, Debug, PartialEq, Eq)]
pub enum SessionKind {
    /// It keeps two roots the same.
    Sync,
    /// It carries streams over one connection.
    Forward,
}
