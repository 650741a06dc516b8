//! Who asks a root.

/// Who asked for what an event of a root's log tells.
#[derive(Clone, Copy, Debug, PartialEq, Eq)]
pub enum Who {
    /// An editor, who changes a root and belongs to no session.
    Editor,
    /// A session in one of its cycles.
    Session {
        /// The session's identifier.
        id: u128,
        /// The run of the daemon.
        run: u32,
        /// The cycle of the session.
        cycle: u64,
    },
}
