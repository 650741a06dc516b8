//! The kind of a frame, its first byte.
ghost use Rattle.std.specs.Prelude.{◌≡◌};

use crate::wire::{
    KIND_ACCEPT, KIND_CLOSE, KIND_CLOSE_WRITE, KIND_DATA, KIND_HEARTBEAT, KIND_OPEN, KIND_WINDOW,
};

/// What a frame's first byte says.
#[derive(Clone, Copy, Debug)]
pub(crate) enum Kind {
    Open,
    Accept,
    Data,
    Window,
    CloseWrite,
    Close,
    Heartbeat,
}

impl Kind {
    ghost use Rattle.mux_frames.specs.Kinds.{kind_of};

    /// The kind that the byte stands for.
    pub(crate) fn of(byte: u8) -> Option<Kind>
        ensures { result ≡ kind_of byte }
    {
        match byte {
            KIND_OPEN => Some(Kind::Open),
            KIND_ACCEPT => Some(Kind::Accept),
            KIND_DATA => Some(Kind::Data),
            KIND_WINDOW => Some(Kind::Window),
            KIND_CLOSE_WRITE => Some(Kind::CloseWrite),
            KIND_CLOSE => Some(Kind::Close),
            KIND_HEARTBEAT => Some(Kind::Heartbeat),
            _ => None,
        }
    }
}
