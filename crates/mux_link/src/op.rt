//! What happens at a link.
use crate::side::Side2;
use std::marker::Model;

/// One thing that happens at a link. A stream is named by its number.
#[derive(Drop)]
pub enum LinkOp {
    /// A stream is opened at the near end.
    OpenStream,
    /// These bytes are written on the stream at the side.
    Write(Side2, u32, LinkBytes),
    /// Up to so many bytes are read from the stream at the side.
    Read(Side2, u32, usize),
    /// The side ends its writing on the stream.
    CloseWrite(Side2, u32),
    /// The side closes the stream.
    Close(Side2, u32),
    /// Up to so many of the bytes that wait at the side go to the other one.
    Move(Side2, u64),
    /// The link ends.
    Cut,
}

/// The bytes of a write. A contract sees the list.
#[derive(Drop)]
pub struct LinkBytes {
    bytes: Vec<u8>,
}

impl Model for LinkBytes {
    ghost use Rattle.std.specs.Prelude.{ℕ, List};

    ghost Value = { List ℕ };

    ghost view = { λ b. b.bytes.items };
}

impl LinkBytes {
    ghost use Rattle.std.specs.Prelude.{◌≡◌};

    /// These bytes. It takes no memory.
    pub fn new(bytes: Vec<u8>) -> LinkBytes
        ensures { result ≡ bytes.items }
    {
        LinkBytes { bytes }
    }

    /// The bytes. It takes no memory.
    pub fn as_slice(&self) -> &[u8]
        ensures { result.now ≡ self.now }
    {
        self.bytes.as_slice()
    }
}
