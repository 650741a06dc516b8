//! The bytes of a Data frame.
ghost use Rattle.std.specs.Prelude.{◌≡◌, ◌++◌, length, IfOk};
ghost use Rattle.std.specs.Option.{SomeIff};
ghost use Rattle.mux_frames.specs.Fields.{IsPayload};

use crate::wire::MAX_PAYLOAD;
use bytes::Bytes;
use std::alloc::{AllocError, Global};
use std::marker::Model;

/// The bytes that a Data frame carries, 1 to 16,384 of them. A contract sees the list.
#[derive(Debug, PartialEq, Eq, Drop)]
pub struct DataBytes {
    bytes: Bytes,
}

impl Model for DataBytes {
    ghost use Rattle.std.specs.Prelude.{ℕ, List};

    ghost Value = { List ℕ };

    ghost use Rattle.mux_frames.specs.Fields.{IsPayload};

    ghost view = { λ d. d.bytes };

    ghost invariant = { λ d. IsPayload d.bytes };

    ghost inverse = { λ b. record { bytes = b } };
}

impl DataBytes {
    /// These bytes, where a Data frame may carry so many: 1 to 16,384. It takes no memory.
    pub fn new(bytes: Bytes) -> Option<DataBytes>
        ensures { SomeIff result (IsPayload bytes) bytes }
    {
        if bytes.is_empty() || bytes.len() > MAX_PAYLOAD {
            None
        } else {
            Some(DataBytes { bytes })
        }
    }

    /// A copy of these bytes, of which a Data frame may carry so many.
    pub fn from_slice(alloc: Global, bytes: &[u8]) -> Result<DataBytes, AllocError>
        requires { IsPayload bytes.now }
        ensures { IfOk result (λ d. d ≡ bytes.now) }
    {
        let bytes = Bytes::copy_from_slice(alloc, bytes)?;
        Ok(DataBytes { bytes })
    }

    /// A copy of the bytes of both, one behind the other, each copied once.
    pub(crate) fn joined(alloc: Global, front: &[u8], back: &[u8]) -> Result<DataBytes, AllocError>
        requires { IsPayload (front.now ++ back.now) }
        ensures { IfOk result (λ d. d ≡ front.now ++ back.now) }
    {
        let mut both = Vec::with_capacity(alloc, front.len() + back.len())?;
        both.extend_from_slice(front)?;
        both.extend_from_slice(back)?;
        let bytes = Bytes::from_vec(both)?;
        Ok(DataBytes { bytes })
    }

    /// How many bytes they are. It takes no memory.
    pub fn len(&self) -> usize
        ensures count { result ≡ length self.now }
        ensures range { IsPayload self.now }
    {
        self.bytes.len()
    }

    /// The bytes. It takes no memory.
    pub fn as_slice(&self) -> &[u8]
        ensures value { result.now ≡ self.now }
        ensures range { IsPayload self.now }
    {
        self.bytes.as_slice()
    }

    /// The bytes, with their buffer. It takes no memory.
    pub fn into_bytes(self) -> Bytes
        ensures { result ≡ self }
    {
        self.bytes
    }

    /// Another owner of the same buffer: no byte is copied.
    pub fn copy(&self) -> Result<DataBytes, AllocError>
        ensures { IfOk result (λ d. d ≡ self.now) }
    {
        let bytes = self.bytes.clone()?;
        Ok(DataBytes { bytes })
    }
}
