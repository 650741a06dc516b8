//! Bytes that a line carries.
ghost use Rattle.std.specs.Prelude.{◌≡◌, ◌<◌, ◌↔◌, ℕ, List, IfOk, MatchOption, Some, length};
ghost use Rattle.command_words.specs.Contents.{contents_word};

use std::alloc::{AllocError, Global};
use std::marker::Model;

/// Bytes that a line carries, also none: `=` and the bytes. Contracts see a list of bytes.
#[derive(Debug, Drop)]
pub struct Contents {
    bytes: Vec<u8>,
}

impl Model for Contents {
    ghost use Rattle.std.specs.Prelude.{ℕ, List};

    ghost Value = { List ℕ };

    ghost view = { λ c. c.bytes.items };
}

impl Contents {
    /// The bytes that a word carries, if it is `=` and bytes. Cost: their number; they are copied once.
    pub fn read(alloc: Global, word: &[u8]) -> Result<Option<Contents>, AllocError>
        ensures { IfOk result (λ found. (bytes : List ℕ) → (found ≡ Some bytes) ↔ (word.now ≡ contents_word bytes)) }
    {
        let Some(bytes) = behind_equals(word) else {
            return Ok(None);
        };
        Ok(Some(Contents {
            bytes: Vec::from_slice(alloc, bytes)?,
        }))
    }

    /// The bytes. It takes no memory.
    pub fn as_slice(&self) -> &[u8]
        ensures { result.now ≡ self.now }
    {
        self.bytes.as_slice()
    }

    /// The bytes, to be kept. It takes no memory.
    pub fn into_bytes(self) -> Vec<u8>
        ensures { result.items ≡ self }
    {
        self.bytes
    }

    /// Equal bytes. Cost: their number.
    pub fn copy(&self, alloc: Global) -> Result<Contents, AllocError>
        ensures { IfOk result (λ contents. contents ≡ self.now) }
    {
        Ok(Contents {
            bytes: Vec::from_slice(alloc, self.bytes.as_slice())?,
        })
    }
}

// What stands behind `=`.
fn behind_equals(word: &[u8]) -> Option<&[u8]>
    ensures { MatchOption result ((bytes : List ℕ) → word.now ≡ contents_word bytes → ⊥) (λ bytes. word.now ≡ contents_word bytes.now) }
{
    match word.split_first() {
        Some((b'=', bytes)) => Some(bytes),
        _ => None,
    }
}

/// Bytes that a line writes to a stream: at least one. Contracts see a list of bytes.
#[derive(Debug, Drop)]
pub struct StreamBytes {
    bytes: Contents,
}

impl Model for StreamBytes {
    ghost use Rattle.std.specs.Prelude.{ℕ, ◌<◌, List, length};

    ghost Value = { List ℕ };

    ghost view = { λ s. s.bytes };

    ghost invariant = { λ s. 0 < length s.bytes };
}

impl StreamBytes {
    /// The bytes that a word carries, if it is `=` and at least one byte. Cost: their number; they are copied once.
    pub fn read(alloc: Global, word: &[u8]) -> Result<Option<StreamBytes>, AllocError>
        ensures { IfOk result (λ found. (bytes : List ℕ) → (found ≡ Some bytes) ↔ ((0 < length bytes) × (word.now ≡ contents_word bytes))) }
    {
        let Some(bytes) = Contents::read(alloc, word)? else {
            return Ok(None);
        };
        if bytes.as_slice().is_empty() {
            return Ok(None);
        }
        Ok(Some(StreamBytes { bytes }))
    }

    /// The bytes. It takes no memory.
    pub fn as_slice(&self) -> &[u8]
        ensures value { result.now ≡ self.now }
        ensures some { 0 < length self.now }
    {
        self.bytes.as_slice()
    }

    /// The bytes, to be kept. It takes no memory.
    pub fn into_bytes(self) -> Vec<u8>
        ensures value { result.items ≡ self }
        ensures some { 0 < length self }
    {
        self.bytes.into_bytes()
    }

    /// Equal bytes. Cost: their number.
    pub fn copy(&self, alloc: Global) -> Result<StreamBytes, AllocError>
        ensures { IfOk result (λ bytes. bytes ≡ self.now) }
    {
        let bytes = self.bytes.copy(alloc)?;
        Ok(StreamBytes { bytes })
    }
}
