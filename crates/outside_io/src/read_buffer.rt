//! The bytes that were read and not used yet.
ghost use Rattle.std.specs.Prelude.{◌≡◌, ℕ, ◌+◌, ◌<◌, ◌≤◌, [], length, take, drop, slice_index, vec_len, MatchResult, MatchOption, IfOk, OnOk, OnErr};
ghost use Rattle.std.specs.Io.KnownBytes.{Consumes, IsAtEnd, Keeps};
ghost use Rattle.fault_count.specs.Rose.{Rose};
ghost use Rattle.outside_io.specs.Lines.{HasNoNewline};

use super::source::{Failed, Source};
use std::alloc::{AllocError, Global};
use std::marker::Model;

/// For how many bytes a buffer has room, once it has memory.
const ROOM: usize = 16_384;

/// The byte that ends a line.
const NEWLINE: u8 = 10;

/// The bytes of the last read that were not used yet.
#[derive(Drop)]
pub struct ReadBuffer {
    bytes: Vec<u8>,
    from: usize,
    to: usize,
}

impl Model for ReadBuffer {
    ghost use Rattle.std.specs.Prelude.{ℕ, List, ◌≤◌, slice_range, vec_len};
    ghost use Rattle.outside_io.specs.Taking.{Buffered};

    ghost Value = { Buffered };

    ghost view = { λ b. record { held = slice_range b.bytes.items b.from b.to; room = vec_len b.bytes } };

    ghost invariant = { λ b. (b.from ≤ b.to) × (b.to ≤ vec_len b.bytes) };
}

impl ReadBuffer {
    /// A buffer with no room and no bytes. It takes no memory.
    pub fn new(alloc: Global) -> ReadBuffer
        ensures held { result.held ≡ [] }
        ensures room { result.room ≡ 0 }
    {
        ReadBuffer {
            bytes: Vec::new(alloc),
            from: 0,
            to: 0,
        }
    }

    /// Takes memory for the buffer, where it has none yet.
    pub fn prepare(&mut self, alloc: Global) -> Result<(), AllocError>
        ensures ok { OnOk result (0 < self.new.room) }
        ensures held { self.new.held ≡ self.old.held }
        ensures err { OnErr result (self.new.room ≡ self.old.room) }
    {
        if self.bytes.is_empty() {
            self.bytes = zeros(alloc, ROOM)?;
            self.from = 0;
            self.to = 0;
        }
        Ok(())
    }

    /// The bytes that it holds.
    pub fn bytes(&self) -> &[u8]
        ensures { result.now ≡ self.now.held }
    {
        &self.bytes[self.from..self.to]
    }

    /// The place of the first end of a line.
    pub fn newline(&self) -> Option<usize>
        ensures { MatchOption result (HasNoNewline self.now.held)
            (λ n. (n < length self.now.held) × HasNoNewline (take n self.now.held) × (slice_index self.now.held n ≡ 10)) }
    {
        self.bytes().iter().position(|byte| *byte == NEWLINE)
    }

    /// Drops the bytes at the front through the one at `place`.
    pub fn pass(&mut self, place: usize)
        requires { place < length self.old.held }
        ensures held { self.new.held ≡ drop (place + 1) self.old.held }
        ensures room { self.new.room ≡ self.old.room }
    {
        let at = self.from + place;
        self.from = at + 1;
    }

    /// Drops all bytes.
    pub fn clear(&mut self)
        ensures held { self.new.held ≡ [] }
        ensures room { self.new.room ≡ self.old.room }
    {
        self.from = self.to;
    }

    /// Reads at most `most` bytes into the empty buffer, and answers how many came.
    pub fn fill<S: Source>(&mut self, source: &mut S, most: usize) -> Result<usize, Failed>
        requires room { 0 < self.old.room }
        requires some { 0 < most }
        ensures count { IfOk result (λ n. (n ≤ most) × (length self.new.held ≡ n)) }
        ensures bytes { MatchResult result
            (λ n. Consumes (S.left source.old) (S.left source.new) self.new.held
            × (n ≡ 0 → IsAtEnd (S.left source.new)))
            (λ _. Keeps (S.left source.old) (S.left source.new)) }
        ensures none { OnErr result (self.new.held ≡ []) }
        ensures room { self.new.room ≡ self.old.room }
        ensures counts { S.faults source.old ≤ S.faults source.new }
        ensures failed { OnErr result (Rose (S.faults source.old) (S.faults source.new)) }
    {
        self.from = 0;
        self.to = 0;
        let count = read_front(source, self.bytes.as_mut_slice(), most)?;
        self.to = count;
        Ok(count)
    }
}

// Reads at most `most` bytes into the front of `bytes`.
fn read_front<S: Source>(source: &mut S, bytes: &mut [u8], most: usize) -> Result<usize, Failed>
    requires room { 0 < length bytes.old }
    requires some { 0 < most }
    ensures count { IfOk result (λ n. (n ≤ most) × (n ≤ length bytes.old)) }
    ensures bytes { MatchResult result
        (λ n. Consumes (S.left source.old) (S.left source.new) (take n bytes.new)
        × (n ≡ 0 → IsAtEnd (S.left source.new)))
        (λ _. Keeps (S.left source.old) (S.left source.new)) }
    ensures counts { S.faults source.old ≤ S.faults source.new }
    ensures failed { OnErr result (Rose (S.faults source.old) (S.faults source.new)) }
{
    let most = most.min(bytes.len());
    source.read(&mut bytes[..most])
}

// So many zeros.
fn zeros(alloc: Global, count: usize) -> Result<Vec<u8>, AllocError>
    ensures { IfOk result (λ v. vec_len v ≡ count) }
{
    vec![in alloc; 0; count]
}
