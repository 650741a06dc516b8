//! The bytes of a stream that came and were not read yet.
ghost use Rattle.std.specs.Prelude.{◌≡◌, ◌+◌, ◌≤◌, [], ◌++◌, length, take, drop, IfOk, OnOk, OnErr};

use crate::byte_queue::ByteQueue;
use crate::stream::WINDOW;
use bytes::Bytes;
use std::alloc::{AllocError, Global};
use std::marker::Model;

/// At most `WINDOW` bytes, in the pieces in which they came. A contract sees the bytes.
#[derive(Drop)]
pub struct ReadBuffer {
    queue: ByteQueue,
}

impl Model for ReadBuffer {
    ghost use Rattle.std.specs.Prelude.{ℕ, ◌≤◌, List, length};

    ghost Value = { List ℕ };

    ghost use Rattle.mux_core.specs.declared.stream.TheConstants.{WINDOW};

    ghost view = { λ b. b.queue.bytes };

    ghost invariant = { λ b. length b.queue.bytes ≤ WINDOW };
}

impl ReadBuffer {
    /// No bytes. It takes no memory.
    pub(crate) fn new(alloc: Global) -> ReadBuffer
        ensures { result ≡ [] }
    {
        ReadBuffer {
            queue: ByteQueue::new(alloc),
        }
    }

    /// How many bytes there are. It takes no memory.
    pub(crate) fn len(&self) -> usize
        ensures count { result ≡ length self.now }
        ensures bound { result ≤ WINDOW }
    {
        self.queue.len()
    }

    /// Adds the piece at the end.
    pub(crate) fn push(&mut self, piece: Bytes) -> Result<(), AllocError>
        requires { length self.old + length piece ≤ WINDOW }
        ensures ok { OnOk result (self.new ≡ self.old ++ piece) }
        ensures err { OnErr result (self.new ≡ self.old) }
    {
        self.queue.push(piece)
    }

    /// The first `count` bytes, which stay.
    pub(crate) fn front(&self, alloc: Global, count: usize) -> Result<Bytes, AllocError>
        requires { count ≤ length self.now }
        ensures { IfOk result (λ front. front ≡ take count self.now) }
    {
        self.queue.front(alloc, count)
    }

    /// Drops the first `count` bytes. It takes no memory.
    pub(crate) fn advance(&mut self, count: usize)
        requires { count ≤ length self.old }
        ensures { self.new ≡ drop count self.old }
    {
        self.queue.advance(count);
    }
}
