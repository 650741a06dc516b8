//! Bytes in pieces, in the order in which they came.
ghost use Rattle.std.specs.Prelude.{◌≡◌, ◌+◌, ◌<◌, ◌≤◌, ◌^◌, [], ◌++◌, length, take, drop, IfOk, OnOk, OnErr};
ghost use Rattle.std.specs.List.{concat};
ghost use Rattle.mux_core.specs.Queues.{Queue};

use bytes::Bytes;
use std::alloc::{AllocError, Global};
use std::collections::VecDeque;
use std::marker::Model;

/// A queue of bytes, kept in the pieces in which they came. A piece that goes in is not copied, and
/// bytes that go out are cut from the first piece, or copied once where they lie in several.
///
/// A contract sees the bytes, and for how many pieces there is room.
#[derive(Drop)]
pub(crate) struct ByteQueue {
    pieces: VecDeque<Bytes>,
    len: usize,
}

impl Model for ByteQueue {
    ghost use Rattle.std.specs.Prelude.{◌≡◌, ◌-◌, ◌<◌, length, All};
    ghost use Rattle.std.specs.List.{concat};
    ghost use Rattle.std.specs.VecDeque.{deque_len, deque_capacity};
    ghost use Rattle.mux_core.specs.Queues.{Queue};

    ghost Value = { Queue };

    ghost view = { λ q. record { bytes = concat q.pieces.items; room = deque_capacity q.pieces - deque_len q.pieces } };

    ghost invariant = { λ q. (q.len ≡ length (concat q.pieces.items)) × All (λ piece. 0 < length piece) q.pieces.items };
}

impl ByteQueue {
    /// No bytes. It takes no memory.
    pub(crate) fn new(alloc: Global) -> ByteQueue
        ensures { result.bytes ≡ [] }
    {
        ByteQueue {
            pieces: VecDeque::new(alloc),
            len: 0,
        }
    }

    /// How many bytes there are. It takes no memory.
    pub(crate) fn len(&self) -> usize
        ensures { result ≡ length self.now.bytes }
    {
        self.len
    }

    /// Makes room for one more piece of so many bytes.
    pub(crate) fn reserve(&mut self, size: usize) -> Result<(), AllocError>
        ensures bytes { self.new.bytes ≡ self.old.bytes }
        ensures room { OnOk result (0 < self.new.room) }
        ensures size { OnOk result (length self.new.bytes + size < 2 ^ 64) }
    {
        if self.len.checked_add(size).is_none() {
            return Err(AllocError);
        }
        self.pieces.try_reserve(1)
    }

    /// Adds the piece at the end, where there is room for it. It takes no memory.
    pub(crate) fn push_reserved(&mut self, piece: Bytes)
        requires room { 0 < self.old.room }
        requires size { length self.old.bytes + length piece < 2 ^ 64 }
        ensures { self.new.bytes ≡ self.old.bytes ++ piece }
    {
        if !piece.is_empty() {
            self.len += piece.len();
            self.pieces.push_back_reserved(piece);
        }
    }

    /// Adds the piece at the end.
    pub(crate) fn push(&mut self, piece: Bytes) -> Result<(), AllocError>
        ensures ok { OnOk result (self.new.bytes ≡ self.old.bytes ++ piece) }
        ensures err { OnErr result (self.new.bytes ≡ self.old.bytes) }
    {
        self.reserve(piece.len())?;
        self.push_reserved(piece);
        Ok(())
    }

    /// Drops all bytes. It takes no memory.
    pub(crate) fn clear(&mut self)
        ensures { self.new.bytes ≡ [] }
    {
        self.pieces.clear();
        self.len = 0;
    }

    /// The first piece, or no bytes where there are none. It takes no memory.
    pub(crate) fn first(&self) -> &[u8]
        ensures front { result.now ≡ take (length result.now) self.now.bytes }
        ensures some { 0 < length self.now.bytes → 0 < length result.now }
    {
        match self.pieces.front() {
            Some(piece) => piece.as_slice(),
            None => &[],
        }
    }

    /// The first `count` bytes, which stay: of the first piece itself where they lie in it, or else a copy.
    pub(crate) fn front(&self, alloc: Global, count: usize) -> Result<Bytes, AllocError>
        requires { count ≤ length self.now.bytes }
        ensures { IfOk result (λ front. front ≡ take count self.now.bytes) }
    {
        if let Some(first) = self.pieces.front()
            && count <= first.len()
        {
            return first.slice(0..count);
        }
        let (front, back) = self.pieces.as_slices();
        let mut bytes = Vec::with_capacity(alloc, count)?;
        fill(&mut bytes, front, count)?;
        fill(&mut bytes, back, count)?;
        Ok(Bytes::from_vec(bytes)?)
    }

    /// Drops the first `count` bytes. It takes no memory.
    pub(crate) fn advance(&mut self, count: usize)
        requires { count ≤ length self.old.bytes }
        ensures { self.new.bytes ≡ drop count self.old.bytes }
    {
        let mut left = count;
        while left > 0 {
            left -= self.advance_first(left);
        }
    }

    /// Drops up to `count` bytes of the first piece, and answers how many.
    fn advance_first(&mut self, count: usize) -> usize
        requires some { 0 < count }
        requires within { count ≤ length self.old.bytes }
        ensures some { 0 < result }
        ensures most { result ≤ count }
        ensures rest { self.new.bytes ≡ drop result self.old.bytes }
    {
        let Some(mut first) = self.pieces.pop_front() else {
            unreachable!()
        };
        let taken = count.min(first.len());
        first.advance(taken);
        if !first.is_empty() {
            self.pieces.push_front_reserved(first);
        }
        self.len -= taken;
        taken
    }
}

/// Adds the first bytes of the pieces until there are `count`, or all that the pieces have.
fn fill(bytes: &mut Vec<u8>, pieces: &[Bytes], count: usize) -> Result<(), AllocError>
    requires { length bytes.old.items ≤ count }
    ensures filled { OnOk result (bytes.new.items ≡ take count (bytes.old.items ++ concat pieces.now)) }
    ensures most { OnOk result (length bytes.new.items ≤ count) }
{
    for piece in pieces {
        let left = count - bytes.len();
        if left == 0 {
            break;
        }
        let taken = left.min(piece.len());
        bytes.extend_from_slice(&piece.as_slice()[..taken])?;
    }
    Ok(())
}
