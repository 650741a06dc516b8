//! An end of a connection.
ghost use Rattle.std.specs.Prelude.{◌≡◌, ◌<◌, ◌≤◌, min, length, take, IfOk, OnOk, OnErr};
ghost use Rattle.std.specs.FinMap as map;
ghost use Rattle.mux_core.specs.Ends.{fresh_end, tells, cut_off};
ghost use Rattle.mux_core.specs.Calls.{credit_in, taken_out};

use crate::byte_queue::ByteQueue;
use crate::stream_map::StreamMap;
use bytes::Bytes;
use mux_frames::{MuxFrame, write_frame};
use std::alloc::{AllocError, Global};
use std::marker::Model;

/// One end of a connection that carries many streams. A contract sees an `End`: the live streams by
/// their numbers, and the bytes that wait to go to the other end.
///
/// A call costs its own bytes and O(log n) at n live streams, but for `cut`, which drops all pieces
/// that wait.
#[derive(Drop)]
pub struct MuxEnd {
    pub(crate) near: bool,
    pub(crate) start: u32,
    pub(crate) last: u32,
    pub(crate) is_cut: bool,
    pub(crate) streams: StreamMap,
    pub(crate) queue: ByteQueue,
    pub(crate) alloc: Global,
}

impl Model for MuxEnd {
    ghost use Rattle.mux_core.specs.Ends.{End, end_code};

    ghost Value = { End };

    ghost coded = { end_code };

    ghost view = { λ e. record { near = e.near; start = e.start; last = e.last; is_cut = e.is_cut; streams = e.streams; waiting = e.queue.bytes } };
}

impl MuxEnd {
    /// An end with no streams, whose first stream gets the number 1. The near end opens the streams.
    /// It takes no memory.
    pub fn new(alloc: Global, near: bool) -> MuxEnd
        ensures { result ≡ fresh_end near 0 }
    {
        MuxEnd::after(alloc, near, 0)
    }

    /// An end with no streams, whose first stream gets the number behind `last`. It takes no memory.
    pub fn after(alloc: Global, near: bool, last: u32) -> MuxEnd
        ensures { result ≡ fresh_end near last }
    {
        MuxEnd {
            near,
            start: last,
            last,
            is_cut: false,
            streams: StreamMap::new(alloc),
            queue: ByteQueue::new(alloc),
            alloc,
        }
    }

    /// How many bytes a write on the stream may accept; None where it isn't live here. It takes no
    /// memory.
    pub fn credit(&self, stream: u32) -> Option<u32>
        ensures { result ≡ credit_in (map.get self.now.streams stream) }
    {
        match self.streams.get(stream) {
            Some(live) => Some(live.state.credit),
            None => None,
        }
    }

    /// How many bytes wait to go to the other end. It takes no memory.
    pub fn waiting(&self) -> u64
        ensures { result ≡ length self.now.waiting }
    {
        self.queue.len() as u64
    }

    /// Takes the first bytes that wait to go to the other end, the lesser of `most` and all of them, in
    /// the order in which their frames were sent. They are cut from one write's frames where they lie
    /// in them, or else copied once.
    pub fn outgoing(&mut self, most: u64) -> Result<Bytes, AllocError>
        ensures front { IfOk result (λ front. front ≡ take (min most (length self.old.waiting)) self.old.waiting) }
        ensures rest { OnOk result (self.new ≡ taken_out self.old (min most (length self.old.waiting))) }
        ensures err { OnErr result (self.new ≡ self.old) }
    {
        let count = most.min(self.queue.len() as u64) as usize;
        let front = self.queue.front(self.alloc, count)?;
        self.queue.advance(count);
        Ok(front)
    }

    /// The first bytes that wait, which stay: those of the first piece, `most` at most, and none only
    /// where none wait or `most` is 0. It takes no memory.
    pub fn next_piece(&self, most: u64) -> &[u8]
        ensures front { result.now ≡ take (length result.now) self.now.waiting }
        ensures most { length result.now ≤ most }
        ensures some { 0 < most → 0 < length self.now.waiting → 0 < length result.now }
    {
        let piece = self.queue.first();
        let count = most.min(piece.len() as u64) as usize;
        &piece[..count]
    }

    /// Takes the first `count` of the bytes that wait, which came to the other end. It takes no memory.
    pub fn advance(&mut self, count: usize)
        requires { count ≤ length self.old.waiting }
        ensures { self.new ≡ taken_out self.old count }
    {
        self.queue.advance(count);
    }

    /// Whether it is the near end, which opens the streams. It takes no memory.
    pub fn is_near(&self) -> bool
        ensures { result ≡ self.now.near }
    {
        self.near
    }

    /// Whether the link was cut. It takes no memory.
    pub fn is_cut(&self) -> bool
        ensures { result ≡ self.now.is_cut }
    {
        self.is_cut
    }

    /// The last number that a stream was opened with, or the one that the end was made with. It takes
    /// no memory.
    pub fn last(&self) -> u32
        ensures { result ≡ self.now.last }
    {
        self.last
    }

    /// The link has ended: what waits is dropped, and nothing is sent from then on. It takes no memory.
    pub fn cut(&mut self)
        ensures { self.new ≡ cut_off self.old }
    {
        self.is_cut = true;
        self.queue.clear();
    }

    /// Lets the frame wait to go out, unless the link was cut.
    pub(crate) fn tell(&mut self, frame: &MuxFrame) -> Result<(), AllocError>
        ensures ok { OnOk result (self.new ≡ tells self.old frame.now) }
        ensures err { OnErr result (self.new ≡ self.old) }
    {
        if self.is_cut {
            return Ok(());
        }
        let bytes = write_frame(self.alloc, frame)?;
        self.queue.push(bytes)
    }
}
