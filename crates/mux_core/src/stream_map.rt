//! The live streams of an end, by their numbers.
ghost use Rattle.std.specs.Prelude.{◌≡◌, ◌+◌, ◌<◌, ◌≤◌, ◌++◌, length, drop, IfSome, OnOk, OnErr};
ghost use Rattle.std.specs.FinMap as map;
ghost use Rattle.std.specs.Option.{option_copied};
ghost use Rattle.mux_core.specs.Streams.{changed, with_state, with_buffer};

use crate::stream::{Stream, StreamState, WINDOW};
use bytes::Bytes;
use std::alloc::{AllocError, Global};
use std::collections::BTreeMap;
use std::marker::Model;

/// The live streams. A contract sees a finite map from their numbers, of which none is 0. Each call
/// costs O(log n) at n streams, beside the bytes that it moves.
#[derive(Drop)]
pub(crate) struct StreamMap {
    tree: BTreeMap<u32, Stream>,
}

impl Model for StreamMap {
    ghost use Rattle.std.specs.Coded.{coded_ℕ};
    ghost use Rattle.std.specs.FinMap as map;
    ghost use Rattle.mux_core.specs.Streams.{Streams, stream_code, streams_in, HasNoZero};

    ghost Value = { Streams };

    ghost coded = { map.code coded_ℕ stream_code };

    ghost view = { λ m. streams_in m.tree };

    ghost invariant = { λ m. HasNoZero (streams_in m.tree) };
}

impl StreamMap {
    /// No streams. It takes no memory.
    pub(crate) fn new(alloc: Global) -> StreamMap
        ensures { result ≡ map.empty }
    {
        StreamMap {
            tree: BTreeMap::new(alloc),
        }
    }

    /// How many streams are live. It takes no memory.
    pub(crate) fn len(&self) -> usize
        ensures { result ≡ map.len self.now }
    {
        self.tree.len()
    }

    /// The stream of this number, where it is live. It takes no memory.
    pub(crate) fn get(&self, number: u32) -> Option<&Stream>
        ensures value { option_copied result ≡ map.get self.now number }
        ensures positive { IfSome result (λ _. 0 < number) }
    {
        self.tree.get(&number)
    }

    /// Puts a stream at the number.
    pub(crate) fn insert(&mut self, number: u32, stream: Stream) -> Result<(), AllocError>
        requires { 0 < number }
        ensures ok { OnOk result (self.new ≡ map.insert self.old number stream) }
        ensures err { OnErr result (self.new ≡ self.old) }
    {
        self.tree.insert(number, stream)?;
        Ok(())
    }

    /// Takes the stream away. It takes no memory.
    pub(crate) fn remove(&mut self, number: u32)
        ensures { self.new ≡ map.remove self.old number }
    {
        let _ = self.tree.remove(&number);
    }

    /// Gives the stream this state, where it is live. It takes no memory.
    pub(crate) fn set_state(&mut self, number: u32, state: StreamState)
        ensures { self.new ≡ changed self.old number (with_state state) }
    {
        match self.tree.get_mut(&number) {
            Some(stream) => stream.state = state,
            None => {}
        }
    }

    /// Adds bytes to the stream's buffer, where it is live.
    pub(crate) fn push(&mut self, number: u32, piece: Bytes) -> Result<(), AllocError>
        requires { IfSome (map.get self.old number) (λ s. length s.buffer + length piece ≤ WINDOW) }
        ensures ok { OnOk result (self.new
            ≡ changed self.old number (λ s. with_buffer (s.buffer ++ piece) s)) }
        ensures err { OnErr result (self.new ≡ self.old) }
    {
        match self.tree.get_mut(&number) {
            Some(stream) => stream.buffer.push(piece),
            None => Ok(()),
        }
    }

    /// Drops the first bytes of the stream's buffer, where it is live. It takes no memory.
    pub(crate) fn advance(&mut self, number: u32, count: usize)
        requires { IfSome (map.get self.old number) (λ s. count ≤ length s.buffer) }
        ensures { self.new ≡ changed self.old number (λ s. with_buffer (drop count s.buffer) s) }
    {
        match self.tree.get_mut(&number) {
            Some(stream) => stream.buffer.advance(count),
            None => {}
        }
    }
}
