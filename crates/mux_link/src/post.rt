//! One side of a link.
use mux_core::MuxEnd;
use mux_frames::FrameReader;
use std::alloc::Global;

/// An end, and the reader of the bytes that come to it.
#[derive(Drop)]
pub(crate) struct Post {
    pub(crate) end: MuxEnd,
    pub(crate) reader: FrameReader,
}

impl Post {
    ghost use Rattle.std.specs.Prelude.{◌≡◌};
    ghost use Rattle.mux_core.specs.Ends.{fresh_end};
    ghost use Rattle.mux_frames.specs.Readers.{fresh};

    /// A side to which nothing has happened. It takes no memory.
    pub(crate) fn after(alloc: Global, near: bool, last: u32) -> Post
        ensures end { result.end ≡ fresh_end near last }
        ensures reader { result.reader ≡ fresh }
    {
        Post {
            end: MuxEnd::after(alloc, near, last),
            reader: FrameReader::new(),
        }
    }
}
