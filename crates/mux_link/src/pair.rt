//! Two joined ends as one value.
ghost use Rattle.std.specs.Prelude.{◌≡◌, ◌||◌};
ghost use Rattle.mux_core.specs.Worlds.{fresh_world};
ghost use Rattle.mux_link.specs.Posts.{IsReached, joined};
ghost use Rattle.mux_link.specs.Steps.{Steps};

use crate::calls::{close, close_write, open, read, write};
use crate::carrying::move_over;
use crate::op::LinkOp;
use crate::post::Post;
use crate::reply::LinkReply;
use crate::side::Side2;
use std::alloc::Global;
use std::marker::Model;

/// Two ends that are joined, and the bytes between them. A contract sees the world of `mux_core`, which
/// two fresh ends came to by steps of theirs.
#[derive(Drop)]
pub struct MuxPair {
    near: Post,
    far: Post,
    alloc: Global,
}

impl Model for MuxPair {
    ghost use Rattle.mux_core.specs.Worlds.{World};
    ghost use Rattle.mux_link.specs.Posts.{IsReached, joined, world_code};

    ghost Value = { World };

    ghost coded = { world_code };

    ghost view = { λ p. joined p.near p.far };

    ghost invariant = { λ p. IsReached (joined p.near p.far) };
}

impl MuxPair {
    /// A pair with no streams, whose first stream gets the number 1. It takes no memory.
    pub fn new(alloc: Global) -> MuxPair
        ensures { result ≡ fresh_world 0 }
    {
        MuxPair::after(alloc, 0)
    }

    /// A pair with no streams, whose first stream gets the number behind `last`. It takes no memory.
    pub fn after(alloc: Global, last: u32) -> MuxPair
        ensures { result ≡ fresh_world last }
    {
        MuxPair {
            near: Post::after(alloc, true, last),
            far: Post::after(alloc, false, last),
            alloc,
        }
    }

    /// Makes one step, and answers what came of it. A step costs its own bytes and O(log n) at n live
    /// streams, a move what taking the frames that it completes costs besides, and a cut what it drops.
    /// A byte is copied once by the write that accepts it, and once by the move that completes its frame.
    /// Want of memory changes nothing, but that of a move the first bytes may have gone over.
    pub fn step(&mut self, op: LinkOp) -> LinkReply
        ensures { Steps self.old op result self.new }
    {
        act(self.alloc, &mut self.near, &mut self.far, op)
    }

    /// Whether the link was cut. It takes no memory.
    pub fn is_cut(&self) -> bool
        ensures { result ≡ (self.now.near.end.is_cut || self.now.far.end.is_cut) }
    {
        self.near.end.is_cut() || self.far.end.is_cut()
    }

    /// The last number that a stream was opened with, or the one that the pair was made with. It takes
    /// no memory.
    pub fn last(&self) -> u32
        ensures { result ≡ self.now.near.end.last }
    {
        self.near.end.last()
    }
}

/// Makes one step of two sides that were joined.
fn act(alloc: Global, near: &mut Post, far: &mut Post, op: LinkOp) -> LinkReply
    requires { IsReached (joined near.old far.old) }
    ensures { Steps (joined near.old far.old) op result (joined near.new far.new) }
{
    match op {
        LinkOp::OpenStream => open(&mut near.end),
        LinkOp::Write(Side2::Near, stream, bytes) => {
            write(&mut near.end, stream, bytes.as_slice())
        }
        LinkOp::Write(Side2::Far, stream, bytes) => write(&mut far.end, stream, bytes.as_slice()),
        LinkOp::Read(Side2::Near, stream, most) => read(&mut near.end, stream, most),
        LinkOp::Read(Side2::Far, stream, most) => read(&mut far.end, stream, most),
        LinkOp::CloseWrite(Side2::Near, stream) => close_write(&mut near.end, stream),
        LinkOp::CloseWrite(Side2::Far, stream) => close_write(&mut far.end, stream),
        LinkOp::Close(Side2::Near, stream) => close(&mut near.end, stream),
        LinkOp::Close(Side2::Far, stream) => close(&mut far.end, stream),
        LinkOp::Move(Side2::Near, most) => move_over(alloc, near, far, most),
        LinkOp::Move(Side2::Far, most) => move_over(alloc, far, near, most),
        LinkOp::Cut => {
            near.end.cut();
            far.end.cut();
            LinkReply::Done
        }
    }
}
