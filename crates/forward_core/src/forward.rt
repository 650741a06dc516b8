//! A forwarding session.
ghost use Rattle.std.specs.Prelude.{◌≡◌};
ghost use Rattle.mux_link.specs.declared.reply.LinkReply.TheVariants as replies;
ghost use Rattle.forward_core.specs.Sessions.{fresh_session, paused_session, resumed_session};
ghost use Rattle.forward_core.specs.Acts.{Acts, is_open};

use crate::op::ForwardOp;
use mux_link::{LinkOp, LinkReply, MuxPair};
use std::alloc::Global;
use std::marker::Model;

/// A link that can be paused and resumed. A contract sees whether it is paused, and the world of its link.
#[derive(Drop)]
pub struct Forward {
    paused: bool,
    pair: MuxPair,
    alloc: Global,
}

impl Model for Forward {
    ghost use Rattle.forward_core.specs.Sessions.{Session, session_code};

    ghost Value = { Session };

    ghost coded = { session_code };

    ghost view = { λ f. record { paused = f.paused; link = f.pair } };
}

impl Forward {
    /// A session with no streams, whose first stream gets the number 1. It takes no memory.
    pub fn new(alloc: Global, paused: bool) -> Forward
        ensures { result ≡ fresh_session paused }
    {
        Forward {
            paused,
            pair: MuxPair::new(alloc),
            alloc,
        }
    }

    /// Makes one step, and answers what came of it. On a paused session opening a stream is refused as
    /// `Paused`; its old streams are there until it is resumed. A step costs what the link's step costs;
    /// a pause and a resume take no memory, and cost what they drop.
    pub fn step(&mut self, op: ForwardOp) -> LinkReply
        ensures { Acts self.old op result self.new }
    {
        match op {
            ForwardOp::Link(op) => self.link(op),
            ForwardOp::Pause => self.pause(),
            ForwardOp::Resume => self.resume(),
        }
    }

    fn link(&mut self, op: LinkOp) -> LinkReply
        ensures { Acts self.old (ForwardOp.Link op) result self.new }
    {
        if self.paused && is_open(&op) {
            return LinkReply::Paused;
        }
        self.pair.step(op)
    }

    fn pause(&mut self) -> LinkReply
        ensures reply { result ≡ replies.Done }
        ensures session { self.new ≡ paused_session self.old }
    {
        self.paused = true;
        self.pair.step(LinkOp::Cut)
    }

    fn resume(&mut self) -> LinkReply
        ensures reply { result ≡ replies.Done }
        ensures session { self.new ≡ resumed_session self.old }
    {
        if self.paused || self.pair.is_cut() {
            self.pair = MuxPair::after(self.alloc, self.pair.last());
            self.paused = false;
        }
        LinkReply::Done
    }
}

/// The operation opens a stream.
fn is_open(op: &LinkOp) -> bool
    ensures { result ≡ is_open op.now }
{
    match op {
        LinkOp::OpenStream => true,
        _ => false,
    }
}
