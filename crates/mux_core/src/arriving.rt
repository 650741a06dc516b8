//! The frames that come.
ghost use Rattle.std.specs.Prelude.{◌≡◌, ◌+◌, ◌≤◌, false, true, IfSome, OnOk, OnErr};
ghost use Rattle.std.specs.FinMap as map;
ghost use Rattle.mux_core.specs.Arrivals.{was_opened, allows, allows_accept, allows_data, allows_window, allows_end, after_frame, frame_step, changes_state};
ghost use Rattle.mux_core.specs.Ends.{SameLink};
ghost use Rattle.mux_core.specs.Answers.{Answers};

use crate::end::MuxEnd;
use crate::error::MuxError;
use crate::stream::WINDOW;
use mux_frames::MuxFrame;
use std::alloc::AllocError;

impl MuxEnd {
    /// Takes a frame that came from the other end. `Protocol` comes exactly where it breaks a rule, and
    /// gives it back. A frame for a stream that was opened and isn't live any more is ignored, but for
    /// an Open, and for an Accept at the far end. No byte is copied.
    pub fn on_frame(&mut self, frame: MuxFrame) -> Result<(), MuxError>
        requires linked { self.old.is_cut ≡ false }
        ensures step { Answers result self.old self.new (frame_step self.old frame) }
        ensures link { SameLink self.old self.new }
    {
        if !self.allows(&frame) {
            return Err(MuxError::Protocol(frame));
        }
        self.take_frame(frame)?;
        Ok(())
    }

    /// The frame breaks no rule.
    fn allows(&self, frame: &MuxFrame) -> bool
        ensures { result ≡ allows self.now frame.now }
    {
        match frame {
            MuxFrame::OpenStream(stream) => !self.near && stream.number() - 1 == self.last,
            MuxFrame::Accept(stream) => self.near && self.allows_accept(stream.number()),
            MuxFrame::Payload(stream, bytes) => self.allows_data(stream.number(), bytes.len()),
            MuxFrame::Window(stream, amount) => {
                self.allows_window(stream.number(), amount.count())
            }
            MuxFrame::CloseWrite(stream) => self.allows_end(stream.number()),
            MuxFrame::Close(stream) => self.was_opened(stream.number()),
            MuxFrame::Heartbeat => true,
        }
    }

    /// A stream of this number was opened at this end.
    fn was_opened(&self, stream: u32) -> bool
        ensures { result ≡ was_opened self.now stream }
    {
        self.start < stream && stream <= self.last
    }

    fn allows_accept(&self, stream: u32) -> bool
        ensures { result ≡ allows_accept self.now stream }
    {
        if !self.was_opened(stream) {
            return false;
        }
        match self.streams.get(stream) {
            Some(live) => !live.state.accepted,
            None => true,
        }
    }

    fn allows_data(&self, stream: u32, size: usize) -> bool
        ensures { result ≡ allows_data self.now stream size }
    {
        if !self.was_opened(stream) {
            return false;
        }
        match self.streams.get(stream) {
            Some(live) => live.has_room(size),
            None => true,
        }
    }

    fn allows_window(&self, stream: u32, amount: u32) -> bool
        ensures { result ≡ allows_window self.now stream amount }
    {
        if !self.was_opened(stream) {
            return false;
        }
        match self.streams.get(stream) {
            Some(live) => live.state.has_credit_room(amount),
            None => true,
        }
    }

    fn allows_end(&self, stream: u32) -> bool
        ensures { result ≡ allows_end self.now stream }
    {
        if !self.was_opened(stream) {
            return false;
        }
        match self.streams.get(stream) {
            Some(live) => live.state.is_readable(),
            None => true,
        }
    }

    /// Takes a frame that came, of which the caller knows that it breaks no rule. No byte is copied.
    pub fn take_frame(&mut self, frame: MuxFrame) -> Result<(), AllocError>
        requires allowed { allows self.old frame ≡ true }
        requires linked { self.old.is_cut ≡ false }
        ensures ok { OnOk result (self.new ≡ after_frame self.old frame) }
        ensures err { OnErr result (self.new ≡ self.old) }
    {
        match frame {
            MuxFrame::OpenStream(stream) => {
                self.open(stream.number(), true, &MuxFrame::Accept(stream))
            }
            MuxFrame::Accept(stream) => {
                self.mark_accepted(stream.number());
                Ok(())
            }
            MuxFrame::Payload(stream, bytes) => {
                self.streams.push(stream.number(), bytes.into_bytes())
            }
            MuxFrame::Window(stream, amount) => {
                self.raise_credit(stream.number(), amount.count());
                Ok(())
            }
            MuxFrame::CloseWrite(stream) => {
                self.mark_read_ended(stream.number());
                Ok(())
            }
            MuxFrame::Close(stream) => {
                self.mark_closed(stream.number());
                Ok(())
            }
            MuxFrame::Heartbeat => Ok(()),
        }
    }

    fn mark_accepted(&mut self, stream: u32)
        ensures { self.new ≡ changes_state self.old stream (λ state. record state { accepted = true }) }
    {
        if let Some(live) = self.streams.get(stream) {
            let mut state = live.state;
            state.accepted = true;
            self.streams.set_state(stream, state);
        }
    }

    fn raise_credit(&mut self, stream: u32, amount: u32)
        requires { IfSome (map.get self.old.streams stream) (λ s. s.state.credit + amount ≤ WINDOW) }
        ensures { self.new ≡ changes_state self.old stream (λ state. record state { credit = state.credit + amount }) }
    {
        if let Some(live) = self.streams.get(stream) {
            let mut state = live.state;
            state.credit += amount;
            self.streams.set_state(stream, state);
        }
    }

    fn mark_read_ended(&mut self, stream: u32)
        ensures { self.new ≡ changes_state self.old stream (λ state. record state { read_ended = true }) }
    {
        if let Some(live) = self.streams.get(stream) {
            let mut state = live.state;
            state.read_ended = true;
            self.streams.set_state(stream, state);
        }
    }

    fn mark_closed(&mut self, stream: u32)
        ensures { self.new ≡ changes_state self.old stream (λ state. record state { closed = true }) }
    {
        if let Some(live) = self.streams.get(stream) {
            let mut state = live.state;
            state.closed = true;
            self.streams.set_state(stream, state);
        }
    }
}
