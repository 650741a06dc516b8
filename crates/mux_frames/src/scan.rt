//! What stands at the front of the bytes: a frame, a part of one, or a byte with which none goes on.
ghost use Rattle.std.specs.Prelude.{◌≡◌, IfOk};
ghost use Rattle.mux_frames.specs.declared.field.Field.TheVariants.{Whole};
ghost use Rattle.mux_frames.specs.Bytes.{bytes_of};
ghost use Rattle.mux_frames.specs.Kinds.{streams_of};
ghost use Rattle.mux_frames.specs.Numbers.{ReadsNumber};
ghost use Rattle.mux_frames.specs.Steps.{IsStreamOf, ScansBody, Steps};

use crate::data_bytes::DataBytes;
use crate::field::{Field, field_at};
use crate::frame::MuxFrame;
use crate::kind::Kind;
use crate::rest::Rest;
use crate::stream_id::StreamId;
use crate::window_amount::WindowAmount;
use crate::wire::{MAX_AMOUNT, MAX_PAYLOAD};
use std::alloc::{AllocError, Global};

/// What stands behind a frame's first byte.
pub(crate) enum Body {
    /// A frame with no payload, and how many bytes it has behind the first.
    Plain(MuxFrame, usize),
    /// A payload of this many bytes, six bytes on.
    Data(StreamId, usize),
    /// Less than some frame has.
    Partial,
    /// No frame goes on at this byte.
    Bad(usize),
}

/// What stands at the front.
pub(crate) enum Step {
    /// A frame of this many bytes.
    Frame(MuxFrame, usize),
    /// Less than a whole frame, that some frame continues.
    Partial,
    /// No frame goes on at this byte.
    Bad(usize),
}

/// The streams that a frame of this kind may name.
fn streams(kind: Kind) -> (u32, u32)
    ensures { result ≡ streams_of kind }
{
    match kind {
        Kind::Heartbeat => (0, 0),
        _ => (1, u32::MAX),
    }
}

/// What stands behind the byte of the kind.
fn body_at(kind: Kind, rest: &Rest<'_>) -> Body
    ensures { ScansBody kind (bytes_of rest.now) result }
{
    let (low, high) = streams(kind);
    match field_at(rest, 4, low, high) {
        Field::Short => Body::Partial,
        Field::Bad(place) => Body::Bad(place),
        Field::Whole(stream) => tail_at(kind, stream, rest),
    }
}

/// What stands behind the stream.
fn tail_at(kind: Kind, stream: u32, rest: &Rest<'_>) -> Body
    requires { ReadsNumber 4 (streams_of kind).0 (streams_of kind).1 (bytes_of rest.now)
        (Whole stream) }
    ensures { ScansBody kind (bytes_of rest.now) result }
{
    match kind {
        Kind::Open => Body::Plain(MuxFrame::OpenStream(StreamId::of(stream)), 4),
        Kind::Accept => Body::Plain(MuxFrame::Accept(StreamId::of(stream)), 4),
        Kind::Data => data_at(StreamId::of(stream), rest),
        Kind::Window => window_at(StreamId::of(stream), rest),
        Kind::CloseWrite => Body::Plain(MuxFrame::CloseWrite(StreamId::of(stream)), 4),
        Kind::Close => Body::Plain(MuxFrame::Close(StreamId::of(stream)), 4),
        Kind::Heartbeat => Body::Plain(MuxFrame::Heartbeat, 4),
    }
}

/// The length of a Data frame, and whether its payload is there.
fn data_at(stream: StreamId, rest: &Rest<'_>) -> Body
    requires { IsStreamOf stream (bytes_of rest.now) }
    ensures { ScansBody Kind.Data (bytes_of rest.now) result }
{
    match field_at(&rest.skip(4), 2, 1, MAX_PAYLOAD as u32) {
        Field::Short => Body::Partial,
        Field::Bad(place) => Body::Bad(4 + place),
        Field::Whole(size) => {
            if rest.len() - 6 < size as usize {
                Body::Partial
            } else {
                Body::Data(stream, size as usize)
            }
        }
    }
}

/// The amount of a Window frame.
fn window_at(stream: StreamId, rest: &Rest<'_>) -> Body
    requires { IsStreamOf stream (bytes_of rest.now) }
    ensures { ScansBody Kind.Window (bytes_of rest.now) result }
{
    match field_at(&rest.skip(4), 4, 1, MAX_AMOUNT) {
        Field::Short => Body::Partial,
        Field::Bad(place) => Body::Bad(4 + place),
        Field::Whole(amount) => Body::Plain(MuxFrame::Window(stream, WindowAmount::of(amount)), 8),
    }
}

/// What stands at the front of the bytes.
pub(crate) fn step_at(alloc: Global, rest: &Rest<'_>) -> Result<Step, AllocError>
    ensures { IfOk result (Steps (bytes_of rest.now)) }
{
    if rest.len() == 0 {
        return Ok(Step::Partial);
    }
    let Some(kind) = Kind::of(rest.byte(0)) else {
        return Ok(Step::Bad(0));
    };
    let behind = rest.skip(1);
    match body_at(kind, &behind) {
        Body::Partial => Ok(Step::Partial),
        Body::Bad(place) => Ok(Step::Bad(place + 1)),
        Body::Plain(frame, size) => Ok(Step::Frame(frame, size + 1)),
        Body::Data(stream, size) => {
            let payload = behind.skip(6).first(size);
            let bytes = DataBytes::joined(alloc, payload.front, payload.back)?;
            Ok(Step::Frame(MuxFrame::Payload(stream, bytes), size + 7))
        }
    }
}
