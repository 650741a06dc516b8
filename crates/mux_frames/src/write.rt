//! Writing a frame.
ghost use Rattle.std.specs.Prelude.{◌≡◌, ◌∷◌, ◌++◌, IfOk, OnOk};
ghost use Rattle.std.specs.Int.{w32, to_be_bytes};
ghost use Rattle.mux_frames.specs.Fields.{IsPayload};
ghost use Rattle.mux_frames.specs.Frames.{IsFrame, spelling};

use crate::data_bytes::DataBytes;
use crate::frame::MuxFrame;
use crate::stream_id::StreamId;
use crate::window_amount::WindowAmount;
use crate::wire::{
    KIND_ACCEPT, KIND_CLOSE, KIND_CLOSE_WRITE, KIND_DATA, KIND_HEARTBEAT, KIND_OPEN, KIND_WINDOW,
};
use bytes::Bytes;
use std::alloc::{AllocError, Global};

/// The one spelling of the frame.
pub fn write_frame(alloc: Global, frame: &MuxFrame) -> Result<Bytes, AllocError>
    ensures frame { IsFrame frame.now }
    ensures spelled { IfOk result (λ bytes. bytes ≡ spelling frame.now) }
{
    let bytes = match frame {
        MuxFrame::OpenStream(stream) => head(alloc, KIND_OPEN, stream.number(), 5)?,
        MuxFrame::Accept(stream) => head(alloc, KIND_ACCEPT, stream.number(), 5)?,
        MuxFrame::Payload(stream, payload) => data_frame(alloc, *stream, payload)?,
        MuxFrame::Window(stream, amount) => window_frame(alloc, *stream, *amount)?,
        MuxFrame::CloseWrite(stream) => head(alloc, KIND_CLOSE_WRITE, stream.number(), 5)?,
        MuxFrame::Close(stream) => head(alloc, KIND_CLOSE, stream.number(), 5)?,
        MuxFrame::Heartbeat => head(alloc, KIND_HEARTBEAT, 0, 5)?,
    };
    Ok(Bytes::from_vec(bytes)?)
}

/// The kind and the stream, in a buffer with room for the whole frame.
fn head(alloc: Global, kind: u8, stream: u32, size: usize) -> Result<Vec<u8>, AllocError>
    ensures { IfOk result (λ v. v.items ≡ kind ∷ to_be_bytes w32 stream) }
{
    let mut bytes = Vec::with_capacity(alloc, size)?;
    bytes.push(kind)?;
    bytes.extend_from_slice(&stream.to_be_bytes())?;
    Ok(bytes)
}

fn window_frame(
    alloc: Global,
    stream: StreamId,
    amount: WindowAmount,
) -> Result<Vec<u8>, AllocError>
    ensures range { IsFrame (MuxFrame.Window stream amount) }
    ensures spelled { IfOk result (λ v. v.items ≡ spelling (MuxFrame.Window stream amount)) }
{
    let count = amount.count();
    let mut bytes = head(alloc, KIND_WINDOW, stream.number(), 9)?;
    bytes.extend_from_slice(&count.to_be_bytes())?;
    Ok(bytes)
}

fn data_frame(alloc: Global, stream: StreamId, payload: &DataBytes) -> Result<Vec<u8>, AllocError>
    ensures range { IsFrame (MuxFrame.Payload stream payload.now) }
    ensures spelled { IfOk result (λ v. v.items ≡ spelling (MuxFrame.Payload stream payload.now)) }
{
    let size = payload.len();
    let mut bytes = head(alloc, KIND_DATA, stream.number(), 7 + size)?;
    bytes.extend_from_slice(&(size as u16).to_be_bytes())?;
    bytes.extend_from_slice(payload.as_slice())?;
    Ok(bytes)
}

/// Writes a Data frame of these bytes, 1 to 16,384 of them, behind what stands in `out`. Each byte is
/// copied once. Where memory runs out a part of the frame may stand there.
pub fn append_data(out: &mut Vec<u8>, stream: StreamId, payload: &[u8]) -> Result<(), AllocError>
    requires { IsPayload payload.now }
    ensures frame { IsFrame (MuxFrame.Payload stream payload.now) }
    ensures spelled { OnOk result (out.new.items
        ≡ out.old.items ++ spelling (MuxFrame.Payload stream payload.now)) }
{
    out.push(KIND_DATA)?;
    out.extend_from_slice(&stream.number().to_be_bytes())?;
    out.extend_from_slice(&(payload.len() as u16).to_be_bytes())?;
    out.extend_from_slice(payload)
}
