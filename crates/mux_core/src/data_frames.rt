//! Bytes as Data frames.
ghost use Rattle.std.specs.Prelude.{◌≡◌, ◌<◌, ◌^◌, length, IfOk};
ghost use Rattle.mux_frames.specs.Streams.{stream_of};
ghost use Rattle.mux_core.specs.Calls.{data_frames};

use bytes::Bytes;
use mux_frames::{MAX_PAYLOAD, StreamId, append_data};
use std::alloc::{AllocError, Global};

/// How many bytes of a Data frame stand before its payload.
const HEAD: usize = 7;

/// The Data frames of the bytes, each of 16,384 bytes and the last of what is left. Each byte is
/// copied once, into one buffer.
pub(crate) fn written_data(
    alloc: Global,
    stream: StreamId,
    bytes: &[u8],
) -> Result<Bytes, AllocError>
    requires { length bytes.now < 2 ^ 32 }
    ensures { IfOk result (λ sent. sent ≡ stream_of (data_frames stream bytes.now)) }
{
    let count = bytes.len().div_ceil(MAX_PAYLOAD);
    let mut sent = Vec::with_capacity(alloc, bytes.len() + HEAD * count)?;
    let mut rest = bytes;
    while !rest.is_empty() {
        let (front, back) = rest.split_at(rest.len().min(MAX_PAYLOAD));
        append_data(&mut sent, stream, front)?;
        rest = back;
    }
    Ok(Bytes::from_vec(sent)?)
}
