//! The calls of an end's user, with what a link answers to them.
ghost use Rattle.std.specs.Prelude.{◌≡◌, true};
ghost use Rattle.mux_link.specs.Calls.{Opens, Writes, Reads, EndsWriting, Closes};

use crate::reply::LinkReply;
use bytes::Bytes;
use mux_core::{MuxEnd, MuxError, OpenError, ReadAnswer};

/// Opens a stream at the near end, unless the link was cut.
pub(crate) fn open(end: &mut MuxEnd) -> LinkReply
    requires { end.old.near ≡ true }
    ensures { Opens end.old result end.new }
{
    if end.is_cut() {
        return LinkReply::Cut;
    }
    match end.open_stream() {
        Ok(number) => LinkReply::Opened(number),
        Err(OpenError::StreamsFull { live }) => LinkReply::StreamsFull(live),
        Err(OpenError::Memory) => LinkReply::NoMemory,
    }
}

/// Writes on a stream.
pub(crate) fn write(end: &mut MuxEnd, stream: u32, bytes: &[u8]) -> LinkReply
    ensures { Writes end.old stream bytes.now result end.new }
{
    match end.write(stream, bytes) {
        Ok(count) => LinkReply::Wrote(count),
        Err(MuxError::NoStream) => LinkReply::NoStream,
        Err(MuxError::WriteClosed) => LinkReply::WriteClosed,
        Err(MuxError::Protocol(_)) => unreachable!(),
        Err(MuxError::Memory) => LinkReply::NoMemory,
    }
}

/// Reads from a stream.
pub(crate) fn read(end: &mut MuxEnd, stream: u32, most: usize) -> LinkReply
    ensures { Reads end.old stream most result end.new }
{
    if most == 0 {
        return read_nothing(end, stream);
    }
    match end.read(stream, most) {
        Ok(answer) => LinkReply::Read(answer),
        Err(MuxError::NoStream) => LinkReply::NoStream,
        Err(MuxError::WriteClosed) => unreachable!(),
        Err(MuxError::Protocol(_)) => unreachable!(),
        Err(MuxError::Memory) => LinkReply::NoMemory,
    }
}

/// Reads at most 0 bytes from a stream. It takes no memory.
fn read_nothing(end: &MuxEnd, stream: u32) -> LinkReply
    ensures { Reads end.now stream 0 result end.now }
{
    match end.credit(stream) {
        Some(_) => LinkReply::Read(ReadAnswer::Got(Bytes::new())),
        None => LinkReply::NoStream,
    }
}

/// Ends the writing on a stream.
pub(crate) fn close_write(end: &mut MuxEnd, stream: u32) -> LinkReply
    ensures { EndsWriting end.old stream result end.new }
{
    match end.close_write(stream) {
        Ok(()) => LinkReply::Done,
        Err(MuxError::NoStream) => LinkReply::NoStream,
        Err(MuxError::WriteClosed) => LinkReply::WriteClosed,
        Err(MuxError::Protocol(_)) => unreachable!(),
        Err(MuxError::Memory) => LinkReply::NoMemory,
    }
}

/// Closes a stream.
pub(crate) fn close(end: &mut MuxEnd, stream: u32) -> LinkReply
    ensures { Closes end.old stream result end.new }
{
    match end.close(stream) {
        Ok(()) => LinkReply::Done,
        Err(MuxError::NoStream) => LinkReply::NoStream,
        Err(MuxError::WriteClosed) => unreachable!(),
        Err(MuxError::Protocol(_)) => unreachable!(),
        Err(MuxError::Memory) => LinkReply::NoMemory,
    }
}
