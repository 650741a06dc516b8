//! What a read of a stream gives.
ghost use Rattle.std.specs.Prelude.{◌≡◌, ◌++◌, IfOk, OnOk, string_bytes};
ghost use Rattle.reply_text.specs.Replies.{read_line};

use crate::line::write_ok;
use command_words::Piece;
use sqlite_items::Items;
use std::alloc::{AllocError, Global};

/// What a read of a stream gives.
#[derive(Debug, Drop)]
pub enum StreamRead {
    /// These bytes.
    Got(Items<u8>),
    /// No bytes have come yet.
    Empty,
    /// The other end has ended its writing, and all its bytes were read.
    End,
    /// The stream was closed at the other end, or the link was cut.
    Broken,
}

impl StreamRead {
    /// An equal value. Cost: the number of bytes.
    pub fn copy(&self, alloc: Global) -> Result<StreamRead, AllocError>
        ensures { IfOk result (λ read. read ≡ self.now) }
    {
        match self {
            StreamRead::Got(bytes) => Ok(StreamRead::Got(Items::from_slice(
                alloc,
                bytes.as_slice(),
            )?)),
            StreamRead::Empty => Ok(StreamRead::Empty),
            StreamRead::End => Ok(StreamRead::End),
            StreamRead::Broken => Ok(StreamRead::Broken),
        }
    }
}

/// Writes the line of a read behind a text. Cost: its length.
pub(crate) fn write_read(text: &mut String, read: &StreamRead) -> Result<(), AllocError>
    ensures { OnOk result (string_bytes text.new ≡ string_bytes text.old ++ read_line read.now) }
{
    match read {
        StreamRead::Got(bytes) => {
            let bytes = bytes.as_slice();
            write_ok(
                text,
                &[
                    Piece::Text("read"),
                    Piece::Number(bytes.len() as u64),
                    Piece::Bytes(bytes),
                ],
            )
        }
        StreamRead::Empty => write_ok(text, &[Piece::Text("read"), Piece::Text("empty")]),
        StreamRead::End => write_ok(text, &[Piece::Text("read"), Piece::Text("end")]),
        StreamRead::Broken => write_ok(text, &[Piece::Text("read"), Piece::Text("broken")]),
    }
}
