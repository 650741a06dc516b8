//! How the rows of requests are written that share their words.
ghost use Rattle.std.specs.Prelude.{◌≡◌, ◌++◌, ◌∷◌, [], IfOk, OnOk, codes, decimal, map, string_bytes};
ghost use Rattle.line_words.specs.Spelling.{written};
ghost use Rattle.command_words.specs.Contents.{contents_word};
ghost use Rattle.command_words.specs.Keywords.{switch_word};
ghost use Rattle.command_words.specs.Piece.{piece_word};
ghost use Rattle.command_words.specs.Session.{session_word};
ghost use Rattle.request_text.specs.Words.{byte_word, edit_words, stream_words, words_of};
ghost use Rattle.request_text.specs.declared.request.Request.TheVariants as requests;

use crate::create::{ForwardCreate, SyncCreate};
use crate::stream_end::StreamEnd;
use crate::target::Target;
use crate::write_options::{write_forward_settings, write_label_setting, write_sync_settings};
use command_words::{Label, Piece, SessionWord, stream_side_word, switch_word, write_pieces};
use line_words::write_word;
use std::alloc::{AllocError, Global};

/// Writes a word and those of some pieces, with a space between each two. Cost: their lengths.
pub(crate) fn write_line(
    text: &mut String,
    first: &str,
    behind: &[Piece<'_>],
) -> Result<(), AllocError>
    ensures { OnOk result (string_bytes text.new ≡ string_bytes text.old ++ written (first.now ∷ map piece_word behind.now)) }
{
    write_word(text, first.as_bytes())?;
    write_pieces(text, behind)
}

/// Writes an edit that has nothing behind its path.
pub(crate) fn write_edit<'a>(
    text: &mut String,
    at: &'a Target,
    verb: &'a str,
) -> Result<(), AllocError>
    ensures { OnOk result (string_bytes text.new ≡ string_bytes text.old ++ written (edit_words at.now verb.now [])) }
{
    let behind = [
        Piece::Text(at.root.as_str()),
        Piece::Text(verb),
        Piece::Place(&at.path),
    ];
    write_line(text, "edit", &behind)
}

/// Writes an edit that has bytes behind its path.
pub(crate) fn write_edit_bytes<'a>(
    text: &mut String,
    at: &'a Target,
    verb: &'a str,
    bytes: &'a [u8],
) -> Result<(), AllocError>
    ensures { OnOk result (string_bytes text.new ≡ string_bytes text.old ++ written (edit_words at.now verb.now (contents_word bytes.now ∷ []))) }
{
    let behind = [
        Piece::Text(at.root.as_str()),
        Piece::Text(verb),
        Piece::Place(&at.path),
        Piece::Bytes(bytes),
    ];
    write_line(text, "edit", &behind)
}

/// Writes an edit that fills a file.
pub(crate) fn write_fill(
    alloc: Global,
    text: &mut String,
    at: &Target,
    len: u64,
    byte: u8,
) -> Result<(), AllocError>
    ensures { OnOk result (string_bytes text.new ≡ string_bytes text.old ++ written (edit_words at.now (codes "fill") (decimal len ∷ byte_word byte ∷ []))) }
{
    let digits = byte_digits(alloc, byte)?;
    let behind = [
        Piece::Text(at.root.as_str()),
        Piece::Text("fill"),
        Piece::Place(&at.path),
        Piece::Number(len),
        Piece::Text(digits.as_str()),
    ];
    write_line(text, "edit", &behind)
}

/// Writes an edit of a file's executable bit.
pub(crate) fn write_exec(text: &mut String, at: &Target, on: bool) -> Result<(), AllocError>
    ensures { OnOk result (string_bytes text.new ≡ string_bytes text.old ++ written (edit_words at.now (codes "exec") (switch_word on ∷ []))) }
{
    let behind = [
        Piece::Text(at.root.as_str()),
        Piece::Text("exec"),
        Piece::Place(&at.path),
        Piece::Text(switch_word(on)),
    ];
    write_line(text, "edit", &behind)
}

/// Writes a command to a session: its two words and the session's.
pub(crate) fn write_order<'a>(
    text: &mut String,
    kind: &str,
    order: &'a str,
    session: &'a SessionWord,
) -> Result<(), AllocError>
    ensures { OnOk result (string_bytes text.new ≡ string_bytes text.old ++ written (kind.now ∷ order.now ∷ session_word session.now ∷ [])) }
{
    write_line(text, kind, &[Piece::Text(order), Piece::Session(session)])
}

/// Writes a line on a session's connection.
pub(crate) fn write_conn<'a>(
    text: &mut String,
    session: &'a SessionWord,
    verb: &'a str,
) -> Result<(), AllocError>
    ensures { OnOk result (string_bytes text.new ≡ string_bytes text.old ++ written (codes "conn" ∷ session_word session.now ∷ verb.now ∷ [])) }
{
    write_line(text, "conn", &[Piece::Session(session), Piece::Text(verb)])
}

/// Writes an operation on an end of a stream that has nothing behind the end.
pub(crate) fn write_stream<'a>(
    text: &mut String,
    end: &'a StreamEnd,
    verb: &'a str,
) -> Result<(), AllocError>
    ensures { OnOk result (string_bytes text.new ≡ string_bytes text.old ++ written (stream_words end.now verb.now [])) }
{
    let behind = [
        Piece::Session(&end.session),
        Piece::Text(verb),
        Piece::Number(end.stream as u64),
        Piece::Text(stream_side_word(end.side)),
    ];
    write_line(text, "conn", &behind)
}

/// Writes bytes that go into a stream.
pub(crate) fn write_stream_bytes<'a>(
    text: &mut String,
    end: &'a StreamEnd,
    bytes: &'a [u8],
) -> Result<(), AllocError>
    ensures { OnOk result (string_bytes text.new ≡ string_bytes text.old ++ written (stream_words end.now (codes "write") (contents_word bytes.now ∷ []))) }
{
    let behind = [
        Piece::Session(&end.session),
        Piece::Text("write"),
        Piece::Number(end.stream as u64),
        Piece::Text(stream_side_word(end.side)),
        Piece::Bytes(bytes),
    ];
    write_line(text, "conn", &behind)
}

/// Writes an operation that fills a stream.
pub(crate) fn write_stream_fill(
    alloc: Global,
    text: &mut String,
    end: &StreamEnd,
    len: u64,
    byte: u8,
) -> Result<(), AllocError>
    ensures { OnOk result (string_bytes text.new ≡ string_bytes text.old ++ written (stream_words end.now (codes "fill") (decimal len ∷ byte_word byte ∷ []))) }
{
    let digits = byte_digits(alloc, byte)?;
    let behind = [
        Piece::Session(&end.session),
        Piece::Text("fill"),
        Piece::Number(end.stream as u64),
        Piece::Text(stream_side_word(end.side)),
        Piece::Number(len),
        Piece::Text(digits.as_str()),
    ];
    write_line(text, "conn", &behind)
}

/// Writes a read of a stream.
pub(crate) fn write_read(text: &mut String, end: &StreamEnd, most: u64) -> Result<(), AllocError>
    ensures { OnOk result (string_bytes text.new ≡ string_bytes text.old ++ written (stream_words end.now (codes "read") (decimal most ∷ []))) }
{
    let behind = [
        Piece::Session(&end.session),
        Piece::Text("read"),
        Piece::Number(end.stream as u64),
        Piece::Text(stream_side_word(end.side)),
        Piece::Number(most),
    ];
    write_line(text, "conn", &behind)
}

/// Writes a list of sessions, all or those with a label.
pub(crate) fn write_sync_list(text: &mut String, label: &Option<Label>) -> Result<(), AllocError>
    ensures { OnOk result (string_bytes text.new ≡ string_bytes text.old ++ written (words_of (requests.SyncList label.now))) }
{
    write_line(text, "sync", &[Piece::Text("list")])?;
    match label {
        None => Ok(()),
        Some(label) => write_label_setting(text, label),
    }
}

/// Writes a new synchronisation session.
pub(crate) fn write_sync_create(text: &mut String, create: &SyncCreate) -> Result<(), AllocError>
    ensures { OnOk result (string_bytes text.new ≡ string_bytes text.old ++ written (words_of (requests.SyncCreate create.now))) }
{
    write_line(text, "sync", &[Piece::Text("create")])?;
    write_sync_settings(text, create)?;
    let roots = [
        Piece::Text(create.alpha.as_str()),
        Piece::Text(create.beta.as_str()),
    ];
    write_pieces(text, &roots)
}

/// Writes a new forwarding session.
pub(crate) fn write_forward_create(
    text: &mut String,
    create: &ForwardCreate,
) -> Result<(), AllocError>
    ensures { OnOk result (string_bytes text.new ≡ string_bytes text.old ++ written (words_of (requests.ForwardCreate create.now))) }
{
    write_line(text, "forward", &[Piece::Text("create")])?;
    write_forward_settings(text, create)?;
    let ends = [
        Piece::Text(create.source.as_str()),
        Piece::Text(create.dest.as_str()),
    ];
    write_pieces(text, &ends)
}

// The two digits of a byte.
fn byte_digits(alloc: Global, byte: u8) -> Result<String, AllocError>
    ensures { IfOk result (λ digits. string_bytes digits ≡ byte_word byte) }
{
    hex::encode(alloc, &[byte])
}
