//! The words that are written into a line.
ghost use Rattle.std.specs.Prelude.{◌≡◌, ◌++◌, OnOk, string_bytes};
ghost use Rattle.std.specs.Fmt.{decimal};
ghost use Rattle.hex.specs.Hex.{encode_lower};
ghost use Rattle.line_words.specs.Spelling.{escaped};
ghost use Rattle.command_words.specs.Contents.{contents_word};
ghost use Rattle.command_words.specs.Piece.{next_pieces, next_word, piece_word};

use crate::identifier::{Identifier, write_identifier};
use crate::label::{Label, write_label};
use crate::session::{SessionWord, write_session};
use entry_tree::{Digest, write_path};
use line_words::write_word;
use std::alloc::AllocError;
use sync_path::Path;

/// A word that is to be written into a line.
#[derive(Clone, Copy)]
pub enum Piece<'a> {
    /// A text as it stands.
    Text(&'a str),
    /// A number, in decimal.
    Number(u64),
    /// An identifier.
    Id(Identifier),
    /// How a line names a session.
    Session(&'a SessionWord),
    /// A label: `KEY=VALUE`.
    Labelled(&'a Label),
    /// A path: its text, or `.` for the root.
    Place(&'a Path),
    /// A digest: 64 lower-case hexadecimal digits.
    Digits(&'a Digest),
    /// Bytes: `=` and the bytes.
    Bytes(&'a [u8]),
    /// An option with its value, such as `--name=` and a name.
    Setting(&'a str, &'a str),
}

/// Writes words behind a text, each behind a space. Cost: their lengths.
pub fn write_pieces(text: &mut String, pieces: &[Piece<'_>]) -> Result<(), AllocError>
    ensures { OnOk result (string_bytes text.new ≡ string_bytes text.old ++ next_pieces pieces.now) }
{
    for piece in pieces {
        write_next(text, piece)?;
    }
    Ok(())
}

// Writes a word behind a text and a space.
fn write_next(text: &mut String, piece: &Piece<'_>) -> Result<(), AllocError>
    ensures { OnOk result (string_bytes text.new ≡ string_bytes text.old ++ next_word (piece_word piece.now)) }
{
    text.push(' ')?;
    write_piece(text, piece)
}

// Writes a word behind a text.
fn write_piece(text: &mut String, piece: &Piece<'_>) -> Result<(), AllocError>
    ensures { OnOk result (string_bytes text.new ≡ string_bytes text.old ++ escaped (piece_word piece.now)) }
{
    match piece {
        Piece::Text(word) => write_word(text, word.as_bytes()),
        Piece::Number(number) => write_number(text, *number),
        Piece::Id(identifier) => write_identifier(text, *identifier),
        Piece::Session(session) => write_session(text, session),
        Piece::Labelled(label) => write_label(text, label),
        Piece::Place(path) => write_path(text, path),
        Piece::Digits(digest) => write_digits(text, digest),
        Piece::Bytes(bytes) => write_bytes(text, bytes),
        Piece::Setting(option, value) => write_setting(text, option, value),
    }
}

// Writes a number in decimal.
fn write_number(text: &mut String, number: u64) -> Result<(), AllocError>
    ensures { OnOk result (string_bytes text.new ≡ string_bytes text.old ++ escaped (decimal number)) }
{
    let mut buffer = itoa::Buffer::new();
    write_word(text, buffer.format(number).as_bytes())
}

// Writes the digits of a digest.
fn write_digits(text: &mut String, digest: &Digest) -> Result<(), AllocError>
    ensures { OnOk result (string_bytes text.new ≡ string_bytes text.old ++ escaped (encode_lower digest.now)) }
{
    let digits = digest.digits();
    write_word(text, digits.as_slice())
}

// Writes `=` and bytes.
fn write_bytes(text: &mut String, bytes: &[u8]) -> Result<(), AllocError>
    ensures { OnOk result (string_bytes text.new ≡ string_bytes text.old ++ escaped (contents_word bytes.now)) }
{
    text.push('=')?;
    write_word(text, bytes)
}

// Writes an option and its value, as one word.
fn write_setting(text: &mut String, option: &str, value: &str) -> Result<(), AllocError>
    ensures { OnOk result (string_bytes text.new ≡ string_bytes text.old ++ escaped (option.now ++ value.now)) }
{
    write_word(text, option.as_bytes())?;
    write_word(text, value.as_bytes())
}
