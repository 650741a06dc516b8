//! The lines of a reply.
ghost use Rattle.std.specs.Prelude.{◌≡◌, ◌++◌, ◌∷◌, [], OnOk, codes, string_bytes};
ghost use Rattle.line_words.specs.Spelling.{space};
ghost use Rattle.command_words.specs.Piece.{next_pieces};
ghost use Rattle.reply_text.specs.Lines.{newline};

use command_words::{Piece, write_pieces};
use std::alloc::AllocError;

/// Begins a line of detail, whose words each stand behind a space.
pub(crate) fn begin_detail(text: &mut String) -> Result<(), AllocError>
    ensures { OnOk result (string_bytes text.new ≡ string_bytes text.old ++ space ∷ []) }
{
    text.push(' ')
}

/// Ends a line.
pub(crate) fn end_line(text: &mut String) -> Result<(), AllocError>
    ensures { OnOk result (string_bytes text.new ≡ string_bytes text.old ++ newline ∷ []) }
{
    text.push('\n')
}

/// Writes these words behind a word of the line, and ends the line.
pub(crate) fn write_words(text: &mut String, pieces: &[Piece<'_>]) -> Result<(), AllocError>
    ensures { OnOk result (string_bytes text.new ≡ string_bytes text.old ++ (next_pieces pieces.now ++ newline ∷ [])) }
{
    write_pieces(text, pieces)?;
    end_line(text)
}

/// Writes a line of `ok` and these words.
pub(crate) fn write_ok(text: &mut String, pieces: &[Piece<'_>]) -> Result<(), AllocError>
    ensures { OnOk result (string_bytes text.new ≡ string_bytes text.old ++ (codes "ok" ++ (next_pieces pieces.now ++ newline ∷ []))) }
{
    text.push_str("ok")?;
    write_words(text, pieces)
}

/// Writes a line of `refused` and these words.
pub(crate) fn write_refused(text: &mut String, pieces: &[Piece<'_>]) -> Result<(), AllocError>
    ensures { OnOk result (string_bytes text.new ≡ string_bytes text.old ++ (codes "refused" ++ (next_pieces pieces.now ++ newline ∷ []))) }
{
    text.push_str("refused")?;
    write_words(text, pieces)
}

/// Writes a line of detail with these words.
pub(crate) fn write_detail(text: &mut String, pieces: &[Piece<'_>]) -> Result<(), AllocError>
    ensures { OnOk result (string_bytes text.new ≡ string_bytes text.old ++ space ∷ (next_pieces pieces.now ++ newline ∷ [])) }
{
    text.push(' ')?;
    write_words(text, pieces)
}
