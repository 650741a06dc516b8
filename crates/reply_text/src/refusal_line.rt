//! The line of a refusal.
ghost use Rattle.std.specs.Prelude.{◌≡◌, ◌++◌, OnOk, string_bytes};
ghost use Rattle.command_words.specs.Piece.{next_words};
ghost use Rattle.reply_text.specs.Refusals.{found_words, refusal_line};
ghost use Rattle.reply_text.specs.declared.refusal.Refusal.TheVariants.{EditRefused};

use crate::line::{end_line, write_refused};
use crate::refusal::{MAX_CLIENTS, MAX_SESSIONS, Refusal};
use command_words::{Piece, halt_word, write_pieces};
use entry_tree::{Atom, write_atom};
use std::alloc::AllocError;
use sync_path::Path;

/// Writes the line of a refusal behind a text. Cost: its length.
pub(crate) fn write_refusal(text: &mut String, refusal: &Refusal) -> Result<(), AllocError>
    ensures { OnOk result (string_bytes text.new ≡ string_bytes text.old ++ refusal_line refusal.now) }
{
    match refusal {
        Refusal::LineTooLong => write_refused(
            text,
            &[Piece::Number(5), Piece::Text("line-too-long")],
        ),
        Refusal::BadPattern { index, place } => write_refused(
            text,
            &[
                Piece::Number(12),
                Piece::Text("bad-pattern"),
                Piece::Number(*index),
                Piece::Number(*place),
            ],
        ),
        Refusal::NoRoot(root) => write_refused(
            text,
            &[
                Piece::Number(13),
                Piece::Text("no-root"),
                Piece::Text(root.as_str()),
            ],
        ),
        Refusal::EditRefused { path, found } => write_edit_refused(text, path, found),
        Refusal::LogFull(size) => write_refused(
            text,
            &[
                Piece::Number(15),
                Piece::Text("log-full"),
                Piece::Number(*size),
            ],
        ),
        Refusal::BytesFull(bytes) => write_refused(
            text,
            &[
                Piece::Number(16),
                Piece::Text("bytes-full"),
                Piece::Number(*bytes),
            ],
        ),
        Refusal::KeeperFault => write_refused(
            text,
            &[Piece::Number(19), Piece::Text("keeper-fault")],
        ),
        Refusal::NoSession => write_refused(text, &[Piece::Number(20), Piece::Text("no-session")]),
        Refusal::SameRoot => write_refused(text, &[Piece::Number(21), Piece::Text("same-root")]),
        Refusal::TableFull => write_refused(
            text,
            &[
                Piece::Number(22),
                Piece::Text("table-full"),
                Piece::Number(MAX_SESSIONS),
            ],
        ),
        Refusal::NameTaken(identifier) => write_refused(
            text,
            &[
                Piece::Number(23),
                Piece::Text("name-taken"),
                Piece::Id(*identifier),
            ],
        ),
        Refusal::IdTaken(identifier) => write_refused(
            text,
            &[
                Piece::Number(24),
                Piece::Text("id-taken"),
                Piece::Id(*identifier),
            ],
        ),
        Refusal::OldNumber(last) => write_refused(
            text,
            &[
                Piece::Number(25),
                Piece::Text("old-number"),
                Piece::Number(*last),
            ],
        ),
        Refusal::ClientsFull => write_refused(
            text,
            &[
                Piece::Number(26),
                Piece::Text("clients-full"),
                Piece::Number(MAX_CLIENTS),
            ],
        ),
        Refusal::Halted(halt) => write_refused(
            text,
            &[
                Piece::Number(27),
                Piece::Text("halted"),
                Piece::Text(halt_word(*halt)),
            ],
        ),
        Refusal::Paused => write_refused(text, &[Piece::Number(28), Piece::Text("paused")]),
        Refusal::DiceFault => write_refused(text, &[Piece::Number(29), Piece::Text("dice-fault")]),
        Refusal::BadLine(place) => write_refused(
            text,
            &[
                Piece::Number(30),
                Piece::Text("bad-line"),
                Piece::Number(*place),
            ],
        ),
        Refusal::StreamsFull(live) => write_refused(
            text,
            &[
                Piece::Number(32),
                Piece::Text("streams-full"),
                Piece::Number(*live as u64),
            ],
        ),
        Refusal::NoStream => write_refused(text, &[Piece::Number(34), Piece::Text("no-stream")]),
        Refusal::ScriptOnly => write_refused(
            text,
            &[Piece::Number(35), Piece::Text("script-only")],
        ),
        Refusal::OldRun(run) => write_refused(
            text,
            &[
                Piece::Number(36),
                Piece::Text("old-run"),
                Piece::Number(*run as u64),
            ],
        ),
        Refusal::Cut => write_refused(text, &[Piece::Number(37), Piece::Text("cut")]),
        Refusal::WriteClosed => write_refused(
            text,
            &[Piece::Number(38), Piece::Text("write-closed")],
        ),
    }
}

// Writes the line of a refused edit.
fn write_edit_refused(
    text: &mut String,
    path: &Path,
    found: &Option<Atom>,
) -> Result<(), AllocError>
    ensures { OnOk result (string_bytes text.new ≡ string_bytes text.old ++ refusal_line (EditRefused path.now found.now)) }
{
    text.push_str("refused")?;
    write_pieces(
        text,
        &[
            Piece::Number(14),
            Piece::Text("edit-refused"),
            Piece::Place(path),
        ],
    )?;
    write_found(text, found)?;
    end_line(text)
}

// Writes what stands at a path.
fn write_found(text: &mut String, found: &Option<Atom>) -> Result<(), AllocError>
    ensures { OnOk result (string_bytes text.new ≡ string_bytes text.old ++ next_words (found_words found.now)) }
{
    match found {
        Some(atom) => {
            text.push(' ')?;
            write_atom(text, atom)
        }
        None => write_pieces(text, &[Piece::Text("none")]),
    }
}
