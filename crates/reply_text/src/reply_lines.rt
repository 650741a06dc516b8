//! The lines of a reply.
ghost use Rattle.std.specs.Prelude.{◌≡◌, ◌++◌, ◌∷◌, [], IfOk, OnOk, string_bytes};
ghost use Rattle.std.specs.Fmt.{decimal};
ghost use Rattle.command_words.specs.Identifier.{identifier_word};
ghost use Rattle.command_words.specs.Keywords.{phase_word};
ghost use Rattle.reply_text.specs.Lines.{ok_line};
ghost use Rattle.reply_text.specs.Replies.{reply_bytes, rows_of_report};
ghost use Rattle.reply_text.specs.Reports.{report_words};
ghost use Rattle.reply_text.specs.declared.reply.Reply.TheVariants.{Ancestor, ForwardList, Shown, SyncList};

use crate::forward_row::{ForwardRow, write_forward_rows};
use crate::line::write_ok;
use crate::listed::{Listed, write_listed};
use crate::refusal_line::write_refusal;
use crate::reply::Reply;
use crate::report_rows::{ReportRows, write_report};
use crate::stream_read::write_read;
use crate::sync_row::{SyncRow, write_sync_rows};
use command_words::{Identifier, Piece, RootName, phase_word, write_pieces};
use mode_rules::Phase;
use std::alloc::{AllocError, Global};

/// Writes a reply: its first line, and behind it the lines of detail, each with the LF that ends it.
///
/// Each reply has one spelling. Cost: its length, and the memory of one text; nothing is written twice.
pub fn write_reply(alloc: Global, reply: &Reply) -> Result<String, AllocError>
    ensures { IfOk result (λ text. string_bytes text ≡ reply_bytes reply.now) }
{
    let mut text = String::new(alloc);
    push_reply(&mut text, reply)?;
    Ok(text)
}

// Writes a reply behind a text, as `write_reply` does.
fn push_reply(text: &mut String, reply: &Reply) -> Result<(), AllocError>
    ensures { OnOk result (string_bytes text.new ≡ string_bytes text.old ++ reply_bytes reply.now) }
{
    match reply {
        Reply::Edited => write_ok(text, &[Piece::Text("edit")]),
        Reply::Shown { root, entries } => write_shown(text, root, entries.as_slice()),
        Reply::Ancestor {
            identifier,
            entries,
        } => write_ancestor(text, *identifier, entries.as_slice()),
        Reply::Stepped(phase) => write_phase(text, "step", *phase),
        Reply::Reached(phase) => write_phase(text, "until", *phase),
        Reply::Created(identifier) => write_session(text, "create", *identifier),
        Reply::SyncList(rows) => write_sync_list(text, rows.as_slice()),
        Reply::ForwardList(rows) => write_forward_list(text, rows.as_slice()),
        Reply::Awaits { identifier, cycle } => write_ok(
            text,
            &[
                Piece::Text("awaits"),
                Piece::Id(*identifier),
                Piece::Text("cycle"),
                Piece::Number(*cycle),
            ],
        ),
        Reply::Flushed { identifier, report } => {
            write_reported(text, "flush", *identifier, report)
        }
        Reply::Reported { identifier, report } => {
            write_reported(text, "report", *identifier, report)
        }
        Reply::Unreported(identifier) => write_ok(
            text,
            &[
                Piece::Text("report"),
                Piece::Id(*identifier),
                Piece::Text("none"),
            ],
        ),
        Reply::Paused(identifier) => write_session(text, "pause", *identifier),
        Reply::Resumed(identifier) => write_session(text, "resume", *identifier),
        Reply::Reset(identifier) => write_session(text, "reset", *identifier),
        Reply::Terminated(identifier) => write_session(text, "terminate", *identifier),
        Reply::Opened(stream) => write_count(text, "opened", *stream as u64),
        Reply::Wrote(count) => write_count(text, "wrote", *count),
        Reply::Read(read) => write_read(text, read),
        Reply::WriteClosed => write_ok(text, &[Piece::Text("close-write")]),
        Reply::Closed => write_ok(text, &[Piece::Text("close")]),
        Reply::Moved(count) => write_count(text, "moved", *count),
        Reply::Cut => write_ok(text, &[Piece::Text("cut")]),
        Reply::Refused(refusal) => write_refusal(text, refusal),
    }
}

// Writes a line of `ok`, a word and a phase.
fn write_phase(text: &mut String, word: &str, phase: Phase) -> Result<(), AllocError>
    ensures { OnOk result (string_bytes text.new ≡ string_bytes text.old ++ ok_line (word.now ∷ phase_word phase ∷ [])) }
{
    write_ok(text, &[Piece::Text(word), Piece::Text(phase_word(phase))])
}

// Writes a line of `ok`, a word and an identifier.
fn write_session(text: &mut String, word: &str, identifier: Identifier) -> Result<(), AllocError>
    ensures { OnOk result (string_bytes text.new ≡ string_bytes text.old ++ ok_line (word.now ∷ identifier_word identifier ∷ [])) }
{
    write_ok(text, &[Piece::Text(word), Piece::Id(identifier)])
}

// Writes a line of `ok`, a word and a number.
fn write_count(text: &mut String, word: &str, count: u64) -> Result<(), AllocError>
    ensures { OnOk result (string_bytes text.new ≡ string_bytes text.old ++ ok_line (word.now ∷ decimal count ∷ [])) }
{
    write_ok(text, &[Piece::Text(word), Piece::Number(count)])
}

// Writes the entries of a root.
fn write_shown(text: &mut String, root: &RootName, entries: &[Listed]) -> Result<(), AllocError>
    ensures { OnOk result (string_bytes text.new ≡ string_bytes text.old ++ reply_bytes (Shown root.now entries.now)) }
{
    write_ok(
        text,
        &[
            Piece::Text("show"),
            Piece::Text(root.as_str()),
            Piece::Number(entries.len() as u64),
        ],
    )?;
    write_listed(text, entries)
}

// Writes the entries of an ancestor.
fn write_ancestor(
    text: &mut String,
    identifier: Identifier,
    entries: &[Listed],
) -> Result<(), AllocError>
    ensures { OnOk result (string_bytes text.new ≡ string_bytes text.old ++ reply_bytes (Ancestor identifier entries.now)) }
{
    write_ok(
        text,
        &[
            Piece::Text("ancestor"),
            Piece::Id(identifier),
            Piece::Number(entries.len() as u64),
        ],
    )?;
    write_listed(text, entries)
}

// Writes the list of synchronisation sessions.
fn write_sync_list(text: &mut String, rows: &[SyncRow]) -> Result<(), AllocError>
    ensures { OnOk result (string_bytes text.new ≡ string_bytes text.old ++ reply_bytes (SyncList rows.now)) }
{
    write_count(text, "list", rows.len() as u64)?;
    write_sync_rows(text, rows)
}

// Writes the list of forwarding sessions.
fn write_forward_list(text: &mut String, rows: &[ForwardRow]) -> Result<(), AllocError>
    ensures { OnOk result (string_bytes text.new ≡ string_bytes text.old ++ reply_bytes (ForwardList rows.now)) }
{
    write_count(text, "list", rows.len() as u64)?;
    write_forward_rows(text, rows)
}

// Writes a report behind `ok` and the word of a command.
fn write_reported(
    text: &mut String,
    word: &str,
    identifier: Identifier,
    report: &ReportRows,
) -> Result<(), AllocError>
    ensures { OnOk result (string_bytes text.new ≡ string_bytes text.old ++ (ok_line (word.now ∷ report_words identifier report.now) ++ rows_of_report report.now)) }
{
    text.push_str("ok")?;
    write_pieces(text, &[Piece::Text(word)])?;
    write_report(text, identifier, report)
}
