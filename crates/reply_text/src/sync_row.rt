//! The rows of `sync list`.
ghost use Rattle.std.specs.Prelude.{◌≡◌, ◌++◌, IfOk, OnOk, string_bytes};
ghost use Rattle.std.specs.List.{flat_map};
ghost use Rattle.command_words.specs.Piece.{next_words};
ghost use Rattle.reply_text.specs.Rows.{count_words, label_words, labels_words, name_word, state_words, sync_line, what_words};

use crate::copies::{Copied, copied_name};
use crate::line::{begin_detail, end_line};
use command_words::{
    GivenName, Identifier, Label, Labels, Piece, RootName, halt_word, mode_word, write_pieces,
};
use mode_rules::{Halt, Mode};
use std::alloc::{AllocError, Global};

/// The state of a synchronisation session: the first of these that holds.
#[derive(Clone, Copy, Debug, PartialEq, Eq)]
pub enum SyncState {
    /// It is halted.
    Halted(Halt),
    /// It is paused.
    Paused,
    /// A cycle is in course.
    Cycling,
    /// A cycle is wanted.
    Due,
    /// None of these.
    Resting,
}

/// A synchronisation session, as `sync list` lists it.
#[derive(Debug, Drop)]
pub struct SyncRow {
    pub identifier: Identifier,
    pub name: Option<GivenName>,
    pub mode: Mode,
    pub alpha: RootName,
    pub beta: RootName,
    pub state: SyncState,
    /// How many cycles have finished.
    pub cycles: u64,
    /// How many conflicts the last report has, or 0.
    pub conflicts: u64,
    /// How many problems the last report has, or 0.
    pub problems: u64,
    pub labels: Labels,
}

impl SyncRow {
    /// An equal row. Cost: its length.
    pub fn copy(&self, alloc: Global) -> Result<SyncRow, AllocError>
        ensures { IfOk result (λ row. row ≡ self.now) }
    {
        Ok(SyncRow {
            identifier: self.identifier,
            name: copied_name(alloc, &self.name)?,
            mode: self.mode,
            alpha: self.alpha.copy(alloc)?,
            beta: self.beta.copy(alloc)?,
            state: self.state,
            cycles: self.cycles,
            conflicts: self.conflicts,
            problems: self.problems,
            labels: self.labels.copy(alloc)?,
        })
    }
}

impl Copied for SyncRow {
    fn copied(&self, alloc: Global) -> Result<SyncRow, AllocError> {
        self.copy(alloc)
    }
}

/// Writes the lines of sessions behind a text. Cost: their lengths.
pub(crate) fn write_sync_rows(text: &mut String, rows: &[SyncRow]) -> Result<(), AllocError>
    ensures { OnOk result (string_bytes text.new ≡ string_bytes text.old ++ flat_map sync_line rows.now) }
{
    for row in rows {
        write_sync_row(text, row)?;
    }
    Ok(())
}

// Writes the line of a session.
fn write_sync_row(text: &mut String, row: &SyncRow) -> Result<(), AllocError>
    ensures { OnOk result (string_bytes text.new ≡ string_bytes text.old ++ sync_line row.now) }
{
    begin_detail(text)?;
    write_what(text, row)?;
    write_state(text, row.state)?;
    write_counts(text, row)?;
    write_labels(text, row.labels.as_slice())?;
    end_line(text)
}

// Writes what the session is.
fn write_what(text: &mut String, row: &SyncRow) -> Result<(), AllocError>
    ensures { OnOk result (string_bytes text.new ≡ string_bytes text.old ++ next_words (what_words row.now)) }
{
    write_pieces(
        text,
        &[
            Piece::Id(row.identifier),
            Piece::Text(name_word(&row.name)),
            Piece::Text(mode_word(row.mode)),
            Piece::Text(row.alpha.as_str()),
            Piece::Text(row.beta.as_str()),
        ],
    )
}

// Writes how many cycles, conflicts and problems there are.
fn write_counts(text: &mut String, row: &SyncRow) -> Result<(), AllocError>
    ensures { OnOk result (string_bytes text.new ≡ string_bytes text.old ++ next_words (count_words row.now)) }
{
    write_pieces(
        text,
        &[
            Piece::Text("cycles"),
            Piece::Number(row.cycles),
            Piece::Text("conflicts"),
            Piece::Number(row.conflicts),
            Piece::Text("problems"),
            Piece::Number(row.problems),
        ],
    )
}

/// The word of a session's name. It takes no memory.
pub(crate) fn name_word(name: &Option<GivenName>) -> &str
    ensures { result.now ≡ name_word name.now }
{
    match name {
        Some(name) => name.as_str(),
        None => "-",
    }
}

// Writes the state of a session.
fn write_state(text: &mut String, state: SyncState) -> Result<(), AllocError>
    ensures { OnOk result (string_bytes text.new ≡ string_bytes text.old ++ next_words (state_words state)) }
{
    match state {
        SyncState::Halted(halt) => {
            write_pieces(text, &[Piece::Text("halted"), Piece::Text(halt_word(halt))])
        }
        SyncState::Paused => write_pieces(text, &[Piece::Text("paused")]),
        SyncState::Cycling => write_pieces(text, &[Piece::Text("cycling")]),
        SyncState::Due => write_pieces(text, &[Piece::Text("due")]),
        SyncState::Resting => write_pieces(text, &[Piece::Text("resting")]),
    }
}

// Writes the labels of a session.
fn write_labels(text: &mut String, labels: &[Label]) -> Result<(), AllocError>
    ensures { OnOk result (string_bytes text.new ≡ string_bytes text.old ++ next_words (labels_words labels.now)) }
{
    for label in labels {
        write_label_words(text, label)?;
    }
    Ok(())
}

// Writes the words of a label.
fn write_label_words(text: &mut String, label: &Label) -> Result<(), AllocError>
    ensures { OnOk result (string_bytes text.new ≡ string_bytes text.old ++ next_words (label_words label.now)) }
{
    write_pieces(text, &[Piece::Text("label"), Piece::Labelled(label)])
}
