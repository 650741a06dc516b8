//! The rows of `forward list`.
ghost use Rattle.std.specs.Prelude.{◌≡◌, ◌++◌, IfOk, OnOk, string_bytes};
ghost use Rattle.std.specs.List.{flat_map};
ghost use Rattle.reply_text.specs.Rows.{forward_line, forward_state_word};

use crate::copies::{Copied, copied_name};
use crate::line::write_detail;
use crate::sync_row::name_word;
use command_words::{Endpoint, GivenName, Identifier, Piece};
use std::alloc::{AllocError, Global};

/// The state of a forwarding session.
#[derive(Clone, Copy, Debug, PartialEq, Eq)]
pub enum ForwardState {
    /// It isn't paused.
    Running,
    /// It is paused.
    Paused,
}

/// A forwarding session, as `forward list` lists it.
#[derive(Debug, Drop)]
pub struct ForwardRow {
    pub identifier: Identifier,
    pub name: Option<GivenName>,
    pub source: Endpoint,
    pub dest: Endpoint,
    pub state: ForwardState,
}

impl ForwardRow {
    /// An equal row. Cost: its length.
    pub fn copy(&self, alloc: Global) -> Result<ForwardRow, AllocError>
        ensures { IfOk result (λ row. row ≡ self.now) }
    {
        Ok(ForwardRow {
            identifier: self.identifier,
            name: copied_name(alloc, &self.name)?,
            source: self.source.copy(alloc)?,
            dest: self.dest.copy(alloc)?,
            state: self.state,
        })
    }
}

impl Copied for ForwardRow {
    fn copied(&self, alloc: Global) -> Result<ForwardRow, AllocError> {
        self.copy(alloc)
    }
}

/// Writes the lines of forwarding sessions behind a text. Cost: their lengths.
pub(crate) fn write_forward_rows(text: &mut String, rows: &[ForwardRow]) -> Result<(), AllocError>
    ensures { OnOk result (string_bytes text.new ≡ string_bytes text.old ++ flat_map forward_line rows.now) }
{
    for row in rows {
        write_forward_row(text, row)?;
    }
    Ok(())
}

// Writes the line of a forwarding session.
#[tactic(auto, unfolding(crate::specs::Rows::forward_line))]
fn write_forward_row(text: &mut String, row: &ForwardRow) -> Result<(), AllocError>
    ensures { OnOk result (string_bytes text.new ≡ string_bytes text.old ++ forward_line row.now) }
{
    write_detail(
        text,
        &[
            Piece::Id(row.identifier),
            Piece::Text(name_word(&row.name)),
            Piece::Text(row.source.as_str()),
            Piece::Text(row.dest.as_str()),
            Piece::Text(forward_state_word(row.state)),
        ],
    )
}

// The word of a forwarding session's state.
fn forward_state_word(state: ForwardState) -> &'static str
    ensures { result.now ≡ forward_state_word state }
{
    match state {
        ForwardState::Running => "running",
        ForwardState::Paused => "paused",
    }
}
