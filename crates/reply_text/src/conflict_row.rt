//! Conflicts, as a reply lists them.
ghost use Rattle.std.specs.Prelude.{◌≡◌, ◌++◌, IfOk, OnOk, map, string_bytes};
ghost use Rattle.std.specs.List.{flat_map};
ghost use Rattle.reply_text.specs.Reports.{conflict_line, conflict_row, reason_word};

use crate::copies::Copied;
use crate::line::write_detail;
use command_words::Piece;
use mode_rules::{Conflict, Reason};
use sqlite_items::Items;
use std::alloc::{AllocError, Global};
use sync_path::Path;

/// A conflict, as a reply lists it.
#[derive(Debug, Drop)]
pub struct ConflictRow {
    /// Where the conflict is.
    pub at: Path,
    /// Why it is one.
    pub reason: Reason,
    /// At how many paths alpha differs from the ancestor.
    pub alpha: u64,
    /// At how many paths beta differs from the ancestor.
    pub beta: u64,
}

impl ConflictRow {
    /// The row of a conflict. Cost: the length of its path.
    pub fn of(alloc: Global, conflict: &Conflict) -> Result<ConflictRow, AllocError>
        ensures { IfOk result (λ row. row ≡ conflict_row conflict.now) }
    {
        Ok(ConflictRow {
            at: conflict.at.copy(alloc)?,
            reason: conflict.reason,
            alpha: conflict.alpha.len() as u64,
            beta: conflict.beta.len() as u64,
        })
    }

    /// An equal row. Cost: the length of its path.
    pub fn copy(&self, alloc: Global) -> Result<ConflictRow, AllocError>
        ensures { IfOk result (λ row. row ≡ self.now) }
    {
        Ok(ConflictRow {
            at: self.at.copy(alloc)?,
            reason: self.reason,
            alpha: self.alpha,
            beta: self.beta,
        })
    }
}

impl Copied for ConflictRow {
    fn copied(&self, alloc: Global) -> Result<ConflictRow, AllocError> {
        self.copy(alloc)
    }
}

/// The rows of conflicts. Cost: the lengths of their paths.
pub(crate) fn conflict_rows(
    alloc: Global,
    conflicts: &[Conflict],
) -> Result<Items<ConflictRow>, AllocError>
    ensures { IfOk result (λ rows. rows ≡ map conflict_row conflicts.now) }
{
    let mut rows = Items::new(alloc);
    for conflict in conflicts {
        rows.push(ConflictRow::of(alloc, conflict)?)?;
    }
    Ok(rows)
}

/// Writes the lines of conflicts behind a text. Cost: their lengths.
pub(crate) fn write_conflicts(
    text: &mut String,
    conflicts: &[ConflictRow],
) -> Result<(), AllocError>
    ensures { OnOk result (string_bytes text.new ≡ string_bytes text.old ++ flat_map conflict_line conflicts.now) }
{
    for conflict in conflicts {
        write_conflict(text, conflict)?;
    }
    Ok(())
}

// Writes the line of a conflict.
#[tactic(auto, unfolding(crate::specs::Reports::conflict_line))]
fn write_conflict(text: &mut String, conflict: &ConflictRow) -> Result<(), AllocError>
    ensures { OnOk result (string_bytes text.new ≡ string_bytes text.old ++ conflict_line conflict.now) }
{
    write_detail(
        text,
        &[
            Piece::Text("conflict"),
            Piece::Place(&conflict.at),
            Piece::Text(reason_word(conflict.reason)),
            Piece::Text("alpha"),
            Piece::Number(conflict.alpha),
            Piece::Text("beta"),
            Piece::Number(conflict.beta),
        ],
    )
}

// The word of a conflict's reason.
fn reason_word(reason: Reason) -> &'static str
    ensures { result.now ≡ reason_word reason }
{
    match reason {
        Reason::Both => "both",
        Reason::Blocked => "blocked",
    }
}
