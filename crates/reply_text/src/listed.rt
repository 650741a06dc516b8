//! The entries that a reply lists.
ghost use Rattle.std.specs.Prelude.{◌≡◌, ◌++◌, IfOk, OnOk, string_bytes};
ghost use Rattle.std.specs.List.{flat_map};
ghost use Rattle.reply_text.specs.Listed.{listed_line};

use crate::copies::Copied;
use crate::line::end_line;
use command_words::{Piece, write_pieces};
use entry_tree::{Atom, write_atom};
use std::alloc::{AllocError, Global};
use sync_path::Path;

/// An entry of a root or of an ancestor. Something that no session tracks is `Atom::Untracked`.
#[derive(Debug, Drop)]
pub struct Listed {
    /// Where it stands.
    pub path: Path,
    /// What it is.
    pub atom: Atom,
}

impl Listed {
    /// An equal entry. Cost: its length.
    pub fn copy(&self, alloc: Global) -> Result<Listed, AllocError>
        ensures { IfOk result (λ listed. listed ≡ self.now) }
    {
        Ok(Listed {
            path: self.path.copy(alloc)?,
            atom: self.atom.copy(alloc)?,
        })
    }
}

impl Copied for Listed {
    fn copied(&self, alloc: Global) -> Result<Listed, AllocError> {
        self.copy(alloc)
    }
}

/// Writes the lines of entries behind a text. Cost: their lengths.
pub(crate) fn write_listed(text: &mut String, entries: &[Listed]) -> Result<(), AllocError>
    ensures { OnOk result (string_bytes text.new ≡ string_bytes text.old ++ flat_map listed_line entries.now) }
{
    for listed in entries {
        write_entry(text, listed)?;
    }
    Ok(())
}

// Writes the line of an entry.
#[tactic(auto, unfolding(crate::specs::Listed::listed_line))]
fn write_entry(text: &mut String, listed: &Listed) -> Result<(), AllocError>
    ensures { OnOk result (string_bytes text.new ≡ string_bytes text.old ++ listed_line listed.now) }
{
    text.push(' ')?;
    write_pieces(text, &[Piece::Place(&listed.path)])?;
    text.push(' ')?;
    write_atom(text, &listed.atom)?;
    end_line(text)
}
