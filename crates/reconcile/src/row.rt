//! A path with what three trees hold there.
ghost use Rattle.std.specs.Prelude.{◌≡◌};
ghost use Rattle.std.specs.Option.{option_copied};
ghost use Rattle.reconcile.specs.Rows.{nothing, with_part, on_side};
ghost use Rattle.reconcile.specs.Runs.{is_same_row, is_less_row};

use crate::part::Part;
use entry_tree::{Atom, Side};
use mode_rules::{compared, is_same};
use std::marker::Model;
use sync_path::Path;

/// A path, and what the ancestor, alpha and beta hold there, all lent by the trees. Contracts see the path and the three atoms.
#[derive(Drop)]
pub(crate) struct PathRow<'a> {
    path: &'a Path,
    ancestor: Option<&'a Atom>,
    alpha: Option<&'a Atom>,
    beta: Option<&'a Atom>,
}

impl<'a> Model for PathRow<'a> {
    ghost use Rattle.std.specs.Option.{option_copied};
    ghost use Rattle.reconcile.specs.Rows.{PathThree, row_code};

    ghost Value = { PathThree };

    ghost coded = { row_code };

    ghost view = { λ row. (row.path.now, record { ancestor = option_copied row.ancestor; alpha = option_copied row.alpha; beta = option_copied row.beta }) };
}

impl<'a> PathRow<'a> {
    /// A path at which nothing is known to stand. It takes no memory.
    pub(crate) fn new(path: &'a Path) -> PathRow<'a>
        ensures { result ≡ (path.now, nothing) }
    {
        PathRow {
            path,
            ancestor: None,
            alpha: None,
            beta: None,
        }
    }

    /// The same path and atoms. It takes no memory.
    pub(crate) fn copied(&self) -> PathRow<'a>
        ensures { result ≡ self.now }
    {
        PathRow {
            path: self.path,
            ancestor: self.ancestor,
            alpha: self.alpha,
            beta: self.beta,
        }
    }

    /// The same atoms at another path. It takes no memory.
    pub(crate) fn moved_to(&self, path: &'a Path) -> PathRow<'a>
        ensures { result ≡ (path.now, self.now.1) }
    {
        PathRow {
            path,
            ancestor: self.ancestor,
            alpha: self.alpha,
            beta: self.beta,
        }
    }

    /// The same, with what one of the trees holds. It takes no memory.
    pub(crate) fn with(&self, part: Part, atom: &'a Atom) -> PathRow<'a>
        ensures { result ≡ (self.now.0, with_part part self.now.1 atom.now) }
    {
        match part {
            Part::Ancestor => PathRow {
                path: self.path,
                ancestor: Some(atom),
                alpha: self.alpha,
                beta: self.beta,
            },
            Part::Alpha => PathRow {
                path: self.path,
                ancestor: self.ancestor,
                alpha: Some(atom),
                beta: self.beta,
            },
            Part::Beta => PathRow {
                path: self.path,
                ancestor: self.ancestor,
                alpha: self.alpha,
                beta: Some(atom),
            },
        }
    }

    /// The path. It takes no memory.
    pub(crate) fn path(&self) -> &'a Path
        ensures { result.now ≡ self.now.0 }
    {
        self.path
    }

    /// What the ancestor holds there. It takes no memory.
    pub(crate) fn ancestor(&self) -> Option<&'a Atom>
        ensures { option_copied result ≡ self.now.1.ancestor }
    {
        self.ancestor
    }

    /// What a side holds there. It takes no memory.
    pub(crate) fn on_side(&self, side: Side) -> Option<&'a Atom>
        ensures { option_copied result ≡ on_side self.now.1 side }
    {
        match side {
            Side::Alpha => self.alpha,
            Side::Beta => self.beta,
        }
    }

    /// Whether the side is as the ancestor there. It takes no memory.
    pub(crate) fn is_same(&self, side: Side) -> bool
        ensures { result ≡ is_same_row side self.now }
    {
        is_same(compared(self.on_side(side)), self.ancestor())
    }

    /// Whether the side holds nothing there, or what the ancestor holds. It takes no memory.
    pub(crate) fn is_less(&self, side: Side) -> bool
        ensures { result ≡ is_less_row side self.now }
    {
        is_same(compared(self.on_side(side)), None) || self.is_same(side)
    }
}
