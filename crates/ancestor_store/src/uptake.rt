//! What is to be done to a tree that takes up lines in place.
ghost use Rattle.std.specs.Prelude.{◌≡◌, ◌++◌, IfOk, OnOk, Some};
ghost use Rattle.std.specs.FinMap as map;
ghost use Rattle.std.specs.List.{filter_map, flat_map};
ghost use Rattle.std.specs.Option.{option_copied, option_to_list};
ghost use Rattle.entry_tree.specs.Atom.{is_dir};
ghost use Rattle.entry_tree.specs.Tree.{ByPath, IsClosed, entries_below};
ghost use Rattle.entry_tree.specs.declared.atom.Atom.{Atom};
ghost use Rattle.mode_rules.specs.AncestorFold.{with_lines};
ghost use Rattle.ancestor_store.specs.Settling.{IsUptake};
ghost use Rattle.ancestor_store.specs.Uptakes.{add_by, add_line, back_by, back_line, clear_by, clear_lines, gone_by, gone_line, put_by, put_line};

use crate::outcome::outcome;
use entry_tree::{Atom, Tree};
use frame_text::PayloadError;
use mode_rules::AncestorLine;
use sqlite_items::Items;
use std::alloc::{AllocError, Global};
use sync_path::Path;

/// What is to be done to a tree that takes up lines in place, before and behind their append.
#[derive(Drop)]
pub(crate) struct Uptake {
    /// What comes before the append: each path that is to hold something and holds nothing yet, and each folder in place of a leaf.
    pub(crate) adds: Items<AncestorLine>,
    /// What takes these back. Its lines set only what the tree holds something at.
    pub(crate) back: Items<AncestorLine>,
    /// What comes behind the append. Its lines set only what the tree holds something at then.
    pub(crate) rest: Items<AncestorLine>,
}

impl Uptake {
    /// What is to be done to the tree that takes up these lines.
    pub(crate) fn of(
        alloc: Global,
        tree: &Tree,
        lines: &[AncestorLine],
    ) -> Result<Uptake, PayloadError>
        ensures steps { (to : ByPath Atom) → with_lines tree.now lines.now ≡ Some to → IfOk result (IsUptake tree.now to) }
        ensures closed { IsClosed is_dir tree.now }
    {
        let _ = tree.iter();
        let outcome = outcome(alloc, tree, lines)?;
        let adds = adds_of(alloc, tree, &outcome)?;
        let back = back_of(alloc, tree, &outcome)?;
        let rest = rest_of(alloc, tree, &outcome, lines)?;
        Ok(Uptake { adds, back, rest })
    }
}

// Pushes a line, if there is one.
fn push(lines: &mut Items<AncestorLine>, line: Option<AncestorLine>) -> Result<(), AllocError>
    ensures { OnOk result (lines.new ≡ lines.old ++ option_to_list line) }
{
    match line {
        Some(line) => lines.push(line),
        None => Ok(()),
    }
}

// The line that sets a copy of the atom at the path.
fn set_line(alloc: Global, path: &Path, atom: &Atom) -> Result<Option<AncestorLine>, AllocError>
    ensures { IfOk result (λ line. line ≡ Some (AncestorLine.Set path.now atom.now)) }
{
    let atom = atom.copy(alloc)?;
    Ok(Some(AncestorLine::Set(path.copy(alloc)?, atom)))
}

// The line that drops the path.
fn drop_line(alloc: Global, path: &Path) -> Result<Option<AncestorLine>, AllocError>
    ensures { IfOk result (λ line. line ≡ Some (AncestorLine.Drop path.now)) }
{
    Ok(Some(AncestorLine::Drop(path.copy(alloc)?)))
}

// The line before the append that a path needs at which the tree holds this, and is to hold that.
fn add_by(
    alloc: Global,
    held: Option<&Atom>,
    path: &Path,
    atom: &Atom,
) -> Result<Option<AncestorLine>, AllocError>
    ensures { IfOk result (λ line. line ≡ add_by (option_copied held.entry) path.now atom.now) }
{
    match held {
        None => set_line(alloc, path, atom),
        Some(old) => {
            if atom.is_dir() && !old.is_dir() {
                return set_line(alloc, path, atom);
            }
            Ok(None)
        }
    }
}

// The line that takes that line back.
fn back_by(
    alloc: Global,
    held: Option<&Atom>,
    path: &Path,
    atom: &Atom,
) -> Result<Option<AncestorLine>, AllocError>
    ensures { IfOk result (λ line. line ≡ back_by (option_copied held.entry) path.now atom.now) }
{
    match held {
        None => drop_line(alloc, path),
        Some(old) => {
            if atom.is_dir() && !old.is_dir() {
                return set_line(alloc, path, old);
            }
            Ok(None)
        }
    }
}

// The line behind the append that such a path needs.
fn put_by(
    alloc: Global,
    held: Option<&Atom>,
    path: &Path,
    atom: &Atom,
) -> Result<Option<AncestorLine>, AllocError>
    ensures { IfOk result (λ line. line ≡ put_by (option_copied held.entry) path.now atom.now) }
{
    match held {
        None => Ok(None),
        Some(_) => {
            if atom.is_dir() {
                return Ok(None);
            }
            set_line(alloc, path, atom)
        }
    }
}

// All lines before the append.
fn adds_of(alloc: Global, tree: &Tree, outcome: &Tree) -> Result<Items<AncestorLine>, AllocError>
    ensures { IfOk result (λ lines. lines ≡ filter_map (add_line tree.now) (map.entries outcome.now)) }
{
    let mut lines = Items::new(alloc);
    for (path, atom) in outcome.iter() {
        push(&mut lines, add_by(alloc, tree.get(path), path, atom)?)?;
    }
    Ok(lines)
}

// All lines that take these back.
fn back_of(alloc: Global, tree: &Tree, outcome: &Tree) -> Result<Items<AncestorLine>, AllocError>
    ensures { IfOk result (λ lines. lines ≡ filter_map (back_line tree.now) (map.entries outcome.now)) }
{
    let mut lines = Items::new(alloc);
    for (path, atom) in outcome.iter() {
        push(&mut lines, back_by(alloc, tree.get(path), path, atom)?)?;
    }
    Ok(lines)
}

// All lines that put leaves in place of what is held.
fn puts_of(alloc: Global, tree: &Tree, outcome: &Tree) -> Result<Items<AncestorLine>, AllocError>
    ensures { IfOk result (λ lines. lines ≡ filter_map (put_line tree.now) (map.entries outcome.now)) }
{
    let mut lines = Items::new(alloc);
    for (path, atom) in outcome.iter() {
        push(&mut lines, put_by(alloc, tree.get(path), path, atom)?)?;
    }
    Ok(lines)
}

// The line that drops a path at which nothing is to be held.
fn gone_line(alloc: Global, outcome: &Tree, path: &Path) -> Result<Option<AncestorLine>, AllocError>
    ensures { IfOk result (λ line. line ≡ gone_by (map.get outcome.now path.now) path.now) }
{
    match outcome.get(path) {
        Some(_) => Ok(None),
        None => drop_line(alloc, path),
    }
}

// The lines that drop what is to go below a path.
fn gone_below(
    alloc: Global,
    tree: &Tree,
    outcome: &Tree,
    path: &Path,
) -> Result<Items<AncestorLine>, AllocError>
    ensures { IfOk result (λ lines. lines ≡ filter_map (gone_line outcome.now) (entries_below tree.now path.now)) }
{
    let mut lines = Items::new(alloc);
    for (below, _) in tree.below(path) {
        push(&mut lines, gone_line(alloc, outcome, below)?)?;
    }
    Ok(lines)
}

// The same, where a line takes away all below its path.
fn clear_by(
    alloc: Global,
    tree: &Tree,
    outcome: &Tree,
    path: &Path,
    clears: bool,
) -> Result<Items<AncestorLine>, AllocError>
    ensures { IfOk result (λ lines. lines ≡ clear_by tree.now outcome.now path.now clears (map.get outcome.now path.now)) }
{
    match outcome.get(path) {
        None => {
            let mut lines = Items::new(alloc);
            push(&mut lines, drop_line(alloc, path)?)?;
            Ok(lines)
        }
        Some(atom) => {
            if atom.is_dir() && clears {
                return gone_below(alloc, tree, outcome, path);
            }
            Ok(Items::new(alloc))
        }
    }
}

// The lines behind the append that drop what a line takes away.
fn clear_lines(
    alloc: Global,
    tree: &Tree,
    outcome: &Tree,
    line: &AncestorLine,
) -> Result<Items<AncestorLine>, AllocError>
    ensures { IfOk result (λ lines. lines ≡ clear_lines tree.now outcome.now line.now) }
{
    match line {
        AncestorLine::Set(path, atom) => clear_by(alloc, tree, outcome, path, !atom.is_dir()),
        AncestorLine::Drop(path) => clear_by(alloc, tree, outcome, path, true),
    }
}

// All lines behind the append.
fn rest_of(
    alloc: Global,
    tree: &Tree,
    outcome: &Tree,
    lines: &[AncestorLine],
) -> Result<Items<AncestorLine>, AllocError>
    ensures { IfOk result (λ rest. rest ≡ filter_map (put_line tree.now) (map.entries outcome.now) ++ flat_map (clear_lines tree.now outcome.now) lines.now) }
{
    let mut rest = puts_of(alloc, tree, outcome)?;
    for line in lines {
        rest.append(clear_lines(alloc, tree, outcome, line)?)?;
    }
    Ok(rest)
}
