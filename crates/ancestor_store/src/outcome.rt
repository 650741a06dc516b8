//! What a tree comes to hold at the paths of lines.
ghost use Rattle.std.specs.Prelude.{◌≡◌, IfOk, OnOk};
ghost use Rattle.entry_tree.specs.Tree.{ByPath};
ghost use Rattle.entry_tree.specs.declared.atom.Atom.{Atom};
ghost use Rattle.ancestor_store.specs.Settling.{IsOutcome, IsPart};

use crate::fold::take_lines;
use entry_tree::Tree;
use frame_text::PayloadError;
use mode_rules::AncestorLine;
use std::alloc::{AllocError, Global};
use sync_path::Path;

/// A small tree that holds, at the paths of the lines and above them, what the tree comes to hold there.
///
/// Cost: O(log n) comparisons of paths for each line, and for each folder above its path that no line before had.
pub(crate) fn outcome(
    alloc: Global,
    tree: &Tree,
    lines: &[AncestorLine],
) -> Result<Tree, PayloadError>
    ensures { IfOk result (IsOutcome tree.now lines.now) }
{
    let mut part = part_of(alloc, tree, lines)?;
    match take_lines(alloc, &mut part, lines) {
        Ok(()) => Ok(part),
        Err(error) => Err(error),
    }
}

// What the tree holds at the paths of the lines and above them.
fn part_of(alloc: Global, tree: &Tree, lines: &[AncestorLine]) -> Result<Tree, AllocError>
    ensures { IfOk result (λ part. IsPart part tree.now) }
{
    let mut part = Tree::new(alloc);
    for line in lines {
        copy_above(alloc, tree, &mut part, path_of(line))?;
    }
    Ok(part)
}

// The path of a line.
fn path_of(line: &AncestorLine) -> &Path {
    match line {
        AncestorLine::Set(path, _) => path,
        AncestorLine::Drop(path) => path,
    }
}

// Copies into a part of a tree what the tree holds at a path and above it.
fn copy_above(alloc: Global, tree: &Tree, part: &mut Tree, path: &Path) -> Result<(), AllocError>
    ensures { IsPart part.old tree.now → OnOk result (IsPart part.new tree.now) }
{
    let mut missing = missing_above(alloc, part, path)?;
    while let Some(path) = missing.pop() {
        copy_at(alloc, tree, part, &path)?;
    }
    Ok(())
}

// The path and those above it, the lowest first, up to one at which the part holds something.
fn missing_above(alloc: Global, part: &Tree, path: &Path) -> Result<Vec<Path>, AllocError> {
    let mut missing = Vec::new(alloc);
    let mut next = Some(path.copy(alloc)?);
    for _ in 0..=path.depth() {
        match next {
            None => break,
            Some(at) => {
                if part.get(&at).is_some() {
                    break;
                }
                next = at.parent(alloc)?;
                missing.push(at)?;
            }
        }
    }
    Ok(missing)
}

// Copies into a part of a tree what the tree holds at a path. It fails only for want of memory: what stands above the path was copied before.
fn copy_at(alloc: Global, tree: &Tree, part: &mut Tree, path: &Path) -> Result<(), AllocError>
    ensures { IsPart part.old tree.now → IsPart part.new tree.now }
{
    let Some(atom) = tree.get(path) else {
        return Ok(());
    };
    match part.set(alloc, path, atom.copy(alloc)?) {
        Ok(()) => Ok(()),
        Err(_) => Err(AllocError),
    }
}
