//! How lines are appended and taken up, or neither.
ghost use Rattle.std.specs.Prelude.{◌≡◌, ◌≢◌, ◌≤◌, List, Err, Some, OnOk, OnErr};
ghost use Rattle.std.specs.List.{AllByRecursion};
ghost use Rattle.fault_count.specs.Rose.{Rose};
ghost use Rattle.finite_maps.specs.Told.{WhereTold};
ghost use Rattle.entry_tree.specs.Atom.{is_dir};
ghost use Rattle.entry_tree.specs.Tree.{ByPath, IsClosed};
ghost use Rattle.entry_tree.specs.declared.atom.Atom.{Atom};
ghost use Rattle.frame_text.specs.declared.frame.KeepKey.{KeepKey};
ghost use Rattle.mode_rules.specs.AncestorFold.{with_lines};
ghost use Rattle.ancestor_store.specs.Keeping.{Appends};
ghost use Rattle.ancestor_store.specs.Settling.{IsFront, Places, Settles};
ghost use Rattle.ancestor_store.specs.declared.keeper.KeepError.TheVariants.{Fault};

use crate::keeper::{KeepError, Keeper};
use crate::uptake::Uptake;
use entry_tree::Tree;
use frame_text::{Frame, KeepKey};
use mode_rules::AncestorLine;
use sqlite_items::Items;
use std::alloc::{AllocError, Global};

/// Appends a frame with these lines, and takes them up where that went well; else the tree is as it was.
///
/// Cost: as that of `Ancestor::commit`.
pub(crate) fn commit_lines<K: Keeper>(
    alloc: Global,
    tree: &mut Tree,
    keeper: &mut K,
    key: KeepKey,
    frame: &Frame,
    lines: &[AncestorLine],
) -> Result<(), KeepError>
    ensures taken { (to : ByPath Atom) → with_lines tree.old lines.now ≡ Some to → OnOk result (tree.new ≡ to) }
    ensures refused { (to : ByPath Atom) → with_lines tree.old lines.now ≡ Some to → OnErr result (tree.new ≡ tree.old) }
    ensures frames { WhereTold (K.told keeper.old key) (K.told keeper.new key) (Appends frame.now result) }
    ensures others { (other : KeepKey) → other ≢ key → K.told keeper.new other ≡ K.told keeper.old other }
    ensures counts { K.faults keeper.old ≤ K.faults keeper.new }
    ensures fault { result ≡ Err Fault → Rose (K.faults keeper.old) (K.faults keeper.new) }
    ensures no_fault { result ≢ Err Fault → K.faults keeper.new ≡ K.faults keeper.old }
{
    let Ok(uptake) = Uptake::of(alloc, tree, lines) else {
        return Err(KeepError::Memory);
    };
    let Uptake { adds, back, rest } = uptake;
    if add(alloc, tree, adds.as_slice()).is_err() {
        settle(alloc, tree, back);
        return Err(KeepError::Memory);
    }
    match keeper.append(alloc, key, frame) {
        Ok(()) => {
            settle(alloc, tree, rest);
            Ok(())
        }
        Err(error) => {
            settle(alloc, tree, back);
            Err(error)
        }
    }
}

// Takes up lines, one after another, as far as that goes. Of lines before an append it fails only for want of memory: in path order a path's parent
// comes first.
fn add(alloc: Global, tree: &mut Tree, lines: &[AncestorLine]) -> Result<(), AllocError>
    ensures front { (behind : List AncestorLine) × IsFront lines.now behind tree.old tree.new }
    ensures all { OnOk result (with_lines tree.old lines.now ≡ Some tree.new) }
{
    let mut rest = lines;
    while let Some((line, behind)) = rest.split_first() {
        match line.apply(alloc, tree) {
            Ok(()) => {}
            Err(_) => return Err(AllocError),
        }
        rest = behind;
    }
    Ok(())
}

// Takes up lines that lead to a tree, the last one first. It takes no memory.
fn settle(alloc: Global, tree: &mut Tree, lines: Items<AncestorLine>)
    ensures { (to : ByPath Atom) → IsClosed is_dir to → Settles tree.old to lines → tree.new ≡ to }
{
    let mut lines = lines;
    while let Some(line) = lines.pop() {
        place(alloc, tree, line);
    }
}

// Takes up a line. Where it sets something, the tree holds something there.
fn place(alloc: Global, tree: &mut Tree, line: AncestorLine)
    ensures { Places line tree.old tree.new }
{
    match line {
        AncestorLine::Set(path, atom) => {
            let _ = tree.set(alloc, &path, atom);
        }
        AncestorLine::Drop(path) => tree.remove_under(&path),
    }
}
