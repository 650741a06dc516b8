//! The steps of a change.
ghost use Rattle.std.specs.Prelude.{◌≡◌, ◌++◌, ℕ, List, reverse, Option, IfOk, OnOk, Some, None};
ghost use Rattle.std.specs.FinMap as map;
ghost use Rattle.std.specs.List.{filter_map};
ghost use Rattle.std.specs.Option.{option_copied, option_to_list};
ghost use Rattle.transition_plan.specs.Stepping.{entry_of, leaf_of, removed, removal, creation, bit_set, bit_change, leaf_change, is_leaf, replaces_leaf, whole_steps, steps_of};

use crate::step::Step;
use entry_tree::{Atom, Digest, Entry};
use mode_rules::{AncestorLine, Change};
use roots_api::{FileEntry, Leaf, Op, Stamps, Tracked};
use std::alloc::{AllocError, Global};
use sync_path::Path;

/// The steps of the change, in order.
pub(crate) fn steps_of(
    alloc: Global,
    change: &Change,
    stamps: &Stamps,
) -> Result<Vec<Step>, AllocError>
    ensures { IfOk result (λ steps. steps.items ≡ steps_of stamps.now change.now) }
{
    let path = &change.at;
    if change.sets_bit_alone() {
        let step = bit_change(
            alloc,
            stamps,
            path,
            change.old.get(path),
            change.new.get(path),
        )?;
        return listed(alloc, step);
    }
    if replaces_leaf(change) {
        let step = leaf_change(
            alloc,
            stamps,
            path,
            change.old.get(path),
            change.new.get(path),
        )?;
        return listed(alloc, step);
    }
    whole_steps(alloc, change, stamps)
}

// The step alone, or none.
fn listed(alloc: Global, step: Option<Step>) -> Result<Vec<Step>, AllocError>
    ensures { IfOk result (λ steps. steps.items ≡ option_to_list step) }
{
    let mut steps = Vec::new(alloc);
    if let Some(step) = step {
        steps.push(step)?;
    }
    Ok(steps)
}

// Whether a file or a link replaces one.
fn replaces_leaf(change: &Change) -> bool
    ensures { result ≡ replaces_leaf change.now }
{
    is_leaf(change.old.get(&change.at)) && is_leaf(change.new.get(&change.at))
}

// Whether a file or a link is there.
fn is_leaf(atom: Option<&Atom>) -> bool
    ensures { result ≡ is_leaf (option_copied atom.entry) }
{
    match atom {
        Some(Atom::File(_, _)) => true,
        Some(Atom::Link(_)) => true,
        _ => false,
    }
}

// All removals, and then all creations.
fn whole_steps(alloc: Global, change: &Change, stamps: &Stamps) -> Result<Vec<Step>, AllocError>
    ensures { IfOk result (λ steps. steps.items ≡ whole_steps stamps.now change.now) }
{
    let mut steps = removals(alloc, stamps, change.old.entries())?;
    steps.as_mut_slice().reverse();
    let mut creations = creations(alloc, change.new.entries())?;
    steps.append(&mut creations)?;
    Ok(steps)
}

// The steps that take away these entries, in the order of the entries.
fn removals(
    alloc: Global,
    stamps: &Stamps,
    entries: &[(Path, Atom)],
) -> Result<Vec<Step>, AllocError>
    ensures { IfOk result (λ steps. steps.items ≡ filter_map (removal stamps.now) entries.now) }
{
    let mut steps = Vec::new(alloc);
    for (path, atom) in entries {
        if let Some(step) = removal(alloc, stamps, path, atom)? {
            steps.push(step)?;
        }
    }
    Ok(steps)
}

// The steps that make these entries.
fn creations(alloc: Global, entries: &[(Path, Atom)]) -> Result<Vec<Step>, AllocError>
    ensures { IfOk result (λ steps. steps.items ≡ filter_map (creation None) entries.now) }
{
    let mut steps = Vec::new(alloc);
    for (path, atom) in entries {
        if let Some(step) = creation(alloc, None, path, atom)? {
            steps.push(step)?;
        }
    }
    Ok(steps)
}

// The entry that is expected where the atom is seen.
fn entry_of(
    alloc: Global,
    stamps: &Stamps,
    path: &Path,
    atom: &Atom,
) -> Result<Option<Tracked>, AllocError>
    ensures { IfOk result (λ entry. entry ≡ entry_of stamps.now path.now atom.now) }
{
    match atom {
        Atom::Dir => Ok(Tracked::of(Entry::Dir)),
        Atom::File(_, executable) => match stamps.get(path) {
            Some(stamp) => Ok(Tracked::of(Entry::File(stamp, *executable))),
            None => Ok(None),
        },
        Atom::Link(text) => match text.copy(alloc) {
            Ok(text) => Ok(Tracked::of(Entry::Link(text))),
            Err(error) => Err(error),
        },
        Atom::Untracked => Ok(None),
        Atom::Problem(_) => Ok(None),
    }
}

// The file or link that is expected where the atom is seen.
fn leaf_of(
    alloc: Global,
    stamps: &Stamps,
    path: &Path,
    atom: &Atom,
) -> Result<Option<Leaf>, AllocError>
    ensures { IfOk result (λ entry. entry ≡ leaf_of stamps.now path.now atom.now) }
{
    match atom {
        Atom::File(_, executable) => match stamps.get(path) {
            Some(stamp) => Ok(Leaf::of(Entry::File(stamp, *executable))),
            None => Ok(None),
        },
        Atom::Link(text) => match text.copy(alloc) {
            Ok(text) => Ok(Leaf::of(Entry::Link(text))),
            Err(error) => Err(error),
        },
        Atom::Dir => Ok(None),
        Atom::Untracked => Ok(None),
        Atom::Problem(_) => Ok(None),
    }
}

// The step that takes away the entry.
fn removed(alloc: Global, path: &Path, expected: Tracked) -> Result<Step, AllocError>
    ensures { IfOk result (λ step. step ≡ removed path.now expected) }
{
    let line = AncestorLine::Drop(path.copy(alloc)?);
    let path = path.copy(alloc)?;
    Ok(Step {
        op: Op::Remove { path, expected },
        line,
    })
}

// The step that takes away what is seen at the path.
fn removal(
    alloc: Global,
    stamps: &Stamps,
    path: &Path,
    atom: &Atom,
) -> Result<Option<Step>, AllocError>
    ensures { IfOk result (λ step. step ≡ removal stamps.now (path.now, atom.now)) }
{
    match entry_of(alloc, stamps, path, atom)? {
        Some(expected) => match removed(alloc, path, expected) {
            Ok(step) => Ok(Some(step)),
            Err(error) => Err(error),
        },
        None => Ok(None),
    }
}

// The step that makes the atom at the path.
fn creation(
    alloc: Global,
    expected: Option<Leaf>,
    path: &Path,
    atom: &Atom,
) -> Result<Option<Step>, AllocError>
    ensures { IfOk result (λ step. step ≡ creation expected (path.now, atom.now)) }
{
    let at = path.copy(alloc)?;
    let path = path.copy(alloc)?;
    match atom {
        Atom::Dir => Ok(Some(Step {
            op: Op::MakeDir { path },
            line: AncestorLine::Set(at, Atom::Dir),
        })),
        Atom::File(digest, executable) => Ok(Some(Step {
            op: Op::Place {
                path,
                digest: *digest,
                exec: *executable,
                expected,
            },
            line: AncestorLine::Set(at, Atom::File(*digest, *executable)),
        })),
        Atom::Link(text) => {
            let line = AncestorLine::Set(at, Atom::Link(text.copy(alloc)?));
            let text = text.copy(alloc)?;
            Ok(Some(Step {
                op: Op::MakeLink {
                    path,
                    text,
                    expected,
                },
                line,
            }))
        }
        Atom::Untracked => Ok(None),
        Atom::Problem(_) => Ok(None),
    }
}

// The step that sets the executable bit of the file.
fn bit_set(
    alloc: Global,
    path: &Path,
    digest: Digest,
    on: bool,
    expected: FileEntry,
) -> Result<Step, AllocError>
    ensures { IfOk result (λ step. step ≡ bit_set path.now digest on expected) }
{
    let line = AncestorLine::Set(path.copy(alloc)?, Atom::File(digest, on));
    let path = path.copy(alloc)?;
    Ok(Step {
        op: Op::SetExec { path, expected, on },
        line,
    })
}

// The step that makes one file of another with the same content.
fn bit_change(
    alloc: Global,
    stamps: &Stamps,
    path: &Path,
    old: Option<&Atom>,
    new: Option<&Atom>,
) -> Result<Option<Step>, AllocError>
    ensures { IfOk result (λ step. step ≡ bit_change stamps.now path.now (option_copied old.entry) (option_copied new.entry)) }
{
    match (old, new) {
        (Some(Atom::File(_, was)), Some(Atom::File(digest, on))) => match stamps.get(path) {
            Some(stamp) => {
                match bit_set(alloc, path, *digest, *on, FileEntry::new(stamp, *was)) {
                    Ok(step) => Ok(Some(step)),
                    Err(error) => Err(error),
                }
            }
            None => Ok(None),
        },
        _ => Ok(None),
    }
}

// The step that replaces a file or a link by another.
fn leaf_change(
    alloc: Global,
    stamps: &Stamps,
    path: &Path,
    old: Option<&Atom>,
    new: Option<&Atom>,
) -> Result<Option<Step>, AllocError>
    ensures { IfOk result (λ step. step ≡ leaf_change stamps.now path.now (option_copied old.entry) (option_copied new.entry)) }
{
    match (old, new) {
        (Some(old), Some(new)) => match leaf_of(alloc, stamps, path, old)? {
            Some(expected) => creation(alloc, Some(expected), path, new),
            None => Ok(None),
        },
        _ => Ok(None),
    }
}
