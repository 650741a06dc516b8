//! Plans as lines of text.
//!
//! A plan is its halt, then each change with its side, its path and, in brackets, what the side holds and is to hold there,
//! then `set` and `drop` lines, then each conflict with its reason, its path and, in brackets, the paths of
//! alpha and of beta; `_` is a plan of nothing.
use crate::trees::{push_entry, push_path, push_subtree};
use entry_tree::Side;
use mode_rules::{AncestorLine, Change, Conflict, Halt, Mode, Plan, Reason};
use std::alloc::Global;
use std::test::Fail;
use sync_path::Path;

/// The mode of a word.
pub fn mode_of(word: &str) -> Option<Mode> {
    match word {
        "two-way-safe" => Some(Mode::TwoWaySafe),
        "two-way-resolved" => Some(Mode::TwoWayResolved),
        "one-way-safe" => Some(Mode::OneWaySafe),
        "one-way-replica" => Some(Mode::OneWayReplica),
        _ => None,
    }
}

fn push_change(alloc: Global, text: &mut String, change: &Change) -> Result<(), Fail> {
    text.push_str(match change.side {
        Side::Alpha => " alpha ",
        Side::Beta => " beta ",
    })?;
    push_path(alloc, text, &change.at)?;
    text.push_str(" (")?;
    push_subtree(alloc, text, &change.old)?;
    text.push_str(" ;")?;
    push_subtree(alloc, text, &change.new)?;
    text.push_str(" )")?;
    Ok(())
}

fn push_line(alloc: Global, text: &mut String, line: &AncestorLine) -> Result<(), Fail> {
    match line {
        AncestorLine::Set(path, atom) => {
            text.push_str(" set ")?;
            push_entry(alloc, text, path, atom)
        }
        AncestorLine::Drop(path) => {
            text.push_str(" drop ")?;
            push_path(alloc, text, path)
        }
    }
}

fn push_paths(alloc: Global, text: &mut String, paths: &[Path]) -> Result<(), Fail> {
    for path in paths {
        text.push_str(" ")?;
        push_path(alloc, text, path)?;
    }
    Ok(())
}

fn push_conflict(alloc: Global, text: &mut String, conflict: &Conflict) -> Result<(), Fail> {
    text.push_str(match conflict.reason {
        Reason::Both => " both ",
        Reason::Blocked => " blocked ",
    })?;
    push_path(alloc, text, &conflict.at)?;
    text.push_str(" (")?;
    push_paths(alloc, text, conflict.alpha.as_slice())?;
    text.push_str(" ;")?;
    push_paths(alloc, text, conflict.beta.as_slice())?;
    text.push_str(" )")?;
    Ok(())
}

/// The line of a plan, with a bar before it.
pub fn plan_text(alloc: Global, plan: &Plan) -> Result<String, Fail> {
    let mut text = String::new(alloc);
    text.push_str(match plan.halt {
        None => "|",
        Some(Halt::RootDeleted) => "| root-deleted",
        Some(Halt::RootTypeChanged) => "| root-type-changed",
        Some(Halt::RootEmptied) => "| root-emptied",
    })?;
    for change in plan.changes.as_slice() {
        push_change(alloc, &mut text, change)?;
    }
    for line in plan.agreed.as_slice() {
        push_line(alloc, &mut text, line)?;
    }
    for conflict in plan.conflicts.as_slice() {
        push_conflict(alloc, &mut text, conflict)?;
    }
    if text.len() == 1 {
        text.push_str(" _")?;
    }
    Ok(text)
}
