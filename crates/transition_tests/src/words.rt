//! Operations, lines and problems as words.
use mode_rules::{AncestorLine, Cause, Problem};
use roots_api::Op;
use std::alloc::Global;
use std::test::Fail;
use sync_path::Path;

fn push_path(alloc: Global, text: &mut String, path: &Path) -> Result<(), Fail> {
    text.push_str(path.write(alloc)?.as_str())?;
    Ok(())
}

/// Writes an operation, with a space before it.
pub fn push_op(alloc: Global, text: &mut String, op: &Op) -> Result<(), Fail> {
    match op {
        Op::Remove { path, .. } => {
            text.push_str(" remove ")?;
            push_path(alloc, text, path)
        }
        Op::MakeDir { path } => {
            text.push_str(" make ")?;
            push_path(alloc, text, path)
        }
        Op::Place { path, .. } => {
            text.push_str(" place ")?;
            push_path(alloc, text, path)
        }
        Op::MakeLink { path, .. } => {
            text.push_str(" link ")?;
            push_path(alloc, text, path)
        }
        Op::SetExec { path, .. } => {
            text.push_str(" exec ")?;
            push_path(alloc, text, path)
        }
        _ => Ok(()),
    }
}

/// Writes a line of the ancestor, with a space before it.
pub fn push_line(alloc: Global, text: &mut String, line: &AncestorLine) -> Result<(), Fail> {
    match line {
        AncestorLine::Set(path, _) => {
            text.push_str(" set ")?;
            push_path(alloc, text, path)
        }
        AncestorLine::Drop(path) => {
            text.push_str(" drop ")?;
            push_path(alloc, text, path)
        }
    }
}

/// Writes a problem, with a space before it.
pub fn push_problem(alloc: Global, text: &mut String, problem: &Problem) -> Result<(), Fail> {
    text.push_str(" ")?;
    push_path(alloc, text, &problem.path)?;
    match &problem.cause {
        Cause::Differs => text.push_str(" differs")?,
        Cause::NotEmpty => text.push_str(" not-empty")?,
        Cause::NoParent => text.push_str(" no-parent")?,
        Cause::NotStaged => text.push_str(" not-staged")?,
        Cause::NoMemory => text.push_str(" no-memory")?,
        Cause::Skipped(path) => {
            text.push_str(" skipped ")?;
            push_path(alloc, text, path)?;
        }
        _ => text.push_str(" other")?,
    }
    Ok(())
}
