//! Operations and problems as words.
use mode_rules::{Cause, Problem};
use roots_api::Op;
use std::alloc::Global;
use std::test::Fail;
use sync_path::Path;

fn push_path(alloc: Global, text: &mut String, path: &Path) -> Result<(), Fail> {
    text.push_str(path.write(alloc)?.as_str())?;
    Ok(())
}

fn push_number(alloc: Global, text: &mut String, number: u64) -> Result<(), Fail> {
    text.push_str(format!(in alloc; " {}", number)?.as_str())?;
    Ok(())
}

/// Writes an operation, with a space before it.
pub fn push_op(alloc: Global, text: &mut String, op: &Op) -> Result<(), Fail> {
    match op {
        Op::StageClear => text.push_str(" clear")?,
        Op::StageOpen => text.push_str(" open")?,
        Op::Fetch { path, offset, .. } => {
            text.push_str(" fetch ")?;
            push_path(alloc, text, path)?;
            push_number(alloc, text, *offset)?;
        }
        Op::StageAppend { bytes } => {
            text.push_str(" append")?;
            push_number(alloc, text, bytes.len() as u64)?;
        }
        Op::StageKeep { .. } => text.push_str(" keep")?,
        _ => text.push_str(" other")?,
    }
    Ok(())
}

/// Writes a problem, with a space before it.
pub fn push_problem(alloc: Global, text: &mut String, problem: &Problem) -> Result<(), Fail> {
    text.push_str(" ")?;
    push_path(alloc, text, &problem.path)?;
    match &problem.cause {
        Cause::Changed => text.push_str(" changed")?,
        Cause::Failed => text.push_str(" failed")?,
        _ => text.push_str(" other")?,
    }
    Ok(())
}
