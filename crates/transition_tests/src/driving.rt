//! Changes that are driven against a root in memory, while edits are made.
ghost use Rattle.roots_api.specs.Told.{IsSession};

use crate::courses::push_end;
use crate::edits::{edit, stamps_of};
use crate::trees::subtree_of;
use crate::words::push_op;
use entry_tree::{Digest, Side};
use mem_roots::MemRoot;
use mode_rules::Change;
use roots_api::{Answer, Content, MAX_LOG_SIZE, Op, Who};
use std::alloc::Global;
use std::test::Fail;
use sync_path::Path;
use transition_plan::Steps;

/// A root, and how many operations it was asked.
#[derive(Drop)]
pub struct Driven {
    pub root: MemRoot,
    pub asked: u64,
}

// A session.
fn session(id: u128) -> Who
    ensures { IsSession result }
{
    Who::Session {
        id,
        run: 1,
        cycle: 1,
    }
}

/// Asks the root.
pub fn ask(alloc: Global, driven: &mut Driven, op: &Op) -> Result<Answer, Fail> {
    driven.asked = driven.asked.saturating_add(1);
    Ok(driven.root.call(alloc, &session(1), op)?)
}

// Stages these bytes: three operations.
fn stage(alloc: Global, driven: &mut Driven, bytes: &[u8]) -> Result<(), Fail> {
    let digest = Digest::of(bytes);
    let bytes = Content::of(alloc, bytes)?;
    let _ = ask(alloc, driven, &Op::StageOpen)?;
    let _ = ask(alloc, driven, &Op::StageAppend { bytes })?;
    let _ = ask(alloc, driven, &Op::StageKeep { digest })?;
    Ok(())
}

// Stages each of the words.
fn stage_each(alloc: Global, driven: &mut Driven, words: &str) -> Result<(), Fail> {
    for word in words.split(' ') {
        stage(alloc, driven, word.as_bytes())?;
    }
    Ok(())
}

// Fills the log by another session, but for so many events.
fn fill(alloc: Global, root: &mut MemRoot, room: u64) -> Result<(), Fail> {
    let logged = root.log().len() as u64;
    let count = MAX_LOG_SIZE.saturating_sub(logged).saturating_sub(room);
    for _ in 0..count {
        let _ = root.call(alloc, &session(2), &Op::StageClear)?;
    }
    Ok(())
}

// Sees to it that the change ends before the operation with a number, counted from 0: `failed 1` or `full 1`.
fn limit(alloc: Global, driven: &mut Driven, word: &str) -> Result<(), Fail> {
    if let Some(number) = word.strip_prefix("failed ") {
        let number: u64 = number.parse().ok().ok_or("no number")?;
        let call = driven.asked.saturating_add(number);
        driven.root.fail(alloc, &[call])?;
    }
    if let Some(number) = word.strip_prefix("full ") {
        let number: u64 = number.parse().ok().ok_or("no number")?;
        fill(alloc, &mut driven.root, number)?;
    }
    Ok(())
}

// The steps that make of what the root shows at a path what is new there.
fn steps_of(
    alloc: Global,
    root: &MemRoot,
    script: &str,
    path: &str,
    new: &str,
) -> Result<Steps, Fail> {
    let at = Path::read(alloc, path)?;
    let old = root.view(alloc)?.subtree(alloc, &at)?;
    let new = subtree_of(alloc, new, &at)?;
    let stamps = stamps_of(alloc, script)?;
    let change = Change {
        side: Side::Beta,
        at,
        old,
        new,
    };
    Ok(Steps::of(alloc, &change, &stamps)?)
}

// Asks what is asked next, if anything is, and writes it.
fn turn(
    alloc: Global,
    driven: &mut Driven,
    steps: &mut Steps,
    text: &mut String,
) -> Result<bool, Fail> {
    let Some(op) = steps.next() else {
        return Ok(false);
    };
    push_op(alloc, text, op)?;
    let answer = ask(alloc, driven, op)?;
    steps.take(Some(&answer));
    Ok(true)
}

// Drives the change to its end, with the edits in between.
fn drive(
    alloc: Global,
    driven: &mut Driven,
    steps: &mut Steps,
    script: &str,
    text: &mut String,
) -> Result<(), Fail> {
    for number in 1..1_000u64 {
        edit(alloc, &mut driven.root, script, number)?;
        if !turn(alloc, driven, steps, text)? {
            return Ok(());
        }
    }
    Err(Fail::from("no end"))
}

/// Makes the row's edits before the look, stages its bytes and drives its change: what was asked, what landed and the problems.
pub fn change(
    alloc: Global,
    driven: &mut Driven,
    script: &str,
    path: &str,
    bytes: &str,
    new: &str,
    end: &str,
) -> Result<String, Fail> {
    let mut text = String::new(alloc);
    edit(alloc, &mut driven.root, script, 0)?;
    let mut steps = steps_of(alloc, &driven.root, script, path, new)?;
    stage_each(alloc, driven, bytes)?;
    limit(alloc, driven, end)?;
    drive(alloc, driven, &mut steps, script, &mut text)?;
    push_end(alloc, &steps, &mut text)?;
    Ok(text)
}
