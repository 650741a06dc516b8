//! How a payload is written.
ghost use Rattle.std.specs.Prelude.{◌≡◌, ◌++◌, ◌∷◌, IfOk, OnOk, string_bytes};
ghost use Rattle.std.specs.List.{flat_map};
ghost use Rattle.line_words.specs.Spelling.{written};
ghost use Rattle.frame_text.specs.Heads.{words_of_head};
ghost use Rattle.frame_text.specs.LineText.{words_of_line};
ghost use Rattle.frame_text.specs.Payloads.{payload_bytes, newline};
ghost use Rattle.frame_text.specs.declared.head.Head.TheVariants.{Agree, Reset, Whole};
ghost use Rattle.frame_text.specs.declared.payload.Payload.TheVariants as payloads;

use crate::payload::Payload;
use crate::version::Version;
use entry_tree::{write_atom, write_path};
use mode_rules::AncestorLine;
use std::alloc::{AllocError, Global};

/// Writes a payload as its bytes, which are text. Cost: their number.
pub fn text_of(alloc: Global, payload: &Payload) -> Result<String, AllocError>
    ensures { IfOk result (λ text. string_bytes text ≡ payload_bytes payload.now) }
{
    match payload {
        Payload::Agree {
            version,
            run,
            cycle,
            lines,
        } => agree_text(alloc, *version, *run, *cycle, lines.as_slice()),
        Payload::Reset(number) => reset_text(alloc, *number),
        Payload::Whole {
            run,
            cycle,
            served,
            lines,
        } => whole_text(alloc, *run, *cycle, *served, lines.as_slice()),
    }
}

/// The bytes of an `agree`.
pub(crate) fn agree_text(
    alloc: Global,
    version: Version,
    run: u32,
    cycle: u64,
    lines: &[AncestorLine],
) -> Result<String, AllocError>
    ensures { IfOk result (λ text. string_bytes text ≡ payload_bytes (payloads.Agree version run cycle lines.now)) }
{
    let mut text = agree_head(alloc, version, run, cycle)?;
    write_lines(&mut text, lines)?;
    Ok(text)
}

/// The bytes of a `reset`.
pub(crate) fn reset_text(alloc: Global, number: u64) -> Result<String, AllocError>
    ensures { IfOk result (λ text. string_bytes text ≡ payload_bytes (payloads.Reset number)) }
{
    reset_head(alloc, number)
}

// The bytes of a `whole`.
fn whole_text(
    alloc: Global,
    run: u32,
    cycle: u64,
    served: u64,
    lines: &[AncestorLine],
) -> Result<String, AllocError>
    ensures { IfOk result (λ text. string_bytes text ≡ payload_bytes (payloads.Whole run cycle served lines.now)) }
{
    let mut text = whole_head(alloc, run, cycle, served)?;
    write_lines(&mut text, lines)?;
    Ok(text)
}

// The first line of an `agree`.
fn agree_head(alloc: Global, version: Version, run: u32, cycle: u64) -> Result<String, AllocError>
    ensures { IfOk result (λ text. string_bytes text ≡ written (words_of_head (Agree version run cycle))) }
{
    let version = version.word();
    format!(in alloc; "{version} agree {run} {cycle}")
}

// The first line of a `reset`.
fn reset_head(alloc: Global, number: u64) -> Result<String, AllocError>
    ensures { IfOk result (λ text. string_bytes text ≡ written (words_of_head (Reset number))) }
{
    format!(in alloc; "v1 reset {number}")
}

// The first line of a `whole`.
fn whole_head(alloc: Global, run: u32, cycle: u64, served: u64) -> Result<String, AllocError>
    ensures { IfOk result (λ text. string_bytes text ≡ written (words_of_head (Whole run cycle served))) }
{
    format!(in alloc; "v2 whole {run} {cycle} {served}")
}

// Writes lines behind a text, each behind an LF.
fn write_lines(text: &mut String, lines: &[AncestorLine]) -> Result<(), AllocError>
    ensures { OnOk result (string_bytes text.new ≡ string_bytes text.old ++ flat_map (λ line. newline ∷ written (words_of_line line)) lines.now) }
{
    for line in lines {
        text.push('\n')?;
        write_line(text, line)?;
    }
    Ok(())
}

// Writes a line behind a text.
fn write_line(text: &mut String, line: &AncestorLine) -> Result<(), AllocError>
    ensures { OnOk result (string_bytes text.new ≡ string_bytes text.old ++ written (words_of_line line.now)) }
{
    match line {
        AncestorLine::Set(path, atom) => {
            text.push_str("set ")?;
            write_path(text, path)?;
            text.push(' ')?;
            write_atom(text, atom)
        }
        AncestorLine::Drop(path) => {
            text.push_str("drop ")?;
            write_path(text, path)
        }
    }
}
