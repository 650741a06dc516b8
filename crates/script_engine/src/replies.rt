//! The replies to the lines of a script. Each is one piece of text whose lines end with LF.
ghost use Rattle.std.specs.Prelude.{◌≡◌, ◌++◌, IfOk, OnOk, string_bytes};
ghost use Rattle.script_engine.specs.Replies as reply;

use crate::name_map::NameMap;
use crate::word::Contents;
use entry_tree::{Atom, Digest, text_of};
use std::alloc::{AllocError, Global};
use sync_path::Name;

/// The identifier of the one session: the UUID of version 4 that sixteen zero bytes give.
pub const IDENTIFIER: &str = "sync_00000000-0000-4000-8000-000000000000";

/// The reply to an `edit` that was done.
pub fn edit_reply(alloc: Global) -> Result<String, AllocError>
    ensures { IfOk result (λ text. string_bytes text ≡ reply.edit_reply) }
{
    String::from_str(alloc, "ok edit\n")
}

/// The reply to a `sync create` that made the session.
pub fn create_reply(alloc: Global) -> Result<String, AllocError>
    ensures { IfOk result (λ text. string_bytes text ≡ reply.create_reply) }
{
    format!(in alloc; "ok create {IDENTIFIER}\n")
}

/// The reply to a `sync flush` that was the session's cycle of this number: the names that were
/// conflicts, in the order of their bytes.
pub fn flush_reply(alloc: Global, cycle: u64, conflicts: &NameMap<()>) -> Result<String, AllocError>
    ensures { IfOk result (λ text. string_bytes text ≡ reply.flush_reply cycle conflicts.now) }
{
    let mut text = cycle_line(alloc, cycle, conflicts.len())?;
    for (name, _) in conflicts.iter() {
        let line = conflict_line(alloc, name.as_str())?;
        text.push_str(line.as_str())?;
    }
    Ok(text)
}

// The first line of the reply, for this many conflicts.
fn cycle_line(alloc: Global, cycle: u64, conflicts: usize) -> Result<String, AllocError>
    ensures { IfOk result (λ text. string_bytes text ≡ reply.cycle_line cycle conflicts) }
{
    format!(in alloc; "ok flush {IDENTIFIER} cycle {cycle} done conflicts {conflicts} problems 0\n")
}

// The line of one conflict.
fn conflict_line(alloc: Global, name: &str) -> Result<String, AllocError>
    ensures { IfOk result (λ text. string_bytes text ≡ reply.conflict_line name.now) }
{
    format!(in alloc; "  conflict {name} both alpha 1 beta 1\n")
}

/// The refusal of a line that names a root which isn't there.
pub fn no_root_reply(alloc: Global, root: &str) -> Result<String, AllocError>
    ensures { IfOk result (λ text. string_bytes text ≡ reply.no_root_reply root.now) }
{
    format!(in alloc; "refused 13 no-root {root}\n")
}

/// The refusal of a line that names a session which isn't there.
pub fn no_session_reply(alloc: Global) -> Result<String, AllocError>
    ensures { IfOk result (λ text. string_bytes text ≡ reply.no_session_reply) }
{
    String::from_str(alloc, "refused 20 no-session\n")
}

/// The refusal of a line that is no form, or that asks for what isn't built.
pub fn not_yet_reply(alloc: Global) -> Result<String, AllocError>
    ensures { IfOk result (λ text. string_bytes text ≡ reply.not_yet_reply) }
{
    String::from_str(alloc, "refused 39 not-yet\n")
}

/// The reply to a `show`: the root itself, and its files in the order of their names.
///
/// Cost: the bytes that the root's files hold, whose digests are taken.
pub fn show_reply(
    alloc: Global,
    root: &str,
    files: &NameMap<Contents>,
) -> Result<String, AllocError>
    ensures { IfOk result (λ text. string_bytes text ≡ reply.show_reply root.now files.now) }
{
    let count = files.len() + 1;
    let mut text = format!(in alloc; "ok show {root} {count}\n  . dir\n")?;
    for (name, contents) in files.iter() {
        push_file_line(alloc, &mut text, name, contents)?;
    }
    Ok(text)
}

// Adds the line of one file.
fn push_file_line(
    alloc: Global,
    text: &mut String,
    name: &Name,
    contents: &Contents,
) -> Result<(), AllocError>
    ensures { OnOk result (string_bytes text.new ≡ string_bytes text.old ++ reply.file_line (name.now, contents.now)) }
{
    let name = name.as_str();
    let atom = text_of(alloc, &Atom::File(Digest::of(contents.as_slice()), false))?;
    let atom = atom.as_str();
    let line = format!(in alloc; "  {name} {atom}\n")?;
    text.push_str(line.as_str())
}
