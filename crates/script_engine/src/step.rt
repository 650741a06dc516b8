//! What one line of a script does to the roots and the session, and how it is answered.
ghost use Rattle.std.specs.Prelude.{◌≡◌, ◌≤◌, ℕ, List, Option, Some, IfOk, OnErr, length, string_bytes};
ghost use Rattle.outside_io.specs.Lines.{IsLine};
ghost use Rattle.script_engine.specs.declared.flat_roots.FlatRoots.{FlatRoots};
ghost use Rattle.script_engine.specs.declared.session.Session.{Session};
ghost use Rattle.script_engine.specs.World.{world_of};
ghost use Rattle.script_engine.specs.Script.{Answers, AnswersRequest, AnswersFlush, Puts, Creates, Shows, Cycles, is_called};

use crate::flat_roots::{FlatRoots, RootName};
use crate::flush::flush;
use crate::name_map::NameMap;
use crate::replies::{
    IDENTIFIER, create_reply, edit_reply, flush_reply, no_root_reply, no_session_reply,
    not_yet_reply, show_reply,
};
use crate::request::{Request, read_request};
use crate::session::Session;
use crate::word::{Contents, Word};
use outside_io::Line;
use std::alloc::{AllocError, Global};
use sync_path::Name;

/// Does a line and answers it. An empty line has no reply. Where memory runs out, nothing has changed.
pub fn answer(
    alloc: Global,
    roots: &mut FlatRoots,
    session: &mut Option<Session>,
    line: Line,
) -> Result<String, AllocError>
    ensures answered { IfOk result (λ reply. (bytes : List ℕ) → IsLine bytes line →
        Answers (world_of roots.old session.old) bytes (string_bytes reply) (world_of roots.new session.new)) }
    ensures err { OnErr result ((roots.new ≡ roots.old) × (session.new ≡ session.old)) }
{
    match line {
        Line::TooLong => not_yet_reply(alloc),
        Line::Full(bytes) => answer_bytes(alloc, roots, session, bytes.as_slice()),
    }
}

// The same, for a line of these bytes.
fn answer_bytes(
    alloc: Global,
    roots: &mut FlatRoots,
    session: &mut Option<Session>,
    line: &[u8],
) -> Result<String, AllocError>
    ensures answered { IfOk result (λ reply. length line.now ≤ 65536 →
        Answers (world_of roots.old session.old) line.now (string_bytes reply) (world_of roots.new session.new)) }
    ensures err { OnErr result ((roots.new ≡ roots.old) × (session.new ≡ session.old)) }
{
    if line.is_empty() {
        return Ok(String::new(alloc));
    }
    match read_request(alloc, line)? {
        None => not_yet_reply(alloc),
        Some(request) => answer_request(alloc, roots, session, request),
    }
}

fn answer_request(
    alloc: Global,
    roots: &mut FlatRoots,
    session: &mut Option<Session>,
    request: Request,
) -> Result<String, AllocError>
    ensures answered { IfOk result (λ reply. AnswersRequest (world_of roots.old session.old) request
        (string_bytes reply) (world_of roots.new session.new)) }
    ensures err { OnErr result ((roots.new ≡ roots.old) × (session.new ≡ session.old)) }
{
    match request {
        Request::Put(root, name, contents) => put(alloc, roots, &root, name, contents),
        Request::Create(name, alpha, beta) => create(alloc, session, name, &alpha, &beta),
        Request::Flush(word) => flush_session(alloc, roots, session, &word),
        Request::Show(root) => show(alloc, roots, &root),
    }
}

// `edit ROOT put FILE =BYTES`
fn put(
    alloc: Global,
    roots: &mut FlatRoots,
    root: &Word,
    name: Name,
    contents: Contents,
) -> Result<String, AllocError>
    ensures answered { IfOk result (λ reply. (session : Option Session) →
        Puts (world_of roots.old session) root.now name contents (string_bytes reply) (world_of roots.new session)) }
    ensures err { OnErr result (roots.new ≡ roots.old) }
{
    let Some(at) = RootName::named(root.as_str()) else {
        return no_root_reply(alloc, root.as_str());
    };
    let reply = edit_reply(alloc)?;
    roots.put(at, name, contents)?;
    Ok(reply)
}

// `sync create --name=NAME ALPHA BETA`
fn create(
    alloc: Global,
    session: &mut Option<Session>,
    name: Word,
    alpha: &Word,
    beta: &Word,
) -> Result<String, AllocError>
    ensures answered { IfOk result (λ reply. (roots : FlatRoots) →
        Creates (world_of roots session.old) name alpha.now beta.now (string_bytes reply) (world_of roots session.new)) }
    ensures err { OnErr result (session.new ≡ session.old) }
{
    let Some(first) = RootName::named(alpha.as_str()) else {
        return no_root_reply(alloc, alpha.as_str());
    };
    if RootName::named(beta.as_str()).is_none() {
        return no_root_reply(alloc, beta.as_str());
    }
    if session.is_some() {
        return not_yet_reply(alloc);
    }
    let reply = create_reply(alloc)?;
    *session = Some(Session {
        name,
        alpha: first,
        ancestor: NameMap::new(alloc),
        cycles: 0,
    });
    Ok(reply)
}

// `show ROOT`
fn show(alloc: Global, roots: &FlatRoots, root: &Word) -> Result<String, AllocError>
    ensures { IfOk result (λ reply. (session : Option Session) →
        Shows (world_of roots.now session) root.now (string_bytes reply) (world_of roots.now session)) }
{
    match RootName::named(root.as_str()) {
        None => no_root_reply(alloc, root.as_str()),
        Some(at) => show_reply(alloc, root.as_str(), roots.files(at)),
    }
}

// `sync flush SESSION`
fn flush_session(
    alloc: Global,
    roots: &mut FlatRoots,
    session: &mut Option<Session>,
    word: &Word,
) -> Result<String, AllocError>
    ensures answered { IfOk result (λ reply. AnswersFlush (world_of roots.old session.old) word.now
        (string_bytes reply) (world_of roots.new session.new)) }
    ensures err { OnErr result ((roots.new ≡ roots.old) × (session.new ≡ session.old)) }
{
    match session {
        Some(session) if is_called(session, word.as_str()) => cycle(alloc, roots, session),
        _ => no_session_reply(alloc),
    }
}

fn is_called(session: &Session, word: &str) -> bool
    ensures { result ≡ is_called session.now word.now }
{
    word == session.name.as_str() || word == IDENTIFIER
}

// One cycle of the session.
fn cycle(alloc: Global, roots: &mut FlatRoots, session: &mut Session) -> Result<String, AllocError>
    ensures answered { IfOk result (λ reply. Cycles (world_of roots.old (Some session.old)) session.old
        (string_bytes reply) (world_of roots.new (Some session.new))) }
    ensures err { OnErr result ((roots.new ≡ roots.old) × (session.new ≡ session.old)) }
{
    let alpha = roots.files(session.alpha);
    let beta = roots.files(session.alpha.other());
    let flushed = flush(alloc, &session.ancestor, alpha, beta)?;
    let cycles = session.cycles.saturating_add(1);
    let reply = flush_reply(alloc, cycles, &flushed.conflicts)?;
    roots.replace(session.alpha, flushed.alpha, flushed.beta);
    session.ancestor = flushed.ancestor;
    session.cycles = cycles;
    Ok(reply)
}
