//! One step of the reader: the word that is next, by what was read before it.
ghost use Rattle.std.specs.Prelude.{◌≡◌, ◌⊎◌, ◌↔◌, IfOk, Some, false};
ghost use Rattle.request_text.specs.Places.{Goes, IsEndpointOf, IsForwardOption, IsRoot, IsSessionOf, IsSyncOption, Steps, Via};
ghost use Rattle.request_text.specs.declared.options.ForwardOptions.{ForwardOptions};
ghost use Rattle.request_text.specs.declared.options.SyncOptions.{SyncOptions};
ghost use Rattle.request_text.specs.declared.place.Place.TheVariants as at;

use crate::kinds::{next_endpoint, next_root};
use crate::options::{ForwardOptions, SyncOptions, with_forward_setting, with_setting};
use crate::place::{First, Place};
use crate::request::Request;
use crate::setting_words::read_setting;
use crate::steps::{
    ancestor_session, begin, conn_session, conn_verb, edit_path, edit_root, edit_verb, exec_switch,
    fill_byte, fill_len, flush_session, forward_dest, forward_order, forward_verb, link_text,
    move_count, move_side, put_bytes, read_most, report_session, show_root, skip_wait_session,
    step_count, step_session, stream_fill_byte, stream_fill_len, stream_number, stream_side,
    sync_beta, sync_label, sync_order, sync_verb, until_phase, until_session, write_bytes,
};
use std::alloc::{AllocError, Global};

/// Where a word of a request leads, if it may stand there. Cost: its length.
pub(crate) fn advance(
    alloc: Global,
    numbered: bool,
    place: Place,
    word: &[u8],
) -> Result<Option<Place>, AllocError>
    ensures { IfOk result (Steps (Goes numbered place word.now)) }
{
    match place {
        Place::Begin => Ok(begin(numbered, word)),
        Place::First(first) => behind_first(alloc, numbered, first, word),
        Place::EditRoot(root) => Ok(edit_verb(root, word)),
        Place::EditVerb(root, verb) => edit_path(alloc, root, verb, word),
        Place::Put(target) => put_bytes(alloc, target, word),
        Place::Fill(target) => Ok(fill_len(target, word)),
        Place::FillLen(target, len) => Ok(fill_byte(target, len, word)),
        Place::Link(target) => link_text(alloc, target, word),
        Place::Exec(target) => Ok(exec_switch(target, word)),
        Place::Step(session) => Ok(step_count(session, word)),
        Place::Until(session) => Ok(until_phase(session, word)),
        Place::SyncCreate(given) => sync_create_word(alloc, given, word),
        Place::SyncAlpha(given, alpha) => sync_beta(alloc, given, alpha, word),
        Place::SyncList => sync_label(alloc, word),
        Place::SyncFlush => flush_word(alloc, word),
        Place::SyncFlushSkipWait => skip_wait_session(alloc, word),
        Place::SyncOrder(order) => sync_order(alloc, order, word),
        Place::SyncReport => report_session(alloc, word),
        Place::ForwardCreate(given) => forward_create_word(alloc, given, word),
        Place::ForwardSource(given, source) => forward_dest(alloc, given, source, word),
        Place::ForwardOrder(order) => forward_order(alloc, order, word),
        Place::Conn(session) => Ok(conn_verb(session, word)),
        Place::Stream(session, verb) => Ok(stream_number(session, verb, word)),
        Place::StreamNumber(session, verb, number) => Ok(stream_side(session, verb, number, word)),
        Place::Write(end) => write_bytes(alloc, end, word),
        Place::StreamFill(end) => Ok(stream_fill_len(end, word)),
        Place::StreamFillLen(end, len) => Ok(stream_fill_byte(end, len, word)),
        Place::Read(end) => Ok(read_most(end, word)),
        Place::Move(session) => Ok(move_side(session, word)),
        Place::MoveSide(session, side) => Ok(move_count(session, side, word)),
        Place::Done(request) => Ok(nothing_behind(request)),
    }
}

// Behind a whole request stands no word.
fn nothing_behind(_request: Request) -> Option<Place>
    ensures { Steps (λ place. ⊥) result }
{
    None
}

// Where the second word of a request leads.
fn behind_first(
    alloc: Global,
    numbered: bool,
    first: First,
    word: &[u8],
) -> Result<Option<Place>, AllocError>
    ensures { IfOk result (Steps (Goes numbered (at.First first) word.now)) }
{
    match first {
        First::Edit => edit_root(alloc, word),
        First::Show => show_root(alloc, word),
        First::Ancestor => ancestor_session(alloc, word),
        First::Step => step_session(alloc, word),
        First::Until => until_session(alloc, word),
        First::Sync => Ok(sync_verb(alloc, numbered, word)),
        First::Forward => Ok(forward_verb(numbered, word)),
        First::Conn => conn_session(alloc, word),
    }
}

// An option of a new session, or its alpha.
fn sync_create_word(
    alloc: Global,
    given: SyncOptions,
    word: &[u8],
) -> Result<Option<Place>, AllocError>
    ensures { IfOk result (Steps (λ place. Via (IsSyncOption given word.now) at.SyncCreate place ⊎ Via (IsRoot word.now) (at.SyncAlpha given) place)) }
{
    if word.starts_with(b"--".as_slice()) {
        return sync_option(alloc, given, word);
    }
    match next_root(alloc, word)? {
        Some(found) => Ok(Some(Place::SyncAlpha(given, found))),
        None => Ok(None),
    }
}

// An option of a new session.
fn sync_option(alloc: Global, given: SyncOptions, word: &[u8]) -> Result<Option<Place>, AllocError>
    ensures { IfOk result (Steps (Via (IsSyncOption given word.now) at.SyncCreate)) }
{
    match with_sync_word(alloc, given, word)? {
        Some(found) => Ok(Some(Place::SyncCreate(found))),
        None => Ok(None),
    }
}

// What is given with the option that a word is.
fn with_sync_word(
    alloc: Global,
    given: SyncOptions,
    word: &[u8],
) -> Result<Option<SyncOptions>, AllocError>
    ensures { IfOk result (λ found. (more : SyncOptions) → (found ≡ Some more) ↔ IsSyncOption given word.now more) }
{
    match read_setting(alloc, word)? {
        Some(found) => with_setting(given, found),
        None => Ok(None),
    }
}

// `--skip-wait`, or the session of a flush.
fn flush_word(alloc: Global, word: &[u8]) -> Result<Option<Place>, AllocError>
    ensures { IfOk result (Steps (Goes false at.SyncFlush word.now)) }
{
    if word == b"--skip-wait".as_slice() {
        return Ok(Some(Place::SyncFlushSkipWait));
    }
    flush_session(alloc, word)
}

// An option of a new forwarding session, or its source.
fn forward_create_word(
    alloc: Global,
    given: ForwardOptions,
    word: &[u8],
) -> Result<Option<Place>, AllocError>
    ensures { IfOk result (Steps (λ place. Via (IsForwardOption given word.now) at.ForwardCreate place ⊎ Via (IsEndpointOf word.now) (at.ForwardSource given) place)) }
{
    if word.starts_with(b"--".as_slice()) {
        return forward_option(alloc, given, word);
    }
    match next_endpoint(alloc, word)? {
        Some(found) => Ok(Some(Place::ForwardSource(given, found))),
        None => Ok(None),
    }
}

// An option of a new forwarding session.
fn forward_option(
    alloc: Global,
    given: ForwardOptions,
    word: &[u8],
) -> Result<Option<Place>, AllocError>
    ensures { IfOk result (Steps (Via (IsForwardOption given word.now) at.ForwardCreate)) }
{
    match with_forward_word(alloc, given, word)? {
        Some(found) => Ok(Some(Place::ForwardCreate(found))),
        None => Ok(None),
    }
}

// What is given with the option that a word is.
fn with_forward_word(
    alloc: Global,
    given: ForwardOptions,
    word: &[u8],
) -> Result<Option<ForwardOptions>, AllocError>
    ensures { IfOk result (λ found. (more : ForwardOptions) → (found ≡ Some more) ↔ IsForwardOption given word.now more) }
{
    match read_setting(alloc, word)? {
        Some(found) => Ok(with_forward_setting(given, found)),
        None => Ok(None),
    }
}
