//! The steps of the reader: what a word is, by what was read before it. Each function reads one kind of word.
ghost use Rattle.std.specs.Prelude.{◌≡◌, ◌-◌, ◌^◌, IfOk, Some};
ghost use Rattle.line_words.specs.Numbers.{byte_value};
ghost use Rattle.command_words.specs.Keywords.{phase_by, stream_side_by, switch_by};
ghost use Rattle.request_text.specs.Given.{forward_create, sync_create};
ghost use Rattle.request_text.specs.Places.{by, conn_place, conn_verbs, edit_place, edit_verbs, first_may, first_words, fits, forward_may, forward_place, forward_verbs, Gives, IsContents, IsEndpointOf, IsLabelOption, IsLink, IsNumber, IsNumberTo, IsPathOf, IsRoot, IsSessionOf, IsStreamBytes, Steps, stream_place, sync_may, sync_place, sync_verbs, Via};
ghost use Rattle.request_text.specs.declared.limits.TheConstants.{MAX_FILL_LEN, MAX_READ, MAX_STEP_COUNT, MAX_STREAM_FILL_LEN};
ghost use Rattle.request_text.specs.declared.place.Place.TheVariants as at;
ghost use Rattle.request_text.specs.declared.request.Request.TheVariants as requests;

use crate::kinds::{next_endpoint, next_label, next_link, next_path, next_root};
use crate::leads::{conn_place, edit_place, forward_place, stream_place, sync_place};
use crate::options::{ForwardOptions, SyncOptions, forward_create, sync_create};
use crate::order::{ForwardOrder, SyncOrder};
use crate::place::{EditVerb, Place, StreamVerb};
use crate::request::Request;
use crate::stream_end::StreamEnd;
use crate::target::Target;
use crate::verbs::{conn_by, edit_by, first_by, forward_by, sync_by};
use command_words::{
    Contents, Endpoint, FillLength, ReadMost, RootName, SessionWord, StepCount, StreamBytes,
    StreamFillLength, StreamSide, phase_by, stream_side_by, switch_by,
};
use line_words::{read_byte, read_number, read_u32};
use std::alloc::{AllocError, Global};

/// Reads the first word of a request.
pub(crate) fn begin(numbered: bool, word: &[u8]) -> Option<Place>
    ensures { Steps (Via (Gives (fits numbered first_may (by first_words word.now))) at.First) result }
{
    match first_by(numbered, word) {
        Some(found) => Some(Place::First(found)),
        None => None,
    }
}

/// Reads the root of an edit.
pub(crate) fn edit_root(alloc: Global, word: &[u8]) -> Result<Option<Place>, AllocError>
    ensures { IfOk result (Steps (Via (IsRoot word.now) at.EditRoot)) }
{
    match next_root(alloc, word)? {
        Some(found) => Ok(Some(Place::EditRoot(found))),
        None => Ok(None),
    }
}

/// Reads the root to be shown.
pub(crate) fn show_root(alloc: Global, word: &[u8]) -> Result<Option<Place>, AllocError>
    ensures { IfOk result (Steps (Via (IsRoot word.now) (λ root. at.Done (requests.Show root)))) }
{
    match next_root(alloc, word)? {
        Some(found) => Ok(Some(Place::Done(Request::Show(found)))),
        None => Ok(None),
    }
}

/// Reads the session whose ancestor is shown.
pub(crate) fn ancestor_session(alloc: Global, word: &[u8]) -> Result<Option<Place>, AllocError>
    ensures { IfOk result (Steps (Via (IsSessionOf word.now) (λ session. at.Done (requests.Ancestor session)))) }
{
    match SessionWord::read(alloc, word)? {
        Some(found) => Ok(Some(Place::Done(Request::Ancestor(found)))),
        None => Ok(None),
    }
}

/// Reads the session that takes turns.
pub(crate) fn step_session(alloc: Global, word: &[u8]) -> Result<Option<Place>, AllocError>
    ensures { IfOk result (Steps (Via (IsSessionOf word.now) at.Step)) }
{
    match SessionWord::read(alloc, word)? {
        Some(found) => Ok(Some(Place::Step(found))),
        None => Ok(None),
    }
}

/// Reads the session that takes turns up to a phase.
pub(crate) fn until_session(alloc: Global, word: &[u8]) -> Result<Option<Place>, AllocError>
    ensures { IfOk result (Steps (Via (IsSessionOf word.now) at.Until)) }
{
    match SessionWord::read(alloc, word)? {
        Some(found) => Ok(Some(Place::Until(found))),
        None => Ok(None),
    }
}

/// Reads what a line on synchronisation sessions does.
pub(crate) fn sync_verb(alloc: Global, numbered: bool, word: &[u8]) -> Option<Place>
    ensures { Steps (Via (Gives (fits numbered sync_may (by sync_verbs word.now))) sync_place) result }
{
    match sync_by(numbered, word) {
        Some(found) => Some(sync_place(alloc, found)),
        None => None,
    }
}

/// Reads what a line on forwarding sessions does.
pub(crate) fn forward_verb(numbered: bool, word: &[u8]) -> Option<Place>
    ensures { Steps (Via (Gives (fits numbered forward_may (by forward_verbs word.now))) forward_place) result }
{
    match forward_by(numbered, word) {
        Some(found) => Some(forward_place(found)),
        None => None,
    }
}

/// Reads the session of a connection.
pub(crate) fn conn_session(alloc: Global, word: &[u8]) -> Result<Option<Place>, AllocError>
    ensures { IfOk result (Steps (Via (IsSessionOf word.now) at.Conn)) }
{
    match SessionWord::read(alloc, word)? {
        Some(found) => Ok(Some(Place::Conn(found))),
        None => Ok(None),
    }
}

/// Reads what an edit does.
pub(crate) fn edit_verb(root: RootName, word: &[u8]) -> Option<Place>
    ensures { Steps (Via (Gives (by edit_verbs word.now)) (at.EditVerb root)) result }
{
    match edit_by(word) {
        Some(found) => Some(Place::EditVerb(root, found)),
        None => None,
    }
}

/// Reads the path of an edit.
pub(crate) fn edit_path(
    alloc: Global,
    root: RootName,
    verb: EditVerb,
    word: &[u8],
) -> Result<Option<Place>, AllocError>
    ensures { IfOk result (Steps (Via (IsPathOf word.now) (edit_place root verb))) }
{
    match next_path(alloc, word)? {
        Some(found) => Ok(Some(edit_place(root, verb, found))),
        None => Ok(None),
    }
}

/// Reads the bytes of a file.
pub(crate) fn put_bytes(
    alloc: Global,
    target: Target,
    word: &[u8],
) -> Result<Option<Place>, AllocError>
    ensures { IfOk result (Steps (Via (IsContents word.now) (λ bytes. at.Done (requests.Put target bytes)))) }
{
    match Contents::read(alloc, word)? {
        Some(found) => Ok(Some(Place::Done(Request::Put(target, found)))),
        None => Ok(None),
    }
}

/// Reads how long a file is.
pub(crate) fn fill_len(target: Target, word: &[u8]) -> Option<Place>
    ensures { Steps (Via (IsNumber 0 MAX_FILL_LEN word.now) (at.FillLen target)) result }
{
    match FillLength::read(word) {
        Some(found) => Some(Place::FillLen(target, found)),
        None => None,
    }
}

/// Reads the byte of a file.
pub(crate) fn fill_byte(target: Target, len: FillLength, word: &[u8]) -> Option<Place>
    ensures { Steps (Via (Gives (byte_value word.now)) (λ byte. at.Done (requests.Fill target len byte))) result }
{
    match read_byte(word) {
        Some(found) => Some(Place::Done(Request::Fill(target, len, found))),
        None => None,
    }
}

/// Reads the text of a link.
pub(crate) fn link_text(
    alloc: Global,
    target: Target,
    word: &[u8],
) -> Result<Option<Place>, AllocError>
    ensures { IfOk result (Steps (Via (IsLink word.now) (λ text. at.Done (requests.Link target text)))) }
{
    match next_link(alloc, word)? {
        Some(found) => Ok(Some(Place::Done(Request::Link(target, found)))),
        None => Ok(None),
    }
}

/// Reads whether a file is to be executable.
pub(crate) fn exec_switch(target: Target, word: &[u8]) -> Option<Place>
    ensures { Steps (Via (Gives (switch_by word.now)) (λ on. at.Done (requests.Exec target on))) result }
{
    match switch_by(word) {
        Some(found) => Some(Place::Done(Request::Exec(target, found))),
        None => None,
    }
}

/// Reads the number of turns.
pub(crate) fn step_count(session: SessionWord, word: &[u8]) -> Option<Place>
    ensures { Steps (Via (IsNumber 1 MAX_STEP_COUNT word.now) (λ count. at.Done (requests.Step session count))) result }
{
    match StepCount::read(word) {
        Some(found) => Some(Place::Done(Request::Step(session, found))),
        None => None,
    }
}

/// Reads the phase to be reached.
pub(crate) fn until_phase(session: SessionWord, word: &[u8]) -> Option<Place>
    ensures { Steps (Via (Gives (phase_by word.now)) (λ phase. at.Done (requests.Until session phase))) result }
{
    match phase_by(word) {
        Some(found) => Some(Place::Done(Request::Until(session, found))),
        None => None,
    }
}

/// Reads beta of a new session.
pub(crate) fn sync_beta(
    alloc: Global,
    given: SyncOptions,
    alpha: RootName,
    word: &[u8],
) -> Result<Option<Place>, AllocError>
    ensures { IfOk result (Steps (Via (IsRoot word.now) (λ beta. at.Done (requests.SyncCreate (sync_create given alpha beta))))) }
{
    match next_root(alloc, word)? {
        Some(found) => Ok(Some(Place::Done(Request::SyncCreate(sync_create(given, alpha, found))))),
        None => Ok(None),
    }
}

/// Reads the label of a list.
pub(crate) fn sync_label(alloc: Global, word: &[u8]) -> Result<Option<Place>, AllocError>
    ensures { IfOk result (Steps (Via (IsLabelOption word.now) (λ label. at.Done (requests.SyncList (Some label))))) }
{
    match next_label(alloc, word)? {
        Some(found) => Ok(Some(Place::Done(Request::SyncList(Some(found))))),
        None => Ok(None),
    }
}

/// Reads the session of a flush.
pub(crate) fn flush_session(alloc: Global, word: &[u8]) -> Result<Option<Place>, AllocError>
    ensures { IfOk result (Steps (Via (IsSessionOf word.now) (λ session. at.Done (requests.SyncFlush session)))) }
{
    match SessionWord::read(alloc, word)? {
        Some(found) => Ok(Some(Place::Done(Request::SyncFlush(found)))),
        None => Ok(None),
    }
}

/// Reads the session of a flush that isn't awaited.
pub(crate) fn skip_wait_session(alloc: Global, word: &[u8]) -> Result<Option<Place>, AllocError>
    ensures { IfOk result (Steps (Via (IsSessionOf word.now) (λ session. at.Done (requests.SyncFlushSkipWait session)))) }
{
    match SessionWord::read(alloc, word)? {
        Some(found) => Ok(Some(Place::Done(Request::SyncFlushSkipWait(found)))),
        None => Ok(None),
    }
}

/// Reads the session of a command.
pub(crate) fn sync_order(
    alloc: Global,
    order: SyncOrder,
    word: &[u8],
) -> Result<Option<Place>, AllocError>
    ensures { IfOk result (Steps (Via (IsSessionOf word.now) (λ session. at.Done (requests.SyncOrder order session)))) }
{
    match SessionWord::read(alloc, word)? {
        Some(found) => Ok(Some(Place::Done(Request::SyncOrder(order, found)))),
        None => Ok(None),
    }
}

/// Reads the session of a report.
pub(crate) fn report_session(alloc: Global, word: &[u8]) -> Result<Option<Place>, AllocError>
    ensures { IfOk result (Steps (Via (IsSessionOf word.now) (λ session. at.Done (requests.SyncReport session)))) }
{
    match SessionWord::read(alloc, word)? {
        Some(found) => Ok(Some(Place::Done(Request::SyncReport(found)))),
        None => Ok(None),
    }
}

/// Reads the destination of a new forwarding session.
pub(crate) fn forward_dest(
    alloc: Global,
    given: ForwardOptions,
    source: Endpoint,
    word: &[u8],
) -> Result<Option<Place>, AllocError>
    ensures { IfOk result (Steps (Via (IsEndpointOf word.now) (λ dest. at.Done (requests.ForwardCreate (forward_create given source dest))))) }
{
    match next_endpoint(alloc, word)? {
        Some(found) => Ok(Some(Place::Done(Request::ForwardCreate(forward_create(
            given, source, found,
        ))))),
        None => Ok(None),
    }
}

/// Reads the session of a command to a forwarding session.
pub(crate) fn forward_order(
    alloc: Global,
    order: ForwardOrder,
    word: &[u8],
) -> Result<Option<Place>, AllocError>
    ensures { IfOk result (Steps (Via (IsSessionOf word.now) (λ session. at.Done (requests.ForwardOrder order session)))) }
{
    match SessionWord::read(alloc, word)? {
        Some(found) => Ok(Some(Place::Done(Request::ForwardOrder(order, found)))),
        None => Ok(None),
    }
}

/// Reads what a line on a connection does.
pub(crate) fn conn_verb(session: SessionWord, word: &[u8]) -> Option<Place>
    ensures { Steps (Via (Gives (by conn_verbs word.now)) (conn_place session)) result }
{
    match conn_by(word) {
        Some(found) => Some(conn_place(session, found)),
        None => None,
    }
}

/// Reads the number of a stream.
pub(crate) fn stream_number(session: SessionWord, verb: StreamVerb, word: &[u8]) -> Option<Place>
    ensures { Steps (Via (IsNumberTo (2 ^ 32 - 1) word.now) (at.StreamNumber session verb)) result }
{
    match read_u32(word, u32::MAX) {
        Some(found) => Some(Place::StreamNumber(session, verb, found)),
        None => None,
    }
}

/// Reads the side of a stream.
pub(crate) fn stream_side(
    session: SessionWord,
    verb: StreamVerb,
    number: u32,
    word: &[u8],
) -> Option<Place>
    ensures { Steps (Via (Gives (stream_side_by word.now)) (stream_place session verb number)) result }
{
    match stream_side_by(word) {
        Some(found) => Some(stream_place(session, verb, number, found)),
        None => None,
    }
}

/// Reads the bytes for a stream.
pub(crate) fn write_bytes(
    alloc: Global,
    end: StreamEnd,
    word: &[u8],
) -> Result<Option<Place>, AllocError>
    ensures { IfOk result (Steps (Via (IsStreamBytes word.now) (λ bytes. at.Done (requests.Write end bytes)))) }
{
    match StreamBytes::read(alloc, word)? {
        Some(found) => Ok(Some(Place::Done(Request::Write(end, found)))),
        None => Ok(None),
    }
}

/// Reads how many bytes fill a stream.
pub(crate) fn stream_fill_len(end: StreamEnd, word: &[u8]) -> Option<Place>
    ensures { Steps (Via (IsNumber 1 MAX_STREAM_FILL_LEN word.now) (at.StreamFillLen end)) result }
{
    match StreamFillLength::read(word) {
        Some(found) => Some(Place::StreamFillLen(end, found)),
        None => None,
    }
}

/// Reads the byte that fills a stream.
pub(crate) fn stream_fill_byte(end: StreamEnd, len: StreamFillLength, word: &[u8]) -> Option<Place>
    ensures { Steps (Via (Gives (byte_value word.now)) (λ byte. at.Done (requests.StreamFill end len byte))) result }
{
    match read_byte(word) {
        Some(found) => Some(Place::Done(Request::StreamFill(end, len, found))),
        None => None,
    }
}

/// Reads how many bytes are read.
pub(crate) fn read_most(end: StreamEnd, word: &[u8]) -> Option<Place>
    ensures { Steps (Via (IsNumber 1 MAX_READ word.now) (λ most. at.Done (requests.Read end most))) result }
{
    match ReadMost::read(word) {
        Some(found) => Some(Place::Done(Request::Read(end, found))),
        None => None,
    }
}

/// Reads the side from which bytes move.
pub(crate) fn move_side(session: SessionWord, word: &[u8]) -> Option<Place>
    ensures { Steps (Via (Gives (stream_side_by word.now)) (at.MoveSide session)) result }
{
    match stream_side_by(word) {
        Some(found) => Some(Place::MoveSide(session, found)),
        None => None,
    }
}

/// Reads how many bytes move.
pub(crate) fn move_count(session: SessionWord, side: StreamSide, word: &[u8]) -> Option<Place>
    ensures { Steps (Via (IsNumberTo (2 ^ 64 - 1) word.now) (λ count. at.Done (requests.Move session side count))) result }
{
    match read_number(word, u64::MAX) {
        Some(found) => Some(Place::Done(Request::Move(session, side, found))),
        None => None,
    }
}
