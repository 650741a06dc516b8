//! The words that say what a line does. None of these functions takes memory.
ghost use Rattle.std.specs.Prelude.{◌≡◌};
ghost use Rattle.request_text.specs.Places.{by, conn_verbs, edit_verbs, first_may, first_words, fits, forward_may, forward_verbs, sync_may, sync_verbs};

use crate::order::{ForwardOrder, SyncOrder};
use crate::place::{ConnVerb, EditVerb, First, ForwardVerb, StreamVerb, SyncVerb};

/// The first word of a request; behind a client (`numbered`) only one whose lines may name a client.
pub(crate) fn first_by(numbered: bool, word: &[u8]) -> Option<First>
    ensures { result ≡ fits numbered first_may (by first_words word.now) }
{
    match any_first(word) {
        Some(first) => {
            if numbered && !first_may(first) {
                return None;
            }
            Some(first)
        }
        None => None,
    }
}

// Whether lines that begin so may name a client.
fn first_may(first: First) -> bool
    ensures { result ≡ first_may first }
{
    match first {
        First::Sync => true,
        First::Forward => true,
        First::Edit => false,
        First::Show => false,
        First::Ancestor => false,
        First::Step => false,
        First::Until => false,
        First::Conn => false,
    }
}

// The first word of a request.
fn any_first(word: &[u8]) -> Option<First>
    ensures { result ≡ by first_words word.now }
{
    if word == b"edit".as_slice() {
        return Some(First::Edit);
    }
    if word == b"show".as_slice() {
        return Some(First::Show);
    }
    if word == b"ancestor".as_slice() {
        return Some(First::Ancestor);
    }
    if word == b"step".as_slice() {
        return Some(First::Step);
    }
    if word == b"until".as_slice() {
        return Some(First::Until);
    }
    if word == b"sync".as_slice() {
        return Some(First::Sync);
    }
    if word == b"forward".as_slice() {
        return Some(First::Forward);
    }
    if word == b"conn".as_slice() {
        return Some(First::Conn);
    }
    None
}

/// What an edit does.
pub(crate) fn edit_by(word: &[u8]) -> Option<EditVerb>
    ensures { result ≡ by edit_verbs word.now }
{
    if word == b"put".as_slice() {
        return Some(EditVerb::Put);
    }
    if word == b"fill".as_slice() {
        return Some(EditVerb::Fill);
    }
    if word == b"link".as_slice() {
        return Some(EditVerb::Link);
    }
    if word == b"dir".as_slice() {
        return Some(EditVerb::Dir);
    }
    if word == b"other".as_slice() {
        return Some(EditVerb::Other);
    }
    if word == b"exec".as_slice() {
        return Some(EditVerb::Exec);
    }
    if word == b"del".as_slice() {
        return Some(EditVerb::Del);
    }
    None
}

/// What a line on synchronisation sessions does; behind a client only what changes one.
pub(crate) fn sync_by(numbered: bool, word: &[u8]) -> Option<SyncVerb>
    ensures { result ≡ fits numbered sync_may (by sync_verbs word.now) }
{
    match any_sync(word) {
        Some(verb) => {
            if numbered && !sync_may(verb) {
                return None;
            }
            Some(verb)
        }
        None => None,
    }
}

// Whether such a line may name a client.
fn sync_may(verb: SyncVerb) -> bool
    ensures { result ≡ sync_may verb }
{
    match verb {
        SyncVerb::Create => true,
        SyncVerb::List => false,
        SyncVerb::Flush => true,
        SyncVerb::Order(_) => true,
        SyncVerb::Report => false,
    }
}

// What a line on synchronisation sessions does.
fn any_sync(word: &[u8]) -> Option<SyncVerb>
    ensures { result ≡ by sync_verbs word.now }
{
    if word == b"create".as_slice() {
        return Some(SyncVerb::Create);
    }
    if word == b"list".as_slice() {
        return Some(SyncVerb::List);
    }
    if word == b"flush".as_slice() {
        return Some(SyncVerb::Flush);
    }
    if word == b"pause".as_slice() {
        return Some(SyncVerb::Order(SyncOrder::Pause));
    }
    if word == b"resume".as_slice() {
        return Some(SyncVerb::Order(SyncOrder::Resume));
    }
    if word == b"reset".as_slice() {
        return Some(SyncVerb::Order(SyncOrder::Reset));
    }
    if word == b"terminate".as_slice() {
        return Some(SyncVerb::Order(SyncOrder::Terminate));
    }
    if word == b"report".as_slice() {
        return Some(SyncVerb::Report);
    }
    None
}

/// What a line on forwarding sessions does; behind a client only what changes one.
pub(crate) fn forward_by(numbered: bool, word: &[u8]) -> Option<ForwardVerb>
    ensures { result ≡ fits numbered forward_may (by forward_verbs word.now) }
{
    match any_forward(word) {
        Some(verb) => {
            if numbered && !forward_may(verb) {
                return None;
            }
            Some(verb)
        }
        None => None,
    }
}

// Whether such a line may name a client.
fn forward_may(verb: ForwardVerb) -> bool
    ensures { result ≡ forward_may verb }
{
    match verb {
        ForwardVerb::Create => true,
        ForwardVerb::List => false,
        ForwardVerb::Order(_) => true,
    }
}

// What a line on forwarding sessions does.
fn any_forward(word: &[u8]) -> Option<ForwardVerb>
    ensures { result ≡ by forward_verbs word.now }
{
    if word == b"create".as_slice() {
        return Some(ForwardVerb::Create);
    }
    if word == b"list".as_slice() {
        return Some(ForwardVerb::List);
    }
    if word == b"pause".as_slice() {
        return Some(ForwardVerb::Order(ForwardOrder::Pause));
    }
    if word == b"resume".as_slice() {
        return Some(ForwardVerb::Order(ForwardOrder::Resume));
    }
    if word == b"terminate".as_slice() {
        return Some(ForwardVerb::Order(ForwardOrder::Terminate));
    }
    None
}

/// What a line on a session's connection does.
pub(crate) fn conn_by(word: &[u8]) -> Option<ConnVerb>
    ensures { result ≡ by conn_verbs word.now }
{
    if word == b"open".as_slice() {
        return Some(ConnVerb::Open);
    }
    if word == b"write".as_slice() {
        return Some(ConnVerb::Stream(StreamVerb::Write));
    }
    if word == b"fill".as_slice() {
        return Some(ConnVerb::Stream(StreamVerb::Fill));
    }
    if word == b"read".as_slice() {
        return Some(ConnVerb::Stream(StreamVerb::Read));
    }
    if word == b"close-write".as_slice() {
        return Some(ConnVerb::Stream(StreamVerb::CloseWrite));
    }
    if word == b"close".as_slice() {
        return Some(ConnVerb::Stream(StreamVerb::Close));
    }
    if word == b"move".as_slice() {
        return Some(ConnVerb::Move);
    }
    if word == b"cut".as_slice() {
        return Some(ConnVerb::Cut);
    }
    None
}
