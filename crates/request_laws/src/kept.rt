//! What the types of a request keep of it. No function here does anything: each one's contract is what a type keeps.
ghost use Rattle.std.specs.Prelude.{◌<◌, ◌≤◌, ◌-◌, ◌^◌, IfSome, length};
ghost use Rattle.std.specs.List.{AllByRecursion};
ghost use Rattle.line_words.specs.Lines.{AreBytes};
ghost use Rattle.command_words.specs.Endpoint.{IsEndpoint};
ghost use Rattle.command_words.specs.GivenName.{IsGivenName};
ghost use Rattle.command_words.specs.Label.{IsLabel};
ghost use Rattle.command_words.specs.RootName.{IsRootName};
ghost use Rattle.command_words.specs.Session.{IsSession};
ghost use Rattle.request_text.specs.Requests.{IsClient, IsEnd, IsRequest, IsTarget};
ghost use Rattle.request_laws.specs.Kept.{IsCreated, IsHeld, IsKept, IsPatternText};

use command_words::{Client, Endpoint, GivenName, Label, PatternText, RootName, SessionWord};
use request_text::{Asked, Request, StreamEnd, SyncCreate, Target};

/// Each request keeps what the law asks of it, but for the place of a client.
pub fn is_held(asked: &Asked)
    ensures { IsHeld asked.now }
{
    is_request(&asked.request);
    is_kept(&asked.request);
    is_asked_by(&asked.client)
}

// A line can spell what the request holds.
fn is_request(request: &Request)
    ensures { IsRequest request.now }
{
    match request {
        Request::Put(at, _) => is_target(at),
        Request::Fill(at, len, _) => {
            is_target(at);
            let _ = len.get();
        }
        Request::Link(at, text) => {
            is_target(at);
            let _ = text.as_str();
        }
        Request::Dir(at) => is_target(at),
        Request::Other(at) => is_target(at),
        Request::Exec(at, _) => is_target(at),
        Request::Del(at) => is_target(at),
        Request::Show(root) => is_root(root),
        Request::Ancestor(session) => is_session(session),
        Request::Step(session, count) => {
            is_session(session);
            let _ = count.get();
        }
        Request::Until(session, _) => is_session(session),
        Request::SyncCreate(create) => {
            is_root(&create.alpha);
            is_root(&create.beta)
        }
        Request::SyncList(label) => is_label_if_any(label),
        Request::SyncFlush(session) => is_session(session),
        Request::SyncFlushSkipWait(session) => is_session(session),
        Request::SyncOrder(_, session) => is_session(session),
        Request::SyncReport(session) => is_session(session),
        Request::ForwardCreate(create) => {
            is_endpoint(&create.source);
            is_endpoint(&create.dest)
        }
        Request::ForwardList => {}
        Request::ForwardOrder(_, session) => is_session(session),
        Request::Open(session) => is_session(session),
        Request::Write(end, bytes) => {
            is_end(end);
            let _ = bytes.as_slice();
        }
        Request::StreamFill(end, len, _) => {
            is_end(end);
            let _ = len.get();
        }
        Request::Read(end, most) => {
            is_end(end);
            let _ = most.get();
        }
        Request::CloseWrite(end) => is_end(end),
        Request::Close(end) => is_end(end),
        Request::Move(session, _, count) => {
            is_session(session);
            is_count(*count)
        }
        Request::Cut(session) => is_session(session),
    }
}

// Bytes are bytes, and a new session is made of what it can be made of.
fn is_kept(request: &Request)
    ensures { IsKept request.now }
{
    match request {
        Request::Put(_, bytes) => are_bytes(bytes.as_slice()),
        Request::Fill(_, _, byte) => is_byte(*byte),
        Request::SyncCreate(create) => is_created(create),
        Request::ForwardCreate(create) => is_name_if_any(&create.name),
        Request::Write(_, bytes) => are_bytes(bytes.as_slice()),
        Request::StreamFill(_, _, byte) => is_byte(*byte),
        _ => {}
    }
}

// A client has a name and a number.
fn is_client(client: &Client)
    ensures { IsClient client.now }
{
    is_name(&client.name);
    let _ = client.number.get();
}

// The same, if there is one.
fn is_asked_by(client: &Option<Client>)
    ensures { IfSome client.now IsClient }
{
    match client {
        Some(client) => is_client(client),
        None => {}
    }
}

// A number of 64 bits.
fn is_count(count: u64)
    ensures { count ≤ 2 ^ 64 - 1 }
{
    let _count = count;
}

// A number of 32 bits.
fn is_number(number: u32)
    ensures { number ≤ 2 ^ 32 - 1 }
{
    let _number = number;
}

// A byte.
fn is_byte(byte: u8)
    ensures { byte < 256 }
{
    let _byte = byte;
}

// Each item of a slice of bytes is a byte.
fn are_bytes(bytes: &[u8])
    ensures { AreBytes bytes.now }
{
    let _ = bytes.len();
}

// A root's name.
fn is_root(root: &RootName)
    ensures { IsRootName root.now }
{
    let _ = root.as_str();
}

// A root's name and a path.
fn is_target(at: &Target)
    ensures { IsTarget at.now }
{
    is_root(&at.root);
    let _ = at.path.names();
}

// A name.
fn is_name(name: &GivenName)
    ensures { IsGivenName name.now }
{
    let _ = name.as_str();
}

// The same, if there is one.
fn is_name_if_any(name: &Option<GivenName>)
    ensures { IfSome name.now IsGivenName }
{
    match name {
        Some(name) => is_name(name),
        None => {}
    }
}

// A number of 128 bits.
fn is_wide(number: u128)
    ensures { number < 2 ^ 128 }
{
    let _number = number;
}

// An identifier or a name.
fn is_session(session: &SessionWord)
    ensures { IsSession session.now }
{
    match session {
        SessionWord::Identified(identifier) => is_wide(identifier.id),
        SessionWord::Named(name) => is_name(name),
    }
}

// A session and the number of a stream.
fn is_end(end: &StreamEnd)
    ensures { IsEnd end.now }
{
    is_session(&end.session);
    is_number(end.stream)
}

// An endpoint.
fn is_endpoint(endpoint: &Endpoint)
    ensures { IsEndpoint endpoint.now }
{
    let _ = endpoint.as_str();
}

// A key and a value.
fn is_label(label: &Label)
    ensures { IsLabel label.now }
{
    let _ = label.key.as_str();
    let _ = label.value.as_str();
}

// The same, if there is one.
fn is_label_if_any(label: &Option<Label>)
    ensures { IfSome label.now IsLabel }
{
    match label {
        Some(label) => is_label(label),
        None => {}
    }
}

// Each label has a key and a value.
fn are_labels(labels: &[Label])
    ensures { AllByRecursion IsLabel labels.now }
{
    let mut rest = labels;
    while let [label, behind @ ..] = rest {
        is_label(label);
        rest = behind;
    }
}

// A text in UTF-8.
fn is_pattern(pattern: &PatternText)
    ensures { IsPatternText pattern.now }
{
    let _ = pattern.as_str();
}

// Each pattern is one.
fn are_patterns(patterns: &[PatternText])
    ensures { AllByRecursion IsPatternText patterns.now }
{
    let mut rest = patterns;
    while let [pattern, behind @ ..] = rest {
        is_pattern(pattern);
        rest = behind;
    }
}

// A new session has a name, labels, patterns and limits.
fn is_created(create: &SyncCreate)
    ensures { IsCreated create.now }
{
    is_name_if_any(&create.name);
    are_labels(create.labels.as_slice());
    are_patterns(create.ignores.as_slice());
    let _ = create.entries.get();
    let _ = create.size.get();
}
