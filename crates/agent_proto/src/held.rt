//! The bytes of a message that isn't whole yet.
ghost use Rattle.std.specs.Prelude.{◌≡◌, ◌++◌, ◌+◌, ◌<◌, ◌≤◌, ◌^◌, get_or, length, OnOk, OnErr, IfOk, IsTrue};
ghost use Rattle.agent_proto.specs.Batches.{IsSpelt};
ghost use Rattle.agent_proto.specs.Held.{all_held, held_bytes, is_append, is_piece, IsHeld, AreHeld, Cuts, Appends, IsSame};
ghost use Rattle.agent_proto.specs.Streams.{IsSpelling};

use crate::batch::message_of;
use crate::message::Message;
use crate::read::read_who;
use crate::read_fields::Fields;
use crate::wire::{KIND_PIECE, KIND_STAGE_APPEND};
use roots_api::{Answer, Content, Op};
use std::alloc::{AllocError, Global};
use std::mem;

/// The first bytes of a message. Those of a file, or of a part of one, stand apart, and are moved into the message once it is whole.
#[derive(Debug, Drop)]
pub(crate) struct Held {
    // the bytes before the content, or all of a message without one
    front: Vec<u8>,
    content: Vec<u8>,
}

// Whether these bytes stand before the bytes to be staged: a length, a kind, who asks and a number.
fn is_append(front: &[u8]) -> bool
    ensures { result ≡ is_append front.now }
{
    front.len() == 37 && front[4] == KIND_STAGE_APPEND
}

// Whether these bytes stand before the bytes of a piece: a length, a kind and a number.
fn is_piece(front: &[u8]) -> bool
    ensures { result ≡ is_piece front.now }
{
    front.len() == 9 && front[4] == KIND_PIECE
}

// How many of the bytes behind the front stand before a message's content.
fn cut_at(front: &[u8], bytes: &[u8]) -> usize
    ensures { Cuts front.now bytes.now result }
{
    if front.len() > 4 {
        return cut_by(front[4], front, bytes);
    }
    let before = 4 - front.len();
    if bytes.len() > before {
        cut_by(bytes[before], front, bytes)
    } else {
        bytes.len()
    }
}

// The same, in a message of this kind.
fn cut_by(kind: u8, front: &[u8], bytes: &[u8]) -> usize
    requires { kind ≡ get_or (front.now ++ bytes.now) 4 0 }
    ensures { Cuts front.now bytes.now result }
{
    match kind {
        KIND_STAGE_APPEND => cut_to(37, front, bytes),
        KIND_PIECE => cut_to(9, front, bytes),
        _ => bytes.len(),
    }
}

// How many of the bytes go on to so many, where there are more.
fn cut_to(size: usize, front: &[u8], bytes: &[u8]) -> usize
    ensures within { result ≤ length bytes.now }
    ensures size { result < length bytes.now → length front.now + result ≡ size }
{
    if front.len() <= size && size - front.len() < bytes.len() {
        size - front.len()
    } else {
        bytes.len()
    }
}

// The message of which the front is that of bytes to be staged, and the content is what is behind it.
fn append_of(front: &[u8], content: Vec<u8>) -> Message
    requires front { IsTrue (is_append front.now) }
    requires spelled { IsSpelling (front.now ++ content.items) }
    ensures { IsSpelt (front.now ++ content.items) result }
{
    let (_, behind) = front.split_at(5);
    let mut fields = Fields::of(behind);
    match read_who(&mut fields) {
        Some(who) => {
            let bytes = Content::from_vec(content);
            Message::Ask(who, Op::StageAppend { bytes })
        }
        None => unreachable!(),
    }
}

// The message of which the front is that of a piece, and the content is what is behind it: the piece's bytes, and a bit.
fn piece_of(front: &[u8], content: Vec<u8>) -> Message
    requires front { IsTrue (is_piece front.now) }
    requires spelled { IsSpelling (front.now ++ content.items) }
    ensures { IsSpelt (front.now ++ content.items) result }
{
    let mut content = content;
    match content.pop() {
        Some(bit) => {
            let bytes = Content::from_vec(content);
            let last = bit == 1;
            Message::Answer(Answer::Piece { bytes, last })
        }
        None => unreachable!(),
    }
}

impl Held {
    /// A copy of these bytes.
    fn of(alloc: Global, bytes: &[u8]) -> Result<Held, AllocError>
        ensures { IfOk result (λ held. IsHeld held × (all_held held ≡ bytes.now)) }
    {
        let mut held = Held {
            front: Vec::new(alloc),
            content: Vec::new(alloc),
        };
        held.append(alloc, bytes)?;
        Ok(held)
    }

    // Adds these bytes.
    fn append(&mut self, alloc: Global, bytes: &[u8]) -> Result<(), AllocError>
        requires { IsHeld self.old }
        ensures ok { OnOk result (Appends self.old bytes.now self.new) }
        ensures err { OnErr result (IsSame self.old self.new) }
    {
        if !self.content.is_empty() {
            self.content.extend_from_slice(bytes)?;
            return Ok(());
        }
        let (first, rest) = bytes.split_at(cut_at(self.front.as_slice(), bytes));
        let content = Vec::from_slice(alloc, rest)?;
        self.front.extend_from_slice(first)?;
        self.content = content;
        Ok(())
    }

    // The message that the bytes are.
    fn message(&mut self, alloc: Global) -> Result<Message, AllocError>
        requires held { IsHeld self.old }
        requires spelled { IsSpelling (all_held self.old) }
        ensures ok { IfOk result (IsSpelt (all_held self.old)) }
        ensures err { OnErr result (IsSame self.old self.new) }
    {
        if is_append(self.front.as_slice()) {
            let content = mem::replace(&mut self.content, Vec::new(alloc));
            return Ok(append_of(self.front.as_slice(), content));
        }
        if is_piece(self.front.as_slice()) {
            let content = mem::replace(&mut self.content, Vec::new(alloc));
            return Ok(piece_of(self.front.as_slice(), content));
        }
        message_of(alloc, self.front.as_slice())
    }

    // The message that is whole with these bytes.
    fn complete(&mut self, alloc: Global, last: &[u8]) -> Result<Message, AllocError>
        requires held { IsHeld self.old }
        requires spelled { IsSpelling (all_held self.old ++ last.now) }
        ensures ok { IfOk result (IsSpelt (all_held self.old ++ last.now)) }
        ensures err { OnErr result (IsSame self.old self.new) }
    {
        let (front, content) = (self.front.len(), self.content.len());
        self.append(alloc, last)?;
        match self.message(alloc) {
            Ok(message) => Ok(message),
            Err(error) => {
                self.front.truncate(front);
                self.content.truncate(content);
                Err(error)
            }
        }
    }
}

/// These bytes, of which there may be none.
pub(crate) fn kept(alloc: Global, bytes: &[u8]) -> Result<Option<Held>, AllocError>
    ensures { IfOk result (λ held. AreHeld held × (held_bytes held ≡ bytes.now)) }
{
    if bytes.is_empty() {
        return Ok(None);
    }
    let held = Held::of(alloc, bytes)?;
    Ok(Some(held))
}

/// How many bytes are held.
pub(crate) fn count(held: &Option<Held>) -> usize
    requires { length (held_bytes held.now) < 2 ^ 40 }
    ensures { result ≡ length (held_bytes held.now) }
{
    match held {
        Some(held) => held.front.len() + held.content.len(),
        None => 0,
    }
}

/// Holds these bytes too.
pub(crate) fn append(alloc: Global, held: &mut Option<Held>, bytes: &[u8]) -> Result<(), AllocError>
    requires { AreHeld held.old }
    ensures ok { OnOk result (held_bytes held.new ≡ held_bytes held.old ++ bytes.now) }
    ensures err { OnErr result (held_bytes held.new ≡ held_bytes held.old) }
    ensures held { AreHeld held.new }
{
    match held {
        Some(held) => held.append(alloc, bytes),
        None => {
            *held = kept(alloc, bytes)?;
            Ok(())
        }
    }
}

/// The message that is whole with these bytes. What is held is used up; after an `Err` it is as it was.
pub(crate) fn complete(
    alloc: Global,
    held: &mut Option<Held>,
    last: &[u8],
) -> Result<Message, AllocError>
    requires held { AreHeld held.old }
    requires spelled { IsSpelling (held_bytes held.old ++ last.now) }
    ensures ok { IfOk result (IsSpelt (held_bytes held.old ++ last.now)) }
    ensures err { OnErr result (held_bytes held.new ≡ held_bytes held.old) }
    ensures held { OnErr result (AreHeld held.new) }
{
    match held {
        Some(held) => held.complete(alloc, last),
        None => message_of(alloc, last),
    }
}
