//! Reading messages from a stream that comes in pieces.
ghost use Rattle.std.specs.Prelude.{◌≡◌, ◌++◌, ◌<◌, ◌+◌, ℕ, [], ◌∷◌, drop, length, Some, None, Err, IsOk, IfOk, OnErr, IsErrOf};
ghost use Rattle.agent_proto.specs.Batches.{TakesIn};
ghost use Rattle.agent_proto.specs.Follows.{Follows};
ghost use Rattle.agent_proto.specs.Held.{held_bytes, AreHeld};
ghost use Rattle.agent_proto.specs.Streams.{IsSpelling};

use crate::batch::{Batch, messages_of};
use crate::held::{Held, append, complete, count, kept};
use crate::limits::MAX_MESSAGE;
use crate::message::Message;
use crate::place::Place;
use crate::walk::{End, walk};
use std::alloc::{AllocError, Global};
use std::marker::Model;

/// Why a piece gave no messages.
#[derive(Clone, Copy, Debug, PartialEq, Eq)]
pub enum FeedError {
    /// No message continues the bytes before this byte of the stream with it. The first byte is at 0; u64::MAX stands for each place
    /// from there on.
    BadMessage { place: u64 },
    /// Want of memory. The same piece can be fed again.
    Memory,
}

impl From<AllocError> for FeedError {
    ghost use Rattle.std.specs.Prelude.{◌≡◌};
    ghost use Rattle.agent_proto.specs.declared.reader.FeedError.TheVariants.{Memory};

    ghost from_gives = { λ _ e. e ≡ Memory };

    fn from(_error: AllocError) -> FeedError {
        FeedError::Memory
    }
}

/// Takes the bytes of a stream in pieces of any size. A contract sees a `Reading`: how many bytes the messages had that were
/// answered, the bytes of the message that isn't whole yet, and the place of the bad byte, once one came.
#[derive(Debug, Drop)]
pub struct MessageReader {
    taken: u64,
    held: Option<Held>,
    bad: Option<u64>,
    // where the message that isn't whole goes on
    place: Place,
}

impl Model for MessageReader {
    ghost use Rattle.mux_frames.specs.Readers.{Reading};

    ghost Value = { Reading };

    ghost use Rattle.agent_proto.specs.Follows.{Follows};
    ghost use Rattle.agent_proto.specs.Held.{held_bytes, AreHeld};

    ghost view = { λ r. record { taken = r.taken; held = held_bytes r.held; bad = r.bad } };

    ghost invariant = { λ r. Follows (held_bytes r.held) r.place × AreHeld r.held };
}

impl MessageReader {
    ghost use Rattle.mux_frames.specs.Readers.{fresh};
    ghost use Rattle.agent_proto.specs.Readers.{Reads, Refuses};

    /// A reader that has read nothing. It takes no memory.
    pub fn new() -> MessageReader
        ensures { result ≡ fresh }
    {
        MessageReader {
            taken: 0,
            held: None,
            bad: None,
            place: Place::start(),
        }
    }

    /// Takes the next piece of the stream, and answers the messages that it completes.
    ///
    /// Cost: the piece's length. No byte that was held back is looked at again before its message is whole; a stated length takes no
    /// memory.
    pub fn feed(&mut self, alloc: Global, piece: &[u8]) -> Result<Vec<Message>, FeedError>
        ensures ok { IfOk result (λ messages. Reads self.old piece.now messages.items self.new) }
        ensures held_back { IsOk result → length self.new.held < MAX_MESSAGE + 4 }

        // The place is that of the first bad byte, and from then on the answer stays the same.
        ensures bad { (place : ℕ) → self.old.bad ≡ None
            → result ≡ Err (FeedError.BadMessage place) → Refuses self.old piece.now place self.new }
        ensures again { (place : ℕ) → self.old.bad ≡ Some place
            → (result ≡ Err (FeedError.BadMessage place)) × (self.new ≡ self.old) }

        // Want of memory changes nothing.
        ensures memory { IsErrOf result FeedError.Memory → self.new ≡ self.old }
    {
        if let Some(place) = self.bad {
            return Err(FeedError::BadMessage { place });
        }
        match take_in(alloc, &mut self.held, self.place, piece)? {
            Intake::Bad(offset) => {
                let place = self.taken.saturating_add(offset as u64);
                self.bad = Some(place);
                Err(FeedError::BadMessage { place })
            }
            Intake::Read(messages, used, place) => {
                self.taken = self.taken.saturating_add(used as u64);
                self.place = place;
                Ok(messages)
            }
        }
    }
}

// What a piece makes of the bytes that are held.
enum Intake {
    // These messages, so many bytes of them, and then less than a whole one, which goes on from this place.
    Read(Vec<Message>, usize, Place),
    // No message goes on with this byte of those held and of the piece.
    Bad(usize),
}

// Takes the piece behind the bytes that are held, which led to this place. Want of memory changes nothing.
fn take_in(
    alloc: Global,
    held: &mut Option<Held>,
    place: Place,
    piece: &[u8],
) -> Result<Intake, AllocError>
    requires place { Follows (held_bytes held.old) place }
    requires held { AreHeld held.old }
    ensures ok { IfOk result (TakesIn (held_bytes held.old) piece.now (held_bytes held.new)) }
    ensures err { OnErr result (held_bytes held.new ≡ held_bytes held.old) }
    ensures held { AreHeld held.new }
{
    match walk(place, piece) {
        End::Bad(at) => Ok(Intake::Bad(count(held) + at)),
        End::On(place) => {
            append(alloc, held, piece)?;
            Ok(Intake::Read(Vec::new(alloc), 0, place))
        }
        End::Whole(size) => {
            let (last, behind) = piece.split_at(size);
            read_on(alloc, held, last, behind)
        }
    }
}

// With these bytes a message is whole, and the others stand behind it. The held message is read last, so that want of memory
// changes nothing.
fn read_on(
    alloc: Global,
    held: &mut Option<Held>,
    last: &[u8],
    behind: &[u8],
) -> Result<Intake, AllocError>
    requires spelled { IsSpelling (held_bytes held.old ++ last.now) }
    requires held { AreHeld held.old }
    ensures ok { IfOk result (TakesIn (held_bytes held.old) (last.now ++ behind.now) (held_bytes held.new)) }
    ensures err { OnErr result (held_bytes held.new ≡ held_bytes held.old) }
    ensures held { AreHeld held.new }
{
    let size = count(held) + last.len();
    match messages_of(alloc, one(alloc)?, behind)? {
        Batch::Bad(at) => Ok(Intake::Bad(size + at)),
        Batch::Whole(mut messages, used, place) => {
            let (_, left) = behind.split_at(used);
            let rest = kept(alloc, left)?;
            let first = complete(alloc, held, last)?;
            *held = rest;
            put_first(&mut messages, first);
            Ok(Intake::Read(messages, size + used, place))
        }
    }
}

// A list with room for a message at its front.
fn one(alloc: Global) -> Result<Vec<Message>, AllocError>
    ensures { IfOk result (λ messages. messages.items ≡ Message.NoMemory ∷ []) }
{
    let mut messages = Vec::new(alloc);
    messages.push(Message::NoMemory)?;
    Ok(messages)
}

// Puts the message in the place of the first.
fn put_first(messages: &mut Vec<Message>, first: Message)
    requires { 0 < length messages.old.items }
    ensures { messages.new.items ≡ first ∷ drop 1 messages.old.items }
{
    messages[0] = first;
}
