//! The whole messages at the front of some bytes.
ghost use Rattle.std.specs.Prelude.{IfOk};
ghost use Rattle.agent_proto.specs.Batches.{Finds, IsSpelt};
ghost use Rattle.agent_proto.specs.Streams.{IsSpelling};

use crate::message::Message;
use crate::place::Place;
use crate::read::read_body;
use crate::walk::{End, walk};
use std::alloc::{AllocError, Global};

/// What the bytes are.
pub(crate) enum Batch {
    /// These messages, so many bytes of them, and then less than a whole one, which goes on from this place.
    Whole(Vec<Message>, usize, Place),
    /// No message goes on with this byte.
    Bad(usize),
}

/// The message that these bytes are.
pub(crate) fn message_of(alloc: Global, bytes: &[u8]) -> Result<Message, AllocError>
    requires { IsSpelling bytes.now }
    ensures { IfOk result (IsSpelt bytes.now) }
{
    let (_, body) = bytes.split_at(4);
    match read_body(alloc, body)? {
        Some(message) => Ok(message),
        None => unreachable!(),
    }
}

/// Reads the messages of the bytes one behind the other, and puts them behind those that are there.
pub(crate) fn messages_of(
    alloc: Global,
    mut messages: Vec<Message>,
    bytes: &[u8],
) -> Result<Batch, AllocError>
    ensures { IfOk result (Finds messages.items bytes.now) }
{
    let mut used = 0usize;
    loop {
        let (_, rest) = bytes.split_at(used);
        match walk(Place::start(), rest) {
            End::Bad(at) => return Ok(Batch::Bad(used + at)),
            End::On(place) => return Ok(Batch::Whole(messages, used, place)),
            End::Whole(size) => {
                let (spelling, _) = rest.split_at(size);
                messages.push(message_of(alloc, spelling)?)?;
                used += size;
            }
        }
    }
}
