//! Where in a message its first bytes end.
ghost use Rattle.std.specs.Prelude.{◌≡◌, ◌<◌, ◌≤◌, ◌^◌};
ghost use Rattle.agent_proto.specs.Behinds.{AreFew, next_field};
ghost use Rattle.agent_proto.specs.FieldPlaces.{IsPlace};
ghost use Rattle.agent_proto.specs.Places.{start, whole_if_none, after, in_field, can_count, in_count, reply_start, other_start, kind_start, is_length, in_head, step, IsReached, IsNext};

use crate::behind::Behind;
use crate::field_place::{FieldPlace, Measured, Next, Wanted, worth};
use crate::kind::{Reply, Request, reply_of, request_of};
use crate::limits::MAX_MESSAGE;

/// Where in a message its first bytes end.
#[derive(Clone, Copy, Debug)]
pub(crate) enum Place {
    /// So many bytes of the length are to come, and those before them have this value.
    Head(u32, u64),
    /// The kind is to come, and with it so many bytes.
    Kind(u64),
    /// So many bytes of the number of rows are to come, and those before them have this value; so many bytes in all.
    Count(u32, u64, u64),
    /// This field is in course, that is behind it, and so many bytes are to come in all.
    Field(FieldPlace, Behind, u64),
}

/// What a byte makes of a message.
#[derive(Clone, Copy, Debug)]
pub(crate) enum Step {
    /// No message goes on with it.
    Bad,
    /// The message is whole with it.
    Whole,
    /// The message goes on behind it.
    On(Place),
}

impl Place {
    /// Before a message.
    pub(crate) fn start() -> Place
        ensures { result ≡ Place.Head 4 0 }
    {
        Place::Head(4, 0)
    }

    /// What this byte makes of the message.
    pub(crate) fn with(self, byte: u8) -> Step
        requires { IsReached self }
        ensures { result ≡ step self byte }
    {
        match self {
            Place::Head(due, value) => in_head(due - 1, value * 256 + byte as u64),
            Place::Kind(left) => kind_start(request_of(byte), byte, left - 1),
            Place::Count(due, value, left) => {
                in_count(due - 1, value * 256 + byte as u64, left - 1)
            }
            Place::Field(field, behind, left) => in_field(field.with(byte), behind, left - 1),
        }
    }
}

// The field begins, if it and what is behind it can have so many bytes.
fn start(field: FieldPlace, behind: Behind, left: u64) -> Step
    requires place { IsPlace field }
    requires few { AreFew behind }
    ensures { result ≡ start field behind left }
{
    if field.sizes().meets(behind.sizes(), left) {
        Step::On(Place::Field(field, behind, left))
    } else {
        Step::Bad
    }
}

// The message is whole, if no byte is to come.
fn whole_if_none(left: u64) -> Step
    ensures { result ≡ whole_if_none left }
{
    if left == 0 { Step::Whole } else { Step::Bad }
}

// A field is whole, and this is behind it.
fn after(behind: Behind, left: u64) -> Step
    requires { AreFew behind }
    ensures { result ≡ after (next_field behind) left }
{
    match behind.next_field() {
        None => whole_if_none(left),
        Some((field, behind)) => start(field, behind, left),
    }
}

// What the byte made of the field, and this is behind it.
fn in_field(next: Next, behind: Behind, left: u64) -> Step
    requires place { IsNext next }
    requires few { AreFew behind }
    ensures { result ≡ in_field next behind left }
{
    match next {
        Next::Refused => Step::Bad,
        Next::Whole => after(behind, left),
        Next::On(field) => start(field, behind, left),
    }
}

// Whether the number of rows, of which so many bytes are to come, and the rows can have so many bytes.
fn can_count(due: u32, value: u64, left: u64) -> bool
    requires due { due ≤ 4 }
    requires value { value < 2 ^ 40 }
    requires left { left < 2 ^ 40 }
    ensures { result ≡ can_count due value left }
{
    let due_bytes = due as u64;
    let worth = worth(due) as u128;
    let least = 4 * (value as u128 * worth) + due_bytes as u128;
    let most = 4356 * ((value as u128 + 1) * worth - 1) + due_bytes as u128;
    due_bytes <= left
        && least <= left as u128
        && left as u128 <= most
        && (left == due_bytes || due_bytes + 4 <= left)
}

// The next byte of the number of rows.
fn in_count(due: u32, value: u64, left: u64) -> Step
    requires due { due ≤ 4 }
    requires value { value < 2 ^ 40 }
    requires left { left < 2 ^ 40 }
    ensures { result ≡ in_count due value left }
{
    if !can_count(due, value, left) {
        Step::Bad
    } else if due == 0 {
        after(Behind::Rows(value), left)
    } else {
        Step::On(Place::Count(due, value, left))
    }
}

// Behind the kind of an answer.
fn reply_start(reply: Reply, left: u64) -> Step
    requires { left < 2 ^ 40 }
    ensures { result ≡ reply_start reply left }
{
    match reply {
        Reply::Listed => in_count(4, 0, left),
        Reply::Held => start(FieldPlace::Found(Wanted::Any), Behind::Nothing, left),
        Reply::Piece => start(FieldPlace::Size(Measured::Piece, 4, 0), Behind::Bit, left),
        Reply::Changed => start(FieldPlace::Found(Wanted::Any), Behind::Nothing, left),
        Reply::TooLarge => start(FieldPlace::Any(8), Behind::Nothing, left),
        Reply::DigestDiffers => start(FieldPlace::Any(64), Behind::Nothing, left),
        Reply::Done => start(FieldPlace::Done, Behind::Nothing, left),
        Reply::NoParent => start(FieldPlace::Found(Wanted::Any), Behind::Nothing, left),
        Reply::Differs => start(FieldPlace::Found(Wanted::Any), Behind::Nothing, left),
        Reply::Full => start(FieldPlace::Any(16), Behind::Nothing, left),
        Reply::TooLong => start(FieldPlace::Any(8), Behind::Nothing, left),
        Reply::Cleared => whole_if_none(left),
        Reply::Opened => whole_if_none(left),
        Reply::NotStaged => whole_if_none(left),
        Reply::Kept => whole_if_none(left),
        Reply::NotEmpty => whole_if_none(left),
        Reply::NoExec => whole_if_none(left),
        Reply::Failed => whole_if_none(left),
        Reply::NoMemory => whole_if_none(left),
        Reply::NoLink => whole_if_none(left),
    }
}

// Behind a kind that is no request's.
fn other_start(reply: Option<Reply>, left: u64) -> Step
    requires { left < 2 ^ 40 }
    ensures { result ≡ other_start reply left }
{
    match reply {
        None => Step::Bad,
        Some(reply) => reply_start(reply, left),
    }
}

// Behind a kind.
fn kind_start(request: Option<Request>, byte: u8, left: u64) -> Step
    requires { left < 2 ^ 40 }
    ensures { result ≡ kind_start request byte left }
{
    match request {
        None => other_start(reply_of(byte), left),
        Some(request) => start(FieldPlace::Any(28), Behind::Asked(request), left),
    }
}

// Whether a message has so many bytes behind its length.
fn is_length(size: u64) -> bool
    ensures { result ≡ is_length size }
{
    size == 1 || size == 2 || 5 <= size && size <= MAX_MESSAGE as u64
}

// The next byte of the length.
fn in_head(due: u32, value: u64) -> Step
    requires due { due ≤ 3 }
    requires value { value < 2 ^ 40 }
    ensures { result ≡ in_head due value }
{
    if due == 0 {
        if is_length(value) {
            Step::On(Place::Kind(value))
        } else {
            Step::Bad
        }
    } else if value * worth(due) <= MAX_MESSAGE as u64 {
        Step::On(Place::Head(due, value))
    } else {
        Step::Bad
    }
}
