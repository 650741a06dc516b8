//! Where in a message's field its first bytes end.
ghost use Rattle.std.specs.Prelude.{◌≡◌, ◌<◌, ◌^◌, ◌*◌, ◌+◌, ◌-◌, ◌≤◌, Some, None};
ghost use Rattle.agent_proto.specs.Characters.{char_step};
ghost use Rattle.agent_proto.specs.PathPlaces.{path_step};
ghost use Rattle.agent_proto.specs.FieldPlaces.{may_be_none, may_be_dir, may_be_link, may_be_other, some_bytes, whole_if, link_if, path_left, text_left, IsPlace, least_size, most_size, worth, behind_size, size_step, any_step, bit_step, found_step, done_step, path_next, text_next, field_step};

use crate::character::Begun;
use crate::path_place::PathPlace;

/// Which entries may stand in a field.
#[derive(Clone, Copy, Debug)]
pub(crate) enum Wanted {
    /// Each, and nothing.
    Any,
    /// Each.
    There,
    /// What a file or a link may replace: nothing, a file or a link.
    Replaced,
    /// A folder, a file or a link.
    Tracked,
    /// A file.
    File,
}

/// What has its length before it.
#[derive(Clone, Copy, Debug)]
pub(crate) enum Measured {
    /// A path's text.
    Path,
    /// A name.
    Name,
    /// A link's text.
    Text,
    /// Bytes.
    Bytes,
    /// The bytes of a piece.
    Piece,
}

/// What is still to come of a field.
#[derive(Clone, Copy, Debug)]
pub(crate) enum FieldPlace {
    /// So many bytes.
    Any(u32),
    /// So many bytes, and then a bit.
    AnyThenBit(u32),
    /// An entry, or nothing.
    Found(Wanted),
    /// A stamp, or none.
    Done,
    /// So many bytes of a length, those before them having this value, and then what is as long.
    Size(Measured, u32, u64),
    /// So many bytes of a path's text, from this place on.
    Path(PathPlace, u32),
    /// So many bytes of a text, from this place on.
    Text(Begun, u32),
}

/// What a byte makes of a field.
#[derive(Clone, Copy, Debug)]
pub(crate) enum Next {
    /// No field goes on with it.
    Refused,
    /// The field is whole with it.
    Whole,
    /// The field goes on behind it.
    On(FieldPlace),
}

impl Wanted {
    // Whether nothing may stand there.
    fn may_be_none(self) -> bool
        ensures { result ≡ may_be_none self }
    {
        match self {
            Wanted::Any => true,
            Wanted::Replaced => true,
            _ => false,
        }
    }

    // Whether a folder may stand there.
    fn may_be_dir(self) -> bool
        ensures { result ≡ may_be_dir self }
    {
        match self {
            Wanted::Replaced => false,
            Wanted::File => false,
            _ => true,
        }
    }

    // Whether a link may stand there.
    fn may_be_link(self) -> bool
        ensures { result ≡ may_be_link self }
    {
        match self {
            Wanted::File => false,
            _ => true,
        }
    }

    // Whether another thing may stand there.
    fn may_be_other(self) -> bool
        ensures { result ≡ may_be_other self }
    {
        match self {
            Wanted::Any => true,
            Wanted::There => true,
            _ => false,
        }
    }
}

impl Measured {
    /// The least length.
    pub(crate) fn least_size(self) -> u64
        ensures { result ≡ least_size self }
    {
        match self {
            Measured::Name => 1,
            Measured::Text => 1,
            _ => 0,
        }
    }

    /// The greatest length.
    pub(crate) fn most_size(self) -> u64
        ensures { result ≡ most_size self }
    {
        match self {
            Measured::Path => 4096,
            Measured::Name => 255,
            Measured::Text => 4096,
            Measured::Bytes => 4_294_967_295,
            Measured::Piece => 65_536,
        }
    }
}

/// What a byte is worth that so many others follow, at most four.
pub(crate) fn worth(due: u32) -> u64
    ensures { result ≡ worth due }
{
    match due {
        0 => 1,
        1 => 256,
        2 => 65_536,
        3 => 16_777_216,
        _ => 4_294_967_296,
    }
}

// What is as long as was said.
fn behind_size(measured: Measured, size: u32) -> Next
    ensures { result ≡ behind_size measured size }
{
    match measured {
        Measured::Path => {
            if size == 0 {
                Next::Whole
            } else {
                Next::On(FieldPlace::Path(PathPlace::start(63), size))
            }
        }
        Measured::Name => Next::On(FieldPlace::Path(PathPlace::start(0), size)),
        Measured::Text => Next::On(FieldPlace::Text(Begun::Whole, size)),
        Measured::Bytes => some_bytes(size),
        Measured::Piece => some_bytes(size),
    }
}

// So many bytes, or none.
fn some_bytes(size: u32) -> Next
    ensures { result ≡ some_bytes size }
{
    if size == 0 {
        Next::Whole
    } else {
        Next::On(FieldPlace::Any(size))
    }
}

// The next byte of a length, of which so many are to come, and those so far have this value.
fn size_step(measured: Measured, due: u32, value: u64) -> Next
    requires value { value < 2 ^ 40 }
    requires due { due ≤ 3 }
    ensures { result ≡ size_step measured due value }
{
    if value * worth(due) > measured.most_size() {
        return Next::Refused;
    }
    if due > 0 {
        return Next::On(FieldPlace::Size(measured, due, value));
    }
    if value < measured.least_size() {
        return Next::Refused;
    }
    behind_size(measured, value as u32)
}

fn any_step(count: u32) -> Next
    ensures { result ≡ any_step count }
{
    if count <= 1 {
        Next::Whole
    } else {
        Next::On(FieldPlace::Any(count - 1))
    }
}

fn bit_step(count: u32, byte: u8) -> Next
    ensures { result ≡ bit_step count byte }
{
    if count > 0 {
        Next::On(FieldPlace::AnyThenBit(count - 1))
    } else if byte <= 1 {
        Next::Whole
    } else {
        Next::Refused
    }
}

// The field is whole, if it may be.
fn whole_if(may: bool) -> Next
    ensures { result ≡ whole_if may }
{
    if may { Next::Whole } else { Next::Refused }
}

fn link_if(may: bool) -> Next
    ensures { result ≡ link_if may }
{
    if may {
        Next::On(FieldPlace::Size(Measured::Text, 2, 0))
    } else {
        Next::Refused
    }
}

fn found_step(wanted: Wanted, byte: u8) -> Next
    ensures { result ≡ found_step wanted byte }
{
    match byte {
        0 => whole_if(wanted.may_be_none()),
        1 => whole_if(wanted.may_be_dir()),
        2 => Next::On(FieldPlace::AnyThenBit(16)),
        3 => link_if(wanted.may_be_link()),
        4 => whole_if(wanted.may_be_other()),
        _ => Next::Refused,
    }
}

fn done_step(byte: u8) -> Next
    ensures { result ≡ done_step byte }
{
    match byte {
        0 => Next::Whole,
        1 => Next::On(FieldPlace::Any(16)),
        _ => Next::Refused,
    }
}

fn path_next(place: Option<PathPlace>, left: u32) -> Next
    ensures { result ≡ path_next place left }
{
    match place {
        None => Next::Refused,
        Some(place) => path_left(place, left),
    }
}

fn path_left(place: PathPlace, left: u32) -> Next
    ensures { result ≡ path_left place left }
{
    if !place.can_end(left) {
        Next::Refused
    } else if left == 0 {
        Next::Whole
    } else {
        Next::On(FieldPlace::Path(place, left))
    }
}

fn text_next(begun: Option<Begun>, left: u32) -> Next
    ensures { result ≡ text_next begun left }
{
    match begun {
        None => Next::Refused,
        Some(begun) => text_left(begun, left),
    }
}

fn text_left(begun: Begun, left: u32) -> Next
    ensures { result ≡ text_left begun left }
{
    if begun.bytes_due() > left {
        Next::Refused
    } else if left == 0 {
        Next::Whole
    } else {
        Next::On(FieldPlace::Text(begun, left))
    }
}

impl FieldPlace {
    /// What this byte makes of the field.
    pub(crate) fn with(self, byte: u8) -> Next
        requires { IsPlace self }
        ensures { result ≡ field_step self byte }
    {
        match self {
            FieldPlace::Any(count) => any_step(count),
            FieldPlace::AnyThenBit(count) => bit_step(count, byte),
            FieldPlace::Found(wanted) => found_step(wanted, byte),
            FieldPlace::Done => done_step(byte),
            FieldPlace::Size(measured, due, value) => {
                size_step(measured, due - 1, value * 256 + byte as u64)
            }
            FieldPlace::Path(place, left) => path_next(place.with(byte), left - 1),
            FieldPlace::Text(begun, left) => text_next(begun.with(byte), left - 1),
        }
    }
}
