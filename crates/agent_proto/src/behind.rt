//! What is to come of a message behind the field in course.
ghost use Rattle.std.specs.Prelude.{◌≡◌, ◌<◌, ◌^◌};
ghost use Rattle.agent_proto.specs.Behinds.{asked_next, next_row, next_field, asked_sizes, entry_sizes, behind_sizes, AreFew};

use crate::field_place::{FieldPlace, Measured, Wanted};
use crate::kind::Request;
use crate::sizes::Sizes;

/// What is to come of a message behind the field in course.
#[derive(Clone, Copy, Debug)]
pub(crate) enum Behind {
    Nothing,
    Bit,
    /// What a file or a link may replace.
    Replaced,
    /// A folder, a file or a link.
    Tracked,
    /// A file, and a bit.
    FileBit,
    /// A stamp and an offset.
    Stamped,
    /// A bit, and what may be replaced.
    BitReplaced,
    /// A digest, a bit, and what may be replaced.
    Placed,
    /// A link's text, and what may be replaced.
    Linked,
    /// The fields of a request, behind who asks.
    Asked(Request),
    /// An entry, and so many rows.
    Entry(u64),
    /// So many rows: a name and an entry each.
    Rows(u64),
}

impl Behind {
    /// The next field, and what is behind it.
    pub(crate) fn next_field(self) -> Option<(FieldPlace, Behind)>
        ensures { result ≡ next_field self }
    {
        match self {
            Behind::Nothing => None,
            Behind::Bit => Some((FieldPlace::AnyThenBit(0), Behind::Nothing)),
            Behind::Replaced => Some((FieldPlace::Found(Wanted::Replaced), Behind::Nothing)),
            Behind::Tracked => Some((FieldPlace::Found(Wanted::Tracked), Behind::Nothing)),
            Behind::FileBit => Some((FieldPlace::Found(Wanted::File), Behind::Bit)),
            Behind::Stamped => Some((FieldPlace::Any(24), Behind::Nothing)),
            Behind::BitReplaced => Some((FieldPlace::AnyThenBit(0), Behind::Replaced)),
            Behind::Placed => Some((FieldPlace::Any(32), Behind::BitReplaced)),
            Behind::Linked => Some((FieldPlace::Size(Measured::Text, 2, 0), Behind::Replaced)),
            Behind::Asked(request) => asked_next(request),
            Behind::Entry(rows) => Some((FieldPlace::Found(Wanted::There), Behind::Rows(rows))),
            Behind::Rows(rows) => next_row(rows),
        }
    }

    /// How many bytes it can have.
    pub(crate) fn sizes(self) -> Sizes
        requires { AreFew self }
        ensures { result ≡ behind_sizes self }
    {
        match self {
            Behind::Nothing => Sizes::of(0),
            Behind::Bit => Sizes::of(1),
            Behind::Replaced => entry_sizes(),
            Behind::Tracked => entry_sizes(),
            Behind::FileBit => Sizes::of(19),
            Behind::Stamped => Sizes::of(24),
            Behind::BitReplaced => Sizes {
                one: 2,
                low: 5,
                high: 4100,
            },
            Behind::Placed => Sizes {
                one: 34,
                low: 37,
                high: 4132,
            },
            Behind::Linked => Sizes::between(4, 8197),
            Behind::Asked(request) => asked_sizes(request),
            Behind::Entry(rows) => row_sizes(rows),
            Behind::Rows(rows) => Sizes::between(4 * rows, 4356 * rows),
        }
    }
}

fn asked_next(request: Request) -> Option<(FieldPlace, Behind)>
    ensures { result ≡ asked_next request }
{
    let path = FieldPlace::Size(Measured::Path, 2, 0);
    match request {
        Request::List => Some((path, Behind::Nothing)),
        Request::Fetch => Some((path, Behind::Stamped)),
        Request::StageClear => None,
        Request::StageOpen => None,
        Request::StageAppend => Some((FieldPlace::Size(Measured::Bytes, 4, 0), Behind::Nothing)),
        Request::StageKeep => Some((FieldPlace::Any(32), Behind::Nothing)),
        Request::Place => Some((path, Behind::Placed)),
        Request::MakeDir => Some((path, Behind::Nothing)),
        Request::MakeLink => Some((path, Behind::Linked)),
        Request::Remove => Some((path, Behind::Tracked)),
        Request::SetExec => Some((path, Behind::FileBit)),
    }
}

fn next_row(rows: u64) -> Option<(FieldPlace, Behind)>
    ensures { result ≡ next_row rows }
{
    if rows == 0 {
        None
    } else {
        Some((
            FieldPlace::Size(Measured::Name, 2, 0),
            Behind::Entry(rows - 1),
        ))
    }
}

fn asked_sizes(request: Request) -> Sizes
    ensures { result ≡ asked_sizes request }
{
    match request {
        Request::List => Sizes::between(2, 4098),
        Request::Fetch => Sizes::between(26, 4122),
        Request::StageClear => Sizes::of(0),
        Request::StageOpen => Sizes::of(0),
        Request::StageAppend => Sizes::between(4, 4_294_967_299),
        Request::StageKeep => Sizes::of(32),
        Request::Place => Sizes::between(36, 8230),
        Request::MakeDir => Sizes::between(2, 4098),
        Request::MakeLink => Sizes::between(6, 12_295),
        Request::Remove => Sizes::between(3, 8197),
        Request::SetExec => Sizes::between(21, 4117),
    }
}

fn entry_sizes() -> Sizes
    ensures { result ≡ entry_sizes }
{
    Sizes {
        one: 1,
        low: 4,
        high: 4099,
    }
}

fn row_sizes(rows: u64) -> Sizes
    requires { rows < 2 ^ 40 }
    ensures { result ≡ behind_sizes (Behind.Entry rows) }
{
    if rows == 0 {
        entry_sizes()
    } else {
        Sizes::between(4 * rows + 1, 4356 * rows + 4099)
    }
}
