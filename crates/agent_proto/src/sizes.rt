//! How many bytes a part of a message can have.
ghost use Rattle.std.specs.Prelude.{◌≡◌, ◌<◌, ◌≤◌, ◌*◌, ◌^◌};
ghost use Rattle.agent_proto.specs.FieldPlaces.{worth, most_size, IsPlace};
ghost use Rattle.agent_proto.specs.Sizes.{IsSmall, of_size, between, is_within, meets, measured_sizes, found_sizes, field_sizes};

use crate::field_place::{FieldPlace, Measured, Wanted, worth};

/// The numbers of bytes that a part can have: one, and those from the least to the greatest.
#[derive(Clone, Copy, Debug)]
pub(crate) struct Sizes {
    pub(crate) one: u64,
    pub(crate) low: u64,
    pub(crate) high: u64,
}

impl Sizes {
    /// This number alone.
    pub(crate) fn of(size: u64) -> Sizes
        ensures { result ≡ of_size size }
    {
        Sizes {
            one: size,
            low: size,
            high: size,
        }
    }

    /// From the least to the greatest.
    pub(crate) fn between(low: u64, high: u64) -> Sizes
        ensures { result ≡ between low high }
    {
        Sizes {
            one: low,
            low,
            high,
        }
    }

    /// Whether a part with one of these sizes, and another behind it with one of the others, can have so many bytes.
    pub(crate) fn meets(self, behind: Sizes, left: u64) -> bool
        requires first { IsSmall self }
        requires second { IsSmall behind }
        ensures { result ≡ meets self behind left }
    {
        self.one + behind.one == left
            || is_within(self.one + behind.low, self.one + behind.high, left)
            || is_within(self.low + behind.one, self.high + behind.one, left)
            || is_within(self.low + behind.low, self.high + behind.high, left)
    }
}

// Whether it lies there.
fn is_within(low: u64, high: u64, left: u64) -> bool
    ensures { result ≡ is_within low high left }
{
    low <= left && left <= high
}

// What is as long as was said, with so many bytes of its length, those before them having this value.
fn measured_sizes(measured: Measured, due: u32, value: u64) -> Sizes
    requires due { due ≤ 4 }
    requires value { value * worth due ≤ most_size measured }
    ensures { result ≡ measured_sizes measured due value }
{
    let worth = worth(due);
    let least = measured.least_size().max(value * worth);
    let most = measured.most_size().min((value + 1) * worth - 1);
    Sizes::between(due as u64 + least, due as u64 + most)
}

fn found_sizes(wanted: Wanted) -> Sizes
    ensures { result ≡ found_sizes wanted }
{
    match wanted {
        Wanted::File => Sizes::of(18),
        _ => Sizes {
            one: 1,
            low: 4,
            high: 4099,
        },
    }
}

impl FieldPlace {
    /// How many bytes it can have.
    pub(crate) fn sizes(self) -> Sizes
        requires { IsPlace self }
        ensures value { result ≡ field_sizes self }
        ensures small { IsSmall result }
    {
        match self {
            FieldPlace::Any(count) => Sizes::of(count as u64),
            FieldPlace::AnyThenBit(count) => Sizes::of(count as u64 + 1),
            FieldPlace::Found(wanted) => found_sizes(wanted),
            FieldPlace::Done => Sizes {
                one: 1,
                low: 17,
                high: 17,
            },
            FieldPlace::Size(measured, due, value) => measured_sizes(measured, due, value),
            FieldPlace::Path(_, left) => Sizes::of(left as u64),
            FieldPlace::Text(_, left) => Sizes::of(left as u64),
        }
    }
}
