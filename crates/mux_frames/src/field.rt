//! Numbers of a frame, high byte first, and where one goes wrong.
ghost use Rattle.std.specs.Prelude.{◌≤◌, ◌<◌, ◌^◌};
ghost use Rattle.mux_frames.specs.Bytes.{bytes_of};
ghost use Rattle.mux_frames.specs.Numbers.{ReadsNumber};

use crate::rest::Rest;

/// What stands where a number is to stand.
#[derive(Clone, Copy, Debug)]
pub(crate) enum Field {
    /// The number.
    Whole(u32),
    /// The bytes end before it does.
    Short,
    /// At this byte no number that is allowed goes on.
    Bad(usize),
}

/// Reads a number of `width` bytes, high byte first, from `low` to `high`.
pub(crate) fn field_at(rest: &Rest<'_>, width: u32, low: u32, high: u32) -> Field
    requires width { 256 ^ width ≤ 2 ^ 32 }
    requires range { low ≤ high }
    requires top { high < 256 ^ width }
    ensures { ReadsNumber width low high (bytes_of rest.now) result }
{
    // The numbers that go on from the bytes so far are `least` and the `span - 1` behind it.
    let mut least: u64 = 0;
    let mut span: u64 = 256u64.pow(width);
    for i in 0..width as usize {
        if i == rest.len() {
            return Field::Short;
        }
        span /= 256;
        least += rest.byte(i) as u64 * span;
        if least > high as u64 || least + span <= low as u64 {
            return Field::Bad(i);
        }
    }
    Field::Whole(least as u32)
}
