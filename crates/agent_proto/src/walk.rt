//! Where the first message of some bytes ends.
ghost use Rattle.std.specs.Prelude.{ℕ, List};
ghost use Rattle.agent_proto.specs.Follows.{Follows, Ends, Passes};
ghost use Rattle.agent_proto.specs.Places.{IsReached};

use crate::field_place::FieldPlace;
use crate::place::{Place, Step};

/// What bytes make of the message that they go on with.
#[derive(Clone, Copy, Debug)]
pub(crate) enum End {
    /// The message is whole with so many of them.
    Whole(usize),
    /// The message goes on behind them, from this place.
    On(Place),
    /// No message goes on with this byte of them.
    Bad(usize),
}

/// Walks from this place over the bytes, at most to the end of the message. It takes no memory.
///
/// Cost: their number; bytes that may be any are passed over at once.
pub(crate) fn walk(place: Place, bytes: &[u8]) -> End
    requires { IsReached place }
    ensures { (seen : List ℕ) → Follows seen place → Ends seen bytes.now result }
{
    let mut at = place;
    let mut index = 0;
    while index < bytes.len() {
        match at.with(bytes[index]) {
            Step::Bad => return End::Bad(index),
            Step::Whole => return End::Whole(index + 1),
            Step::On(next) => {
                index += 1;
                let (behind, passed) = pass(next, bytes.len() - index);
                at = behind;
                index += passed;
            }
        }
    }
    End::On(at)
}

// The place behind bytes that may be any: at most so many, and all but the field's last, and how many they are.
fn pass(place: Place, most: usize) -> (Place, usize)
    requires { IsReached place }
    ensures { Passes place most result }
{
    match place {
        Place::Field(FieldPlace::Any(count), behind, left) => {
            let passed = (count as usize - 1).min(most);
            let field = FieldPlace::Any(count - passed as u32);
            (Place::Field(field, behind, left - passed as u64), passed)
        }
        _ => (place, 0),
    }
}
