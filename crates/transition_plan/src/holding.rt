//! What an operation rests on, told by two of those that weren't done.
ghost use Rattle.std.specs.Prelude.{◌≡◌};
ghost use Rattle.std.specs.Option.{option_copied};
ghost use Rattle.transition_plan.specs.Order.{folder_with, is_held, is_made_held, rests_on_one};

use crate::resting::rests_on;
use crate::undone::Undone;
use roots_api::Op;

// Whether the operation rests on this one, if there is one.
fn rests_on_one(op: &Op, earlier: Option<&Undone>) -> bool
    ensures { result ≡ rests_on_one op.now (option_copied earlier.entry) }
{
    match earlier {
        Some(earlier) => rests_on(op, &earlier.op),
        None => false,
    }
}

// Whether it rests on the first of these, or on the folder in charge.
fn is_made_held(undone: &[Undone], folder: usize, op: &Op) -> bool
    ensures { result ≡ is_made_held undone.now folder op.now }
{
    rests_on_one(op, undone.first()) || rests_on_one(op, undone.get(folder))
}

/// Whether the operation rests on those that tell: a removal on the last of these, and anything else on the first, or on the folder
/// in charge. It takes no memory. Cost: two comparisons of paths.
pub(crate) fn is_held(undone: &[Undone], folder: usize, op: &Op) -> bool
    ensures { result ≡ is_held undone.now folder op.now }
{
    match op {
        Op::Remove { .. } => rests_on_one(op, undone.last()),
        _ => is_made_held(undone, folder, op),
    }
}

/// The place of the folder in charge once the operation isn't done either. It takes no memory.
pub(crate) fn folder_with(undone: &[Undone], folder: usize, op: &Op) -> usize
    ensures { result ≡ folder_with undone.now folder op.now }
{
    match op {
        Op::MakeDir { .. } => {
            if is_held(undone, folder, op) {
                folder
            } else {
                undone.len()
            }
        }
        _ => folder,
    }
}
