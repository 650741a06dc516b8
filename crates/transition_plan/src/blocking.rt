//! Skipping what rests on an operation that wasn't done.
ghost use Rattle.std.specs.Prelude.{◌≡◌, ◌+◌, ◌≤◌, ◌∷◌, ◌++◌, [], List, length, None};
ghost use Rattle.std.specs.Vec.{vec_len, vec_capacity};
ghost use Rattle.entry_tree.specs.Tree.{Names};
ghost use Rattle.entry_tree.specs.declared.side.Side.{Side};
ghost use Rattle.mode_rules.specs.declared.ancestor_line.AncestorLine.{AncestorLine};
ghost use Rattle.transition_plan.specs.Courses.{is_first_blocked, settled, not_done};
ghost use Rattle.transition_plan.specs.Order.{AreInOrder, is_first_held};
ghost use Rattle.transition_plan.specs.declared.step.Step.{Step};

use crate::holding::is_held;
use crate::step::Step;
use crate::undone::{Undone, not_done};
use std::collections::VecDeque;

// Whether the first of the steps rests on those of these that tell.
fn is_first_held(undone: &[Undone], folder: usize, rest: &VecDeque<Step>) -> bool
    ensures { result ≡ is_first_held undone.now folder rest.now.items }
{
    match rest.front() {
        Some(step) => is_held(undone, folder, &step.op),
        None => false,
    }
}

// Whether the first of the steps, which are in order, rests on one of these.
fn is_first_blocked(undone: &[Undone], folder: usize, rest: &VecDeque<Step>) -> bool
    requires { AreInOrder undone.now folder rest.now.items }
    ensures { result ≡ is_first_blocked undone.now rest.now.items }
{
    is_first_held(undone, folder, rest)
}

// Skips the first of the steps.
fn skip_first(rest: &mut VecDeque<Step>, undone: &mut Vec<Undone>)
    requires room { length rest.old.items + length undone.old.items ≤ vec_capacity undone.old }
    ensures skipped { (step : Step) (others : List Step) → rest.old.items ≡ step ∷ others → (rest.new.items ≡ others) × (undone.new.items ≡ undone.old.items ++ not_done None step ∷ []) }
    ensures capacity { vec_capacity undone.new ≡ vec_capacity undone.old }
    ensures none { rest.old.items ≡ [] → (rest.new.items ≡ []) × (undone.new.items ≡ undone.old.items) }
{
    if let Some(step) = rest.pop_front() {
        undone.push_reserved(not_done(step, None));
    }
}

/// Skips the steps at the front that rest on one that wasn't done. It takes no memory. Cost: the steps that are skipped.
pub(crate) fn skip_blocked(rest: &mut VecDeque<Step>, undone: &mut Vec<Undone>, folder: usize)
    requires room { length rest.old.items + length undone.old.items ≤ vec_capacity undone.old }
    requires in_order { AreInOrder undone.old.items folder rest.old.items }
    ensures settled { (side : Side) (at : Names) (landed : List AncestorLine) → settled side at landed undone.old.items rest.old.items ≡ record { side = side; at = at; rest = rest.new.items; landed = landed; undone = undone.new.items } }
    ensures room { length rest.new.items + length undone.new.items ≤ vec_capacity undone.new }
    ensures fewer { length rest.new.items ≤ length rest.old.items }
    ensures in_order { AreInOrder undone.new.items folder rest.new.items }
{
    'turns: for _ in 0..rest.len() {
        if !is_first_blocked(undone, folder, rest) {
            return;
        }
        skip_first(rest, undone);
    }
}
