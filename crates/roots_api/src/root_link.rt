//! What reaches the two roots of a session.
ghost use Rattle.std.specs.Prelude.{◌≡◌, ◌≢◌, ◌≤◌, ℕ, Bool, List, Option, Result, IsTrue, IsFalse, IfOk, OnErr};
ghost use Rattle.std.specs.declared.alloc.AllocError.{AllocError};
ghost use Rattle.fault_count.specs.Rose.{Rose};
ghost use Rattle.finite_maps.specs.Told.{WhereTold};
ghost use Rattle.entry_tree.specs.declared.side.Side.{Side};
ghost use Rattle.roots_api.specs.Answers.{IsAnswerTo, is_full, is_failed, is_no_link, is_no_exec};
ghost use Rattle.roots_api.specs.Linked.{SideTold, LinksOn};
ghost use Rattle.roots_api.specs.declared.answer.Answer.{Answer};
ghost use Rattle.roots_api.specs.declared.op.Op.{Op};
ghost use Rattle.roots_api.specs.declared.who.Who.TheVariants.{Session};

use crate::answer::Answer;
use crate::op::Op;
use entry_tree::Side;
use std::alloc::{AllocError, Global};

/// The two roots of one session. Others may operate on the same roots between two calls.
pub trait RootLink {
    // The session's identifier, and the run in which the link was made.
    ghost id: { Self → ℕ };

    ghost run: { Self → ℕ };

    // The events of the link's own calls on each side, and that root's content ledger, where they are told.
    ghost told: { Self → Side → Option SideTold };

    // How many faults each side had so far, as far as they were counted.
    ghost faults: { Self → Side → ℕ };

    // How many times each side answered Full so far, as far as that was counted.
    ghost full_answers: { Self → Side → ℕ };

    // Which answer of a side to an operation in a cycle, want of memory among them, leads from which link to which.
    ghost leads: { Self → Side → ℕ → Op → Result (Answer (List ℕ)) AllocError → Self → Type 0 };

    // Whether a side's root is bounded. Only these answer Full.
    ghost is_bounded: { Self → Side → Bool };

    // Whether a side's root keeps links. Others may answer NoLink.
    ghost keeps_links: { Self → Side → Bool };

    // Whether a side's root keeps executable bits. Others may answer NoExec where a bit is to be set.
    ghost keeps_bits: { Self → Side → Bool };

    /// Does the operation for the session, in this cycle of it, on the root of the side, and answers. Want of memory leaves
    /// the counts and adds no event. (A root behind a connection may have been asked all the same.)
    fn call(&mut self, alloc: Global, side: Side, cycle: u64, op: &Op) -> Result<Answer, AllocError>
        // No answer is outside the operation's row, whatever the root is.
        ensures row { IfOk result (IsAnswerTo op.now) }

        // Where the side is told, the answer is the row's on a state of its root, and that event alone is added.
        ensures log { WhereTold (told self.old side) (told self.new side) (LinksOn (Session (id self.old) (run self.old) cycle) op.now result) }

        // Failed and Full come only where the side's counts rose, which never fall.
        ensures counts { faults self.old side ≤ faults self.new side }
        ensures failed { IfOk result (λ answer. IsTrue (is_failed answer) → Rose (faults self.old side) (faults self.new side)) }
        ensures full_counts { full_answers self.old side ≤ full_answers self.new side }
        ensures full { IfOk result (λ answer. IsTrue (is_full answer) → IsTrue (is_bounded self.old side) × Rose (full_answers self.old side) (full_answers self.new side)) }
        ensures no_link { IfOk result (λ answer. IsTrue (is_no_link answer) → IsFalse (keeps_links self.old side)) }
        ensures no_exec { IfOk result (λ answer. IsTrue (is_no_exec answer) → IsFalse (keeps_bits self.old side)) }
        ensures memory { OnErr result ((faults self.new side ≡ faults self.old side) × (full_answers self.new side ≡ full_answers self.old side)) }
        ensures step { leads self.old side cycle op.now result self.new }

        // The other side stays, and so do the session, the run and the kinds of roots.
        ensures other { (other : Side) → other ≢ side → told self.new other ≡ told self.old other }
        ensures other_faults { (other : Side) → other ≢ side → faults self.new other ≡ faults self.old other }
        ensures other_fulls { (other : Side) → other ≢ side → full_answers self.new other ≡ full_answers self.old other }
        ensures session { (id self.new ≡ id self.old) × (run self.new ≡ run self.old) }
        ensures kinds { (any : Side) → (is_bounded self.new any ≡ is_bounded self.old any) × (keeps_links self.new any ≡ keeps_links self.old any) × (keeps_bits self.new any ≡ keeps_bits self.old any) };
}
