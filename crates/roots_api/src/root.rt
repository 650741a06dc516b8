//! What a root is.
ghost use Rattle.std.specs.Prelude.{◌≡◌, ℕ, Bool, List, Option, Result, IsTrue, IsFalse, IfOk, OnErr, IfSome, ◌≤◌};
ghost use Rattle.std.specs.declared.alloc.AllocError.{AllocError};
ghost use Rattle.fault_count.specs.Rose.{Rose};
ghost use Rattle.finite_maps.specs.Told.{WhereTold};
ghost use Rattle.roots_api.specs.Answers.{IsAnswerTo, is_full, is_failed, is_no_link, is_no_exec};
ghost use Rattle.roots_api.specs.Logs.{IsLegal};
ghost use Rattle.roots_api.specs.Told.{IsSession, CallsOn};
ghost use Rattle.roots_api.specs.declared.answer.Answer.{Answer};
ghost use Rattle.roots_api.specs.declared.event.Event.{Event};
ghost use Rattle.roots_api.specs.declared.op.Op.{Op};
ghost use Rattle.roots_api.specs.declared.who.Who.{Who};

use crate::answer::Answer;
use crate::op::Op;
use crate::who::Who;
use std::alloc::{AllocError, Global};

/// A file tree that sessions operate on, one checked operation at a time.
pub trait Root {
    // Its log, the oldest event first, where it tells it. The fold of the log, `state_of`, is its state, with the content
    // ledger.
    ghost told: { Self → Option (List Event) };

    // How many faults there were so far, as far as they were counted.
    ghost faults: { Self → ℕ };

    // How many times it answered Full so far, as far as that was counted.
    ghost full_answers: { Self → ℕ };

    // Which answer to an operation, want of memory among them, leads from which root to which.
    ghost leads: { Self → Who → Op → Result (Answer (List ℕ)) AllocError → Self → Type 0 };

    // Whether roots of its type are bounded. Only these answer Full.
    ghost is_bounded: { Bool };

    // Whether roots of its type keep links. The others may answer NoLink.
    ghost keeps_links: { Bool };

    // Whether roots of its type keep executable bits. The others may answer NoExec where a bit is to be set.
    ghost keeps_bits: { Bool };

    /// Does the operation for the session, and answers. Want of memory leaves the counts, and the log where it is told. (A
    /// root behind a connection may have been asked all the same.)
    fn call(&mut self, alloc: Global, who: &Who, op: &Op) -> Result<Answer, AllocError>
        requires { IsSession who.now }

        // No answer is outside the operation's row, whatever the root is.
        ensures row { IfOk result (IsAnswerTo op.now) }

        // Where its log is told, the answer is the row's on its state, and the log grows by that event alone.
        ensures log { WhereTold (told self.old) (told self.new) (CallsOn who.now op.now result) }
        ensures legal { IfSome (told self.new) IsLegal }

        // Failed and Full come only where their counts rose, which never fall.
        ensures counts { faults self.old ≤ faults self.new }
        ensures failed { IfOk result (λ answer. IsTrue (is_failed answer) → Rose (faults self.old) (faults self.new)) }
        ensures full_counts { full_answers self.old ≤ full_answers self.new }
        ensures full { IfOk result (λ answer. IsTrue (is_full answer) → IsTrue is_bounded × Rose (full_answers self.old) (full_answers self.new)) }
        ensures no_link { IfOk result (λ answer. IsTrue (is_no_link answer) → IsFalse keeps_links) }
        ensures no_exec { IfOk result (λ answer. IsTrue (is_no_exec answer) → IsFalse keeps_bits) }
        ensures memory { OnErr result ((faults self.new ≡ faults self.old) × (full_answers self.new ≡ full_answers self.old)) }
        ensures step { leads self.old who.now op.now result self.new };
}
