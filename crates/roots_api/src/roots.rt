//! What several roots with names are.
ghost use Rattle.std.specs.Prelude.{◌≡◌, ◌≢◌, ◌≤◌, ℕ, Bool, List, Option, Result, Some, IsTrue, IsFalse, IfOk, OnErr, IfSome};
ghost use Rattle.std.specs.declared.alloc.AllocError.{AllocError};
ghost use Rattle.fault_count.specs.Rose.{Rose};
ghost use Rattle.finite_maps.specs.Told.{WhereTold};
ghost use Rattle.roots_api.specs.Answers.{IsAnswerTo, is_full, is_failed, is_no_link, is_no_exec};
ghost use Rattle.roots_api.specs.Logs.{IsLegal, state_of};
ghost use Rattle.roots_api.specs.Told.{IsSession, CallsOn, EditsOn};
ghost use Rattle.roots_api.specs.Views.{view_of};
ghost use Rattle.roots_api.specs.declared.answer.Answer.{Answer};
ghost use Rattle.roots_api.specs.declared.edit.Edit.{Edit};
ghost use Rattle.roots_api.specs.declared.edit_error.EditError.{EditError};
ghost use Rattle.roots_api.specs.declared.event.Event.{Event};
ghost use Rattle.roots_api.specs.declared.op.Op.{Op};
ghost use Rattle.roots_api.specs.declared.root_id.RootId.{RootId};
ghost use Rattle.roots_api.specs.declared.who.Who.{Who};

use crate::answer::Answer;
use crate::edit::Edit;
use crate::edit_error::EditError;
use crate::op::Op;
use crate::root_id::RootId;
use crate::who::Who;
use entry_tree::Tree;
use std::alloc::{AllocError, Global};

/// Several roots, each with a name and a number. Each call speaks of one of them, which `find` gives for some name, and
/// leaves the others.
pub trait Roots {
    // The root of a name.
    ghost named: { Self → List ℕ → Option RootId };

    // The log of each root, the oldest event first, where it is told. The fold of the log, `state_of`, is the root's state,
    // with its content ledger.
    ghost told: { Self → RootId → Option (List Event) };

    // How many faults each root had so far, as far as they were counted.
    ghost faults: { Self → RootId → ℕ };

    // How many times each root answered Full so far, as far as that was counted.
    ghost full_answers: { Self → RootId → ℕ };

    // Which answer of a root to an operation, want of memory among them, leads from which roots to which.
    ghost leads: { Self → RootId → Who → Op → Result (Answer (List ℕ)) AllocError → Self → Type 0 };

    // Which outcome of an editor's change of a root leads from which roots to which.
    ghost edits: { Self → RootId → Edit → Result Unit EditError → Self → Type 0 };

    // Whether the roots are bounded. Only these answer Full.
    ghost is_bounded: { Bool };

    // Whether the roots keep links. Others may answer NoLink.
    ghost keeps_links: { Bool };

    // Whether the roots keep executable bits. Others may answer NoExec where a bit is to be set.
    ghost keeps_bits: { Bool };

    /// The root of this name. Each log that is told is legal. It takes no memory.
    fn find(&self, name: &str) -> Option<RootId>
        ensures value { result ≡ named self.now name.now }
        ensures legal { (root : RootId) → IfSome (told self.now root) IsLegal };

    /// Does the operation for the session on the root, and answers. Want of memory leaves the counts, and the log where it
    /// is told. (A root behind a connection may have been asked all the same.)
    fn call(
        &mut self,
        alloc: Global,
        root: RootId,
        who: &Who,
        op: &Op,
    ) -> Result<Answer, AllocError>
        requires found { (name : List ℕ) × (named self.old name ≡ Some root) }
        requires session { IsSession who.now }

        // No answer is outside the operation's row, whatever the roots are.
        ensures row { IfOk result (IsAnswerTo op.now) }

        // Where the root's log is told, the answer is the row's on its state, and the log grows by that event alone.
        ensures log { WhereTold (told self.old root) (told self.new root) (CallsOn who.now op.now result) }
        ensures legal { IfSome (told self.new root) IsLegal }

        // Failed and Full come only where the root's counts rose, which never fall.
        ensures counts { faults self.old root ≤ faults self.new root }
        ensures failed { IfOk result (λ answer. IsTrue (is_failed answer) → Rose (faults self.old root) (faults self.new root)) }
        ensures full_counts { full_answers self.old root ≤ full_answers self.new root }
        ensures full { IfOk result (λ answer. IsTrue (is_full answer) → IsTrue is_bounded × Rose (full_answers self.old root) (full_answers self.new root)) }
        ensures no_link { IfOk result (λ answer. IsTrue (is_no_link answer) → IsFalse keeps_links) }
        ensures no_exec { IfOk result (λ answer. IsTrue (is_no_exec answer) → IsFalse keeps_bits) }
        ensures memory { OnErr result ((faults self.new root ≡ faults self.old root) × (full_answers self.new root ≡ full_answers self.old root)) }
        ensures step { leads self.old root who.now op.now result self.new }

        // All other roots stay, and so do the names.
        ensures others { (other : RootId) → other ≢ root → told self.new other ≡ told self.old other }
        ensures other_faults { (other : RootId) → other ≢ root → faults self.new other ≡ faults self.old other }
        ensures other_fulls { (other : RootId) → other ≢ root → full_answers self.new other ≡ full_answers self.old other }
        ensures names { (name : List ℕ) → named self.new name ≡ named self.old name };

    /// Makes an editor's change of the root. Where it isn't done, the log stays where it is told. It leaves the counts.
    fn edit(&mut self, alloc: Global, root: RootId, change: &Edit) -> Result<(), EditError>
        requires { (name : List ℕ) × (named self.old name ≡ Some root) }

        // Where the root's log is told, each refusal has its cause, and a change that is done is one event.
        ensures log { WhereTold (told self.old root) (told self.new root) (EditsOn change.now result) }
        ensures legal { IfSome (told self.new root) IsLegal }
        ensures faults { (any : RootId) → faults self.new any ≡ faults self.old any }
        ensures fulls { (any : RootId) → full_answers self.new any ≡ full_answers self.old any }
        ensures step { edits self.old root change.now result self.new }

        // All other roots stay, and so do the names.
        ensures others { (other : RootId) → other ≢ root → told self.new other ≡ told self.old other }
        ensures names { (name : List ℕ) → named self.new name ≡ named self.old name };

    /// What the root shows: a file has the digest of its content and its executable bit, and what is never tracked is
    /// untracked.
    fn view(&self, alloc: Global, root: RootId) -> Result<Tree, AllocError>
        requires { (name : List ℕ) × (named self.now name ≡ Some root) }
        ensures { IfOk result (λ tree. IfSome (told self.now root) (λ log. tree ≡ view_of (state_of log))) };

    // Different names are those of different roots.
    ghost apart: { (roots : Self) (name other : List ℕ) (root : RootId) → named roots name ≡ Some root → named roots other ≡ Some root → name ≡ other };
}
