//! Laws of kept frames, for all frames. Each law is the contract of a function that does nothing.
ghost use Rattle.std.specs.Prelude.{◌≡◌, ◌≤◌, ℕ, List};
ghost use Rattle.frame_text.specs.Folds.{Folded, FoldsTo, IsBadFrame};
ghost use Rattle.frame_text.specs.declared.head.TheConstants.{MAX_RUN};
ghost use Rattle.ancestor_store.specs.Compacting.{Compacts};

/// Kept frames have a fold, or a frame that is outside the grammar, and not both; and there is one such frame at most. So
/// `Ancestor::open_from` answers with the one or the other, as long as there is memory.
pub fn one_answer_of_frames()
    ensures not_both { (frames : List (List ℕ)) (folded : Folded) (number : ℕ) → FoldsTo frames folded → IsBadFrame frames number → ⊥ }
    ensures not_neither { (frames : List (List ℕ)) → ((folded : Folded) → FoldsTo frames folded → ⊥) → ((number : ℕ) → IsBadFrame frames number → ⊥) → ⊥ }
    ensures one_bad { (frames : List (List ℕ)) (number other : ℕ) → IsBadFrame frames number → IsBadFrame frames other → number ≡ other }
{}

/// Compaction leaves the fold of a session's frames as it is, the served reset included; and it leaves frames of which one is outside the grammar.
pub fn compaction_keeps_the_fold()
    ensures fold { (run : ℕ) (old new : List (List ℕ)) (folded : Folded) → run ≤ MAX_RUN → Compacts run old new → FoldsTo old folded → FoldsTo new folded }
    ensures bad { (run number : ℕ) (old new : List (List ℕ)) → Compacts run old new → IsBadFrame old number → new ≡ old }
{}
