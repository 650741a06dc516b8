//! Laws of payloads and their folds, for all bytes. Each law is the contract of a function that does nothing.
ghost use Rattle.std.specs.Prelude.{◌≡◌, ◌++◌, ◌∷◌, ◌<◌, ◌≤◌, ◌^◌, ℕ, List, [], Some, None};
ghost use Rattle.frame_text.specs.Agreed.{AreAgreed};
ghost use Rattle.frame_text.specs.Folds.{Folded, FoldsTo, unfolded, with_payload};
ghost use Rattle.frame_text.specs.Payloads.{IsPayload, Spells};
ghost use Rattle.frame_text.specs.declared.head.TheConstants.{MAX_RUN};
ghost use Rattle.frame_text.specs.declared.payload.Payload.{Payload};
ghost use Rattle.frame_text.specs.declared.payload.Payload.TheVariants.{Agree, Reset};
ghost use Rattle.frame_text.specs.declared.version.Version.TheVariants.{V2};
ghost use Rattle.mode_rules.specs.declared.ancestor_line.AncestorLine.{AncestorLine};

/// Bytes spell at most one payload, its version and all its lines included.
pub fn one_reading()
    ensures { (bytes : List ℕ) (payload other : Payload) → Spells bytes payload → Spells bytes other → payload ≡ other }
{}

/// What a frame holds can be spelt: agreed lines make an `agree` of version 2, and a number from 1 on a `reset`.
pub fn frames_can_be_spelt()
    ensures agree { (run cycle : ℕ) (lines : List AncestorLine) → run ≤ MAX_RUN → cycle < 2 ^ 64 → AreAgreed lines → IsPayload (Agree V2 run cycle lines) }
    ensures reset { (number : ℕ) → 0 < number → number < 2 ^ 64 → IsPayload (Reset number) }
{}

/// Kept frames have at most one fold; no frame at all has the empty one; and a frame more whose payload can stand behind the others takes the fold on
/// by that payload.
pub fn one_fold()
    ensures one { (frames : List (List ℕ)) (folded other : Folded) → FoldsTo frames folded → FoldsTo frames other → folded ≡ other }
    ensures none { FoldsTo [] unfolded }
    ensures more { (frames : List (List ℕ)) (folded next : Folded) (bytes : List ℕ) (payload : Payload)
        → FoldsTo frames folded → Spells bytes payload → with_payload folded payload ≡ Some next → FoldsTo (frames ++ bytes ∷ []) next }
{}
