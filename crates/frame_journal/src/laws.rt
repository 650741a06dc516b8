//! Laws of files and of lists of calls.
ghost use Rattle.std.specs.Prelude.{◌≡◌, ℕ, ◌++◌, ◌∷◌, List, None};
ghost use Rattle.disk_model.specs.Disk.{OnTold};
ghost use Rattle.disk_model.specs.Moments.{GoesOn, LeftSince};
ghost use Rattle.frame_journal.specs.Layout.{OpensWith, IsBadFrame};
ghost use Rattle.frame_journal.specs.JournalState.{JournalState, MayOpenWith, LeavesJournal};
ghost use Rattle.frame_journal.specs.Calls.{Call, Run, AreSteps, last, kept_of, kept_behind, in_course, calls_of, LeftIn, Tells};
ghost use Rattle.frame_journal.specs.PairState.{PairState, OpensPairWith, MayOpenPairWith};
ghost use Rattle.frame_journal.specs.PairCalls.{PairCall, PairRun, ArePairSteps, last_pair, kept_of_pair, kept_behind_pair, pair_in_course, pair_calls_of};

use disk_model::Disk;

/// A file opens with one list of payloads, or has one bad frame, and not both. Two files open as one
/// journal with one list of payloads.
pub fn one_opening()
    ensures payloads { (payloads other : List (List ℕ)) (file : List ℕ)
        → OpensWith payloads file → OpensWith other file → payloads ≡ other }
    ensures number { (n m : ℕ) (file : List ℕ) → IsBadFrame n file → IsBadFrame m file → n ≡ m }
    ensures not_both { (payloads : List (List ℕ)) (n : ℕ) (file : List ℕ) → OpensWith payloads file → IsBadFrame n file → ⊥ }
    ensures pair { (payloads other : List (List ℕ)) (first second : List ℕ)
        → OpensPairWith payloads first second → OpensPairWith other first second → payloads ≡ other }
{}

/// Every list of calls on a journal whose disk tells what it holds, crashes at any moment among them.
/// What is acknowledged at each moment is what the calls before it acknowledged. A crash at a moment
/// of a call leaves that, or what the call may leave in its place. What was acknowledged stays, in its
/// order, in what each later crash leaves.
pub fn every_run<D: Disk>()
    ensures goes_on { (old : JournalState D) (run : Run D) → AreSteps D.history old run
        → GoesOn (D.history old.disk) (D.history (last old run).disk) }
    ensures kept { (old : JournalState D) (run : Run D) → AreSteps D.history old run → Tells (D.history old.disk)
        → kept_of (last old run) ≡ kept_behind (kept_of old) (calls_of run) }
    ensures moments { (old : JournalState D) (before : Run D) (call : Call) (new : JournalState D) (behind : Run D) (image : List ℕ)
        → AreSteps D.history old (before ++ (call, new) ∷ behind) → Tells (D.history old.disk)
        → LeftSince (D.history (last old before).disk) (D.history new.disk) image
        → MayOpenWith (kept_behind (kept_of old) (calls_of before)).payloads (in_course (kept_behind (kept_of old) (calls_of before)) call) image }
    ensures acknowledged { (old : JournalState D) (run : Run D) (image : List ℕ) → AreSteps D.history old run → Tells (D.history old.disk)
        → old.pending ≡ None → OnTold (D.history old.disk) (LeavesJournal old)
        → LeftIn D.history old run image → (more : List (List ℕ)) × OpensWith (old.payloads ++ more) image }
{}

/// The same of a journal on two disks: the moments of each call are those of the two disks, in
/// whatever order they came. A crash leaves what the calls before it acknowledged, or what the call
/// may leave in its place; a checkpoint puts its payloads in place of all that was acknowledged.
pub fn every_pair_run<D: Disk>()
    ensures goes_on { (old : PairState D) (run : PairRun D) → ArePairSteps D.history old run
        → GoesOn (D.history old.first) (D.history (last_pair old run).first) × GoesOn (D.history old.second) (D.history (last_pair old run).second) }
    ensures kept { (old : PairState D) (run : PairRun D) → ArePairSteps D.history old run → Tells (D.history old.first) → Tells (D.history old.second)
        → kept_of_pair (last_pair old run) ≡ kept_behind_pair (kept_of_pair old) (pair_calls_of run) }
    ensures moments { (old : PairState D) (before : PairRun D) (call : PairCall) (new : PairState D) (behind : PairRun D) (image image' : List ℕ)
        → ArePairSteps D.history old (before ++ (call, new) ∷ behind) → Tells (D.history old.first) → Tells (D.history old.second)
        → LeftSince (D.history (last_pair old before).first) (D.history new.first) image
        → LeftSince (D.history (last_pair old before).second) (D.history new.second) image'
        → MayOpenPairWith (kept_behind_pair (kept_of_pair old) (pair_calls_of before)).payloads
        (pair_in_course (kept_behind_pair (kept_of_pair old) (pair_calls_of before)) call) image image' }
{}
