//! How a journal on two disks stands with its spare disk.
ghost use Rattle.std.specs.Prelude.{◌≡◌, ◌↔◌, ℕ, ◌+◌, ◌≤◌, [], Bool, true, IsTrue, OnOk, OnErr};
ghost use Rattle.fault_count.specs.Rose.{Rose};
ghost use Rattle.frame_journal.specs.Steps.{TellsOn};
ghost use Rattle.disk_model.specs.Disk.{OnTold};
ghost use Rattle.disk_model.specs.Moments.{LeavesAfter};
ghost use Rattle.frame_journal.specs.PairState.{LosesTo};
ghost use Rattle.frame_journal.specs.Older.{OpensLesser};
ghost use Rattle.frame_journal.specs.SpareState.{is_refused, StandsSpare, MayCount, IsUncut, MayOpenSpare, IsRaised, refused_frames, after_shutting_spare, after_cutting_spare};

use crate::checkpoint::CheckpointFault;
use crate::device::{cut_synced, write_synced};
use crate::frames::SHUT;
use disk_model::{Disk, Failed};
use std::mem;

/// How a journal stands with its spare disk, which holds frames of an older generation, or those of
/// a checkpoint that was refused.
#[derive(Drop)]
pub enum Spare {
    /// The older frames, or none, and no checkpoint was refused.
    Idle,
    /// The same, but a checkpoint of these frames was refused.
    Untouched(Vec<Vec<u8>>),
    /// The first gate is shut, and a part of these frames may stand behind it.
    Shut(Vec<Vec<u8>>),
    /// These frames stand whole behind the first gate, which may be open.
    Staged(Vec<Vec<u8>>),
}

impl Spare {
    ghost use Rattle.frame_journal.specs.SpareState.{is_refused, refused_at_step, MayCount, IsUncut, after_shutting_spare, after_cutting_spare};

    /// After a device fault in the checkpoint of these frames.
    pub fn refused(fault: CheckpointFault, frames: Vec<Vec<u8>>) -> Spare
        ensures { result ≡ refused_at_step fault frames }
    {
        match fault {
            CheckpointFault::AtShutting => Spare::Untouched(frames),
            CheckpointFault::AtBody => Spare::Shut(frames),
            CheckpointFault::AtOpening => Spare::Staged(frames),
        }
    }

    /// Whether a checkpoint was refused.
    pub fn is_refused(&self) -> bool
        ensures { result ≡ is_refused self.now }
    {
        match self {
            Spare::Idle => false,
            Spare::Untouched(_) | Spare::Shut(_) | Spare::Staged(_) => true,
        }
    }

    // Whether the frames of a refused checkpoint may count.
    fn may_count(&self) -> bool
        ensures { IsTrue result ↔ MayCount self.now }
    {
        match self {
            Spare::Staged(_) => true,
            Spare::Idle | Spare::Untouched(_) | Spare::Shut(_) => false,
        }
    }

    // Whether something is to be cut away.
    fn is_uncut(&self) -> bool
        ensures { IsTrue result ↔ IsUncut self.now }
    {
        match self {
            Spare::Shut(_) => true,
            Spare::Idle | Spare::Untouched(_) | Spare::Staged(_) => false,
        }
    }

    // The first gate was shut again.
    fn note_shut(&mut self)
        ensures { self.new ≡ after_shutting_spare self.old }
    {
        *self = match mem::replace(self, Spare::Idle) {
            Spare::Idle => Spare::Idle,
            Spare::Untouched(frames) => Spare::Untouched(frames),
            Spare::Shut(frames) | Spare::Staged(frames) => Spare::Shut(frames),
        };
    }

    // What stood behind the shut gate was cut away.
    fn note_cut(&mut self)
        ensures { self.new ≡ after_cutting_spare self.old }
    {
        *self = match mem::replace(self, Spare::Idle) {
            Spare::Idle => Spare::Idle,
            Spare::Untouched(frames) | Spare::Shut(frames) => Spare::Untouched(frames),
            Spare::Staged(frames) => Spare::Staged(frames),
        };
    }
}

/// Takes what a refused checkpoint left from the spare disk. Where its frames may count, their gate is
/// shut first, and made sure of; nothing is written there where a part of them may stand behind it,
/// since a crash could then find that part. What stands behind the shut gate is cut away.
pub fn clear_spare<D: Disk>(disk: &mut D, spare: &mut Spare) -> Result<(), Failed>
    ensures cleared { OnOk result ((MayCount spare.new → ⊥) × (IsUncut spare.new → ⊥)) }
    ensures refused { refused_frames spare.new ≡ refused_frames spare.old }
    ensures err { OnErr result (is_refused spare.old ≡ true) }
    ensures stands { (on_second : Bool) (generation : ℕ) → LosesTo on_second generation 0 → OnTold (D.history disk.old) (λ now. StandsSpare spare.old (LosesTo on_second generation) now)
        → OnTold (D.history disk.new) (λ now. StandsSpare spare.new (LosesTo on_second generation) now) }
    ensures later { (on_second : Bool) (generation : ℕ) → LosesTo on_second generation 0 → IsRaised (refused_frames spare.old) (generation + 1)
        → OnTold (D.history disk.old) (λ now. StandsSpare spare.old (LosesTo on_second generation) now)
        → LeavesAfter (D.history disk.old) (D.history disk.new) (MayOpenSpare (refused_frames spare.old) (LosesTo on_second generation)) }
    ensures counts { D.faults disk.old ≤ D.faults disk.new }
    ensures quiet { OnOk result (D.faults disk.new ≡ D.faults disk.old) }
    ensures tells { TellsOn (D.history disk.old) (D.history disk.new) }
    ensures failed { OnErr result (Rose (D.faults disk.old) (D.faults disk.new)) }
{
    shut_spare(disk, spare)?;
    cut_spare(disk, spare)
}

// Shuts the first gate of a spare disk where a refused checkpoint stands whole.
fn shut_spare<D: Disk>(disk: &mut D, spare: &mut Spare) -> Result<(), Failed>
    ensures shut { OnOk result (MayCount spare.new → ⊥) }
    ensures refused { refused_frames spare.new ≡ refused_frames spare.old }
    ensures err { OnErr result (is_refused spare.old ≡ true) }
    ensures stands { (on_second : Bool) (generation : ℕ) → OnTold (D.history disk.old) (λ now. StandsSpare spare.old (LosesTo on_second generation) now)
        → OnTold (D.history disk.new) (λ now. StandsSpare spare.new (LosesTo on_second generation) now) }
    ensures later { (on_second : Bool) (generation : ℕ) → LosesTo on_second generation 0 → IsRaised (refused_frames spare.old) (generation + 1)
        → OnTold (D.history disk.old) (λ now. StandsSpare spare.old (LosesTo on_second generation) now)
        → LeavesAfter (D.history disk.old) (D.history disk.new) (MayOpenSpare (refused_frames spare.old) (LosesTo on_second generation)) }
    ensures counts { D.faults disk.old ≤ D.faults disk.new }
    ensures quiet { OnOk result (D.faults disk.new ≡ D.faults disk.old) }
    ensures tells { TellsOn (D.history disk.old) (D.history disk.new) }
    ensures failed { OnErr result (Rose (D.faults disk.old) (D.faults disk.new)) }
{
    if !spare.may_count() {
        return Ok(());
    }
    write_synced(disk, 0, &[SHUT])?;
    spare.note_shut();
    Ok(())
}

// Cuts away what stands behind the shut gate of a spare disk.
fn cut_spare<D: Disk>(disk: &mut D, spare: &mut Spare) -> Result<(), Failed>
    ensures cut { OnOk result (IsUncut spare.new → ⊥) }
    ensures shut { (MayCount spare.old → ⊥) → MayCount spare.new → ⊥ }
    ensures refused { refused_frames spare.new ≡ refused_frames spare.old }
    ensures err { OnErr result (is_refused spare.old ≡ true) }
    ensures stands { (on_second : Bool) (generation : ℕ) → LosesTo on_second generation 0 → OnTold (D.history disk.old) (λ now. StandsSpare spare.old (LosesTo on_second generation) now)
        → OnTold (D.history disk.new) (λ now. StandsSpare spare.new (LosesTo on_second generation) now) }
    ensures later { (on_second : Bool) (generation : ℕ) → LosesTo on_second generation 0 → OnTold (D.history disk.old) (λ now. StandsSpare spare.old (LosesTo on_second generation) now)
        → LeavesAfter (D.history disk.old) (D.history disk.new) (OpensLesser (LosesTo on_second generation)) }
    ensures counts { D.faults disk.old ≤ D.faults disk.new }
    ensures quiet { OnOk result (D.faults disk.new ≡ D.faults disk.old) }
    ensures tells { TellsOn (D.history disk.old) (D.history disk.new) }
    ensures failed { OnErr result (Rose (D.faults disk.old) (D.faults disk.new)) }
{
    if !spare.is_uncut() {
        return Ok(());
    }
    cut_synced(disk, 1)?;
    spare.note_cut();
    Ok(())
}
