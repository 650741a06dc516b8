//! A checkpoint goes to the spare disk.
ghost use Rattle.std.specs.Prelude.{◌≡◌, ◌⊎◌, ℕ, ◌+◌, ◌-◌, ◌^◌, ◌<◌, ◌≤◌, [], ◌∷◌, List, Bool, length, OnOk, OnErr};
ghost use Rattle.fault_count.specs.Rose.{Rose};
ghost use Rattle.frame_journal.specs.Steps.{TellsOn};
ghost use Rattle.disk_model.specs.Disk.{OnTold, calls_after};
ghost use Rattle.disk_model.specs.Content.{LeavesOnly, settled};
ghost use Rattle.disk_model.specs.Moments.{LeavesAfter, LeavesSince};
ghost use Rattle.frame_journal.specs.Layout.{frames, ArePayloads, OpensWith};
ghost use Rattle.frame_journal.specs.Reading.{BeginsShut};
ghost use Rattle.frame_journal.specs.PairState.{LosesTo};
ghost use Rattle.frame_journal.specs.Older.{StandsBehind, OpensLesser, IsOlder, behind_first};
ghost use Rattle.frame_journal.specs.Resting.{Rests};
ghost use Rattle.frame_journal.specs.SpareSteps.{CheckpointLeaves};

use crate::device::write_synced;
use crate::frames::{OPEN, SHUT};
use disk_model::{Disk, Failed};

/// At which step of a checkpoint the disk failed.
#[derive(Clone, Copy, Debug, PartialEq, Eq)]
pub enum CheckpointFault {
    /// Its first gate was being shut: what stands behind that gate is as it was.
    AtShutting,
    /// The frames were being written: the first gate is shut.
    AtBody,
    /// The first gate was being opened: the frames stand whole behind it.
    AtOpening,
}

/// Writes the bytes behind the first gate of a disk in place of what stands there, and opens that
/// gate last: seven device calls. The gate is shut before the rest goes.
pub fn write_checkpoint<D: Disk>(disk: &mut D, behind: &[u8]) -> Result<(), CheckpointFault>
    ensures room { OnOk result (1 + length behind.now < 2 ^ 63) }

    // What stands then, whichever generations lose, and whatever the frames are.
    ensures leaves { (on_second : Bool) (generation : ℕ) (payload : List ℕ) (payloads : List (List ℕ)) → ArePayloads (payload ∷ payloads) → behind.now ≡ behind_first (payload ∷ payloads)
        → LosesTo on_second generation 0 → OnTold (D.history disk.old) (λ now. LeavesOnly now (IsOlder (LosesTo on_second generation)))
        → OnTold (D.history disk.new) (λ now. CheckpointLeaves result (LosesTo on_second generation) (payload ∷ payloads) now) }
    ensures moments { (on_second : Bool) (generation : ℕ) (payload : List ℕ) (payloads : List (List ℕ)) → ArePayloads (payload ∷ payloads) → behind.now ≡ behind_first (payload ∷ payloads)
        → LosesTo on_second generation 0 → OnTold (D.history disk.old) (λ now. LeavesOnly now (IsOlder (LosesTo on_second generation)))
        → LeavesSince (D.history disk.old) (D.history disk.new) (λ image. OpensLesser (LosesTo on_second generation) image ⊎ OpensWith (payload ∷ payloads) image) }
    ensures rests { OnOk result ((payload : List ℕ) (payloads : List (List ℕ)) → ArePayloads (payload ∷ payloads) → behind.now ≡ behind_first (payload ∷ payloads)
        → OnTold (D.history disk.new) (Rests (payload ∷ payloads))) }
    ensures calls { OnOk result (D.calls disk.new ≡ calls_after (D.calls disk.old) 7) }
    ensures counts { D.faults disk.old ≤ D.faults disk.new }
    ensures quiet { OnOk result (D.faults disk.new ≡ D.faults disk.old) }
    ensures tells { TellsOn (D.history disk.old) (D.history disk.new) }
    ensures failed { OnErr result (Rose (D.faults disk.old) (D.faults disk.new)) }
{
    if write_synced(disk, 0, &[SHUT]).is_err() {
        return Err(CheckpointFault::AtShutting);
    }
    if replace_behind(disk, behind).is_err() {
        return Err(CheckpointFault::AtBody);
    }
    if write_synced(disk, 0, &[OPEN]).is_err() {
        return Err(CheckpointFault::AtOpening);
    }
    Ok(())
}

// Writes the bytes behind the first byte of a disk in place of what stands there, and makes sure of
// them.
fn replace_behind<D: Disk>(disk: &mut D, behind: &[u8]) -> Result<(), Failed>
    ensures room { OnOk result (1 + length behind.now < 2 ^ 63) }
    ensures made { OnOk result (OnTold (D.history disk.old) (λ now. (now ≡ settled now.bytes) × BeginsShut now.bytes)
        → OnTold (D.history disk.new) (λ now. (now ≡ settled now.bytes) × StandsBehind [] behind.now now.bytes)) }
    ensures moments { OnTold (D.history disk.old) (λ now. LeavesOnly now BeginsShut)
        → LeavesAfter (D.history disk.old) (D.history disk.new) BeginsShut }
    ensures calls { OnOk result (D.calls disk.new ≡ calls_after (D.calls disk.old) 3) }
    ensures counts { D.faults disk.old ≤ D.faults disk.new }
    ensures quiet { OnOk result (D.faults disk.new ≡ D.faults disk.old) }
    ensures tells { TellsOn (D.history disk.old) (D.history disk.new) }
    ensures failed { OnErr result (Rose (D.faults disk.old) (D.faults disk.new)) }
{
    disk.cut(1)?;
    write_synced(disk, 1, behind)
}
