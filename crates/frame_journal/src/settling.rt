//! A disk is made ready for appends.
ghost use Rattle.std.specs.Prelude.{◌≡◌, ◌≢◌, ℕ, ◌+◌, ◌^◌, ◌<◌, ◌≤◌, List, IfOk, IfErr, IsErrOf, OnOk, []};
ghost use Rattle.fault_count.specs.Rose.{Rose};
ghost use Rattle.frame_journal.specs.Steps.{TellsOn};
ghost use Rattle.disk_model.specs.Disk.{OnTold, Syncs};
ghost use Rattle.disk_model.specs.Moments.{LeavesAfter};
ghost use Rattle.frame_journal.specs.Layout.{OpensWith, IsBadFrame};
ghost use Rattle.frame_journal.specs.Reading.{payloads_of};
ghost use Rattle.frame_journal.specs.Resting.{IsResting};

use crate::device::{cut_synced, write_synced};
use crate::error::OpenError;
use crate::frames::{Ending, Frames, SHUT, no_frames, read_frames};
use disk_model::Disk;
use std::alloc::Global;

/// Reads the frames up to the first shut gate, cuts away what stands behind that, and makes sure of
/// it. A disk of at most one byte gets a shut gate at place 0.
pub fn settle<D: Disk>(alloc: Global, disk: &mut D) -> Result<Frames, OpenError>
    ensures opens { IfOk result (λ read. OnTold (D.history disk.old) (λ now. OpensWith (payloads_of read.payloads.items) now.bytes)) }
    ensures rests { IfOk result (λ read. OnTold (D.history disk.new) (λ now. IsResting (payloads_of read.payloads.items) read.gate now)) }
    ensures within { IfOk result (λ read. read.gate + 1 < 2 ^ 63) }
    ensures bad { IfErr result (λ e. (n : ℕ) → e ≡ OpenError.BadFrame n → OnTold (D.history disk.old) (λ now. IsBadFrame n now.bytes)) }

    // After its first sync a crash leaves only what opens with the payloads that were there.
    ensures later { (payloads : List (List ℕ)) → OnTold (D.history disk.old) (λ now. OpensWith payloads now.bytes)
        → LeavesAfter (D.history disk.old) (D.history disk.new) (OpensWith payloads) }
    ensures synced { IfErr result (λ e. e ≢ OpenError.DiskFault → Syncs (D.history disk.old) (D.history disk.new)) }
    ensures counts { D.faults disk.old ≤ D.faults disk.new }
    ensures quiet { OnOk result (D.faults disk.new ≡ D.faults disk.old) }
    ensures tells { TellsOn (D.history disk.old) (D.history disk.new) }
    ensures failed { IsErrOf result OpenError.DiskFault → Rose (D.faults disk.old) (D.faults disk.new) }
{
    disk.sync()?;
    let end = disk.length()?;
    if end <= 1 {
        write_synced(disk, 0, &[SHUT])?;
        return Ok(no_frames(alloc));
    }
    let read = read_frames(alloc, disk, end)?;
    match read.ending {
        Ending::Shut => {
            cut_synced(disk, read.gate + 1)?;
            Ok(read)
        }
        Ending::Bad => Err(OpenError::BadFrame(read.payloads.len() as u64)),
    }
}
