//! A change of the disk, and a sync behind it.
ghost use Rattle.std.specs.Prelude.{◌≡◌, ◌+◌, ◌^◌, ◌<◌, ◌≤◌, length, OnOk, OnErr, []};
ghost use Rattle.fault_count.specs.Rose.{Rose};
ghost use Rattle.frame_journal.specs.Steps.{TellsOn};
ghost use Rattle.disk_model.specs.Content.{write_change, cut_change};
ghost use Rattle.disk_model.specs.Disk.{FailsInPart, calls_after};
ghost use Rattle.frame_journal.specs.Steps.{WritesSynced, CutsSynced};

use disk_model::{Disk, Failed};

/// Writes, and makes sure of it.
pub fn write_synced<D: Disk>(disk: &mut D, place: u64, bytes: &[u8]) -> Result<(), Failed>
    ensures room { OnOk result (place + length bytes.now < 2 ^ 63) }
    ensures made { OnOk result (WritesSynced place bytes.now (D.history disk.old) (D.history disk.new)) }
    ensures torn { OnErr result (FailsInPart (write_change place (length bytes.now)) (D.history disk.old) (D.history disk.new)) }
    ensures calls { OnOk result (D.calls disk.new ≡ calls_after (D.calls disk.old) 2) }
    ensures counts { D.faults disk.old ≤ D.faults disk.new }
    ensures quiet { OnOk result (D.faults disk.new ≡ D.faults disk.old) }
    ensures tells { TellsOn (D.history disk.old) (D.history disk.new) }
    ensures failed { OnErr result (Rose (D.faults disk.old) (D.faults disk.new)) }
{
    disk.write_at(place, bytes)?;
    disk.sync()
}

/// Cuts, and makes sure of it.
pub fn cut_synced<D: Disk>(disk: &mut D, length: u64) -> Result<(), Failed>
    ensures made { OnOk result (CutsSynced length (D.history disk.old) (D.history disk.new)) }
    ensures torn { OnErr result (FailsInPart (cut_change length) (D.history disk.old) (D.history disk.new)) }
    ensures calls { OnOk result (D.calls disk.new ≡ calls_after (D.calls disk.old) 2) }
    ensures counts { D.faults disk.old ≤ D.faults disk.new }
    ensures quiet { OnOk result (D.faults disk.new ≡ D.faults disk.old) }
    ensures tells { TellsOn (D.history disk.old) (D.history disk.new) }
    ensures failed { OnErr result (Rose (D.faults disk.old) (D.faults disk.new)) }
{
    disk.cut(length)?;
    disk.sync()
}
