//! How a journal stands with its disk.
ghost use Rattle.std.specs.Prelude.{◌≡◌, ◌≢◌, ◌↔◌, ℕ, ◌+◌, ◌^◌, ◌<◌, ◌≤◌, List, [], IsTrue, IfOk, IfErr, OnOk, OnErr, IsErrOf, true};
ghost use Rattle.fault_count.specs.Rose.{Rose};
ghost use Rattle.frame_journal.specs.Steps.{TellsOn};
ghost use Rattle.disk_model.specs.Disk.{OnTold};
ghost use Rattle.disk_model.specs.Moments.{LeavesAfter, LeavesSince};
ghost use Rattle.frame_journal.specs.JournalState.{MayOpenWith};
ghost use Rattle.frame_journal.specs.Reading.{payloads_of};
ghost use Rattle.frame_journal.specs.Resting.{IsResting};
ghost use Rattle.frame_journal.specs.Standing.{Stands, MayBeOpen, is_closed, pending_of};

use crate::commit::CommitFault;
use crate::device::write_synced;
use crate::error::OpenError;
use crate::frames::{Frames, SHUT};
use crate::settling::settle;
use disk_model::{Disk, Failed};
use std::alloc::Global;
use std::mem;

/// How a journal stands with its disk.
#[derive(Drop)]
pub enum Standing {
    /// Frames may be appended.
    Open,
    /// A device fault came, and no frame was refused since the journal was opened.
    Closed,
    /// This frame was refused, and its gate was shut all the time, or is shut again.
    Refused(Vec<u8>),
    /// This frame was refused, and stands whole behind its gate, which may be open.
    Staged(Vec<u8>),
}

impl Standing {
    ghost use Rattle.frame_journal.specs.Standing.{is_closed, MayBeOpen, after_shutting, after_fault, refused_at};

    /// After a device fault in the append of this payload.
    pub fn refused(fault: CommitFault, payload: Vec<u8>) -> Standing
        ensures { result ≡ refused_at fault payload }
    {
        match fault {
            CommitFault::AtBlock => Standing::Refused(payload),
            CommitFault::AtGate => Standing::Staged(payload),
        }
    }

    /// Whether a device fault came.
    pub fn is_closed(&self) -> bool
        ensures { result ≡ is_closed self.now }
    {
        match self {
            Standing::Open => false,
            Standing::Closed | Standing::Refused(_) | Standing::Staged(_) => true,
        }
    }

    /// After a device fault at opening again.
    fn close(&mut self)
        ensures { self.new ≡ after_fault self.old }
    {
        if let Standing::Open = self {
            *self = Standing::Closed;
        }
    }

    /// Whether a refused frame's gate may be open.
    fn is_staged(&self) -> bool
        ensures { IsTrue result ↔ MayBeOpen self.now }
    {
        match self {
            Standing::Staged(_) => true,
            Standing::Open | Standing::Closed | Standing::Refused(_) => false,
        }
    }

    // The gate of a refused frame was shut again.
    fn note_shut(&mut self)
        ensures { self.new ≡ after_shutting self.old }
    {
        *self = match mem::replace(self, Standing::Closed) {
            Standing::Open => Standing::Open,
            Standing::Closed => Standing::Closed,
            Standing::Refused(payload) | Standing::Staged(payload) => Standing::Refused(payload),
        };
    }
}

/// Makes a journal's disk ready for appends again. Where a frame was refused whose gate may be open,
/// that gate is shut first, and made sure of.
pub fn ready_again<D: Disk>(
    alloc: Global,
    disk: &mut D,
    gate: u64,
    standing: &mut Standing,
) -> Result<Frames, OpenError>
    // Where the disk tells what it holds, the frames are those that were acknowledged.
    ensures rests { (payloads : List (List ℕ)) → OnTold (D.history disk.old) (λ now. Stands standing.old payloads gate now)
        → IfOk result (λ read. OnTold (D.history disk.new) (λ now. IsResting payloads read.gate now)) }
    ensures same { (payloads : List (List ℕ)) → OnTold (D.history disk.old) (λ now. Stands standing.old payloads gate now)
        → IfOk result (λ read. OnTold (D.history disk.old) (λ _. payloads_of read.payloads.items ≡ payloads)) }
    ensures read { IfOk result (λ read. OnTold (D.history disk.new) (λ now. IsResting (payloads_of read.payloads.items) read.gate now)) }
    ensures within { IfOk result (λ read. read.gate + 1 < 2 ^ 63) }

    // Else the journal stands as it did, or is closed.
    ensures stands { (payloads : List (List ℕ)) → OnTold (D.history disk.old) (λ now. Stands standing.old payloads gate now)
        → IfErr result (λ e. OnTold (D.history disk.new) (λ now. Stands standing.new payloads gate now)) }
    ensures pending { (payloads : List (List ℕ)) → OnErr result (pending_of standing.new payloads ≡ pending_of standing.old payloads) }
    ensures closed { IfErr result (λ e. e ≢ OpenError.DiskFault → is_closed standing.new ≡ is_closed standing.old) }
    ensures fault_closes { IsErrOf result OpenError.DiskFault → is_closed standing.new ≡ true }
    ensures bad { (payloads : List (List ℕ)) → OnTold (D.history disk.old) (λ now. Stands standing.old payloads gate now)
        → IfErr result (λ e. (n : ℕ) → e ≡ OpenError.BadFrame n → D.history disk.old ≡ []) }

    ensures moments { (payloads : List (List ℕ)) → OnTold (D.history disk.old) (λ now. Stands standing.old payloads gate now)
        → LeavesSince (D.history disk.old) (D.history disk.new) (MayOpenWith payloads (pending_of standing.old payloads)) }
    ensures counts { D.faults disk.old ≤ D.faults disk.new }
    ensures quiet { OnOk result (D.faults disk.new ≡ D.faults disk.old) }
    ensures tells { TellsOn (D.history disk.old) (D.history disk.new) }
    ensures failed { IsErrOf result OpenError.DiskFault → Rose (D.faults disk.old) (D.faults disk.new) }
{
    if shut_refused(disk, gate, standing).is_err() {
        return Err(OpenError::DiskFault);
    }
    match settle(alloc, disk) {
        Ok(read) => Ok(read),
        Err(OpenError::DiskFault) => {
            standing.close();
            Err(OpenError::DiskFault)
        }
        Err(OpenError::BadFrame(number)) => Err(OpenError::BadFrame(number)),
        Err(OpenError::Memory) => Err(OpenError::Memory),
    }
}

// Shuts the gate of a refused frame that may be open.
fn shut_refused<D: Disk>(disk: &mut D, gate: u64, standing: &mut Standing) -> Result<(), Failed>
    ensures shut { OnOk result (MayBeOpen standing.new → ⊥) }
    ensures stays { OnErr result ((standing.new ≡ standing.old) × MayBeOpen standing.old) }
    ensures closed { is_closed standing.new ≡ is_closed standing.old }
    ensures pending { (payloads : List (List ℕ)) → pending_of standing.new payloads ≡ pending_of standing.old payloads }
    ensures sound { (payloads : List (List ℕ)) → OnTold (D.history disk.old) (λ now. Stands standing.old payloads gate now)
        → OnTold (D.history disk.new) (λ now. Stands standing.new payloads gate now) }
    ensures later { (payloads : List (List ℕ)) → OnTold (D.history disk.old) (λ now. Stands standing.old payloads gate now)
        → LeavesAfter (D.history disk.old) (D.history disk.new) (MayOpenWith payloads (pending_of standing.old payloads)) }
    ensures counts { D.faults disk.old ≤ D.faults disk.new }
    ensures quiet { OnOk result (D.faults disk.new ≡ D.faults disk.old) }
    ensures tells { TellsOn (D.history disk.old) (D.history disk.new) }
    ensures failed { OnErr result (Rose (D.faults disk.old) (D.faults disk.new)) }
{
    if !standing.is_staged() {
        return Ok(());
    }
    write_synced(disk, gate, &[SHUT])?;
    standing.note_shut();
    Ok(())
}
