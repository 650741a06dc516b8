//! A journal.
ghost use Rattle.std.specs.Prelude.{◌≡◌, ◌≢◌, ◌↔◌, ℕ, ◌+◌, ◌^◌, ◌<◌, ◌≤◌, [], ◌∷◌, ◌++◌, List, true, false, Some, None, IfOk, IfErr, OnOk, OnErr, IsErrOf};
ghost use Rattle.fault_count.specs.Rose.{Rose};
ghost use Rattle.disk_model.specs.Disk.{OnTold, Syncs, calls_after};
ghost use Rattle.disk_model.specs.Moments.{LeavesAfter};
ghost use Rattle.frame_journal.specs.Layout.{OpensWith, IsBadFrame};
ghost use Rattle.frame_journal.specs.Reading.{payloads_of};
ghost use Rattle.frame_journal.specs.Resting.{IsResting, Rests};
ghost use Rattle.frame_journal.specs.JournalState.{LeavesJournal};
ghost use Rattle.frame_journal.specs.Calls.{IsStep, append_call, reopen_call};
ghost use Rattle.frame_journal.specs.Steps.{TellsOn};

use crate::commit::{commit, entry_of};
use crate::error::{AppendError, OpenError};
use crate::settling::settle;
use crate::standing::{Standing, ready_again};
use disk_model::Disk;
use std::alloc::Global;
use std::marker::Model;
use std::mem;

/// A journal on a disk: payloads in order, each acknowledged once a crash keeps it.
///
/// At every moment what a crash may leave of the disk, where it tells that, opens with the
/// acknowledged payloads, or with these and, whole at the end, the one whose append is in course or
/// was refused with a device fault since the journal was opened last.
#[derive(Drop)]
pub struct Journal<D: Disk> {
    disk: D,
    payloads: Vec<Vec<u8>>,
    gate: u64,
    standing: Standing,
}

impl<D: Disk> Model for Journal<D> {
    ghost use Rattle.frame_journal.specs.JournalState.{JournalState};

    ghost Value = { JournalState D };

    ghost use Rattle.frame_journal.specs.Reading.{payloads_of};
    ghost use Rattle.frame_journal.specs.Standing.{is_closed, pending_of, IsSound};

    ghost view = { λ j. record {
      disk = j.disk;
      payloads = payloads_of j.payloads.items;
      closed = is_closed j.standing;
      pending = pending_of j.standing (payloads_of j.payloads.items);
    } };

    ghost invariant = { λ j. IsSound (D.history j.disk) (payloads_of j.payloads.items) j.gate j.standing };
}

impl<D: Disk> Journal<D> {
    /// Opens the journal of a disk: makes sure of what the disk holds, reads its frames up to the
    /// first shut gate, and cuts away what stands behind that. A disk of at most one byte is an
    /// empty journal. It costs the disk's bytes, read once. The disk is handed back with a refusal:
    /// of one with a bad frame, `whole_frames` gives the frames before that.
    pub fn open_at(alloc: Global, disk: D) -> Result<Journal<D>, (OpenError, D)>
        // The payloads are those that the disk opened with. It is cut behind them, and a crash keeps them.
        ensures opens { IfOk result (λ journal. OnTold (D.history disk) (λ now. OpensWith journal.payloads now.bytes)) }
        ensures open { IfOk result (λ journal. (journal.closed ≡ false) × (journal.pending ≡ None)) }
        ensures rests { IfOk result (λ journal. OnTold (D.history journal.disk) (Rests journal.payloads)) }
        ensures durable { IfOk result (λ journal. OnTold (D.history journal.disk) (LeavesJournal journal)) }

        // A bad frame is there, and then no payloads are.
        ensures bad { IfErr result (λ e. (n : ℕ) → e.0 ≡ OpenError.BadFrame n → OnTold (D.history disk) (λ now. IsBadFrame n now.bytes)) }

        // For a bad frame or want of memory the disk is handed back as it was, with a sync behind it.
        ensures stays_err { IfErr result (λ e. e.0 ≢ OpenError.DiskFault → Syncs (D.history disk) (D.history e.1)) }

        // From its first sync on, a crash leaves only what opens with the payloads that were there.
        ensures moments { IfOk result (λ journal. (payloads : List (List ℕ)) → OnTold (D.history disk) (λ now. OpensWith payloads now.bytes)
            → LeavesAfter (D.history disk) (D.history journal.disk) (OpensWith payloads)) }
        ensures moments_err { IfErr result (λ e. (payloads : List (List ℕ)) → OnTold (D.history disk) (λ now. OpensWith payloads now.bytes)
            → LeavesAfter (D.history disk) (D.history e.1) (OpensWith payloads)) }

        // A fault has its cause.
        ensures fault { IfErr result (λ e. e.0 ≡ OpenError.DiskFault → Rose (D.faults disk) (D.faults e.1)) }
        ensures counts { IfOk result (λ journal. D.faults journal.disk ≡ D.faults disk) }
        ensures counts_err { IfErr result (λ e. D.faults disk ≤ D.faults e.1) }

        // The disk goes on, and one that tells nothing goes on so.
        ensures tells { IfOk result (λ journal. TellsOn (D.history disk) (D.history journal.disk)) }
        ensures tells_err { IfErr result (λ e. TellsOn (D.history disk) (D.history e.1)) }
    {
        let mut disk = disk;
        match settle(alloc, &mut disk) {
            Ok(read) => Ok(Journal {
                disk,
                payloads: read.payloads,
                gate: read.gate,
                standing: Standing::Open,
            }),
            Err(error) => Err((error, disk)),
        }
    }

    /// Appends the payload that is `head` with `body` behind it. At `Ok` it is acknowledged: from then
    /// on each crash keeps it. It makes four device calls, and costs the payload.
    pub fn append(&mut self, alloc: Global, head: &[u8], body: &[u8]) -> Result<(), AppendError>
        ensures ok { OnOk result (self.new.payloads ≡ self.old.payloads ++ (head.now ++ body.now) ∷ []) }
        ensures err { OnErr result (self.new.payloads ≡ self.old.payloads) }
        ensures open { OnOk result ((self.new.closed ≡ false) × (self.new.pending ≡ None)) }

        // What a crash may leave at each moment of the call, and then.
        ensures step { IsStep D.history self.old (append_call (head.now ++ body.now) result) self.new }
        ensures rests { OnOk result (OnTold (D.history self.new.disk) (Rests self.new.payloads)) }

        ensures closed { IsErrOf result AppendError.Closed ↔ (self.old.closed ≡ true) }
        ensures closed_stays { IsErrOf result AppendError.Closed → self.new ≡ self.old }
        ensures memory_stays { IsErrOf result AppendError.Memory → self.new ≡ self.old }
        ensures fault { IsErrOf result AppendError.DiskFault → Rose (D.faults self.old.disk) (D.faults self.new.disk) }
        ensures fault_closes { IsErrOf result AppendError.DiskFault
            → (self.new.closed ≡ true) × (self.new.pending ≡ Some (self.old.payloads ++ (head.now ++ body.now) ∷ [])) }
        ensures calls { OnOk result (D.calls self.new.disk ≡ calls_after (D.calls self.old.disk) 4) }
        ensures counts { D.faults self.old.disk ≤ D.faults self.new.disk }
        ensures quiet { OnOk result (D.faults self.new.disk ≡ D.faults self.old.disk) }

        // A disk that tells nothing goes on so.
        ensures silent { D.history self.old.disk ≡ [] → D.history self.new.disk ≡ [] }
    {
        if self.standing.is_closed() {
            return Err(AppendError::Closed);
        }
        self.payloads.reserve(1)?;
        let entry = entry_of(alloc, head, body)?;
        match commit(&mut self.disk, self.gate, &entry.block) {
            Ok(()) => {
                self.gate += entry.block.len() as u64;
                self.payloads.push(entry.payload).unwrap();
                Ok(())
            }
            Err(fault) => {
                self.standing = Standing::refused(fault, entry.payload);
                Err(AppendError::DiskFault)
            }
        }
    }

    /// Opens the journal again on the same disk, as `open_at` does. Where a frame was refused whose
    /// gate may be open, that gate is shut first, and made sure of, so that the frame never stands
    /// in a journal that goes on. Until it succeeds, the payloads and what is pending stay.
    pub fn reopen(&mut self, alloc: Global) -> Result<(), OpenError>
        ensures open { OnOk result ((self.new.closed ≡ false) × (self.new.pending ≡ None)) }

        // Of a disk that tells what it holds the payloads stay.
        ensures ok { OnOk result (OnTold (D.history self.old.disk) (λ _. self.new.payloads ≡ self.old.payloads)) }
        ensures err { OnErr result (self.new.payloads ≡ self.old.payloads) }
        ensures err_pending { OnErr result (self.new.pending ≡ self.old.pending) }
        ensures err_closed { IfErr result (λ e. e ≢ OpenError.DiskFault → self.new.closed ≡ self.old.closed) }

        // What a crash may leave at each moment of the call, and then. The disk is cut behind the frames.
        ensures step { IsStep D.history self.old (reopen_call result) self.new }
        ensures rests { OnOk result (OnTold (D.history self.new.disk) (Rests self.new.payloads)) }

        // A bad frame comes only from a disk that doesn't tell what it holds.
        ensures bad { IfErr result (λ e. (n : ℕ) → e ≡ OpenError.BadFrame n → D.history self.old.disk ≡ []) }
        ensures fault { IsErrOf result OpenError.DiskFault → Rose (D.faults self.old.disk) (D.faults self.new.disk) }
        ensures fault_closes { IsErrOf result OpenError.DiskFault → self.new.closed ≡ true }
        ensures counts { D.faults self.old.disk ≤ D.faults self.new.disk }
        ensures quiet { OnOk result (D.faults self.new.disk ≡ D.faults self.old.disk) }

        // A disk that tells nothing goes on so.
        ensures silent { D.history self.old.disk ≡ [] → D.history self.new.disk ≡ [] }
    {
        match ready_again(alloc, &mut self.disk, self.gate, &mut self.standing) {
            Ok(read) => {
                self.payloads = read.payloads;
                self.gate = read.gate;
                self.standing = Standing::Open;
                Ok(())
            }
            Err(error) => Err(error),
        }
    }

    /// Goes on with another disk, at rest with these payloads, and leaves its own in its place.
    pub(crate) fn move_to(&mut self, disk: &mut D, payloads: Vec<Vec<u8>>, gate: u64)
        requires within { gate + 1 < 2 ^ 63 }
        requires rests { OnTold (D.history disk.old) (λ now. IsResting (payloads_of payloads.items) gate now) }
        ensures here { self.new ≡ record { disk = disk.old; payloads = payloads_of payloads.items; closed = false; pending = None } }
        ensures there { disk.new ≡ self.old.disk }
    {
        mem::swap(&mut self.disk, disk);
        self.payloads = payloads;
        self.gate = gate;
        self.standing = Standing::Open;
    }

    /// The acknowledged payloads, in order. It takes no memory.
    pub fn frames(&self) -> &[Vec<u8>]
        ensures { payloads_of result.now ≡ self.now.payloads }
    {
        &self.payloads
    }

    /// Whether a device fault came since the journal was opened last. If none came, nothing is pending
    /// and the disk is cut behind the frames.
    pub fn is_closed(&self) -> bool
        ensures is { result ≡ self.now.closed }
        ensures alone { result ≡ false → self.now.pending ≡ None }
        ensures rests { result ≡ false → OnTold (D.history self.now.disk) (Rests self.now.payloads) }
    {
        self.standing.is_closed()
    }

    /// The disk that it stands on.
    pub fn disk(&self) -> &D
        ensures { result.now ≡ self.now.disk }
    {
        &self.disk
    }

    /// Gives the disk back.
    pub fn into_disk(self) -> D
        ensures { result ≡ self.disk }
    {
        let Journal {
            disk,
            payloads,
            gate: _,
            standing,
        } = self;
        drop(payloads);
        drop(standing);
        disk
    }
}
