//! A journal on two disks.
ghost use Rattle.std.specs.Prelude.{◌≡◌, ◌≢◌, ◌⊎◌, ◌↔◌, ℕ, ◌+◌, ◌-◌, ◌^◌, ◌<◌, ◌≤◌, [], ◌∷◌, ◌++◌, List, true, false, not, nat_lt, IsTrue, Some, None, IfOk, IfErr, OnOk, OnErr, IsErrOf};
ghost use Rattle.fault_count.specs.Rose.{Rose};
ghost use Rattle.disk_model.specs.Disk.{OnTold, calls_after};
ghost use Rattle.disk_model.specs.Moments.{LeavesAfter, LeavesBothAfter};
ghost use Rattle.frame_journal.specs.Layout.{OpensWith};
ghost use Rattle.frame_journal.specs.Reading.{payloads_of};
ghost use Rattle.frame_journal.specs.Resting.{Rests};
ghost use Rattle.frame_journal.specs.Generation.{is_generation, generation_of, without_generation};
ghost use Rattle.frame_journal.specs.Steps.{TellsOn, StaysBad};
ghost use Rattle.frame_journal.specs.Calls.{append_call, reopen_call};
ghost use Rattle.frame_journal.specs.PairState.{disk_of, spare_of, OpensPairWith, LeavesPair, faults_of, chosen};
ghost use Rattle.frame_journal.specs.PairCalls.{IsPairStep, PairCall, checkpoint_call};

use crate::checkpoint::write_checkpoint;
use crate::error::{AppendError, OpenError};
use crate::generation::{behind_gate, checkpoint_entry, generation_of, is_generation};
use crate::journal::Journal;
use crate::spare::{Spare, clear_spare};
use disk_model::Disk;
use std::alloc::Global;
use std::marker::Model;

/// A journal on two disks, each of the layout of one: it goes on with one of them, and a checkpoint
/// takes it to the other one, with other payloads.
///
/// Each disk has a generation, which its first frame tells where that is one of 25 bytes: the byte 2,
/// sixteen zero bytes and the number, most significant byte first. Without such a frame it is 0. The
/// disk of the greater generation is the one that counts, and the first one on a tie. At every moment
/// what a crash may leave of the two opens with the acknowledged payloads, or with what the call in
/// course, or one refused with a device fault since the journal was opened last, put in their place.
#[derive(Drop)]
pub struct PairedJournal<D: Disk> {
    journal: Journal<D>,
    spare: D,
    on_second: bool,
    standing: Spare,
}

impl<D: Disk> Model for PairedJournal<D> {
    ghost use Rattle.frame_journal.specs.PairState.{PairState};

    ghost Value = { PairState D };

    ghost use Rattle.frame_journal.specs.SpareState.{pair_of, IsPairSound};

    ghost view = { λ j. pair_of j.journal j.spare j.on_second j.standing };

    ghost invariant = { λ j. IsPairSound D.history j.journal j.spare j.on_second j.standing };
}

impl<D: Disk> PairedJournal<D> {
    /// Opens both disks, as `Journal::open_at` does each, and goes on with the one of the greater
    /// generation, the first one on a tie. So an old journal and an empty disk behind it open as the
    /// old journal. It costs the bytes of both, read once. Both disks are handed back with a refusal.
    pub fn open_two(
        alloc: Global,
        first: D,
        second: D,
    ) -> Result<PairedJournal<D>, (OpenError, D, D)>
        // The payloads are those of the disk that counts.
        ensures opens { IfOk result (λ journal. OnTold (D.history first) (λ now. OnTold (D.history second) (λ now'.
            OpensPairWith journal.payloads now.bytes now'.bytes))) }
        ensures open { IfOk result (λ journal. (journal.closed ≡ false) × (journal.pending ≡ None)) }
        ensures durable { IfOk result (λ journal. OnTold (D.history journal.first) (λ now. OnTold (D.history journal.second) (λ now'.
            LeavesPair journal now now'))) }

        // The disk gone on with, and its generation.
        ensures goes_on { IfOk result (λ journal. (payloads payloads' : List (List ℕ))
            → OnTold (D.history first) (λ now. OnTold (D.history second) (λ now'. OpensWith payloads now.bytes → OpensWith payloads' now'.bytes
            → (journal.on_second ≡ nat_lt (generation_of payloads) (generation_of payloads')) × (journal.generation ≡ generation_of (chosen payloads payloads'))))) }

        // A bad frame is there, on the first disk or, where that has none, on the second. That disk stays as it is.
        ensures bad { IfErr result (λ e. (n : ℕ) → e.0 ≡ OpenError.BadFrame n
            → StaysBad n (D.history first) (D.history e.1)
            ⊎ (OnTold (D.history first) (λ now. (payloads : List (List ℕ)) × OpensWith payloads now.bytes) × StaysBad n (D.history second) (D.history e.2))) }

        // From the first sync of each disk on, a crash leaves only what opens with the payloads that were there.
        ensures moments { IfOk result (λ journal. (payloads payloads' : List (List ℕ))
            → OnTold (D.history first) (λ now. OpensWith payloads now.bytes) → OnTold (D.history second) (λ now. OpensWith payloads' now.bytes)
            → LeavesBothAfter (D.history first) (D.history journal.first) (D.history second) (D.history journal.second)
            (OpensPairWith (without_generation (chosen payloads payloads')))) }
        ensures moments_err { IfErr result (λ e. (payloads payloads' : List (List ℕ))
            → OnTold (D.history first) (λ now. OpensWith payloads now.bytes) → OnTold (D.history second) (λ now. OpensWith payloads' now.bytes)
            → LeavesBothAfter (D.history first) (D.history e.1) (D.history second) (D.history e.2)
            (OpensPairWith (without_generation (chosen payloads payloads')))) }

        // Of the disks that are handed back each keeps its payloads, whatever the other one holds.
        ensures first_err { IfErr result (λ e. (payloads : List (List ℕ)) → OnTold (D.history first) (λ now. OpensWith payloads now.bytes)
            → LeavesAfter (D.history first) (D.history e.1) (OpensWith payloads)) }
        ensures second_err { IfErr result (λ e. (payloads : List (List ℕ)) → OnTold (D.history second) (λ now. OpensWith payloads now.bytes)
            → LeavesAfter (D.history second) (D.history e.2) (OpensWith payloads)) }
        ensures tells_err { IfErr result (λ e. TellsOn (D.history first) (D.history e.1) × TellsOn (D.history second) (D.history e.2)) }

        // A fault has its cause.
        ensures fault { IfErr result (λ e. e.0 ≡ OpenError.DiskFault → Rose (D.faults first + D.faults second) (D.faults e.1 + D.faults e.2)) }
        ensures counts { IfOk result (λ journal. faults_of D.faults journal ≡ D.faults first + D.faults second) }
        ensures counts_err { IfErr result (λ e. (D.faults first ≤ D.faults e.1) × (D.faults second ≤ D.faults e.2)) }
    {
        let first = match Journal::open_at(alloc, first) {
            Ok(journal) => journal,
            Err((error, first)) => return Err((error, first, second)),
        };
        match Journal::open_at(alloc, second) {
            Ok(second) => Ok(PairedJournal::of(first, second)),
            Err((error, second)) => Err((error, first.into_disk(), second)),
        }
    }

    // Goes on with the journal of the greater generation, the first one on a tie.
    fn of(first: Journal<D>, second: Journal<D>) -> PairedJournal<D>
        requires first { OnTold (D.history first.disk) (Rests first.payloads) }
        requires second { OnTold (D.history second.disk) (Rests second.payloads) }
        requires open { (first.closed ≡ false) × (second.closed ≡ false) }
        requires alone { (first.pending ≡ None) × (second.pending ≡ None) }
        ensures first { result.first ≡ first.disk }
        ensures second { result.second ≡ second.disk }
        ensures payloads { result.payloads ≡ without_generation (chosen first.payloads second.payloads) }
        ensures on_second { result.on_second ≡ nat_lt (generation_of first.payloads) (generation_of second.payloads) }
        ensures generation { result.generation ≡ generation_of (chosen first.payloads second.payloads) }
        ensures open { (result.closed ≡ false) × (result.pending ≡ None) }
        ensures durable { OnTold (D.history result.first) (λ now. OnTold (D.history result.second) (λ now'. LeavesPair result now now')) }
    {
        if generation_of(first.frames()) < generation_of(second.frames()) {
            PairedJournal {
                journal: second,
                spare: first.into_disk(),
                on_second: true,
                standing: Spare::Idle,
            }
        } else {
            PairedJournal {
                journal: first,
                spare: second.into_disk(),
                on_second: false,
                standing: Spare::Idle,
            }
        }
    }

    /// Appends the payload that is `head` with `body` behind it, as `Journal::append` does. A journal
    /// of generation 0 without payloads takes no payload that would be its generation.
    pub fn append(&mut self, alloc: Global, head: &[u8], body: &[u8]) -> Result<(), AppendError>
        requires { self.old.payloads ≡ [] → self.old.generation ≡ 0 → is_generation (head.now ++ body.now) ≡ false }
        ensures ok { OnOk result (self.new.payloads ≡ self.old.payloads ++ (head.now ++ body.now) ∷ []) }
        ensures err { OnErr result (self.new.payloads ≡ self.old.payloads) }
        ensures open { OnOk result ((self.new.closed ≡ false) × (self.new.pending ≡ None)) }
        ensures generation { self.new.generation ≡ self.old.generation }

        // It goes on with the same disk, and leaves the other one.
        ensures same_disk { self.new.on_second ≡ self.old.on_second }
        ensures spare { spare_of self.new ≡ spare_of self.old }
        ensures calls { OnOk result (D.calls (disk_of self.new) ≡ calls_after (D.calls (disk_of self.old)) 4) }

        // What a crash may leave at each moment of the call, and then.
        ensures step { IsPairStep D.history self.old (PairCall.Called (append_call (head.now ++ body.now) result)) self.new }

        ensures closed { IsErrOf result AppendError.Closed ↔ (self.old.closed ≡ true) }
        ensures closed_stays { IsErrOf result AppendError.Closed → self.new ≡ self.old }
        ensures memory_stays { IsErrOf result AppendError.Memory → self.new ≡ self.old }
        ensures fault { IsErrOf result AppendError.DiskFault → Rose (faults_of D.faults self.old) (faults_of D.faults self.new) }
        ensures fault_closes { IsErrOf result AppendError.DiskFault
            → (self.new.closed ≡ true) × (self.new.pending ≡ Some (self.old.payloads ++ (head.now ++ body.now) ∷ [])) }
        ensures counts { faults_of D.faults self.old ≤ faults_of D.faults self.new }
        ensures quiet { OnOk result (faults_of D.faults self.new ≡ faults_of D.faults self.old) }
    {
        if self.standing.is_refused() {
            return Err(AppendError::Closed);
        }
        self.journal.append(alloc, head, body)
    }

    /// Puts these payloads in place of those that are acknowledged: it writes them to the spare disk
    /// behind a shut gate, with the generation raised by 1, and opens that gate last. The journal
    /// goes on there. It makes seven device calls, and costs the payloads. The journal's payloads
    /// stay until it is acknowledged.
    pub fn checkpoint(&mut self, alloc: Global, payloads: &[Vec<u8>]) -> Result<(), AppendError>
        requires { self.old.generation < 2 ^ 64 - 1 }
        ensures ok { OnOk result (self.new.payloads ≡ payloads_of payloads.now) }
        ensures err { OnErr result (self.new.payloads ≡ self.old.payloads) }
        ensures open { OnOk result ((self.new.closed ≡ false) × (self.new.pending ≡ None)) }
        ensures raised { OnOk result (self.new.generation ≡ self.old.generation + 1) }
        ensures same { OnErr result (self.new.generation ≡ self.old.generation) }

        // It goes on with the spare disk. The disk that it leaves is the spare one then, as it is, and so it is at a refusal.
        ensures turns { OnOk result ((self.new.on_second ≡ not self.old.on_second) × (spare_of self.new ≡ disk_of self.old)) }
        ensures stays { OnErr result ((self.new.on_second ≡ self.old.on_second) × (disk_of self.new ≡ disk_of self.old)) }
        ensures calls { OnOk result (D.calls (disk_of self.new) ≡ calls_after (D.calls (spare_of self.old)) 7) }

        // What a crash may leave at each moment of the call, and then.
        ensures step { IsPairStep D.history self.old (checkpoint_call (payloads_of payloads.now) result) self.new }

        ensures closed { IsErrOf result AppendError.Closed ↔ (self.old.closed ≡ true) }
        ensures closed_stays { IsErrOf result AppendError.Closed → self.new ≡ self.old }
        ensures memory_stays { IsErrOf result AppendError.Memory → self.new ≡ self.old }
        ensures fault { IsErrOf result AppendError.DiskFault → Rose (faults_of D.faults self.old) (faults_of D.faults self.new) }
        ensures fault_closes { IsErrOf result AppendError.DiskFault
            → (self.new.closed ≡ true) × (self.new.pending ≡ Some (payloads_of payloads.now)) }
        ensures counts { faults_of D.faults self.old ≤ faults_of D.faults self.new }
        ensures quiet { OnOk result (faults_of D.faults self.new ≡ faults_of D.faults self.old) }
    {
        if self.standing.is_refused() {
            return Err(AppendError::Closed);
        }
        if self.journal.is_closed() {
            return Err(AppendError::Closed);
        }
        let generation = generation_of(self.journal.frames()) + 1;
        let entry = match checkpoint_entry(alloc, generation, payloads) {
            Ok(entry) => entry,
            Err(_) => return Err(AppendError::Memory),
        };
        match write_checkpoint(&mut self.spare, behind_gate(&entry.bytes)) {
            Ok(()) => {
                let gate = entry.bytes.len() as u64 - 1;
                self.journal.move_to(&mut self.spare, entry.frames, gate);
                self.on_second = !self.on_second;
                Ok(())
            }
            Err(fault) => {
                self.standing = Spare::refused(fault, entry.frames);
                Err(AppendError::DiskFault)
            }
        }
    }

    /// Opens the journal again on the disk that it goes on with, as `Journal::reopen` does. What a
    /// refused checkpoint left on the spare disk is taken away first, and made sure of, so that it
    /// never stands beside a journal that goes on. Until it succeeds, the payloads and what is
    /// pending stay.
    pub fn reopen(&mut self, alloc: Global) -> Result<(), OpenError>
        ensures open { OnOk result ((self.new.closed ≡ false) × (self.new.pending ≡ None)) }

        // Of disks that tell what they hold the payloads stay.
        ensures ok { OnOk result (OnTold (D.history self.old.first) (λ _. OnTold (D.history self.old.second) (λ _. self.new.payloads ≡ self.old.payloads))) }
        ensures err { OnErr result (self.new.payloads ≡ self.old.payloads) }
        ensures err_pending { OnErr result (self.new.pending ≡ self.old.pending) }
        ensures err_closed { IfErr result (λ e. e ≢ OpenError.DiskFault → self.new.closed ≡ self.old.closed) }
        ensures same_disk { self.new.on_second ≡ self.old.on_second }
        ensures generation { OnTold (D.history self.old.first) (λ _. OnTold (D.history self.old.second) (λ _. self.new.generation ≡ self.old.generation)) }
        ensures err_generation { OnErr result (self.new.generation ≡ self.old.generation) }

        // What a crash may leave at each moment of the call, and then.
        ensures step { IsPairStep D.history self.old (PairCall.Called (reopen_call result)) self.new }

        // A bad frame comes only from a disk that doesn't tell what it holds.
        ensures bad { IfErr result (λ e. (n : ℕ) → e ≡ OpenError.BadFrame n → D.history (disk_of self.old) ≡ []) }
        ensures fault { IsErrOf result OpenError.DiskFault → Rose (faults_of D.faults self.old) (faults_of D.faults self.new) }
        ensures fault_closes { IsErrOf result OpenError.DiskFault → self.new.closed ≡ true }
        ensures counts { faults_of D.faults self.old ≤ faults_of D.faults self.new }
        ensures quiet { OnOk result (faults_of D.faults self.new ≡ faults_of D.faults self.old) }
    {
        if clear_spare(&mut self.spare, &mut self.standing).is_err() {
            return Err(OpenError::DiskFault);
        }
        match self.journal.reopen(alloc) {
            Ok(()) => {
                self.standing = Spare::Idle;
                Ok(())
            }
            Err(error) => Err(error),
        }
    }

    /// Whether the generation can be raised, as a checkpoint does. It takes no memory.
    pub fn may_checkpoint(&self) -> bool
        ensures { IsTrue result ↔ (self.now.generation < 2 ^ 64 - 1) }
    {
        generation_of(self.journal.frames()) < u64::MAX
    }

    /// The acknowledged payloads, in order, without the one that tells the generation. It takes no
    /// memory.
    pub fn frames(&self) -> &[Vec<u8>]
        ensures { payloads_of result.now ≡ self.now.payloads }
    {
        behind_generation(self.journal.frames())
    }

    /// Whether a device fault came since the journal was opened last.
    pub fn is_closed(&self) -> bool
        ensures { result ≡ self.now.closed }
    {
        self.standing.is_refused() || self.journal.is_closed()
    }

    /// The first disk.
    pub fn first(&self) -> &D
        ensures { result.now ≡ self.now.first }
    {
        if self.on_second {
            &self.spare
        } else {
            self.journal.disk()
        }
    }

    /// The second disk.
    pub fn second(&self) -> &D
        ensures { result.now ≡ self.now.second }
    {
        if self.on_second {
            self.journal.disk()
        } else {
            &self.spare
        }
    }

    /// Gives both disks back, the first one first.
    pub fn into_disks(self) -> (D, D)
        ensures first { result.0 ≡ self.first }
        ensures second { result.1 ≡ self.second }
    {
        let PairedJournal {
            journal,
            spare,
            on_second,
            standing,
        } = self;
        drop(standing);
        let disk = journal.into_disk();
        if on_second {
            (spare, disk)
        } else {
            (disk, spare)
        }
    }
}

// The payloads without the one that tells a generation.
fn behind_generation(payloads: &[Vec<u8>]) -> &[Vec<u8>]
    ensures { payloads_of result.now ≡ without_generation (payloads_of payloads.now) }
{
    match payloads.first() {
        Some(payload) if is_generation(payload) => &payloads[1..],
        _ => payloads,
    }
}
