//! A disk in memory.
ghost use Rattle.std.specs.Prelude.{◌≡◌, ℕ, ◌+◌, ◌-◌, ◌^◌, ◌<◌, ◌≤◌, [], ◌∷◌, length, ◌↔◌, IfOk, IsOk, OnOk, OnErr};
ghost use Rattle.fault_count.specs.Rose.{Rose};
ghost use Rattle.disk_model.specs.Content.{settled, MayLeave};
ghost use Rattle.disk_model.specs.Disk.{OnTold, ReadsAt, WritesPart, Cuts, Syncs};
ghost use Rattle.disk_model.specs.Replay.{content_after, history_of};

use crate::disk::{Disk, Failed, MOST_BYTES};
use crate::event::{Event, cut_to, overwrite};
use crate::plan::{CallPlan, Fate};
use crate::tear::{Tear, tear_event};
use fault_count::count_fault;
use std::alloc::{AllocError, Global};

/// A disk in memory, which tells its contents.
///
/// The calls whose numbers it was given fail, and a write or a cut among them is made in part. From
/// the call on at which it stops every call fails, and behind that one nothing is done. A call for
/// which there is no memory fails too. It keeps what it held at first and each change since, so it
/// grows with what is written.
#[derive(Drop)]
pub struct MemDisk {
    alloc: Global,
    first: Vec<u8>,
    events: Vec<Event>,
    bytes: Vec<u8>,
    plan: CallPlan,
    faults: u64,
    ghost current: { bytes.items ≡ (content_after (settled first.items) events.items).bytes },
}

impl MemDisk {
    ghost use Rattle.disk_model.specs.MemDisk.{plan_of};

    /// A disk that holds these bytes, all of them made sure of. Its calls with these numbers,
    /// counted from 0, fail, and it stops at the call `stop`.
    pub fn new(
        alloc: Global,
        bytes: Vec<u8>,
        calls: &[u64],
        stop: Option<u64>,
    ) -> Result<MemDisk, AllocError>
        ensures history { IfOk result (λ disk. ⟦<MemDisk as Disk>⟧.history disk ≡ settled bytes.items ∷ []) }
        ensures faults { IfOk result (λ disk. ⟦<MemDisk as Disk>⟧.faults disk ≡ 0) }
        ensures calls { IfOk result (λ disk. ⟦<MemDisk as Disk>⟧.calls disk ≡ 0) }
        ensures plan { IfOk result (λ disk. plan_of disk ≡ record { failing = calls.now; stop = stop; made = 0 }) }
    {
        let plan = CallPlan::new(alloc, calls, stop)?;
        let first = Vec::from_slice(alloc, &bytes)?;
        Ok(MemDisk {
            alloc,
            first,
            events: Vec::new(alloc),
            bytes,
            plan,
            faults: 0,
        })
    }

    /// What reads give.
    pub fn bytes(&self) -> &[u8]
        ensures { OnTold (⟦<MemDisk as Disk>⟧.history self.now) (λ now. result.now ≡ now.bytes) }
    {
        &self.bytes
    }

    /// An image that a crash at this moment may leave, each change since the last sync torn in the
    /// same way. It costs all that was ever written.
    pub fn image(&self, alloc: Global, tear: Tear) -> Result<Vec<u8>, AllocError>
        ensures { IfOk result (λ image. OnTold (⟦<MemDisk as Disk>⟧.history self.now) (λ now. MayLeave now image.items)) }
    {
        let mut bytes = Vec::from_slice(alloc, &self.first)?;
        let mut image = Vec::from_slice(alloc, &self.first)?;
        for event in &self.events {
            tear_event(alloc, &mut bytes, &mut image, event, tear)?;
        }
        Ok(image)
    }

    // Makes a write of `count` bytes in part.
    fn write_part(&mut self, place: u64, count: u64, made: &[u8]) -> Result<(), AllocError>
        requires { length made.now ≤ count }
        ensures ok { OnOk result (WritesPart place count made.now
            (history_of self.old.first.items self.old.events.items) (history_of self.new.first.items self.new.events.items)) }
        ensures err { OnErr result (history_of self.new.first.items self.new.events.items
            ≡ history_of self.old.first.items self.old.events.items) }
        ensures faults { self.new.faults ≡ self.old.faults }
        ensures plan { self.new.plan ≡ self.old.plan }
    {
        let kept = Vec::from_slice(self.alloc, made)?;
        self.events.reserve(1)?;
        overwrite(&mut self.bytes, place, made)?;
        self.events.push(Event::Wrote(place, count, kept)).unwrap();
        Ok(())
    }

    // Makes a cut.
    fn cut_part(&mut self, length: u64) -> Result<(), AllocError>
        ensures ok { OnOk result (Cuts length
            (history_of self.old.first.items self.old.events.items) (history_of self.new.first.items self.new.events.items)) }
        ensures err { OnErr result (history_of self.new.first.items self.new.events.items
            ≡ history_of self.old.first.items self.old.events.items) }
        ensures faults { self.new.faults ≡ self.old.faults }
        ensures plan { self.new.plan ≡ self.old.plan }
    {
        self.events.push(Event::CutTo(length))?;
        cut_to(&mut self.bytes, length);
        Ok(())
    }

    // Makes sure of what reads give.
    fn settle(&mut self) -> Result<(), AllocError>
        ensures ok { OnOk result (Syncs
            (history_of self.old.first.items self.old.events.items) (history_of self.new.first.items self.new.events.items)) }
        ensures err { OnErr result (history_of self.new.first.items self.new.events.items
            ≡ history_of self.old.first.items self.old.events.items) }
        ensures faults { self.new.faults ≡ self.old.faults }
        ensures plan { self.new.plan ≡ self.old.plan }
    {
        self.events.push(Event::Synced)?;
        Ok(())
    }
}

impl Disk for MemDisk {
    ghost use Rattle.disk_model.specs.Content.{write_change, cut_change};
    ghost use Rattle.disk_model.specs.Disk.{Writes, Cuts, FailsInPart, calls_after};
    ghost use Rattle.disk_model.specs.MemDisk.{contents, faults_of, calls_of, plan_of, next_fate, FailsBy, first_half};
    ghost use Rattle.disk_model.specs.Plan.{after_call};

    ghost history = { λ d. history_of d.first.items d.events.items };

    ghost faults = { λ d. d.faults };

    ghost calls = { λ d. d.plan.made };

    fn length(&mut self) -> Result<u64, Failed>
        ensures bound { IfOk result (λ n. n < 2 ^ 63) }
        ensures value { IfOk result (λ n. OnTold (contents self.old) (λ now. n ≡ length now.bytes)) }
        ensures same { contents self.new ≡ contents self.old }
        ensures called { calls_of self.new ≡ calls_after (calls_of self.old) 1 }
        ensures counts { faults_of self.old ≤ faults_of self.new }
        ensures quiet { OnOk result (faults_of self.new ≡ faults_of self.old) }
        ensures failed { OnErr result (Rose (faults_of self.old) (faults_of self.new)) }

        // By the call's number: it succeeds exactly where it is to, and the bytes are within the limit.
        ensures by_plan { IsOk result ↔ ((next_fate self.old ≡ Fate.Made) × OnTold (contents self.old) (λ now. length now.bytes < 2 ^ 63)) }
        ensures plan { plan_of self.new ≡ after_call (plan_of self.old) }
    {
        let fate = self.plan.next();
        let length = self.bytes.len() as u64;
        if fate != Fate::Made || length > MOST_BYTES {
            count_fault(&mut self.faults);
            return Err(Failed);
        }
        Ok(length)
    }

    fn read(&mut self, place: u64, into: &mut [u8]) -> Result<usize, Failed>
        ensures bound { IfOk result (λ n. n ≤ length into.old) }
        ensures bytes { IfOk result (λ n. OnTold (contents self.old) (λ now. ReadsAt now.bytes place into.old n into.new)) }
        ensures same { contents self.new ≡ contents self.old }
        ensures called { calls_of self.new ≡ calls_after (calls_of self.old) 1 }
        ensures counts { faults_of self.old ≤ faults_of self.new }
        ensures quiet { OnOk result (faults_of self.new ≡ faults_of self.old) }
        ensures failed { OnErr result (Rose (faults_of self.old) (faults_of self.new)) }

        // By the call's number.
        ensures by_plan { IsOk result ↔ (next_fate self.old ≡ Fate.Made) }
        ensures plan { plan_of self.new ≡ after_call (plan_of self.old) }
    {
        if self.plan.next() != Fate::Made {
            count_fault(&mut self.faults);
            return Err(Failed);
        }
        Ok(copy_from(&self.bytes, place, into))
    }

    fn write_at(&mut self, place: u64, bytes: &[u8]) -> Result<(), Failed>
        ensures room { OnOk result (place + length bytes.now < 2 ^ 63) }
        ensures made { OnOk result (Writes place bytes.now (contents self.old) (contents self.new)) }
        ensures torn { OnErr result (FailsInPart (write_change place (length bytes.now)) (contents self.old) (contents self.new)) }
        ensures called { calls_of self.new ≡ calls_after (calls_of self.old) 1 }
        ensures counts { faults_of self.old ≤ faults_of self.new }
        ensures quiet { OnOk result (faults_of self.new ≡ faults_of self.old) }
        ensures failed { OnErr result (Rose (faults_of self.old) (faults_of self.new)) }

        // By the call's number: of one that is torn the first half is written.
        ensures by_plan { OnOk result (next_fate self.old ≡ Fate.Made) }
        ensures torn_by_plan { OnErr result (FailsBy (next_fate self.old)
            (WritesPart place (length bytes.now) (first_half bytes.now)) (contents self.old) (contents self.new)) }
        ensures plan { plan_of self.new ≡ after_call (plan_of self.old) }
    {
        let fate = self.plan.next();
        let count = bytes.len() as u64;
        if fate == Fate::Stopped || place > MOST_BYTES || count > MOST_BYTES - place {
            count_fault(&mut self.faults);
            return Err(Failed);
        }
        if fate == Fate::Torn {
            let half = bytes.len().div_ceil(2);
            let _ = self.write_part(place, count, &bytes[..half]);
            count_fault(&mut self.faults);
            return Err(Failed);
        }
        match self.write_part(place, count, bytes) {
            Ok(()) => Ok(()),
            Err(_) => {
                count_fault(&mut self.faults);
                Err(Failed)
            }
        }
    }

    fn cut(&mut self, length: u64) -> Result<(), Failed>
        ensures made { OnOk result (Cuts length (contents self.old) (contents self.new)) }
        ensures torn { OnErr result (FailsInPart (cut_change length) (contents self.old) (contents self.new)) }
        ensures called { calls_of self.new ≡ calls_after (calls_of self.old) 1 }
        ensures counts { faults_of self.old ≤ faults_of self.new }
        ensures quiet { OnOk result (faults_of self.new ≡ faults_of self.old) }
        ensures failed { OnErr result (Rose (faults_of self.old) (faults_of self.new)) }

        // By the call's number: one that is torn is made.
        ensures by_plan { OnOk result (next_fate self.old ≡ Fate.Made) }
        ensures torn_by_plan { OnErr result (FailsBy (next_fate self.old) (Cuts length) (contents self.old) (contents self.new)) }
        ensures plan { plan_of self.new ≡ after_call (plan_of self.old) }
    {
        let fate = self.plan.next();
        if fate == Fate::Stopped {
            count_fault(&mut self.faults);
            return Err(Failed);
        }
        if fate == Fate::Torn {
            let _ = self.cut_part(length);
            count_fault(&mut self.faults);
            return Err(Failed);
        }
        match self.cut_part(length) {
            Ok(()) => Ok(()),
            Err(_) => {
                count_fault(&mut self.faults);
                Err(Failed)
            }
        }
    }

    fn sync(&mut self) -> Result<(), Failed>
        ensures made { OnOk result (Syncs (contents self.old) (contents self.new)) }
        ensures same { OnErr result (contents self.new ≡ contents self.old) }
        ensures called { calls_of self.new ≡ calls_after (calls_of self.old) 1 }
        ensures counts { faults_of self.old ≤ faults_of self.new }
        ensures quiet { OnOk result (faults_of self.new ≡ faults_of self.old) }
        ensures failed { OnErr result (Rose (faults_of self.old) (faults_of self.new)) }

        // By the call's number.
        ensures by_plan { OnOk result (next_fate self.old ≡ Fate.Made) }
        ensures plan { plan_of self.new ≡ after_call (plan_of self.old) }
    {
        if self.plan.next() == Fate::Made && self.settle().is_ok() {
            return Ok(());
        }
        count_fault(&mut self.faults);
        Err(Failed)
    }
}

// Copies the bytes from a place on, as many as there are and as fit.
fn copy_from(bytes: &[u8], place: u64, into: &mut [u8]) -> usize
    ensures { ReadsAt bytes.now place into.old result into.new }
{
    let start = place.min(bytes.len() as u64) as usize;
    let rest = &bytes[start..];
    let count = rest.len().min(into.len());
    into[..count].copy_from_slice(&rest[..count]);
    count
}
