//! A scan.
ghost use Rattle.std.specs.Prelude.{◌≡◌, ◌≤◌, [], IfOk, OnErr, IsTrue, is_some};
ghost use Rattle.entry_tree.specs.Atom.{is_dir};
ghost use Rattle.entry_tree.specs.Tree.{IsClosed};
ghost use Rattle.roots_api.specs.declared.limits.TheConstants.{MAX_FETCH};
ghost use Rattle.scan_core.specs.Scan.{asked, new_scan, new_state, state_of, IsAnswered, IsTaken, Takes as TakesTo};
ghost use Rattle.scan_core.specs.Work.{IsWork};

use crate::scan_end::ScanEnd;
use crate::told::Takes;
use crate::work::Work;
use entry_tree::Tree;
use ignore_rules::Rules;
use roots_api::{Answer, Op, Stamps};
use scan_cache::Cache;
use std::alloc::{AllocError, Global};
use std::marker::Model;

/// One look at a side. Contracts see its limits and what it was told: each answer that it took, with the rules and the cache that
/// it was given. `state_of` of `specs/Scan.antt` says what it comes to.
#[derive(Drop)]
pub struct Scan {
    entries: u32,
    size: u64,
    work: Work,
    takes: Takes,
}

impl Model for Scan {
    ghost use Rattle.scan_core.specs.Scan.{ScanTold};
    ghost use Rattle.scan_core.specs.Codes.{scan_code};
    ghost use Rattle.scan_core.specs.Work.{IsScan};

    ghost Value = { ScanTold };

    ghost coded = { scan_code };

    ghost view = { λ s. record { entries = s.entries; size = s.size; told = s.takes } };

    ghost invariant = { λ s. IsScan s.entries s.size s.work s.takes };
}

impl Scan {
    /// A scan of a side that may have so many rows, and of whose files each may have so many bytes, at most 16,777,216. It was told
    /// nothing. It takes no memory.
    pub fn new(alloc: Global, entries: u32, size: u64) -> Scan
        requires { size ≤ MAX_FETCH }
        ensures { result ≡ new_scan entries size }
    {
        Scan {
            entries,
            size,
            work: Work::new(alloc),
            takes: Takes::new(alloc),
        }
    }

    /// The operation that is asked next; none exactly where the scan is whole. Cost: a copy of its path.
    pub fn next_op(&self, alloc: Global) -> Result<Option<Op>, AllocError>
        ensures value { IfOk result (λ op. op ≡ asked (state_of self.now)) }
        ensures memory { OnErr result (IsTrue (is_some (asked (state_of self.now)))) }
    {
        self.work.next_op(alloc)
    }

    /// Takes the answer to what is asked next. With the last piece of a file the cache learns the file's digest.
    ///
    /// `TooMany` comes exactly where a folder's rows pass the limit, `Fault` where its listing failed, and `RootFull` where the root
    /// was full. After an `Err` the scan begins anew, and the cache is as it was.
    ///
    /// Cost: of a listing O(rows · (patterns + log n)), of a piece its bytes.
    pub fn take(
        &mut self,
        alloc: Global,
        answer: Answer,
        rules: &Rules,
        cache: &mut Cache,
    ) -> Result<(), ScanEnd>
        requires { IsAnswered (asked (state_of self.old)) answer }
        ensures { TakesTo self.old (record { answer = answer; rules = rules.now; cache = cache.old }) result self.new cache.new }
    {
        self.take_answer(alloc, &answer, rules, cache)
    }

    // `take` of an answer that the caller drops.
    fn take_answer(
        &mut self,
        alloc: Global,
        answer: &Answer,
        rules: &Rules,
        cache: &mut Cache,
    ) -> Result<(), ScanEnd>
        requires { IsAnswered (asked (state_of self.old)) answer.now }
        ensures { TakesTo self.old (record { answer = answer.now; rules = rules.now; cache = cache.old }) result self.new cache.new }
    {
        match self.takes.push(answer, rules, cache) {
            Err(_) => {
                begin_anew(&mut self.work, &mut self.takes, alloc);
                Err(ScanEnd::Memory)
            }
            Ok(()) => match self
                .work
                .take(alloc, self.entries, self.size, answer, rules, cache)
            {
                Ok(()) => Ok(()),
                Err(end) => {
                    begin_anew(&mut self.work, &mut self.takes, alloc);
                    Err(end)
                }
            },
        }
    }

    /// What was seen so far. It takes no memory. What the scan was told is what a scan can be told: each answer was one to what was
    /// asked, and ended nothing.
    pub fn seen(&self) -> &Tree
        ensures value { result.now ≡ (state_of self.now).board.seen }
        ensures closed { IsClosed is_dir result.now }
        ensures taken { IsTaken self.now }
    {
        let seen = &self.work.board.seen;
        let _ = seen.iter();
        seen
    }

    /// The stamps of the files that were seen so far. It takes no memory.
    pub fn stamps(&self) -> &Stamps
        ensures { result.now ≡ (state_of self.now).board.stamps }
    {
        &self.work.board.stamps
    }
}

// Begins with nothing.
fn begin_anew(work: &mut Work, takes: &mut Takes, alloc: Global)
    ensures work { IsWork new_state work.new }
    ensures takes { takes.new ≡ [] }
{
    *work = Work::new(alloc);
    *takes = Takes::new(alloc);
}
