//! A cycle.
ghost use Rattle.std.specs.Prelude.{◌≡◌, ◌≤◌, IsTrue, None, Some};
ghost use Rattle.std.specs.Option.{option_map};
ghost use Rattle.roots_api.specs.declared.limits.TheConstants.{MAX_FETCH};
ghost use Rattle.cycle_core.specs.Cycle.{MayBeToldIn, StepsTo, asks, caches_of, is_going, new_cycle, now_of, phase, phase_in, progress_of, stand_in};
ghost use Rattle.cycle_core.specs.Going.{begun, begun_by};
ghost use Rattle.cycle_core.specs.Requests.{asked_in};

use crate::request::{Progress, Request, Taken};
use crate::scanning::Scanning;
use crate::spec::{Caches, CycleSpec, Setup, Tag};
use crate::stand::{Next, Stand};
use crate::told::History;
use crate::turning::{stopped, turned};
use entry_tree::Tree;
use frame_text::{Frame, ResetNumber};
use mode_rules::Phase;
use std::alloc::Global;
use std::marker::Model;
use std::mem::replace;
use std::snapshot::Snapshot;

/// A cycle of a session: it scans both sides, plans by the mode's table, stages, changes, clears and keeps its frame, one request
/// at a time. Contracts see what it was made of, and each turn: what it was told, and how it went on.
#[derive(Drop)]
pub struct Cycle {
    made: Snapshot<CycleSpec>,
    began: Snapshot<Caches>,
    history: History,
    setup: Setup,
    caches: Caches,
    stand: Option<Stand>,
}

impl Model for Cycle {
    ghost use Rattle.cycle_core.specs.Cycle.{CycleTold, IsMachine};
    ghost use Rattle.cycle_core.specs.CycleCodes.{cycle_code};

    ghost Value = { CycleTold };

    ghost coded = { cycle_code };

    ghost view = { λ c. record { spec = c.made.value; caches = c.began.value; turns = c.history } };

    ghost invariant = { λ c. IsMachine (record { spec = c.made.value; caches = c.began.value; turns = c.history }) c.setup c.caches c.stand };
}

impl Cycle {
    /// A cycle that was told nothing, with what is known of both sides' contents. A file of more bytes than `size` allows is a problem.
    ///
    /// It takes no memory.
    pub fn begin(alloc: Global, spec: CycleSpec, caches: Caches) -> Cycle
        requires { spec.size ≤ MAX_FETCH }
        ensures { result ≡ new_cycle spec caches }
    {
        let made = Snapshot::of(&spec);
        let began = Snapshot::of(&caches);
        let CycleSpec {
            mode,
            rules,
            entries,
            size,
            run,
            cycle,
            forget,
            ancestor,
        } = spec;
        Cycle {
            made,
            began,
            history: History::new(),
            setup: Setup {
                mode,
                rules,
                entries,
                size,
                tag: Tag { run, cycle },
            },
            caches,
            stand: Some(begun_by(alloc, entries, size, ancestor, forget)),
        }
    }

    /// What it asks next; none where it has ended. It takes no memory. Cost: O(1).
    pub fn pending(&self) -> Option<Request<'_>>
        ensures { option_map asked_in result ≡ asks self.now }
    {
        match &self.stand {
            Some(stand) => stand.request(),
            None => None,
        }
    }

    /// Its phase: `Idle` where it has ended. It takes no memory. Cost: O(1).
    pub fn phase(&self) -> Phase
        ensures { result ≡ phase self.now }
    {
        match &self.stand {
            Some(stand) => stand.phase(),
            None => Phase::Idle,
        }
    }

    /// Takes what came of the request, and says how the cycle goes on.
    ///
    /// Want of memory is no error: `specs/Going.antt` says what it makes of a cycle. Cost: that of the operation, and O(log n).
    pub fn take(&mut self, alloc: Global, told: Taken) -> Progress
        requires { MayBeToldIn (now_of self.old) told }
        ensures { StepsTo self.old (Some told) result self.new }
    {
        match self.stand.take() {
            Some(stand) => {
                let heard = Snapshot::of(&told);
                let came = turned(alloc, &self.setup, &mut self.caches, stand, told);
                self.history.push(Some(heard), &came, &self.caches);
                let (stand, progress) = parted(came);
                drop(replace(&mut self.stand, stand));
                progress
            }
            None => Progress::Going,
        }
    }

    /// The session is to be stopped: a cycle whose plan doesn't stand ends, and any other one clears what was staged and keeps what
    /// landed; so one that clears or keeps already goes on.
    pub fn stop(&mut self, alloc: Global) -> Progress
        requires { IsTrue (is_going (now_of self.old)) }
        ensures { StepsTo self.old None result self.new }
    {
        match self.stand.take() {
            Some(stand) => {
                let came = stopped(alloc, &self.setup, stand);
                self.history.push(None, &came, &self.caches);
                let (stand, progress) = parted(came);
                drop(replace(&mut self.stand, stand));
                progress
            }
            None => Progress::Going,
        }
    }

    /// The caches, with all that was learnt. It takes no memory.
    pub fn end(self) -> Caches
        ensures { result ≡ caches_of self }
    {
        let Cycle {
            made,
            began,
            history,
            setup,
            caches,
            stand,
        } = self;
        drop(made);
        drop(began);
        drop(history);
        drop(setup);
        drop(stand);
        caches
    }
}

// What it begins with: a reset that is owed is kept first.
fn begun_by(
    alloc: Global,
    entries: u32,
    size: u64,
    ancestor: Tree,
    forget: Option<ResetNumber>,
) -> Stand
    requires { size ≤ MAX_FETCH }
    ensures { result ≡ begun_by entries size ancestor forget }
{
    match forget {
        Some(number) => Stand::Forgets(Frame::Reset(number)),
        None => Stand::Scans(Scanning::first(alloc, entries, size, ancestor)),
    }
}

// How it goes on, as the machine keeps it and as it is told.
fn parted(came: Next) -> (Option<Stand>, Progress)
    ensures stand { result.0 ≡ stand_in came }
    ensures progress { result.1 ≡ progress_of came }
{
    match came {
        Next::Goes(stand) => (Some(stand), Progress::Going),
        Next::Ends(report) => (None, Progress::Ended(report)),
    }
}
