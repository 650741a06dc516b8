//! The scans of both sides.
ghost use Rattle.std.specs.Prelude.{◌≡◌, ◌≤◌, IfOk, OnErr, IsTrue, is_some};
ghost use Rattle.roots_api.specs.declared.limits.TheConstants.{MAX_FETCH};
ghost use Rattle.scan_core.specs.Scan.{IsAnswered, asked, state_of};
ghost use Rattle.cycle_core.specs.Looks.{TakesOn, new_looks, scan_on};

use entry_tree::{Side, Tree};
use ignore_rules::Rules;
use roots_api::{Answer, Op};
use scan_cache::Cache;
use scan_core::{Scan, ScanEnd};
use std::alloc::{AllocError, Global};

/// The scans of both sides, and the tree that is the ancestor.
#[derive(Drop)]
pub struct Looks {
    pub alpha: Scan,
    pub beta: Scan,
    pub ancestor: Tree,
}

impl Looks {
    /// Two scans that were told nothing. It takes no memory.
    pub(crate) fn new(alloc: Global, entries: u32, size: u64, ancestor: Tree) -> Looks
        requires { size ≤ MAX_FETCH }
        ensures { result ≡ new_looks entries size ancestor }
    {
        let alpha = Scan::new(alloc, entries, size);
        let beta = Scan::new(alloc, entries, size);
        Looks {
            alpha,
            beta,
            ancestor,
        }
    }

    // The scan of a side.
    fn scan(&self, side: Side) -> &Scan
        ensures { result.now ≡ scan_on self.now side }
    {
        match side {
            Side::Alpha => &self.alpha,
            Side::Beta => &self.beta,
        }
    }

    /// What the scan of a side asks next; none exactly where it is whole.
    pub(crate) fn next_op(&self, alloc: Global, side: Side) -> Result<Option<Op>, AllocError>
        ensures value { IfOk result (λ op. op ≡ asked (state_of (scan_on self.now side))) }
        ensures memory { OnErr result (IsTrue (is_some (asked (state_of (scan_on self.now side))))) }
    {
        self.scan(side).next_op(alloc)
    }

    /// Takes the answer to what the scan of a side asks next.
    pub(crate) fn take(
        &mut self,
        alloc: Global,
        side: Side,
        answer: Answer,
        rules: &Rules,
        cache: &mut Cache,
    ) -> Result<(), ScanEnd>
        requires { IsAnswered (asked (state_of (scan_on self.old side))) answer }
        ensures { TakesOn side self.old (record { answer = answer; rules = rules.now; cache = cache.old }) result self.new cache.new }
    {
        match side {
            Side::Alpha => self.alpha.take(alloc, answer, rules, cache),
            Side::Beta => self.beta.take(alloc, answer, rules, cache),
        }
    }
}
