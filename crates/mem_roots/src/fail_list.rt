//! Which operations are to fail.
ghost use Rattle.std.specs.Prelude.{◌≡◌, ◌==◌, ℕ, [], IfOk};
ghost use Rattle.std.specs.List.{list_any};

use std::alloc::{AllocError, Global};
use std::collections::BTreeSet;
use std::marker::Model;

/// The numbers of the operations that are to fail. Contracts see them as a list in ascending order.
#[derive(Drop)]
pub(crate) struct FailList {
    numbers: BTreeSet<u64>,
}

impl Model for FailList {
    ghost use Rattle.std.specs.Prelude.{ℕ, List};

    ghost Value = { List ℕ };

    ghost view = { λ f. f.numbers.keys };
}

impl FailList {
    /// None is to fail. It takes no memory.
    pub(crate) fn new(alloc: Global) -> FailList
        ensures { result ≡ [] }
    {
        FailList {
            numbers: BTreeSet::new(alloc),
        }
    }

    /// Those with these numbers are to fail. Cost: O(n log n).
    pub(crate) fn of(alloc: Global, calls: &[u64]) -> Result<FailList, AllocError>
        ensures { IfOk result (λ fails. (n : ℕ) → list_any (λ m. n == m) fails ≡ list_any (λ m. n == m) calls.now) }
    {
        let mut numbers = BTreeSet::new(alloc);
        for call in calls {
            numbers.insert(*call)?;
        }
        Ok(FailList { numbers })
    }

    /// Whether the operation with this number is to fail. Cost: O(log n).
    pub(crate) fn has(&self, number: u64) -> bool
        ensures { result ≡ list_any (λ m. number == m) self.now }
    {
        self.numbers.contains(&number)
    }
}
