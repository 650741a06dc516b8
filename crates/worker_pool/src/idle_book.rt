//! The idle book, which workers and callers share.
ghost use Rattle.std.specs.Prelude.{◌≡◌, Some, IfSome};
ghost use Rattle.worker_pool.specs.declared.row.TheConstants.{LAST_COUNT};

use crate::idle_rows::IdleRows;
use crate::task::Task;
use std::alloc::{AllocError, Global};
use std::sync::{Mutex, Wait};

/// The tasks that rest, shared by reference. Each call takes the lock, for which it may wait, and
/// makes the one call of the same name on `IdleRows`, whose clauses say what it does.
#[derive(Drop)]
pub struct IdleBook<T: Task> {
    rows: Mutex<IdleRows<T>>,
}

impl<T: Task> IdleBook<T> {
    /// A book with no rows. It takes no memory yet.
    pub fn new(alloc: Global) -> IdleBook<T> {
        IdleBook {
            rows: Mutex::new(IdleRows::new(alloc)),
        }
    }

    /// Makes a row where the identifier has none, and tells whether it made one. At want of memory
    /// nothing has changed.
    pub fn enter<R: Wait>(&self, rt: &R, id: u128) -> Result<bool, AllocError> {
        self.rows.lock(rt).enter(id)
    }

    /// Takes the row away, and hands out the task that was put away there.
    pub fn leave<R: Wait>(&self, rt: &R, id: u128) -> Option<T>
        ensures own { IfSome result (λ t. T.identity t ≡ id) }
    {
        self.rows.lock(rt).leave(id)
    }

    /// Counts a call of the row, and hands the task out where it is put away. The caller pushes it
    /// to the ready tasks.
    pub fn call<R: Wait>(&self, rt: &R, id: u128) -> Option<T>
        ensures own { IfSome result (λ t. T.identity t ≡ id) }
    {
        self.rows.lock(rt).call(id)
    }

    /// The row's count of calls, or 0 without a row.
    pub fn look<R: Wait>(&self, rt: &R, id: u128) -> u64 {
        self.rows.lock(rt).look(id)
    }

    /// Puts the task away where its row has the count `looked` and holds no task, and else hands
    /// it back.
    pub fn put<R: Wait>(&self, rt: &R, task: T, looked: u64) -> Option<T>
        ensures back { IfSome result (λ t. t ≡ task) }
        ensures at_last_count { looked ≡ LAST_COUNT → result ≡ Some task }
    {
        self.rows.lock(rt).put(task, looked)
    }
}
