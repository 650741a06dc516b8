//! The rows of the idle book.
ghost use Rattle.std.specs.Prelude.{◌≡◌, ◌↔◌, ℕ, not, None, Some, IsNone, IfNone, IfSome, IfOk, OnOk, OnErr};
ghost use Rattle.std.specs.FinMap as map;
ghost use Rattle.worker_pool.specs.IdleMap.{task_at, calls_at, entered, called_at, CanPut, put_at, ArePutAway};

use crate::row::Row;
use crate::task::Task;
use std::alloc::{AllocError, Global};
use std::collections::BTreeMap;
use std::marker::Model;

/// A row for each identifier that was entered: its count of calls, and its task while that is put
/// away. A task lies in the row of its own identifier, and only while the row's count is the one
/// that was looked at before the task's last turn.
///
/// Contracts see the rows as a finite map from identifiers to rows. Each call costs O(log n) at n
/// rows.
#[derive(Drop)]
pub struct IdleRows<T: Task> {
    rows: BTreeMap<u128, Row<T>>,
}

impl<T: Task> Model for IdleRows<T> {
    ghost use Rattle.std.specs.Coded.{coded_ℕ};
    ghost use Rattle.std.specs.FinMap as map;
    ghost use Rattle.worker_pool.specs.IdleRow.{row_code};
    ghost use Rattle.worker_pool.specs.IdleMap.{Rows, rows_in, ArePutAway};

    ghost Value = { Rows T };

    ghost coded = { map.code coded_ℕ (row_code T.code) };

    ghost view = { λ a. rows_in a.rows };

    ghost invariant = { λ a. ArePutAway T.identity (rows_in a.rows) };
}

impl<T: Task> IdleRows<T> {
    /// No rows. It takes no memory yet.
    pub fn new(alloc: Global) -> IdleRows<T>
        ensures { result ≡ map.empty }
    {
        IdleRows {
            rows: BTreeMap::new(alloc),
        }
    }

    /// Makes a row with the count 0 and room for one task, where the identifier has none, and
    /// tells whether it made one.
    pub fn enter(&mut self, id: u128) -> Result<bool, AllocError>
        ensures made { IfOk result (λ made. made ≡ not (map.contains_key self.old id)) }
        ensures rows { OnOk result (self.new ≡ entered self.old id) }

        // Only a new row takes memory.
        ensures err { OnErr result ((self.new ≡ self.old) × (map.get self.old id ≡ None)) }
    {
        if self.rows.contains_key(&id) {
            return Ok(false);
        }
        match self.rows.insert(id, Row::new()) {
            Ok(_) => Ok(true),
            Err(_) => Err(AllocError),
        }
    }

    /// Takes the row away, and hands out the task that was put away there. It takes no memory.
    pub fn leave(&mut self, id: u128) -> Option<T>
        ensures task { result ≡ task_at (map.get self.old id) }
        ensures own { IfSome result (λ t. T.identity t ≡ id) }
        ensures rows { self.new ≡ map.remove self.old id }
    {
        let row = self.rows.remove(&id);
        row_task(row)
    }

    /// Adds 1 to the row's count of calls, and hands the task out where it is put away. A count
    /// stays at `LAST_COUNT`. It takes no memory.
    pub fn call(&mut self, id: u128) -> Option<T>
        ensures task { result ≡ task_at (map.get self.old id) }
        ensures own { IfSome result (λ t. T.identity t ≡ id) }
        ensures rows { self.new ≡ called_at self.old id }
    {
        self.rows.get_mut(&id)?.call()
    }

    /// The row's count of calls, or 0 without a row.
    pub fn look(&self, id: u128) -> u64
        ensures count { result ≡ calls_at (map.get self.now id) }

        // What all rows keep at all times.
        ensures put_away { ArePutAway T.identity self.now }
    {
        match self.rows.get(&id) {
            Some(row) => row.calls,
            None => 0,
        }
    }

    /// Puts the task away where its row has the count `looked`, below `LAST_COUNT`, and holds no
    /// task, and else hands it back. It takes no memory.
    pub fn put(&mut self, task: T, looked: u64) -> Option<T>
        ensures put { IsNone result ↔ CanPut self.old (T.identity task) looked }
        ensures away { IfNone result (self.new ≡ put_at self.old (T.identity task) task looked) }
        ensures back { IfSome result (λ t. (t ≡ task) × (self.new ≡ self.old)) }
    {
        match self.rows.get_mut(&task.id()) {
            Some(row) => row.put(task, looked),
            None => Some(task),
        }
    }
}

// The task that is put away in the row, if there is one.
fn row_task<T: Drop>(row: Option<Row<T>>) -> Option<T>
    ensures { result ≡ task_at row }
{
    Some(row?.away?.task)
}
