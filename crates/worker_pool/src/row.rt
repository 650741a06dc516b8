//! One row of the idle book.
ghost use Rattle.std.specs.Prelude.{◌≡◌, ◌↔◌, None, Some, IsNone, IfSome, IfNone};
ghost use Rattle.worker_pool.specs.IdleRow.{row_of, away_of, new_row, called, task_in, MayPut};

/// The count at which a row's count of calls stays. With it no task is put away.
pub const LAST_COUNT: u64 = u64::MAX;

/// A task that is put away.
#[derive(Drop)]
pub struct Away<T> {
    pub task: T,

    /// The count of calls that was looked at before the task's last turn.
    pub looked: u64,
}

/// How often a task was called, and the task while it is put away.
#[derive(Drop)]
pub struct Row<T> {
    pub calls: u64,
    pub away: Option<Away<T>>,
}

impl<T: Drop> Row<T> {
    /// No calls, and no task.
    pub(crate) fn new() -> Row<T>
        ensures { result ≡ new_row }
    {
        Row {
            calls: 0,
            away: None,
        }
    }

    /// Counts a call, and hands the task out.
    pub(crate) fn call(&mut self) -> Option<T>
        ensures task { result ≡ task_in self.old.away }
        ensures row { self.new ≡ called self.old }
    {
        self.calls = self.calls.saturating_add(1);
        Some(self.away.take()?.task)
    }

    /// Puts the task away where there was no call since the look, and else hands it back.
    pub(crate) fn put(&mut self, task: T, looked: u64) -> Option<T>
        ensures put { IsNone result ↔ MayPut self.old looked }
        ensures away { IfNone result (self.new ≡ row_of looked (Some (away_of task looked))) }
        ensures back { IfSome result (λ t. (t ≡ task) × (self.new ≡ self.old)) }
    {
        if self.calls != looked || looked == LAST_COUNT || self.away.is_some() {
            return Some(task);
        }
        self.away = Some(Away { task, looked });
        None
    }
}
