//! The running sizes of a log.
ghost use Rattle.std.specs.Prelude.{◌≡◌, ◌+◌, ◌<◌, ◌^◌, ◌||◌, [], length, nat_lt};
ghost use Rattle.roots_api.specs.Logs.{rows_in, appended_by};

use roots_api::{Answer, MAX_BYTES_HELD, MAX_LOG_SIZE, Op, Room};

/// The running sizes of a log.
#[derive(Clone, Copy, Debug)]
pub(crate) struct Sizes {
    /// Its size: the events, and the rows of listings.
    pub(crate) log: u64,
    /// The bytes held: those of the ledger, and of all that was staged.
    pub(crate) bytes: u64,
    /// How many operations it holds.
    pub(crate) asked: u64,
}

impl Sizes {
    ghost use Rattle.std.specs.Prelude.{◌≡◌, ◌+◌, ◌||◌, [], length, nat_lt};
    ghost use Rattle.roots_api.specs.Logs.{rows_in, appended_by};
    ghost use Rattle.mem_roots.specs.Sizes.{sizes_of};

    /// The sizes of an empty log.
    pub(crate) fn new() -> Sizes
        ensures { result ≡ sizes_of [] }
    {
        Sizes {
            log: 0,
            bytes: 0,
            asked: 0,
        }
    }

    /// How full the log is.
    pub(crate) fn room(&self) -> Room
        ensures log { result.log ≡ self.now.log }
        ensures bytes { result.bytes ≡ self.now.bytes }
    {
        Room {
            log: self.log,
            bytes: self.bytes,
        }
    }

    /// Whether the event of an operation with this answer, or the bytes that it stages, would pass a limit.
    pub(crate) fn has_no_room(&self, op: &Op, answer: &Answer) -> bool
        ensures { result ≡ (nat_lt MAX_LOG_SIZE (self.now.log + (1 + rows_in answer.now)) || nat_lt MAX_BYTES_HELD (self.now.bytes + length (appended_by op.now))) }
    {
        passes(self.log, 1 + answer.rows_in() as u128, MAX_LOG_SIZE)
            || passes(self.bytes, op.appended_len() as u128, MAX_BYTES_HELD)
    }
}

impl Sizes {
    ghost use Rattle.std.specs.Prelude.{◌≡◌, ◌+◌, ◌≤◌, length};
    ghost use Rattle.roots_api.specs.Logs.{rows_in, appended_by};
    ghost use Rattle.mem_roots.specs.Sizes.{sizes_with, sizes_edited};

    /// The sizes with one operation more, which has this answer and adds so many bytes to the ledger.
    pub(crate) fn with(&self, op: &Op, answer: &Answer, placed: usize) -> Sizes
        requires log { self.now.log + (1 + rows_in answer.now) ≤ MAX_LOG_SIZE }
        requires bytes { self.now.bytes + (length (appended_by op.now) + placed) ≤ MAX_BYTES_HELD }
        requires asked { self.now.asked ≤ MAX_LOG_SIZE }
        ensures { result ≡ sizes_with self.now (rows_in answer.now) (length (appended_by op.now)) placed }
    {
        Sizes {
            log: self.log + 1 + answer.rows_in() as u64,
            bytes: self.bytes + op.appended_len() as u64 + placed as u64,
            asked: self.asked + 1,
        }
    }

    /// The sizes with one edit more, which adds so many bytes to the ledger.
    pub(crate) fn with_edit(&self, put: usize) -> Sizes
        requires log { self.now.log + 1 ≤ MAX_LOG_SIZE }
        requires bytes { self.now.bytes + put ≤ MAX_BYTES_HELD }
        ensures { result ≡ sizes_edited self.now put }
    {
        Sizes {
            log: self.log + 1,
            bytes: self.bytes + put as u64,
            asked: self.asked,
        }
    }
}

/// Whether so much more would pass the limit.
pub(crate) fn passes(held: u64, more: u128, limit: u64) -> bool
    requires { more < 2 ^ 65 }
    ensures { result ≡ nat_lt limit (held + more) }
{
    (limit as u128) < held as u128 + more
}
