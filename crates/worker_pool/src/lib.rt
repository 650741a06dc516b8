//! Workers that turn tasks, the queue of the tasks that are ready, and the book of those that rest.
//!
//! A task that rested is put away in the idle book, and a call takes it out. The task is put away
//! only where no call has come since the worker looked, so no call falls between the last look
//! and the putting away. The decisions are made by `IdleRows`, which has no handle; the book is
//! a lock round it. The queue tells each pass a history of pushes and pops, first in, first out.
//!
//! ```rust
//! // `one` and `two` are tasks with the identity 7.
//! let mut rows = IdleRows::new(alloc);
//! let is_new = rows.enter(7)?; // true
//! let none = rows.call(7); // None: no task is put away there
//! let back = rows.put(one, 0); // the task again: a call has come since the count was 0
//! let away = rows.put(two, 1); // None: the task is put away
//! ```
//!
//! The test `the_rows_answer` makes these calls.
#![tactic(auto)]

mod gate;
mod idle_book;
mod idle_rows;
mod moves;
mod ready;
mod row;
mod stop;
mod task;
#[cfg(test)]
mod tests;
mod worker;

pub use gate::{Gate, OpenGate};
pub use idle_book::IdleBook;
pub use idle_rows::IdleRows;
pub use moves::{Move, Seen};
pub use ready::{CAPACITY, FirstInFirstOut, Ready, ReadyPass};
pub use row::{Away, LAST_COUNT, Row};
pub use stop::Stop;
pub use task::{Course, Task};
pub use worker::work;
