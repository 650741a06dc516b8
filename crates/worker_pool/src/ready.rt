//! The queue of the tasks that are ready for a turn.
ghost use Rattle.std.specs.Prelude.{◌≡◌, [], IfOk, OnOk, IfErr, OnErr, IfSome, IfNone};
ghost use Rattle.crossbeam_queue.specs.Passes.{view, IsSamePass, ruled_capacity};
ghost use Rattle.worker_pool.specs.declared.ready.TheConstants.{CAPACITY};
ghost use Rattle.worker_pool.specs.Order.{seen, Pushed, Popped, HeldCount};

use crate::moves::Seen;
use crossbeam_queue::protocol::{Lesson, Outcome, Protocol, Split};
use crossbeam_queue::{Pass, RuledArrayQueue};
use std::alloc::{AllocError, Global};
use std::sync::Wait;

/// How many tasks the queue holds at most.
pub const CAPACITY: usize = 256;

/// The rule of the queue: all moves have one order, first in, first out.
pub struct FirstInFirstOut;

impl<T> Protocol<T, Seen<T>> for FirstInFirstOut {
    ghost use Rattle.std.specs.Prelude.{[]};
    ghost use Rattle.worker_pool.specs.Order.{seen, InOneOrder};

    ghost holds = { InOneOrder };

    ghost first = { seen [] [] };
}

struct Pushes;

impl<T> Outcome<T, Seen<T>> for Pushes {
    ghost use Rattle.worker_pool.specs.Order.{Pushed};

    ghost then = { Pushed };
}

impl<T> Lesson<T, Seen<T>> for Pushes {
    ghost use Rattle.worker_pool.specs.Order.{MayHold};

    ghost fact = { MayHold };
}

struct Pops;

impl<T> Outcome<T, Seen<T>> for Pops {
    ghost use Rattle.worker_pool.specs.Order.{Popped};

    ghost then = { Popped };
}

impl<T> Lesson<T, Seen<T>> for Pops {
    ghost use Rattle.worker_pool.specs.Order.{MayHold};

    ghost fact = { MayHold };
}

struct Shows;

impl<T> Split<Seen<T>> for Shows {
    ghost use Rattle.std.specs.Prelude.{[]};
    ghost use Rattle.worker_pool.specs.Order.{seen};

    ghost left = { λ v. v };

    ghost right = { λ v. seen v.moves [] };
}

/// What one caller knows of the queue. It has no bytes.
pub type ReadyPass<T> = Pass<T, Seen<T>>;

/// A queue of at most `CAPACITY` tasks that workers share by reference, first in, first out. All
/// pushes and pops have one order, and each pass has seen a beginning of it.
#[derive(Drop)]
pub struct Ready<T> {
    queue: RuledArrayQueue<T, Seen<T>, FirstInFirstOut, Global>,
    ghost sized: { ruled_capacity queue ≡ CAPACITY },
}

impl<T> Ready<T> {
    ghost use Rattle.worker_pool.specs.ReadyPass.{BelongsTo};

    /// An empty queue, and its first pass, which has seen nothing and made no move.
    pub fn new(alloc: Global) -> Result<(Ready<T>, ReadyPass<T>), AllocError>
        ensures { IfOk result (λ r. BelongsTo r.0 r.1 × (view r.1 ≡ seen [] [])) }
    {
        let (queue, pass) = RuledArrayQueue::ruled(alloc, CAPACITY)?;
        Ok((Ready { queue }, pass))
    }

    /// A pass for another caller, which has seen what this one has, and has made no move. It takes
    /// no memory.
    pub fn split(&self, pass: &mut ReadyPass<T>) -> ReadyPass<T>
        requires { BelongsTo self.now pass.old }
        ensures new { BelongsTo self.now result × (view result ≡ seen (view pass.old).moves []) }
        ensures same { IsSamePass pass.old pass.new × (view pass.new ≡ view pass.old) }
    {
        self.queue.another::<Shows>(pass)
    }

    /// Puts the task at the back. It comes back only where the queue was full at a moment of the
    /// call. It takes no memory.
    pub fn push<R: Wait>(&self, rt: &R, pass: &mut ReadyPass<T>, task: T) -> Result<(), T>
        requires { BelongsTo self.now pass.old }
        ensures pass { IsSamePass pass.old pass.new }
        ensures pushed { OnOk result (Pushed (view pass.old) task (view pass.new)) }
        ensures full { OnErr result (HeldCount (view pass.old) CAPACITY) }
        ensures back { IfErr result (λ t. (t ≡ task) × (view pass.new ≡ view pass.old)) }
    {
        self.queue.push_as::<Pushes, R>(rt, pass, task)
    }

    /// Takes the task at the front. None comes only where the queue was empty at a moment of the
    /// call. It takes no memory.
    pub fn pop<R: Wait>(&self, rt: &R, pass: &mut ReadyPass<T>) -> Option<T>
        requires { BelongsTo self.now pass.old }
        ensures pass { IsSamePass pass.old pass.new }
        ensures popped { IfSome result (λ t. Popped (view pass.old) t (view pass.new)) }
        ensures empty { IfNone result (HeldCount (view pass.old) 0 × (view pass.new ≡ view pass.old)) }
    {
        self.queue.pop_as::<Pops, R>(rt, pass)
    }
}
