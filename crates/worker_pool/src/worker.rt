//! What a worker does.
ghost use Rattle.std.specs.Prelude.{◌≡◌, IfSome};
ghost use Rattle.crossbeam_queue.specs.Passes.{view, IsSamePass};
ghost use Rattle.finite_maps.specs.Lists.{BeginsWith};
ghost use Rattle.worker_pool.specs.ReadyPass.{BelongsTo};
ghost use Rattle.worker_pool.specs.Work.{WorksFrom, HandsOn};

use crate::gate::Gate;
use crate::idle_book::IdleBook;
use crate::ready::{Ready, ReadyPass};
use crate::stop::Stop;
use crate::task::{Course, Task};
use std::sync::Wait;
use std::thread;
use std::time::{Clock, Duration};

/// How many looks in a row find nothing before a worker sleeps between two looks.
const LOOKS: u32 = 64;

/// Turns ready tasks until the stop is set. It looks at the stop between two tasks alone, so at
/// its end it has handed on the task in hand.
///
/// The pass sees all that the worker saw, and each push of the worker is of the task that it
/// popped just before.
pub fn work<T: Task, G: Gate, R: Wait + Clock>(
    rt: &R,
    ready: &Ready<T>,
    pass: &mut ReadyPass<T>,
    idle: &IdleBook<T>,
    gate: &G,
    stop: &Stop,
)
    requires { BelongsTo ready.now pass.old }
    ensures pass { IsSamePass pass.old pass.new }
    ensures moves { BeginsWith (view pass.new).moves (view pass.old).moves }
    ensures mine { WorksFrom T.identity (view pass.old).mine (view pass.new).mine }
{
    let mut looks = 0;
    for _ in rt.forever() {
        if stop.is_set() {
            break;
        }
        looks = if serve_one(rt, ready, pass, idle, gate) {
            0
        } else {
            wait_a_while(rt, looks)
        };
    }
}

/// Pops a task, if one is ready, and hands it on. Tells whether one was.
fn serve_one<T: Task, G: Gate, R: Wait>(
    rt: &R,
    ready: &Ready<T>,
    pass: &mut ReadyPass<T>,
    idle: &IdleBook<T>,
    gate: &G,
) -> bool
    requires { BelongsTo ready.now pass.old }
    ensures pass { IsSamePass pass.old pass.new }
    ensures moves { BeginsWith (view pass.new).moves (view pass.old).moves }
    ensures mine { WorksFrom T.identity (view pass.old).mine (view pass.new).mine }
{
    match ready.pop(rt, pass) {
        Some(task) => {
            hand_on(rt, ready, pass, idle, gate, task);
            true
        }
        None => false,
    }
}

/// Turns the task until it is in the queue or the book again, or gone. Where the queue is full,
/// the task makes its next turn at once.
pub(crate) fn hand_on<T: Task, G: Gate, R: Wait>(
    rt: &R,
    ready: &Ready<T>,
    pass: &mut ReadyPass<T>,
    idle: &IdleBook<T>,
    gate: &G,
    task: T,
)
    requires { BelongsTo ready.now pass.old }
    ensures pass { IsSamePass pass.old pass.new }
    ensures moves { BeginsWith (view pass.new).moves (view pass.old).moves }
    ensures mine { HandsOn T.identity task (view pass.old).mine (view pass.new).mine }
{
    let mut next = make_turn(rt, idle, gate, task);
    for _ in rt.forever() {
        let Some(task) = next else {
            break;
        };
        match ready.push(rt, pass, task) {
            Ok(()) => break,
            Err(back) => next = make_turn(rt, idle, gate, back),
        }
    }
}

/// Makes one turn of the task, and gives it back where it is to be pushed: where it goes on, or
/// was called since the look before its turn.
fn make_turn<T: Task, G: Gate, R: Wait>(rt: &R, idle: &IdleBook<T>, gate: &G, task: T) -> Option<T>
    ensures { IfSome result (λ t. T.identity t ≡ T.identity task) }
{
    let mut task = task;
    let id = task.id();
    let looked = idle.look(rt, id);
    gate.pass(id);
    match task.turn() {
        Course::Again => Some(task),
        Course::Rest => idle.put(rt, task, looked),
        Course::Gone => {
            let _ = idle.leave(rt, id);
            None
        }
    }
}

/// Yields the processor, and sleeps for a millisecond where nothing was ready for many looks.
/// Gives the number of looks in a row that found nothing.
fn wait_a_while<R: Clock>(rt: &R, looks: u32) -> u32 {
    if looks < LOOKS {
        thread::yield_now();
        return looks + 1;
    }
    thread::sleep(rt, Duration::from_millis(1));
    looks
}
