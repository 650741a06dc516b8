//! Four workers turn a hundred tasks, which a fifth thread calls.
ghost use Rattle.worker_pool.specs.ReadyPass.{BelongsTo};

use super::*;
use std::alloc::{AllocError, Global};
use std::sync::Arc;
use std::thread;
use std::thread::Threads;

const TASKS: usize = 100;

const ROUNDS: u32 = 200;

// A task that rests at each fiftieth turn. It notes how often it had been called before its last turn.
#[derive(Drop)]
struct Sleeper {
    id: u128,
    called: Arc<AtomicU64, Global>,
    noted: u64,
    turns: u32,
}

impl Task for Sleeper {
    ghost identity = { λ s. s.id };

    fn id(&self) -> u128 {
        self.id
    }

    fn turn(&mut self) -> Course {
        self.noted = self.called.load(Ordering::SeqCst);
        self.turns = self.turns.wrapping_add(1);
        if self.turns % 50 == 0 {
            Course::Rest
        } else {
            Course::Again
        }
    }
}

// Pushes the task, again and again where the queue is full.
fn push_it<R: Wait>(rt: &R, ready: &Ready<Sleeper>, pass: &mut ReadyPass<Sleeper>, task: Sleeper)
    requires { BelongsTo ready.now pass.old }
    ensures { BelongsTo ready.now pass.new }
{
    let mut next = Some(task);
    for _ in rt.forever() {
        let Some(task) = next else {
            break;
        };
        next = ready.push(rt, pass, task).err();
    }
}

// Enters each task and pushes it.
fn enter_all<R: Wait>(
    rt: &R,
    ready: &Ready<Sleeper>,
    pass: &mut ReadyPass<Sleeper>,
    idle: &IdleBook<Sleeper>,
    calls: &[Arc<AtomicU64, Global>],
) -> Result<(), AllocError>
    requires { BelongsTo ready.now pass.old }
    ensures { BelongsTo ready.now pass.new }
{
    for (id, called) in calls.iter().enumerate() {
        idle.enter(rt, id as u128)?;
        let task = Sleeper {
            id: id as u128,
            called: Arc::try_clone(called)?,
            noted: 0,
            turns: 0,
        };
        push_it(rt, ready, pass, task);
    }
    Ok(())
}

// Calls each task once.
fn call_each<R: Wait>(
    rt: &R,
    ready: &Ready<Sleeper>,
    pass: &mut ReadyPass<Sleeper>,
    idle: &IdleBook<Sleeper>,
    calls: &[Arc<AtomicU64, Global>],
)
    requires { BelongsTo ready.now pass.old }
    ensures { BelongsTo ready.now pass.new }
{
    for (id, called) in calls.iter().enumerate() {
        called.fetch_add(1, Ordering::SeqCst);
        if let Some(task) = idle.call(rt, id as u128) {
            push_it(rt, ready, pass, task);
        }
    }
}

// Calls all tasks, round after round, and then sets the stop.
fn call_all<R: Wait>(
    rt: &R,
    ready: &Ready<Sleeper>,
    pass: ReadyPass<Sleeper>,
    idle: &IdleBook<Sleeper>,
    calls: &[Arc<AtomicU64, Global>],
    stop: &Stop,
)
    requires { BelongsTo ready.now pass }
{
    let mut pass = pass;
    for _ in 0..ROUNDS {
        call_each(rt, ready, &mut pass, idle, calls);
        thread::yield_now();
    }
    stop.set();
}

// Two workers, each on a thread of its own.
fn two_workers<R: Threads + Wait + Clock + Sync>(
    rt: &R,
    ready: &Ready<Sleeper>,
    first: ReadyPass<Sleeper>,
    second: ReadyPass<Sleeper>,
    idle: &IdleBook<Sleeper>,
    stop: &Stop,
)
    requires { BelongsTo ready.now first × BelongsTo ready.now second }
{
    let (mut first, mut second) = (first, second);
    thread::join(
        rt,
        move ||
            requires { BelongsTo ready.now first }
        { work(rt, ready, &mut first, idle, &OpenGate, stop) },
        move ||
            requires { BelongsTo ready.now second }
        { work(rt, ready, &mut second, idle, &OpenGate, stop) },
    );
}

// Two workers, and the thread that calls.
fn two_workers_and_caller<R: Threads + Wait + Clock + Sync>(
    rt: &R,
    ready: &Ready<Sleeper>,
    first: ReadyPass<Sleeper>,
    second: ReadyPass<Sleeper>,
    caller: ReadyPass<Sleeper>,
    idle: &IdleBook<Sleeper>,
    calls: &[Arc<AtomicU64, Global>],
    stop: &Stop,
)
    requires { BelongsTo ready.now first × BelongsTo ready.now second × BelongsTo ready.now caller }
{
    thread::join(
        rt,
        move ||
            requires { BelongsTo ready.now first × BelongsTo ready.now second }
        { two_workers(rt, ready, first, second, idle, stop) },
        move ||
            requires { BelongsTo ready.now caller }
        { call_all(rt, ready, caller, idle, calls, stop) },
    );
}

// Four workers and the thread that calls.
fn all_five<R: Threads + Wait + Clock + Sync>(
    rt: &R,
    ready: &Ready<Sleeper>,
    pass: &mut ReadyPass<Sleeper>,
    idle: &IdleBook<Sleeper>,
    calls: &[Arc<AtomicU64, Global>],
    stop: &Stop,
)
    requires { BelongsTo ready.now pass.old }
    ensures { BelongsTo ready.now pass.new }
{
    let first = ready.split(pass);
    let second = ready.split(pass);
    let third = ready.split(pass);
    let fourth = ready.split(pass);
    let caller = ready.split(pass);
    thread::join(
        rt,
        move ||
            requires { BelongsTo ready.now first × BelongsTo ready.now second }
        { two_workers(rt, ready, first, second, idle, stop) },
        move ||
            requires { BelongsTo ready.now third × BelongsTo ready.now fourth × BelongsTo ready.now caller }
        { two_workers_and_caller(rt, ready, third, fourth, caller, idle, calls, stop) },
    );
}

// Notes that the task was found, and tells whether it hadn't been before.
fn note(found: &mut [bool], id: u128) -> bool {
    match usize::try_from(id) {
        Ok(at) if at < found.len() => {
            let new = !found[at];
            found[at] = true;
            new
        }
        _ => false,
    }
}

// Takes the tasks that are ready. Tells whether each was found once.
fn find_ready<R: Wait>(
    rt: &R,
    ready: &Ready<Sleeper>,
    pass: &mut ReadyPass<Sleeper>,
    found: &mut [bool],
) -> bool
    requires { BelongsTo ready.now pass.old }
{
    let mut well = true;
    for _ in 0..TASKS {
        if let Some(task) = ready.pop(rt, pass) {
            well = note(found, task.id) && well;
        }
    }
    well
}

// Takes the tasks that are put away. Tells whether each was found once, and had its last turn after its last call.
fn find_put_away<R: Wait>(
    rt: &R,
    idle: &IdleBook<Sleeper>,
    calls: &[Arc<AtomicU64, Global>],
    found: &mut [bool],
) -> bool {
    let mut well = true;
    for (id, called) in calls.iter().enumerate() {
        if let Some(task) = idle.leave(rt, id as u128) {
            let turned_after = task.noted == called.load(Ordering::SeqCst);
            well = note(found, task.id) && turned_after && well;
        }
    }
    well
}

fn no_calls(alloc: Global) -> Result<Vec<Arc<AtomicU64, Global>>, AllocError> {
    let mut calls = Vec::new(alloc);
    for _ in 0..TASKS {
        calls.push(Arc::new(alloc, AtomicU64::new(0))?)?;
    }
    Ok(calls)
}

#[test]
fn no_task_and_no_call_is_lost(rt: HostRuntime) -> Result<(), Fail> {
    let counts = no_calls(rt.alloc())?;
    let calls = counts.as_slice();
    let mut found = [false; TASKS];
    let (ready, mut pass) = Ready::new(rt.alloc())?;
    let idle = IdleBook::new(rt.alloc());
    let stop = Stop::new();
    enter_all(&rt, &ready, &mut pass, &idle, calls)?;
    all_five(&rt, &ready, &mut pass, &idle, calls, &stop);
    let once = find_ready(&rt, &ready, &mut pass, &mut found);
    let called = find_put_away(&rt, &idle, calls, &mut found);
    assert_eq!(rt; (once, called, found.contains(&false)), (true, true, false));
    Ok(())
}
