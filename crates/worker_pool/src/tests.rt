//! Tests of what no clause says: tasks that are called, what the rows answer, and a full queue.
ghost use Rattle.worker_pool.specs.ReadyPass.{BelongsTo};

use super::*;
use crate::worker::hand_on;
use std::sync::Wait;
use std::sync::atomic::{AtomicU64, Ordering};
use std::test::*;
use std::time::Clock;

mod threads;

// A task that goes on for a number of turns, and then always answers the same.
#[derive(Drop)]
struct Steady {
    id: u128,
    again: u32,
    course: Course,
}

impl Task for Steady {
    ghost identity = { λ s. s.id };

    fn id(&self) -> u128 {
        self.id
    }

    fn turn(&mut self) -> Course {
        if self.again > 0 {
            self.again -= 1;
            return Course::Again;
        }
        self.course
    }
}

fn make_steady(id: u128, course: Course) -> Steady {
    Steady {
        id,
        again: 0,
        course,
    }
}

// Calls task 3 whenever it passes, and sets the stop at the tenth pass.
#[derive(Drop)]
struct CallsThree<'a, R> {
    rt: &'a R,
    idle: &'a IdleBook<Steady>,
    stop: &'a Stop,
    passes: AtomicU64,
}

impl<R: Wait> Gate for CallsThree<'_, R> {
    fn pass(&self, id: u128) {
        if id == 3 {
            let _ = self.idle.call(self.rt, 3);
        }
        if self.passes.fetch_add(1, Ordering::SeqCst) == 9 {
            self.stop.set();
        }
    }
}

fn id_of(task: Option<Steady>) -> u128 {
    match task {
        Some(task) => task.id(),
        None => 0,
    }
}

// Enters a task and pushes it.
fn enter_one<R: Wait>(
    rt: &R,
    ready: &Ready<Steady>,
    pass: &mut ReadyPass<Steady>,
    idle: &IdleBook<Steady>,
    task: Steady,
) -> bool
    requires { BelongsTo ready.now pass.old }
    ensures { BelongsTo ready.now pass.new }
{
    let made = idle.enter(rt, task.id).unwrap_or(false);
    ready.push(rt, pass, task).is_ok() && made
}

// Turns the tasks until the tenth pass.
fn turn_ten<R: Wait + Clock>(
    rt: &R,
    ready: &Ready<Steady>,
    pass: &mut ReadyPass<Steady>,
    idle: &IdleBook<Steady>,
)
    requires { BelongsTo ready.now pass.old }
    ensures { BelongsTo ready.now pass.new }
{
    let stop = Stop::new();
    let gate = CallsThree {
        rt,
        idle,
        stop: &stop,
        passes: AtomicU64::new(0),
    };
    work(rt, ready, pass, idle, &gate, &stop);
}

#[test]
fn a_called_task_is_pushed_again(rt: HostRuntime) -> Result<(), Fail> {
    let (ready, mut pass) = Ready::new(rt.alloc())?;
    let idle = IdleBook::new(rt.alloc());
    let one = enter_one(&rt, &ready, &mut pass, &idle, make_steady(1, Course::Again));
    let two = enter_one(&rt, &ready, &mut pass, &idle, make_steady(2, Course::Rest));
    let three = enter_one(&rt, &ready, &mut pass, &idle, make_steady(3, Course::Rest));
    let four = enter_one(&rt, &ready, &mut pass, &idle, make_steady(4, Course::Gone));
    turn_ten(&rt, &ready, &mut pass, &idle);
    let first = id_of(ready.pop(&rt, &mut pass));
    let second = id_of(ready.pop(&rt, &mut pass));
    let none = id_of(ready.pop(&rt, &mut pass));
    let put_away = [
        id_of(idle.leave(&rt, 1)),
        id_of(idle.leave(&rt, 2)),
        id_of(idle.leave(&rt, 3)),
    ];
    assert_eq!(rt; [one, two, three, four, idle.enter(&rt, 4)?], [true; 5]);
    assert_eq!(rt; ([first, second, none], put_away), ([1, 3, 0], [0, 2, 0]));
    Ok(())
}

#[test]
fn the_rows_answer(rt: HostRuntime) -> Result<(), Fail> {
    let mut rows = IdleRows::new(rt.alloc());
    let no_row = id_of(rows.put(make_steady(7, Course::Rest), 0));
    let entered = rows.enter(7)?;
    let called = id_of(rows.call(7));
    let late = id_of(rows.put(make_steady(7, Course::Rest), 0));
    let put = id_of(rows.put(make_steady(7, Course::Rest), 1));
    let taken = id_of(rows.put(make_steady(7, Course::Rest), 1));
    let again = rows.enter(7)?;
    let handed_out = id_of(rows.call(7));
    let counts = (rows.look(7), rows.look(8));
    let left = id_of(rows.leave(7));
    assert_eq!(rt;
        [no_row, called, late, put, taken, handed_out, left],
        [7, 0, 7, 0, 7, 7, 0]
    );
    assert_eq!(rt;
        (entered, again, counts, rows.look(7)),
        (true, false, (2, 0), 0)
    );
    Ok(())
}

// Pushes tasks until one comes back, and gives how many were taken.
fn fill<R: Wait>(rt: &R, ready: &Ready<Steady>, pass: &mut ReadyPass<Steady>) -> u64
    requires { BelongsTo ready.now pass.old }
    ensures { BelongsTo ready.now pass.new }
{
    let mut taken = 0u64;
    for id in 100..1100u64 {
        if ready
            .push(rt, pass, make_steady(u128::from(id), Course::Again))
            .is_err()
        {
            break;
        }
        taken = taken.wrapping_add(1);
    }
    taken
}

#[test]
fn the_queue_is_full_at_its_capacity(rt: HostRuntime) -> Result<(), Fail> {
    let (ready, mut pass) = Ready::new(rt.alloc())?;
    let all = fill(&rt, &ready, &mut pass);
    let first = id_of(ready.pop(&rt, &mut pass));
    let second = id_of(ready.pop(&rt, &mut pass));
    let more = fill(&rt, &ready, &mut pass);
    assert_eq!(rt; (all, first, second, more), (256, 100, 101, 2));
    Ok(())
}

#[test]
fn a_task_turns_on_at_a_full_queue(rt: HostRuntime) -> Result<(), Fail> {
    let (ready, mut pass) = Ready::new(rt.alloc())?;
    let idle = IdleBook::new(rt.alloc());
    let all = fill(&rt, &ready, &mut pass);
    let entered = idle.enter(&rt, 7)?;
    let task = Steady {
        id: 7,
        again: 3,
        course: Course::Rest,
    };
    hand_on(&rt, &ready, &mut pass, &idle, &OpenGate, task);
    assert_eq!(rt; (all, entered, id_of(idle.leave(&rt, 7))), (256, true, 7));
    Ok(())
}
