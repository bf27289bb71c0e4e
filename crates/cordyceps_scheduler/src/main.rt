//! Runs ten thousand tasks of five rounds each on the scheduler of `cordyceps_shared_uses`, and prints where they are
//! at the end.
//!
//! It prints how many tasks were submitted, how many of them sleep, are on their way to a worker, wait for one and are
//! done, and how many rounds those ran that are done. A worker keeps no task, since fewer than `usize::MAX` sleep. As
//! long as no thread uses up its turns, the output does not depend on the order in which the threads run.
#![tactic(auto)]

use cordyceps::{List, Stack};
use cordyceps_shared_uses::scheduler::places::Task;
use cordyceps_shared_uses::scheduler::{Outcome, birth, run};
use std::alloc::Global;
use std::io;
use std::process::ExitCode;

/// The number of tasks that are submitted.
const TASKS: u32 = 10_000;

/// The number of rounds of each task.
const ROUNDS: u32 = 5;

/// The number of rooms of the queue, which bounds how many tasks are on their way at once.
const ROOMS: usize = 256;

/// The number of turns in which a thread looks for something to do, at most.
const TURNS: u64 = 1_000_000_000;

/// Creates the tasks, each in a node of its own, or returns `None` if memory is refused.
fn births(alloc: Global) -> Option<List<Task>> {
    let mut tasks = List::new();
    for number in 0..TASKS {
        let task = birth(alloc, number, ROUNDS, 1).ok()?;
        tasks.push_back(task);
    }
    Some(tasks)
}

/// Returns the number of tasks, and the number of rounds that they ran in all.
fn count(tasks: Stack<Task>) -> (u64, u64) {
    let (mut count, mut rounds) = (0u64, 0u64);
    for task in tasks {
        count = count.wrapping_add(1);
        rounds = rounds.wrapping_add(task.get().payload.ran as u64);
    }
    (count, rounds)
}

/// Prints how many tasks are in each place, and how many rounds those ran that are done.
fn show(rt: &HostRuntime, outcome: Outcome) -> io::Result<()> {
    let Outcome {
        mut asleep,
        on_way,
        runnable,
        done,
        kept: _,
    } = outcome;
    let mut sleepers = 0u64;
    for _turn in 0..u64::MAX {
        if asleep.stop_due(u64::MAX).is_none() {
            break;
        }
        sleepers = sleepers.wrapping_add(1);
    }
    let (first, second) = (count(done.0), count(done.1));
    let (all, rounds) = (
        first.0.wrapping_add(second.0),
        first.1.wrapping_add(second.1),
    );
    println!(rt; "asleep {sleepers}")?;
    println!(rt; "on their way {}", on_way.len())?;
    println!(rt; "runnable {}", runnable.len())?;
    println!(rt; "done {all}")?;
    println!(rt; "rounds {rounds}")
}

/// Exits with 0, with 2 if the output cannot be written, or with 4 if memory is refused or a thread cannot be started.
fn main(rt: HostRuntime) -> ExitCode {
    let Some(tasks) = births(rt.alloc()) else {
        return out_of_memory(&rt);
    };
    let submitted = tasks.len();
    let Ok(outcome) = run(&rt, rt.alloc(), tasks, ROOMS, TURNS) else {
        return out_of_memory(&rt);
    };
    let shown = match println!(rt; "submitted {submitted}") {
        Ok(()) => show(&rt, outcome),
        Err(error) => Err(error),
    };
    match shown {
        Ok(()) => ExitCode::SUCCESS,
        Err(_) => ExitCode::from(2),
    }
}

/// Reports that memory was refused, and returns the exit code for that.
fn out_of_memory(rt: &HostRuntime) -> ExitCode {
    let _ = rt.eprintln("out of memory");
    ExitCode::from(4)
}
