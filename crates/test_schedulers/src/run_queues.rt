//! Jobs that threads run.
ghost use Rattle.std.specs.Prelude.{◌≤◌};

use crate::compared::{made, same};
use cordyceps::Stack;
use cordyceps::stack::MAX_ROOMS;
use cordyceps_shared_uses::run_queue::{Job, run_all};
use std::alloc::{AllocError, Global};
use std::process::Abort;
use std::sync::Wait;
use std::thread::Threads;
use test_support::nodes::node_of;

/// How often the threads run with one number of rooms. All are a thousand runs.
const ROUNDS: u64 = 250;

/// The number of jobs of a run.
const JOBS: usize = 8;

/// Returns jobs of the numbers 0 to 7 that were not run.
fn eight_jobs(alloc: Global) -> Result<Stack<Job>, AllocError> {
    let mut jobs = Stack::new();
    for number in 0..JOBS as u32 {
        jobs.push(node_of(alloc, 0, Job { number, square: 0 })?);
    }
    Ok(jobs)
}

/// Runs eight jobs on a queue of this many rooms, and compares what comes of each. Where memory or a thread was
/// refused, it runs them again.
fn run_eight<R: Abort + Threads + Wait + Sync>(
    rt: &R,
    alloc: Global,
    rooms: usize,
) -> Result<(), AllocError>
    requires { (1 ≤ rooms) × (rooms ≤ MAX_ROOMS) }
{
    let done = match run_all(rt, alloc, eight_jobs(alloc)?, rooms) {
        Ok(done) => done,
        Err(back) => made(rt, run_all(rt, alloc, back, rooms)),
    };
    // the sum of the squares of each number
    let mut squares = [0u64; JOBS];
    let mut count = 0u64;
    for job in done.jobs {
        let job = job.get();
        count = count.wrapping_add(1);
        if let Some(square) = squares.get_mut(job.number as usize) {
            *square = square.wrapping_add(job.square);
        }
    }
    same(rt, (count, squares), (8, [0, 1, 4, 9, 16, 25, 36, 49]));
    Ok(())
}

#[test]
fn each_job_is_run_once_and_no_wakeup_is_lost(rt: HostRuntime) -> Result<(), AllocError> {
    for rooms in 1..5usize {
        for _round in 0..ROUNDS {
            run_eight(&rt, rt.alloc(), rooms)?;
        }
    }
    Ok(())
}

#[test]
fn no_job_and_one_job_are_run(rt: HostRuntime) -> Result<(), AllocError> {
    let none = made(&rt, run_all(&rt, rt.alloc(), Stack::new(), 1));
    same(&rt, none.jobs.is_empty(), true);
    let mut jobs = Stack::new();
    let job = Job {
        number: 5,
        square: 0,
    };
    jobs.push(node_of(rt.alloc(), 0, job)?);
    let mut squares = 0u64;
    for job in made(&rt, run_all(&rt, rt.alloc(), jobs, 1)).jobs {
        squares = squares.wrapping_add(job.get().square);
    }
    same(&rt, squares, 25);
    Ok(())
}

#[test]
fn jobs_come_back_where_memory_is_refused(rt: HostRuntime) -> Result<(), AllocError> {
    run_eight(&rt, rt.alloc(), 4)
}
