//! What threads do, each beside the others.
ghost use Rattle.std.specs.Prelude.{⊤};

use crate::calls::{Actor, Line, await_count};
use crate::compared::same;
use crate::pools::{Drainer, Filler};
use crate::workers::{Producer, Taker};
use std::process::Abort;
use std::sync::Wait;
use std::sync::atomic::AtomicU64;
use std::thread;
use std::thread::Threads;

/// What a thread does.
#[derive(Drop)]
pub enum Task<'q> {
    /// It makes calls of a table.
    Calls(Actor<'q>, &'q [Line]),
    Put(Producer<'q>),
    Take(Taker<'q>),
    Fill(Filler<'q>),
    Drain(Drainer<'q>),
    /// It waits until a count is this.
    Watch(&'q AtomicU64, u64),
}

/// Does what a thread is to do.
fn run_task<R: Wait + Abort>(rt: &R, task: Task<'_>) {
    match task {
        Task::Calls(mut actor, lines) => actor.run(rt, lines),
        Task::Put(producer) => producer.put_all(rt),
        Task::Take(taker) => taker.take_all(rt),
        Task::Fill(filler) => filler.fill(rt),
        Task::Drain(drainer) => drainer.drain(rt),
        Task::Watch(count, wanted) => await_count(rt, count, wanted),
    }
}

/// Runs each task on a thread of its own. The clauses say nothing of what a task does, which keeps its proof short.
pub fn run_all<R: Threads + Wait + Abort + Sync>(rt: &R, tasks: Vec<Task<'_>>) {
    let ran = thread::map_vec(
        rt,
        tasks,
        &|task: Task<'_>|
            requires { ⊤ }
            ensures { ⊤ }
        { run_task(rt, task) },
    );
    same(rt, ran.is_ok(), true);
}
