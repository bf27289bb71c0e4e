//! Threads that put blocks back, while their owner gets them.
ghost use Rattle.std.specs.Prelude.{⊤};

use crate::blocks::{blocks, dropped, each_once, no_drops};
use crate::compared::made;
use crate::users::{Remote, get_all};
use freelist::{FreeList, Local, Stack};
use std::alloc::Global;
use std::process::Abort;
use std::thread;
use std::thread::Threads;
use test_support::counted::Counted;

/// How often each test's threads run.
const ROUNDS: u64 = 10;

/// What a thread does.
#[derive(Drop)]
enum Task<'f> {
    /// It puts these blocks back.
    Put(Remote<'f>, Stack<Counted>),
    /// It gets this many blocks.
    Get(Local<'f, Counted>, usize),
}

/// Does what a thread is to do, and returns the blocks that it has got.
fn run_task(rt: &impl Abort, task: Task<'_>) -> Stack<Counted> {
    match task {
        Task::Put(remote, blocks) => {
            remote.put_all(rt, blocks);
            Stack::new()
        }
        Task::Get(local, wanted) => get_all(rt, local, wanted),
    }
}

/// Runs each task on a thread of its own, and returns what the last one got. The clauses say nothing of what a task
/// does, which keeps its proof short.
fn run_all<R: Threads + Abort + Sync>(
    rt: &R,
    alloc: Global,
    tasks: [Task<'_>; 3],
) -> Stack<Counted> {
    let tasks = made(rt, Vec::from_array(alloc, tasks));
    let ran = thread::map_vec(
        rt,
        tasks,
        &|task: Task<'_>| -> Stack<Counted>
            requires { ⊤ }
            ensures { ⊤ }
        { run_task(rt, task) },
    );
    match made(rt, ran).pop() {
        Some(all) => all,
        None => panic!(rt; "three tasks ran"),
    }
}

/// Returns what the owner gets back, where two others have 32 rooms each and put 32 blocks back each.
fn come_back<R: Threads + Abort + Sync>(
    rt: &R,
    alloc: Global,
    mut owner: Remote<'_>,
    halves: (Stack<Counted>, Stack<Counted>),
) -> Stack<Counted> {
    let (low, high) = halves;
    let first = Task::Put(owner.split(rt, 32), low);
    let second = Task::Put(owner.split(rt, 32), high);
    run_all(rt, alloc, [first, second, Task::Get(owner.local(), 64)])
}

#[test]
fn what_threads_put_back_comes_once(rt: HostRuntime) {
    for _ in 0..ROUNDS {
        let drops = no_drops(&rt, rt.alloc());
        let low = blocks(&rt, rt.alloc(), 0, 32, &drops);
        let high = blocks(&rt, rt.alloc(), 32, 64, &drops);
        let (list, party) = made(&rt, FreeList::new(rt.alloc(), 64));
        let owner = Remote::at(&list, party);
        let all = come_back(&rt, rt.alloc(), owner, (low, high));
        dropped(&rt, &drops, 0);
        each_once(&rt, rt.alloc(), all, 64);
        dropped(&rt, &drops, 64);
    }
}
