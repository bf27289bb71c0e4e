//! Tables of tasks: each call, drops, and many drawn calls beside plain vectors.
use crate::compared::{made, same};
use cordyceps::stable_map::{MapNode, Seeded};
use cordyceps_uses::task_table::{State, Task, TaskTable};
use std::alloc::Global;
use std::process::Abort;
use test_support::counted::{Counted, Drops};
use test_support::draws::Draws;

/// The table that the tests call.
type Table<T> = TaskTable<T, Seeded>;

/// A call of a table, and what it returns.
#[derive(Clone, Copy)]
enum Call {
    /// Spawns a task with a number and a priority, and returns whether the number was free.
    Spawn(u64, u8, bool),
    /// Makes a task wait that is ready.
    Block(u64, bool),
    /// Makes a task ready that waits.
    Wake(u64, bool),
    /// Makes the task ready that has waited longest.
    WakeFirst(Option<u64>),
    /// Takes the first task that is ready.
    Next(Option<u64>),
    /// Makes a task ready that runs.
    PutBack(u64, bool),
    /// Removes a task, and returns its priority.
    Exit(u64, Option<u8>),
    /// Returns what a task does.
    State(u64, Option<State>),
    /// Returns how many tasks there are.
    Len(usize),
}

/// Spawns a task, and returns whether its number was free.
fn spawn(rt: &impl Abort, alloc: Global, table: &mut Table<u64>, pid: u64, priority: u8) -> bool {
    // a table whose length is the greatest number has no room
    if table.len() == usize::MAX {
        return false;
    }
    let task = Task {
        priority,
        value: pid,
    };
    table
        .spawn(made(rt, MapNode::new(alloc, 0, pid, task)))
        .is_ok()
}

/// Removes a task, and returns its priority.
fn exit(table: &mut Table<u64>, pid: u64) -> Option<u8> {
    let (_, task) = table.exit(pid)?.into_pair();
    Some(task.priority)
}

/// Makes a call, and compares what it returns with what is wanted.
fn returns(rt: &impl Abort, alloc: Global, table: &mut Table<u64>, call: Call) {
    match call {
        Call::Spawn(pid, priority, free) => same(rt, spawn(rt, alloc, table, pid, priority), free),
        Call::Block(pid, done) => same(rt, table.block(pid), done),
        Call::Wake(pid, done) => same(rt, table.wake(pid), done),
        Call::WakeFirst(pid) => same(rt, table.wake_first(), pid),
        Call::Next(pid) => same(rt, table.next(), pid),
        Call::PutBack(pid, done) => same(rt, table.put_back(pid), done),
        Call::Exit(pid, priority) => same(rt, exit(table, pid), priority),
        Call::State(pid, state) => same(rt, table.state(pid), state),
        Call::Len(len) => same(rt, table.len(), len),
    }
}

/// Calls of a table that begins empty.
const CALLS: [Call; 34] = [
    Call::Next(None),
    Call::WakeFirst(None),
    Call::State(1, None),
    Call::Spawn(1, 5, true),
    Call::Spawn(2, 3, true),
    Call::Spawn(3, 5, true),
    Call::Spawn(4, 0, true),
    Call::Spawn(3, 0, false),
    Call::Len(4),
    // 4 is the most urgent, then 2, and of 1 and 3 the first comes first
    Call::Next(Some(4)),
    Call::State(4, Some(State::Running)),
    Call::Block(4, false),
    Call::Wake(4, false),
    Call::Block(2, true),
    Call::Block(2, false),
    Call::State(2, Some(State::Waiting)),
    Call::PutBack(2, false),
    Call::PutBack(1, false),
    Call::Next(Some(1)),
    Call::Block(3, true),
    Call::Next(None),
    Call::WakeFirst(Some(2)),
    Call::State(2, Some(State::Ready)),
    // behind its equal, 3
    Call::Wake(3, true),
    Call::PutBack(1, true),
    Call::PutBack(9, false),
    Call::Next(Some(2)),
    Call::Next(Some(3)),
    Call::Exit(1, Some(5)),
    Call::Exit(1, None),
    Call::Next(None),
    Call::Exit(4, Some(0)),
    Call::Exit(3, Some(5)),
    Call::Len(1),
];

#[test]
fn the_most_urgent_goes_first(rt: HostRuntime) {
    let mut table: Table<u64> = made(&rt, TaskTable::new(rt.alloc(), 4, Seeded::new(1, 2)));
    for call in CALLS {
        returns(&rt, rt.alloc(), &mut table, call);
    }
}

/// The numbers are below this one, so that most are drawn again.
const NUMBERS: u64 = 12;

/// A number with its priority.
type Ranked = (u64, u8);

/// The vectors beside a table: all tasks, those that are ready in the order in which they go, and those that wait.
#[derive(Drop)]
struct Beside {
    tasks: Vec<Ranked>,
    ready: Vec<Ranked>,
    waiting: Vec<Ranked>,
}

/// Takes a number out of a vector.
fn cut(tasks: &mut Vec<Ranked>, pid: u64) -> Option<Ranked> {
    let at = tasks.as_slice().iter().position(|it| it.0 == pid)?;
    if at < tasks.len() {
        Some(tasks.remove(at))
    } else {
        None
    }
}

/// Returns whether a vector has a number.
fn has(tasks: &Vec<Ranked>, pid: u64) -> bool {
    tasks.as_slice().iter().any(|it| it.0 == pid)
}

/// Puts a task into those that are ready, in front of the first that goes after it.
fn ready_beside(rt: &impl Abort, beside: &mut Beside, task: Ranked) -> u64 {
    let at = beside.ready.as_slice().iter().position(|it| it.1 > task.1);
    match at {
        Some(at) if at <= beside.ready.len() => made(rt, beside.ready.insert(at, task)),
        _ => made(rt, beside.ready.push(task)),
    }
    task.0
}

/// Makes a call that begins with a number of its own, and returns what it does to the vectors.
fn with_number(rt: &impl Abort, beside: &mut Beside, way: u64, task: Ranked) -> Call {
    let pid = task.0;
    match way {
        0 => {
            let free = !has(&beside.tasks, pid);
            if free {
                made(rt, beside.tasks.push(task));
                ready_beside(rt, beside, task);
            }
            Call::Spawn(pid, task.1, free)
        }
        1 => {
            let it = cut(&mut beside.ready, pid);
            if let Some(it) = it {
                made(rt, beside.waiting.push(it));
            }
            Call::Block(pid, it.is_some())
        }
        2 => {
            let it = cut(&mut beside.waiting, pid);
            if let Some(it) = it {
                ready_beside(rt, beside, it);
            }
            Call::Wake(pid, it.is_some())
        }
        3 => {
            let it = beside
                .tasks
                .as_slice()
                .iter()
                .find(|it| it.0 == pid)
                .copied();
            match it {
                Some(it) if !has(&beside.ready, pid) && !has(&beside.waiting, pid) => {
                    ready_beside(rt, beside, it);
                    Call::PutBack(pid, true)
                }
                _ => Call::PutBack(pid, false),
            }
        }
        _ => {
            cut(&mut beside.ready, pid);
            cut(&mut beside.waiting, pid);
            Call::Exit(pid, cut(&mut beside.tasks, pid).map(|it| it.1))
        }
    }
}

/// Returns a drawn call with what it returns, once it was made on the vectors.
fn drawn(rt: &impl Abort, beside: &mut Beside, draws: &mut Draws) -> Call {
    let pid = draws.below(NUMBERS);
    let task = (pid, draws.below(4) as u8);
    match draws.below(9) {
        0 | 1 => with_number(rt, beside, 0, task),
        2 => with_number(rt, beside, 1, task),
        3 => with_number(rt, beside, 2, task),
        4 => with_number(rt, beside, 3, task),
        5 => with_number(rt, beside, 4, task),
        6 => {
            let first = beside.waiting.as_slice().first().copied();
            Call::WakeFirst(match first.and_then(|it| cut(&mut beside.waiting, it.0)) {
                Some(it) => Some(ready_beside(rt, beside, it)),
                None => None,
            })
        }
        7 => {
            let first = beside.ready.as_slice().first().copied();
            Call::Next(
                first
                    .and_then(|it| cut(&mut beside.ready, it.0))
                    .map(|it| it.0),
            )
        }
        _ => Call::State(
            pid,
            if has(&beside.ready, pid) {
                Some(State::Ready)
            } else if has(&beside.waiting, pid) {
                Some(State::Waiting)
            } else if has(&beside.tasks, pid) {
                Some(State::Running)
            } else {
                None
            },
        ),
    }
}

#[test]
fn ten_thousand_calls_do_what_they_do_to_vectors(rt: HostRuntime) {
    let mut table: Table<u64> = made(&rt, TaskTable::new(rt.alloc(), 4, Seeded::new(3, 4)));
    let mut beside = Beside {
        tasks: Vec::new(rt.alloc()),
        ready: Vec::new(rt.alloc()),
        waiting: Vec::new(rt.alloc()),
    };
    let mut draws = Draws::new(7);
    for _ in 0..10_000 {
        let call = drawn(&rt, &mut beside, &mut draws);
        returns(&rt, rt.alloc(), &mut table, call);
        same(&rt, table.len(), beside.tasks.len());
    }
}

#[test]
fn frees_each_value_once(rt: HostRuntime) {
    let drops = made(&rt, Drops::new(rt.alloc()));
    let mut table: Table<Counted> = made(&rt, TaskTable::new(rt.alloc(), 2, Seeded::new(5, 6)));
    for pid in [1, 2, 2] {
        let value = made(&rt, Counted::new(pid, &drops));
        let task = Task { priority: 1, value };
        let node = made(&rt, MapNode::new(rt.alloc(), 0, pid, task));
        same(&rt, table.len() < 3, true);
        if table.len() < 3 {
            drop(table.spawn(node));
        }
    }
    // the third node came back, and was dropped
    same(&rt, (table.len(), drops.count()), (2, 1));
    drop(table.exit(1));
    same(&rt, (table.len(), drops.count()), (1, 2));
    drop(table);
    same(&rt, drops.count(), 3);
}
