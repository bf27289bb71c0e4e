//! Tasks that threads schedule.
ghost use Rattle.std.specs.Prelude.{◌≡◌, ◌≤◌, ◌<◌, [], length};
ghost use Rattle.cordyceps_shared_uses.specs.Accounts.{Holds, IsOpen};

use crate::compared::{made, same};
use crate::made::node;
use cordyceps::list::Links;
use cordyceps::mpsc_queue::MAX_ROOMS;
use cordyceps::{List, Node, Stack};
use cordyceps_shared_uses::scheduler::accounts::{Account, Accounts};
use cordyceps_shared_uses::scheduler::places::{Run, Runnable, Sleepers, Task};
use cordyceps_shared_uses::scheduler::work::Work;
use cordyceps_shared_uses::scheduler::{Outcome, birth, run};
use cordyceps_shared_uses::timers::Timers;
use std::alloc::{AllocError, Global};
use std::marker::Brand;
use std::process::Abort;
use std::sync::Wait;
use std::thread::Threads;

/// How often a thread looks for something to do, at most.
const TURNS: u64 = 1_000_000_000;

/// The turns that suffice for eight tasks of three rounds. A worker uses a turn for each of its rounds, of which there
/// are at most 24, and one for each time that it is woken: once for each of the 24 tasks that come to wait, and once at
/// the end.
const FEW_TURNS: u64 = 64;

/// The pauses of tasks are below this number.
const PAUSES: u32 = 4;

/// The number of runs with one number of rooms. All are a thousand runs.
const ROUNDS: u64 = 250;

/// Makes a task, and asks again where memory was refused.
fn task(
    rt: &impl Abort,
    alloc: Global,
    number: u32,
    rounds: u32,
    pause: u32,
) -> Node<Task, Links<Task>> {
    match birth(alloc, number, rounds, pause) {
        Ok(task) => task,
        Err(refused) => node(rt, alloc, number as u64, refused.value),
    }
}

/// Returns tasks with the numbers below `count`, each of this many rounds. Their pauses are below `pauses`.
fn tasks(rt: &impl Abort, alloc: Global, count: u32, rounds: u32, pauses: u32) -> List<Task>
    requires { 0 < pauses }
    ensures { length result ≤ count }
{
    let mut tasks = List::new();
    for number in 0..count {
        tasks.push_back(task(rt, alloc, number, rounds, number % pauses));
    }
    tasks
}

/// How many tasks are in each place. Of those that are done, how many came before, have another number than those that
/// were submitted, or did not run and sleep as they should. Of those that sleep, how many ran no round or all, or have
/// a deadline that no pause leads to.
#[derive(Debug, PartialEq, Clone, Copy)]
struct Counts {
    asleep: u64,
    on_way: usize,
    runnable: usize,
    done: u64,
    kept: u64,
    wrong: u64,
}

/// Returns the counts where all tasks are done, this many of them.
fn all_done(done: u64) -> Counts {
    Counts {
        asleep: 0,
        on_way: 0,
        runnable: 0,
        done,
        kept: 0,
        wrong: 0,
    }
}

/// Returns `true` if a task has slept at least as often as a task should that ran so many rounds: each sleep puts its
/// deadline off by its pause, or by more.
fn has_slept(task: &Task, sleeps: u32) -> bool {
    task.deadline >= (sleeps as u64).wrapping_mul(task.payload.pause as u64)
}

/// Returns the number of tasks.
fn number_of(tasks: Stack<Task>) -> u64 {
    let mut number = 0u64;
    for _task in tasks {
        number = number.wrapping_add(1);
    }
    number
}

/// Adds those that are done, and marks their numbers. Each should have run this many rounds.
fn note(counts: &mut Counts, seen: &mut [bool], done: Stack<Task>, rounds: u32) {
    for task in done {
        let work = &task.get().payload;
        let number = work.number;
        let sum = (number as u64).wrapping_mul(rounds as u64);
        let is_right = work.ran == rounds
            && work.sum == sum
            && has_slept(task.get(), rounds.saturating_sub(1));
        counts.done = counts.done.wrapping_add(1);
        match seen.get_mut(number as usize) {
            Some(seen) if is_right && !*seen => *seen = true,
            _ => counts.wrong = counts.wrong.wrapping_add(1),
        }
    }
}

/// Returns the latest time that can come where so many tasks run so many rounds. Each deadline is a pause after an
/// earlier one, or after the start, and no pause is longer than `PAUSES`.
fn last_time(tasks: usize, rounds: u32) -> u64 {
    (tasks as u64)
        .wrapping_mul(rounds as u64)
        .wrapping_mul(PAUSES as u64)
}

/// Adds those that sleep. Each should have run a round, have one left, and be woken after a pause.
fn note_asleep(counts: &mut Counts, asleep: &mut Timers<Work>, rounds: u32, latest: u64) {
    for _turn in 0..u64::MAX {
        let Some(task) = asleep.stop_due(u64::MAX) else {
            return;
        };
        let ran = task.get().payload.ran;
        let is_right = ran > 0 && ran < rounds && has_slept(task.get(), ran);
        if !is_right || task.get().deadline > latest {
            counts.wrong = counts.wrong.wrapping_add(1);
        }
        counts.asleep = counts.asleep.wrapping_add(1);
    }
}

/// Counts the tasks of all places. Those that are done mark their numbers.
fn count(seen: &mut [bool], outcome: Outcome, rounds: u32) -> Counts {
    let Outcome {
        mut asleep,
        on_way,
        runnable,
        done,
        kept,
    } = outcome;
    let latest = last_time(seen.len(), rounds);
    let mut counts = Counts {
        asleep: 0,
        on_way: on_way.len(),
        runnable: runnable.len(),
        done: 0,
        kept: number_of(kept.0).wrapping_add(number_of(kept.1)),
        wrong: 0,
    };
    note(&mut counts, seen, done.0, rounds);
    note(&mut counts, seen, done.1, rounds);
    note_asleep(&mut counts, &mut asleep, rounds, latest);
    counts
}

/// Runs tasks on a queue of this many rooms, for this many turns, and counts where they are in the end. Each should run
/// this many rounds. Where memory for the queue was refused it asks again, with the tasks that were returned.
fn counted<R: Threads + Wait + Abort + Sync>(
    rt: &R,
    alloc: Global,
    tasks: List<Task>,
    rooms: usize,
    turns: u64,
    seen: &mut [bool],
    rounds: u32,
) -> Counts
    requires { (1 ≤ rooms) × (rooms ≤ MAX_ROOMS) }
{
    let again = match run(rt, alloc, tasks, rooms, turns) {
        Ok(outcome) => return count(seen, outcome, rounds),
        Err(back) => back,
    };
    match run(rt, alloc, again, rooms, turns) {
        Ok(outcome) => count(seen, outcome, rounds),
        Err(_) => panic!(rt; "memory was refused twice"),
    }
}

#[test]
fn each_task_is_done_once(rt: HostRuntime) -> Result<(), AllocError> {
    let mut seen = Vec::from_elem(rt.alloc(), false, 10_000)?;
    let tasks = tasks(&rt, rt.alloc(), 10_000, 5, 1);
    let counts = counted(&rt, rt.alloc(), tasks, 256, TURNS, &mut seen, 5);
    same(&rt, counts, all_done(10_000));
    Ok(())
}

#[test]
fn no_task_and_one_task_are_run(rt: HostRuntime) {
    for number in 0..2u32 {
        let tasks = tasks(&rt, rt.alloc(), number, 3, PAUSES);
        let counts = counted(&rt, rt.alloc(), tasks, 1, TURNS, &mut [false; 1], 3);
        same(&rt, counts, all_done(number as u64));
    }
}

/// Makes eight tasks of three rounds each, runs them on a queue of this many rooms, for this many turns, and returns
/// where they are in the end.
fn eight<R: Threads + Wait + Abort + Sync>(
    rt: &R,
    alloc: Global,
    rooms: usize,
    turns: u64,
) -> Counts
    requires { (1 ≤ rooms) × (rooms ≤ MAX_ROOMS) }
{
    let tasks = tasks(rt, alloc, 8, 3, PAUSES);
    counted(rt, alloc, tasks, rooms, turns, &mut [false; 8], 3)
}

#[test]
fn tasks_come_back_where_memory_is_refused(rt: HostRuntime) {
    same(&rt, eight(&rt, rt.alloc(), 4, TURNS), all_done(8));
}

#[test]
fn no_wakeup_is_lost(rt: HostRuntime) {
    for rooms in 1..5usize {
        for _round in 0..ROUNDS {
            same(&rt, eight(&rt, rt.alloc(), rooms, TURNS), all_done(8));
        }
    }
}

#[test]
fn tasks_stay_somewhere_where_the_turns_end(rt: HostRuntime) {
    // no worker takes a task
    let waiting = Counts {
        runnable: 8,
        ..all_done(0)
    };
    same(&rt, eight(&rt, rt.alloc(), 4, 0), waiting);
    for turns in 1..16u64 {
        let Counts {
            asleep,
            on_way,
            runnable,
            done,
            kept,
            wrong,
        } = eight(&rt, rt.alloc(), 4, turns);
        let places = [asleep, on_way as u64, runnable as u64, done];
        let all = places
            .iter()
            .fold(0u64, |sum, count| sum.wrapping_add(*count));
        // a worker runs one round in a turn, and a task is done after three
        let are_few = done.wrapping_mul(3) <= turns.wrapping_mul(2);
        same(&rt, (all, kept, wrong, are_few), (8, 0, 0, true));
    }
}

#[test]
fn no_turn_is_lost(rt: HostRuntime) {
    same(&rt, eight(&rt, rt.alloc(), 4, FEW_TURNS), all_done(8));
}

/// What one thread has that runs tasks alone: the two places, its account, and the numbers of those that are done, in
/// turn.
#[derive(Drop)]
struct Alone<L: Run> {
    sleepers: Sleepers<L>,
    runnable: Runnable<L>,
    mine: Account,
    done: Vec<u32>,
    ghost open: { IsOpen L.accounts mine },
}

impl<L: Run> Alone<L> {
    /// Makes a task runnable.
    fn put(&mut self, accounts: &Accounts, task: Node<Task, Links<Task>>)
        requires { accounts.now.table ≡ L.accounts }
    {
        if self.runnable.has_room() {
            self.runnable.put(accounts, &mut self.mine, task);
        }
    }

    /// Runs a round of a task, and puts it to sleep or notes that it is done.
    fn run(&mut self, rt: &impl Abort, accounts: &Accounts, mut task: Node<Task, Links<Task>>)
        requires { accounts.now.table ≡ L.accounts }
    {
        let work = &mut task.get_mut().payload;
        if !work.is_done() {
            work.run();
        }
        if task.get().payload.is_done() {
            made(rt, self.done.push(task.get().payload.number));
        } else {
            let _ = self.sleepers.sleep(accounts, &mut self.mine, task);
        }
    }

    /// Runs a task that waits. Where none does, it wakes one that is due.
    fn turn(&mut self, rt: &impl Abort, accounts: &Accounts)
        requires { accounts.now.table ≡ L.accounts }
    {
        match self.runnable.take(accounts, &mut self.mine) {
            Some(task) => self.run(rt, accounts, task),
            None => {
                if let Some(task) = self.sleepers.wake(accounts, &mut self.mine) {
                    self.put(accounts, task);
                }
            }
        }
    }
}

/// Runs two tasks of two rounds, with the numbers 1 and 2 and these pauses, on one thread. It compares in which order
/// they are done.
fn run_alone<L: Run, R: Abort>(
    rt: &R,
    alloc: Global,
    accounts: &Accounts,
    places: (Account, Account),
    mine: Account,
    pauses: (u32, u32),
    wanted: &[u32],
)
    requires places { IsOpen L.accounts places.0 × Holds places.0 [] × IsOpen L.accounts places.1 × Holds places.1 [] }
    requires mine { (accounts.now.table ≡ L.accounts) × IsOpen L.accounts mine }
{
    let (sleepers, runnable) = places;
    let mut alone = Alone::<L> {
        sleepers: Sleepers::new(sleepers),
        runnable: Runnable::new(runnable),
        mine,
        done: Vec::new(alloc),
    };
    alone.put(accounts, task(rt, alloc, 1, 2, pauses.0));
    alone.put(accounts, task(rt, alloc, 2, 2, pauses.1));
    for _turn in 0..16 {
        alone.turn(rt, accounts);
    }
    same(rt, alone.done.as_slice(), wanted);
}

#[test]
fn the_shorter_pause_ends_first(rt: HostRuntime) {
    let wanted = [
        ((5, 1), [2, 1]),
        ((1, 5), [1, 2]),
        ((3, 3), [1, 2]),
        ((0, 0), [1, 2]),
    ];
    for (pauses, wanted) in wanted {
        let (accounts, mut account) = made(&rt, Accounts::new(rt.alloc(), 3));
        let sleepers = accounts.split(&mut account, 1);
        let runnable = accounts.split(&mut account, 1);
        run_alone::<Brand, HostRuntime>(
            &rt,
            rt.alloc(),
            &accounts,
            (sleepers, runnable),
            account,
            pauses,
            &wanted,
        );
    }
}
