//! A scheduler that runs tasks on four threads. A task waits for a worker, runs a round, sleeps until it is due again,
//! and so on until all its rounds are done. It stays in the node in which it was created, which passes through a queue,
//! a list, timers and a stack.
ghost use Rattle.std.specs.Prelude.{◌≡◌, ℕ, ◌+◌, ◌≤◌, [], map, true, IfErr, IfOk, IfSome};
ghost use Rattle.std.specs.Thread.{IsSync};
ghost use Rattle.cordyceps.specs.Parties.Counts.{tally, Same};
ghost use Rattle.cordyceps_shared_uses.specs.Accounts.{IsOpen, opened};
ghost use Rattle.cordyceps_shared_uses.specs.Names.{asleep, at_birth, by_birth, names};
ghost use Rattle.cordyceps_shared_uses.specs.Outcomes.{everywhere};
ghost use Rattle.cordyceps_shared_uses.specs.Scheduler.{all_done, IsNew};
ghost use Rattle.cordyceps_shared_uses.specs.Ways.{Came, RanOneEach, SentAll};
ghost use Rattle.cordyceps_shared_uses.specs.declared.scheduler.name.Name.{Name};

pub mod accounts;
pub mod name;
pub mod places;
pub mod threads;
pub mod work;

use crate::idle::make_two_parkers;
use crate::scheduler::accounts::{Account, Accounts};
use crate::scheduler::places::{Run, Runnable, Sleepers, Task};
use crate::scheduler::threads::{Alarms, Shared, Worked, dispatch, submit, wake, work};
use crate::scheduler::work::Work;
use crate::timers::{Timer, Timers};
use cordyceps::list::Links;
use cordyceps::mpsc_queue::{Batch, MAX_ROOMS, Party};
use cordyceps::{List, MpscQueue, Node, Refused, Stack};
use crossbeam_utils::sync::Parker;
use std::alloc::{AllocError, Global};
use std::marker::Brand;
use std::snapshot::Snapshot;
use std::sync::atomic::{AtomicBool, AtomicU64};
use std::sync::{Mutex, Wait};
use std::thread;
use std::thread::{JoinHandle, Promise, PromisedHandle, Scope, Threads};

/// The places of all tasks at the end.
#[derive(Drop)]
pub struct Outcome {
    /// The tasks that sleep.
    pub asleep: Timers<Work>,
    /// The tasks that nobody took out of the queue, the oldest first.
    pub on_way: Batch<Task>,
    /// The tasks that wait for a worker, the oldest first.
    pub runnable: List<Task>,
    /// The tasks that each worker has done, the last first.
    pub done: (Stack<Task>, Stack<Task>),
    /// The tasks that each worker kept, the last first. There are none, unless `usize::MAX` tasks slept.
    pub kept: (Stack<Task>, Stack<Task>),
}

/// Creates a task with a number, the number of its rounds, and the pause between two rounds, in ticks of the
/// scheduler's time. Allocates one node, which has the task's number.
///
/// # Errors
/// If memory for the node is refused, the task is returned without a node.
///
/// # Complexity
/// O(1).
pub fn birth(
    alloc: Global,
    number: u32,
    rounds: u32,
    pause: u32,
) -> Result<Node<Task, Links<Task>>, Refused<Task>>
    ensures made { IfOk result (λ t. IsNew number rounds pause t.value.payload) }
    ensures id { IfOk result (λ t. t.id ≡ number) }
    ensures returned { IfErr result (λ e. IsNew number rounds pause e.value.payload) }
{
    let task = Timer {
        deadline: 0,
        payload: Work::new(number, rounds, pause),
    };
    Node::new(alloc, number as u64, task)
}

/// The accounts of the two places and of the four threads.
#[derive(Drop)]
struct Opened {
    sleepers: Account,
    runnable: Account,
    submitter: Account,
    dispatcher: Account,
    workers: (Account, Account),
}

/// Splits an account of six parts into six accounts, of one part and without entries each.
fn cut(accounts: &Accounts, account: Account) -> Opened
    requires { account ≡ opened accounts.now.table 6 }
    ensures places { (result.sleepers ≡ opened accounts.now.table 1) × (result.runnable ≡ opened accounts.now.table 1) }
    ensures submitter { result.submitter ≡ opened accounts.now.table 1 }
    ensures dispatcher { result.dispatcher ≡ opened accounts.now.table 1 }
    ensures workers { (result.workers.0 ≡ opened accounts.now.table 1)
        × (result.workers.1 ≡ opened accounts.now.table 1) }
{
    let mut account = account;
    let sleepers = accounts.split(&mut account, 1);
    let runnable = accounts.split(&mut account, 1);
    let submitter = accounts.split(&mut account, 1);
    let first = accounts.split(&mut account, 1);
    let second = accounts.split(&mut account, 1);
    Opened {
        sleepers,
        runnable,
        submitter,
        dispatcher: account,
        workers: (first, second),
    }
}

/// What the submitter or the dispatcher starts with, and what it returns: its party and its account.
#[derive(Drop)]
struct Actor {
    party: Party<Task>,
    account: Account,
}

/// What the four threads sleep on.
#[derive(Drop)]
struct Parkers {
    submitter: Parker,
    dispatcher: Parker,
    workers: (Parker, Parker),
}

/// Creates what the four threads sleep on, and what wakes them.
fn make_parkers(alloc: Global) -> Result<(Parkers, Alarms), AllocError> {
    let ((submitter, dispatcher), (wakes_submitter, wakes_dispatcher)) = make_two_parkers(alloc)?;
    let (workers, wakes_workers) = make_two_parkers(alloc)?;
    let parkers = Parkers {
        submitter,
        dispatcher,
        workers,
    };
    let alarms = Alarms {
        submitter: wakes_submitter,
        dispatcher: wakes_dispatcher,
        workers: wakes_workers,
    };
    Ok((parkers, alarms))
}

/// Sends all tasks to the dispatcher, and then wakes those that are due.
fn submit_and_wake<L: Run, R: Wait>(
    rt: &R,
    queue: &MpscQueue<Task>,
    mut from: Actor,
    shared: &Shared<L>,
    tasks: List<Task>,
    parker: &Parker,
    turns: u64,
) -> Actor
    requires table { from.party.table ≡ queue.now.table }
    requires of { IsOpen L.accounts from.account }
    ensures { SentAll (names tasks) from.account result.account from.party result.party }
{
    submit(rt, queue, &mut from.party, shared, tasks);
    wake(
        rt,
        queue,
        &mut from.party,
        shared,
        &mut from.account,
        parker,
        turns,
    );
    shared.end_sending();
    from
}

/// Dispatches tasks by the party and the account of the dispatcher.
fn dispatch_all<L: Run, R: Wait>(
    rt: &R,
    queue: &MpscQueue<Task>,
    mut from: Actor,
    shared: &Shared<L>,
    parker: &Parker,
) -> Actor
    requires table { from.party.table ≡ queue.now.table }
    requires of { IsOpen L.accounts from.account }
    ensures { Came from.account result.account from.party result.party }
{
    dispatch(
        rt,
        queue,
        &mut from.party,
        shared,
        &mut from.account,
        parker,
    );
    from
}

/// The promise of a dispatcher.
#[derive(Drop)]
struct Dispatches {
    from: Snapshot<Actor>,
}

impl Promise<Actor> for Dispatches {
    ghost kept_by = { λ dispatches back.
        Came dispatches.from.value.account back.account dispatches.from.value.party back.party };
}

/// What the four threads return.
#[derive(Drop)]
struct Ended<L: Run> {
    submitter: Actor,
    dispatcher: Actor,
    workers: (Worked<L>, Worked<L>),
}

/// Starts a dispatcher on a thread of a scope. Returns `None` if the thread cannot be started.
fn start_dispatcher<'s, E, L: Run + Send + Sync, R: Wait + Sync>(
    scope: &Scope<'s, E>,
    rt: &'s R,
    queue: &'s MpscQueue<Task>,
    from: Actor,
    shared: &'s Shared<L>,
    parker: Parker,
) -> Option<PromisedHandle<Actor, Dispatches>>
    requires table { from.party.table ≡ queue.now.table }
    requires of { IsOpen L.accounts from.account }
    ensures { IfSome result (λ h. h.promise.from.value ≡ from) }
{
    let promise = Dispatches {
        from: Snapshot::of(&from),
    };
    let dispatch_on = move || -> Actor
        requires { IsSync R.row × (from.party.table ≡ queue.now.table) × IsOpen L.accounts from.account }
        ensures { Came from.account result.account from.party result.party }
    { dispatch_all(rt, queue, from, shared, &parker) };
    scope.spawn_with(promise, dispatch_on).ok()
}

/// Starts a worker on a thread of a scope. Returns `None` if the thread cannot be started.
fn start_worker<'s, E, L: Run + Send + Sync, R: Wait + Sync>(
    scope: &Scope<'s, E>,
    rt: &'s R,
    shared: &'s Shared<L>,
    mine: Account,
    parker: Parker,
    turns: u64,
) -> Option<JoinHandle<Worked<L>>>
    requires of { IsOpen L.accounts mine }
    requires none { RanOneEach mine [] [] }
{
    let work_on = move || -> Worked<L>
        requires { IsSync R.row × IsOpen L.accounts mine × RanOneEach mine [] [] }
    { work(rt, shared, mine, &parker, turns) };
    scope.spawn(work_on).ok()
}

/// The dispatcher and the workers, each on a thread that was started.
#[derive(Drop)]
struct Started<L: Run> {
    dispatcher: PromisedHandle<Actor, Dispatches>,
    workers: (JoinHandle<Worked<L>>, JoinHandle<Worked<L>>),
}

/// Starts a dispatcher and two workers, each on a thread of a scope. Returns `None` if a thread cannot be started.
fn start_three<'s, E, L: Run + Send + Sync, R: Wait + Sync>(
    scope: &Scope<'s, E>,
    rt: &'s R,
    queue: &'s MpscQueue<Task>,
    dispatcher: Actor,
    shared: &'s Shared<L>,
    workers: (Account, Account),
    parker: Parker,
    sleeps_on: (Parker, Parker),
    turns: u64,
) -> Option<Started<L>>
    requires table { dispatcher.party.table ≡ queue.now.table }
    requires of { IsOpen L.accounts dispatcher.account × IsOpen L.accounts workers.0 × IsOpen L.accounts workers.1 }
    requires none { RanOneEach workers.0 [] [] × RanOneEach workers.1 [] [] }
    ensures { IfSome result (λ s. s.dispatcher.promise.from.value ≡ dispatcher) }
{
    let dispatcher = start_dispatcher(scope, rt, queue, dispatcher, shared, parker)?;
    let first = start_worker(scope, rt, shared, workers.0, sleeps_on.0, turns)?;
    let second = start_worker(scope, rt, shared, workers.1, sleeps_on.1, turns)?;
    Some(Started {
        dispatcher,
        workers: (first, second),
    })
}

impl<L: Run> Started<L> {
    /// Waits until all three threads have ended.
    fn end<R: Threads>(self, rt: &R, submitter: Actor) -> Ended<L>
        ensures submitter { result.submitter ≡ submitter }
        ensures came { Came self.dispatcher.promise.from.value.account result.dispatcher.account
            self.dispatcher.promise.from.value.party result.dispatcher.party }
    {
        let Started {
            dispatcher,
            workers: (first, second),
        } = self;
        Ended {
            submitter,
            dispatcher: dispatcher.join(rt),
            workers: (first.join(rt), second.join(rt)),
        }
    }
}

/// Ends the threads that were started, where another one could not be. Nothing was sent before.
fn give_up<L: Run>(shared: &Shared<L>, tasks: List<Task>) -> Result<Ended<L>, List<Task>>
    ensures { result ≡ Err tasks }
{
    shared.end_sending();
    shared.call_off();
    Err(tasks)
}

/// Runs a dispatcher and two workers, each on a thread of its own, and then a submitter in this one. If a thread cannot
/// be started, the tasks are returned, none of which was run.
fn run_four<L: Run + Send + Sync, R: Threads + Wait + Sync>(
    rt: &R,
    queue: &MpscQueue<Task>,
    submitter: Actor,
    tasks: List<Task>,
    dispatcher: Actor,
    shared: &Shared<L>,
    workers: (Account, Account),
    parkers: Parkers,
    turns: u64,
) -> Result<Ended<L>, List<Task>>
    requires submitter { (submitter.party.table ≡ queue.now.table) × IsOpen L.accounts submitter.account }
    requires dispatcher { (dispatcher.party.table ≡ queue.now.table) × IsOpen L.accounts dispatcher.account }
    requires of { IsOpen L.accounts workers.0 × IsOpen L.accounts workers.1 }
    requires none { RanOneEach workers.0 [] [] × RanOneEach workers.1 [] [] }
    ensures sent { IfOk result (λ e.
        SentAll (names tasks) submitter.account e.submitter.account submitter.party e.submitter.party) }
    ensures came { IfOk result (λ e.
        Came dispatcher.account e.dispatcher.account dispatcher.party e.dispatcher.party) }
    ensures back { IfErr result (λ back. back ≡ tasks) }
{
    let Parkers {
        submitter: own_parker,
        dispatcher: parker,
        workers: sleeps_on,
    } = parkers;
    thread::scope(
        thread::scope_env(),
        rt,
        move |scope| -> Result<Ended<L>, List<Task>>
            requires { IsSync R.row × (submitter.party.table ≡ queue.now.table)
                × IsOpen L.accounts submitter.account × (dispatcher.party.table ≡ queue.now.table)
                × IsOpen L.accounts dispatcher.account × IsOpen L.accounts workers.0
                × IsOpen L.accounts workers.1 × RanOneEach workers.0 [] [] × RanOneEach workers.1 [] [] }
            ensures sent { IfOk result (λ e.
                SentAll (names tasks) submitter.account e.submitter.account submitter.party e.submitter.party) }
            ensures came { IfOk result (λ e.
                Came dispatcher.account e.dispatcher.account dispatcher.party e.dispatcher.party) }
            ensures back { IfErr result (λ back. back ≡ tasks) }
        {
            let started = start_three(
                scope, rt, queue, dispatcher, shared, workers, parker, sleeps_on, turns,
            );
            let Some(started) = started else {
                return give_up(shared, tasks);
            };
            let submitter = submit_and_wake(
                rt,
                queue,
                submitter,
                shared,
                tasks,
                &own_parker,
                turns,
            );
            Ok(started.end(rt, submitter))
        },
    )
}

/// Merges all accounts, and returns where all tasks are. In the merged account, the tasks that were got are those that
/// were given. What runs change is left out of the count, so that a worker gave what it got.
fn settle<L: Run>(
    shared: Shared<L>,
    on_way: Batch<Task>,
    threads: (Account, Account),
    workers: (Worked<L>, Worked<L>),
) -> Outcome
    requires { IsOpen L.accounts threads.0 × IsOpen L.accounts threads.1 }
    ensures even { (f : Name → ℕ) → tally (by_birth f) threads.0.got + tally (by_birth f) threads.1.got
        + tally (by_birth f) (asleep result.asleep) + tally (by_birth f) (names result.runnable)
        + tally (by_birth f) (names result.done.0) + tally (by_birth f) (names result.done.1)
        + tally (by_birth f) (names result.kept.0) + tally (by_birth f) (names result.kept.1)
        ≡ tally (by_birth f) threads.0.gave + tally (by_birth f) threads.1.gave }
    ensures on_way { result.on_way ≡ on_way }
    ensures done { (all_done result.done.0 ≡ true) × (all_done result.done.1 ≡ true) }
{
    let Shared {
        sleepers,
        runnable,
        accounts,
        unfinished: _,
        is_called_off: _,
        has_sent_all: _,
        alarms: _,
    } = shared;
    let (asleep, mut account) = sleepers.into_inner().into_tasks();
    let (runnable, other) = runnable.into_inner().into_tasks();
    let (first, second) = workers;
    accounts.absorb(&mut account, other);
    accounts.absorb(&mut account, threads.0);
    accounts.absorb(&mut account, threads.1);
    accounts.absorb(&mut account, first.account);
    accounts.absorb(&mut account, second.account);
    accounts.audit(&mut account);
    Outcome {
        asleep,
        on_way,
        runnable,
        done: (first.done, second.done),
        kept: (first.kept, second.kept),
    }
}

/// Creates what the threads share, with no task in either place.
fn open<L: Run>(
    accounts: Accounts,
    sleepers: Account,
    runnable: Account,
    alarms: Alarms,
    tasks: usize,
) -> Shared<L>
    requires accounts { (accounts.table ≡ L.accounts) × (accounts.parts ≡ 6) }
    requires places { (sleepers ≡ opened accounts.table 1) × (runnable ≡ opened accounts.table 1) }
{
    Shared {
        sleepers: Mutex::new(Sleepers::<L>::new(sleepers)),
        runnable: Mutex::new(Runnable::<L>::new(runnable)),
        accounts,
        unfinished: AtomicU64::new(tasks as u64),
        is_called_off: AtomicBool::new(false),
        has_sent_all: AtomicBool::new(false),
        alarms,
    }
}

/// Runs tasks by new accounts, which belong to the run `L`.
fn run_in<L: Run + Send + Sync, R: Threads + Wait + Sync>(
    rt: &R,
    alloc: Global,
    accounts: Accounts,
    account: Account,
    tasks: List<Task>,
    rooms: usize,
    turns: u64,
) -> Result<Outcome, List<Task>>
    requires accounts { (accounts.table ≡ L.accounts) × (accounts.parts ≡ 6) }
    requires account { account ≡ opened accounts.table 6 }
    requires room { 1 ≤ rooms }
    requires few { rooms ≤ MAX_ROOMS }
    ensures each_once { IfOk result (λ o. Same (map at_birth (names tasks)) (map at_birth (everywhere o))) }
    ensures done { IfOk result (λ o. (all_done o.done.0 ≡ true) × (all_done o.done.1 ≡ true)) }
    ensures back { IfErr result (λ back. back ≡ tasks) }
{
    let Ok((queue, mut party)) = MpscQueue::<Task>::new(alloc, rooms) else {
        return Err(tasks);
    };
    let Ok((parkers, alarms)) = make_parkers(alloc) else {
        return Err(tasks);
    };
    let Opened {
        sleepers,
        runnable,
        submitter,
        dispatcher,
        workers,
    } = cut(&accounts, account);
    let shared = open::<L>(accounts, sleepers, runnable, alarms, tasks.len());
    let submitter = Actor {
        party: queue.split(&mut party, rooms),
        account: submitter,
    };
    let dispatcher = Actor {
        party,
        account: dispatcher,
    };
    let ended = run_four(
        rt, &queue, submitter, tasks, dispatcher, &shared, workers, parkers, turns,
    )?;
    let Ended {
        submitter: sent,
        dispatcher: came,
        workers: done,
    } = ended;
    let mut party = came.party;
    queue.absorb(&mut party, sent.party);
    let on_way = queue.close(party).elements;
    Ok(settle(shared, on_way, (sent.account, came.account), done))
}

/// Runs tasks on four threads, and returns where each task is at the end. The submitter sends the tasks to the
/// dispatcher, and sends a task again when it is due after a sleep. The dispatcher hands them to two workers, which run
/// one round of a task at a time, after which it sleeps, unless it is done. At the end each task that was given is in
/// one place: it sleeps, is on its way, waits for a worker, is done, or was kept by a worker. A task that is done has
/// run all its rounds.
///
/// The run ends when all tasks are done, or when the submitter or a worker has used up its `turns` turns. A worker that
/// cannot put a task to sleep, since `usize::MAX` tasks sleep, keeps it and ends the run. A thread that finds nothing
/// to do sleeps until another one wakes it. The queue has `rooms` rooms, which bound the number of tasks that are on
/// their way. The room of a task that was dispatched is used again, so neither the tasks nor their rounds have a bound.
/// Requires that `rooms` is at least 1 and at most `MAX_ROOMS`.
///
/// # Errors
/// If memory is refused, or a thread cannot be started, the tasks are returned, none of which was run. It allocates the
/// accounts, the queue, and what the threads sleep on, and nothing else.
///
/// # Complexity
/// O(`rooms` + n), for n tasks, and at most `turns` turns of the submitter and of each worker, besides the tries while
/// no room is free. A turn is O(1) amortized.
///
/// # Waits
/// For the threads that it starts, and for two locks. No thread waits for anything else while it holds a lock. The
/// submitter tries again while no room is free, until the dispatcher gives one back.
pub fn run<R: Threads + Wait + Sync>(
    rt: &R,
    alloc: Global,
    tasks: List<Task>,
    rooms: usize,
    turns: u64,
) -> Result<Outcome, List<Task>>
    requires room { 1 ≤ rooms }
    requires few { rooms ≤ MAX_ROOMS }
    ensures each_once { IfOk result (λ o. Same (map at_birth (names tasks)) (map at_birth (everywhere o))) }
    ensures done { IfOk result (λ o. (all_done o.done.0 ≡ true) × (all_done o.done.1 ≡ true)) }
    ensures back { IfErr result (λ back. back ≡ tasks) }
{
    let Ok((accounts, account)) = Accounts::new(alloc, 6) else {
        return Err(tasks);
    };
    run_in::<Brand, R>(rt, alloc, accounts, account, tasks, rooms, turns)
}
