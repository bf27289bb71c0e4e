//! The work of the scheduler's four threads: one sends tasks and wakes them, one dispatches them, and two run them.
ghost use Rattle.std.specs.Prelude.{
  ◌≡◌,
  ◌⊎◌,
  ℕ,
  ◌<◌,
  [],
  ◌∷◌,
  ◌++◌,
  length,
  true,
  false,
  Ok,
  Err,
  MatchOption,
  MatchResult,
};
ghost use Rattle.cordyceps.specs.Elements.Element.{Element};
ghost use Rattle.cordyceps.specs.Queues.Calls.{Dequeues};
ghost use Rattle.cordyceps_shared_uses.specs.Accounts.{IsOpen, after_getting};
ghost use Rattle.cordyceps_shared_uses.specs.Names.{names, name_of, one_more};
ghost use Rattle.cordyceps_shared_uses.specs.Scheduler.{all_done, paused, Ran};
ghost use Rattle.cordyceps_shared_uses.specs.Ways.{Sent, Came, RanOneEach, Settles, Woken};
ghost use Rattle.cordyceps_shared_uses.specs.declared.scheduler.name.Name.{Name};
ghost use Rattle.cordyceps_shared_uses.specs.declared.scheduler.work.Work.{Work};
ghost use Rattle.cordyceps_shared_uses.specs.declared.timers.Timer.{Timer};

use crate::idle::pause;
use crate::scheduler::accounts::{Account, Accounts};
use crate::scheduler::places::{Run, Runnable, Sleepers, Task};
use cordyceps::mpsc_queue::{Party, TryDequeueError};
use cordyceps::{List, MpscQueue, Node, Stack, list};
use crossbeam_utils::sync::{Parker, Unparker};
use std::marker::PhantomData;
use std::sync::atomic::{AtomicBool, AtomicU64, Ordering};
use std::sync::{Mutex, Wait};

/// What wakes each thread. A thread that is awake does not sleep the next time that it is about to.
#[derive(Drop)]
pub struct Alarms {
    /// What wakes the submitter.
    pub submitter: Unparker,
    /// What wakes the dispatcher.
    pub dispatcher: Unparker,
    /// What wakes each worker.
    pub workers: (Unparker, Unparker),
}

impl Alarms {
    /// Wakes both workers.
    fn wake_workers(&self) {
        self.workers.0.unpark();
        self.workers.1.unpark();
    }

    /// Wakes all threads.
    fn wake_all(&self) {
        self.submitter.unpark();
        self.dispatcher.unpark();
        self.wake_workers();
    }
}

/// What the threads share besides the queue.
///
/// A thread sleeps while it has nothing to do. No wake-up is lost: who puts a task into a place wakes the threads that
/// take from it after that, who ends the run wakes all threads after that, and a wake-up before the sleep ends the
/// sleep at once. This is tested, but no contract states it.
#[derive(Drop)]
pub struct Shared<L: Run> {
    /// The place where tasks sleep.
    pub sleepers: Mutex<Sleepers<L>>,
    /// The place where tasks wait for a worker.
    pub runnable: Mutex<Runnable<L>>,
    /// The accounts of the places and the threads.
    pub accounts: Accounts,
    /// The number of tasks that are not done.
    pub unfinished: AtomicU64,
    /// Whether the run ends before all tasks are done.
    pub is_called_off: AtomicBool,
    /// Whether the submitter sends no more tasks.
    pub has_sent_all: AtomicBool,
    /// What wakes the threads.
    pub alarms: Alarms,
    ghost of: { accounts.table ≡ L.accounts },
    ghost six: { accounts.parts ≡ 6 },
}

impl<L: Run> Shared<L> {
    /// Returns `true` if all tasks are done, or the run was called off.
    fn is_over(&self) -> bool {
        self.is_called_off.load(Ordering::SeqCst) || self.unfinished.load(Ordering::SeqCst) == 0
    }

    /// Ends the run for all threads.
    pub(crate) fn call_off(&self) {
        self.is_called_off.store(true, Ordering::SeqCst);
        self.alarms.wake_all();
    }

    /// Tells the dispatcher that no task is sent any more.
    pub(crate) fn end_sending(&self) {
        self.has_sent_all.store(true, Ordering::SeqCst);
        self.alarms.dispatcher.unpark();
    }
}

/// What a worker returns. Each task that it got has run one round more, if one was left. It then went to sleep, is done
/// or was kept.
#[derive(Drop)]
pub struct Worked<L: Run> {
    /// The tasks that it has done, each with all its rounds, the last first.
    pub done: Stack<Task>,
    /// The tasks that it kept since `usize::MAX` tasks slept, the last first.
    pub kept: Stack<Task>,
    /// The account of the worker.
    pub account: Account,
    /// The run to which the account belongs.
    pub run: PhantomData<L>,
    ghost of: { IsOpen L.accounts account },
    ghost ran: { RanOneEach account (names done) (names kept) },
    ghost finished: { all_done done ≡ true },
}

/// Sends a task to the dispatcher, and wakes it. While no room is free, it waits.
fn send<L: Run, R: Wait>(
    rt: &R,
    queue: &MpscQueue<Task>,
    party: &mut Party<Task>,
    shared: &Shared<L>,
    task: Node<Task, list::Links<Task>>,
)
    requires { party.old.table ≡ queue.now.table }
    ensures { Sent (name_of task ∷ []) party.old party.new }
{
    queue.enqueue_waiting(rt, party, task.into_kind());
    shared.alarms.dispatcher.unpark();
}

/// Sends new tasks to the dispatcher, in order. Allocates nothing.
///
/// # Complexity
/// O(n), for n tasks, besides the tries while no room is free.
///
/// # Waits
/// For the dispatcher, while no room is free.
pub fn submit<L: Run, R: Wait>(
    rt: &R,
    queue: &MpscQueue<Task>,
    party: &mut Party<Task>,
    shared: &Shared<L>,
    mut tasks: List<Task>,
)
    requires table { party.old.table ≡ queue.now.table }
    ensures { Sent (names tasks) party.old party.new }
{
    while let Some(task) = tasks.pop_front() {
        send(rt, queue, party, shared, task);
    }
}

/// Wakes the task with the earliest deadline, by `Sleepers::wake_first`. Returns `None` if no task sleeps.
fn wake_first<L: Run, R: Wait>(
    rt: &R,
    shared: &Shared<L>,
    mine: &mut Account,
) -> Option<Node<Task, list::Links<Task>>>
    requires { IsOpen L.accounts mine.old }
    ensures { MatchOption result
        (mine.new ≡ mine.old)
        (λ task. mine.new ≡ after_getting (name_of task) mine.old) }
{
    let mut sleepers = shared.sleepers.lock(rt);
    sleepers.wake_first(&shared.accounts, mine)
}

/// Wakes tasks that are due, at most one in each of `turns` turns, and sends them to the dispatcher. While no task
/// sleeps, this thread sleeps. It ends early if all tasks are done, or the run was called off. After its last turn, it
/// calls the run off.
///
/// # Complexity
/// That of `turns` calls of `Sleepers::wake_first`, besides the tries while no room is free.
///
/// # Waits
/// For the lock of the tasks that sleep, for a task that goes to sleep, and for the dispatcher, while no room is free.
pub fn wake<L: Run, R: Wait>(
    rt: &R,
    queue: &MpscQueue<Task>,
    party: &mut Party<Task>,
    shared: &Shared<L>,
    mine: &mut Account,
    parker: &Parker,
    turns: u64,
)
    requires table { party.old.table ≡ queue.now.table }
    requires of { IsOpen L.accounts mine.old }
    ensures { Woken mine.old mine.new party.old party.new }
{
    for _turn in 0..turns {
        if shared.is_over() {
            break;
        }
        let woken = wake_first(rt, shared, mine);
        match woken {
            Some(task) => send(rt, queue, party, shared, task),
            None => parker.park(rt),
        }
    }
    shared.call_off();
}

/// Takes a task from the queue and appends it to those that wait for a worker. Returns why, if it finds no task to
/// take, and `Busy` if `usize::MAX` tasks wait.
fn take_in<L: Run>(
    queue: &MpscQueue<Task>,
    party: &mut Party<Task>,
    runnable: &mut Runnable<L>,
    accounts: &Accounts,
    mine: &mut Account,
) -> Result<(), TryDequeueError>
    requires table { party.old.table ≡ queue.now.table }
    requires of { (accounts.now.table ≡ L.accounts) × IsOpen L.accounts mine.old }
    ensures came { Came mine.old mine.new party.old party.new }
    ensures tasks { MatchResult result
        (λ _. (task : Element (Timer Work)) × Dequeues (Ok task) party.old party.new
        × (runnable.new.tasks ≡ runnable.old.tasks ++ task ∷ []))
        (λ why. (runnable.new.tasks ≡ runnable.old.tasks)
        × (length runnable.old.tasks < usize.MAX → Dequeues (Err why) party.old party.new)) }
{
    if !runnable.has_room() {
        return Err(TryDequeueError::Busy);
    }
    match queue.try_dequeue(party) {
        Ok(task) => {
            runnable.put(accounts, mine, task.into_kind());
            Ok(())
        }
        Err(why) => Err(why),
    }
}

/// Moves a task from the queue to those that wait for a worker, by `take_in`. The workers are woken if no task waited.
/// Gives the room of the task to the pool.
fn dispatch_one<L: Run, R: Wait>(
    rt: &R,
    queue: &MpscQueue<Task>,
    party: &mut Party<Task>,
    shared: &Shared<L>,
    mine: &mut Account,
) -> Result<(), TryDequeueError>
    requires table { party.old.table ≡ queue.now.table }
    requires of { IsOpen L.accounts mine.old }
    ensures { Came mine.old mine.new party.old party.new }
{
    let mut runnable = shared.runnable.lock(rt);
    let is_first = runnable.tasks.is_empty();
    take_in(queue, party, &mut runnable, &shared.accounts, mine)?;
    drop(runnable);
    if is_first {
        shared.alarms.wake_workers();
    }
    let rooms = party.rooms();
    queue.give_back(party, rooms);
    Ok(())
}

/// Dispatches tasks until the submitter sends no more and none is left in the queue. Sleeps while the queue is empty.
///
/// # Complexity
/// O(n), for n tasks that it dispatches, besides the tries while `usize::MAX` tasks wait for a worker.
///
/// # Waits
/// For the lock of the tasks that wait for a worker, and for the submitter.
pub fn dispatch<L: Run, R: Wait>(
    rt: &R,
    queue: &MpscQueue<Task>,
    party: &mut Party<Task>,
    shared: &Shared<L>,
    mine: &mut Account,
    parker: &Parker,
)
    requires table { party.old.table ≡ queue.now.table }
    requires of { IsOpen L.accounts mine.old }
    ensures { Came mine.old mine.new party.old party.new }
{
    for _ in rt.forever() {
        // The flag is read before the try. If the submitter has ended by now, no task comes after those that the tries
        // find from here on.
        let is_end = shared.has_sent_all.load(Ordering::SeqCst);
        if let Err(why) = dispatch_one(rt, queue, party, shared, mine) {
            if is_end {
                return;
            }
            pause(rt, parker, why);
        }
    }
    unreachable!()
}

/// Runs one round of a task, if one is left.
fn run_round(task: &mut Node<Task, list::Links<Task>>)
    ensures name { name_of task.new ≡ one_more (name_of task.old) }
    ensures one { task.old.value.payload.ran < task.old.value.payload.rounds
        → Ran 1 task.old.value.payload task.new.value.payload }
    ensures none { task.old.value.payload.ran ≡ task.old.value.payload.rounds → task.new ≡ task.old }
{
    let work = &mut task.get_mut().payload;
    if !work.is_done() {
        work.run();
    }
}

/// Pushes a task onto those that are done, and counts it as done. The last one ends the run for all threads.
fn retire<L: Run>(shared: &Shared<L>, done: &mut Stack<Task>, task: Node<Task, list::Links<Task>>)
    ensures { done.new ≡ task ∷ done.old }
{
    done.push(task.into_kind());
    if shared.unfinished.fetch_sub(1, Ordering::SeqCst) == 1 {
        shared.alarms.wake_all();
    }
}

/// Keeps a task for which there is no room to sleep, and calls the run off, since not all tasks can be done.
fn keep<L: Run>(shared: &Shared<L>, kept: &mut Stack<Task>, task: Node<Task, list::Links<Task>>)
    ensures { kept.new ≡ task ∷ kept.old }
{
    kept.push(task.into_kind());
    shared.call_off();
}

/// Retires a task that is done, and puts another one to sleep, which wakes the submitter. If `usize::MAX` tasks sleep,
/// it keeps the task, with the deadline until which it would have slept.
fn settle<L: Run, R: Wait>(
    rt: &R,
    shared: &Shared<L>,
    mine: &mut Account,
    done: &mut Stack<Task>,
    kept: &mut Stack<Task>,
    task: Node<Task, list::Links<Task>>,
)
    requires { IsOpen L.accounts mine.old }
    ensures settles { Settles task mine.old mine.new
        (names done.old) (names kept.old) (names done.new) (names kept.new) }
    ensures retired { task.value.payload.ran ≡ task.value.payload.rounds
        → (mine.new ≡ mine.old) × (done.new ≡ task ∷ done.old) × (kept.new ≡ kept.old) }
    ensures not_done { task.value.payload.ran < task.value.payload.rounds → done.new ≡ done.old }
    ensures kept { (kept.new ≡ kept.old) ⊎ ((time : ℕ) × (kept.new ≡ paused time task ∷ kept.old)) }
    ensures finished { all_done done.old ≡ true → all_done done.new ≡ true }
{
    if task.get().payload.is_done() {
        retire(shared, done, task);
        return;
    }
    let slept = shared.sleepers.lock(rt).sleep(&shared.accounts, mine, task);
    let Err(awake) = slept else {
        shared.alarms.submitter.unpark();
        return;
    };
    keep(shared, kept, awake);
}

/// Takes a task that waits, runs one round of it and settles it. Returns `false` if no task waits.
fn work_one<L: Run, R: Wait>(
    rt: &R,
    shared: &Shared<L>,
    mine: &mut Account,
    done: &mut Stack<Task>,
    kept: &mut Stack<Task>,
) -> bool
    requires { IsOpen L.accounts mine.old }
    ensures of { IsOpen L.accounts mine.new }
    ensures ran { RanOneEach mine.old (names done.old) (names kept.old)
        → RanOneEach mine.new (names done.new) (names kept.new) }
    ensures finished { all_done done.old ≡ true → all_done done.new ≡ true }
    ensures one { result ≡ true → (name : Name) × (mine.new.got ≡ name ∷ mine.old.got) }
    ensures none { result ≡ false → (mine.new ≡ mine.old) × (done.new ≡ done.old) × (kept.new ≡ kept.old) }
{
    let next = shared.runnable.lock(rt).take(&shared.accounts, mine);
    let Some(task) = next else {
        return false;
    };
    let mut task = task;
    run_round(&mut task);
    settle(rt, shared, mine, done, kept, task);
    true
}

/// Runs one round of one task in each of `turns` turns, and returns the tasks that are done. The others sleep until
/// their next round. While no task waits, this thread sleeps. It ends early if all tasks are done, or the run was
/// called off. After its last turn, it calls the run off. If `usize::MAX` tasks sleep, it keeps the task that it would
/// put to sleep, and calls the run off.
///
/// # Complexity
/// O(`turns`).
///
/// # Waits
/// For the locks of the two places, and for a task to take.
pub fn work<L: Run, R: Wait>(
    rt: &R,
    shared: &Shared<L>,
    mine: Account,
    parker: &Parker,
    turns: u64,
) -> Worked<L>
    requires of { IsOpen L.accounts mine }
    requires none { RanOneEach mine [] [] }
{
    let mut mine = mine;
    let (mut done, mut kept) = (Stack::new(), Stack::new());
    for _turn in 0..turns {
        if shared.is_over() {
            break;
        }
        if !work_one(rt, shared, &mut mine, &mut done, &mut kept) {
            parker.park(rt);
        }
    }
    shared.call_off();
    Worked {
        done,
        kept,
        account: mine,
        run: PhantomData,
    }
}
