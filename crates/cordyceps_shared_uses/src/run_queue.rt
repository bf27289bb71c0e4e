//! A run queue: one thread submits jobs, and two workers run them.
ghost use Rattle.std.specs.Prelude.{◌≡◌, ◌≤◌, ◌*◌, [], ◌∷◌, ◌++◌, map, reverse, IfOk, IfErr, IfSome};
ghost use Rattle.std.specs.Thread.{IsSync};
ghost use Rattle.cordyceps.specs.Parties.Counts.{Same};
ghost use Rattle.cordyceps.specs.Transfers.Moves.{Moves};
ghost use Rattle.cordyceps_shared_uses.specs.RunQueue.{ran, Worked};

use crate::idle::make_two_parkers;
use cordyceps::stack::{Links, MAX_ROOMS, Party};
use cordyceps::{Linked, Node, Stack, TransferStack};
use crossbeam_utils::sync::{Parker, Unparker};
use std::alloc::Global;
use std::snapshot::Snapshot;
use std::sync::Wait;
use std::sync::atomic::{AtomicBool, Ordering};
use std::thread;
use std::thread::{Promise, PromisedHandle, Scope, Threads};

/// A job, which is to square a number.
#[derive(Drop)]
pub struct Job {
    /// The number to square.
    pub number: u32,
    /// The square of the number, once the job was run.
    pub square: u64,
}

/// A job in its node.
type Handle = Node<Job, Links<Job>>;

impl Linked<Links<Job>> for Job {
    type Handle = Handle;

    ghost element = { λ h. h };

    fn into_ptr(handle: Handle) -> Handle {
        handle
    }

    fn from_ptr(node: Handle) -> Handle
        ensures { result ≡ node }
    {
        node
    }
}

impl Job {
    /// Computes the square.
    fn run(&mut self)
        ensures number { self.new.number ≡ self.old.number }
        ensures square { self.new.square ≡ self.old.number * self.old.number }
    {
        self.square = self.number as u64 * self.number as u64;
    }
}

/// What wakes the two workers.
#[derive(Drop)]
struct Alarm {
    first: Unparker,
    second: Unparker,
}

impl Alarm {
    /// Wakes both workers. A worker that is awake does not sleep the next time that it is about to.
    fn ring(&self) {
        self.first.unpark();
        self.second.unpark();
    }
}

/// Submits a job, and wakes the workers if the stack was empty. While no room is free, it yields to other threads and
/// tries again.
///
/// No job waits for long while all workers sleep: a worker takes all jobs at once, so one that finds none and then
/// sleeps is woken by the next push, which finds the stack empty. A wake-up before the sleep ends the sleep at once.
/// Nor does a submitter that finds no room wait for a sleeping worker: each room has a job, or is with a worker that
/// took its job and has still to give it back. This is tested, but no contract states it.
fn submit<R: Wait>(
    rt: &R,
    queue: &TransferStack<Job>,
    alarm: &Alarm,
    party: &mut Party<Job>,
    job: Handle,
)
    requires { party.old.table ≡ queue.now }
    ensures { Moves ran (ran job ∷ []) [] party.old party.new }
{
    let mut job = job;
    for _ in rt.forever() {
        match queue.refill_and_try_push(party, job) {
            Ok(was_empty) => {
                if was_empty {
                    alarm.ring();
                }
                return;
            }
            Err(error) => job = error.into_inner(),
        }
        thread::yield_now();
    }
    unreachable!()
}

/// Submits jobs, one after the other.
fn submit_all<R: Wait>(
    rt: &R,
    queue: &TransferStack<Job>,
    alarm: &Alarm,
    mut party: Party<Job>,
    jobs: Stack<Job>,
) -> Party<Job>
    requires { party.table ≡ queue.now }
    ensures { Moves ran (map ran jobs) [] party result }
{
    for job in jobs {
        submit(rt, queue, alarm, &mut party, job);
    }
    party
}

/// Runs jobs, and pushes each onto those that are done.
fn run_each(mut jobs: Stack<Job>, done: &mut Stack<Job>)
    ensures { done.new ≡ reverse (map ran jobs) ++ done.old }
{
    while let Some(mut job) = jobs.pop() {
        job.get_mut().run();
        done.push(job);
    }
}

/// What a worker returns: its party, and the jobs that it has done.
#[derive(Drop)]
struct Shift {
    party: Party<Job>,
    done: Stack<Job>,
}

/// The promise of a worker that starts with a party.
#[derive(Drop)]
struct Works {
    party: Snapshot<Party<Job>>,
}

impl Promise<Shift> for Works {
    ghost kept_by = { λ works shift. Worked shift.done works.party.value shift.party };
}

/// Takes jobs from the queue and runs them, until all jobs were submitted and none is left in the queue. It gives the
/// rooms of the jobs that it took to the pool at once, and sleeps while the queue is empty.
fn work<R: Wait>(
    rt: &R,
    queue: &TransferStack<Job>,
    mut party: Party<Job>,
    parker: &Parker,
    have_ended: &AtomicBool,
) -> Shift
    requires { party.table ≡ queue.now }
    ensures { Worked result.done party result.party }
{
    let mut done = Stack::new();
    for _ in rt.forever() {
        // The flag is read before the take. If all jobs were submitted by now, none comes after those that the take
        // finds.
        let is_end = have_ended.load(Ordering::SeqCst);
        let batch = queue.take_all(&mut party);
        let rooms = party.rooms();
        queue.give_back(&mut party, rooms);
        if !batch.is_empty() {
            run_each(batch, &mut done);
        } else if is_end {
            return Shift { party, done };
        } else {
            parker.park(rt);
        }
    }
    unreachable!()
}

/// Starts a worker on a thread of a scope. Returns `None` if the thread cannot be started.
fn start_worker<'s, E, R: Wait + Sync>(
    scope: &Scope<'s, E>,
    rt: &'s R,
    queue: &'s TransferStack<Job>,
    party: Party<Job>,
    parker: Parker,
    have_ended: &'s AtomicBool,
) -> Option<PromisedHandle<Shift, Works>>
    requires { party.table ≡ queue.now }
    ensures { IfSome result (λ h. h.promise.party.value ≡ party) }
{
    let promise = Works {
        party: Snapshot::of(&party),
    };
    let work_on = move || -> Shift
        requires { IsSync R.row × (party.table ≡ queue.now) }
        ensures { Worked result.done party result.party }
    { work(rt, queue, party, &parker, have_ended) };
    scope.spawn_with(promise, work_on).ok()
}

/// What the three threads return: the submitter's party, and what each worker has done.
#[derive(Drop)]
struct Ended {
    submitter: Party<Job>,
    workers: (Shift, Shift),
}

/// Submits jobs, while two workers run them, each on a thread. If no thread can be started, the jobs are returned. If
/// only one can be started, the second worker begins once all jobs are submitted.
fn run_threads<R: Threads + Wait + Sync>(
    rt: &R,
    queue: &TransferStack<Job>,
    submitter: Party<Job>,
    parties: (Party<Job>, Party<Job>),
    parkers: (Parker, Parker),
    alarm: Alarm,
    jobs: Stack<Job>,
) -> Result<Ended, Stack<Job>>
    requires submitter { submitter.table ≡ queue.now }
    requires workers { (parties.0.table ≡ queue.now) × (parties.1.table ≡ queue.now) }
    ensures ended { IfOk result (λ e. Moves ran (map ran jobs) [] submitter e.submitter
        × Worked e.workers.0.done parties.0 e.workers.0.party
        × Worked e.workers.1.done parties.1 e.workers.1.party) }
    ensures back { IfErr result (λ back. back ≡ jobs) }
{
    let (one, two) = parties;
    let (first_parker, second_parker) = parkers;
    let flag = AtomicBool::new(false);
    let have_ended = &flag;
    thread::scope(
        thread::scope_env(),
        rt,
        move |scope| -> Result<Ended, Stack<Job>>
            requires { IsSync R.row × (submitter.table ≡ queue.now) × (one.table ≡ queue.now)
                × (two.table ≡ queue.now) }
            ensures ended { IfOk result (λ e. Moves ran (map ran jobs) [] submitter e.submitter
                × Worked e.workers.0.done one e.workers.0.party × Worked e.workers.1.done two e.workers.1.party) }
            ensures back { IfErr result (λ back. back ≡ jobs) }
        {
            let promise = Works {
                party: Snapshot::of(&two),
            };
            let work_on = move || -> Shift
                requires { IsSync R.row × (two.table ≡ queue.now) }
                ensures { Worked result.done two result.party }
            { work(rt, queue, two, &second_parker, have_ended) };
            let Some(first) = start_worker(scope, rt, queue, one, first_parker, have_ended) else {
                return Err(jobs);
            };
            let second = scope.spawn_with(promise, work_on);
            let submitter = submit_all(rt, queue, &alarm, submitter, jobs);
            have_ended.store(true, Ordering::SeqCst);
            alarm.ring();
            match second {
                Ok(second) => Ok(Ended {
                    submitter,
                    workers: (first.join(rt), second.join(rt)),
                }),
                Err(refused) => {
                    let second = (refused.value)();
                    Ok(Ended {
                        submitter,
                        workers: (first.join(rt), second),
                    })
                }
            }
        },
    )
}

/// Pushes jobs onto those that are done.
fn add_all(done: &mut Stack<Job>, mut more: Stack<Job>)
    ensures { done.new ≡ reverse more ++ done.old }
{
    while let Some(job) = more.pop() {
        done.push(job);
    }
}

/// The result of `run_all`.
#[derive(Drop)]
pub struct Done {
    /// The jobs, all of which were run.
    pub jobs: Stack<Job>,
}

/// Runs all jobs and returns them. One thread submits the jobs, and two workers run them, until all jobs were submitted
/// and none is left. Each job is run once, and none is lost.
///
/// The queue has `rooms` rooms, which bound the number of jobs that wait for a worker. The room of a job that a worker
/// took is used again, so the number of jobs has no bound. Requires that `rooms` is at least 1 and at most `MAX_ROOMS`.
/// Allocates the queue, and what the two workers sleep on.
///
/// # Errors
/// If memory is refused, or no thread can be started, the jobs are returned, none of which was run.
///
/// # Complexity
/// O(`rooms` + n), for n jobs, in all threads together, besides the tries of a submitter that waits.
///
/// # Waits
/// For the threads that it starts. The one that submits tries again while no room is free, and while a worker takes
/// between the steps of its push. A worker sleeps while the queue is empty. If only one thread can be started, one
/// worker runs all jobs.
pub fn run_all<R: Threads + Wait + Sync>(
    rt: &R,
    alloc: Global,
    jobs: Stack<Job>,
    rooms: usize,
) -> Result<Done, Stack<Job>>
    requires room { 1 ≤ rooms }
    requires few { rooms ≤ MAX_ROOMS }
    ensures each_once { IfOk result (λ done. Same (map ran jobs) done.jobs) }
    ensures back { IfErr result (λ back. back ≡ jobs) }
{
    let Ok((queue, mut party)) = TransferStack::new(alloc, rooms) else {
        return Err(jobs);
    };
    let Ok((parkers, (first, second))) = make_two_parkers(alloc) else {
        return Err(jobs);
    };
    let alarm = Alarm { first, second };
    let submitter = queue.split(&mut party, rooms);
    let other = queue.split(&mut party, 0);
    let parties = (party, other);
    let ended = run_threads(rt, &queue, submitter, parties, parkers, alarm, jobs)?;
    let Ended {
        submitter,
        workers: (first, second),
    } = ended;
    let (mut party, mut done) = (first.party, first.done);
    queue.absorb(&mut party, second.party);
    queue.absorb(&mut party, submitter);
    let rest = queue.close(party);
    run_each(rest, &mut done);
    add_all(&mut done, second.done);
    Ok(Done { jobs: done })
}
