//! The two places of the scheduler that are behind locks: where tasks sleep, and where they wait for a worker.
ghost use Rattle.std.specs.Prelude.{
  ◌≡◌,
  ◌+◌,
  ◌-◌,
  ◌^◌,
  ◌≤◌,
  ◌<◌,
  min,
  [],
  ◌∷◌,
  ◌++◌,
  length,
  IfErr,
  IsOk,
  nat_lt,
  MatchOption,
  MatchResult,
  OnErr,
  OnOk,
};
ghost use denote.RawPtr.{Ptr};
ghost use Rattle.std.proofs.Props.{props};
ghost use Rattle.cordyceps_shared_uses.specs.Accounts.{Holds, IsOpen, after_getting, after_giving};
ghost use Rattle.cordyceps_shared_uses.specs.Names.{asleep, name_of, names};
ghost use Rattle.cordyceps_shared_uses.specs.Scheduler.{paused};
ghost use Rattle.cordyceps_shared_uses.specs.Timers.{started, due, until_first, NoneBefore};

use crate::scheduler::accounts::{Account, Accounts};
use crate::scheduler::name::Name;
use crate::scheduler::work::Work;
use crate::timers::{Stopped, Timer, Timers};
use cordyceps::{List, Node, list};
use std::marker::{Brand, PhantomData};

/// A task: its work, and the deadline at which it is woken. Its node is created once and passes through all
/// collections.
pub type Task = Timer<Work>;

/// A run of the scheduler, which says to which table its accounts belong.
pub trait Run {
    ghost use Rattle.cordyceps.specs.Parties.Seated.{TableId};

    ghost accounts: { TableId };
}

impl Run for Brand {
    ghost use Rattle.std.specs.Prelude.{[]};

    ghost accounts = { record {
      words = 0;
      slots = 0;
      views_name = 0;
      atom = 0;
      block = 0;
      offset = 0;
      slot_names = [];
    } };
}

/// Returns the time at which a pause that begins at `now` ends, or `u64::MAX` if that is later.
fn end_of_pause(now: u64, pause: u32) -> u64
    ensures is { result ≡ min (now + pause) (2 ^ 64 - 1) }
    ensures later { now ≤ result }
{
    now.saturating_add(pause as u64)
}

/// Tasks that sleep, the earliest deadline first, and the scheduler's time.
#[derive(Drop)]
pub struct Sleepers<L: Run> {
    /// The scheduler's time, in ticks. It advances only when no task is due, and at most to the earliest deadline.
    pub time: u64,
    /// The tasks that sleep, each until its deadline.
    pub timers: Timers<Work>,
    /// The account of this place.
    pub account: Account,
    run: PhantomData<L>,
    ghost of: { IsOpen L.accounts account },
    ghost counted: { Holds account (asleep timers) },
    ghost passed: { timers.clock ≤ time },
    ghost none_missed: { NoneBefore time timers.nodes } by { Prim.hlevel props },
}

impl<L: Run> Sleepers<L> {
    /// Creates a place without tasks, at the time 0. Requires an account of the run that gave all tasks that it got.
    /// Allocates nothing.
    ///
    /// # Complexity
    /// O(1).
    pub fn new(account: Account) -> Sleepers<L>
        requires of { IsOpen L.accounts account }
        requires none { Holds account [] }
        ensures time { result.time ≡ 0 }
        ensures timers { result.timers ≡ record { nodes = []; clock = 0 } }
        ensures account { result.account ≡ account }
    {
        Sleepers {
            time: 0,
            timers: Timers::new(),
            account,
            run: PhantomData,
        }
    }

    /// Puts a task of the calling thread to sleep, until the end of a pause that begins now, and enters the transfer in
    /// both accounts. The deadline is at most `u64::MAX`. Allocates nothing.
    ///
    /// # Errors
    /// If `usize::MAX` tasks sleep, the task is returned with its new deadline. The other tasks and the accounts are
    /// unchanged.
    ///
    /// # Complexity
    /// O(1).
    pub fn sleep(
        &mut self,
        accounts: &Accounts,
        mine: &mut Account,
        task: Stopped<Work>,
    ) -> Result<(), Stopped<Work>>
        requires { (accounts.now.table ≡ L.accounts) × IsOpen L.accounts mine.old }
        ensures mine { MatchResult result
            (λ _. mine.new ≡ after_giving (name_of task) mine.old)
            (λ _. mine.new ≡ mine.old) }
        ensures sleeps { OnOk result
            ((spot : Ptr)
            × (self.new.timers.nodes
            ≡ started self.old.timers.clock spot (paused self.old.time task) self.old.timers.nodes)) }
        ensures time { self.new.time ≡ self.old.time }
        ensures succeeds { length self.old.timers.nodes < usize.MAX → IsOk result }
        ensures kept { OnErr result (self.new.timers ≡ self.old.timers) }
        ensures returned { IfErr result (λ back. back ≡ paused self.old.time task) }
    {
        let mut task = task;
        let name = Name::of(&task);
        let pause = task.get().payload.pause;
        task.get_mut().deadline = end_of_pause(self.time, pause);
        match self.timers.restart(task) {
            Ok(_) => {
                accounts.give(mine, &mut self.account, name);
                Ok(())
            }
            Err(task) => Err(task),
        }
    }

    /// Wakes the task with the earliest deadline and returns it, if it is due, and enters the transfer to the calling
    /// thread in both accounts. Since no deadline is before the time, it is due exactly if its deadline is the time. If
    /// no task is due, it returns `None`, and the time advances to the earliest deadline, if any task sleeps.
    ///
    /// # Complexity
    /// O(1) amortized if a task is woken. Otherwise that of `Timers::first_deadline`.
    pub fn wake(&mut self, accounts: &Accounts, mine: &mut Account) -> Option<Stopped<Work>>
        requires { (accounts.now.table ≡ L.accounts) × IsOpen L.accounts mine.old }
        ensures mine { MatchOption result
            (mine.new ≡ mine.old)
            (λ task. mine.new ≡ after_getting (name_of task) mine.old) }
        ensures woken { MatchOption result
            ((self.new.timers.nodes ≡ self.old.timers.nodes)
            × (due self.old.timers.clock self.old.time self.old.timers.nodes ≡ []))
            (λ task. (spot : Ptr) × (self.old.timers.nodes ≡ (spot, task) ∷ self.new.timers.nodes)
            × (task.value.deadline ≡ self.old.time)) }
        ensures time { MatchOption result
            (self.new.time ≡ until_first self.old.time self.old.timers.nodes)
            (λ _. self.new.time ≡ self.old.time) }
    {
        let Some(task) = self.timers.stop_due(self.time) else {
            if let Some(deadline) = self.timers.first_deadline() {
                self.time = deadline;
            }
            return None;
        };
        accounts.give(&mut self.account, mine, Name::of(&task));
        Some(task)
    }

    /// Wakes the task with the earliest deadline and returns it, and enters the transfer to the calling thread in both
    /// accounts. If it is not due yet, the time advances to its deadline. Returns `None` if no task sleeps. The time
    /// stays the same then.
    ///
    /// # Complexity
    /// O(1) amortized.
    pub fn wake_first(&mut self, accounts: &Accounts, mine: &mut Account) -> Option<Stopped<Work>>
        requires { (accounts.now.table ≡ L.accounts) × IsOpen L.accounts mine.old }
        ensures mine { MatchOption result
            (mine.new ≡ mine.old)
            (λ task. mine.new ≡ after_getting (name_of task) mine.old) }
        ensures woken { MatchOption result
            (self.old.timers.nodes ≡ [])
            (λ task. (spot : Ptr) × (self.old.timers.nodes ≡ (spot, task) ∷ self.new.timers.nodes)) }
        ensures time { MatchOption result
            (self.new.time ≡ self.old.time)
            (λ task. self.new.time ≡ task.value.deadline) }
    {
        let task = self.timers.stop_first()?;
        self.time = task.get().deadline;
        accounts.give(&mut self.account, mine, Name::of(&task));
        Some(task)
    }

    /// Returns the tasks that still sleep, and the account of the place.
    ///
    /// # Complexity
    /// O(1).
    pub fn into_tasks(self) -> (Timers<Work>, Account)
        ensures of { IsOpen L.accounts result.1 }
        ensures held { Holds result.1 (asleep result.0) }
    {
        let Sleepers {
            time: _,
            timers,
            account,
            run: _,
        } = self;
        (timers, account)
    }
}

/// Tasks that wait for a worker, in the order in which they came.
#[derive(Drop)]
pub struct Runnable<L: Run> {
    /// The tasks, the one that has waited longest first.
    pub tasks: List<Task>,
    /// The account of this place.
    pub account: Account,
    run: PhantomData<L>,
    ghost of: { IsOpen L.accounts account },
    ghost counted: { Holds account (names tasks) },
}

impl<L: Run> Runnable<L> {
    /// Creates a place without tasks. Requires an account of the run that gave all tasks that it got. Allocates
    /// nothing.
    ///
    /// # Complexity
    /// O(1).
    pub fn new(account: Account) -> Runnable<L>
        requires of { IsOpen L.accounts account }
        requires none { Holds account [] }
        ensures tasks { result.tasks ≡ [] }
        ensures account { result.account ≡ account }
    {
        Runnable {
            tasks: List::new(),
            account,
            run: PhantomData,
        }
    }

    /// Returns `true` if fewer than `usize::MAX` tasks wait, so that one more can be put here.
    ///
    /// # Complexity
    /// O(1).
    pub fn has_room(&self) -> bool
        ensures { result ≡ nat_lt (length self.now.tasks) usize.MAX }
    {
        self.tasks.len() < usize::MAX
    }

    /// Appends a task of the calling thread, and enters the transfer in both accounts. Requires that fewer than
    /// `usize::MAX` tasks wait. Allocates nothing.
    ///
    /// # Complexity
    /// O(1).
    pub fn put(
        &mut self,
        accounts: &Accounts,
        mine: &mut Account,
        task: Node<Task, list::Links<Task>>,
    )
        requires of { (accounts.now.table ≡ L.accounts) × IsOpen L.accounts mine.old }
        requires room { length self.old.tasks < usize.MAX }
        ensures mine { mine.new ≡ after_giving (name_of task) mine.old }
        ensures last { self.new.tasks ≡ self.old.tasks ++ task ∷ [] }
    {
        accounts.give(mine, &mut self.account, Name::of(&task));
        self.tasks.push_back(task);
    }

    /// Removes the task that has waited longest and returns it, and enters the transfer to the calling thread in both
    /// accounts. Returns `None` if no task waits.
    ///
    /// # Complexity
    /// O(1).
    pub fn take(
        &mut self,
        accounts: &Accounts,
        mine: &mut Account,
    ) -> Option<Node<Task, list::Links<Task>>>
        requires { (accounts.now.table ≡ L.accounts) × IsOpen L.accounts mine.old }
        ensures mine { MatchOption result
            (mine.new ≡ mine.old)
            (λ next. mine.new ≡ after_getting (name_of next) mine.old) }
        ensures oldest { MatchOption result
            ((self.old.tasks ≡ []) × (self.new.tasks ≡ []))
            (λ next. self.old.tasks ≡ next ∷ self.new.tasks) }
    {
        let next = self.tasks.pop_front()?;
        accounts.give(&mut self.account, mine, Name::of(&next));
        Some(next)
    }

    /// Returns the tasks that still wait, and the account of the place.
    ///
    /// # Complexity
    /// O(1).
    pub fn into_tasks(self) -> (List<Task>, Account)
        ensures of { IsOpen L.accounts result.1 }
        ensures held { Holds result.1 (names result.0) }
    {
        let Runnable {
            tasks,
            account,
            run: _,
        } = self;
        (tasks, account)
    }
}
