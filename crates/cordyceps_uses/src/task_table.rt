//! A table of tasks by their numbers, as that of a kernel's processes: each task is ready, waits, or runs.
//!
//! Each task is one node of the caller's, which a table finds by its number, and which is at the same time in the list
//! of all tasks and in at most one of two more: those that are ready, by priority, and those that wait.
ghost use Rattle.std.specs.Prelude.{◌≡◌, ◌<◌, [], ◌∷◌, ◌++◌, ℕ, length, drop, slice_get, nat_eq, true, false};
ghost use Rattle.std.specs.Prelude.{None, Some, MatchOption, IfSome, IfOk, IfErr, OnOk, OnErr, is_some, IsSome, option_map};
ghost use Rattle.cordyceps.specs.Spots.BySpot.{HasSpot};
ghost use Rattle.cordyceps.specs.Spots.MultiList.{list_at};
ghost use Rattle.cordyceps.specs.Spots.Threads.{is_in};
ghost use Rattle.cordyceps_uses.specs.Keyed.{order, HasAt, AreFrom};
ghost use Rattle.cordyceps_uses.specs.TaskTable.{shown, IsTable, task, others, state, priority, running};
ghost use Rattle.cordyceps_uses.specs.TaskTable.{without_task, waits, blocked, IsSpawned, IsReadied};

use crate::keyed::{count, lists_agree, put, spot_in, spot_of, take_out};
use crate::ranked::{Ranked, link_by_rank};
use cordyceps::stable_map::{MapNode, Spot, StableMap, Three};
use std::alloc::{AllocError, Global};
use std::hash::BuildHasher;
use std::marker::Model;

/// A task: its priority, and a value of the caller's.
#[derive(Drop)]
pub struct Task<T> {
    /// The priority. Those with a smaller number go first.
    pub priority: u8,
    /// The value.
    pub value: T,
}

impl<T> Ranked for Task<T> {
    ghost rank = { λ t. t.priority };

    fn rank(&self) -> u64 {
        u64::from(self.priority)
    }
}

/// An owned node of a task, with its number as the key.
pub type TaskNode<T> = MapNode<u64, Task<T>, Three>;

/// What a task does.
#[derive(Clone, Copy, PartialEq, Debug)]
pub enum State {
    /// It is in the list of those that can run.
    Ready,
    /// It is in the list of those that wait to be woken.
    Waiting,
    /// It is in neither.
    Running,
}

/// A table of tasks by their numbers. A contract sees all tasks in order of creation, those that are ready, by priority
/// and equals in order of arrival, and those that wait, in order of arrival.
///
/// No task is both ready and waiting.
///
/// # Complexity
/// A call that takes a number is O(1) if the hashes of the numbers are spread, and O(n) at the worst, for n tasks. A
/// task becomes ready in O(m) more, for m tasks that are ready and have a greater number as priority. Dropping the
/// table frees the node of each task: O(n).
#[derive(Drop)]
pub struct TaskTable<T, S: BuildHasher> {
    // List 1 has those that are ready, and list 2 those that wait.
    map: StableMap<u64, Task<T>, Three, S>,
}

impl<T, S: BuildHasher> Model for TaskTable<T, S> {
    ghost use Rattle.cordyceps_uses.specs.TaskTable.{Tasks, shown, IsTable};

    ghost Value = { Tasks T };

    ghost view = { λ t. shown t.map };

    ghost invariant = { λ t. IsTable t.map };
}

/// The nodes of a table.
type Nodes<T, S> = StableMap<u64, Task<T>, Three, S>;

impl<T: Drop, S: BuildHasher + Drop> TaskTable<T, S> {
    /// Creates a table without a task, whose buckets are enough for `capacity` tasks, and hashes numbers by `hasher`.
    /// More tasks are slower to find.
    ///
    /// # Errors
    /// If memory for the buckets is refused, it returns `AllocError`.
    ///
    /// # Complexity
    /// O(c), for a capacity of c, with one allocation.
    pub fn new(alloc: Global, capacity: usize, hasher: S) -> Result<TaskTable<T, S>, AllocError>
        ensures { IfOk result (λ t. t ≡ record { tasks = []; ready = []; waiting = [] }) }
    {
        let map = StableMap::with_capacity(alloc, capacity, hasher)?;
        Ok(TaskTable { map })
    }
}

impl<T, S: BuildHasher> TaskTable<T, S> {
    /// Returns the number of tasks.
    ///
    /// # Complexity
    /// O(1).
    pub fn len(&self) -> usize
        ensures { result ≡ length self.now.tasks }
    {
        count(&self.map)
    }

    /// Returns what the task with a number does, or `None` if there is no such task.
    ///
    /// # Complexity
    /// O(1) if the hashes of the numbers are spread.
    pub fn state(&self, pid: u64) -> Option<State>
        ensures { result ≡ state pid self.now }
    {
        lists_agree(&self.map);
        let at = spot_of(&self.map, &pid)?;
        if self.map.is_linked(1, at) {
            return Some(State::Ready);
        }
        if self.map.is_linked(2, at) {
            return Some(State::Waiting);
        }
        Some(State::Running)
    }

    /// Makes a task that is ready wait, behind the others that do, and returns `true`. If no task with the number is
    /// ready, it returns `false`, and nothing changes.
    ///
    /// # Complexity
    /// O(1) if the hashes of the numbers are spread.
    pub fn block(&mut self, pid: u64) -> bool
        ensures answer { result ≡ is_some (task pid self.old.ready) }
        ensures blocked { self.new ≡ blocked pid self.old }
    {
        match spot_in(&self.map, 1, &pid) {
            Some(at) => {
                make_wait(&mut self.map, at);
                true
            }
            None => false,
        }
    }

    /// Makes a task that waits ready, and returns `true`. If no task with the number waits, it returns `false`, and
    /// nothing changes.
    ///
    /// # Complexity
    /// O(m + 1) if the hashes of the numbers are spread.
    pub fn wake(&mut self, pid: u64) -> bool
        ensures answer { result ≡ is_some (task pid self.old.waiting) }
        ensures woken { MatchOption (task pid self.old.waiting) (self.new ≡ self.old)
            (λ x. IsReadied self.old x self.new) }
    {
        match spot_in(&self.map, 2, &pid) {
            Some(at) => {
                make_ready(&mut self.map, at);
                true
            }
            None => false,
        }
    }

    /// Makes the task that has waited longest ready, and returns its number, or returns `None` if no task waits.
    ///
    /// # Complexity
    /// O(m + 1).
    pub fn wake_first(&mut self) -> Option<u64>
        ensures answer { result ≡ option_map (λ x. x.0) (slice_get self.old.waiting 0) }
        ensures woken { MatchOption (slice_get self.old.waiting 0) (self.new ≡ self.old)
            (λ x. IsReadied self.old x self.new) }
    {
        lists_agree(&self.map);
        let at = self.map.front(2)?;
        make_ready(&mut self.map, at);
        Some(number_at(&self.map, at))
    }

    /// Takes the first task that is ready, which then runs, and returns its number, or returns `None` if no task is
    /// ready.
    ///
    /// # Complexity
    /// O(1).
    pub fn next(&mut self) -> Option<u64>
        ensures answer { result ≡ option_map (λ x. x.0) (slice_get self.old.ready 0) }
        ensures left { self.new.ready ≡ drop 1 self.old.ready }
        ensures tasks { self.new.tasks ≡ self.old.tasks }
        ensures waiting { self.new.waiting ≡ self.old.waiting }
    {
        lists_agree(&self.map);
        let at = self.map.unlink_front(1)?;
        Some(number_at(&self.map, at))
    }

    /// Makes a task that runs ready again, and returns `true`. If no task with the number runs, it returns `false`, and
    /// nothing changes.
    ///
    /// # Complexity
    /// O(m + 1) if the hashes of the numbers are spread.
    pub fn put_back(&mut self, pid: u64) -> bool
        ensures answer { result ≡ is_some (running pid self.old) }
        ensures ready { MatchOption (running pid self.old) (self.new ≡ self.old)
            (λ x. IsReadied self.old x self.new) }
    {
        match running_spot(&self.map, pid) {
            Some(at) => {
                make_ready(&mut self.map, at);
                true
            }
            None => false,
        }
    }

    /// Does nothing when the program runs. Its contract states that no task is both ready and waiting, that each that
    /// is one of the two is a task of the table, and that those that are ready are in the order of their priorities.
    ///
    /// # Complexity
    /// O(1).
    pub fn states_agree(&self)
        ensures apart { (pid : ℕ) → IsSome (task pid self.now.ready) → task pid self.now.waiting ≡ None }
        ensures ready { (pid : ℕ) → IfSome (task pid self.now.ready) (λ x. task pid self.now.tasks ≡ Some x) }
        ensures waiting { (pid : ℕ) → IfSome (task pid self.now.waiting) (λ x. task pid self.now.tasks ≡ Some x) }
        ensures sorted { AreFrom priority 0 self.now.ready }
    {
        lists_agree(&self.map);
    }
}

impl<T: Drop, S: BuildHasher> TaskTable<T, S> {
    /// Puts a task in, which is ready. Requires fewer than `usize::MAX` tasks.
    ///
    /// # Errors
    /// If a task has the number of the node, the node is returned, and nothing changes.
    ///
    /// # Complexity
    /// O(m + 1) if the hashes of the numbers are spread.
    pub fn spawn(&mut self, node: TaskNode<T>) -> Result<(), TaskNode<T>>
        requires { length self.old.tasks < usize.MAX }
        ensures spawned { OnOk result (IsSpawned self.old node.value self.new) }
        ensures there { OnErr result (IsSome (task node.value.0 self.old.tasks)) }
        ensures returned { IfErr result (λ n. n ≡ node) }
        ensures kept { OnErr result (self.new ≡ self.old) }
    {
        lists_agree(&self.map);
        match spot_of(&self.map, node.key()) {
            Some(_) => Err(node),
            None => {
                let at = put(&mut self.map, node);
                make_ready(&mut self.map, at);
                Ok(())
            }
        }
    }

    /// Removes the task with a number, whatever it does, and returns its node, or returns `None` if there is no such
    /// task.
    ///
    /// # Complexity
    /// O(1) if the hashes of the numbers are spread.
    pub fn exit(&mut self, pid: u64) -> Option<TaskNode<T>>
        ensures answer { option_map (λ n. n.value) result ≡ task pid self.old.tasks }
        ensures left { self.new ≡ without_task pid self.old }
        ensures gone { task pid self.new.tasks ≡ None }
    {
        lists_agree(&self.map);
        let at = spot_of(&self.map, &pid)?;
        Some(take_out(&mut self.map, at))
    }
}

/// Returns the number of the task at `at`.
fn number_at<T, S: BuildHasher>(map: &Nodes<T, S>, at: Spot) -> u64
    requires { HasSpot map.now.nodes at }
    ensures { HasAt map.now (λ x. x.0 ≡ result) at }
{
    lists_agree(map);
    *map.key_at(at)
}

/// Returns the spot of the task with a number, or `None` if none with it runs.
fn running_spot<T, S: BuildHasher>(map: &Nodes<T, S>, pid: u64) -> Option<Spot>
    ensures found { MatchOption result (running pid (shown map.now) ≡ None)
        (λ p. HasAt map.now (λ x. running pid (shown map.now) ≡ Some x) p) }
    ensures there { IfSome result (λ p. HasSpot map.now.nodes p) }
    ensures not_in { IfSome result (λ p. is_in p (list_at 1 map.now.lists) ≡ false) }
{
    lists_agree(map);
    let at = spot_of(map, &pid)?;
    if map.is_linked(1, at) {
        return None;
    }
    if map.is_linked(2, at) {
        return None;
    }
    Some(at)
}

/// Makes the task at `at`, which is not ready, ready.
fn make_ready<T, S: BuildHasher>(map: &mut Nodes<T, S>, at: Spot)
    requires there { HasSpot map.old.nodes at }
    requires not_in { is_in at (list_at 1 map.old.lists) ≡ false }
    requires table { IsTable map.old }
    ensures nodes { map.new.nodes ≡ map.old.nodes }
    ensures there { HasSpot map.new.nodes at }
    ensures ready { HasAt map.old (λ x. IsReadied (shown map.old) x (shown map.new)) at }
    ensures table { IsTable map.new }
{
    lists_agree(map);
    map.ensure_unlinked(2, at);
    link_by_rank(map, 1, at);
}

/// Makes the task at `at`, which is ready, wait.
fn make_wait<T, S: BuildHasher>(map: &mut Nodes<T, S>, at: Spot)
    requires there { HasSpot map.old.nodes at }
    requires in_list { is_in at (list_at 1 map.old.lists) ≡ true }
    requires table { IsTable map.old }
    ensures waits { HasAt map.old (λ x. shown map.new ≡ waits (shown map.old) x) at }
    ensures table { IsTable map.new }
{
    lists_agree(map);
    map.unlink(1, at);
    map.link_back(2, at);
}
