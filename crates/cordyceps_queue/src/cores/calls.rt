//! The core of a queue.
ghost use Rattle.std.specs.Prelude.{◌≡◌, ◌≢◌, ◌++◌, ◌↔◌, ◌≤◌, ℕ, [], List, Some, Err, slice_get, length, IfOk, IfErr, OnOk, OnErr, IsFalse, is_ok};
ghost use Rattle.cordyceps_base.specs.Runs.{after};
ghost use Rattle.cordyceps_queue.specs.Cores.Alone.{is_ready, may_dequeue, enqueue_steps, after_dequeue, found_of, dequeue_events, Enqueued, Finds, LooksBlocked};
ghost use Rattle.cordyceps_queue.specs.Cores.Drain.{may_drain, after_batch, came_out, stop_of, batch_as_list, batch_of, oldest, NobodyPending, NobodyElse, TakesBatch};
ghost use Rattle.cordyceps_queue.specs.History.{Event, holder, held};
ghost use Rattle.cordyceps_queue.specs.Cores.Machine.{after_step, is_there, step_element, step_events};
ghost use Rattle.cordyceps_queue.specs.Cores.CoreMeets.{CoreMeets, AnswerSays, core_step, new_machine, with_party, with_room};

use crate::cores::machine::Machine;
use crate::cores::steps::{Answered, QueueStep, TryDequeueError};
use crate::cores::tries::{batch_or, found};
use cordyceps_base::shared::StepError;
use std::alloc::Global;
use std::marker::Model;

/// The core of a queue: the algorithm as a plain value, whose steps the parties take one at a time, in any order.
///
/// A contract sees its machine: the head, the right to dequeue, the rooms, and at which stage each party is. For each
/// history that the core met before a call it says which one it meets afterwards. Such a history is legal.
///
/// # Examples
/// From `examples::dequeue_around_link` of `cordyceps_uses`:
/// ```
/// let mut core: QueueCore<Job> = QueueCore::new(alloc);
/// let sender = core.add_party()?;
/// let receiver = core.add_party()?;
/// core.add_room(sender)?;
/// let _ = core.step(sender, QueueStep::Clear(Some(job)));
/// let _ = core.step(sender, QueueStep::Swap);
/// // The job is in the queue, but no link leads to it yet, so this finds `Inconsistent`.
/// let before = core.try_dequeue(receiver)?;
/// let _ = core.step(sender, QueueStep::Link);
/// let after = core.try_dequeue(receiver)?;
/// Ok((before, after))
/// ```
#[derive(Drop)]
pub struct QueueCore<E> {
    alloc: Global,
    machine: Machine<E>,
}

impl<E> Model for QueueCore<E> {
    ghost use Rattle.cordyceps_queue.specs.Cores.Machine.{Machine};
    ghost use Rattle.cordyceps_queue.specs.Cores.CoreMeets.{IsSound};

    ghost Value = { Machine E };

    ghost view = { λ c. c.machine };

    ghost invariant = { λ c. IsSound c.machine };
}

impl<E: Drop> QueueCore<E> {
    /// Creates a core without parties, rooms and elements. Allocates nothing; `alloc` is used for what is added later.
    ///
    /// # Complexity
    /// O(1).
    pub fn new(alloc: Global) -> Self
        ensures machine { result ≡ new_machine }
        ensures meets { CoreMeets [] result }
    {
        QueueCore {
            alloc,
            machine: Machine::new(alloc),
        }
    }

    /// Adds a party at rest, without rooms, and returns its number. The first number is 0.
    ///
    /// # Errors
    /// If memory is refused, it returns `Memory`, and the core is unchanged.
    ///
    /// # Complexity
    /// Amortized O(1).
    pub fn add_party(&mut self) -> Result<usize, StepError>
        ensures ok { IfOk result (λ n. (n ≡ length self.old.parties) × (self.new ≡ with_party self.old)) }
        ensures err { IfErr result (λ e. (e ≡ StepError.Memory) × (self.new ≡ self.old)) }
        ensures history { (h : List (Event ℕ E)) → CoreMeets h self.old → CoreMeets h self.new }
    {
        self.machine.add_party().map_err(|_| StepError::Memory)
    }

    /// Adds a free room to a party, at any stage.
    ///
    /// # Errors
    /// If there is no such party, it returns `NotThere`. If memory is refused, it returns `Memory`. Both leave the core
    /// unchanged.
    ///
    /// # Complexity
    /// Amortized O(1).
    pub fn add_room(&mut self, party: usize) -> Result<(), StepError>
        ensures ok { OnOk result (self.new ≡ with_room self.old party) }
        ensures err { OnErr result (self.new ≡ self.old) }
        ensures not_there { (result ≡ Err StepError.NotThere) ↔ (length self.old.parties ≤ party) }
        ensures history { (h : List (Event ℕ E)) → CoreMeets h self.old → CoreMeets h self.new }
    {
        if self.machine.stage(party).is_none() {
            return Err(StepError::NotThere);
        }
        match self.machine.add_room(party) {
            Ok(()) => Ok(()),
            Err(_) => Err(StepError::Memory),
        }
    }

    /// Takes a step of a party. Allocates nothing.
    ///
    /// # Errors
    /// If there is no such party, it is not at that step, or it has no free room for a `Clear`, it returns `NotThere`
    /// and the step's element, and the core is unchanged. It never returns `Memory`.
    ///
    /// # Complexity
    /// O(r) for `Clear` with an element, for r rooms, among which it seeks a free one. O(1) for the other steps.
    pub fn step(&mut self, party: usize, step: QueueStep<E>) -> Answered<E>
        ensures machine { self.new ≡ (after_step self.old party step).0 }
        ensures answer { result ≡ (after_step self.old party step).1 }
        ensures accepted { is_ok result ≡ is_there self.old party step }
        ensures refused { IfErr result (λ e. (e ≡ (StepError.NotThere, step_element step)) × (self.new ≡ self.old)) }
        ensures history { (h : List (Event ℕ E)) → CoreMeets h self.old
            → CoreMeets (h ++ step_events self.old party step result) self.new × AnswerSays h party result }
    {
        self.machine.act(party, step)
    }

    /// Appends an element by the steps `Clear`, `Swap` and `Link` of a party, without a step of another between.
    /// Allocates nothing.
    ///
    /// # Errors
    /// If the party is not at rest or has no free room, it returns `NotThere` and the element, and the core is
    /// unchanged.
    ///
    /// # Complexity
    /// O(r), for r rooms, among which it seeks a free one.
    pub fn enqueue(&mut self, party: usize, element: E) -> Result<(), (StepError, E)>
        ensures accepted { is_ok result ≡ is_ready self.old party }
        ensures err { IfErr result (λ e. (e ≡ (StepError.NotThere, element)) × (self.new ≡ self.old)) }
        ensures ok { OnOk result (self.new ≡ after core_step self.old (enqueue_steps party element)) }
        ensures history { OnOk result
            ((h : List (Event ℕ E)) → CoreMeets h self.old → Enqueued h party element self.new) }
    {
        if !self.machine.is_ready(party) {
            return Err((StepError::NotThere, element));
        }
        let _ = self.step(party, QueueStep::Clear(Some(element)));
        let _ = self.step(party, QueueStep::Swap);
        let _ = self.step(party, QueueStep::Link);
        Ok(())
    }

    /// Tries once to remove the oldest element by steps of a party, without a step of another between. A party at rest
    /// takes the right to dequeue first and gives it back last; one that has the right does neither. Allocates nothing.
    ///
    /// # Errors
    /// If the party is at another stage, it returns `NotThere`, and the core is unchanged. The inner error says why no
    /// element came out.
    ///
    /// # Complexity
    /// O(1).
    pub fn try_dequeue(&mut self, party: usize) -> Result<Result<E, TryDequeueError>, StepError>
        ensures accepted { is_ok result ≡ may_dequeue (slice_get self.old.parties party) }
        ensures err { IfErr result (λ e. (e ≡ StepError.NotThere) × (self.new ≡ self.old)) }
        ensures ok { IfOk result (λ found. (self.new ≡ (after_dequeue self.old party).0)
            × (found ≡ found_of (after_dequeue self.old party).1)) }
        ensures history { IfOk result (λ found. (h : List (Event ℕ E)) → CoreMeets h self.old
            → CoreMeets (h ++ dequeue_events party (slice_get self.old.parties party) found) self.new
            × Finds h party found) }
        ensures inconsistent { IfOk result (λ found. (h : List (Event ℕ E)) → CoreMeets h self.old
            → found ≡ Err TryDequeueError.Inconsistent
            → LooksBlocked h party (slice_get self.old.parties party)) }
        ensures busy { IfOk result (λ found. (h : List (Event ℕ E)) (q : ℕ) → CoreMeets h self.old
            → holder h ≡ Some q
            → party ≢ q
            → found ≡ Err TryDequeueError.Busy) }
    {
        if !self.machine.may_dequeue(party) {
            return Err(StepError::NotThere);
        }
        Ok(found(self.machine.dequeue(party)))
    }

    /// Removes up to `max` elements by tries of a party, without a step of another between, and returns them, the
    /// oldest first. A party at rest takes the right to dequeue first and gives it back last; one that has the right
    /// does neither.
    ///
    /// # Errors
    /// If the party is at another stage or `max` is 0, it returns `NotThere`. If memory is refused for `max` elements,
    /// or for all elements if these are fewer, it returns `Memory`. Both leave the core unchanged. The inner error is
    /// that of the first try, if no element came out.
    ///
    /// # Complexity
    /// O(r + p), for r rooms and p parties, through which it counts the elements, with at most one allocation.
    pub fn take_linked(
        &mut self,
        party: usize,
        max: usize,
    ) -> Result<Result<Vec<E>, TryDequeueError>, StepError>
        ensures not_there { (result ≡ Err StepError.NotThere)
            ↔ IsFalse (may_drain max (slice_get self.old.parties party)) }
        ensures err { OnErr result (self.new ≡ self.old) }
        ensures ok { IfOk result (λ batch.
            let d = after_batch party max self.old in
            (self.new ≡ d.0) × (batch_as_list batch ≡ batch_of (came_out d) (stop_of d))) }
        ensures history { OnOk result ((h : List (Event ℕ E)) → CoreMeets h self.old
            → TakesBatch h party max self.old self.new) }
        ensures all { IfOk result (λ batch. (h : List (Event ℕ E)) → CoreMeets h self.old
            → NobodyPending h
            → NobodyElse h party
            → batch_as_list batch ≡ oldest max (held h)) }
        ensures busy { IfOk result (λ batch. (h : List (Event ℕ E)) (q : ℕ) → CoreMeets h self.old
            → holder h ≡ Some q
            → party ≢ q
            → batch_as_list batch ≡ Err TryDequeueError.Busy) }
    {
        if max == 0 || !self.machine.may_dequeue(party) {
            return Err(StepError::NotThere);
        }
        let room = max.min(self.machine.count_held());
        let Ok(mut batch) = Vec::with_capacity(self.alloc, room) else {
            return Err(StepError::Memory);
        };
        let stop = self.machine.take_batch(party, &mut batch, max);
        Ok(batch_or(batch, stop))
    }
}
