//! Calls of one party, by its steps.
ghost use Rattle.std.specs.Prelude.{◌≡◌, ◌≤◌, ◌⊎◌, ℕ, [], List, Some, length, slice_get, true, vec_capacity};
ghost use Rattle.cordyceps_queue.specs.Cores.Alone.{next_step, is_done, found_of, tries, after_dequeue, may_dequeue, is_ready};
ghost use Rattle.cordyceps_queue.specs.Cores.CoreMeets.{CoreMeets, IsSound};
ghost use Rattle.cordyceps_queue.specs.Cores.Drain.{batch_as_list, batch_of, after_drain, after_drain_at};
ghost use Rattle.cordyceps_queue.specs.History.{Event, held};

use crate::cores::machine::Machine;
use crate::cores::stage::Stage;
use crate::cores::steps::{Answered, QueueAnswer, QueueStep, TryDequeueError};

/// Returns the step that a try to dequeue takes at a stage.
fn next_step<E>(stage: Option<Stage>) -> QueueStep<E>
    ensures { result ≡ next_step stage }
{
    match stage {
        Some(Stage::StubNull | Stage::Null(_)) => QueueStep::ReadHead,
        Some(Stage::PutClear(_)) => QueueStep::Clear(None),
        Some(Stage::PutSwap(_)) => QueueStep::Swap,
        Some(Stage::PutLink(_, _)) => QueueStep::Link,
        _ => QueueStep::ReadNext,
    }
}

/// Returns `true` if a try goes on.
fn is_done<E>(answer: &Answered<E>) -> bool
    ensures { result ≡ is_done answer.now }
{
    matches!(answer, Ok(QueueAnswer::Done))
}

/// Returns the outcome of a try to dequeue, from the result of its last step.
pub(crate) fn found<E: Drop>(answer: Answered<E>) -> Result<E, TryDequeueError>
    ensures { result ≡ found_of answer }
{
    match answer {
        Ok(QueueAnswer::Out(element)) => Ok(element),
        Ok(QueueAnswer::Empty) => Err(TryDequeueError::Empty),
        Ok(QueueAnswer::Busy) => Err(TryDequeueError::Busy),
        _ => Err(TryDequeueError::Inconsistent),
    }
}

/// Returns the batch, or why the first try failed if the batch is empty.
pub(crate) fn batch_or<E: Drop>(
    batch: Vec<E>,
    stop: Option<TryDequeueError>,
) -> Result<Vec<E>, TryDequeueError>
    ensures { batch_as_list result ≡ batch_of batch.items stop }
{
    match stop {
        Some(why) if batch.is_empty() => Err(why),
        _ => Ok(batch),
    }
}

impl<E: Drop> Machine<E> {
    /// Returns `true` if the party is at rest and has a free room.
    pub(crate) fn is_ready(&self, party: usize) -> bool
        ensures { result ≡ is_ready self.now party }
    {
        matches!(self.stage(party), Some(Stage::Rest)) && self.has_room(party)
    }

    /// Returns `true` if the party is at a stage from which it may dequeue.
    pub(crate) fn may_dequeue(&self, party: usize) -> bool
        ensures { result ≡ may_dequeue (slice_get self.now.parties party) }
    {
        matches!(self.stage(party), Some(Stage::Rest | Stage::Holding(_)))
    }

    /// Takes the steps of a try by the party that has the right, which are at most seven.
    fn try_holding(&mut self, party: usize) -> Answered<E>
        requires { IsSound self.old }
        ensures { (self.new, result) ≡ tries party 6 self.old }
    {
        for _ in 0..6usize {
            let answer = self.act(party, next_step(self.stage(party)));
            if !is_done(&answer) {
                return answer;
            }
        }
        self.act(party, next_step(self.stage(party)))
    }

    /// Tries to dequeue. A party at rest takes the right first and gives it back last.
    pub(crate) fn dequeue(&mut self, party: usize) -> Answered<E>
        requires { IsSound self.old }
        ensures { (self.new, result) ≡ after_dequeue self.old party }
    {
        let Some(Stage::Rest) = self.stage(party) else {
            return self.try_holding(party);
        };
        match self.act(party, QueueStep::Take) {
            Ok(QueueAnswer::Taken) => {
                let answer = self.try_holding(party);
                let _ = self.act(party, QueueStep::Give);
                answer
            }
            answer => answer,
        }
    }

    /// Tries one after the other, as the party that has the right, until the batch has `max` elements or a try fails,
    /// and returns why it failed. The batch is empty at first.
    fn drain(&mut self, party: usize, batch: &mut Vec<E>, max: usize) -> Option<TryDequeueError>
        requires holding { (t : ℕ) × (slice_get self.old.parties party ≡ Some (Stage.Holding t)) }
        requires empty { batch.old.items ≡ [] }
        requires room { (h : List (Event ℕ E)) × CoreMeets h self.old
            × ((max ≤ vec_capacity batch.old) ⊎ (length (held h) ≤ vec_capacity batch.old)) }
        ensures { (self.new, batch.new.items, result) ≡ after_drain party max self.old }
    {
        while batch.len() < max {
            match found(self.try_holding(party)) {
                Ok(element) => batch.push_reserved(element),
                Err(why) => return Some(why),
            }
        }
        None
    }

    /// Takes a batch as `drain` does, from any stage from which a party may dequeue. A party at rest takes the right
    /// first and gives it back last.
    pub(crate) fn take_batch(
        &mut self,
        party: usize,
        batch: &mut Vec<E>,
        max: usize,
    ) -> Option<TryDequeueError>
        requires stage { may_dequeue (slice_get self.old.parties party) ≡ true }
        requires empty { batch.old.items ≡ [] }
        requires room { (h : List (Event ℕ E)) × CoreMeets h self.old
            × ((max ≤ vec_capacity batch.old) ⊎ (length (held h) ≤ vec_capacity batch.old)) }
        ensures { (self.new, batch.new.items, result)
            ≡ after_drain_at party max self.old (slice_get self.old.parties party) }
    {
        let Some(Stage::Rest) = self.stage(party) else {
            return self.drain(party, batch, max);
        };
        match self.act(party, QueueStep::Take) {
            Ok(QueueAnswer::Taken) => {
                let stop = self.drain(party, batch, max);
                let _ = self.act(party, QueueStep::Give);
                stop
            }
            _ => Some(TryDequeueError::Busy),
        }
    }
}
