//! The calls of a shared queue that may wait.
ghost use Rattle.std.specs.Arc.{arc_value};
ghost use Rattle.std.specs.Prelude.{◌≡◌, ◌≢◌, true, false, Err};
ghost use Rattle.cordyceps_shared.specs.Shares.{whole};
ghost use Rattle.cordyceps_queue.specs.Shared.Calls.{AtLast, IsSame, MissesDequeue, Dequeues, Consumes, FindsBusy, TakesRight, try_result};
ghost use Rattle.cordyceps_queue.specs.Shared.Calls.{FindsFull, EnqueuesRefilled, GivesAllBack};
ghost use Rattle.cordyceps_queue.specs.declared.cores.steps.TryDequeueError.TheVariants as error;

use crate::cores::steps::TryDequeueError;
use crate::shared::calls::{MpscQueue, Party};
use crate::shared::consumer::Consumer;
use crate::shared::owned_consumer::OwnedConsumer;
use cordyceps_base::linked::Linked;
use cordyceps_base::mpsc_queue::Links;
use crossbeam_utils::Backoff;
use std::alloc::Global;
use std::sync::{Arc, Wait};

/// Returns `true` if a try found no element, which ends a call that waits.
fn found_nothing(why: TryDequeueError) -> bool
    ensures yes { result ≡ true → why ≡ error.Empty }
    ensures no { result ≡ false → why ≢ error.Empty }
{
    matches!(why, TryDequeueError::Empty)
}

impl<T: Linked<Links<T>>> MpscQueue<T> {
    /// Puts an element in, as `try_enqueue` does, and waits while the party has no room and the pool has none.
    ///
    /// # Complexity
    /// O(t), for t tries, each as that of `try_enqueue`.
    ///
    /// # Waits
    /// For another party to give rooms to the pool. It pauses between its tries. If none gives any, it never returns.
    ///
    /// # Examples
    /// From `mailbox::send_values` of `cordyceps_shared_uses`:
    /// ```
    /// queue.enqueue_waiting(rt, party, letter(alloc, *value)?);
    /// queue.ring(party);
    /// ```
    pub fn enqueue_waiting<R: Wait>(&self, rt: &R, party: &mut Party<T>, handle: T::Handle)
        requires { party.old.table ≡ self.now.table }
        ensures same { IsSame party.old party.new }
        ensures answer { AtLast FindsFull (EnqueuesRefilled handle) party.old party.new }
    {
        let backoff = Backoff::new();
        let mut handle = handle;
        for _ in rt.forever() {
            match self.try_enqueue(party, handle) {
                Ok(()) => return,
                Err(back) => handle = back,
            }
            backoff.snooze();
        }
        unreachable!()
    }

    /// Gives all rooms of the party to the pool, as `give_all_back` does, until that returns `true`. A party that ends
    /// calls it before it is absorbed or dropped.
    ///
    /// # Complexity
    /// O(t), for t tries, each as that of `give_all_back`.
    ///
    /// # Waits
    /// While other parties give rooms back at each of its tries. It pauses between its tries. A whole party succeeds at
    /// its first try.
    ///
    /// # Examples
    /// From `mailbox::send_all` of `cordyceps_shared_uses`:
    /// ```
    /// let result = send_values(rt, alloc, queue, &mut party, values);
    /// queue.give_all_back_waiting(rt, &mut party);
    /// ```
    pub fn give_all_back_waiting<R: Wait>(&self, rt: &R, party: &mut Party<T>)
        requires { party.old.table ≡ self.now.table }
        ensures same { IsSame party.old party.new }
        ensures answer { AtLast (GivesAllBack false) (GivesAllBack true) party.old party.new }
        ensures whole { party.old.share ≡ whole → GivesAllBack true party.old party.new }
    {
        let backoff = Backoff::new();
        for _ in rt.forever() {
            if self.give_all_back(party) {
                return;
            }
            backoff.snooze();
        }
        unreachable!()
    }

    /// Removes the oldest element and returns it, or `None` if the queue had none. The element's room becomes the
    /// party's.
    ///
    /// # Complexity
    /// O(t), for t tries, each as that of `try_dequeue`.
    ///
    /// # Waits
    /// For another party that has the right to dequeue, and for the producer that has yet to link the oldest element or
    /// the one after it. It pauses between its tries. If these never finish, it never returns. A whole party succeeds
    /// at its first try.
    pub fn dequeue<R: Wait>(&self, rt: &R, party: &mut Party<T>) -> Option<T::Handle>
        requires { party.old.table ≡ self.now.table }
        ensures same { IsSame party.old party.new }
        ensures answer { AtLast MissesDequeue (Dequeues (try_result result)) party.old party.new }
        ensures whole { party.old.share ≡ whole → Dequeues (try_result result) party.old party.new }
    {
        let backoff = Backoff::new();
        for _ in rt.forever() {
            match self.try_dequeue(party) {
                Ok(handle) => return Some(handle),
                Err(why) => {
                    if found_nothing(why) {
                        return None;
                    }
                }
            }
            backoff.snooze();
        }
        unreachable!()
    }

    /// Takes the right to dequeue, and returns a consumer that has it.
    ///
    /// # Complexity
    /// O(t), for t tries, each as that of `try_consume`.
    ///
    /// # Waits
    /// For another party that has the right to dequeue. It pauses between its tries. If that party never gives the
    /// right back, it never returns. A whole party succeeds at its first try.
    pub fn consume<R: Wait>(&self, rt: &R, party: Party<T>) -> Consumer<'_, T>
        requires { party.table ≡ self.now.table }
        ensures same { IsSame party result }
        ensures answer { AtLast FindsBusy TakesRight party result }
        ensures whole { party.share ≡ whole → TakesRight party result }
    {
        let backoff = Backoff::new();
        let mut party = party;
        for _ in rt.forever() {
            match self.try_consume(party) {
                Ok(consumer) => return consumer,
                Err(back) => party = back,
            }
            backoff.snooze();
        }
        unreachable!()
    }

    /// Takes the right to dequeue, and returns a consumer that has it and shares the ownership of the queue.
    ///
    /// # Complexity
    /// O(t), for t tries, each as that of `try_consume_owned`.
    ///
    /// # Waits
    /// As `consume`.
    pub fn consume_owned<R: Wait>(
        rt: &R,
        queue: Arc<MpscQueue<T>, Global>,
        party: Party<T>,
    ) -> OwnedConsumer<T>
        requires { party.table ≡ (arc_value queue).table }
        ensures queue { result.queue ≡ arc_value queue }
        ensures same { IsSame party result.party }
        ensures answer { AtLast FindsBusy TakesRight party result.party }
        ensures whole { party.share ≡ whole → TakesRight party result.party }
    {
        let backoff = Backoff::new();
        let mut both = (queue, party);
        for _ in rt.forever() {
            match MpscQueue::try_consume_owned(both.0, both.1) {
                Ok(consumer) => return consumer,
                Err(back) => both = back,
            }
            backoff.snooze();
        }
        unreachable!()
    }
}

impl<'a, T: Linked<Links<T>>> Consumer<'a, T> {
    /// Removes the oldest element and returns it, or `None` if the queue had none. The element's room becomes the
    /// party's.
    ///
    /// # Complexity
    /// O(t), for t tries, each as that of `try_dequeue`.
    ///
    /// # Waits
    /// For the producer that has yet to link the oldest element or the one after it. It pauses between its tries. If
    /// the producer never finishes, it never returns. A whole party succeeds at its first try.
    pub fn dequeue<R: Wait>(&mut self, rt: &R) -> Option<T::Handle>
        ensures same { IsSame self.old self.new }
        ensures answer { AtLast (Consumes (Err error.Inconsistent)) (Consumes (try_result result)) self.old self.new }
        ensures whole { self.old.share ≡ whole → Consumes (try_result result) self.old self.new }
    {
        let backoff = Backoff::new();
        for _ in rt.forever() {
            match self.try_dequeue() {
                Ok(first) => return Some(first),
                Err(why) => {
                    if found_nothing(why) {
                        return None;
                    }
                }
            }
            backoff.snooze();
        }
        unreachable!()
    }
}

impl<T: Linked<Links<T>>> OwnedConsumer<T> {
    /// Removes the oldest element and returns it, or `None` if the queue had none. The element's room becomes the
    /// party's.
    ///
    /// # Complexity
    /// O(t), for t tries, each as that of `try_dequeue`.
    ///
    /// # Waits
    /// For the producer that has yet to link the oldest element or the one after it. It pauses between its tries. If
    /// the producer never finishes, it never returns. A whole party succeeds at its first try.
    pub fn dequeue<R: Wait>(&mut self, rt: &R) -> Option<T::Handle>
        ensures queue { self.new.queue ≡ self.old.queue }
        ensures same { IsSame self.old.party self.new.party }
        ensures answer { AtLast (Consumes (Err error.Inconsistent)) (Consumes (try_result result)) self.old.party
            self.new.party }
        ensures whole { self.old.party.share ≡ whole → Consumes (try_result result) self.old.party self.new.party }
    {
        let backoff = Backoff::new();
        for _ in rt.forever() {
            match self.try_dequeue() {
                Ok(oldest) => return Some(oldest),
                Err(why) => {
                    if found_nothing(why) {
                        return None;
                    }
                }
            }
            backoff.snooze();
        }
        unreachable!()
    }
}
