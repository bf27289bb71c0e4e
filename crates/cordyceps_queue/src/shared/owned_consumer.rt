//! Consumers that share the ownership of their queue.
ghost use Rattle.std.specs.Arc.{arc_value};
ghost use Rattle.std.specs.Prelude.{◌≡◌, ◌≤◌, List, map, take, true, false, is_ok, Some, Err, MatchResult};
ghost use Rattle.cordyceps_shared.specs.Histories.{plain};
ghost use Rattle.cordyceps_shared.specs.Shares.{whole};
ghost use Rattle.cordyceps_shared.specs.Standings.{Knows, GivesBack, name_of};
ghost use Rattle.cordyceps_queue.specs.Shared.Batches.{TakesLinked};
ghost use Rattle.cordyceps_queue.specs.History.{held, holder};
ghost use Rattle.cordyceps_queue.specs.declared.cores.steps.TryDequeueError.TheVariants as error;
ghost use Rattle.cordyceps_queue.specs.Shared.Calls.{Legal, NonePending, Consumes, TakesRight, FindsBusy, GivesRight, IsCertain};
ghost use Rattle.cordyceps_queue.specs.Shared.Calls.{LacksRooms};
ghost use Rattle.cordyceps_queue.specs.Shared.Bell.{ClearsBell, Sleeps};
ghost use Rattle.cordyceps_queue.specs.Shared.Receipts.{Learns};

use crate::cores::steps::TryDequeueError;
use crate::shared::batch::Batch;
use crate::shared::calls::{MpscQueue, Party};
use crate::shared::consumer::{Right, give_right, take_batch, take_right};
use crate::shared::receipt::Receipt;
use cordyceps_base::linked::Linked;
use cordyceps_base::mpsc_queue::Links;
use std::alloc::Global;
use std::marker::Model;
use std::sync::{Arc, Wait};

/// A party that has the right to dequeue from a queue, whose ownership it shares. No other party dequeues meanwhile. It
/// can be sent to a thread if `T::Handle` can.
///
/// A contract sees the queue and the party. Dropping the consumer gives the right back, drops its reference to the
/// queue, and drops the party. Do not drop it while its party has rooms: they can never be used again. `release`
/// returns both.
///
/// # Complexity
/// Dropping a consumer is O(1), unless its reference is the last: then the queue is dropped too.
///
/// # Examples
/// From `examples::send_to_worker` of `cordyceps_uses`:
/// ```
/// let queue = Arc::new(alloc, queue)?;
/// // The consumer shares the ownership of the queue and borrows nothing, so a struct can keep it.
/// let Ok(jobs) = MpscQueue::try_consume_owned(queue, party) else {
///     return Ok(None);
/// };
/// let mut worker = Worker { jobs };
/// Ok(worker.jobs.take_linked(16).ok())
/// ```
pub struct OwnedConsumer<T: Linked<Links<T>>> {
    queue: Arc<MpscQueue<T>, Global>,
    right: Right<T::Handle>,
}

impl<T: Linked<Links<T>>> Model for OwnedConsumer<T> {
    ghost use Rattle.std.specs.Arc.{arc_value};
    ghost use Rattle.std.specs.Prelude.{◌≡◌};
    ghost use Rattle.cordyceps_queue.specs.Shared.OwnedConsumer.{OwnedOf};

    ghost Value = { OwnedOf T.Handle };

    ghost view = { λ c. record { queue = arc_value c.queue; party = c.right } };

    ghost invariant = { λ c. c.right.table ≡ (arc_value c.queue).table };
}

impl<T: Linked<Links<T>>> Drop for OwnedConsumer<T> {
    /// Gives the right to dequeue back by one store, and drops the queue's reference and the party.
    ///
    /// # Complexity
    /// O(1), and that of dropping the queue if its reference is the last.
    fn drop(self) {
        drop(self.release());
    }
}

impl<T: Linked<Links<T>>> MpscQueue<T> {
    /// Tries once to take the right to dequeue, and returns a consumer that has it until it ends and shares the
    /// ownership of the queue.
    ///
    /// # Errors
    /// If another party has the right, the queue and the party are returned. To a whole party this never happens.
    ///
    /// # Complexity
    /// O(1): one swap.
    ///
    /// # Waits
    /// Never.
    pub fn try_consume_owned(
        queue: Arc<MpscQueue<T>, Global>,
        party: Party<T>,
    ) -> Result<OwnedConsumer<T>, (Arc<MpscQueue<T>, Global>, Party<T>)>
        requires { party.table ≡ (arc_value queue).table }
        ensures answer { MatchResult result
            (λ consumer. (consumer.queue ≡ arc_value queue) × TakesRight party consumer.party)
            (λ back. (back.0 ≡ queue) × FindsBusy party back.1) }
        ensures whole { party.share ≡ whole → is_ok result ≡ true }
    {
        match take_right(&queue.rooms.shared, party) {
            Ok(right) => Ok(OwnedConsumer { queue, right }),
            Err(party) => Err((queue, party)),
        }
    }
}

impl<T: Linked<Links<T>>> OwnedConsumer<T> {
    /// Tries once to remove the oldest element and returns it. The element's room becomes the party's.
    ///
    /// # Errors
    /// It returns `Empty` if the queue had no element, and `Inconsistent` if the oldest element or the one after it is
    /// not linked yet. Each leaves the elements unchanged. `Busy` never happens, and to a whole party only `Empty`
    /// happens.
    ///
    /// # Complexity
    /// O(1).
    ///
    /// # Waits
    /// Never. It may pause as a `Consumer` does.
    pub fn try_dequeue(&mut self) -> Result<T::Handle, TryDequeueError>
        ensures queue { self.new.queue ≡ self.old.queue }
        ensures answer { Consumes result self.old.party self.new.party }
        ensures whole { self.old.party.share ≡ whole → IsCertain result }
    {
        let queue: &MpscQueue<T> = &self.queue;
        self.right.try_once(&queue.rooms.shared)
    }

    /// Removes up to `max` elements and returns them, the oldest first: it calls `try_dequeue` until there are `max`
    /// elements or a call fails. Requires that `max` is at least 1. Allocates nothing.
    ///
    /// # Errors
    /// If the first call fails, its error is returned. A whole party gets all elements, up to `max`.
    ///
    /// # Complexity
    /// O(k + 1), for k elements that it returns.
    ///
    /// # Waits
    /// Never. It may pause as a `Consumer` does.
    pub fn take_linked(&mut self, max: usize) -> Result<Batch<T>, TryDequeueError>
        requires { 1 ≤ max }
        ensures queue { self.new.queue ≡ self.old.queue }
        ensures answer { MatchResult result
            (λ batch. (es : List T.Handle) × (batch ≡ map T.element es)
            × TakesLinked max es self.old.party self.new.party)
            (λ why. Consumes (Err why) self.old.party self.new.party) }
        ensures whole { self.old.party.share ≡ whole → MatchResult result
            (λ batch. batch ≡ map T.element (take max (held (plain self.old.party.seen))))
            (λ why. why ≡ error.Empty) }
    {
        let queue: &MpscQueue<T> = &self.queue;
        take_batch(&queue.rooms.shared, &mut self.right, max)
    }

    /// Returns a receipt: it tells another thread's party what this party has seen.
    ///
    /// # Complexity
    /// O(1): one load.
    ///
    /// # Waits
    /// Never.
    pub fn receipt(&mut self) -> Receipt<T>
        ensures same { self.new ≡ self.old }
        ensures receipt { (result.table ≡ self.old.queue.table) × (result.told ≡ plain self.old.party.seen) }
    {
        let queue: &MpscQueue<T> = &self.queue;
        let seat = self.right.receipt(&queue.rooms.shared);
        Receipt { seat }
    }

    /// Learns a receipt: the party has then seen all that the receipt tells, and what it had seen itself.
    ///
    /// # Complexity
    /// O(1): two loads.
    ///
    /// # Waits
    /// Never.
    pub fn learn(&mut self, receipt: Receipt<T>)
        requires { receipt.table ≡ self.old.queue.table }
        ensures queue { self.new.queue ≡ self.old.queue }
        ensures learns { Learns receipt.told self.old.party self.new.party }
    {
        let queue: &MpscQueue<T> = &self.queue;
        let Receipt { seat } = receipt;
        self.right.learn(&queue.rooms.shared, seat);
    }

    /// Clears the bell, as `MpscQueue::clear_bell`.
    ///
    /// # Complexity
    /// O(1): one compare-exchange.
    ///
    /// # Waits
    /// Never.
    pub fn clear_bell(&mut self)
        ensures queue { self.new.queue ≡ self.old.queue }
        ensures clears { ClearsBell self.old.party self.new.party }
    {
        let queue: &MpscQueue<T> = &self.queue;
        self.right.clear_bell(&queue.rooms.shared);
    }

    /// Sleeps until somebody rings the bell, as `MpscQueue::sleep`, and returns `true`. It may also wake for no reason.
    /// If the bell has been rung since it was last cleared, it does not sleep, and returns `false`.
    ///
    /// # Complexity
    /// O(1): one compare-exchange. If it sleeps, it also calls the kernel.
    ///
    /// # Waits
    /// For a ring.
    pub fn sleep<R: Wait>(&mut self, rt: &R) -> bool
        ensures queue { self.new.queue ≡ self.old.queue }
        ensures sleeps { Sleeps result self.old.party self.new.party }
    {
        let queue: &MpscQueue<T> = &self.queue;
        self.right.sleep(&queue.rooms.shared, rt)
    }

    /// Returns the number of rooms that the party has. Its contract also states what is true of every party, and that
    /// its first name has the right to dequeue.
    ///
    /// # Complexity
    /// O(1).
    pub fn rooms(&self) -> usize
        ensures count { result ≡ self.now.party.rooms }
        ensures knows { Knows (λ h. Legal h) self.now.party }
        ensures linked { NonePending self.now.party.share (plain self.now.party.seen) }
        ensures held { holder (plain self.now.party.seen) ≡ Some (name_of self.now.party) }
    {
        self.right.rooms()
    }

    /// Gives `rooms` of the party's rooms to the pool, as a `Consumer` does.
    ///
    /// # Complexity
    /// O(`rooms`), or O(1) if the party gives all its rooms or none, or finds others in the pool.
    ///
    /// # Waits
    /// Never.
    pub fn give_back(&mut self, rooms: usize) -> bool
        requires { rooms ≤ self.old.party.rooms }
        ensures queue { self.new.queue ≡ self.old.queue }
        ensures answer { GivesBack rooms result self.old.party self.new.party }
        ensures whole { self.old.party.share ≡ whole → result ≡ false → LacksRooms self.new.party }
    {
        let queue: &MpscQueue<T> = &self.queue;
        self.right.give_back(&queue.rooms.shared, rooms)
    }

    /// Gives the right to dequeue back, and returns the queue and the party.
    ///
    /// # Complexity
    /// O(1): one store.
    ///
    /// # Waits
    /// Never.
    pub fn release(self) -> (Arc<MpscQueue<T>, Global>, Party<T>)
        ensures { (arc_value result.0 ≡ self.queue) × GivesRight self.party result.1 }
    {
        let OwnedConsumer { queue, right } = self;
        let party = give_right(&queue.rooms.shared, right);
        (queue, party)
    }
}
