//! Consumers of a shared queue, which have the right to dequeue.
//!
//! A `Right` is a party with the right and the tail's room. It cannot be dropped, so each way out of a consumer, its
//! drop among them, gives the right back. The drop has no clause on the queue, since it could speak only of the
//! consumer, which is gone.
//!
//! - A consumer pauses after it came to the queue's end (`Pace`). It is quicker than a producer, whose stores are
//!   sequentially consistent. Without pauses each element would go over alone, and each store of the producer would
//!   wait for a line that the consumer had just read: in a model 106 ns an element, where a try that takes and gives
//!   back the right takes 27.
//! - It gives rooms back when its caller says so, who knows in what numbers elements come. To do it by itself, it would
//!   need a locked instruction, and its removals have none.
//! - It has no `peek`. Only the party that has taken a slot can lend its value, and the step that takes the slot
//!   removes the element. So a caller removes an element to look at it.
//! - It splits off no party. The rule knows who has the right by the first name of its share, and a split halves that
//!   name. So split the other parties off before one of them takes the right.
ghost use Rattle.std.specs.Prelude.{◌≡◌, ◌≤◌, List, map, take, true, false, is_ok, Some, Err, MatchResult};
ghost use Rattle.cordyceps_shared.specs.Histories.{plain};
ghost use Rattle.cordyceps_shared.specs.Shares.{whole};
ghost use Rattle.cordyceps_shared.specs.Standings.{Knows, GivesBack, name_of};
ghost use Rattle.cordyceps_queue.specs.Shared.Batches.{TakesLinked};
ghost use Rattle.cordyceps_queue.specs.History.{held, holder};
ghost use Rattle.cordyceps_queue.specs.declared.cores.steps.TryDequeueError.TheVariants as error;
ghost use Rattle.cordyceps_queue.specs.Shared.Calls.{Legal, NonePending, Consumes, TakesRight, FindsBusy};
ghost use Rattle.cordyceps_queue.specs.Shared.Bell.{ClearsBell, Sleeps};
ghost use Rattle.cordyceps_queue.specs.Shared.Receipts.{Learns};
ghost use Rattle.cordyceps_queue.specs.Shared.Telling.{IsReceipt};
ghost use Rattle.cordyceps_shared.specs.Slots.{view};
ghost use Rattle.cordyceps_queue.specs.Shared.Calls.{GivesRight, IsCertain, LacksRooms};

use crate::cores::steps::TryDequeueError;
use crate::shared::batch::Batch;
use crate::shared::calls::{MpscQueue, Party};
use crate::shared::receipt::{Receipt, hear, tell};
use crate::shared::spare::Spare;
use crate::shared::table::{PartySeat, Tried, Words};
use crate::shared::uses::RoomUse;
use crate::shared::{bell, pool, steps, tries};
use cordyceps_base::linked::Linked;
use cordyceps_base::mpsc_queue::Links;
use cordyceps_shared::required;
use crossbeam_utils::Backoff;
use std::marker::Model;
use std::sync::Wait;

/// The most calls of `Backoff::spin` in one pause. Each call gives twice as many spin-loop hints as the one before, up
/// to 64.
const LONGEST_PAUSE: u32 = 13;

/// How a consumer keeps away from the producers.
///
/// One that is quicker than they are comes to the queue's end again and again. Each element would then be handed over
/// alone, and what one writes would have to wait for what the other has just read. So after a try that came to the end
/// it pauses, the longer the more often it has met an element that was not linked yet, and not at all if it has not.
#[derive(Clone, Copy)]
struct Pace {
    /// How many calls of `Backoff::spin` a pause makes.
    spins: u32,
    /// How many of them come before the next try: none, unless the last one came to the queue's end.
    due: u32,
}

impl Pace {
    /// That of a consumer that has not tried yet.
    fn new() -> Pace {
        Pace { spins: 0, due: 0 }
    }

    /// Pauses if the last try came to the queue's end.
    fn pause(self) {
        if self.due > 0 {
            let backoff = Backoff::new();
            for _ in 0..self.due {
                backoff.spin();
            }
        }
    }

    /// Returns the pace of a consumer that comes to the queue's end, and makes a pause of this many calls.
    fn at_end(spins: u32) -> Pace {
        Pace { spins, due: spins }
    }

    /// Returns the pace after a try that left the tail at this room.
    fn after<E: Drop>(self, tail: usize, tried: &Tried<E>) -> Pace {
        match tried {
            Tried::Out(_room, _item) if tail == 0 => Pace::at_end(self.spins),
            Tried::Out(_room, _item) => Pace {
                spins: self.spins,
                due: 0,
            },
            Tried::Empty => Pace::at_end(self.spins.saturating_sub(1)),
            Tried::Inconsistent => Pace::at_end(self.spins.saturating_add(1).min(LONGEST_PAUSE)),
        }
    }
}

/// A party that has the right to dequeue, and the tail's room. It cannot be dropped, so that each consumer gives the
/// right back.
pub(crate) struct Right<E: Drop> {
    seat: PartySeat<E>,
    spare: Spare,
    tail: RoomUse,
    pace: Pace,
}

impl<E: Drop> Model for Right<E> {
    ghost use Rattle.cordyceps_queue.specs.Shared.Parts.{IsConsuming, standing};
    ghost use Rattle.cordyceps_queue.specs.Shared.Uses.{HasUse};
    ghost use Rattle.cordyceps_queue.specs.Shared.Calls.{PartyOf};

    ghost Value = { PartyOf E };

    ghost view = { λ r. standing r.seat.table_id r.seat.me.0 };

    ghost invariant = { λ r. IsConsuming r.seat.table_id r.tail.room r.seat.me r.spare × HasUse r.seat.me r.tail };
}

/// Takes the right to dequeue. If another party has it, returns the party.
pub(crate) fn take_right<T: Linked<Links<T>>>(
    words: &Words<T::Handle>,
    party: Party<T>,
) -> Result<Right<T::Handle>, Party<T>>
    requires { party.table ≡ words.now.table_id }
    ensures answer { MatchResult result (λ right. TakesRight party right) (λ back. FindsBusy party back) }
    ensures whole { party.share ≡ whole → is_ok result ≡ true }
{
    let Party { mut seat, spare } = party;
    let Some(tail) = steps::take(words, &mut seat) else {
        return Err(Party { seat, spare });
    };
    Ok(Right {
        seat,
        spare,
        tail,
        pace: Pace::new(),
    })
}

/// Removes elements, the oldest first, until there are `max` or a try fails. If the first try fails, returns its error.
pub(crate) fn take_batch<T: Linked<Links<T>>>(
    words: &Words<T::Handle>,
    right: &mut Right<T::Handle>,
    max: usize,
) -> Result<Batch<T>, TryDequeueError>
    requires table { right.old.table ≡ words.now.table_id }
    requires some { 1 ≤ max }
    ensures answer { MatchResult result
        (λ batch. (es : List T.Handle) × (batch ≡ map T.element es) × TakesLinked max es right.old right.new)
        (λ why. Consumes (Err why) right.old right.new) }
    ensures whole { right.old.share ≡ whole → MatchResult result
        (λ batch. batch ≡ map T.element (take max (held (plain right.old.seen))))
        (λ why. why ≡ error.Empty) }
{
    required::a_batch_of_at_least_one(max);
    let mut batch = Batch::new();
    while batch.len() < max {
        match right.try_once(words) {
            Ok(handle) => batch.put_last(handle),
            Err(why) => return if batch.is_empty() {
                Err(why)
            } else {
                Ok(batch)
            },
        }
    }
    Ok(batch)
}

/// Gives the right to dequeue back.
pub(crate) fn give_right<T: Linked<Links<T>>>(
    words: &Words<T::Handle>,
    right: Right<T::Handle>,
) -> Party<T>
    requires { right.table ≡ words.now.table_id }
    ensures { GivesRight right result }
{
    let Right {
        mut seat,
        spare,
        tail,
        pace: _,
    } = right;
    steps::give(words, &mut seat, tail);
    Party { seat, spare }
}

impl<E: Drop> Right<E> {
    /// Returns the number of rooms that the party has. Its contract also states what is true of every party, and that
    /// its first name has the right to dequeue.
    pub fn rooms(&self) -> usize
        ensures count { result ≡ self.now.rooms }
        ensures knows { Knows (λ h. Legal h) self.now }
        ensures linked { NonePending self.now.share (plain self.now.seen) }
        ensures held { holder (plain self.now.seen) ≡ Some (name_of self.now) }
    {
        self.spare.rooms.count
    }

    /// Gives rooms to the pool.
    pub fn give_back(&mut self, words: &Words<E>, rooms: usize) -> bool
        requires table { self.old.table ≡ words.now.table_id }
        requires rooms { rooms ≤ self.old.rooms }
        ensures answer { GivesBack rooms result self.old self.new }
        ensures whole { self.old.share ≡ whole → result ≡ false → LacksRooms self.new }
    {
        required::as_many_rooms(rooms, self.rooms());
        pool::give_back(words, &mut self.seat, &mut self.spare, rooms)
    }

    /// Splits a seat off that is a receipt.
    pub fn receipt(&mut self, words: &Words<E>) -> PartySeat<E>
        requires { self.old.table ≡ words.now.table_id }
        ensures party { self.new ≡ self.old }
        ensures receipt { IsReceipt result.table_id result.me × (result.table_id ≡ words.now.table_id) }
        ensures told { plain (view result.me).known.seen ≡ plain self.old.seen }
    {
        tell(words, &mut self.seat)
    }

    /// Learns a receipt.
    pub fn learn(&mut self, words: &Words<E>, receipt: PartySeat<E>)
        requires table { self.old.table ≡ words.now.table_id }
        requires receipt { IsReceipt receipt.table_id receipt.me × (receipt.table_id ≡ words.now.table_id) }
        ensures { Learns (plain (view receipt.me).known.seen) self.old self.new }
    {
        hear(words, &mut self.seat, receipt);
    }

    /// Clears the bell.
    pub fn clear_bell(&mut self, words: &Words<E>)
        requires { self.old.table ≡ words.now.table_id }
        ensures { ClearsBell self.old self.new }
    {
        bell::clear(words, &mut self.seat);
    }

    /// Sleeps for the bell, and returns `true`. If it is rung already, returns `false` at once.
    pub fn sleep<R: Wait>(&mut self, words: &Words<E>, rt: &R) -> bool
        requires { self.old.table ≡ words.now.table_id }
        ensures { Sleeps result self.old self.new }
    {
        bell::sleep(words, rt, &mut self.seat)
    }

    /// Tries once to remove the oldest element.
    pub fn try_once(&mut self, words: &Words<E>) -> Result<E, TryDequeueError>
        requires { self.old.table ≡ words.now.table_id }
        ensures answer { Consumes result self.old self.new }
        ensures whole { self.old.share ≡ whole → IsCertain result }
    {
        self.pace.pause();
        let (tail, tried) = tries::advance(words, &mut self.seat, &mut self.spare, self.tail);
        self.tail = tail;
        self.pace = self.pace.after(tail.room, &tried);
        match tried {
            Tried::Out(_room, item) => Ok(item),
            Tried::Empty => Err(TryDequeueError::Empty),
            Tried::Inconsistent => Err(TryDequeueError::Inconsistent),
        }
    }
}

/// A party that has the right to dequeue from a queue, which it borrows. No other party dequeues meanwhile. It can be
/// sent to a thread if `T::Handle` can.
///
/// A contract sees the party. Dropping the consumer gives the right back and drops the party. Do not drop it while its
/// party has rooms: they can never be used again. `release` returns the party.
///
/// # Complexity
/// Dropping a consumer is O(1).
///
/// # Examples
/// From `tour::send` of `cordyceps_uses`:
/// ```
/// // A consumer has the right to dequeue, which one party has at a time.
/// let Ok(mut consumer) = queue.try_consume(party) else {
///     return Ok(None);
/// };
/// Ok(consumer.take_linked(16).ok())
/// ```
pub struct Consumer<'a, T: Linked<Links<T>>> {
    queue: &'a MpscQueue<T>,
    right: Right<T::Handle>,
}

impl<'a, T: Linked<Links<T>>> Model for Consumer<'a, T> {
    ghost use Rattle.std.specs.Prelude.{◌≡◌};
    ghost use Rattle.cordyceps_queue.specs.Shared.Calls.{PartyOf};

    ghost Value = { PartyOf T.Handle };

    ghost view = { λ c. c.right };

    ghost invariant = { λ c. c.right.table ≡ c.queue.now.table };
}

impl<'a, T: Linked<Links<T>>> Drop for Consumer<'a, T> {
    /// Gives the right to dequeue back by one store, and drops the party.
    ///
    /// # Complexity
    /// O(1).
    fn drop(self) {
        drop(self.release());
    }
}

impl<T: Linked<Links<T>>> MpscQueue<T> {
    /// Tries once to take the right to dequeue, and returns a consumer that has it until it ends.
    ///
    /// # Errors
    /// If another party has the right, the party is returned. To a whole party this never happens.
    ///
    /// # Complexity
    /// O(1): one swap.
    ///
    /// # Waits
    /// Never.
    pub fn try_consume(&self, party: Party<T>) -> Result<Consumer<'_, T>, Party<T>>
        requires { party.table ≡ self.now.table }
        ensures answer { MatchResult result (λ consumer. TakesRight party consumer) (λ back. FindsBusy party back) }
        ensures whole { party.share ≡ whole → is_ok result ≡ true }
    {
        match take_right(&self.rooms.shared, party) {
            Ok(right) => Ok(Consumer { queue: self, right }),
            Err(party) => Err(party),
        }
    }
}

impl<'a, T: Linked<Links<T>>> Consumer<'a, T> {
    /// Tries once to remove the oldest element and returns it. The element's room becomes the party's.
    ///
    /// # Errors
    /// It returns `Empty` if the queue had no element, and `Inconsistent` if the oldest element or the one after it is
    /// not linked yet. Each leaves the elements unchanged. `Busy` never happens, and to a whole party only `Empty`
    /// happens.
    ///
    /// # Complexity
    /// O(1).
    ///
    /// # Waits
    /// Never. After a try that came to the queue's end, the next one may pause for up to 511 spin-loop hints.
    pub fn try_dequeue(&mut self) -> Result<T::Handle, TryDequeueError>
        ensures answer { Consumes result self.old self.new }
        ensures whole { self.old.share ≡ whole → IsCertain result }
    {
        let queue = self.queue;
        self.right.try_once(&queue.rooms.shared)
    }

    /// Removes up to `max` elements and returns them, the oldest first: it calls `try_dequeue` until there are `max`
    /// elements or a call fails. Requires that `max` is at least 1. Allocates nothing.
    ///
    /// # Errors
    /// If the first call fails, its error is returned. A whole party gets all elements, up to `max`.
    ///
    /// # Complexity
    /// O(k + 1), for k elements that it returns.
    ///
    /// # Waits
    /// Never. After a try that came to the queue's end, the next one may pause for up to 511 spin-loop hints.
    ///
    /// # Examples
    /// From `logger::store_until_end` of `cordyceps_shared_uses`:
    /// ```
    /// match consumer.take_linked(max) {
    ///     Ok(batch) => {
    ///         log = store_more(log, batch);
    ///         let rooms = consumer.rooms();
    ///         consumer.give_back(rooms);
    ///     }
    ///     Err(why) => {
    ///         if is_end {
    ///             return Stored {
    ///                 party: consumer.release(),
    ///                 log,
    ///             };
    ///         }
    ///         pause(rt, &parker, why);
    ///     }
    /// }
    /// ```
    pub fn take_linked(&mut self, max: usize) -> Result<Batch<T>, TryDequeueError>
        requires { 1 ≤ max }
        ensures answer { MatchResult result
            (λ batch. (es : List T.Handle) × (batch ≡ map T.element es) × TakesLinked max es self.old self.new)
            (λ why. Consumes (Err why) self.old self.new) }
        ensures whole { self.old.share ≡ whole → MatchResult result
            (λ batch. batch ≡ map T.element (take max (held (plain self.old.seen))))
            (λ why. why ≡ error.Empty) }
    {
        let queue = self.queue;
        take_batch(&queue.rooms.shared, &mut self.right, max)
    }

    /// Returns a receipt: it tells another thread's party what this party has seen.
    ///
    /// # Complexity
    /// O(1): one load.
    ///
    /// # Waits
    /// Never.
    pub fn receipt(&mut self) -> Receipt<T>
        ensures party { self.new ≡ self.old }
        ensures receipt { (result.table ≡ self.old.table) × (result.told ≡ plain self.old.seen) }
    {
        let queue = self.queue;
        let seat = self.right.receipt(&queue.rooms.shared);
        Receipt { seat }
    }

    /// Learns a receipt: the party has then seen all that the receipt tells, and what it had seen itself.
    ///
    /// # Complexity
    /// O(1): two loads.
    ///
    /// # Waits
    /// Never.
    pub fn learn(&mut self, receipt: Receipt<T>)
        requires { receipt.table ≡ self.old.table }
        ensures { Learns receipt.told self.old self.new }
    {
        let queue = self.queue;
        let Receipt { seat } = receipt;
        self.right.learn(&queue.rooms.shared, seat);
    }

    /// Clears the bell, as `MpscQueue::clear_bell`.
    ///
    /// # Complexity
    /// O(1): one compare-exchange.
    ///
    /// # Waits
    /// Never.
    pub fn clear_bell(&mut self)
        ensures { ClearsBell self.old self.new }
    {
        let queue = self.queue;
        self.right.clear_bell(&queue.rooms.shared);
    }

    /// Sleeps until somebody rings the bell, as `MpscQueue::sleep`, and returns `true`. It may also wake for no reason.
    /// If the bell has been rung since it was last cleared, it does not sleep, and returns `false`.
    ///
    /// # Complexity
    /// O(1): one compare-exchange. If it sleeps, it also calls the kernel.
    ///
    /// # Waits
    /// For a ring.
    pub fn sleep<R: Wait>(&mut self, rt: &R) -> bool
        ensures { Sleeps result self.old self.new }
    {
        let queue = self.queue;
        self.right.sleep(&queue.rooms.shared, rt)
    }

    /// Returns the number of rooms that the party has. Its contract also states what is true of every party, and that
    /// its first name has the right to dequeue.
    ///
    /// # Complexity
    /// O(1).
    pub fn rooms(&self) -> usize
        ensures count { result ≡ self.now.rooms }
        ensures knows { Knows (λ h. Legal h) self.now }
        ensures linked { NonePending self.now.share (plain self.now.seen) }
        ensures held { holder (plain self.now.seen) ≡ Some (name_of self.now) }
    {
        self.right.rooms()
    }

    /// Gives `rooms` of the party's rooms to the pool, from where each party may take them, and returns `true`. If
    /// other rooms are in the pool, it returns `false`, and the party keeps its rooms. Requires that the party has as
    /// many rooms.
    ///
    /// # Complexity
    /// O(`rooms`), or O(1) if the party gives all its rooms or none, or finds others in the pool.
    ///
    /// # Waits
    /// Never.
    pub fn give_back(&mut self, rooms: usize) -> bool
        requires { rooms ≤ self.old.rooms }
        ensures answer { GivesBack rooms result self.old self.new }
        ensures whole { self.old.share ≡ whole → result ≡ false → LacksRooms self.new }
    {
        let queue = self.queue;
        self.right.give_back(&queue.rooms.shared, rooms)
    }

    /// Gives the right to dequeue back, and returns the party.
    ///
    /// # Complexity
    /// O(1): one store.
    ///
    /// # Waits
    /// Never.
    pub fn release(self) -> Party<T>
        ensures { GivesRight self.entry result }
    {
        let Consumer { queue, right } = self;
        give_right(&queue.rooms.shared, right)
    }
}
