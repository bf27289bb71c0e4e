//! The queue that threads share.
ghost use Rattle.std.specs.Prelude.{◌≡◌, ◌<◌, ◌≤◌, [], map, max, true, false, Option, Some, None, MatchResult, IfOk, IfErr};
ghost use Rattle.cordyceps_shared.specs.Histories.{plain};
ghost use Rattle.cordyceps_shared.specs.Shares.{whole};
ghost use Rattle.cordyceps_shared.specs.Standings.{new_party, keeping, giving, Knows, Absorbs, GivesBack};
ghost use Rattle.cordyceps_queue.specs.History.{held};
ghost use Rattle.cordyceps_queue.specs.Shared.Calls.{Legal, NonePending, NoneHolds, Enqueues, Dequeues, IsCertain};
ghost use Rattle.cordyceps_queue.specs.Shared.Calls.{capacity, Adds, Refills, GivesAllBack, HasAllRooms, LacksRooms};
ghost use Rattle.cordyceps_queue.specs.Shared.Calls.{EnqueuesRefilled, FindsFull};

use crate::cores::steps::TryDequeueError;
use crate::shared::batch::Batch;
use crate::shared::pool::MORE_TRIES;
use crate::shared::spare::Spare;
use crate::shared::table::{OwnedTable, PartySeat, Tried};
use crate::shared::vault::Vault;
use crate::shared::{parting, pool, steps, tries};
use cordyceps_base::linked::Linked;
use cordyceps_base::mpsc_queue::Links;
use cordyceps_base::node::Refused;
use cordyceps_base::shared::MAX_ROOMS;
use cordyceps_shared::free::FreeRooms;
use cordyceps_shared::pool::QUANTUM;
use cordyceps_shared::required;
use std::alloc::{AllocError, AllocFailed, Global};
use std::marker::Model;

/// A queue that threads share without a lock: many put elements in, and one at a time takes them out.
///
/// Its maker chooses the number of its rooms. A room is a permit to insert one element: inserting spends one, and
/// whoever removes the element gets it. Each call is made through a party of this queue, which has some of the rooms.
/// Rooms that no party has are in the pool: `give_back` puts them there, and `refill`, `refill_at_most` and
/// `try_enqueue` take them.
/// Calls allocate nothing, except the constructors. A handle that is put in comes out as the same element, first in,
/// first out. A party dequeues by the right to do so, which one party has at a time.
///
/// A contract sees the queue's table, by which it knows the parties of this queue: their `table` is the same; and the
/// stub. It sees no contents; what happened to the queue is told by what its parties have seen, their observed prefix
/// of its history.
///
/// The algorithm is Vyukov's 'Intrusive MPSC node-based queue'
/// (<https://www.1024cores.net/home/lock-free-algorithms/queues/intrusive-mpsc-node-based-queue>), and the interface
/// that of `MpscQueue` in the Rust crate `cordyceps`. Unlike these, it never returns `Empty` when an element was put in
/// and is not linked yet.
///
/// # Threads
/// A call borrows its party mutably, so one thread at a time acts through a party. All calls of different parties may
/// run at the same time, except `close` and the queue's drop: these take the queue, when no other thread has it. One
/// party at a time has the right to dequeue, so there is one consumer at a time. Where two calls want the same, this is
/// what each gets:
///
/// | calls at the same time | what each gets |
/// |---|---|
/// | two of `enqueue` | both put their elements in, and neither waits |
/// | `enqueue`, a try to dequeue | the oldest element comes out, or `Inconsistent` says that a link is not there yet |
/// | two of `try_dequeue`, `try_consume` | one gets the right to dequeue; the other gets `Busy`, or its party back |
/// | two of `dequeue`, `consume` | one gets the right to dequeue; the other waits for it |
/// | two of `refill` | one gets the rooms of the pool; the other finds none |
/// | two of `refill_at_most`, `try_enqueue` | one gets rooms of the pool; the other finds what is left, or none |
/// | two of `give_back` | one puts its rooms into the pool; the other returns `false` |
/// | two of `give_all_back` | one puts its rooms into the pool; the other takes these and puts all there |
///
/// # Complexity
/// Dropping the queue drops its elements and the stub: O(r), for r rooms.
///
/// # Examples
/// From `tour::send` of `cordyceps_uses`:
/// ```
/// let (queue, mut party) = MpscQueue::<Job>::new(alloc, 8)?;
/// let mut sender = queue.split(&mut party, 4);
/// queue.enqueue(&mut sender, first);
/// queue.enqueue(&mut sender, second);
/// // When the sender has ended, the party absorbs it, and has its rooms and its history.
/// queue.absorb(&mut party, sender);
/// // A consumer has the right to dequeue, which one party has at a time.
/// let Ok(mut consumer) = queue.try_consume(party) else {
///     return Ok(None);
/// };
/// Ok(consumer.take_linked(16).ok())
/// ```
#[derive(Drop)]
pub struct MpscQueue<T: Linked<Links<T>>> {
    pub(crate) rooms: OwnedTable<T::Handle>,
    stub: Option<Vault<T::Handle>>,
}

impl<T: Linked<Links<T>>> Model for MpscQueue<T> {
    ghost use Rattle.cordyceps_queue.specs.Shared.Rule.{IsTable};
    ghost use Rattle.cordyceps_queue.specs.Shared.Calls.{QueueOf};

    ghost Value = { QueueOf T.Handle };

    ghost view = { λ q. record { table = q.rooms.shared.table_id; stub = q.stub } };

    ghost invariant = { λ q. IsTable q.rooms.shared.table_id };
}

/// A handle through which a thread acts on one queue, with a number of rooms. It can be sent to a thread if `T::Handle`
/// can.
///
/// A contract sees the table of its queue, what it has seen (the observed prefix of the history, with a mark at its own
/// events), its share (its permission: which part of the names of events it has), and the number of its rooms. A party
/// whose share is the empty word alone is whole: it has the full permission, and has absorbed all parties that were
/// split off.
///
/// Do not drop a party that has rooms: they can never be used again. After the drop of any party none is whole, so
/// `close` can no longer be called.
///
/// # Complexity
/// Dropping a party is O(1).
///
/// # Examples
/// From `tour::send` of `cordyceps_uses`:
/// ```
/// let mut sender = queue.split(&mut party, 4);
/// queue.enqueue(&mut sender, first);
/// queue.enqueue(&mut sender, second);
/// // When the sender has ended, the party absorbs it, and has its rooms and its history.
/// queue.absorb(&mut party, sender);
/// ```
#[derive(Drop)]
pub struct Party<T: Linked<Links<T>>> {
    pub(crate) seat: PartySeat<T::Handle>,
    pub(crate) spare: Spare,
}

impl<T: Linked<Links<T>>> Model for Party<T> {
    ghost use Rattle.cordyceps_queue.specs.Shared.Parts.{IsSeated, standing};
    ghost use Rattle.cordyceps_queue.specs.Shared.Calls.{PartyOf};

    ghost Value = { PartyOf T.Handle };

    ghost view = { λ p. standing p.seat.table_id p.seat.me.0 };

    ghost invariant = { λ p. IsSeated p.seat.table_id p.seat.me p.spare };
}

impl<T: Linked<Links<T>>> Party<T> {
    /// Returns the number of rooms that the party has: it can put in as many elements before it takes some out.
    ///
    /// Its contract also states what is true of every party: what it has seen is legal, and a whole party has seen only
    /// its own events. None of its names is a prefix of another, has an element that is not linked yet, or has the
    /// right to dequeue.
    ///
    /// # Complexity
    /// O(1).
    pub fn rooms(&self) -> usize
        ensures count { result ≡ self.now.rooms }
        ensures knows { Knows (λ h. Legal h) self.now }
        ensures linked { NonePending self.now.share (plain self.now.seen) }
        ensures unheld { NoneHolds self.now.share (plain self.now.seen) }
    {
        self.spare.rooms.count
    }
}

impl<T: Linked<Links<T>>> MpscQueue<T> {
    /// Creates an empty queue with `rooms` rooms, and the party that has them all, which is whole. Its stub is a
    /// further room, without a node. Requires that `rooms` is at most `MAX_ROOMS`.
    ///
    /// # Errors
    /// If memory is refused, it returns `AllocError`, and nothing is kept.
    ///
    /// # Complexity
    /// O(`rooms`), with four allocations.
    pub fn new(alloc: Global, rooms: usize) -> Result<(MpscQueue<T>, Party<T>), AllocError>
        requires { rooms ≤ MAX_ROOMS }
        ensures { IfOk result (λ made. (made.0.stub ≡ None) × (made.1 ≡ new_party made.0.table rooms)
            × (capacity made.0.table ≡ rooms)) }
    {
        required::at_most_max_rooms(rooms);
        let spare = Spare {
            rooms: FreeRooms {
                first: rooms as u64 + 1,
                last: 1,
                count: rooms,
            },
            end: 1,
        };
        let (rooms, seat) = parting::open(alloc, rooms)?;
        Ok((MpscQueue { rooms, stub: None }, Party { seat, spare }))
    }

    /// Creates an empty queue as `new` does, with a stub that the caller provides and that `close` returns.
    ///
    /// # Errors
    /// If memory is refused, it returns `Refused` with the stub.
    ///
    /// # Complexity
    /// That of `new`, with three more allocations.
    pub fn new_with_stub(
        alloc: Global,
        stub: T::Handle,
        rooms: usize,
    ) -> Result<(MpscQueue<T>, Party<T>), Refused<T::Handle>>
        requires { rooms ≤ MAX_ROOMS }
        ensures { MatchResult result
            (λ made. (made.0.stub ≡ Some stub) × (made.1 ≡ new_party made.0.table rooms)
            × (capacity made.0.table ≡ rooms))
            (λ refused. refused.value ≡ stub) }
    {
        let Ok((queue, party)) = MpscQueue::new(alloc, rooms) else {
            return Err(Refused { value: stub });
        };
        let MpscQueue { rooms, stub: _ } = queue;
        match Vault::new(alloc, stub) {
            Ok(vault) => {
                let queue = MpscQueue {
                    rooms,
                    stub: Some(vault),
                };
                Ok((queue, party))
            }
            Err(AllocFailed { value }) => Err(Refused { value }),
        }
    }

    /// Appends an element to the queue. Requires that the party has a room, which the element then uses.
    ///
    /// # Complexity
    /// O(1): one swap of the head, and steps on the room and the old head's link.
    ///
    /// # Waits
    /// Never.
    pub fn enqueue(&self, party: &mut Party<T>, handle: T::Handle)
        requires table { party.old.table ≡ self.now.table }
        requires room { 0 < party.old.rooms }
        ensures { Enqueues handle party.old party.new }
    {
        required::a_free_room(party.rooms());
        steps::enqueue(
            &self.rooms.shared,
            &mut party.seat,
            &mut party.spare,
            handle,
        );
    }

    /// Appends an element to the queue. If the party has no room, it takes at most `QUANTUM` of the pool first, as
    /// `refill_at_most` does.
    ///
    /// # Errors
    /// If the party has no room and the pool has none, the element is returned. Where a whole party finds that, each
    /// room of the queue has an element.
    ///
    /// # Complexity
    /// O(1): that of `enqueue`, and of `refill_at_most` with `QUANTUM` if the party has no room.
    ///
    /// # Waits
    /// Never.
    ///
    /// # Examples
    /// From `MpscQueue::enqueue_waiting` of `cordyceps_queue`:
    /// ```
    /// match self.try_enqueue(party, handle) {
    ///     Ok(()) => return,
    ///     Err(back) => handle = back,
    /// }
    /// ```
    pub fn try_enqueue(&self, party: &mut Party<T>, handle: T::Handle) -> Result<(), T::Handle>
        requires { party.old.table ≡ self.now.table }
        ensures answer { MatchResult result
            (λ _. EnqueuesRefilled handle party.old party.new)
            (λ back. (back ≡ handle) × FindsFull party.old party.new) }
        ensures few { party.old.share ≡ whole → party.new.rooms ≤ max party.old.rooms QUANTUM }
        ensures whole { party.old.share ≡ whole → IfErr result (λ _. HasAllRooms party.new) }
    {
        if party.rooms() == 0 && self.refill_at_most(party, QUANTUM) == 0 {
            return Err(handle);
        }
        self.enqueue(party, handle);
        Ok(())
    }

    /// Tries once to remove the oldest element and returns it: it takes the right to dequeue, tries, and gives the
    /// right back. The element's room becomes the party's.
    ///
    /// # Errors
    /// It returns `Empty` if the queue had no element, `Inconsistent` if the oldest element or the one after it is not
    /// linked yet, and `Busy` if another party has the right to dequeue. Each leaves the elements unchanged. To a whole
    /// party only `Empty` happens.
    ///
    /// # Complexity
    /// O(1).
    ///
    /// # Waits
    /// Never.
    pub fn try_dequeue(&self, party: &mut Party<T>) -> Result<T::Handle, TryDequeueError>
        requires { party.old.table ≡ self.now.table }
        ensures answer { Dequeues result party.old party.new }
        ensures whole { party.old.share ≡ whole → IsCertain result }
    {
        match tries::try_dequeue(&self.rooms.shared, &mut party.seat, &mut party.spare) {
            Some(Tried::Out(_room, item)) => Ok(item),
            Some(Tried::Empty) => Err(TryDequeueError::Empty),
            Some(Tried::Inconsistent) => Err(TryDequeueError::Inconsistent),
            None => Err(TryDequeueError::Busy),
        }
    }

    /// Takes all rooms of the pool, which become the party's, and returns how many they are.
    ///
    /// A whole party then has each room of the queue that has no element in it.
    ///
    /// # Complexity
    /// O(1): one swap, and a store and a load of links if there are rooms.
    ///
    /// # Waits
    /// Never.
    pub fn refill(&self, party: &mut Party<T>) -> usize
        requires { party.old.table ≡ self.now.table }
        ensures answer { Refills result party.old party.new }
        ensures whole { party.old.share ≡ whole → HasAllRooms party.new }
    {
        pool::refill(&self.rooms.shared, &mut party.seat, &mut party.spare)
    }

    /// Takes at most `most` rooms of the pool, which become the party's, and returns how many they are. The others stay
    /// in the pool for other parties.
    ///
    /// It takes all and gives what is above `most` back at once. If another party gives rooms back between the two, it
    /// tries that again, up to 8 times, and then keeps what it took. So it can take more than `most` only while others
    /// give rooms back. A whole party never does, and if it takes fewer, it has each room of the queue that has no
    /// element in it.
    ///
    /// # Complexity
    /// O(k), for the k rooms that the party then has, and O(1) where the pool has at most `most`.
    ///
    /// # Waits
    /// Never.
    pub fn refill_at_most(&self, party: &mut Party<T>, most: usize) -> usize
        requires { party.old.table ≡ self.now.table }
        ensures answer { Refills result party.old party.new }
        ensures few { party.old.share ≡ whole → result ≤ most }
        ensures whole { party.old.share ≡ whole → result < most → HasAllRooms party.new }
    {
        pool::refill_at_most(&self.rooms.shared, &mut party.seat, &mut party.spare, most)
    }

    /// Gives `rooms` of the party's rooms to the pool, from where each party may take them, and returns `true`. If
    /// other rooms are in the pool, it returns `false`, and the party keeps its rooms. A whole party that has every
    /// room without an element always gets `true`. Requires that the party has as many rooms.
    ///
    /// # Complexity
    /// O(`rooms`), or O(1) if the party gives all its rooms or none, or finds others in the pool.
    ///
    /// # Waits
    /// Never.
    ///
    /// # Examples
    /// Here a receiver puts all rooms into the pool, from where `try_enqueue` of the senders takes them.
    ///
    /// From `mailbox::deliver` of `cordyceps_shared_uses`:
    /// ```
    /// let (queue, mut receiver) = MpscQueue::new(alloc, rooms)?;
    /// queue.give_back(&mut receiver, rooms);
    /// let sender = queue.split(&mut receiver, 0);
    /// ```
    pub fn give_back(&self, party: &mut Party<T>, rooms: usize) -> bool
        requires table { party.old.table ≡ self.now.table }
        requires rooms { rooms ≤ party.old.rooms }
        ensures answer { GivesBack rooms result party.old party.new }
        ensures whole { party.old.share ≡ whole → result ≡ false → LacksRooms party.new }
    {
        required::as_many_rooms(rooms, party.rooms());
        pool::give_back(&self.rooms.shared, &mut party.seat, &mut party.spare, rooms)
    }

    /// Gives all rooms of the party to the pool, together with those that are there, and returns `true`. A party that
    /// ends calls it before it is absorbed or dropped.
    ///
    /// It returns `false` only if other parties gave rooms back each of 8 times that it tried. The party then has no
    /// fewer rooms than before, so call it again. A whole party always gets `true`.
    ///
    /// # Complexity
    /// O(1).
    ///
    /// # Waits
    /// Never.
    pub fn give_all_back(&self, party: &mut Party<T>) -> bool
        requires { party.old.table ≡ self.now.table }
        ensures answer { GivesAllBack result party.old party.new }
        ensures whole { party.old.share ≡ whole → result ≡ true }
    {
        self.take_and_give_back(party) || self.take_and_give_back_again(party)
    }

    /// Takes the rooms of the pool and gives them back with the party's, and returns `true`. If other rooms came into
    /// the pool in between, it returns `false`, and the party keeps all.
    fn take_and_give_back(&self, party: &mut Party<T>) -> bool
        requires { party.old.table ≡ self.now.table }
        ensures answer { GivesAllBack result party.old party.new }
        ensures whole { party.old.share ≡ whole → result ≡ true }
    {
        self.refill(party);
        let rooms = party.rooms();
        self.give_back(party, rooms)
    }

    /// Tries that again until it returns `true`, up to `MORE_TRIES` times.
    fn take_and_give_back_again(&self, party: &mut Party<T>) -> bool
        requires table { party.old.table ≡ self.now.table }
        requires seen { Adds party.old [] party.old }
        ensures { GivesAllBack result party.old party.new }
    {
        for _try in 0..MORE_TRIES {
            if self.take_and_give_back(party) {
                return true;
            }
        }
        false
    }

    /// Splits a new party off `party`, which gives it `rooms` of its rooms and a part of its share. The new party has
    /// seen the same history, in which no event is its own. Requires that the party has as many rooms.
    ///
    /// # Complexity
    /// O(`rooms`), or O(1) if the party gives all its rooms.
    ///
    /// # Waits
    /// Never.
    pub fn split(&self, party: &mut Party<T>, rooms: usize) -> Party<T>
        requires table { party.old.table ≡ self.now.table }
        requires rooms { rooms ≤ party.old.rooms }
        ensures { (party.new ≡ keeping rooms party.old) × (result ≡ giving rooms party.old) }
    {
        required::as_many_rooms(rooms, party.rooms());
        let (seat, spare) = parting::split(
            &self.rooms.shared,
            &mut party.seat,
            &mut party.spare,
            rooms,
        );
        Party { seat, spare }
    }

    /// Absorbs another party: `party` has its rooms, its names and its events, and has seen what the two had seen.
    ///
    /// # Complexity
    /// O(1).
    ///
    /// # Waits
    /// Never.
    pub fn absorb(&self, party: &mut Party<T>, other: Party<T>)
        requires { (party.old.table ≡ self.now.table) × (other.table ≡ self.now.table) }
        ensures { Absorbs (λ h. Legal h) party.old other party.new }
    {
        let Party { seat, spare } = other;
        parting::absorb(
            &self.rooms.shared,
            &mut party.seat,
            &mut party.spare,
            seat,
            spare,
        );
    }

    /// Closes the queue and returns all its elements, the oldest first, and the stub that `new_with_stub` took.
    /// Requires the whole party; the elements are exactly those that its history holds.
    ///
    /// # Complexity
    /// O(r), for r rooms, which it frees.
    ///
    /// # Waits
    /// Never.
    ///
    /// # Examples
    /// From `laws::close_behind` of `cordyceps_queue`:
    /// ```
    /// while let Some(handle) = elements.next() {
    ///     queue.enqueue(&mut party, handle);
    /// }
    /// queue.close(party)
    /// ```
    pub fn close(self, party: Party<T>) -> Closed<T>
        requires table { party.table ≡ self.table }
        requires whole { party.share ≡ whole }
        ensures elements { result.elements ≡ map T.element (held (plain party.seen)) }
        ensures stub { result.stub ≡ self.stub }
    {
        let mut party = party;
        let elements = self.drain(&mut party);
        let MpscQueue { rooms: _, stub } = self;
        let stub = match stub {
            Some(vault) => Some(vault.into_inner()),
            None => None,
        };
        Closed { elements, stub }
    }

    /// Removes all elements, by a whole party, and returns them.
    fn drain(&self, party: &mut Party<T>) -> Batch<T>
        requires table { party.old.table ≡ self.now.table }
        requires whole { party.old.share ≡ whole }
        ensures { result ≡ map T.element (held (plain party.old.seen)) }
    {
        let mut elements = Batch::new();
        while let Ok(handle) = self.try_dequeue(party) {
            // each element gave its room back, so their count fits
            let _rooms = party.rooms();
            elements.put_last(handle);
        }
        elements
    }
}

/// What a queue held when it was closed.
#[derive(Drop)]
pub struct Closed<T: Linked<Links<T>>> {
    /// The elements, the oldest first.
    pub elements: Batch<T>,
    /// The stub that the queue's maker provided, if any.
    pub stub: Option<T::Handle>,
}
