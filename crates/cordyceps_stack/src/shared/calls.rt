//! The stack that threads share.
ghost use Rattle.std.specs.Prelude.{◌≡◌, ◌<◌, ◌≤◌, List, [], length, map, max, reverse, true, false, is_ok, MatchResult};
ghost use Rattle.std.specs.Prelude.{IfOk, IfErr};
ghost use Rattle.cordyceps_shared.specs.Histories.{plain};
ghost use Rattle.cordyceps_shared.specs.Shares.{whole};
ghost use Rattle.cordyceps_shared.specs.Standings.{new_party, keeping, giving, Knows, Absorbs, GivesBack};
ghost use Rattle.cordyceps_stack.specs.History.{held, Legal};
ghost use Rattle.cordyceps_stack.specs.Shared.Calls.{PushesAt, PushesAllAt, Misses, Takes, Looks};
ghost use Rattle.cordyceps_stack.specs.Shared.Calls.{Adds, Refills, GivesAllBack, HasAllRooms, LacksRooms};
ghost use Rattle.cordyceps_stack.specs.Shared.Calls.{PushesRefilled, FailsToPush, IsCertainlyFull};

use crate::shared::batch::hand_out;
use crate::shared::pool::MORE_TRIES;
use crate::shared::push_error::TryPushError;
use crate::shared::table::{OwnedTable, PartySeat};
use crate::shared::{chain, parting, pool, steps};
use cordyceps_base::linked::Linked;
use cordyceps_base::shared::MAX_ROOMS;
use cordyceps_base::stack::Links;
use cordyceps_shared::free::FreeRooms;
use cordyceps_shared::pool::QUANTUM;
use cordyceps_shared::required;
use cordyceps_single::stack::Stack;
use std::alloc::{AllocError, Global};
use std::marker::Model;

/// A stack that threads share without a lock. They push to it one element at a time, and take all its elements at once.
///
/// Its maker chooses the number of its rooms. A room is a permit to insert one element: pushing spends one, and whoever
/// removes the element gets it. Each call is made through a party of this stack, which has some of the rooms. Calls
/// allocate nothing, except `new`. A handle that is pushed comes out as the same element, the last pushed first.
///
/// A contract sees the stack's table, by which it knows the parties of this stack: their `table` is the same. It sees
/// no contents; what happened to the stack is told by what its parties have seen, their observed prefix of its history.
///
/// The interface follows that of `TransferStack` in the Rust crate `cordyceps`.
///
/// # Threads
/// A call borrows its party mutably, so one thread at a time acts through a party. Calls through several parties may
/// run at the same time:
///
/// | call | beside any call of another party | beside a call of its own row |
/// |---|---|---|
/// | `push`, `push_was_empty`, `push_all` | yes | each tries again when the other comes between its steps |
/// | `try_push`, `try_push_all`, `refill_and_try_push` | yes | one may fail, and returns its elements |
/// | `take_all`, `take_all_in_order`, `is_empty` | yes | one takes all elements that are there; the other finds none of them |
/// | `refill` | yes | one gets the rooms of the pool; the other finds none |
/// | `refill_at_most` | yes | one gets rooms of the pool; the other finds what is left, or none |
/// | `give_back` | yes | one puts its rooms into the pool; the other returns `false` |
/// | `give_all_back` | yes | one puts its rooms into the pool; the other takes these and puts all there |
/// | `split`, `absorb` | yes | yes |
/// | `close`, and the stack's drop | no: they take the stack, when no other thread has it | |
///
/// # Complexity
/// Dropping the stack drops its elements: O(r), for r rooms.
///
/// # Examples
/// From `tour::hand_over` of `cordyceps_uses`:
/// ```
/// // The stack has eight rooms, and this party has them all.
/// let (shared, mut taker) = TransferStack::<Job>::new(alloc, 8)?;
/// // Another thread gets a party of its own, with four rooms.
/// let mut pusher = shared.split(&mut taker, 4);
/// // `push` tries until no other party comes between. `try_push` tries once, and may return the job.
/// shared.push(rt, &mut pusher, first);
/// shared.push(rt, &mut pusher, second);
/// // When the other thread has ended, the taker absorbs its party, and has its rooms and its history.
/// shared.absorb(&mut taker, pusher);
/// Ok(shared.take_all(&mut taker))
/// ```
#[derive(Drop)]
pub struct TransferStack<T: Linked<Links<T>>> {
    pub(crate) rooms: OwnedTable<T::Handle>,
}

impl<T: Linked<Links<T>>> Model for TransferStack<T> {
    ghost use Rattle.atomic_table.specs.Seated.{TableId};
    ghost use Rattle.cordyceps_stack.specs.Shared.Rule.{IsTable};

    ghost Value = { TableId };

    ghost view = { λ s. s.rooms.shared.table_id };

    ghost invariant = { λ s. IsTable s.rooms.shared.table_id };
}

/// A handle through which a thread acts on one stack, with a number of rooms. It can be sent to a thread if `T::Handle`
/// can.
///
/// A contract sees the table of its stack, what it has seen (the observed prefix of the history, with a mark at its own
/// events), its share (its permission: which part of the names of events it has), and the number of its rooms. A party
/// whose share is the empty word alone is whole: it has the full permission, and has absorbed all parties that were
/// split off.
///
/// Do not drop a party that has rooms: they can never be used again. After the drop of any party none is whole, so
/// `close` can no longer be called.
///
/// # Complexity
/// Dropping a party is O(1).
///
/// # Examples
/// From `tour::hand_over` of `cordyceps_uses`:
/// ```
/// // Another thread gets a party of its own, with four rooms.
/// let mut pusher = shared.split(&mut taker, 4);
/// // `push` tries until no other party comes between. `try_push` tries once, and may return the job.
/// shared.push(rt, &mut pusher, first);
/// shared.push(rt, &mut pusher, second);
/// // When the other thread has ended, the taker absorbs its party, and has its rooms and its history.
/// shared.absorb(&mut taker, pusher);
/// ```
#[derive(Drop)]
pub struct Party<T: Linked<Links<T>>> {
    pub(crate) seat: PartySeat<T::Handle>,
    pub(crate) free: FreeRooms,
}

impl<T: Linked<Links<T>>> Model for Party<T> {
    ghost use Rattle.cordyceps_stack.specs.Shared.Parts.{IsSeated, standing};
    ghost use Rattle.cordyceps_stack.specs.Shared.Calls.{PartyOf};

    ghost Value = { PartyOf T.Handle };

    ghost view = { λ p. standing p.seat.table_id p.seat.me.0 };

    ghost invariant = { λ p. IsSeated p.seat.table_id p.seat.me p.free };
}

impl<T: Linked<Links<T>>> Party<T> {
    /// Returns the number of rooms that the party has: it can push as many elements before it takes some.
    ///
    /// Its contract also states what is true of every party: what it has seen is legal, and a whole party has seen only
    /// its own events.
    ///
    /// # Complexity
    /// O(1).
    pub fn rooms(&self) -> usize
        ensures count { result ≡ self.now.rooms }
        ensures knows { Knows (λ h. Legal h) self.now }
    {
        self.free.count
    }
}

impl<T: Linked<Links<T>>> TransferStack<T> {
    /// Creates an empty stack with `rooms` rooms, and the party that has them all, which is whole. Requires that
    /// `rooms` is at most `MAX_ROOMS`.
    ///
    /// # Errors
    /// If memory is refused, it returns `AllocError`, and nothing is kept.
    ///
    /// # Complexity
    /// O(`rooms`), with three allocations, of which it frees one. With a handle of one word, it takes at most 384 bytes
    /// and 32 for each room while it runs, and keeps 384 and 16 for each room.
    pub fn new(alloc: Global, rooms: usize) -> Result<(TransferStack<T>, Party<T>), AllocError>
        requires { rooms ≤ MAX_ROOMS }
        ensures { IfOk result (λ made. (made.1 ≡ new_party made.0 rooms) × (made.0.slots ≡ rooms)) }
    {
        required::at_most_max_rooms(rooms);
        let free = FreeRooms {
            first: rooms as u64,
            last: 0,
            count: rooms,
        };
        let (rooms, seat) = parting::open(alloc, rooms)?;
        Ok((TransferStack { rooms }, Party { seat, free }))
    }

    /// Tries once to push an element. Requires that the party has a room, which the element then uses. Returns `true`
    /// if the stack was empty just before.
    ///
    /// # Errors
    /// If another party pushed, or took what was held, between its two steps, the handle is returned, and the party
    /// keeps its room. To a whole party this never happens.
    ///
    /// # Complexity
    /// O(1): one load and one compare-exchange of the head, and one load of another word if the handle is returned.
    ///
    /// # Waits
    /// Never.
    pub fn try_push(&self, party: &mut Party<T>, handle: T::Handle) -> Result<bool, T::Handle>
        requires table { party.old.table ≡ self.now }
        requires room { 0 < party.old.rooms }
        ensures answer { MatchResult result
            (λ was_empty. PushesAt 1 handle was_empty party.old party.new)
            (λ back. (back ≡ handle) × Misses party.old party.new) }
        ensures whole { party.old.share ≡ whole → is_ok result ≡ true }
    {
        required::a_free_room(party.rooms());
        steps::try_push(&self.rooms.shared, &mut party.seat, &mut party.free, handle)
    }

    /// Tries once to push an element. If the party has no room, it takes at most `QUANTUM` of the pool first, as
    /// `refill_at_most` does. Returns `true` if the stack was empty just before.
    ///
    /// # Errors
    /// It returns `Full` if the party has no room and the pool has none. Where a whole party finds that, each room of
    /// the stack has an element. It returns `Contended` if another party pushed, or took what was held, between the two
    /// steps of the try. The party then has a room. To a whole party this never happens. Both return the handle.
    ///
    /// # Complexity
    /// O(1): that of `try_push`, and of `refill_at_most` with `QUANTUM` if the party has no room.
    ///
    /// # Waits
    /// Never.
    ///
    /// # Examples
    /// From `run_queue::submit` of `cordyceps_shared_uses`:
    /// ```
    /// match queue.refill_and_try_push(party, job) {
    ///     Ok(was_empty) => {
    ///         if was_empty {
    ///             alarm.ring();
    ///         }
    ///         return;
    ///     }
    ///     Err(error) => job = error.into_inner(),
    /// }
    /// ```
    pub fn refill_and_try_push(
        &self,
        party: &mut Party<T>,
        handle: T::Handle,
    ) -> Result<bool, TryPushError<T::Handle>>
        requires { party.old.table ≡ self.now }
        ensures answer { MatchResult result
            (λ was_empty. PushesRefilled handle was_empty party.old party.new)
            (λ error. FailsToPush handle error party.old party.new) }
        ensures few { party.old.share ≡ whole → party.new.rooms ≤ max party.old.rooms QUANTUM }
        ensures whole { party.old.share ≡ whole → IfErr result (λ error. IsCertainlyFull error party.new) }
    {
        if party.rooms() == 0 && self.refill_at_most(party, QUANTUM) == 0 {
            return Err(TryPushError::Full(handle));
        }
        match self.try_push(party, handle) {
            Ok(was_empty) => Ok(was_empty),
            Err(back) => Err(TryPushError::Contended(back)),
        }
    }

    /// Tries once to push all elements of a stack at one step, as `push_all` does. Requires that the party has as many
    /// rooms. Returns `true` if this stack was empty just before.
    ///
    /// # Errors
    /// If another party pushed, or took what was held, between its two steps, all elements are returned in their order,
    /// and the party keeps its rooms. To a whole party this never happens.
    ///
    /// # Complexity
    /// O(n), for n elements: one load and one compare-exchange of the head, a load of another word, and a step on each
    /// of n rooms; twice that on the rooms and the other word if the elements are returned.
    ///
    /// # Waits
    /// Never.
    pub fn try_push_all(&self, party: &mut Party<T>, elements: Stack<T>) -> Result<bool, Stack<T>>
        requires table { party.old.table ≡ self.now }
        requires rooms { length elements ≤ party.old.rooms }
        ensures answer { MatchResult result
            (λ was_empty. (pushed : List T.Handle) × (elements ≡ map T.element pushed)
            × PushesAllAt 1 pushed was_empty party.old party.new)
            (λ back. (back ≡ elements) × Misses party.old party.new) }
        ensures whole { party.old.share ≡ whole → is_ok result ≡ true }
    {
        chain::try_push_all(
            &self.rooms.shared,
            &mut party.seat,
            &mut party.free,
            elements,
        )
    }

    /// Returns `true` if the stack has no element. Other parties may change this at any time.
    ///
    /// # Complexity
    /// O(1): one load of the head.
    ///
    /// # Waits
    /// Never.
    pub fn is_empty(&self, party: &mut Party<T>) -> bool
        requires { party.old.table ≡ self.now }
        ensures { Looks result party.old party.new }
    {
        steps::is_empty(&self.rooms.shared, &mut party.seat)
    }

    /// Takes all elements, the last pushed first. Their rooms become the party's.
    ///
    /// # Complexity
    /// O(n), for n elements: one swap of the head, and then a walk through what it took.
    ///
    /// # Waits
    /// Never.
    pub fn take_all(&self, party: &mut Party<T>) -> Stack<T>
        requires { party.old.table ≡ self.now }
        ensures { (batch : List T.Handle) × (result ≡ map T.element batch) × Takes batch party.old party.new }
    {
        let words = &self.rooms.shared;
        let at = steps::take(words, &mut party.seat);
        hand_out::<T, false>(words, &mut party.seat, &mut party.free, at)
    }

    /// Takes all elements, the one that was pushed first at the front. Their rooms become the party's.
    ///
    /// Of each party the elements come in the order in which it pushed them. With those that were taken before, the
    /// stack is a queue whose elements cost one compare-exchange each, and a share of one swap.
    ///
    /// # Complexity
    /// O(n), for n elements: one swap of the head, and then a walk through what it took.
    ///
    /// # Waits
    /// Never.
    pub fn take_all_in_order(&self, party: &mut Party<T>) -> Stack<T>
        requires { party.old.table ≡ self.now }
        ensures { (batch : List T.Handle) × (result ≡ reverse (map T.element batch)) × Takes batch party.old party.new }
    {
        let words = &self.rooms.shared;
        let first = steps::take(words, &mut party.seat);
        hand_out::<T, true>(words, &mut party.seat, &mut party.free, first)
    }

    /// Takes all rooms of the pool, which become the party's, and returns how many they are.
    ///
    /// A whole party then has each room of the stack that has no element in it.
    ///
    /// # Complexity
    /// O(1): one swap, and one load of another word if there are rooms.
    ///
    /// # Waits
    /// Never.
    pub fn refill(&self, party: &mut Party<T>) -> usize
        requires { party.old.table ≡ self.now }
        ensures answer { Refills result party.old party.new }
        ensures whole { party.old.share ≡ whole → HasAllRooms party.new }
    {
        pool::refill(&self.rooms.shared, &mut party.seat, &mut party.free)
    }

    /// Takes at most `most` rooms of the pool, which become the party's, and returns how many they are. The others stay
    /// in the pool for other parties.
    ///
    /// It takes all and gives what is above `most` back at once. If another party gives rooms back between the two, it
    /// tries that again, up to 8 times, and then keeps what it took. So it can take more than `most` only while others
    /// give rooms back. A whole party never does, and if it takes fewer, it has each room of the stack that has no
    /// element in it.
    ///
    /// # Complexity
    /// O(k), for the k rooms that the party then has, and O(1) where the pool has at most `most`.
    ///
    /// # Waits
    /// Never.
    pub fn refill_at_most(&self, party: &mut Party<T>, most: usize) -> usize
        requires { party.old.table ≡ self.now }
        ensures answer { Refills result party.old party.new }
        ensures few { party.old.share ≡ whole → result ≤ most }
        ensures whole { party.old.share ≡ whole → result < most → HasAllRooms party.new }
    {
        pool::refill_at_most(&self.rooms.shared, &mut party.seat, &mut party.free, most)
    }

    /// Gives `rooms` of the party's rooms to the pool, from where each party may take them, and returns `true`. If
    /// other rooms are in the pool, it returns `false`, and the party keeps its rooms. So a whole party that has every
    /// room without an element always gets `true`. Requires that the party has as many rooms.
    ///
    /// # Complexity
    /// O(`rooms`), or O(1) if the party gives all its rooms or none, or finds others in the pool.
    ///
    /// # Waits
    /// Never.
    ///
    /// # Examples
    /// From `run_queue::work` of `cordyceps_shared_uses`:
    /// ```
    /// let batch = queue.take_all(&mut party);
    /// let rooms = party.rooms();
    /// queue.give_back(&mut party, rooms);
    /// ```
    pub fn give_back(&self, party: &mut Party<T>, rooms: usize) -> bool
        requires table { party.old.table ≡ self.now }
        requires rooms { rooms ≤ party.old.rooms }
        ensures answer { GivesBack rooms result party.old party.new }
        ensures whole { party.old.share ≡ whole → result ≡ false → LacksRooms party.new }
    {
        required::as_many_rooms(rooms, party.rooms());
        pool::give_back(&self.rooms.shared, &mut party.seat, &mut party.free, rooms)
    }

    /// Gives all rooms of the party to the pool, together with those that are there, and returns `true`. A party that
    /// ends calls it before it is absorbed or dropped.
    ///
    /// It returns `false` only if other parties gave rooms back each of 8 times that it tried. The party then has no
    /// fewer rooms than before, so call it again. A whole party always gets `true`.
    ///
    /// # Complexity
    /// O(1).
    ///
    /// # Waits
    /// Never.
    pub fn give_all_back(&self, party: &mut Party<T>) -> bool
        requires { party.old.table ≡ self.now }
        ensures answer { GivesAllBack result party.old party.new }
        ensures whole { party.old.share ≡ whole → result ≡ true }
    {
        self.take_and_give_back(party) || self.take_and_give_back_again(party)
    }

    /// Takes the rooms of the pool and gives them back with the party's, and returns `true`. If other rooms came into
    /// the pool in between, it returns `false`, and the party keeps all.
    fn take_and_give_back(&self, party: &mut Party<T>) -> bool
        requires { party.old.table ≡ self.now }
        ensures answer { GivesAllBack result party.old party.new }
        ensures whole { party.old.share ≡ whole → result ≡ true }
    {
        self.refill(party);
        let rooms = party.rooms();
        self.give_back(party, rooms)
    }

    /// Tries that again until it returns `true`, up to `MORE_TRIES` times.
    fn take_and_give_back_again(&self, party: &mut Party<T>) -> bool
        requires table { party.old.table ≡ self.now }
        requires seen { Adds party.old [] party.old }
        ensures { GivesAllBack result party.old party.new }
    {
        for _try in 0..MORE_TRIES {
            if self.take_and_give_back(party) {
                return true;
            }
        }
        false
    }

    /// Splits a new party off `party`, which gives it `rooms` of its rooms and a part of its share. The new party has
    /// seen the same history, in which no event is its own. Requires that the party has as many rooms.
    ///
    /// # Complexity
    /// O(`rooms`), or O(1) if the party gives all its rooms.
    ///
    /// # Waits
    /// Never.
    ///
    /// # Examples
    /// From `tour::hand_over` of `cordyceps_uses`:
    /// ```
    /// // The stack has eight rooms, and this party has them all.
    /// let (shared, mut taker) = TransferStack::<Job>::new(alloc, 8)?;
    /// // Another thread gets a party of its own, with four rooms.
    /// let mut pusher = shared.split(&mut taker, 4);
    /// ```
    pub fn split(&self, party: &mut Party<T>, rooms: usize) -> Party<T>
        requires table { party.old.table ≡ self.now }
        requires rooms { rooms ≤ party.old.rooms }
        ensures { (party.new ≡ keeping rooms party.old) × (result ≡ giving rooms party.old) }
    {
        required::as_many_rooms(rooms, party.rooms());
        let (seat, free) = parting::split(
            &self.rooms.shared,
            &mut party.seat,
            &mut party.free,
            rooms,
        );
        Party { seat, free }
    }

    /// Absorbs another party: `party` has its rooms, its names and its events, and has seen what the two had seen.
    ///
    /// # Complexity
    /// O(1).
    ///
    /// # Waits
    /// Never.
    ///
    /// # Examples
    /// From `tour::hand_over` of `cordyceps_uses`:
    /// ```
    /// // When the other thread has ended, the taker absorbs its party, and has its rooms and its history.
    /// shared.absorb(&mut taker, pusher);
    /// Ok(shared.take_all(&mut taker))
    /// ```
    pub fn absorb(&self, party: &mut Party<T>, other: Party<T>)
        requires { (party.old.table ≡ self.now) × (other.table ≡ self.now) }
        ensures { Absorbs (λ h. Legal h) party.old other party.new }
    {
        let Party { seat, free } = other;
        parting::absorb(
            &self.rooms.shared,
            &mut party.seat,
            &mut party.free,
            seat,
            free,
        );
    }

    /// Closes the stack and returns all its elements, the last pushed first. Requires the whole party; the result is
    /// exactly what its history holds.
    ///
    /// # Complexity
    /// O(r), for r rooms, which it frees.
    ///
    /// # Waits
    /// Never.
    ///
    /// # Examples
    /// From `tasks::schedule` of `cordyceps_uses`:
    /// ```
    /// let party = push_all(rt, &shared, party, tasks);
    /// let came = shared.close(party);
    /// ```
    pub fn close(self, mut party: Party<T>) -> Stack<T>
        requires table { party.table ≡ self }
        requires whole { party.share ≡ whole }
        ensures { result ≡ map T.element (reverse (held (plain party.seen))) }
    {
        self.take_all(&mut party)
    }
}
