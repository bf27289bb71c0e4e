//! A priority queue whose elements are due at times. The times at which elements come out never decrease, and each
//! element is reached by its spot.
//!
//! ```text
//! clock   4, in binary 0100
//!
//! bucket    0       1     2        4
//! times     4   4   5     7   6    9   15   8
//!           o - o - o --- o - o -- o - o -- o     one list
//!               ^   ^         ^             ^
//! ends          0   1         2             4
//! ```
//!
//! A queue is a `StableList` whose nodes are in the order of their buckets, the spot at which each of the 65 buckets
//! ends, the clock, and the function of times. The bucket of a node is 0 if it is due at the clock, and otherwise one
//! more than the highest bit in which its time differs from the clock. Bucket 3 is empty above: its times, 0 to 3, have
//! passed. In a bucket nodes are in the order in which they came into it.
//!
//! - `push` puts the node behind the end of its bucket or, if that is empty, of the nearest lower one that is not, or
//!   else first.
//! - `pop_front` takes the first node if bucket 0 has one. Otherwise the clock becomes the least time of the lowest
//!   bucket, and `advance` spreads that bucket over the lower ones, in order. Other nodes stay in their buckets.
//! - `remove` reads the times of the node's two neighbours. If the node was the last of its bucket, these say whether
//!   the bucket now ends at the neighbour in front or is empty.
//!
//! So each pop that moves a node brings it into a lower bucket, which happens at most 64 times after its push. All
//! buckets are one list, so a spot reaches its node whichever bucket that is in. For that a push also writes to the
//! first node of the next bucket.
//!
//! It is the radix heap of Ahuja, Mehlhorn, Orlin and Tarjan, with a bucket for each bit.
ghost use Rattle.std.specs.Prelude.{◌≡◌, ◌≢◌, ℕ, ◌<◌, ◌≤◌, ◌==◌, [], ◌∷◌, ◌++◌, length, max, ◌⊎◌};
ghost use Rattle.std.specs.Prelude.{IfOk, IfSome, MatchOption, MatchResult};
ghost use Rattle.std.specs.List.Sorted.{IsPermutation};
ghost use Rattle.std.specs.Fn.{FnOnceReturnsAtMut};
ghost use Rattle.std.specs.List.{AllByRecursion};
ghost use Rattle.std.specs.Ordering.{nat_cmp};
ghost use Rattle.std.specs.declared.cmp.Ordering.{Ordering};
ghost use denote.RawPtr.{Ptr};
ghost use Rattle.cordyceps_base.specs.BySpot.{HasSpot, HoldsAt, IsTaken};
ghost use Rattle.cordyceps_base.specs.Element.{Element};
ghost use Rattle.cordyceps_base.specs.Nodes.{Nodes, spots};
ghost use Rattle.cordyceps_base.specs.Spots.{AreDistinct};
ghost use Rattle.cordyceps_single.specs.Arrangement.{IsEarliestLeast};
ghost use Rattle.cordyceps_single.specs.ByKey.{by_key};
ghost use Rattle.cordyceps_stable.specs.Agreeing.{HasElementAt};
ghost use Rattle.cordyceps_stable.specs.Arranged.{precedes};
ghost use Rattle.cordyceps_clock.specs.Buckets.{AreLater};
ghost use Rattle.cordyceps_clock.specs.Clock.{Holds, rounded};

use crate::buckets::{BUCKETS, Buckets, bucket, least_of_bucket, time_at};
use crate::spreading::{First, first_bucket};
use crate::times::Times;
use cordyceps_base::linked::Linked;
use cordyceps_list::list::Links;
use cordyceps_stable::stable_list::{Spot, StableList};
use std::marker::Model;

/// A priority queue of owned nodes that are due at times. A push returns a spot, which reaches the element while it is
/// in the queue. A contract sees the elements with their spots, the function that returns their times, and the clock.
/// It also says in which order the elements were pushed.
///
/// The element that is due first comes out first, and of those that are due at the same time the one that was pushed
/// first. The clock is the latest of the times of the elements that came out and of those at which `pop_due` found none
/// due. No element is pushed that is due before it. An element is reached, removed and updated by its spot. The spot
/// stays the same while the element is in the queue. No two elements are at one spot. Linking allocates nothing and
/// cannot be refused.
///
/// It is a radix heap. An element is in one of 65 buckets, by the highest bit in which its time differs from the clock.
/// Each time that a pop moves it, it comes into a lower bucket. An update moves it to the bucket of its new time, and
/// no other element.
///
/// Each call that asks for a time requires that the function may be called.
///
/// # Complexity
/// Dropping the queue frees each node once: O(n), for n elements.
///
/// # Examples
/// From `timers::Timers::restart` of `cordyceps_shared_uses`:
/// ```
/// if self.queue.len() == usize::MAX {
///     return Err(timer);
/// }
/// Ok(self.queue.push(timer))
/// ```
///
/// From `timers::Timers::stop_due` of `cordyceps_shared_uses`:
/// ```
/// let first = self.queue.pop_due(now);
/// let clock = self.queue.now();
/// self.queue.set_times(NotBefore { clock });
/// first
/// ```
#[derive(Drop)]
pub struct ClockQueue<T, O: Times<T>> {
    buckets: Buckets<T>,
    clock: u64,
    times: O,
}

impl<T, O: Times<T>> Model for ClockQueue<T, O> {
    ghost use Rattle.std.specs.Prelude.{ℕ};
    ghost use Rattle.cordyceps_clock.specs.Buckets.{IsTimed};
    ghost use Rattle.cordyceps_clock.specs.Clock.{Clocked};

    ghost Value = { Clocked T O };

    ghost view = { λ q. record { nodes = q.buckets.list; time = q.times; clock = q.clock } };

    ghost invariant = { λ q. (of : T → ℕ)
        → O.computes_by q.times of
        → IsTimed of q.clock q.buckets.ends q.buckets.list };
}

impl<T: Linked<Links<T>>, O: Times<T>> ClockQueue<T, O> {
    /// Creates an empty queue at the time 0, whose elements are due at the times that `times` returns. Allocates
    /// nothing.
    ///
    /// # Complexity
    /// O(1).
    ///
    /// # Examples
    /// From `timers::Timers::new` of `cordyceps_shared_uses`:
    /// ```
    /// Timers {
    ///     queue: ClockQueue::new_with_times(NotBefore { clock: 0 }),
    /// }
    /// ```
    pub fn new_with_times(times: O) -> ClockQueue<T, O>
        ensures nodes { result.nodes ≡ [] }
        ensures now { result.clock ≡ 0 }
        ensures time { result.time ≡ times }
        ensures arrivals { (cmp : T → T → Ordering) → Holds cmp result.nodes [] }
    {
        ClockQueue {
            buckets: Buckets {
                list: StableList::new(),
                ends: [None; BUCKETS],
            },
            clock: 0,
            times,
        }
    }

    /// Returns the clock: the latest of the times of the elements that came out and of those at which `pop_due` found
    /// none due. It is 0 before the first of these.
    ///
    /// # Complexity
    /// O(1).
    ///
    /// # Examples
    /// From `timers::Timers::first_deadline` of `cordyceps_shared_uses`:
    /// ```
    /// let first = self.queue.get(self.queue.front()?);
    /// Some(first.deadline.max(self.queue.now()))
    /// ```
    pub fn now(&self) -> u64
        ensures { result ≡ self.now.clock }
    {
        let ClockQueue { clock, .. } = self;
        *clock
    }

    /// Replaces the function of times by `times`. Requires that this returns the same time as the old one for each
    /// value that the old one makes due at the clock or later. So each element stays due when it was.
    ///
    /// # Complexity
    /// O(1).
    ///
    /// # Examples
    /// From `timers::Timers::stop_first` of `cordyceps_shared_uses`:
    /// ```
    /// let first = self.queue.pop_front();
    /// let clock = self.queue.now();
    /// self.queue.set_times(NotBefore { clock });
    /// first
    /// ```
    pub fn set_times(&mut self, times: O)
    where
        O: Drop,
        requires callable { O.can_compute self.old.time }
        requires same { (of anew : T → ℕ) → O.computes_by self.old.time of → O.computes_by times anew
            → (value : T) → self.old.clock ≤ of value → anew value ≡ of value }
        ensures nodes { self.new.nodes ≡ self.old.nodes }
        ensures kept { (p : Ptr) → HasSpot self.old.nodes p → HasSpot self.new.nodes p }
        ensures now { self.new.clock ≡ self.old.clock }
        ensures time { self.new.time ≡ times }
        ensures due { (of anew : T → ℕ) → O.computes_by self.old.time of → O.computes_by times anew
            → AllByRecursion (λ n. anew n.1.value ≡ of n.1.value) self.new.nodes }
    {
        self.times = times;
    }

    /// Returns the number of elements.
    ///
    /// # Complexity
    /// O(1).
    pub fn len(&self) -> usize
        ensures { result ≡ length self.now.nodes }
    {
        self.buckets.list.len()
    }

    /// Returns `true` if the queue has no element.
    ///
    /// # Complexity
    /// O(1).
    pub fn is_empty(&self) -> bool
        ensures { result ≡ (length self.now.nodes == 0) }
    {
        self.len() == 0
    }

    /// Does nothing when the program runs. Its contract states that no two elements are at one spot.
    ///
    /// # Complexity
    /// O(1).
    ///
    /// # Examples
    /// From `timers::Timers::stop` of `cordyceps_c_timers`:
    /// ```
    /// let spot = self.tickets.find(ticket)?;
    /// self.queue.spots_are_distinct();
    /// let timer = self.queue.remove(spot);
    /// Some(into_fired(timer, &mut self.tickets))
    /// ```
    pub fn spots_are_distinct(&self)
        ensures { AreDistinct (spots self.now.nodes) }
    {
        self.buckets.list.spots_are_distinct();
    }

    /// Inserts an element and returns its spot. It comes out after those that are due at the same time. Requires that
    /// it is due at the clock or later, and a length below `usize::MAX`.
    ///
    /// # Complexity
    /// O(1).
    ///
    /// # Examples
    /// From `timers::Timers::restart` of `cordyceps_shared_uses`:
    /// ```
    /// if self.queue.len() == usize::MAX {
    ///     return Err(timer);
    /// }
    /// Ok(self.queue.push(timer))
    /// ```
    pub fn push(&mut self, handle: T::Handle) -> Spot
        requires callable { O.can_compute self.old.time }
        requires due { (of : T → ℕ) → O.computes_by self.old.time of → self.old.clock ≤ of (T.element handle).value }
        requires fits { length self.old.nodes < usize.MAX }
        ensures arrivals { (of : T → ℕ) (a : Nodes T)
            → O.computes_by self.old.time of
            → Holds (by_key nat_cmp of) self.old.nodes a
            → Holds (by_key nat_cmp of) self.new.nodes (a ++ (result, T.element handle) ∷ []) }
        ensures others { IsTaken self.new.nodes result (T.element handle) self.old.nodes }
        ensures there { HasSpot self.new.nodes result }
        ensures kept { (p : Ptr) → HasSpot self.old.nodes p → HasSpot self.new.nodes p }
        ensures apart { HasSpot self.old.nodes result → ⊥ }
        ensures now { self.new.clock ≡ self.old.clock }
        ensures time { self.new.time ≡ self.old.time }
        ensures distinct { AreDistinct (spots self.new.nodes) }
    {
        let node = T::into_ptr(handle);
        let due = self.times.time(node.get());
        let k = bucket(self.clock, due);
        self.buckets.put(k, T::from_ptr(node))
    }

    /// Inserts an element as `push` does and returns its spot, if it is due at the clock or later and the length is
    /// below `usize::MAX`.
    ///
    /// # Errors
    /// If the element was due before the clock, or at a length of `usize::MAX`, the handle is returned, and the queue
    /// is unchanged.
    ///
    /// # Complexity
    /// That of `push`.
    pub fn try_push(&mut self, handle: T::Handle) -> Result<Spot, T::Handle>
        requires callable { O.can_compute self.old.time }
        ensures pushed { MatchResult result
            (λ spot. IsTaken self.new.nodes spot (T.element handle) self.old.nodes
            × (self.new.clock ≡ self.old.clock)
            × ((of : T → ℕ) → O.computes_by self.old.time of → (self.old.clock ≤ of (T.element handle).value)
            × ((a : Nodes T)
            → Holds (by_key nat_cmp of) self.old.nodes a
            → Holds (by_key nat_cmp of) self.new.nodes (a ++ (spot, T.element handle) ∷ []))))
            (λ back. (T.element back ≡ T.element handle) × (self.new ≡ self.old)
            × ((length self.old.nodes ≡ usize.MAX)
            ⊎ ((of : T → ℕ) → O.computes_by self.old.time of → of (T.element handle).value < self.old.clock))) }
        ensures there { IfOk result (λ spot. HasSpot self.new.nodes spot) }
        ensures kept { (p : Ptr) → HasSpot self.old.nodes p → HasSpot self.new.nodes p }
        ensures apart { IfOk result (λ spot. HasSpot self.old.nodes spot → ⊥) }
        ensures time { self.new.time ≡ self.old.time }
        ensures distinct { AreDistinct (spots self.new.nodes) }
    {
        let node = T::into_ptr(handle);
        let due = self.times.time(node.get());
        let handle = T::from_ptr(node);
        self.buckets.list.spots_are_distinct();
        if self.buckets.list.len() == usize::MAX || due < self.clock {
            return Err(handle);
        }
        Ok(self.push(handle))
    }

    /// Removes the element at `at` and returns it. Requires that `at` is valid.
    ///
    /// # Complexity
    /// O(1).
    ///
    /// # Examples
    /// From `timers::Timers::stop` of `cordyceps_c_timers`:
    /// ```
    /// let spot = self.tickets.find(ticket)?;
    /// self.queue.spots_are_distinct();
    /// let timer = self.queue.remove(spot);
    /// Some(into_fired(timer, &mut self.tickets))
    /// ```
    pub fn remove(&mut self, at: Spot) -> T::Handle
        requires callable { O.can_compute self.old.time }
        requires there { HasSpot self.old.nodes at }
        ensures taken { IsTaken self.old.nodes at (T.element result) self.new.nodes }
        ensures kept { (p : Ptr) → HasSpot self.old.nodes p → p ≢ at → HasSpot self.new.nodes p }
        ensures arrivals { (of : T → ℕ) (a : Nodes T)
            → O.computes_by self.old.time of
            → Holds (by_key nat_cmp of) self.old.nodes a
            → (rest : Nodes T) × (IsTaken a at (T.element result) rest
            × Holds (by_key nat_cmp of) self.new.nodes rest) }
        ensures now { self.new.clock ≡ self.old.clock }
        ensures time { self.new.time ≡ self.old.time }
        ensures distinct { AreDistinct (spots self.new.nodes) }
    {
        self.buckets.take_out(&self.times, self.clock, at)
    }

    /// Changes the value at `at` by a function, and moves the element to where it then belongs: after those that are
    /// due at the same time, as if it were pushed anew. Returns the result of the function. The element keeps its
    /// number and its spot. Requires that `at` is valid, that the function can be called on the value, and that the
    /// value that it leaves is due at the clock or later. Allocates nothing.
    ///
    /// # Complexity
    /// O(1), beside what the function takes: no other element is moved.
    ///
    /// # Examples
    /// From `timers::Timers::restart` of `cordyceps_c_timers`:
    /// ```
    /// let due = deadline.max(self.queue.now());
    /// self.queue.spots_are_distinct();
    /// self.queue.update(
    ///     spot,
    ///     move |timer: &mut Timer| -> ()
    ///         ensures due { timer.new.due ≡ due }
    ///         ensures deadline { timer.new.deadline ≡ deadline }
    ///         ensures payload { timer.new.payload ≡ timer.old.payload }
    ///         ensures slot { timer.new.slot ≡ timer.old.slot }
    ///     {
    ///         timer.due = due;
    ///         timer.deadline = deadline;
    ///     },
    /// );
    /// ```
    pub fn update<R, F: FnOnce(&mut T) -> R>(&mut self, at: Spot, change: F) -> R
        requires time { O.can_compute self.old.time }
        requires there { HasSpot self.old.nodes at }
        requires callable { (lent : _) → HoldsAt self.old.nodes at lent.now → F.pre change lent }
        requires due { (of : T → ℕ) (e : Element T) (r : R) (w : T)
            → O.computes_by self.old.time of
            → HasElementAt self.old.nodes at e
            → FnOnceReturnsAtMut F.FnOnce change e.value r w
            → self.old.clock ≤ of w }
        ensures changed { (e : Element T) × (w : T) × (rest : Nodes T)
            × FnOnceReturnsAtMut F.FnOnce change e.value result w
            × IsTaken self.old.nodes at e rest
            × IsTaken self.new.nodes at (record { id = e.id; value = w }) rest
            × ((of : T → ℕ) (a : Nodes T)
            → O.computes_by self.old.time of
            → Holds (by_key nat_cmp of) self.old.nodes a
            → (left : Nodes T) × (IsTaken a at e left
            × Holds (by_key nat_cmp of) self.new.nodes (left ++ (at, record { id = e.id; value = w }) ∷ []))) }
        ensures kept { (p : Ptr) → HasSpot self.old.nodes p → HasSpot self.new.nodes p }
        ensures now { self.new.clock ≡ self.old.clock }
        ensures time { self.new.time ≡ self.old.time }
        ensures distinct { AreDistinct (spots self.new.nodes) }
    {
        self.buckets.renew(&self.times, self.clock, at, change)
    }

    /// Returns the spot of the element that is due first, or `None` if the queue is empty. Of those that are due at the
    /// same time it is the one that was pushed first.
    ///
    /// # Complexity
    /// O(k), for k elements of the lowest bucket: those whose times differ from the clock in no higher bit than the
    /// least time does.
    ///
    /// # Examples
    /// From `timers::Timers::first_deadline` of `cordyceps_shared_uses`:
    /// ```
    /// let first = self.queue.get(self.queue.front()?);
    /// Some(first.deadline.max(self.queue.now()))
    /// ```
    pub fn front(&self) -> Option<Spot>
        requires { O.can_compute self.now.time }
        ensures first { MatchOption result (self.now.nodes ≡ [])
            (λ spot. (e : Element T) × HasElementAt self.now.nodes spot e
            × ((of : T → ℕ) (a : Nodes T)
            → O.computes_by self.now.time of
            → Holds (by_key nat_cmp of) self.now.nodes a
            → (rest : Nodes T) × IsEarliestLeast (precedes (by_key nat_cmp of)) a (spot, e) rest)) }
        ensures there { IfSome result (λ spot. HasSpot self.now.nodes spot) }
    {
        self.buckets.list.spots_are_distinct();
        let at = self.buckets.list.front()?;
        let k = bucket(self.clock, time_at(&self.buckets.list, &self.times, at));
        let First {
            least: _,
            at: first,
            len: _,
        } = first_bucket(&self.buckets.list, &self.times, self.clock, k, at);
        Some(first)
    }

    /// Returns a time before which no element is due, or `None` if the queue is empty. It is the time of the first
    /// element without the bits below the highest in which that differs from the clock. So it is the clock only if an
    /// element is due then, and it is exact if that bit is the lowest one.
    ///
    /// A caller that sleeps until then and calls `pop_due` either gets the first element or has moved the clock so far
    /// that the highest bit in which the two differ is a lower one. So it wakes at most 64 times before the first
    /// element is due.
    ///
    /// # Complexity
    /// O(1).
    ///
    /// # Examples
    /// From `timers::Timers::not_before` of `cordyceps_shared_uses`:
    /// ```
    /// self.queue.not_before()
    /// ```
    pub fn not_before(&self) -> Option<u64>
        requires { O.can_compute self.now.time }
        ensures none_before { MatchOption result (self.now.nodes ≡ [])
            (λ t. (of : T → ℕ)
            → O.computes_by self.now.time of
            → AllByRecursion (λ n. t ≤ of n.1.value) self.now.nodes) }
        ensures near { IfSome result (λ t. (of : T → ℕ)
            → O.computes_by self.now.time of
            → (spot : Ptr) × (e : Element T) × HasElementAt self.now.nodes spot e
            × AllByRecursion (λ n. of e.value ≤ of n.1.value) self.now.nodes
            × (t ≡ rounded self.now.clock (of e.value)) × ((self.now.clock < t) ⊎ (of e.value ≡ t))) }
    {
        self.buckets.list.spots_are_distinct();
        let at = self.buckets.list.front()?;
        let due = time_at(&self.buckets.list, &self.times, at);
        Some(least_of_bucket(self.clock, due))
    }

    /// Removes the element that is due first and returns it, or `None` if the queue is empty. Of those that are due at
    /// the same time it is the one that was pushed first. Its time becomes the clock.
    ///
    /// # Complexity
    /// O(1) amortized: after its push, and after each update, an element is moved at most 64 times. At worst O(n), for
    /// n elements.
    ///
    /// # Examples
    /// From `timers::Timers::stop_first` of `cordyceps_shared_uses`:
    /// ```
    /// let first = self.queue.pop_front();
    /// let clock = self.queue.now();
    /// self.queue.set_times(NotBefore { clock });
    /// first
    /// ```
    pub fn pop_front(&mut self) -> Option<T::Handle>
        requires callable { O.can_compute self.old.time }
        ensures taken { MatchOption result ((self.old.nodes ≡ []) × (self.new ≡ self.old))
            (λ h. (spot : Ptr) × ((of : T → ℕ)
            → O.computes_by self.old.time of
            → (self.new.clock ≡ of (T.element h).value)
            × ((a : Nodes T)
            → Holds (by_key nat_cmp of) self.old.nodes a
            → (rest : Nodes T) × (IsEarliestLeast (precedes (by_key nat_cmp of)) a (spot, T.element h) rest
            × Holds (by_key nat_cmp of) self.new.nodes rest)))
            × IsPermutation ((spot, T.element h) ∷ self.new.nodes) self.old.nodes) }
        ensures kept { (p : Ptr) → HasSpot self.old.nodes p → MatchOption result (HasSpot self.new.nodes p)
            (λ h. HasSpot self.new.nodes p ⊎ HasElementAt self.old.nodes p (T.element h)) }
        ensures later { self.old.clock ≤ self.new.clock }
        ensures time { self.new.time ≡ self.old.time }
        ensures distinct { AreDistinct (spots self.new.nodes) }
    {
        self.buckets.list.spots_are_distinct();
        let at = self.buckets.list.front()?;
        self.clock = self.buckets.advance(&self.times, self.clock, u64::MAX, at);
        let first = self.buckets.list.front()?;
        Some(self.buckets.take_out(&self.times, self.clock, first))
    }

    /// Removes the element that is due first and returns it, if it is due at `time` or before, or returns `None`. Of
    /// those that are due at the same time it is the one that was pushed first, and its time becomes the clock. With
    /// `None` the clock becomes `time`, unless it is later already.
    ///
    /// # Complexity
    /// O(1) amortized, also where no element is due: after its push, and after each update, an element is moved at
    /// most 64 times. At worst O(n), for n elements.
    ///
    /// # Examples
    /// From `timers::Timers::pop_due` of `cordyceps_c_timers`:
    /// ```
    /// self.queue.spots_are_distinct();
    /// let timer = self.queue.pop_due(now)?;
    /// Some(into_fired(timer, &mut self.tickets))
    /// ```
    pub fn pop_due(&mut self, time: u64) -> Option<T::Handle>
        requires callable { O.can_compute self.old.time }
        ensures due { MatchOption result
            ((self.new.clock ≡ max self.old.clock time) × IsPermutation self.old.nodes self.new.nodes
            × ((of : T → ℕ)
            → O.computes_by self.old.time of
            → AreLater of time self.new.nodes
            × ((a : Nodes T)
            → Holds (by_key nat_cmp of) self.old.nodes a
            → Holds (by_key nat_cmp of) self.new.nodes a)))
            (λ h. (spot : Ptr) × ((of : T → ℕ)
            → O.computes_by self.old.time of
            → (self.new.clock ≡ of (T.element h).value) × (of (T.element h).value ≤ time)
            × ((a : Nodes T)
            → Holds (by_key nat_cmp of) self.old.nodes a
            → (rest : Nodes T) × (IsEarliestLeast (precedes (by_key nat_cmp of)) a (spot, T.element h) rest
            × Holds (by_key nat_cmp of) self.new.nodes rest)))
            × IsPermutation ((spot, T.element h) ∷ self.new.nodes) self.old.nodes) }
        ensures kept { (p : Ptr) → HasSpot self.old.nodes p → MatchOption result (HasSpot self.new.nodes p)
            (λ h. HasSpot self.new.nodes p ⊎ HasElementAt self.old.nodes p (T.element h)) }
        ensures later { self.old.clock ≤ self.new.clock }
        ensures time { self.new.time ≡ self.old.time }
        ensures distinct { AreDistinct (spots self.new.nodes) }
    {
        self.buckets.list.spots_are_distinct();
        if time < self.clock {
            return None;
        }
        let Some(at) = self.buckets.list.front() else {
            self.clock = time;
            return None;
        };
        self.clock = self.buckets.advance(&self.times, self.clock, time, at);
        let next = self.buckets.list.front()?;
        let due = time_at(&self.buckets.list, &self.times, next);
        if due > time {
            return None;
        }
        Some(self.buckets.take_out(&self.times, self.clock, next))
    }

    /// Returns a reference to the value at `at`. Requires that `at` is valid.
    ///
    /// # Complexity
    /// O(1).
    ///
    /// # Examples
    /// From `timers::Timers::first_deadline` of `cordyceps_shared_uses`:
    /// ```
    /// let first = self.queue.get(self.queue.front()?);
    /// Some(first.deadline.max(self.queue.now()))
    /// ```
    pub fn get(&self, at: Spot) -> &T
        requires { HasSpot self.now.nodes at }
        ensures { HoldsAt self.now.nodes at result.now }
    {
        self.buckets.list.get(at)
    }
}
