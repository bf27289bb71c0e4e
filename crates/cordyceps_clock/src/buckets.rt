//! Buckets of times, which lie in one list.
ghost use Rattle.std.specs.Prelude.{◌≡◌, ◌≢◌, ℕ, ◌<◌, ◌≤◌, ◌==◌, ◌∷◌, length, false, IfSome, MatchOption, Some};
ghost use denote.RawPtr.{Ptr};
ghost use Rattle.cordyceps_base.specs.BySpot.{HasSpot, HoldsAt, IsMovedAfter, IsMovedFront, IsPutAfter, IsTaken};
ghost use Rattle.cordyceps_base.specs.Element.{Element};
ghost use Rattle.cordyceps_base.specs.Nodes.{Nodes, spots};
ghost use Rattle.cordyceps_base.specs.Spots.{AreDistinct};
ghost use Rattle.cordyceps_clock.specs.Buckets.{bucket_of, last_spot, number_at, row};
ghost use Rattle.cordyceps_clock.specs.Buckets.{AreEmpty, IsKept, IsMovedIn, IsNearest, IsPutIn, IsSet};
ghost use Rattle.cordyceps_clock.specs.Clock.{rounded};

use crate::times::Times;
use cordyceps_base::linked::Linked;
use cordyceps_list::list::Links;
use cordyceps_stable::stable_list::{Spot, StableList};

/// The number of buckets: one for the clock itself, and one for each bit of a time.
pub(crate) const BUCKETS: usize = 65;

/// The spot of the last element of each bucket that has one.
pub(crate) type Ends = [Option<Spot>; BUCKETS];

/// A list whose elements are in the order of their buckets, and where each bucket ends in it.
#[derive(Drop)]
pub(crate) struct Buckets<T> {
    pub(crate) list: StableList<T>,
    pub(crate) ends: Ends,
}

/// Returns the number of the bucket of a time: 0 for the clock itself, and for another time one more than the highest
/// bit in which the two differ.
pub(crate) fn bucket(clock: u64, time: u64) -> usize
    ensures is { result ≡ bucket_of clock time }
    ensures within { result < BUCKETS }
{
    BUCKETS - 1 - (clock ^ time).leading_zeros() as usize
}

/// Returns the least time that the bucket of a time can hold: the time without its bits below the highest in which it
/// differs from the clock.
pub(crate) fn least_of_bucket(clock: u64, time: u64) -> u64
    ensures { result ≡ rounded clock time }
{
    let low = bucket(clock, time).saturating_sub(1);
    (time >> low) << low
}

/// Returns the end of the bucket `k`, or where that has no element, of the nearest lower one that has.
///
/// # Complexity
/// O(1): it reads at most `BUCKETS` ends.
pub(crate) fn nearest_end(ends: &Ends, k: usize) -> Option<Spot>
    requires { k < BUCKETS }
    ensures { IsNearest ends.now k result }
{
    let mut above = k + 1;
    while above > 0 {
        let end = ends[above - 1];
        if end.is_some() {
            return end;
        }
        above -= 1;
    }
    None
}

/// Returns the time of the element at a spot.
pub(crate) fn time_at<T: Linked<Links<T>>, O: Times<T>>(
    list: &StableList<T>,
    times: &O,
    at: Spot,
) -> u64
    requires callable { O.can_compute times.now }
    requires there { HasSpot list.now at }
    ensures { (v : T) × HoldsAt list.now at v × ((of : T → ℕ) → O.computes_by times.now of → result ≡ of v) }
{
    times.time(list.get(at))
}

/// Returns `true` if there is an element at the spot, and its time is in the bucket `k`.
fn is_in<T: Linked<Links<T>>, O: Times<T>>(
    list: &StableList<T>,
    times: &O,
    clock: u64,
    k: usize,
    at: Option<Spot>,
) -> bool
    requires callable { O.can_compute times.now }
    requires there { IfSome at (λ p. HasSpot list.now p) }
    ensures { (of : T → ℕ) → O.computes_by times.now of → MatchOption at (result ≡ false)
        (λ p. (v : T) × HoldsAt list.now p v × (result ≡ (bucket_of clock (of v) == k))) }
{
    match at {
        Some(at) => bucket(clock, time_at(list, times, at)) == k,
        None => false,
    }
}

/// Inserts an element right behind the one at `end`, or first where there is no end, and returns its spot.
fn insert_behind<T: Linked<Links<T>>>(
    list: &mut StableList<T>,
    end: Option<Spot>,
    handle: T::Handle,
) -> Spot
    requires there { IfSome end (λ to. HasSpot list.old to) }
    requires fits { length list.old < usize.MAX }
    ensures inserted { MatchOption end (list.new ≡ (result, T.element handle) ∷ list.old)
        (λ to. IsPutAfter list.old to result (T.element handle) list.new) }
    ensures distinct { AreDistinct (spots list.new) }
{
    match end {
        Some(to) => list.insert_after(to, handle),
        None => list.push_front(handle),
    }
}

/// Moves the element at `at` right behind the one at `end`, or to the front where there is no end.
fn move_behind<T: Linked<Links<T>>>(list: &mut StableList<T>, end: Option<Spot>, at: Spot)
    requires there { HasSpot list.old at }
    requires other { IfSome end (λ to. HasSpot list.old to × (at ≢ to)) }
    ensures moved { MatchOption end (IsMovedFront list.old at list.new) (λ to. IsMovedAfter list.old at to list.new) }
    ensures distinct { AreDistinct (spots list.new) }
{
    match end {
        Some(to) => list.move_after(at, to),
        None => list.move_to_front(at),
    }
}

impl<T: Linked<Links<T>>> Buckets<T> {
    /// Puts an element after all of the buckets up to `k`, and returns its spot.
    ///
    /// # Complexity
    /// O(1).
    pub(crate) fn put(&mut self, k: usize, handle: T::Handle) -> Spot
        requires within { k < BUCKETS }
        requires fits { length self.old.list < usize.MAX }
        requires kept { (number : Ptr × Element T → ℕ) × IsKept number self.old.ends self.old.list }
        ensures put { (number : Ptr × Element T → ℕ)
            → number (result, T.element handle) ≡ k
            → IsKept number self.old.ends self.old.list
            → IsKept number self.new.ends self.new.list
            × IsPutIn number k self.old.list result (T.element handle) self.new.list }
        ensures distinct { AreDistinct (spots self.new.list) }
    {
        self.list.spots_are_distinct();
        let end = nearest_end(&self.ends, k);
        let spot = insert_behind(&mut self.list, end, handle);
        self.ends[k] = Some(spot);
        spot
    }

    /// Returns the end of the bucket `k` without the element at `at`, which is in it.
    fn end_without<O: Times<T>>(&self, times: &O, clock: u64, k: usize, at: Spot) -> Option<Spot>
        requires callable { O.can_compute times.now }
        requires within { k < BUCKETS }
        requires there { HasSpot self.now.list at }
        requires distinct { AreDistinct (spots self.now.list) }
        ensures { (of : T → ℕ) (e : Element T) (rest : Nodes T)
            → O.computes_by times.now of
            → IsKept (number_at of clock) self.now.ends self.now.list
            → IsTaken self.now.list at e rest
            → bucket_of clock (of e.value) ≡ k
            → result ≡ last_spot (row (number_at of clock) k rest) }
    {
        if is_in(&self.list, times, clock, k, self.list.next(at)) {
            return self.ends[k];
        }
        match self.list.prev(at) {
            Some(before) => {
                if is_in(&self.list, times, clock, k, Some(before)) {
                    return Some(before);
                }
                None
            }
            None => None,
        }
    }

    /// Writes for the bucket of the element at `at` the end that it has without this element.
    ///
    /// # Complexity
    /// O(1).
    pub(crate) fn leave_out<O: Times<T>>(&mut self, times: &O, clock: u64, at: Spot)
        requires callable { O.can_compute times.now }
        requires there { HasSpot self.old.list at }
        ensures kept { (of : T → ℕ) (e : Element T) (rest : Nodes T)
            → O.computes_by times.now of
            → IsKept (number_at of clock) self.old.ends self.old.list
            → IsTaken self.old.list at e rest
            → IsKept (number_at of clock) self.new.ends rest }
        ensures list { self.new.list ≡ self.old.list }
    {
        self.list.spots_are_distinct();
        let k = bucket(clock, time_at(&self.list, times, at));
        self.ends[k] = self.end_without(times, clock, k, at);
    }

    /// Removes the element at `at` and returns it.
    ///
    /// # Complexity
    /// O(1).
    pub(crate) fn take_out<O: Times<T>>(&mut self, times: &O, clock: u64, at: Spot) -> T::Handle
        requires callable { O.can_compute times.now }
        requires there { HasSpot self.old.list at }
        ensures taken { IsTaken self.old.list at (T.element result) self.new.list }
        ensures kept { (of : T → ℕ)
            → O.computes_by times.now of
            → IsKept (number_at of clock) self.old.ends self.old.list
            → IsKept (number_at of clock) self.new.ends self.new.list }
        ensures distinct { AreDistinct (spots self.new.list) }
    {
        self.leave_out(times, clock, at);
        self.list.remove(at)
    }

    /// Moves the element at `at` after all of the buckets up to `k`, and ends the bucket `k` there. Requires that no
    /// bucket above `low` and up to `k` has an element, so that their ends need not be read.
    ///
    /// # Complexity
    /// O(1).
    pub(crate) fn move_above(&mut self, low: usize, k: usize, at: Spot)
        requires within { k < BUCKETS }
        requires low { low ≤ k }
        requires empty { AreEmpty self.old.ends low k }
        requires there { HasSpot self.old.list at }
        requires others { (to : Ptr) → IsNearest self.old.ends low (Some to) → HasSpot self.old.list to × (at ≢ to) }
        ensures moved { IsMovedIn self.old.ends k self.old.list at self.new.list }
        ensures end { IsSet self.old.ends self.new.ends k at }
        ensures distinct { AreDistinct (spots self.new.list) }
    {
        let end = nearest_end(&self.ends, low);
        move_behind(&mut self.list, end, at);
        self.ends[k] = Some(at);
    }

    /// Moves the element at `at` after all of the buckets up to `k`, and ends the bucket `k` there.
    ///
    /// # Complexity
    /// O(1).
    pub(crate) fn move_in(&mut self, k: usize, at: Spot)
        requires within { k < BUCKETS }
        requires there { HasSpot self.old.list at }
        requires others { (to : Ptr) → IsNearest self.old.ends k (Some to) → HasSpot self.old.list to × (at ≢ to) }
        ensures moved { IsMovedIn self.old.ends k self.old.list at self.new.list }
        ensures end { IsSet self.old.ends self.new.ends k at }
        ensures distinct { AreDistinct (spots self.new.list) }
    {
        self.move_above(k, k, at);
    }
}
