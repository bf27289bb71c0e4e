//! The lowest bucket, spread over the buckets below it.
ghost use Rattle.std.specs.Prelude.{◌≡◌, ℕ, ◌+◌, ◌<◌, ◌≤◌, ◌⊎◌, [], ◌∷◌, length};
ghost use Rattle.std.specs.List.Sorted.{IsPermutation, IsStableBy};
ghost use Rattle.std.specs.Ordering.{nat_cmp};
ghost use denote.RawPtr.{Ptr};
ghost use Rattle.cordyceps_base.specs.BySpot.{IsFirst};
ghost use Rattle.cordyceps_base.specs.Element.{Element};
ghost use Rattle.cordyceps_base.specs.Nodes.{Nodes, spots};
ghost use Rattle.cordyceps_base.specs.Spots.{AreDistinct};
ghost use Rattle.cordyceps_single.specs.ByKey.{AscendsBy, by_key};
ghost use Rattle.cordyceps_stable.specs.Arranged.{precedes};
ghost use Rattle.cordyceps_clock.specs.Buckets.{bucket_of, number_at};
ghost use Rattle.cordyceps_clock.specs.Buckets.{AreDue, AreEmpty, IsAdvanced, IsFirstBucket, IsPutIn, IsSet};
ghost use Rattle.cordyceps_clock.specs.Buckets.{IsSpreading, IsTimed};

use crate::buckets::{BUCKETS, Buckets, bucket, time_at};
use crate::times::Times;
use cordyceps_base::linked::Linked;
use cordyceps_list::list::Links;
use cordyceps_stable::stable_list::{Spot, StableList};

/// The least time of the first bucket of a list, where the first element of that time is, and the number of the
/// bucket's elements.
pub(crate) struct First {
    pub(crate) least: u64,
    pub(crate) at: Spot,
    pub(crate) len: usize,
}

/// Returns what is known of a bucket once its next element is seen, which is at `at` and due at `due`.
fn with_next(first: First, at: Spot, due: u64) -> First
    requires { first.len < usize.MAX }
    ensures len { result.len ≡ first.len + 1 }
    ensures least { ((due < first.least) × (result.least ≡ due) × (result.at ≡ at))
        ⊎ ((first.least ≤ due) × (result.least ≡ first.least) × (result.at ≡ first.at)) }
{
    let First {
        least,
        at: before,
        len,
    } = first;
    if due < least {
        return First {
            least: due,
            at,
            len: len + 1,
        };
    }
    First {
        least,
        at: before,
        len: len + 1,
    }
}

/// Returns the least time of the bucket `k`, which comes first in the list, where the first element of that time is,
/// and the number of the bucket's elements. The first element is at `at`.
///
/// # Complexity
/// O(n), for n elements of the bucket.
pub(crate) fn first_bucket<T: Linked<Links<T>>, O: Times<T>>(
    list: &StableList<T>,
    times: &O,
    clock: u64,
    k: usize,
    at: Spot,
) -> First
    requires callable { O.can_compute times.now }
    requires first { IsFirst list.now at }
    ensures { (of : T → ℕ) (e : Element T) (after : Nodes T)
        → O.computes_by times.now of
        → AscendsBy (number_at of clock) list.now
        → list.now ≡ (at, e) ∷ after
        → bucket_of clock (of e.value) ≡ k
        → IsFirstBucket of clock k list.now result.least result.at result.len }
{
    list.spots_are_distinct();
    // for the proof: the number of its elements fits
    let _len = list.len();
    let mut first = First {
        least: time_at(list, times, at),
        at,
        len: 1,
    };
    let mut next = list.next(at);
    while let Some(at) = next {
        let due = time_at(list, times, at);
        if bucket(clock, due) != k {
            break;
        }
        first = with_next(first, at, due);
        next = list.next(at);
    }
    first
}

impl<T: Linked<Links<T>>> Buckets<T> {
    /// Moves the first of the nodes ahead, which is at `at`, to the end of its bucket `k`. Requires that no bucket
    /// above `low` and up to `k` has an element yet.
    ///
    /// # Complexity
    /// O(1).
    fn place(&mut self, low: usize, k: usize, at: Spot)
        requires within { k < BUCKETS }
        requires low { low ≤ k }
        requires empty { AreEmpty self.old.ends low k }
        requires ready { (number : Ptr × Element T → ℕ) × (j : ℕ) × (done : Nodes T) × (e : Element T)
            × (ahead : Nodes T) × (others : Nodes T) × (number (at, e) ≡ k)
            × IsSpreading number self.old.ends self.old.list j done ((at, e) ∷ ahead) others }
        ensures placed { (number : Ptr × Element T → ℕ) (j : ℕ) (done : Nodes T) (e : Element T)
            (ahead others : Nodes T)
            → number (at, e) ≡ k
            → IsSpreading number self.old.ends self.old.list j done ((at, e) ∷ ahead) others
            → (more : Nodes T) × IsSpreading number self.new.ends self.new.list j more ahead others
            × IsPutIn number k done at e more }
        ensures end { IsSet self.old.ends self.new.ends k at }
        ensures distinct { AreDistinct (spots self.new.list) }
    {
        self.list.spots_are_distinct();
        self.move_above(low, k, at);
    }

    /// Spreads the first `len` elements, of which the first is at `at`, over the buckets in which they are by the clock.
    ///
    /// # Complexity
    /// O(n), for n elements.
    fn spread<O: Times<T>>(&mut self, times: &O, clock: u64, at: Spot, len: usize)
        requires callable { O.can_compute times.now }
        requires first { IsFirst self.old.list at }
        requires ready { (of : T → ℕ) × (j : ℕ) × (ahead : Nodes T) × (others : Nodes T) × O.computes_by times.now of
            × (length ahead ≡ len) × AreDue of clock ahead
            × IsSpreading (number_at of clock) self.old.ends self.old.list j [] ahead others }
        ensures spread { (of : T → ℕ) (j : ℕ) (ahead others : Nodes T)
            → O.computes_by times.now of
            → length ahead ≡ len
            → AreDue of clock ahead
            → IsSpreading (number_at of clock) self.old.ends self.old.list j [] ahead others
            → (done : Nodes T) × IsSpreading (number_at of clock) self.new.ends self.new.list j done [] others
            × IsStableBy (precedes (by_key nat_cmp of)) ahead done × IsPermutation ahead done }
        ensures distinct { AreDistinct (spots self.new.list) }
    {
        let mut next = Some(at);
        let mut left = len;
        // The highest bucket that an element has come into.
        let mut top = 0;
        while left > 0 {
            self.list.spots_are_distinct();
            let Some(at) = next else {
                return;
            };
            next = self.list.next(at);
            let k = bucket(clock, time_at(&self.list, times, at));
            self.place(k.min(top), k, at);
            top = top.max(k);
            left -= 1;
        }
        self.list.spots_are_distinct();
    }

    /// Moves the clock on to `until`, or only to the least time where that is earlier, and returns it. If it comes into
    /// the lowest bucket, that is spread over the buckets below. The first element is at `at`.
    ///
    /// # Complexity
    /// O(n), for n elements of the lowest bucket, each of which comes into a lower one. O(1) where no element is moved.
    pub(crate) fn advance<O: Times<T>>(
        &mut self,
        times: &O,
        clock: u64,
        until: u64,
        at: Spot,
    ) -> u64
        requires callable { O.can_compute times.now }
        requires first { IsFirst self.old.list at }
        requires later { clock ≤ until }
        requires timed { (of : T → ℕ) → O.computes_by times.now of → IsTimed of clock self.old.ends self.old.list }
        ensures timed { (of : T → ℕ) → O.computes_by times.now of → IsTimed of result self.new.ends self.new.list }
        ensures due { (of : T → ℕ) → O.computes_by times.now of → IsAdvanced of result until self.new.list }
        ensures stable { (of : T → ℕ) → O.computes_by times.now of
            → IsStableBy (precedes (by_key nat_cmp of)) self.old.list self.new.list }
        ensures kept { IsPermutation self.old.list self.new.list }
        ensures within { (clock ≤ result) × (result ≤ until) }
        ensures distinct { AreDistinct (spots self.new.list) }
    {
        self.list.spots_are_distinct();
        let k = bucket(clock, time_at(&self.list, times, at));
        if k == 0 {
            return clock;
        }
        let to = bucket(clock, until);
        if to < k {
            return until;
        }
        let First { least, at: _, len } = first_bucket(&self.list, times, clock, k, at);
        let next = least.min(until);
        self.ends[k] = None;
        self.spread(times, next, at, len);
        next
    }
}
