//! A change of an element in place, after which it lies in the bucket of its new time.
ghost use Rattle.std.specs.Prelude.{ℕ};
ghost use Rattle.std.specs.Fn.{FnOnceReturnsAtMut};
ghost use Rattle.cordyceps_base.specs.BySpot.{HasSpot, HoldsAt, IsTaken};
ghost use Rattle.cordyceps_base.specs.Element.{Element};
ghost use Rattle.cordyceps_base.specs.Nodes.{Nodes, spots};
ghost use Rattle.cordyceps_base.specs.Spots.{AreDistinct};
ghost use Rattle.cordyceps_clock.specs.Buckets.{number_at, IsChanged, IsKept, IsRenewed};

use crate::buckets::{Buckets, bucket, time_at};
use crate::times::Times;
use cordyceps_base::linked::Linked;
use cordyceps_list::list::Links;
use cordyceps_stable::stable_list::{Spot, StableList};

/// Calls a function on the value at a spot, which it may change, and returns its result.
fn change_at<T: Linked<Links<T>>, R, F: FnOnce(&mut T) -> R>(
    list: &mut StableList<T>,
    at: Spot,
    change: F,
) -> R
    requires there { HasSpot list.old at }
    requires callable { (lent : _) → HoldsAt list.old at lent.now → F.pre change lent }
    ensures { (e : Element T) × (w : T) × FnOnceReturnsAtMut F.FnOnce change e.value result w
        × IsChanged list.old at e w list.new }
{
    change(list.get_mut(at))
}

impl<T: Linked<Links<T>>> Buckets<T> {
    /// Changes the value at `at` by a function, and moves the element to the end of the bucket of its new time. Returns
    /// the result of the function.
    ///
    /// # Complexity
    /// O(1).
    pub(crate) fn renew<O: Times<T>, R, F: FnOnce(&mut T) -> R>(
        &mut self,
        times: &O,
        clock: u64,
        at: Spot,
        change: F,
    ) -> R
        requires time { O.can_compute times.now }
        requires there { HasSpot self.old.list at }
        requires callable { (lent : _) → HoldsAt self.old.list at lent.now → F.pre change lent }
        requires kept { (of : T → ℕ)
            → O.computes_by times.now of
            → IsKept (number_at of clock) self.old.ends self.old.list }
        ensures changed { (e : Element T) × (w : T) × (rest : Nodes T)
            × FnOnceReturnsAtMut F.FnOnce change e.value result w
            × IsTaken self.old.list at e rest
            × IsTaken self.new.list at (record { id = e.id; value = w }) rest
            × ((of : T → ℕ)
            → O.computes_by times.now of
            → IsRenewed of clock self.new.ends rest at (record { id = e.id; value = w }) self.new.list) }
        ensures distinct { AreDistinct (spots self.new.list) }
    {
        self.leave_out(times, clock, at);
        let answer = change_at(&mut self.list, at, change);
        self.list.spots_are_distinct();
        let due = time_at(&self.list, times, at);
        self.move_in(bucket(clock, due), at);
        answer
    }
}
