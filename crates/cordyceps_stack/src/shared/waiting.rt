//! The calls of a shared stack that may wait.
ghost use Rattle.std.specs.Prelude.{◌≡◌, ◌<◌, ◌≤◌, ℕ, suc, List, Bool, length, map};
ghost use Rattle.cordyceps_shared.specs.Shares.{whole};
ghost use Rattle.cordyceps_stack.specs.Shared.Calls.{PushesAt, PushesAllAt};

use crate::shared::calls::{Party, TransferStack};
use crate::shared::{chain, steps};
use cordyceps_base::linked::Linked;
use cordyceps_base::stack::Links;
use cordyceps_shared::required;
use cordyceps_single::stack::Stack;
use std::sync::Wait;

impl<T: Linked<Links<T>>> TransferStack<T> {
    /// Pushes an element. Requires that the party has a room, which the element then uses.
    ///
    /// # Complexity
    /// O(t), for t tries, each as that of `try_push`.
    ///
    /// # Waits
    /// While other parties push or take between its steps it tries again, and pauses from the second failure on, for 31
    /// to 320 spin-loop hints. If they do so without end, it never returns. A whole party succeeds at its first try.
    pub fn push<R: Wait>(&self, rt: &R, party: &mut Party<T>, handle: T::Handle)
        requires table { party.old.table ≡ self.now }
        requires room { 0 < party.old.rooms }
        ensures pushed { (tries : ℕ) × (was_empty : Bool) × PushesAt (suc tries) handle was_empty party.old party.new }
        ensures whole { party.old.share ≡ whole → (was_empty : Bool) × PushesAt 1 handle was_empty party.old party.new }
    {
        self.push_was_empty(rt, party, handle);
    }

    /// Pushes an element as `push` does, and returns `true` if the stack was empty just before.
    ///
    /// # Complexity
    /// O(t), for t tries, each as that of `try_push`.
    ///
    /// # Waits
    /// As `push`.
    pub fn push_was_empty<R: Wait>(&self, rt: &R, party: &mut Party<T>, handle: T::Handle) -> bool
        requires table { party.old.table ≡ self.now }
        requires room { 0 < party.old.rooms }
        ensures pushed { (tries : ℕ) × PushesAt (suc tries) handle result party.old party.new }
        ensures whole { party.old.share ≡ whole → PushesAt 1 handle result party.old party.new }
    {
        required::a_free_room(party.rooms());
        steps::push(
            rt,
            &self.rooms.shared,
            &mut party.seat,
            &mut party.free,
            handle,
        )
    }

    /// Pushes all elements of a stack at one step, and returns `true` if this stack was empty just before. They come
    /// out in their order, before what was held: the element that `elements` would pop first comes out first. No
    /// element of another party comes between them. Requires that the party has as many rooms, which they then use. If
    /// there is no element, it only looks, as `is_empty` does.
    ///
    /// # Complexity
    /// O(n + t), for n elements and t tries: a load of another word, a step on each of n rooms, and then for each try
    /// one load and one compare-exchange of the head.
    ///
    /// # Waits
    /// As `push`.
    pub fn push_all<R: Wait>(&self, rt: &R, party: &mut Party<T>, elements: Stack<T>) -> bool
        requires table { party.old.table ≡ self.now }
        requires rooms { length elements ≤ party.old.rooms }
        ensures pushed { (pushed : List T.Handle) × (elements ≡ map T.element pushed)
            × ((tries : ℕ) × PushesAllAt (suc tries) pushed result party.old party.new) }
        ensures whole { party.old.share ≡ whole → (pushed : List T.Handle) × (elements ≡ map T.element pushed)
            × PushesAllAt 1 pushed result party.old party.new }
    {
        chain::push_all(
            rt,
            &self.rooms.shared,
            &mut party.seat,
            &mut party.free,
            elements,
        )
    }
}
