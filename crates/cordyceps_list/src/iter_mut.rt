//! The iterator over mutable references to the values of a list.
ghost use Rattle.std.specs.Prelude.{◌≡◌, ◌+◌, ◌-◌, ◌<◌, ◌≤◌, length, slice_get, Some, None, nat_lt, [], if◌then◌else◌};
ghost use Rattle.std.specs.Option.{option_copied_mut};
ghost use Rattle.std.specs.Borrow.{sem};
ghost use mir.Syntax.{named};
ghost use Rattle.cordyceps_base.specs.Element.{values};

use crate::finger::Fingers;
use crate::list::{Links, List};
use cordyceps_base::linked::Linked;

/// An iterator over mutable references to the values of a list, from both ends. A contract sees the elements and the
/// two indexes between which the values are left.
///
/// It is no `Iterator`, since a reference has to end before the next one is returned.
///
/// # Complexity
/// Each `next` and each `next_back` is O(1).
///
/// # Examples
/// From `replay::walks::bump` of `cordyceps_tables`:
/// ```
/// let mut items = list.iter_mut();
/// while let Some(item) = items.next() {
///     item.value = item.value.wrapping_add(by);
/// }
/// ```
pub struct IterMut<'a, T> {
    list: &'a mut List<T>,
    front: usize,
    back: usize,
    ghost ordered: { front ≤ back },
    ghost inside: { back ≤ length list.now },
}

impl<T> Drop for IterMut<'_, T> {
    ghost use Rattle.cordyceps_list.specs.IterMut.{elements};

    /// Ends the iterator. The list then has the iterator's elements.
    ///
    /// # Complexity
    /// O(1).
    fn drop(self)
        ensures { self.exit.0.now ≡ elements self.entry }
    {
        let IterMut {
            list: _,
            front: _,
            back: _,
        } = self;
    }
}

impl<T: Linked<Links<T>>> List<T> {
    ghost use Rattle.cordyceps_list.specs.IterMut.{elements, from, to, lender};

    /// Returns an `IterMut` over the values, in order.
    ///
    /// # Complexity
    /// O(1), and O(1) for each value.
    pub fn iter_mut(&mut self) -> IterMut<'_, T>
        ensures same_reference { lender result ≡ self.entry.ghost_name }
        ensures elements { elements result ≡ self.old }
        ensures from { from result ≡ 0 }
        ensures to { to result ≡ length self.old }
    {
        self.fingers = Fingers::at_ends(&self.chain);
        let back = self.len();
        IterMut {
            list: self,
            front: 0,
            back,
        }
    }
}

impl<'a, T: Linked<Links<T>>> IterMut<'a, T> {
    ghost use Rattle.cordyceps_list.specs.IterMut.{elements, from, to, LendsAndSpans};

    /// Returns the number of values that are left.
    ///
    /// # Complexity
    /// O(1).
    pub fn len(&self) -> usize
        ensures { result ≡ to self.now - from self.now }
    {
        self.back - self.front
    }

    /// Returns a mutable reference to the first value that is left, or `None` if none is. The element keeps its number.
    ///
    /// # Complexity
    /// O(1).
    #[tactic(auto, using(cordyceps_base::proofs::Places::length_with_value))]
    pub fn next(&mut self) -> Option<&mut T>
        ensures* writes_back { sem 𝓛
            (LendsAndSpans (record { mir = named 1; lft = [] }) T.row self.entry (from self.old) (from self.old + 1)
            (to self.old) result) }
        ensures value { option_copied_mut result
            ≡ (if nat_lt (from self.old) (to self.old) then slice_get (values (elements self.old)) (from self.old)
            else None) }
    {
        let index = self.front;
        if index == self.back {
            return None;
        }
        self.front = index + 1;
        let list = &mut *self.list;
        Some(list.value_mut_passing(index))
    }

    /// Returns a mutable reference to the last value that is left, or `None` if none is. The element keeps its number.
    ///
    /// # Complexity
    /// O(1).
    #[tactic(auto, using(cordyceps_base::proofs::Places::length_with_value))]
    pub fn next_back(&mut self) -> Option<&mut T>
        ensures* writes_back { sem 𝓛
            (LendsAndSpans (record { mir = named 1; lft = [] }) T.row self.entry (to self.old - 1) (from self.old)
            (to self.old - 1) result) }
        ensures value { option_copied_mut result
            ≡ (if nat_lt (from self.old) (to self.old) then slice_get (values (elements self.old)) (to self.old - 1)
            else None) }
    {
        if self.front == self.back {
            return None;
        }
        let index = self.back - 1;
        self.back = index;
        let list = &mut *self.list;
        Some(list.value_mut_at(index))
    }
}
