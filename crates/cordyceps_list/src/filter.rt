//! The iterator that removes the elements for which a predicate returns `true`.
//!
//! Each `next` opens a `CursorMut` at the filter's place, calls its `remove_first`, and closes it. Between two calls
//! the list has its nodes, so a filter that is forgotten by `mem::forget` leaves the list as it is then. The front
//! finger of the list keeps the address of the place, so no cursor is opened by a search.
ghost use Rattle.std.specs.Prelude.{◌≡◌, ◌≤◌, length};

use crate::cursor_mut::CursorMut;
use crate::finger::Fingers;
use crate::list::{Links, List};
use cordyceps_base::linked::Linked;

/// An iterator that removes the elements for which a predicate returns `true`, in order, and returns them.
///
/// The predicate is called once on each value, when the iterator comes to it. The other elements stay in the list. So
/// do those that it has not come to when it is dropped.
///
/// # Complexity
/// Each `next` is O(k), for k values that the predicate is called on. Dropping is O(1).
///
/// # Examples
/// From `examples::move_urgent` of `cordyceps_uses`:
/// ```
/// let mut out = jobs.drain_filter(move |job: &Job| job.rank <= most);
/// // `next` passes the jobs that stay, and returns the next one to move.
/// while let Some(job) = out.next() {
///     urgent.push_back(job);
/// }
/// ```
pub struct DrainFilter<'a, T, F> {
    list: &'a mut List<T>,
    index: usize,
    predicate: F,
    ghost inside: { index ≤ length list.now },
}

impl<'a, T, F: Drop> Drop for DrainFilter<'a, T, F> {
    ghost use Rattle.cordyceps_list.specs.DrainFilter.{elements};

    /// Ends the iterator. The elements that it has not returned stay in the list.
    ///
    /// # Complexity
    /// O(1).
    fn drop(self)
        ensures { self.exit.0.now ≡ elements self.entry }
    {
        let DrainFilter {
            list: _,
            index: _,
            predicate: _,
        } = self;
    }
}

impl<T: Linked<Links<T>>> List<T> {
    ghost use Rattle.cordyceps_list.specs.DrainFilter.{elements, place, lender, predicate_of};

    /// Returns an iterator that removes the elements for which the predicate returns `true`, and keeps the others. Each
    /// call of `next` requires that the predicate can be called on the values that are left.
    ///
    /// # Complexity
    /// O(1), and O(n) for the whole iteration, for n elements.
    ///
    /// # Examples
    /// From `examples::move_urgent` of `cordyceps_uses`:
    /// ```
    /// let mut out = jobs.drain_filter(move |job: &Job| job.rank <= most);
    /// // `next` passes the jobs that stay, and returns the next one to move.
    /// while let Some(job) = out.next() {
    ///     urgent.push_back(job);
    /// }
    /// ```
    pub fn drain_filter<F: FnMut(&T) -> bool + Drop>(
        &mut self,
        predicate: F,
    ) -> DrainFilter<'_, T, F>
        ensures same_reference { lender result ≡ self.entry.ghost_name }
        ensures elements { elements result ≡ self.old }
        ensures place { place result ≡ 0 }
        ensures predicate { predicate_of result ≡ predicate }
    {
        self.fingers = Fingers::at_ends(&self.chain);
        DrainFilter {
            list: self,
            index: 0,
            predicate,
        }
    }
}

impl<'a, T: Linked<Links<T>>, F: FnMut(&T) -> bool + Drop> Iterator for DrainFilter<'a, T, F> {
    ghost use Rattle.std.specs.Prelude.{◌≡◌, ◌-◌, length, drop, IfSome, Some};
    ghost use Rattle.std.specs.Iterator.SizeHint.{IsWithinCount};
    ghost use Rattle.std.specs.Fn.{CalledAt};
    ghost use Rattle.std.specs.Iterator.{at_most, UpTo};
    ghost use Rattle.cordyceps_base.specs.Element.{values};
    ghost use Rattle.cordyceps_list.specs.DrainFilter.{elements, place, predicate_of, drain_steps};
    ghost use Rattle.cordyceps_list.specs.Walks.{MayAskAll};

    type Item = T::Handle;

    ghost can_next = { λ s. MayAskAll F.FnMut (drop (place s) (values (elements s))) (predicate_of s) };

    ghost next_gives = { drain_steps T.element (CalledAt F.FnMut) };

    ghost remaining = { λ s. at_most (length (elements s) - place s) };

    /// Removes the next element for which the predicate returns `true` and returns it, or `None` if there is none.
    ///
    /// # Complexity
    /// O(k), for k values that the predicate is called on.
    fn next(&mut self) -> Option<T::Handle> {
        let mut cursor = CursorMut::at_place(&mut *self.list, self.index);
        let removed = cursor.remove_first_by(&mut self.predicate);
        self.index = cursor.close();
        removed
    }

    /// Returns 0 and the length of the list as bounds.
    ///
    /// # Complexity
    /// O(1).
    fn size_hint(&self) -> (usize, Option<usize>)
        ensures lower { IsWithinCount result.0 (at_most (length (elements self.now) - place self.now)) }
        ensures upper { IfSome result.1 (UpTo (at_most (length (elements self.now) - place self.now))) }
        ensures exact { result ≡ (0, Some (length (elements self.now))) }
    {
        (0, Some(self.list.len()))
    }
}
