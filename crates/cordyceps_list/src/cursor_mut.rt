//! Cursors that change a list.
//!
//! ```text
//! while the cursor is there            once it has been dropped
//!
//! list      no nodes                   list      o <-> o <-> o
//!
//! cursor    o <-> o <-> o
//!                 ^
//!           address and index
//! ```
//!
//! `cursor_mut`, `cursor_front_mut` and `cursor_back_mut` take the nodes out of the list, and the cursor's drop puts
//! them back. The cursor borrows the list for as long, so no other code sees the list without its nodes, unless the
//! cursor is forgotten. `owned` has the cursor's steps, and says why a cursor owns the nodes.
ghost use Rattle.std.specs.Prelude.{◌≡◌, ◌+◌, ◌-◌, ◌<◌, ◌≤◌, ◌==◌, [], ◌∷◌, ◌++◌, take, drop, length, slice_get, option_copied, option_map};
ghost use Rattle.std.specs.Option.{option_copied_mut};
ghost use Rattle.std.specs.Borrow.{sem};
ghost use Rattle.std.specs.Fn.{CalledAt};
ghost use mir.Syntax.{named};
ghost use Rattle.cordyceps_base.specs.Element.{values};

use crate::cursor::{Cursor, place_after, place_before};
use crate::finger::Finger;
use crate::list::{Links, List};
use crate::owned::{OwnedCursor, OwnsNodes};
use cordyceps_base::linked::Linked;

/// A cursor that reads and changes a list. A contract sees the elements and the cursor's place.
///
/// A place is an index from 0 to the length. The length is the null place, which has no element: it is after the last
/// element and before the first. The cursor borrows the list until it ends.
///
/// Until it is dropped the cursor owns the list's nodes. A cursor that is forgotten, by `mem::forget`, leaves the list
/// empty, and its nodes are not freed. `N` is what owns them, and has a default that no caller has to write.
///
/// # Examples
/// From `tour::take_the_second` of `cordyceps_uses`:
/// ```
/// let mut cursor = jobs.cursor_front_mut();
/// cursor.move_next();
/// Ok(cursor.remove_current())
/// ```
pub struct CursorMut<'a, T, N: OwnsNodes<T> = OwnedCursor<T>> {
    list: &'a mut List<T>,
    nodes: N,
}

impl<T: Drop, N: OwnsNodes<T>> Drop for CursorMut<'_, T, N> {
    /// Ends the cursor. The list then has the cursor's elements.
    ///
    /// # Complexity
    /// O(1).
    fn drop(self)
        ensures { self.exit.0.now ≡ N.owned self.entry.nodes }
    {
        let CursorMut { list, nodes } = self;
        list.put_back(nodes.into_chain());
    }
}

impl<T: Linked<Links<T>>> List<T> {
    ghost use Rattle.cordyceps_list.specs.Cursor.{elements, place, lender};

    /// Returns a cursor at the null place, from which `move_next` leads to the first element, and `move_prev` to the
    /// last.
    ///
    /// # Complexity
    /// O(1).
    pub fn cursor_mut(&mut self) -> CursorMut<'_, T>
        ensures same_reference { lender result ≡ self.entry.ghost_name }
        ensures elements { elements result ≡ self.old }
        ensures place { place result ≡ length self.old }
    {
        let nodes = OwnedCursor::at_null(self.chain.take());
        CursorMut { list: self, nodes }
    }

    /// Returns a cursor at the first element, or at the null place if the list is empty.
    ///
    /// # Complexity
    /// O(1).
    ///
    /// # Examples
    /// From `tour::take_the_second` of `cordyceps_uses`:
    /// ```
    /// let mut cursor = jobs.cursor_front_mut();
    /// cursor.move_next();
    /// Ok(cursor.remove_current())
    /// ```
    pub fn cursor_front_mut(&mut self) -> CursorMut<'_, T>
        ensures same_reference { lender result ≡ self.entry.ghost_name }
        ensures elements { elements result ≡ self.old }
        ensures place { place result ≡ 0 }
    {
        let nodes = OwnedCursor::at_front(self.chain.take());
        CursorMut { list: self, nodes }
    }

    /// Returns a cursor at the last element, or at the null place if the list is empty.
    ///
    /// # Complexity
    /// O(1).
    pub fn cursor_back_mut(&mut self) -> CursorMut<'_, T>
        ensures same_reference { lender result ≡ self.entry.ghost_name }
        ensures elements { elements result ≡ self.old }
        ensures place { place result ≡ length self.old - 1 }
    {
        let nodes = OwnedCursor::at_back(self.chain.take());
        CursorMut { list: self, nodes }
    }
}

impl<'a, T: Linked<Links<T>>> CursorMut<'a, T> {
    ghost use Rattle.cordyceps_list.specs.Cursor.{elements, place, lender, Stands, LendsAndStands};
    ghost use Rattle.cordyceps_list.specs.Places.{next_place, prev_place, index_at};
    ghost use Rattle.cordyceps_list.specs.Filter.{RemovesFirst};
    ghost use Rattle.cordyceps_list.specs.Walks.{MayAsk};

    /// Returns a cursor at a place, which is sought from the fingers of the list. Requires that the place is at most
    /// the length. It is inlined, so that it costs no search at the front finger.
    #[inline(always)]
    pub(crate) fn at_place(list: &'a mut List<T>, index: usize) -> CursorMut<'a, T>
        requires { index ≤ length list.old }
        ensures same_reference { lender result ≡ list.entry.ghost_name }
        ensures elements { elements result ≡ list.old }
        ensures place { place result ≡ index }
    {
        let address = list.fingers.seek_within(&list.chain, index);
        let nodes = OwnedCursor::at_place(list.chain.take(), Finger { address, index });
        CursorMut { list, nodes }
    }

    /// Ends the cursor as its drop does, and returns its place, where it leaves the front finger of the list.
    #[inline(always)]
    pub(crate) fn close(self) -> usize
        ensures list { self.exit.0.now ≡ elements self.entry }
        ensures place { result ≡ place self.entry }
        ensures within { result ≤ length (elements self.entry) }
    {
        let CursorMut { list, nodes } = self;
        let place = nodes.place();
        list.put_back_at(nodes);
        place
    }

    /// Returns the cursor's place.
    pub(crate) fn place(&self) -> usize
        ensures value { result ≡ place self.now }
        ensures inside { result ≤ length (elements self.now) }
    {
        self.nodes.place()
    }

    /// Returns the number of elements of the list.
    ///
    /// # Complexity
    /// O(1).
    pub fn len(&self) -> usize
        ensures { result ≡ length (elements self.now) }
    {
        self.nodes.len()
    }

    /// Returns `true` if the list has no element.
    ///
    /// # Complexity
    /// O(1).
    pub fn is_empty(&self) -> bool
        ensures { result ≡ (length (elements self.now) == 0) }
    {
        self.len() == 0
    }

    /// Returns the index of the cursor's element, or `None` at the null place. The cursor's place is at most the
    /// length.
    ///
    /// # Complexity
    /// O(1).
    pub fn index(&self) -> Option<usize>
        ensures value { result ≡ index_at (length (elements self.now)) (place self.now) }
        ensures within { place self.now ≤ length (elements self.now) }
    {
        let index = self.place();
        if index < self.len() {
            Some(index)
        } else {
            None
        }
    }

    /// Moves the cursor to the next place: from the last element to the null place, and from there to the first
    /// element.
    ///
    /// # Complexity
    /// O(1).
    pub fn move_next(&mut self)
        ensures { Stands self.old self.new (elements self.old)
            (next_place (length (elements self.old)) (place self.old)) }
    {
        self.nodes.move_next();
    }

    /// Moves the cursor to the previous place: from the first element to the null place, and from there to the last
    /// element.
    ///
    /// # Complexity
    /// O(1).
    pub fn move_prev(&mut self)
        ensures { Stands self.old self.new (elements self.old)
            (prev_place (length (elements self.old)) (place self.old)) }
    {
        self.nodes.move_prev();
    }

    /// Returns a reference to the value at the cursor, or `None` at the null place.
    ///
    /// # Complexity
    /// O(1).
    pub fn current(&self) -> Option<&T>
        ensures { option_copied result ≡ slice_get (values (elements self.now)) (place self.now) }
    {
        self.as_cursor().current()
    }

    /// Returns a reference to the value at the next place, or `None` if that is the null place. At the null place it
    /// returns the first value, if there is one.
    ///
    /// # Complexity
    /// O(1).
    pub fn peek_next(&self) -> Option<&T>
        ensures { option_copied result
            ≡ slice_get (values (elements self.now)) (next_place (length (elements self.now)) (place self.now)) }
    {
        self.as_cursor().peek_next()
    }

    /// Returns a reference to the value at the previous place, or `None` if that is the null place. At the null place
    /// it returns the last value, if there is one.
    ///
    /// # Complexity
    /// O(1).
    pub fn peek_prev(&self) -> Option<&T>
        ensures { option_copied result
            ≡ slice_get (values (elements self.now)) (prev_place (length (elements self.now)) (place self.now)) }
    {
        self.as_cursor().peek_prev()
    }

    /// Returns a mutable reference to the value at the cursor, or `None` at the null place. The element keeps its
    /// number.
    ///
    /// # Complexity
    /// O(1).
    ///
    /// # Examples
    /// From `replay::blocks::set` of `cordyceps_tables`:
    /// ```
    /// let Some(item) = cursor.current_mut() else {
    ///     return nothing();
    /// };
    /// item.value = value;
    /// ```
    #[tactic(auto, using(cordyceps_base::proofs::Places::length_with_value))]
    pub fn current_mut(&mut self) -> Option<&mut T>
        ensures* writes_back { sem 𝓛
            (LendsAndStands (record { mir = named 1; lft = [] }) T.row self.entry (place self.old) (place self.old)
            result) }
        ensures value { option_copied_mut result ≡ slice_get (values (elements self.old)) (place self.old) }
    {
        if self.place() == self.len() {
            return None;
        }
        let nodes = &mut self.nodes;
        Some(nodes.current_mut())
    }

    /// Returns a mutable reference to the value at the next place, or `None` if that is the null place. The element
    /// keeps its number, and the cursor its place.
    ///
    /// # Complexity
    /// O(1).
    #[tactic(auto, using(cordyceps_base::proofs::Places::length_with_value))]
    pub fn peek_next_mut(&mut self) -> Option<&mut T>
        ensures* writes_back { sem 𝓛
            (LendsAndStands (record { mir = named 1; lft = [] }) T.row self.entry
            (next_place (length (elements self.old)) (place self.old)) (place self.old) result) }
        ensures value { option_copied_mut result
            ≡ slice_get (values (elements self.old)) (next_place (length (elements self.old)) (place self.old)) }
    {
        if place_after(self.place(), self.len()) >= self.len() {
            return None;
        }
        let nodes = &mut self.nodes;
        Some(nodes.peek_next_mut())
    }

    /// Returns a mutable reference to the value at the previous place, or `None` if that is the null place. The element
    /// keeps its number, and the cursor its place.
    ///
    /// # Complexity
    /// O(1).
    #[tactic(auto, using(cordyceps_base::proofs::Places::length_with_value))]
    pub fn peek_prev_mut(&mut self) -> Option<&mut T>
        ensures* writes_back { sem 𝓛
            (LendsAndStands (record { mir = named 1; lft = [] }) T.row self.entry
            (prev_place (length (elements self.old)) (place self.old)) (place self.old) result) }
        ensures value { option_copied_mut result
            ≡ slice_get (values (elements self.old)) (prev_place (length (elements self.old)) (place self.old)) }
    {
        if place_before(self.place(), self.len()) >= self.len() {
            return None;
        }
        let nodes = &mut self.nodes;
        Some(nodes.peek_prev_mut())
    }

    /// Returns a mutable reference to the value at the cursor, and moves the cursor to the next place. At the null
    /// place it returns `None`, and the cursor stays there.
    ///
    /// # Complexity
    /// O(1).
    #[tactic(auto, using(cordyceps_base::proofs::Places::length_with_value))]
    pub fn next(&mut self) -> Option<&mut T>
        ensures* writes_back { sem 𝓛
            (LendsAndStands (record { mir = named 1; lft = [] }) T.row self.entry (place self.old) (place self.old + 1)
            result) }
        ensures value { option_copied_mut result ≡ slice_get (values (elements self.old)) (place self.old) }
    {
        if self.place() == self.len() {
            return None;
        }
        let nodes = &mut self.nodes;
        Some(nodes.next_mut())
    }

    /// Inserts an element before the cursor's, at which the cursor stays. At the null place the element becomes the
    /// last one. Requires a length below `usize::MAX`.
    ///
    /// # Complexity
    /// O(1).
    ///
    /// # Examples
    /// From `replay::blocks::insert` of `cordyceps_tables`:
    /// ```
    /// match side {
    ///     Side::After => cursor.insert_after(node),
    ///     Side::Before => cursor.insert_before(node),
    /// }
    /// ```
    pub fn insert_before(&mut self, handle: T::Handle)
        requires { length (elements self.old) < usize.MAX }
        ensures { Stands self.old self.new
            (take (place self.old) (elements self.old) ++ T.element handle ∷ drop (place self.old) (elements self.old))
            (place self.old + 1) }
    {
        self.nodes.insert_before(T::into_ptr(handle));
    }

    /// Inserts an element after the cursor's, at which the cursor stays. At the null place the element becomes the
    /// first one. Requires a length below `usize::MAX`.
    ///
    /// # Complexity
    /// O(1).
    pub fn insert_after(&mut self, handle: T::Handle)
        requires { length (elements self.old) < usize.MAX }
        ensures within { place self.old ≤ length (elements self.old) }
        ensures inside { place self.old < length (elements self.old)
            → Stands self.old self.new
            (take (place self.old + 1) (elements self.old) ++ T.element handle
            ∷ drop (place self.old + 1) (elements self.old)) (place self.old) }
        ensures null { place self.old ≡ length (elements self.old)
            → Stands self.old self.new (T.element handle ∷ elements self.old) (length (elements self.old) + 1) }
    {
        if self.place() < self.len() {
            self.nodes.insert_after(T::into_ptr(handle));
        } else {
            self.nodes.insert_first(T::into_ptr(handle));
        }
    }

    /// Removes the cursor's element and returns it, or `None` at the null place. The cursor is then at the next place.
    ///
    /// # Complexity
    /// O(1).
    ///
    /// # Examples
    /// From `tour::take_the_second` of `cordyceps_uses`:
    /// ```
    /// let mut cursor = jobs.cursor_front_mut();
    /// cursor.move_next();
    /// Ok(cursor.remove_current())
    /// ```
    pub fn remove_current(&mut self) -> Option<T::Handle>
        ensures answer { option_map T.element result ≡ slice_get (elements self.old) (place self.old) }
        ensures stands { Stands self.old self.new
            (take (place self.old) (elements self.old) ++ drop (place self.old + 1) (elements self.old))
            (place self.old) }
    {
        if self.place() == self.len() {
            return None;
        }
        Some(T::from_ptr(self.nodes.remove_current()))
    }

    /// Inserts all elements of `list` before the cursor's, at which the cursor stays. At the null place they become the
    /// last ones. Requires that the sum of the lengths is at most `usize::MAX`.
    ///
    /// # Complexity
    /// O(1).
    ///
    /// # Examples
    /// From `replay::blocks::put` of `cordyceps_tables`:
    /// ```
    /// match side {
    ///     Side::After => cursor.splice_after(more),
    ///     Side::Before => cursor.splice_before(more),
    /// }
    /// ```
    pub fn splice_before(&mut self, list: List<T>)
        requires { length (elements self.old) + length list ≤ usize.MAX }
        ensures { Stands self.old self.new
            (take (place self.old) (elements self.old) ++ list ++ drop (place self.old) (elements self.old))
            (place self.old + length list) }
    {
        self.nodes.splice_before(list.into_chain());
    }

    /// Inserts all elements of `list` after the cursor's, at which the cursor stays. At the null place they become the
    /// first ones. Requires that the sum of the lengths is at most `usize::MAX`.
    ///
    /// # Complexity
    /// O(1).
    pub fn splice_after(&mut self, list: List<T>)
        requires { length (elements self.old) + length list ≤ usize.MAX }
        ensures within { place self.old ≤ length (elements self.old) }
        ensures inside { place self.old < length (elements self.old)
            → Stands self.old self.new
            (take (place self.old + 1) (elements self.old) ++ list ++ drop (place self.old + 1) (elements self.old))
            (place self.old) }
        ensures null { place self.old ≡ length (elements self.old)
            → Stands self.old self.new (list ++ elements self.old) (length (elements self.old) + length list) }
    {
        if self.place() < self.len() {
            self.nodes.splice_after(list.into_chain());
        } else {
            self.nodes.splice_first(list.into_chain());
        }
    }

    /// Splits the list after the cursor's element, and returns the elements after it. At the null place it returns all
    /// elements, and the cursor is at the null place of an empty list.
    ///
    /// # Complexity
    /// O(1).
    ///
    /// # Examples
    /// From `replay::blocks::cut` of `cordyceps_tables`:
    /// ```
    /// match side {
    ///     Side::After => cursor.split_after(),
    ///     Side::Before => cursor.split_before(),
    /// }
    /// ```
    pub fn split_after(&mut self) -> List<T>
        ensures within { place self.old ≤ length (elements self.old) }
        ensures inside { place self.old < length (elements self.old)
            → (result ≡ drop (place self.old + 1) (elements self.old)) }
        ensures inside_stands { place self.old < length (elements self.old)
            → Stands self.old self.new (take (place self.old + 1) (elements self.old)) (place self.old) }
        ensures null { place self.old ≡ length (elements self.old) → (result ≡ elements self.old) }
        ensures null_stands { place self.old ≡ length (elements self.old) → Stands self.old self.new [] 0 }
    {
        if self.place() < self.len() {
            return List::from_chain(self.nodes.split_after());
        }
        List::from_chain(self.nodes.split_before())
    }

    /// Splits the list before the cursor's element, and returns the elements before it. The cursor stays at its
    /// element, which is then the first one. At the null place it returns all elements.
    ///
    /// # Complexity
    /// O(1).
    pub fn split_before(&mut self) -> List<T>
        ensures answer { result ≡ take (place self.old) (elements self.old) }
        ensures stands { Stands self.old self.new (drop (place self.old) (elements self.old)) 0 }
    {
        let front = self.nodes.split_before();
        List::from_chain(front)
    }

    /// Removes the first element for which the predicate returns `true` and returns it, searching from the cursor's
    /// place to the last element. The cursor is then at the next place.
    ///
    /// The predicate is called on the values in order, up to the first `true`. If there is none, it returns `None`, and
    /// the cursor is at the null place. Requires that the predicate can be called on these values.
    ///
    /// # Complexity
    /// O(k), for k values that the predicate is called on.
    ///
    /// # Examples
    /// From `replay::blocks::remove_first` of `cordyceps_tables`:
    /// ```
    /// let mut turn = true;
    /// let removed = cursor.remove_first(
    ///     move |item: &Item| -> bool
    ///         ensures answer { result ≡ passes filter turn.entry item.now }
    ///         ensures turned { turn.exit ≡ not turn.entry }
    ///     {
    ///         let is = passes(filter, turn, item);
    ///         turn = !turn;
    ///         is
    ///     },
    /// );
    /// ```
    pub fn remove_first<F: FnMut(&T) -> bool + Drop>(
        &mut self,
        mut predicate: F,
    ) -> Option<T::Handle>
        requires { MayAsk F.FnMut (drop (place self.old) (values (elements self.old))) predicate }
        ensures removes { (last : F)
            × RemovesFirst T.element (CalledAt F.FnMut) (elements self.old) (place self.old) predicate result
            (elements self.new) (place self.new) last }
        ensures same_reference { lender self.new ≡ lender self.old }
    {
        self.remove_first_by(&mut predicate)
    }

    /// Removes an element as `remove_first` does, by a predicate that the caller keeps. It is inlined, so that a filter
    /// has no call.
    #[inline(always)]
    pub(crate) fn remove_first_by<F: FnMut(&T) -> bool>(
        &mut self,
        predicate: &mut F,
    ) -> Option<T::Handle>
        requires { MayAsk F.FnMut (drop (place self.old) (values (elements self.old))) predicate.old }
        ensures removes { RemovesFirst T.element (CalledAt F.FnMut) (elements self.old) (place self.old) predicate.old
            result (elements self.new) (place self.new) predicate.new }
        ensures same_reference { lender self.new ≡ lender self.old }
    {
        Some(T::from_ptr(self.nodes.remove_first(predicate)?))
    }

    /// Returns a cursor that only reads, at the same place.
    ///
    /// # Complexity
    /// O(1).
    pub fn as_cursor(&self) -> Cursor<'_, T>
        ensures elements { result.elements ≡ elements self.now }
        ensures place { result.place ≡ place self.now }
    {
        self.nodes.as_cursor()
    }
}
