//! Cursors that read a list.
ghost use Rattle.std.specs.Prelude.{◌≡◌, ◌+◌, ◌-◌, ◌<◌, ◌≤◌, ◌==◌, length, slice_get, option_copied, IfSome, None, ⊤};
ghost use Rattle.std.specs.Iterator.{at_most, UpTo};
ghost use Rattle.std.specs.Iterator.SizeHint.{IsWithinCount};
ghost use Rattle.cordyceps_base.specs.Element.{values};
ghost use Rattle.cordyceps_list.specs.Places.{next_place, prev_place};
ghost use Rattle.cordyceps_base.specs.Nodes.{elements};
ghost use Rattle.cordyceps_list.specs.Position.{GivesAndMoves, StandsAt};

use crate::finger::Finger;
use crate::list::{Links, List};
use cordyceps_base::boxes::Address;
use cordyceps_base::double_chain::DoubleChain;
use cordyceps_base::linked::Linked;
use std::alloc::AllocError;
use std::marker::Model;

/// A cursor that reads a list. A contract sees the elements and the cursor's place.
///
/// A place is an index from 0 to the length. The length is the null place, which has no element: it is after the last
/// element and before the first. A list can have several such cursors at a time.
///
/// # Examples
/// From `examples::first_two_ranks` of `cordyceps_uses`:
/// ```
/// let mut cursor = jobs.cursor_front();
/// let first = cursor.current()?;
/// // After the last job is the null place, at which `current` returns `None`.
/// cursor.move_next();
/// let second = cursor.current()?;
/// Some((first.rank, second.rank))
/// ```
#[derive(Drop)]
pub struct Cursor<'a, T> {
    chain: &'a DoubleChain<T>,
    address: Address,
    index: usize,
}

impl<'a, T> Model for Cursor<'a, T> {
    ghost use Rattle.cordyceps_base.specs.Nodes.{elements};
    ghost use Rattle.cordyceps_list.specs.Position.{Position, StandsAt};

    ghost Value = { Position T };

    ghost view = { λ c. record { elements = elements c.chain.now; place = c.index } };

    ghost invariant = { λ c. StandsAt c.chain.now c.address c.index };
}

impl<'a, T> Clone for Cursor<'a, T> {
    ghost is_clone = { λ c again. again ≡ c };

    ghost is_infallible = { λ _. ⊤ };

    /// Returns a second cursor at the same place. It allocates nothing, and never returns an error.
    ///
    /// # Complexity
    /// O(1).
    fn clone(&self) -> Result<Cursor<'a, T>, AllocError> {
        Ok(Cursor {
            chain: self.chain,
            address: self.address,
            index: self.index,
        })
    }
}

impl<'a, T> Cursor<'a, T> {
    /// Returns a cursor at the place of a finger.
    pub(crate) fn at_finger(chain: &'a DoubleChain<T>, at: Finger) -> Cursor<'a, T>
        requires { StandsAt chain.now at.address at.index }
        ensures { result ≡ record { elements = elements chain.now; place = at.index } }
    {
        Cursor {
            chain,
            address: at.address,
            index: at.index,
        }
    }
}

impl<T: Linked<Links<T>>> List<T> {
    /// Returns a cursor at the null place, from which `move_next` leads to the first element, and `move_prev` to the
    /// last.
    ///
    /// # Complexity
    /// O(1).
    pub fn cursor(&self) -> Cursor<'_, T>
        ensures { result ≡ record { elements = self.now; place = length self.now } }
    {
        Cursor::at_place(self, self.len())
    }

    /// Returns a cursor at the first element, or at the null place if the list is empty.
    ///
    /// # Complexity
    /// O(1).
    pub fn cursor_front(&self) -> Cursor<'_, T>
        ensures { result ≡ record { elements = self.now; place = 0 } }
    {
        Cursor::at_place(self, 0)
    }

    /// Returns a cursor at the last element, or at the null place if the list is empty.
    ///
    /// # Complexity
    /// O(1).
    pub fn cursor_back(&self) -> Cursor<'_, T>
        ensures { result ≡ record { elements = self.now; place = length self.now - 1 } }
    {
        Cursor::at_place(self, self.len().saturating_sub(1))
    }
}

/// Returns the place after `index` in a list of `len` elements; after the null place comes 0.
pub(crate) fn place_after(index: usize, len: usize) -> usize
    requires { index ≤ len }
    ensures value { result ≡ next_place len index }
    ensures inside { index < len → result ≡ index + 1 }
    ensures null { index ≡ len → result ≡ 0 }
{
    if index < len { index + 1 } else { 0 }
}

/// Returns the place before `index` in a list of `len` elements; before 0 comes the null place.
pub(crate) fn place_before(index: usize, len: usize) -> usize
    requires { index ≤ len }
    ensures value { result ≡ prev_place len index }
    ensures within { result ≤ len }
{
    if index > 0 { index - 1 } else { len }
}

impl<'a, T: Linked<Links<T>>> Cursor<'a, T> {
    ghost use Rattle.cordyceps_list.specs.Places.{index_at};

    /// Returns a cursor at a place. Requires that the place is at most the length.
    pub(crate) fn at_place(list: &'a List<T>, index: usize) -> Cursor<'a, T>
        requires { index ≤ length list.now }
        ensures { result ≡ record { elements = list.now; place = index } }
    {
        let mut fingers = list.fingers;
        let chain = &list.chain;
        let address = fingers.seek_within(chain, index);
        Cursor {
            chain,
            address,
            index,
        }
    }

    /// Returns the cursor's place.
    pub(crate) fn place(&self) -> usize
        ensures value { result ≡ self.now.place }
        ensures inside { result ≤ length self.now.elements }
    {
        self.index
    }

    /// Returns the number of elements of the list.
    ///
    /// # Complexity
    /// O(1).
    pub fn len(&self) -> usize
        ensures { result ≡ length self.now.elements }
    {
        self.chain.len()
    }

    /// Returns `true` if the list has no element.
    ///
    /// # Complexity
    /// O(1).
    pub fn is_empty(&self) -> bool
        ensures { result ≡ (length self.now.elements == 0) }
    {
        self.len() == 0
    }

    /// Returns the index of the cursor's element, or `None` at the null place.
    ///
    /// # Complexity
    /// O(1).
    pub fn index(&self) -> Option<usize>
        ensures { result ≡ index_at (length self.now.elements) self.now.place }
    {
        if self.index < self.chain.len() {
            Some(self.index)
        } else {
            None
        }
    }

    /// Moves the cursor to the next place: from the last element to the null place, and from there to the first
    /// element.
    ///
    /// # Complexity
    /// O(1).
    pub fn move_next(&mut self)
        ensures elements { self.new.elements ≡ self.old.elements }
        ensures place { self.new.place ≡ next_place (length self.old.elements) self.old.place }
    {
        let chain = self.chain;
        if self.index < chain.len() {
            self.address = chain.next(self.address, self.index);
            self.index += 1;
            return;
        }
        self.index = 0;
        if chain.len() > 0 {
            self.address = chain.head();
        }
    }

    /// Moves the cursor to the previous place: from the first element to the null place, and from there to the last
    /// element.
    ///
    /// # Complexity
    /// O(1).
    pub fn move_prev(&mut self)
        ensures elements { self.new.elements ≡ self.old.elements }
        ensures place { self.new.place ≡ prev_place (length self.old.elements) self.old.place }
    {
        let chain = self.chain;
        if self.index == 0 {
            self.index = chain.len();
            return;
        }
        self.address = if self.index < chain.len() {
            chain.prev(self.address, self.index)
        } else {
            chain.tail()
        };
        self.index -= 1;
    }

    /// Returns a reference to the value at the cursor, or `None` at the null place.
    ///
    /// # Complexity
    /// O(1).
    pub fn current(&self) -> Option<&'a T>
        ensures { option_copied result ≡ slice_get (values self.now.elements) self.now.place }
    {
        let chain = self.chain;
        if self.index < chain.len() {
            Some(chain.get(self.address, self.index))
        } else {
            None
        }
    }

    /// Returns a reference to the value at the next place, or `None` if that is the null place. At the null place it
    /// returns the first value, if there is one.
    ///
    /// # Complexity
    /// O(1).
    #[tactic(auto, using(crate::proofs::Written::none_past))]
    pub fn peek_next(&self) -> Option<&'a T>
        ensures { option_copied result
            ≡ slice_get (values self.now.elements) (next_place (length self.now.elements) self.now.place) }
    {
        let chain = self.chain;
        let next = place_after(self.index, chain.len());
        if next == chain.len() {
            return None;
        }
        if next == 0 {
            return Some(chain.get(chain.head(), 0));
        }
        Some(chain.get(chain.next(self.address, self.index), next))
    }

    /// Returns a reference to the value at the previous place, or `None` if that is the null place. At the null place
    /// it returns the last value, if there is one.
    ///
    /// # Complexity
    /// O(1).
    #[tactic(auto, using(crate::proofs::Written::none_before_first))]
    pub fn peek_prev(&self) -> Option<&'a T>
        ensures { option_copied result
            ≡ slice_get (values self.now.elements) (prev_place (length self.now.elements) self.now.place) }
    {
        let chain = self.chain;
        if self.index == 0 {
            return None;
        }
        if self.index < chain.len() {
            return Some(chain.get(chain.prev(self.address, self.index), self.index - 1));
        }
        Some(chain.get(chain.tail(), self.index - 1))
    }
}

/// Iterates over the values from the cursor's place to the last. After the last value the cursor is at the null place,
/// and stays there.
impl<'a, T: Linked<Links<T>>> Iterator for Cursor<'a, T> {
    type Item = &'a T;

    ghost next_gives = { GivesAndMoves };

    ghost remaining = { λ s. at_most (length s.elements - s.place) };

    /// Returns a reference to the value at the cursor, and moves the cursor to the next place. At the null place it
    /// returns `None`, and the cursor stays there.
    ///
    /// # Complexity
    /// O(1).
    fn next(&mut self) -> Option<&'a T> {
        let chain = self.chain;
        if self.index == chain.len() {
            return None;
        }
        let item = chain.get(self.address, self.index);
        self.address = chain.next(self.address, self.index);
        self.index += 1;
        Some(item)
    }

    /// Returns `(0, None)`, since the cursor may move between two calls of `next`.
    ///
    /// # Complexity
    /// O(1).
    fn size_hint(&self) -> (usize, Option<usize>)
        ensures lower { IsWithinCount result.0 (at_most (length self.now.elements - self.now.place)) }
        ensures upper { IfSome result.1 (UpTo (at_most (length self.now.elements - self.now.place))) }
        ensures exact { result ≡ (0, None) }
    {
        (0, None)
    }
}
