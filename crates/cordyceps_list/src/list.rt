//! The doubly linked list.
ghost use Rattle.std.specs.Prelude.{◌≡◌, ◌+◌, ◌-◌, ◌<◌, ◌==◌, [], ◌∷◌, ◌++◌, length, slice_get, MatchOption, MatchResult, option_copied, Some, ◌^◌, ◌≤◌, ◌↔◌, take, drop, min, IsSome, IfSome, IfNone, option_map, None};
ghost use Rattle.std.specs.Option.{option_copied_mut};
ghost use Rattle.std.specs.Borrow.{sem};
ghost use Rattle.std.specs.Fn.{CalledAt};
ghost use Rattle.cordyceps_base.specs.Element.{values, first_with_id, without_id};
ghost use Rattle.cordyceps_base.specs.Nodes.{elements, IsAt};
ghost use Rattle.cordyceps_list.specs.Fingers.{IsOn, FingerFits};
ghost use Rattle.cordyceps_list.specs.GrowsBy.{GrowsBy, EndsWithin};
ghost use Rattle.cordyceps_list.specs.Walks.{MayAsk, Walks};

use crate::finger::{Finger, Fingers};
use crate::owned::OwnedCursor;
use cordyceps_base::boxes::Address;
use cordyceps_base::double_chain::DoubleChain;
use cordyceps_base::linked::Linked;
pub use cordyceps_base::list::Links;
use cordyceps_base::steps::Steps;
use std::marker::Model;
use std::mem;

/// A doubly linked list of owned nodes. A contract sees its elements, in order.
///
/// A handle that is put in comes out as the same element. Linking allocates nothing and cannot be refused. The list
/// stores its length. The interface follows that of `List` in the Rust crate `cordyceps`.
///
/// # Complexity
/// Dropping the list frees each node once: O(n), for n elements.
///
/// # Examples
/// From `tour::take_the_second` of `cordyceps_uses`:
/// ```
/// let mut jobs: List<Job> = List::new();
/// // A node has a value, and a number that the caller chooses.
/// jobs.push_back(Node::new(alloc, 1, Job { rank: 7 })?);
/// jobs.push_back(Node::new(alloc, 2, Job { rank: 3 })?);
/// jobs.push_back(Node::new(alloc, 3, Job { rank: 5 })?);
/// ```
///
/// From `tour::rotate` of `cordyceps_uses`:
/// ```
/// if let Some(first) = jobs.pop_front() {
///     jobs.push_back(first);
/// }
/// ```
#[derive(Drop)]
pub struct List<T> {
    pub(crate) chain: DoubleChain<T>,
    pub(crate) fingers: Fingers,
}

impl<T> Model for List<T> {
    ghost use Rattle.cordyceps_base.specs.Element.{Elements};
    ghost use Rattle.cordyceps_base.specs.Nodes.{elements};
    ghost use Rattle.cordyceps_list.specs.Fingers.{FingersFit};

    ghost Value = { Elements T };

    ghost view = { λ l. elements l.chain };

    ghost invariant = { λ l. FingersFit l.chain l.fingers };
}

impl<T: Drop> List<T> {
    /// Replaces the nodes of the list, and drops the old ones.
    pub(crate) fn put_back(&mut self, chain: DoubleChain<T>)
        ensures { self.new ≡ elements chain }
    {
        self.fingers.take_off(chain.len());
        self.chain = chain;
    }

    /// Replaces the nodes of the list by those of a cursor, and leaves the front finger at its place. It is inlined, so
    /// that the next search from there has no call.
    #[inline(always)]
    pub(crate) fn put_back_at(&mut self, nodes: OwnedCursor<T>)
        ensures { self.new ≡ nodes.elements }
    {
        let (chain, at) = nodes.into_parts();
        self.fingers.stand(at.address, at.index, chain.len());
        self.chain = chain;
    }
}

impl<T: Linked<Links<T>>> Default for List<T> {
    ghost is_default = { λ l. l ≡ [] };

    /// Creates an empty list, as `new` does.
    ///
    /// # Complexity
    /// O(1).
    fn default() -> List<T> {
        List::new()
    }
}

impl<T: Linked<Links<T>>> List<T> {
    ghost use Rattle.cordyceps_list.specs.Lending.{LendsIfAt};

    /// Creates an empty list. Allocates nothing.
    ///
    /// # Complexity
    /// O(1).
    pub fn new() -> List<T>
        ensures { result ≡ [] }
    {
        let chain = DoubleChain::empty();
        let fingers = Fingers::after_last(&chain);
        List { chain, fingers }
    }

    /// Creates a list of the nodes of a chain, for a collection that keeps its nodes in one.
    ///
    /// # Complexity
    /// O(1).
    pub fn from_chain(chain: DoubleChain<T>) -> List<T>
        ensures { result ≡ elements chain }
    {
        List {
            fingers: Fingers::after_last(&chain),
            chain,
        }
    }

    /// Converts the list into the chain of its nodes, for a collection that keeps its nodes in one.
    ///
    /// # Complexity
    /// O(1).
    pub fn into_chain(self) -> DoubleChain<T>
        ensures { elements result ≡ self }
    {
        let List { chain, fingers: _ } = self;
        chain
    }

    /// Returns the number of elements.
    ///
    /// # Complexity
    /// O(1).
    pub fn len(&self) -> usize
        ensures { result ≡ length self.now }
    {
        self.chain.len()
    }

    /// Returns `true` if the list has no element.
    ///
    /// # Complexity
    /// O(1).
    pub fn is_empty(&self) -> bool
        ensures { result ≡ (length self.now == 0) }
    {
        self.len() == 0
    }

    /// Prepends an element to the list. Requires a length below `usize::MAX`.
    ///
    /// # Complexity
    /// O(1).
    pub fn push_front(&mut self, handle: T::Handle)
        requires { length self.old < usize.MAX }
        ensures { self.new ≡ T.element handle ∷ self.old }
    {
        self.fingers.take_off(self.chain.len() + 1);
        self.chain.link_front(T::into_ptr(handle));
    }

    /// Appends an element to the back of the list. Requires a length below `usize::MAX`.
    ///
    /// # Complexity
    /// O(1).
    pub fn push_back(&mut self, handle: T::Handle)
        requires { length self.old < usize.MAX }
        ensures { self.new ≡ self.old ++ T.element handle ∷ [] }
    {
        self.fingers.take_off(self.chain.len() + 1);
        self.chain.link_back(T::into_ptr(handle));
    }

    /// Prepends an element to the list, if the length is below `usize::MAX`.
    ///
    /// # Errors
    /// At a length of `usize::MAX` the handle is returned, and the list is unchanged.
    ///
    /// # Complexity
    /// O(1).
    pub fn try_push_front(&mut self, handle: T::Handle) -> Result<(), T::Handle>
        ensures { MatchResult result
            (λ _. (length self.old < usize.MAX) × (self.new ≡ T.element handle ∷ self.old))
            (λ back. (length self.old ≡ usize.MAX) × (back ≡ handle) × (self.new ≡ self.old)) }
    {
        if self.len() == usize::MAX {
            return Err(handle);
        }
        self.push_front(handle);
        Ok(())
    }

    /// Appends an element to the back of the list, if the length is below `usize::MAX`.
    ///
    /// # Errors
    /// At a length of `usize::MAX` the handle is returned, and the list is unchanged.
    ///
    /// # Complexity
    /// O(1).
    pub fn try_push_back(&mut self, handle: T::Handle) -> Result<(), T::Handle>
        ensures { MatchResult result
            (λ _. (length self.old < usize.MAX) × (self.new ≡ self.old ++ T.element handle ∷ []))
            (λ back. (length self.old ≡ usize.MAX) × (back ≡ handle) × (self.new ≡ self.old)) }
    {
        if self.len() == usize::MAX {
            return Err(handle);
        }
        self.push_back(handle);
        Ok(())
    }

    /// Removes the first element and returns it, or `None` if the list is empty.
    ///
    /// # Complexity
    /// O(1).
    pub fn pop_front(&mut self) -> Option<T::Handle>
        ensures { MatchOption result ((self.old ≡ []) × (self.new ≡ [])) (λ h. self.old ≡ T.element h ∷ self.new) }
    {
        if self.chain.len() == 0 {
            return None;
        }
        self.fingers.take_off(self.chain.len());
        Some(T::from_ptr(self.chain.unlink_front()))
    }

    /// Removes the last element and returns it, or `None` if the list is empty.
    ///
    /// # Complexity
    /// O(1).
    pub fn pop_back(&mut self) -> Option<T::Handle>
        ensures { MatchOption result ((self.old ≡ []) × (self.new ≡ []))
            (λ h. self.old ≡ self.new ++ T.element h ∷ []) }
    {
        if self.chain.len() == 0 {
            return None;
        }
        Some(T::from_ptr(self.chain.unlink_back()))
    }

    /// Returns a reference to the first value, or `None` if the list is empty.
    ///
    /// # Complexity
    /// O(1).
    pub fn front(&self) -> Option<&T>
        ensures { option_copied result ≡ slice_get (values self.now) 0 }
    {
        if self.chain.len() == 0 {
            return None;
        }
        Some(self.chain.get(self.chain.head(), 0))
    }

    /// Returns a reference to the last value, or `None` if the list is empty.
    ///
    /// # Complexity
    /// O(1).
    pub fn back(&self) -> Option<&T>
        ensures { option_copied result ≡ slice_get (values self.now) (length self.now - 1) }
    {
        if self.chain.len() == 0 {
            return None;
        }
        Some(self.chain.get(self.chain.tail(), self.chain.len() - 1))
    }

    /// Returns a mutable reference to the first value, or `None` if the list is empty. The element keeps its number.
    ///
    /// # Complexity
    /// O(1).
    pub fn front_mut(&mut self) -> Option<&mut T>
        ensures* writes_back { sem 𝓛 (LendsIfAt T.row self.entry 0 result) }
        ensures value { option_copied_mut result ≡ slice_get (values self.old) 0 }
    {
        if self.chain.len() == 0 {
            return None;
        }
        Some(self.value_mut_at(0))
    }

    /// Returns a mutable reference to the last value, or `None` if the list is empty. The element keeps its number.
    ///
    /// # Complexity
    /// O(1).
    pub fn back_mut(&mut self) -> Option<&mut T>
        ensures* writes_back { sem 𝓛 (LendsIfAt T.row self.entry (length self.old - 1) result) }
        ensures value { option_copied_mut result ≡ slice_get (values self.old) (length self.old - 1) }
    {
        let len = self.chain.len();
        if len == 0 {
            return None;
        }
        Some(self.value_mut_at(len - 1))
    }
}

/// Returns the address of the node before the place `index`, found from the nearer end, or from the head if both are
/// equally near.
fn node_before<T>(chain: &DoubleChain<T>, index: usize, steps: &mut Steps) -> Address
    requires inside { (0 < index) × (index < length chain.now) }
    requires room { steps.old + min (index - 1) (length chain.now - index) < 2 ^ 64 }
    ensures place { IsAt chain.now (index - 1) result }
    ensures counted { steps.new ≡ steps.old + min (index - 1) (length chain.now - index) }
{
    let before = index - 1;
    let finger = if before <= chain.len() - index {
        Finger::at_head(chain).walked_on_in(chain, before, steps)
    } else {
        Finger::at_tail(chain).walked_back_in(chain, before, steps)
    };
    finger.address
}

impl<T: Linked<Links<T>>> List<T> {
    /// Moves all elements of `other` to the back of this list, and leaves `other` empty. Requires that the sum of the
    /// lengths is at most `usize::MAX`.
    ///
    /// # Complexity
    /// O(1).
    ///
    /// # Examples
    /// From `laws::append_split_off` of `cordyceps_list`:
    /// ```
    /// let mut rest = list.split_off(index);
    /// let shown = look(&*list, &rest);
    /// list.append(&mut rest);
    /// ```
    pub fn append(&mut self, other: &mut List<T>)
        requires { length self.old + length other.old ≤ usize.MAX }
        ensures joined { self.new ≡ self.old ++ other.old }
        ensures emptied { other.new ≡ [] }
    {
        let more = other.chain.take();
        other.fingers.take_off(0);
        self.fingers.take_off(self.chain.len() + more.len());
        let nodes = self.chain.take();
        self.chain.put(nodes.join(more));
    }

    /// Splits the list at an index, and returns the elements from there on. Requires that the index is at most the
    /// length.
    ///
    /// # Complexity
    /// O(min(index, n - index)), for n elements: it walks from the nearer end.
    ///
    /// # Examples
    /// From `laws::append_split_off` of `cordyceps_list`:
    /// ```
    /// let mut rest = list.split_off(index);
    /// let shown = look(&*list, &rest);
    /// list.append(&mut rest);
    /// ```
    pub fn split_off(&mut self, index: usize) -> List<T>
        requires { index ≤ length self.old }
        ensures kept { self.new ≡ take index self.old }
        ensures split { result ≡ drop index self.old }
    {
        match self.try_split_off(index) {
            Some(rest) => rest,
            None => unreachable!(),
        }
    }

    /// Splits the list at an index, and returns the elements from there on. If the index is above the length, it
    /// returns `None`, and the list is unchanged.
    ///
    /// # Complexity
    /// O(min(index, n - index)), for n elements: it walks from the nearer end.
    ///
    /// # Examples
    /// From `replay::lists::split` of `cordyceps_tables`:
    /// ```
    /// let Some(rest) = lists[list].try_split_off(index) else {
    ///     return nothing();
    /// };
    /// lists[other] = rest;
    /// ```
    pub fn try_split_off(&mut self, index: usize) -> Option<List<T>>
        ensures variant { IsSome result ↔ (index ≤ length self.old) }
        ensures some { IfSome result (λ rest. (self.new ≡ take index self.old) × (rest ≡ drop index self.old)) }
        ensures none { IfNone result (self.new ≡ self.old) }
    {
        self.try_split_off_in(index, &mut Steps::new())
    }

    /// Splits the list as `try_split_off` does, and adds the number of moves along links to `steps`. Requires that the
    /// count stays at most `u64::MAX`.
    ///
    /// # Complexity
    /// For n elements it makes min(index - 1, n - index) moves if 0 < `index` < n, and else none.
    pub fn try_split_off_in(&mut self, index: usize, steps: &mut Steps) -> Option<List<T>>
        requires { steps.old + min (index - 1) (length self.old - index) < 2 ^ 64 }
        ensures variant { IsSome result ↔ (index ≤ length self.old) }
        ensures some { IfSome result (λ rest. (self.new ≡ take index self.old) × (rest ≡ drop index self.old)) }
        ensures none { IfNone result (self.new ≡ self.old) }
        ensures counted { steps.new ≡ steps.old + min (index - 1) (length self.old - index) }
    {
        let len = self.chain.len();
        if index > len {
            return None;
        }
        if index == 0 {
            return Some(mem::replace(self, List::new()));
        }
        if index == len {
            return Some(List::new());
        }
        let before = node_before(&self.chain, index, steps);
        let (front, rest) = self.chain.take().cut_after(before, index);
        self.chain.put(front);
        Some(List::from_chain(rest))
    }

    /// Appends the items of an iterator to the back of the list, in their order. Requires that the iterator ends, and
    /// that the length stays at most `usize::MAX`.
    ///
    /// # Complexity
    /// O(k), for k items, and what the iterator takes.
    pub fn extend<I: IntoIterator<Item = T::Handle>>(&mut self, items: I)
        requires { EndsWithin I.into_iter_gives I.IntoIter.next_gives I.IntoIter.can_next I.IntoIter.remaining
            (usize.MAX - length self.old) items }
        ensures { GrowsBy I.into_iter_gives I.IntoIter.next_gives T.element self.old items self.new }
    {
        for item in items {
            self.push_back(item);
        }
    }

    /// Creates a list of the items of an iterator, in their order. Requires that the iterator ends after at most
    /// `usize::MAX` items.
    ///
    /// # Complexity
    /// O(k), for k items, and what the iterator takes.
    pub fn from_iter<I: IntoIterator<Item = T::Handle>>(items: I) -> List<T>
        requires { EndsWithin I.into_iter_gives I.IntoIter.next_gives I.IntoIter.can_next I.IntoIter.remaining usize.MAX
            items }
        ensures { GrowsBy I.into_iter_gives I.IntoIter.next_gives T.element [] items result }
    {
        let mut list = List::new();
        list.extend(items);
        list
    }
}

/// Returns a finger on the first node with a number, sought from the front.
fn find<T>(chain: &DoubleChain<T>, id: u64) -> Option<Finger>
    ensures on { MatchOption result (first_with_id id (elements chain.now) ≡ None)
        (λ f. IsOn chain.now f × (first_with_id id (elements chain.now) ≡ slice_get (elements chain.now) f.index)) }
    ensures others { MatchOption result (without_id id (elements chain.now) ≡ elements chain.now)
        (λ f. without_id id (elements chain.now)
        ≡ take f.index (elements chain.now) ++ drop (f.index + 1) (elements chain.now)) }
{
    if chain.len() == 0 {
        return None;
    }
    let mut address = chain.head();
    for index in 0..chain.len() {
        if chain.id(address, index) == id {
            return Some(Finger { address, index });
        }
        address = chain.next(address, index);
    }
    None
}

/// Calls the predicate on the values from a finger's place on, up to the first `true`, and returns a finger there, or
/// after the last node if there is none.
pub(crate) fn first_passing<T, F: FnMut(&T) -> bool>(
    chain: &DoubleChain<T>,
    from: Finger,
    predicate: &mut F,
) -> Finger
    requires fits { FingerFits chain.now from }
    requires inside { from.index ≤ length chain.now }
    requires callable { MayAsk F.FnMut (drop from.index (values (elements chain.now))) predicate.old }
    ensures fits { FingerFits chain.now result }
    ensures walks { Walks (CalledAt F.FnMut) predicate.old (drop from.index (values (elements chain.now)))
        (result.index - from.index) predicate.new }
    ensures from { from.index ≤ result.index }
    ensures to { result.index ≤ length chain.now }
{
    let mut finger = from;
    while finger.index < chain.len() {
        if predicate(chain.get(finger.address, finger.index)) {
            return finger;
        }
        finger.address = chain.next(finger.address, finger.index);
        finger.index += 1;
    }
    finger
}

impl<T: Linked<Links<T>>> List<T> {
    ghost use Rattle.cordyceps_list.specs.Lending.{LendsAt};

    /// Removes the first element with this number and returns it. If there is none, it returns `None`, and the list is
    /// unchanged.
    ///
    /// # Complexity
    /// O(k), where k is the index of that element, or the length if there is none: it walks from the front.
    pub fn remove(&mut self, id: u64) -> Option<T::Handle>
        ensures answer { option_map T.element result ≡ first_with_id id self.old }
        ensures kept { self.new ≡ without_id id self.old }
    {
        let found = find(&self.chain, id)?;
        let next = self.chain.next(found.address, found.index);
        let node = self.chain.unlink(found.address, found.index);
        self.fingers.stand(next, found.index, self.chain.len());
        Some(T::from_ptr(node))
    }

    /// Returns a mutable reference to the value at an index. Requires that the index is below the length.
    ///
    /// # Complexity
    /// At most one move along a link more than the index is away from the nearest of the two ends and the two fingers.
    pub(crate) fn value_mut_at(&mut self, index: usize) -> &mut T
        requires { index < length self.old }
        ensures* writes_back { sem 𝓛 (LendsAt T.row self.entry index result) }
        ensures value { slice_get (values self.old) index ≡ Some result.now }
    {
        let address = self.fingers.seek(&self.chain, index);
        self.chain.get_mut(address, index)
    }

    /// Returns a mutable reference to the value at an index, and moves the front finger to the next index, where a walk
    /// from the front continues. Requires that the index is below the length and below `usize::MAX`.
    ///
    /// # Complexity
    /// That of `value_mut_at`, and one move more.
    pub(crate) fn value_mut_passing(&mut self, index: usize) -> &mut T
        requires inside { index < length self.old }
        requires room { index < usize.MAX }
        ensures* writes_back { sem 𝓛 (LendsAt T.row self.entry index result) }
        ensures value { slice_get (values self.old) index ≡ Some result.now }
    {
        let address = self.fingers.seek(&self.chain, index);
        self.fingers.front = Finger {
            address: self.chain.next(address, index),
            index: index + 1,
        };
        self.chain.get_mut(address, index)
    }
}
