//! A list whose elements are reached by their spots.
ghost use Rattle.std.specs.Prelude.{◌≡◌, ◌≢◌, ◌+◌, ◌<◌, ◌≤◌, ◌==◌, [], ◌∷◌, ◌++◌, length, slice_get};
ghost use Rattle.std.specs.Prelude.{IfOk, IfSome, MatchOption, MatchResult, Some, None};
ghost use Rattle.std.specs.Bool.{Decides};
ghost use Rattle.std.specs.Borrow.{sem};
ghost use denote.RawPtr.{Ptr};
ghost use Rattle.cordyceps_base.specs.BySpot.{HasSpot, HoldsAt, IsTaken, IsPutBefore, IsPutAfter, IsMovedFront};
ghost use Rattle.cordyceps_base.specs.BySpot.{IsMovedBack, IsMovedAfter, IsFirst, IsLast, AreNext};
ghost use Rattle.cordyceps_base.specs.Element.{values};
ghost use Rattle.cordyceps_base.specs.Nodes.{elements, spots, with_item};
ghost use Rattle.cordyceps_base.specs.Spots.{index_of, AreDistinct};
ghost use Rattle.cordyceps_stable.specs.Replacing.{IsReplaced};

pub use crate::cursor::SpotCursor;
use cordyceps_base::boxes::Address;
use cordyceps_base::double_chain::DoubleChain;
use cordyceps_base::linked::Linked;
use cordyceps_list::iter::{Iter, over};
use cordyceps_list::list::{Links, List};
use std::marker::Model;

/// A stable handle of an element of a `StableList`, a `StableSortedList`, a `StableHeap` or a `ClockQueue`. It owns
/// nothing, and can be copied and kept anywhere.
///
/// It is valid for the collection that has the element, as long as that has it. Each call that takes a spot requires a
/// valid one, and the contract of each call of a list says which spots are valid after it. Nothing checks this when the
/// program runs. Spots cannot be compared, and `Debug` prints no address.
///
/// # Examples
/// From `timer_wheel::TimerWheel::start` of `cordyceps_uses`:
/// ```
/// let spot = self.slots[slot].push_back(timer);
/// Ok(Ticket { deadline, spot })
/// ```
#[repr(C)]
#[derive(Clone, Copy)]
#[derive_where(Debug)]
pub struct Spot {
    #[derive_where(skip)]
    pub(crate) address: Address,
}

impl Model for Spot {
    ghost use denote.RawPtr.{Ptr};

    ghost Value = { Ptr };

    ghost view = { λ s. s.address.ptr };

    ghost inverse = { λ p. record { address = record { ptr = p } } };
}

/// A doubly linked list of owned nodes that returns a spot for each element. A contract sees the elements in order,
/// each with its spot.
///
/// An element is reached, removed and moved by its spot. The spot stays the same while the element is in the list, and
/// also when all elements are moved to another list. No two elements are at one spot. Linking allocates nothing and
/// cannot be refused.
///
/// # Complexity
/// Dropping the list frees each node once: O(n), for n elements.
///
/// # Examples
/// From `timer_wheel::TimerWheel::start` of `cordyceps_uses`:
/// ```
/// let spot = self.slots[slot].push_back(timer);
/// Ok(Ticket { deadline, spot })
/// ```
///
/// From `timer_wheel::TimerWheel::cancel` of `cordyceps_uses`:
/// ```
/// let slot = self.slot(ticket.deadline);
/// self.slots[slot].remove(ticket.spot)
/// ```
#[derive(Drop)]
pub struct StableList<T> {
    pub(crate) chain: DoubleChain<T>,
}

impl<T> Model for StableList<T> {
    ghost use Rattle.cordyceps_base.specs.Nodes.{Nodes, spots};
    ghost use Rattle.cordyceps_base.specs.Spots.{AreDistinct};

    ghost Value = { Nodes T };

    ghost view = { λ l. l.chain };

    ghost invariant = { λ l. AreDistinct (spots l.chain) };
}

impl<T: Linked<Links<T>>> Default for StableList<T> {
    ghost is_default = { λ l. l ≡ [] };

    /// Creates an empty list, as `new` does.
    ///
    /// # Complexity
    /// O(1).
    fn default() -> StableList<T> {
        StableList::new()
    }
}

/// Returns the spot of an address, if there is one.
pub(crate) fn spot_of(address: Option<Address>) -> Option<Spot>
    ensures { MatchOption address (result ≡ None) (λ p. result ≡ Some p.ptr) }
{
    match address {
        Some(address) => Some(Spot { address }),
        None => None,
    }
}

/// Returns the spot of the first node, or `None` if the chain is empty.
pub(crate) fn first_spot<T>(chain: &DoubleChain<T>) -> Option<Spot>
    ensures { MatchOption result (chain.now ≡ []) (λ p. IsFirst chain.now p) }
{
    if chain.len() == 0 {
        return None;
    }
    Some(Spot {
        address: chain.head(),
    })
}

/// Returns the spot of the last node, or `None` if the chain is empty.
pub(crate) fn last_spot<T>(chain: &DoubleChain<T>) -> Option<Spot>
    ensures { MatchOption result (chain.now ≡ []) (λ p. IsLast chain.now p) }
{
    if chain.len() == 0 {
        return None;
    }
    Some(Spot {
        address: chain.tail(),
    })
}

/// Returns `true` if the first node of the chain is at the address.
pub(crate) fn is_first_at<T>(chain: &DoubleChain<T>, at: Address) -> bool
    requires there { HasSpot chain.now at.ptr }
    requires distinct { AreDistinct (spots chain.now) }
    ensures { Decides result (IsFirst chain.now at.ptr) }
{
    chain.prev_at(at).is_none()
}

/// Returns `true` if the last node of the chain is at the address.
pub(crate) fn is_last_at<T>(chain: &DoubleChain<T>, at: Address) -> bool
    requires there { HasSpot chain.now at.ptr }
    requires distinct { AreDistinct (spots chain.now) }
    ensures { Decides result (IsLast chain.now at.ptr) }
{
    chain.next_at(at).is_none()
}

impl<T: Linked<Links<T>>> StableList<T> {
    ghost use Rattle.cordyceps_stable.specs.StableLending.{LendsSpot};

    /// Creates an empty list. Allocates nothing.
    ///
    /// # Complexity
    /// O(1).
    pub fn new() -> StableList<T>
        ensures { result ≡ [] }
    {
        StableList {
            chain: DoubleChain::empty(),
        }
    }

    /// Converts a list into a stable list of the same elements.
    ///
    /// # Complexity
    /// O(1).
    pub fn from_list(list: List<T>) -> StableList<T>
        ensures holds { elements result ≡ list }
        ensures distinct { AreDistinct (spots result) }
    {
        StableList {
            chain: list.into_chain().distinct(),
        }
    }

    /// Converts the stable list into a list of the same elements.
    ///
    /// # Complexity
    /// O(1).
    ///
    /// # Examples
    /// From `timer_wheel::TimerWheel::tick` of `cordyceps_uses`:
    /// ```
    /// let due = mem::replace(&mut self.slots[slot], StableList::new());
    /// self.time += 1;
    /// due.into_list()
    /// ```
    pub fn into_list(self) -> List<T>
        ensures { result ≡ elements self }
    {
        let StableList { chain } = self;
        List::from_chain(chain)
    }

    /// Returns the number of elements.
    ///
    /// # Complexity
    /// O(1).
    pub fn len(&self) -> usize
        ensures { result ≡ length self.now }
    {
        self.chain.len()
    }

    /// Returns `true` if the list has no element.
    ///
    /// # Complexity
    /// O(1).
    pub fn is_empty(&self) -> bool
        ensures { result ≡ (length self.now == 0) }
    {
        self.len() == 0
    }

    /// Does nothing when the program runs. Its contract states that no two elements are at one spot.
    ///
    /// # Complexity
    /// O(1).
    ///
    /// # Examples
    /// From `list::List::find` of `cordyceps_c_lists`:
    /// ```
    /// self.list.spots_are_distinct();
    /// self.tickets.find(at)
    /// ```
    pub fn spots_are_distinct(&self)
        ensures { AreDistinct (spots self.now) }
    {
        let _chain = &self.chain;
    }

    /// Prepends an element to the list and returns its spot. Requires a length below `usize::MAX`.
    ///
    /// # Complexity
    /// O(1).
    ///
    /// # Examples
    /// From `list::List::push_front` of `cordyceps_c_lists`:
    /// ```
    /// let spot = self.list.push_front(member);
    /// self.tickets.give(ticket, spot);
    /// Some(ticket)
    /// ```
    pub fn push_front(&mut self, handle: T::Handle) -> Spot
        requires { length self.old < usize.MAX }
        ensures holds { self.new ≡ (result, T.element handle) ∷ self.old }
        ensures there { HasSpot self.new result }
        ensures kept { (p : Ptr) → HasSpot self.old p → HasSpot self.new p }
        ensures apart { HasSpot self.old result → ⊥ }
        ensures distinct { AreDistinct (spots self.new) }
    {
        let address = self.chain.link_front(T::into_ptr(handle));
        Spot { address }
    }

    /// Appends an element to the back of the list and returns its spot. Requires a length below `usize::MAX`.
    ///
    /// # Complexity
    /// O(1).
    ///
    /// # Examples
    /// From `list::List::push_back` of `cordyceps_c_lists`:
    /// ```
    /// let spot = self.list.push_back(member);
    /// self.tickets.give(ticket, spot);
    /// Some(ticket)
    /// ```
    pub fn push_back(&mut self, handle: T::Handle) -> Spot
        requires { length self.old < usize.MAX }
        ensures holds { self.new ≡ self.old ++ (result, T.element handle) ∷ [] }
        ensures there { HasSpot self.new result }
        ensures kept { (p : Ptr) → HasSpot self.old p → HasSpot self.new p }
        ensures apart { HasSpot self.old result → ⊥ }
        ensures distinct { AreDistinct (spots self.new) }
    {
        let address = self.chain.link_back(T::into_ptr(handle));
        Spot { address }
    }

    /// Prepends an element to the list and returns its spot, if the length is below `usize::MAX`.
    ///
    /// # Errors
    /// At a length of `usize::MAX` the handle is returned, and the list is unchanged.
    ///
    /// # Complexity
    /// O(1).
    pub fn try_push_front(&mut self, handle: T::Handle) -> Result<Spot, T::Handle>
        ensures pushed { MatchResult result
            (λ spot. (length self.old < usize.MAX) × (self.new ≡ (spot, T.element handle) ∷ self.old)
            × AreDistinct (spots self.new))
            (λ back. (length self.old ≡ usize.MAX) × (back ≡ handle) × (self.new ≡ self.old)) }
        ensures there { IfOk result (λ spot. HasSpot self.new spot) }
        ensures kept { (p : Ptr) → HasSpot self.old p → HasSpot self.new p }
        ensures apart { IfOk result (λ spot. HasSpot self.old spot → ⊥) }
    {
        if self.len() == usize::MAX {
            return Err(handle);
        }
        Ok(self.push_front(handle))
    }

    /// Appends an element to the back of the list and returns its spot, if the length is below `usize::MAX`.
    ///
    /// # Errors
    /// At a length of `usize::MAX` the handle is returned, and the list is unchanged.
    ///
    /// # Complexity
    /// O(1).
    pub fn try_push_back(&mut self, handle: T::Handle) -> Result<Spot, T::Handle>
        ensures pushed { MatchResult result
            (λ spot. (length self.old < usize.MAX) × (self.new ≡ self.old ++ (spot, T.element handle) ∷ [])
            × AreDistinct (spots self.new))
            (λ back. (length self.old ≡ usize.MAX) × (back ≡ handle) × (self.new ≡ self.old)) }
        ensures there { IfOk result (λ spot. HasSpot self.new spot) }
        ensures kept { (p : Ptr) → HasSpot self.old p → HasSpot self.new p }
        ensures apart { IfOk result (λ spot. HasSpot self.old spot → ⊥) }
    {
        if self.len() == usize::MAX {
            return Err(handle);
        }
        Ok(self.push_back(handle))
    }

    /// Inserts an element before the one at `at` and returns its spot. Requires that `at` is valid, and a length below
    /// `usize::MAX`.
    ///
    /// # Complexity
    /// O(1).
    ///
    /// # Examples
    /// From `list::List::insert_before` of `cordyceps_c_lists`:
    /// ```
    /// let spot = self.list.insert_before(at, member);
    /// self.tickets.give(ticket, spot);
    /// Some(ticket)
    /// ```
    pub fn insert_before(&mut self, at: Spot, handle: T::Handle) -> Spot
        requires there { HasSpot self.old at }
        requires fits { length self.old < usize.MAX }
        ensures holds { IsPutBefore self.old at result (T.element handle) self.new }
        ensures there { HasSpot self.new result }
        ensures kept { (p : Ptr) → HasSpot self.old p → HasSpot self.new p }
        ensures apart { HasSpot self.old result → ⊥ }
        ensures distinct { AreDistinct (spots self.new) }
    {
        let address = self.chain.link_before(at.address, T::into_ptr(handle));
        Spot { address }
    }

    /// Inserts an element after the one at `at` and returns its spot. Requires that `at` is valid, and a length below
    /// `usize::MAX`.
    ///
    /// # Complexity
    /// O(1).
    ///
    /// # Examples
    /// From `list::List::insert_after` of `cordyceps_c_lists`:
    /// ```
    /// let spot = self.list.insert_after(at, member);
    /// self.tickets.give(ticket, spot);
    /// Some(ticket)
    /// ```
    pub fn insert_after(&mut self, at: Spot, handle: T::Handle) -> Spot
        requires there { HasSpot self.old at }
        requires fits { length self.old < usize.MAX }
        ensures holds { IsPutAfter self.old at result (T.element handle) self.new }
        ensures there { HasSpot self.new result }
        ensures kept { (p : Ptr) → HasSpot self.old p → HasSpot self.new p }
        ensures apart { HasSpot self.old result → ⊥ }
        ensures distinct { AreDistinct (spots self.new) }
    {
        let address = self.chain.link_after(at.address, T::into_ptr(handle));
        Spot { address }
    }

    /// Removes the element at `at` and returns it. Requires that `at` is valid.
    ///
    /// # Complexity
    /// O(1).
    ///
    /// # Examples
    /// From `timer_wheel::TimerWheel::cancel` of `cordyceps_uses`:
    /// ```
    /// let slot = self.slot(ticket.deadline);
    /// self.slots[slot].remove(ticket.spot)
    /// ```
    pub fn remove(&mut self, at: Spot) -> T::Handle
        requires { HasSpot self.old at }
        ensures taken { IsTaken self.old at (T.element result) self.new }
        ensures kept { (p : Ptr) → HasSpot self.old p → p ≢ at → HasSpot self.new p }
        ensures distinct { AreDistinct (spots self.new) }
    {
        let node = self.chain.unlink_at(at.address);
        self.chain.keep_distinct();
        T::from_ptr(node)
    }

    /// Replaces the element at `at` by another in the same place, and returns the old element and the spot of the new
    /// one. Requires that `at` is valid.
    ///
    /// # Complexity
    /// O(1).
    pub fn replace(&mut self, at: Spot, handle: T::Handle) -> (T::Handle, Spot)
        requires { HasSpot self.old at }
        ensures replaced { IsReplaced self.old at (T.element result.0) result.1 (T.element handle) self.new }
        ensures there { HasSpot self.new result.1 }
        ensures kept { (p : Ptr) → HasSpot self.old p → p ≢ at → HasSpot self.new p }
        ensures apart { HasSpot self.old result.1 → result.1 ≡ at }
        ensures distinct { AreDistinct (spots self.new) }
    {
        // both for the proof: no other element is at this spot, and there is room once one is out
        self.spots_are_distinct();
        let _len = self.len();
        let next = self.next(at);
        let old = self.remove(at);
        match next {
            Some(next) => (old, self.insert_before(next, handle)),
            None => (old, self.push_back(handle)),
        }
    }

    /// Removes the first element and returns it, or `None` if the list is empty.
    ///
    /// # Complexity
    /// O(1).
    ///
    /// # Examples
    /// From `list::List::pop_front` of `cordyceps_c_lists`:
    /// ```
    /// let member = self.list.pop_front()?;
    /// Some(end(&mut self.tickets, member))
    /// ```
    pub fn pop_front(&mut self) -> Option<T::Handle>
        ensures taken { MatchOption result ((self.old ≡ []) × (self.new ≡ []))
            (λ h. (spot : Ptr) × (self.old ≡ (spot, T.element h) ∷ self.new)) }
        ensures kept { (p : Ptr) → HasSpot self.old p → (IsFirst self.old p → ⊥) → HasSpot self.new p }
        ensures distinct { AreDistinct (spots self.new) }
    {
        if self.chain.len() == 0 {
            return None;
        }
        let node = self.chain.unlink_front();
        self.chain.keep_distinct();
        Some(T::from_ptr(node))
    }

    /// Removes the last element and returns it, or `None` if the list is empty.
    ///
    /// # Complexity
    /// O(1).
    ///
    /// # Examples
    /// From `list::List::pop_back` of `cordyceps_c_lists`:
    /// ```
    /// let member = self.list.pop_back()?;
    /// Some(end(&mut self.tickets, member))
    /// ```
    pub fn pop_back(&mut self) -> Option<T::Handle>
        ensures taken { MatchOption result ((self.old ≡ []) × (self.new ≡ []))
            (λ h. (spot : Ptr) × (self.old ≡ self.new ++ (spot, T.element h) ∷ [])) }
        ensures kept { (p : Ptr) → HasSpot self.old p → (IsLast self.old p → ⊥) → HasSpot self.new p }
        ensures distinct { AreDistinct (spots self.new) }
    {
        if self.chain.len() == 0 {
            return None;
        }
        let node = self.chain.unlink_back();
        self.chain.keep_distinct();
        Some(T::from_ptr(node))
    }

    /// Returns a reference to the value at `at`. Requires that `at` is valid.
    ///
    /// # Complexity
    /// O(1).
    ///
    /// # Examples
    /// From `list::List::get` of `cordyceps_c_lists`:
    /// ```
    /// let spot = self.find(at)?;
    /// Some(self.list.get(spot).payload)
    /// ```
    pub fn get(&self, at: Spot) -> &T
        requires { HasSpot self.now at }
        ensures { HoldsAt self.now at result.now }
    {
        self.chain.get_at(at.address)
    }

    /// Returns a mutable reference to the value at `at`. The element keeps its number and its spot. Requires that `at`
    /// is valid.
    ///
    /// # Complexity
    /// O(1).
    ///
    /// # Examples
    /// From `renewing::change_at` of `cordyceps_clock`:
    /// ```
    /// change(list.get_mut(at))
    /// ```
    pub fn get_mut(&mut self, at: Spot) -> &mut T
        requires { HasSpot self.old at }
        ensures* writes_back { sem 𝓛 (LendsSpot T.row self.entry at result) }
        ensures value { slice_get (values (elements self.old)) (index_of at (spots self.old)) ≡ Some result.now }
        ensures kept { (written : T) (p : Ptr) → HasSpot self.old p
            → HasSpot (with_item self.old (index_of at (spots self.old)) written) p }
    {
        self.chain.get_at_mut(at.address)
    }

    /// Returns the spot of the first element, or `None` if the list is empty.
    ///
    /// # Complexity
    /// O(1).
    ///
    /// # Examples
    /// From `list::List::front` of `cordyceps_c_lists`:
    /// ```
    /// let spot = self.list.front()?;
    /// Some(self.ticket_at(spot))
    /// ```
    pub fn front(&self) -> Option<Spot>
        ensures first { MatchOption result (self.now ≡ []) (λ p. IsFirst self.now p) }
        ensures there { IfSome result (λ p. HasSpot self.now p) }
    {
        first_spot(&self.chain)
    }

    /// Returns the spot of the last element, or `None` if the list is empty.
    ///
    /// # Complexity
    /// O(1).
    ///
    /// # Examples
    /// From `list::List::back` of `cordyceps_c_lists`:
    /// ```
    /// let spot = self.list.back()?;
    /// Some(self.ticket_at(spot))
    /// ```
    pub fn back(&self) -> Option<Spot>
        ensures last { MatchOption result (self.now ≡ []) (λ p. IsLast self.now p) }
        ensures there { IfSome result (λ p. HasSpot self.now p) }
    {
        last_spot(&self.chain)
    }

    /// Returns the spot after `at`, or `None` if the last element is at `at`. Requires that `at` is valid.
    ///
    /// # Complexity
    /// O(1).
    ///
    /// # Examples
    /// From `list::List::next` of `cordyceps_c_lists`:
    /// ```
    /// let at = self.find(at)?;
    /// let next = self.list.next(at)?;
    /// Some(self.ticket_at(next))
    /// ```
    pub fn next(&self, at: Spot) -> Option<Spot>
        requires { HasSpot self.now at }
        ensures step { MatchOption result (IsLast self.now at) (λ p. AreNext self.now at p) }
        ensures there { IfSome result (λ p. HasSpot self.now p) }
        ensures apart { IfSome result (λ p. p ≢ at) }
    {
        spot_of(self.chain.next_at(at.address))
    }

    /// Returns the spot before `at`, or `None` if the first element is at `at`. Requires that `at` is valid.
    ///
    /// # Complexity
    /// O(1).
    ///
    /// # Examples
    /// From `list::List::prev` of `cordyceps_c_lists`:
    /// ```
    /// let at = self.find(at)?;
    /// let prev = self.list.prev(at)?;
    /// Some(self.ticket_at(prev))
    /// ```
    pub fn prev(&self, at: Spot) -> Option<Spot>
        requires { HasSpot self.now at }
        ensures step { MatchOption result (IsFirst self.now at) (λ p. AreNext self.now p at) }
        ensures there { IfSome result (λ p. HasSpot self.now p) }
        ensures apart { IfSome result (λ p. p ≢ at) }
    {
        spot_of(self.chain.prev_at(at.address))
    }

    /// Returns `true` if the first element is at `at`. Requires that `at` is valid.
    ///
    /// # Complexity
    /// O(1).
    pub fn is_first(&self, at: Spot) -> bool
        requires { HasSpot self.now at }
        ensures { Decides result (IsFirst self.now at) }
    {
        is_first_at(&self.chain, at.address)
    }

    /// Returns `true` if the last element is at `at`. Requires that `at` is valid.
    ///
    /// # Complexity
    /// O(1).
    pub fn is_last(&self, at: Spot) -> bool
        requires { HasSpot self.now at }
        ensures { Decides result (IsLast self.now at) }
    {
        is_last_at(&self.chain, at.address)
    }

    /// Moves the element at `at` to the front of the list. It keeps its spot, and the others their order. Requires that
    /// `at` is valid.
    ///
    /// # Complexity
    /// O(1).
    ///
    /// # Examples
    /// From `list::List::move_to_front` of `cordyceps_c_lists`:
    /// ```
    /// let Some(spot) = self.find(at) else {
    ///     return false;
    /// };
    /// self.list.move_to_front(spot);
    /// true
    /// ```
    pub fn move_to_front(&mut self, at: Spot)
        requires { HasSpot self.old at }
        ensures moved { IsMovedFront self.old at self.new }
        ensures there { HasSpot self.new at }
        ensures kept { (p : Ptr) → HasSpot self.old p → HasSpot self.new p }
        ensures distinct { AreDistinct (spots self.new) }
    {
        self.chain.move_front(at.address);
        self.chain.keep_distinct();
    }

    /// Moves the element at `at` to the back of the list. It keeps its spot, and the others their order. Requires that
    /// `at` is valid.
    ///
    /// # Complexity
    /// O(1).
    ///
    /// # Examples
    /// From `list::List::move_to_back` of `cordyceps_c_lists`:
    /// ```
    /// let Some(spot) = self.find(at) else {
    ///     return false;
    /// };
    /// self.list.move_to_back(spot);
    /// true
    /// ```
    pub fn move_to_back(&mut self, at: Spot)
        requires { HasSpot self.old at }
        ensures moved { IsMovedBack self.old at self.new }
        ensures there { HasSpot self.new at }
        ensures kept { (p : Ptr) → HasSpot self.old p → HasSpot self.new p }
        ensures distinct { AreDistinct (spots self.new) }
    {
        self.chain.move_back(at.address);
        self.chain.keep_distinct();
    }

    /// Moves the element at `at` to right after the one at `to`. It keeps its spot, and the others their order.
    /// Requires that both spots are valid, and that they are those of two elements.
    ///
    /// # Complexity
    /// O(1).
    ///
    /// # Examples
    /// From `list::List::move_after` of `cordyceps_c_lists`:
    /// ```
    /// if at.slot == to.slot {
    ///     return false;
    /// }
    /// self.list.move_after(spot, after);
    /// true
    /// ```
    pub fn move_after(&mut self, at: Spot, to: Spot)
        requires there { HasSpot self.old at }
        requires target { HasSpot self.old to }
        requires other { at ≢ to }
        ensures moved { IsMovedAfter self.old at to self.new }
        ensures there { HasSpot self.new at }
        ensures kept { (p : Ptr) → HasSpot self.old p → HasSpot self.new p }
        ensures distinct { AreDistinct (spots self.new) }
    {
        self.chain.move_after(at.address, to.address);
        self.chain.keep_distinct();
    }

    /// Moves all elements of `other` to the back of this list, and leaves `other` empty. They keep their spots.
    /// Requires that the sum of the lengths is at most `usize::MAX`.
    ///
    /// # Complexity
    /// O(1).
    pub fn append(&mut self, other: &mut StableList<T>)
        requires { length self.old + length other.old ≤ usize.MAX }
        ensures joined { self.new ≡ self.old ++ other.old }
        ensures emptied { other.new ≡ [] }
        ensures kept { (p : Ptr) → HasSpot self.old p → HasSpot self.new p }
        ensures taken_over { (p : Ptr) → HasSpot other.old p → HasSpot self.new p }
        ensures apart { (p : Ptr) → HasSpot self.old p → HasSpot other.old p → ⊥ }
        ensures distinct { AreDistinct (spots self.new) }
    {
        let more = other.chain.take();
        let nodes = self.chain.take();
        self.chain.put(nodes.join(more).distinct());
    }

    /// Removes all elements and drops them.
    ///
    /// # Complexity
    /// O(n), for n elements.
    pub fn clear(&mut self)
        ensures { self.new ≡ [] }
    {
        drop(self.chain.take());
    }

    /// Returns a cursor at the first element, or at the null place if the list is empty.
    ///
    /// # Complexity
    /// O(1).
    ///
    /// # Examples
    /// From `tour::take_least` of `cordyceps_uses`:
    /// ```
    /// let mut cursor = jobs.cursor_front();
    /// // This is the spot of the best job that the cursor has passed.
    /// let mut best = cursor.spot()?;
    /// cursor.move_next();
    /// while let Some(at) = cursor.spot() {
    ///     if jobs.get(at).rank < jobs.get(best).rank {
    ///         best = at;
    ///     }
    ///     cursor.move_next();
    /// }
    /// ```
    pub fn cursor_front(&self) -> SpotCursor<'_, T>
        ensures nodes { result.nodes ≡ self.now }
        ensures spot { MatchOption result.spot (self.now ≡ []) (λ p. IsFirst self.now p) }
    {
        SpotCursor::new(&self.chain, self.front())
    }

    /// Returns a cursor at the element at `at`. Requires that `at` is valid.
    ///
    /// # Complexity
    /// O(1).
    pub fn cursor_at(&self, at: Spot) -> SpotCursor<'_, T>
        requires { HasSpot self.now at }
        ensures nodes { result.nodes ≡ self.now }
        ensures spot { result.spot ≡ Some at }
    {
        SpotCursor::new(&self.chain, Some(at))
    }

    /// Returns an iterator over the values, in order.
    ///
    /// # Complexity
    /// O(1), and O(1) for each value.
    pub fn iter(&self) -> Iter<'_, T>
        ensures { result ≡ values (elements self.now) }
    {
        over(&self.chain)
    }
}
