//! Ordered lists whose elements are named by tickets.
ghost use Rattle.std.specs.Prelude.{◌≡◌, ◌⊎◌, [], length, MatchBool, MatchOption, IfSome};
ghost use Rattle.cordyceps_base.specs.BySpot.{HasSpot};
ghost use Rattle.slab.specs.Slab.{SameValues};
ghost use Rattle.cordyceps_c_base.specs.Tickets.{IsEnded, IsNext};
ghost use Rattle.cordyceps_c_lists.specs.Lists.{new_element, IsAt, NamesNone, PushesFront, PushesBack, PutsBefore};
ghost use Rattle.cordyceps_c_lists.specs.Lists.{PutsAfter, PopsFront, PopsBack, Removes, Holds, NamesFirst, NamesLast};
ghost use Rattle.cordyceps_c_lists.specs.Lists.{NamesNext, MovesFront, MovesBack, MovesAfter, HasNoPair};

use cordyceps_base::linked::Linked;
use cordyceps_base::list::Links;
use cordyceps_base::node::Node;
use cordyceps_c_base::tickets::{Ticket, Tickets};
use cordyceps_stable::stable_list::{Spot, StableList};
use std::alloc::Global;
use std::marker::Model;

/// The value of an element: its payload, and the slot of its ticket.
#[derive(Drop)]
pub struct Item {
    pub payload: u64,
    pub slot: u32,
}

/// An element in its node, whose number is that of its ticket.
type Member = Node<Item, Links<Item>>;

impl Linked<Links<Item>> for Item {
    type Handle = Member;

    ghost element = { λ h. h };

    fn into_ptr(handle: Member) -> Member {
        handle
    }

    fn from_ptr(node: Member) -> Member
        ensures { result ≡ node }
    {
        node
    }
}

/// Makes an element with the next ticket. Returns `None` if memory is refused or no ticket is left. The valid tickets
/// stay as they are.
fn make(alloc: Global, tickets: &mut Tickets, payload: u64) -> Option<(Ticket, Member)>
    ensures made { IfSome result (λ made. IsNext tickets.new made.0 × (made.1 ≡ new_element made.0 payload)) }
    ensures collection { tickets.new.collection ≡ tickets.old.collection }
    ensures given { tickets.new.given ≡ tickets.old.given }
    ensures same { SameValues tickets.old.slots tickets.new.slots }
{
    let ticket = tickets.reserve()?;
    let item = Item {
        payload,
        slot: ticket.slot,
    };
    match Node::new(alloc, ticket.number, item) {
        Ok(member) => Some((ticket, member)),
        Err(_) => None,
    }
}

/// Ends the ticket of an element that came out, frees its node and returns its payload.
fn end(tickets: &mut Tickets, member: Member) -> u64
    ensures payload { result ≡ member.value.payload }
    ensures ended { IsEnded member.id member.value.slot tickets.old tickets.new }
{
    let number = member.id();
    let Item { payload, slot } = member.into_value();
    tickets.end(number, slot);
    payload
}

/// A list of payloads, each in an element that a ticket names until it comes out. A ticket that has ended is never
/// valid again, since no other element gets it.
///
/// A contract sees the elements in order, each with its spot, the number of the list, and how many tickets it has
/// given.
#[derive(Drop)]
pub struct List {
    list: StableList<Item>,
    tickets: Tickets,
}

impl Model for List {
    ghost use Rattle.cordyceps_c_base.specs.Tickets.{ticketed};
    ghost use Rattle.cordyceps_c_lists.specs.Lists.{Listed, Sound};

    ghost Value = { Listed };

    ghost view = { λ l. ticketed l.tickets l.list };

    ghost invariant = { λ l. Sound l.tickets l.list };
}

impl List {
    /// Creates an empty list of this number. Allocates nothing.
    ///
    /// # Complexity
    /// O(1).
    pub fn new(alloc: Global, collection: u32) -> List
        ensures { result ≡ record { nodes = []; collection = collection; given = 0 } }
    {
        List {
            list: StableList::new(),
            tickets: Tickets::new(alloc, collection),
        }
    }

    /// Returns the number of elements.
    ///
    /// # Complexity
    /// O(1).
    pub fn len(&self) -> usize
        ensures { result ≡ length self.now.nodes }
    {
        self.list.len()
    }

    /// Returns the spot of the element that has a ticket, or `None` if none has it.
    fn find(&self, at: Ticket) -> Option<Spot>
        ensures { MatchOption result (NamesNone self.now at) (IsAt self.now at) }
    {
        self.list.spots_are_distinct();
        self.tickets.find(at)
    }

    /// Returns the ticket of the element at a spot.
    fn ticket_at(&self, spot: Spot) -> Ticket
        requires { HasSpot self.now.nodes spot }
        ensures { IsAt self.now result spot }
    {
        self.list.spots_are_distinct();
        let slot = self.list.get(spot).slot;
        let number = self.tickets.slots[slot as usize].number;
        Ticket {
            collection: self.tickets.collection,
            slot,
            number,
        }
    }

    /// Prepends an element to the list and returns its ticket. Returns `None` if memory is refused, no ticket is left,
    /// or `usize::MAX` elements are there, and the list is unchanged then. Allocates one node, and more memory if the
    /// slots have to grow.
    ///
    /// # Complexity
    /// O(1), amortized over the growth of the slots.
    pub fn push_front(&mut self, alloc: Global, payload: u64) -> Option<Ticket>
        ensures { MatchOption result (self.new ≡ self.old) (λ k. PushesFront payload k self.old self.new) }
    {
        if self.list.len() == usize::MAX {
            return None;
        }
        let (ticket, member) = make(alloc, &mut self.tickets, payload)?;
        let spot = self.list.push_front(member);
        self.tickets.give(ticket, spot);
        Some(ticket)
    }

    /// Appends an element to the list as `push_front` prepends one.
    ///
    /// # Complexity
    /// O(1), amortized over the growth of the slots.
    pub fn push_back(&mut self, alloc: Global, payload: u64) -> Option<Ticket>
        ensures { MatchOption result (self.new ≡ self.old) (λ k. PushesBack payload k self.old self.new) }
    {
        if self.list.len() == usize::MAX {
            return None;
        }
        let (ticket, member) = make(alloc, &mut self.tickets, payload)?;
        let spot = self.list.push_back(member);
        self.tickets.give(ticket, spot);
        Some(ticket)
    }

    /// Inserts an element before the one that has the ticket `at`, and returns its ticket. Returns `None` where
    /// `push_front` does, or if no element has `at`, and the list is unchanged then.
    ///
    /// # Complexity
    /// O(1), amortized over the growth of the slots.
    pub fn insert_before(&mut self, alloc: Global, at: Ticket, payload: u64) -> Option<Ticket>
        ensures { MatchOption result (self.new ≡ self.old) (λ k. PutsBefore at payload k self.old self.new) }
    {
        let at = self.find(at)?;
        if self.list.len() == usize::MAX {
            return None;
        }
        let (ticket, member) = make(alloc, &mut self.tickets, payload)?;
        let spot = self.list.insert_before(at, member);
        self.tickets.give(ticket, spot);
        Some(ticket)
    }

    /// Inserts an element after the one that has the ticket `at`, and returns its ticket. Returns `None` where
    /// `push_front` does, or if no element has `at`, and the list is unchanged then.
    ///
    /// # Complexity
    /// O(1), amortized over the growth of the slots.
    pub fn insert_after(&mut self, alloc: Global, at: Ticket, payload: u64) -> Option<Ticket>
        ensures { MatchOption result (self.new ≡ self.old) (λ k. PutsAfter at payload k self.old self.new) }
    {
        let at = self.find(at)?;
        if self.list.len() == usize::MAX {
            return None;
        }
        let (ticket, member) = make(alloc, &mut self.tickets, payload)?;
        let spot = self.list.insert_after(at, member);
        self.tickets.give(ticket, spot);
        Some(ticket)
    }

    /// Removes the first element, frees its node and returns its payload, or `None` if the list is empty. Its ticket
    /// ends.
    ///
    /// # Complexity
    /// O(1).
    pub fn pop_front(&mut self) -> Option<u64>
        ensures { MatchOption result ((self.old.nodes ≡ []) × (self.new ≡ self.old))
            (λ x. PopsFront x self.old self.new) }
    {
        self.list.spots_are_distinct();
        let member = self.list.pop_front()?;
        Some(end(&mut self.tickets, member))
    }

    /// Removes the last element, frees its node and returns its payload, or `None` if the list is empty. Its ticket
    /// ends.
    ///
    /// # Complexity
    /// O(1).
    pub fn pop_back(&mut self) -> Option<u64>
        ensures { MatchOption result ((self.old.nodes ≡ []) × (self.new ≡ self.old))
            (λ x. PopsBack x self.old self.new) }
    {
        self.list.spots_are_distinct();
        let member = self.list.pop_back()?;
        Some(end(&mut self.tickets, member))
    }

    /// Removes the element that has the ticket `at`, frees its node and returns its payload, or `None` if none has it.
    /// The ticket ends.
    ///
    /// # Complexity
    /// O(1).
    pub fn remove(&mut self, at: Ticket) -> Option<u64>
        ensures { MatchOption result (NamesNone self.old at × (self.new ≡ self.old))
            (λ x. Removes at x self.old self.new) }
    {
        let spot = self.find(at)?;
        let member = self.list.remove(spot);
        Some(end(&mut self.tickets, member))
    }

    /// Returns the payload of the element that has the ticket `at`, or `None` if none has it.
    ///
    /// # Complexity
    /// O(1).
    pub fn get(&self, at: Ticket) -> Option<u64>
        ensures { MatchOption result (NamesNone self.now at) (λ x. Holds at x self.now) }
    {
        let spot = self.find(at)?;
        Some(self.list.get(spot).payload)
    }

    /// Returns the ticket of the first element, or `None` if the list is empty.
    ///
    /// # Complexity
    /// O(1).
    pub fn front(&self) -> Option<Ticket>
        ensures { MatchOption result (self.now.nodes ≡ []) (λ k. NamesFirst k self.now) }
    {
        let spot = self.list.front()?;
        Some(self.ticket_at(spot))
    }

    /// Returns the ticket of the last element, or `None` if the list is empty.
    ///
    /// # Complexity
    /// O(1).
    pub fn back(&self) -> Option<Ticket>
        ensures { MatchOption result (self.now.nodes ≡ []) (λ k. NamesLast k self.now) }
    {
        let spot = self.list.back()?;
        Some(self.ticket_at(spot))
    }

    /// Returns the ticket of the element after the one that has the ticket `at`. Returns `None` if that is the last, or
    /// if no element has `at`.
    ///
    /// # Complexity
    /// O(1).
    pub fn next(&self, at: Ticket) -> Option<Ticket>
        ensures { MatchOption result (NamesNone self.now at ⊎ NamesLast at self.now) (λ k. NamesNext at k self.now) }
    {
        let at = self.find(at)?;
        let next = self.list.next(at)?;
        Some(self.ticket_at(next))
    }

    /// Returns the ticket of the element before the one that has the ticket `at`. Returns `None` if that is the first,
    /// or if no element has `at`.
    ///
    /// # Complexity
    /// O(1).
    pub fn prev(&self, at: Ticket) -> Option<Ticket>
        ensures { MatchOption result (NamesNone self.now at ⊎ NamesFirst at self.now) (λ k. NamesNext k at self.now) }
    {
        let at = self.find(at)?;
        let prev = self.list.prev(at)?;
        Some(self.ticket_at(prev))
    }

    /// Moves the element that has the ticket `at` to the front and returns `true`, or returns `false` if none has it,
    /// and the list is unchanged. The element keeps its ticket, and the others their order.
    ///
    /// # Complexity
    /// O(1).
    pub fn move_to_front(&mut self, at: Ticket) -> bool
        ensures { MatchBool result (MovesFront at self.old self.new)
            (NamesNone self.old at × (self.new ≡ self.old)) }
    {
        let Some(spot) = self.find(at) else {
            return false;
        };
        self.list.move_to_front(spot);
        true
    }

    /// Moves the element that has the ticket `at` to the back as `move_to_front` moves it to the front.
    ///
    /// # Complexity
    /// O(1).
    pub fn move_to_back(&mut self, at: Ticket) -> bool
        ensures { MatchBool result (MovesBack at self.old self.new)
            (NamesNone self.old at × (self.new ≡ self.old)) }
    {
        let Some(spot) = self.find(at) else {
            return false;
        };
        self.list.move_to_back(spot);
        true
    }

    /// Moves the element that has the ticket `at` to right after the one that has the ticket `to`, and returns `true`.
    /// Returns `false` if one of the tickets is of no element, or they are the same, and the list is unchanged then.
    /// The element keeps its ticket, and the others their order.
    ///
    /// # Complexity
    /// O(1).
    pub fn move_after(&mut self, at: Ticket, to: Ticket) -> bool
        ensures { MatchBool result (MovesAfter at to self.old self.new)
            (HasNoPair self.old at to × (self.new ≡ self.old)) }
    {
        let Some(spot) = self.find(at) else {
            return false;
        };
        let Some(after) = self.find(to) else {
            return false;
        };
        if at.slot == to.slot {
            return false;
        }
        self.list.move_after(spot, after);
        true
    }
}
