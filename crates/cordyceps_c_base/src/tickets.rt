//! Tickets, by which C names the elements of a collection.
ghost use Rattle.std.specs.Prelude.{◌≡◌, [], IfSome, MatchOption, Some};
ghost use Rattle.slab.specs.Slab.{SameValues, Updates};
ghost use Rattle.cordyceps_c_base.specs.Tickets.{IsEnded, IsNext, Leads, no_ticket};

use cordyceps_stable::stable_list::Spot;
use slab::Slab;
use std::alloc::Global;

/// Names an element of a collection until it comes out. No other element gets the same ticket, then or later.
#[repr(C)]
#[derive(Clone, Copy, Drop)]
pub struct Ticket {
    /// The number of the collection, which its maker chose.
    pub collection: u32,
    /// Where the collection finds the element.
    pub slot: u32,
    /// How many tickets the collection had given then, with this one.
    pub number: u64,
}

impl Ticket {
    /// Returns the ticket that no element has.
    pub fn none() -> Ticket
        ensures { result ≡ no_ticket }
    {
        Ticket {
            collection: 0,
            slot: 0,
            number: 0,
        }
    }
}

/// What is in a slot: which ticket it was given to, and where the element is.
#[derive(Clone, Copy, Drop)]
pub struct Entry {
    pub number: u64,
    pub spot: Spot,
}

/// The tickets of a collection: where the element of each is, and how many were given.
#[derive(Drop)]
pub struct Tickets {
    pub collection: u32,
    pub given: u64,
    pub slots: Slab<Entry, Global>,
}

impl Tickets {
    /// Makes the tickets of a collection of this number, of which none is given. Allocates nothing.
    pub fn new(alloc: Global, collection: u32) -> Tickets
        ensures collection { result.collection ≡ collection }
        ensures given { result.given ≡ 0 }
        ensures empty { result.slots.slots ≡ [] }
    {
        Tickets {
            collection,
            given: 0,
            slots: Slab::new(alloc),
        }
    }

    /// Makes room for one ticket more and returns it. Returns `None` if memory is refused, `u64::MAX` tickets were
    /// given, or 2^32 are valid. Each ticket stays as it is.
    pub fn reserve(&mut self) -> Option<Ticket>
        ensures next { IfSome result (IsNext self.new) }
        ensures collection { self.new.collection ≡ self.old.collection }
        ensures given { self.new.given ≡ self.old.given }
        ensures same { SameValues self.old.slots self.new.slots }
    {
        let Ok(()) = self.slots.reserve(1) else {
            return None;
        };
        let slot = u32::try_from(self.slots.vacant_key()).ok()?;
        let number = self.given.checked_add(1)?;
        Some(Ticket {
            collection: self.collection,
            slot,
            number,
        })
    }

    /// Gives the ticket for which room was made to the element at `spot`.
    pub fn give(&mut self, ticket: Ticket, spot: Spot)
        requires { IsNext self.old ticket }
        ensures collection { self.new.collection ≡ self.old.collection }
        ensures given { self.new.given ≡ ticket.number }
        ensures put { Updates self.old.slots self.new.slots ticket.slot
            (Some (record { number = ticket.number; spot = spot })) }
    {
        let number = ticket.number;
        self.given = number;
        self.slots.insert_reserved(Entry { number, spot });
    }

    /// Returns where the element of a ticket is, or `None` if no element has it.
    pub fn find(&self, ticket: Ticket) -> Option<Spot>
        ensures { MatchOption result ((p : _) → Leads self.now ticket p → ⊥) (Leads self.now ticket) }
    {
        let entry = self.slots.get(ticket.slot as usize)?;
        if ticket.collection != self.collection || ticket.number != entry.number {
            return None;
        }
        Some(entry.spot)
    }

    /// Ends the ticket of an element that came out, if it has one. Its number is 0 if it has none.
    pub fn end(&mut self, number: u64, slot: u32)
        ensures { IsEnded number slot self.old self.new }
    {
        if number > 0 {
            self.slots.try_remove(slot as usize);
        }
    }
}
