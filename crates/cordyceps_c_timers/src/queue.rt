//! A priority queue, whose items have keys.
ghost use Rattle.std.specs.Prelude.{◌≡◌, [], length, refl, ⊤};
ghost use Rattle.std.proofs.Common.{subst, sym};
ghost use Rattle.std.specs.Ordering.{nat_cmp};
ghost use Rattle.cordyceps_single.specs.ByKey.{by_key};
ghost use Rattle.cordyceps_single.specs.Preorder.{IsPreorder, by_number_lawful};
ghost use Rattle.cordyceps_c_base.specs.Tickets.{IsEnded};
ghost use Rattle.cordyceps_c_timers.specs.Queues.{Changes, IsFirst, Pops, Pushes, Removes};
ghost use Rattle.cordyceps_c_timers.specs.Queues.{item_of, key_of};

use cordyceps_base::linked::Linked;
use cordyceps_base::list::Links;
use cordyceps_base::node::Node;
use cordyceps_c_base::tickets::{Ticket, Tickets};
use cordyceps_heap::stable_heap::StableHeap;
use cordyceps_single::sorted_list::Order;
use std::alloc::Global;
use std::cmp::Ordering;
use std::marker::Model;

/// An item in a queue, in a node whose number is that of its ticket.
#[derive(Drop)]
pub struct Ranked {
    pub key: u64,
    pub payload: u64,
    /// Where its ticket is.
    pub slot: u32,
}

/// An item in its node.
type Queueing = Node<Ranked, Links<Ranked>>;

impl Linked<Links<Ranked>> for Ranked {
    type Handle = Queueing;

    ghost element = { λ h. h };

    fn into_ptr(handle: Queueing) -> Queueing {
        handle
    }

    fn from_ptr(node: Queueing) -> Queueing
        ensures { result ≡ node }
    {
        node
    }
}

/// The order of items by their keys.
#[derive(Drop)]
pub(crate) struct ByPriority;

impl Order<Ranked> for ByPriority {
    ghost compares_by = { λ _ cmp. cmp ≡ by_key nat_cmp key_of };

    ghost can_compare = { λ _. ⊤ };

    ghost computes = { λ _ _. (by_key nat_cmp key_of, refl) };

    ghost lawful = { λ _ cmp e. subst IsPreorder (sym e) (by_number_lawful key_of) };

    fn compare(&self, first: &Ranked, second: &Ranked) -> Ordering {
        first.key.cmp(&second.key)
    }
}

/// An item that came out, as C sees it.
#[repr(C)]
#[derive(Clone, Copy, Drop)]
pub struct Item {
    pub key: u64,
    pub payload: u64,
}

/// Ends the ticket of an item that came out, frees its node, and returns what C sees of it.
pub(crate) fn into_item(ranked: Queueing, tickets: &mut Tickets) -> Item
    ensures item { result ≡ item_of ranked }
    ensures ended { IsEnded ranked.id ranked.value.slot tickets.old tickets.new }
{
    tickets.end(ranked.id(), ranked.get().slot);
    let Ranked {
        key,
        payload,
        slot: _,
    } = ranked.into_value();
    Item { key, payload }
}

/// A priority queue. The item of the least key comes out first, and of equal keys the one that was pushed first. Each
/// item has a ticket, by which it is removed or gets another key, and which is not valid once the item has come out.
///
/// A contract sees the items in the order in which they come out, and how many tickets were given.
#[derive(Drop)]
pub struct Queue {
    pub(crate) heap: StableHeap<Ranked, ByPriority>,
    pub(crate) tickets: Tickets,
}

impl Model for Queue {
    ghost use Rattle.cordyceps_heap.specs.Heap.{nodes_in};
    ghost use Rattle.cordyceps_c_timers.specs.Arranged.{arranged};
    ghost use Rattle.cordyceps_c_timers.specs.Queues.{AreKept, Queued, key_of};

    ghost Value = { Queued };

    ghost view = { λ q. record {
      nodes = arranged key_of (nodes_in q.heap);
      collection = q.tickets.collection;
      given = q.tickets.given;
    } };

    ghost invariant = { λ q. AreKept q.tickets q.heap.lines };
}

impl Queue {
    /// Creates an empty queue, whose tickets have the number of the collection. Allocates nothing.
    ///
    /// # Complexity
    /// O(1).
    pub fn new(alloc: Global, collection: u32) -> Queue
        ensures { result ≡ record { nodes = []; collection = collection; given = 0 } }
    {
        Queue {
            heap: StableHeap::new_with_order(ByPriority),
            tickets: Tickets::new(alloc, collection),
        }
    }

    /// Inserts an item and returns its ticket. It comes out after all whose keys are not greater. Returns `None` if
    /// memory is refused, the queue has `usize::MAX` items, or no ticket is left, and the queue is unchanged. Allocates
    /// one node, and at times a larger table of tickets.
    ///
    /// # Complexity
    /// O(1) amortized, without a comparison.
    pub fn push(&mut self, alloc: Global, key: u64, payload: u64) -> Option<Ticket>
        ensures { Pushes key payload result self.old self.new }
    {
        if self.heap.len() == usize::MAX {
            return None;
        }
        let ticket = self.tickets.reserve()?;
        let item = Ranked {
            key,
            payload,
            slot: ticket.slot,
        };
        let Ok(item) = Node::new(alloc, ticket.number, item) else {
            return None;
        };
        let spot = self.heap.push(item);
        self.tickets.give(ticket, spot);
        Some(ticket)
    }

    /// Removes the first item, frees its node and returns it, or returns `None` if the queue is empty.
    ///
    /// # Complexity
    /// O(log n) amortized, for n items that were pushed.
    pub fn pop(&mut self) -> Option<Item>
        ensures { Pops result self.old self.new }
    {
        self.heap.spots_are_distinct();
        let item = self.heap.pop_front()?;
        Some(into_item(item, &mut self.tickets))
    }

    /// Returns the first item, or `None` if the queue is empty. The items stay as they are.
    ///
    /// # Complexity
    /// That of `pop`.
    pub fn front(&mut self) -> Option<Item>
        ensures first { IsFirst result self.old }
        ensures kept { self.new ≡ self.old }
    {
        let spot = self.heap.front()?;
        let first = self.heap.get(spot);
        Some(Item {
            key: first.key,
            payload: first.payload,
        })
    }

    /// Removes the item that has the ticket, frees its node and returns it. Returns `None` if no item has it, and the
    /// queue is unchanged.
    ///
    /// # Complexity
    /// O(1), without a comparison.
    pub fn remove(&mut self, ticket: Ticket) -> Option<Item>
        ensures { Removes ticket result self.old self.new }
    {
        let spot = self.tickets.find(ticket)?;
        self.heap.spots_are_distinct();
        let item = self.heap.remove(spot);
        Some(into_item(item, &mut self.tickets))
    }

    /// Gives another key to the item that has the ticket, as if it were pushed now, and returns `true`. The ticket
    /// stays valid. Returns `false` if no item has it, and the queue is unchanged.
    ///
    /// # Complexity
    /// O(1), without a comparison.
    pub fn change(&mut self, ticket: Ticket, key: u64) -> bool
        ensures { Changes ticket key result self.old self.new }
    {
        let Some(spot) = self.tickets.find(ticket) else {
            return false;
        };
        self.heap.spots_are_distinct();
        self.heap.update(
            spot,
            move |item: &mut Ranked| -> ()
                ensures key { item.new.key ≡ key }
                ensures payload { item.new.payload ≡ item.old.payload }
                ensures slot { item.new.slot ≡ item.old.slot }
            {
                item.key = key;
            },
        );
        true
    }

    /// Returns the number of items.
    ///
    /// # Complexity
    /// O(1).
    pub fn len(&self) -> usize
        ensures { result ≡ length self.now.nodes }
    {
        self.heap.len()
    }
}
