//! The calls of a priority queue by spots, which nothing checks.
ghost use Rattle.std.specs.Prelude.{◌≡◌};
ghost use Rattle.cordyceps_base.specs.BySpot.{HasSpot};
ghost use Rattle.cordyceps_c_timers.specs.Queues.{ChangesAt, PushesAt, RemovesAt};

use crate::queue::{Item, Queue, Ranked, into_item};
use cordyceps_base::node::Node;
use cordyceps_c_base::tickets::Ticket;
use cordyceps_stable::stable_list::Spot;
use std::alloc::Global;

impl Queue {
    /// Inserts an item without a ticket and returns its spot, which stays the same while it is in the queue. Returns
    /// `None` if memory is refused or the queue has `usize::MAX` items, and the queue is unchanged. Allocates one node.
    ///
    /// # Complexity
    /// O(1), without a comparison.
    pub fn push_unchecked(&mut self, alloc: Global, key: u64, payload: u64) -> Option<Spot>
        ensures { PushesAt key payload result self.old self.new }
    {
        if self.heap.len() == usize::MAX {
            return None;
        }
        let none = Ticket::none();
        let item = Ranked {
            key,
            payload,
            slot: none.slot,
        };
        let Ok(item) = Node::new(alloc, none.number, item) else {
            return None;
        };
        Some(self.heap.push(item))
    }

    /// Removes the item at `at`, frees its node and returns it. Requires that an item is there.
    ///
    /// # Complexity
    /// O(1), without a comparison.
    pub fn remove_unchecked(&mut self, at: Spot) -> Item
        requires { HasSpot self.old.nodes at }
        ensures { RemovesAt at result self.old self.new }
    {
        self.heap.spots_are_distinct();
        let item = self.heap.remove(at);
        into_item(item, &mut self.tickets)
    }

    /// Gives another key to the item at `at`, as if it were pushed now. Requires that an item is there.
    ///
    /// # Complexity
    /// O(1), without a comparison.
    pub fn change_unchecked(&mut self, at: Spot, key: u64)
        requires { HasSpot self.old.nodes at }
        ensures { ChangesAt at key self.old self.new }
    {
        self.heap.update(
            at,
            move |item: &mut Ranked| -> ()
                ensures key { item.new.key ≡ key }
                ensures payload { item.new.payload ≡ item.old.payload }
                ensures slot { item.new.slot ≡ item.old.slot }
            {
                item.key = key;
            },
        );
    }
}
