//! A priority queue of C's own nodes, which their values order.
ghost use Rattle.std.specs.Prelude.{◌≡◌, ◌≤◌, ◌<◌, [], ◌∷◌, length, refl, ⊤, MatchOption};
ghost use Rattle.std.proofs.Common.{subst, sym};
ghost use Rattle.std.specs.Ordering.{nat_cmp};
ghost use denote.RawPtr.{Ptr};
ghost use Rattle.cordyceps_single.specs.ByKey.{by_key};
ghost use Rattle.cordyceps_single.specs.Preorder.{IsPreorder, by_number_lawful};
ghost use Rattle.cordyceps_base.specs.BySpot.{HasSpot, IsTaken};
ghost use Rattle.cordyceps_c_timers.specs.Arranged.{placed};
ghost use Rattle.cordyceps_c_timers.specs.NodeQueues.{Begins, ChangesValue, value_of};

use cordyceps_c_base::carried::{Carried, Listed};
use cordyceps_heap::stable_heap::StableHeap;
use cordyceps_single::sorted_list::Order;
use cordyceps_stable::stable_list::Spot;
use std::cmp::Ordering;
use std::marker::Model;

/// The order of nodes by their values.
#[derive(Drop)]
pub(crate) struct ByValue;

impl Order<Carried> for ByValue {
    ghost compares_by = { λ _ cmp. cmp ≡ by_key nat_cmp value_of };

    ghost can_compare = { λ _. ⊤ };

    ghost computes = { λ _ _. (by_key nat_cmp value_of, refl) };

    ghost lawful = { λ _ cmp e. subst IsPreorder (sym e) (by_number_lawful value_of) };

    fn compare(&self, first: &Carried, second: &Carried) -> Ordering {
        first.value.cmp(&second.value)
    }
}

/// A priority queue of nodes. The node of the least value comes out first, and of equal values the one that was pushed
/// first. It allocates nothing.
///
/// A contract sees the nodes in the order in which they come out.
#[derive(Drop)]
pub struct NodeQueue {
    pub(crate) heap: StableHeap<Carried, ByValue>,
}

impl Model for NodeQueue {
    ghost use Rattle.cordyceps_base.specs.Nodes.{Nodes};
    ghost use Rattle.cordyceps_heap.specs.Heap.{nodes_in};
    ghost use Rattle.cordyceps_c_base.specs.declared.carried.Carried.{Carried};
    ghost use Rattle.cordyceps_c_timers.specs.Arranged.{arranged};
    ghost use Rattle.cordyceps_c_timers.specs.NodeQueues.{HasArrivals, value_of};

    ghost Value = { Nodes Carried };

    ghost view = { λ q. arranged value_of (nodes_in q.heap) };

    ghost invariant = { λ q. HasArrivals q.heap.lines };
}

impl NodeQueue {
    /// Creates an empty queue.
    ///
    /// # Complexity
    /// O(1).
    pub fn new() -> NodeQueue
        ensures { result ≡ [] }
    {
        NodeQueue {
            heap: StableHeap::new_with_order(ByValue),
        }
    }

    /// Returns the number of nodes.
    ///
    /// # Complexity
    /// O(1).
    pub fn len(&self) -> usize
        ensures { result ≡ length self.now }
    {
        self.heap.len()
    }

    /// Inserts a node and returns its spot, which stays the same while it is in the queue. Requires a length below
    /// `usize::MAX`.
    ///
    /// # Complexity
    /// O(1), without a comparison.
    pub fn push(&mut self, node: Listed) -> Spot
        requires { length self.old < usize.MAX }
        ensures { self.new ≡ placed value_of result node self.old }
    {
        self.heap.push(node)
    }

    /// Removes the first node and returns it, or `None` if the queue is empty.
    ///
    /// # Complexity
    /// O(log n) amortized, for n nodes.
    pub fn pop(&mut self) -> Option<Listed>
        ensures { MatchOption result ((self.old ≡ []) × (self.new ≡ [])) (λ e. Begins e self.old self.new) }
    {
        self.heap.pop_front()
    }

    /// Returns the value of the first node, or `None` if the queue is empty.
    ///
    /// # Complexity
    /// O(log n) amortized, for n nodes.
    pub fn first(&mut self) -> Option<u64>
        ensures first { MatchOption result (self.old ≡ [])
            (λ v. (e : _) × (rest : _) × Begins e self.old rest × (v ≡ value_of e.value)) }
        ensures kept { self.new ≡ self.old }
    {
        let spot = self.heap.front()?;
        Some(self.heap.get(spot).value)
    }

    /// Removes the first node if its value is at most `most`, and returns it. Returns `None` if the first has a greater
    /// value or the queue is empty, and the queue is unchanged then.
    ///
    /// # Complexity
    /// O(log n) amortized, for n nodes.
    pub fn pop_until(&mut self, most: u64) -> Option<Listed>
        ensures taken { MatchOption result
            ((self.new ≡ self.old) × ((e : _) (rest : _) → Begins e self.old rest → most < value_of e.value))
            (λ e. Begins e self.old self.new × (value_of e.value ≤ most)) }
    {
        match self.first() {
            Some(value) if value <= most => self.pop(),
            _ => None,
        }
    }

    /// Removes the node at `at` and returns it. Requires that it is in the queue.
    ///
    /// # Complexity
    /// O(1), without a comparison.
    pub fn remove(&mut self, at: Spot) -> Listed
        requires { HasSpot self.old at }
        ensures { IsTaken self.old at result self.new }
    {
        self.heap.remove(at)
    }

    /// Gives another value to the node at `at`, as if it were pushed now. It keeps its spot. Requires that it is in the
    /// queue.
    ///
    /// # Complexity
    /// O(1), without a comparison.
    pub fn change(&mut self, at: Spot, value: u64)
        requires { HasSpot self.old at }
        ensures { ChangesValue at value self.old self.new }
    {
        self.heap.update(
            at,
            move |carried: &mut Carried| -> ()
                ensures { carried.new.value ≡ value }
            {
                carried.value = value;
            },
        );
    }
}
