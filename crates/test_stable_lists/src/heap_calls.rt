//! Calls of a heap with spots, and what they reply.
ghost use Rattle.std.specs.Prelude.{◌≡◌};

use crate::compared::{at_most, made, same};
use crate::keys::{Handle, Key, Pair, Reply, make, parts};
use cordyceps_heap::stable_heap::StableHeap;
use cordyceps_single::sorted_list::{Least, Order};
use cordyceps_stable::stable_list::Spot;
use std::alloc::Global;
use std::collections::HashMap;
use std::marker::Model;
use std::mem;
use std::process::Abort;

/// No heap of a test is longer.
pub const LONGEST: usize = 10_000;

/// A call of a heap. It names an element by its number.
#[derive(Drop)]
pub enum Call {
    Push(Pair),
    TryPush(Pair),
    /// Appends a heap of these elements, which were pushed in their order.
    Append(&'static [Pair]),
    PopFront,
    /// Reads the first key.
    Front,
    /// Reads a key.
    Get(u64),
    /// Visits all elements, and adds their keys up.
    Sum,
    Remove(u64),
    /// Changes a key.
    Update(u64, u64),
}

/// A heap with the least key first, and the spots of its elements by their numbers, but for those that were appended.
#[derive(Drop)]
pub struct Keys {
    heap: StableHeap<Key, Least>,
    spots: HashMap<u64, Spot>,
}

impl Model for Keys {
    ghost use Rattle.std.specs.Prelude.{ℕ, length, nat_eq};
    ghost use Rattle.std.specs.HashMap.{get};
    ghost use Rattle.cordyceps_heap.specs.Heap.{nodes_in};
    ghost use Rattle.test_stable_lists.specs.Finding.{Finds};

    ghost Value = { ℕ };

    ghost view = { λ k. length (nodes_in k.heap) };

    ghost invariant = { λ k. Finds (get nat_eq k.spots) (nodes_in k.heap) };
}

/// Pushes elements one after the other.
pub fn push_all<O: Order<Key>>(
    rt: &impl Abort,
    alloc: Global,
    heap: &mut StableHeap<Key, O>,
    pairs: &[Pair],
)
    requires { O.can_compare heap.old.order }
    ensures { heap.new.order ≡ heap.old.order }
{
    for pair in pairs {
        at_most(rt, heap.len(), LONGEST);
        heap.push(make(rt, alloc, *pair));
    }
}

/// Asserts the elements that a heap pops, and that it pops no more.
pub fn pops<O: Order<Key>>(rt: &impl Abort, mut heap: StableHeap<Key, O>, pairs: &[Pair])
where
    O: Drop,
    requires { O.can_compare heap.order }
{
    for pair in pairs {
        same(rt, parts(heap.pop_front()), Some(*pair));
    }
    same(rt, parts(heap.pop_front()), None);
}

impl Keys {
    /// Returns a heap of no element.
    pub fn new(alloc: Global) -> Keys {
        Keys {
            heap: StableHeap::new_min(),
            spots: HashMap::new(alloc),
        }
    }

    /// Returns the number of elements.
    pub fn len(&self) -> usize {
        if self.heap.is_empty() {
            return 0;
        }
        self.heap.len()
    }

    /// Pushes an element.
    fn push(&mut self, rt: &impl Abort, alloc: Global, pair: Pair) {
        at_most(rt, self.heap.len(), LONGEST);
        let node = make(rt, alloc, pair);
        let number = node.id();
        let spot = self.heap.push(node);
        made(rt, self.spots.insert(number, spot));
    }

    /// Pushes an element, where there is room.
    fn try_push(&mut self, rt: &impl Abort, alloc: Global, pair: Pair) {
        let node = make(rt, alloc, pair);
        let number = node.id();
        match self.heap.try_push(node) {
            Ok(spot) => {
                made(rt, self.spots.insert(number, spot));
            }
            Err(_) => same(rt, "it came back", "it was pushed"),
        }
    }

    /// Appends a heap of elements, which is empty then.
    fn append(&mut self, rt: &impl Abort, alloc: Global, pairs: &[Pair]) {
        let mut other = StableHeap::new_min();
        push_all(rt, alloc, &mut other, pairs);
        at_most(rt, other.len(), LONGEST);
        at_most(rt, self.heap.len(), LONGEST);
        self.heap.append(&mut other);
        same(rt, (other.len(), other.is_empty()), (0, true));
        pops(rt, other, &[]);
    }

    /// Removes the first element.
    fn pop_front(&mut self) -> Option<Handle> {
        let node = self.heap.pop_front()?;
        self.spots.remove(&node.id());
        Some(node)
    }

    /// Returns the first key.
    fn front(&mut self) -> Option<u64> {
        let spot = self.heap.front()?;
        Some(self.heap.get(spot).value)
    }

    /// Returns the key of the element with a number.
    fn get(&self, number: u64) -> Option<u64> {
        let spot = *self.spots.get(&number)?;
        Some(self.heap.get(spot).value)
    }

    /// Returns how many elements a walk meets, and the sum of their keys.
    fn sum(&self) -> (usize, u64) {
        let mut count = 0usize;
        let mut sum = 0u64;
        for (_, key) in self.heap.iter() {
            count = count.wrapping_add(1);
            sum = sum.wrapping_add(key.value);
        }
        (count, sum)
    }

    /// Removes the element with a number.
    fn remove(&mut self, number: u64) -> Option<Handle> {
        let spot = *self.spots.get(&number)?;
        let node = self.heap.remove(spot);
        self.spots.remove(&node.id());
        Some(node)
    }

    /// Changes the key of the element with a number, and returns the old one.
    fn update(&mut self, number: u64, key: u64) -> Option<u64> {
        let spot = *self.spots.get(&number)?;
        Some(
            self.heap
                .update(spot, |element| mem::replace(&mut element.value, key)),
        )
    }
}

/// Makes a call, and returns its reply.
pub fn make_call(rt: &impl Abort, alloc: Global, keys: &mut Keys, call: &Call) -> Reply {
    match call {
        Call::Push(pair) => {
            keys.push(rt, alloc, *pair);
            Reply::Nothing
        }
        Call::TryPush(pair) => {
            keys.try_push(rt, alloc, *pair);
            Reply::Nothing
        }
        Call::Append(pairs) => {
            keys.append(rt, alloc, pairs);
            Reply::Nothing
        }
        Call::PopFront => Reply::Out(parts(keys.pop_front())),
        Call::Front => Reply::Read(keys.front()),
        Call::Get(number) => Reply::Read(keys.get(*number)),
        Call::Sum => {
            let (count, sum) = keys.sum();
            Reply::Sum(count, sum)
        }
        Call::Remove(number) => Reply::Out(parts(keys.remove(*number))),
        Call::Update(number, key) => Reply::Read(keys.update(*number, *key)),
    }
}
