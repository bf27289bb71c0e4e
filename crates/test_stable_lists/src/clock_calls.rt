//! Calls of a queue of times that counts the drops of its elements, and what they reply.
ghost use Rattle.std.specs.Prelude.{◌≡◌};

use crate::clock_queues::ByValue;
use crate::compared::{at_most, made, same};
use crate::keys::Reply;
use cordyceps_base::node::Node;
use cordyceps_clock::clock_queue::ClockQueue;
use cordyceps_list::list::Links;
use cordyceps_stable::stable_list::Spot;
use std::alloc::Global;
use std::collections::HashMap;
use std::marker::Model;
use std::mem;
use std::process::Abort;
use test_support::counted::{Counted, Drops, counted_node};

/// No queue of a test is longer.
const LONGEST: usize = 10_000;

/// The time and the number of an element.
pub type Due = (u64, u64);

/// What a queue takes and returns.
type Handle = Node<Counted, Links<Counted>>;

/// A call of a queue. It names an element by its number.
#[derive(Drop)]
pub enum Call {
    Push(Due),
    TryPush(Due),
    PopFront,
    PopDue(u64),
    /// Reads the time of the element that is due first.
    Front,
    /// Removes that element by its spot, which leaves the clock.
    RemoveFront,
    /// Reads a time.
    Get(u64),
    Remove(u64),
    /// Changes a time.
    Update(u64, u64),
}

/// A queue of times, and the spots of its elements by their numbers.
#[derive(Drop)]
pub struct Timers {
    queue: ClockQueue<Counted, ByValue>,
    spots: HashMap<u64, Spot>,
}

impl Model for Timers {
    ghost use Rattle.std.specs.Prelude.{ℕ, length, nat_eq};
    ghost use Rattle.std.specs.HashMap.{get};
    ghost use Rattle.test_stable_lists.specs.Finding.{Finds};

    ghost Value = { ℕ };

    ghost view = { λ t. length t.queue.nodes };

    ghost invariant = { λ t. Finds (get nat_eq t.spots) t.queue.nodes };
}

/// Drops an element that came out, if one did, and returns its time and its number.
fn due(node: Option<Handle>) -> Option<Due> {
    let node = node?;
    Some((node.get().value, node.id()))
}

impl Timers {
    /// Returns a queue of no element.
    pub fn new(alloc: Global) -> Timers {
        Timers {
            queue: ClockQueue::new_with_times(ByValue),
            spots: HashMap::new(alloc),
        }
    }

    /// Returns the number of elements, and the clock.
    pub fn state(&self) -> (usize, u64) {
        if self.queue.is_empty() {
            return (0, self.queue.now());
        }
        (self.queue.len(), self.queue.now())
    }

    /// Pushes an element, where it is due at the clock or later, or returns it.
    fn push(&mut self, rt: &impl Abort, node: Handle) -> Option<Handle> {
        at_most(rt, self.queue.len(), LONGEST);
        if node.get().value < self.queue.now() {
            return Some(node);
        }
        let number = node.id();
        let spot = self.queue.push(node);
        made(rt, self.spots.insert(number, spot));
        None
    }

    /// Pushes an element, or returns it.
    fn try_push(&mut self, rt: &impl Abort, node: Handle) -> Option<Handle> {
        let number = node.id();
        match self.queue.try_push(node) {
            Ok(spot) => {
                made(rt, self.spots.insert(number, spot));
                None
            }
            Err(back) => Some(back),
        }
    }

    /// Removes the element that is due first.
    fn pop_front(&mut self) -> Option<Handle> {
        let node = self.queue.pop_front()?;
        self.spots.remove(&node.id());
        Some(node)
    }

    /// Removes the element that is due first, if it is due by then.
    fn pop_due(&mut self, now: u64) -> Option<Handle> {
        let node = self.queue.pop_due(now)?;
        self.spots.remove(&node.id());
        Some(node)
    }

    /// Returns the time of the element that is due first.
    fn front(&self) -> Option<u64> {
        let spot = self.queue.front()?;
        Some(self.queue.get(spot).value)
    }

    /// Removes the element that is due first by its spot.
    fn remove_front(&mut self) -> Option<Handle> {
        let spot = self.queue.front()?;
        let node = self.queue.remove(spot);
        self.spots.remove(&node.id());
        Some(node)
    }

    /// Returns the time of the element with a number.
    fn get(&self, number: u64) -> Option<u64> {
        let spot = *self.spots.get(&number)?;
        Some(self.queue.get(spot).value)
    }

    /// Removes the element with a number.
    fn remove(&mut self, number: u64) -> Option<Handle> {
        let spot = *self.spots.get(&number)?;
        let node = self.queue.remove(spot);
        self.spots.remove(&node.id());
        Some(node)
    }

    /// Changes the time of the element with a number, where the new one is the clock or later, and returns the old one.
    fn update(&mut self, number: u64, time: u64) -> Option<u64> {
        let spot = *self.spots.get(&number)?;
        if time < self.queue.now() {
            return None;
        }
        Some(
            self.queue
                .update(spot, |counted| mem::replace(&mut counted.value, time)),
        )
    }
}

/// Makes a call, and returns its reply.
pub fn make_call(
    rt: &impl Abort,
    alloc: Global,
    drops: &Drops,
    timers: &mut Timers,
    call: &Call,
) -> Reply {
    match call {
        Call::Push((time, number)) => {
            let node = made(rt, counted_node(alloc, *number, *time, drops));
            Reply::Out(due(timers.push(rt, node)))
        }
        Call::TryPush((time, number)) => {
            let node = made(rt, counted_node(alloc, *number, *time, drops));
            Reply::Out(due(timers.try_push(rt, node)))
        }
        Call::PopFront => Reply::Out(due(timers.pop_front())),
        Call::PopDue(now) => Reply::Out(due(timers.pop_due(*now))),
        Call::Front => Reply::Read(timers.front()),
        Call::RemoveFront => Reply::Out(due(timers.remove_front())),
        Call::Get(number) => Reply::Read(timers.get(*number)),
        Call::Remove(number) => Reply::Out(due(timers.remove(*number))),
        Call::Update(number, time) => Reply::Read(timers.update(*number, *time)),
    }
}
