//! A timer wheel, as operating-system kernels have it: a timer is started and cancelled in O(1), and all timers of a
//! tick expire in O(1), for any number of timers.
//!
//! The slots of the wheel represent the ticks of one turn. A timer waits in the slot whose index is its deadline modulo
//! the number of slots.
ghost use Rattle.std.specs.Prelude.{ℕ, ◌≡◌, ◌+◌, ◌%◌, ◌++◌, ◌<◌, ◌≤◌, [], ◌∷◌, length, replicate, IfOk, IfErr, IsOk, OnErr, All};
ghost use Rattle.cordyceps.specs.Elements.Nodes.{Nodes, elements};
ghost use Rattle.cordyceps.specs.Spots.BySpot.{IsTaken};
ghost use Rattle.cordyceps_uses.specs.TimerWheel.{waiting, with_waiting, Ahead, IsGood};

use cordyceps::list::Links;
use cordyceps::{Linked, List, Node, Spot, StableList};
use std::alloc::{AllocError, Global};
use std::marker::Model;
use std::mem;

/// What is to be done at a deadline. The deadline, in ticks, is the number of the timer's node.
#[derive(Drop)]
pub struct Timer<P> {
    pub payload: P,
}

impl<P: Drop> Linked<Links<Timer<P>>> for Timer<P> {
    type Handle = Node<Timer<P>, Links<Timer<P>>>;

    ghost element = { λ h. h };

    fn into_ptr(handle: Node<Timer<P>, Links<Timer<P>>>) -> Node<Timer<P>, Links<Timer<P>>> {
        handle
    }

    fn from_ptr(node: Node<Timer<P>, Links<Timer<P>>>) -> Node<Timer<P>, Links<Timer<P>>>
        ensures { result ≡ node }
    {
        node
    }
}

/// A timer in a node. The caller owns it before it is started, and again after it was cancelled or became due.
pub type TimerNode<P> = Node<Timer<P>, Links<Timer<P>>>;

/// A ticket, by which a timer is cancelled. It owns nothing, and is valid until that timer is cancelled or due.
#[derive(Clone, Copy)]
pub struct Ticket {
    /// The deadline of the timer, in ticks.
    pub deadline: u64,
    /// The spot of the timer in its slot.
    pub spot: Spot,
}

/// A timer wheel. A contract sees its time, in ticks, and the timers of each slot, in the order in which they were
/// started.
///
/// # Complexity
/// Dropping the wheel frees the node of each timer: O(s + n), for s slots and n timers.
#[derive(Drop)]
pub struct TimerWheel<P> {
    slots: Vec<StableList<Timer<P>>>,
    time: u64,
}

impl<P> Model for TimerWheel<P> {
    ghost use Rattle.std.specs.Prelude.{◌<◌, length};
    ghost use Rattle.cordyceps_uses.specs.TimerWheel.{Dial, dial, IsInPlace};

    ghost Value = { Dial P };

    ghost view = { λ w. dial w.time w.slots.items };

    ghost invariant = { λ w. (0 < length w.slots.items) × IsInPlace (dial w.time w.slots.items) };
}

impl<P: Drop> TimerWheel<P> {
    /// Creates a wheel with `slots` slots and no timers, at the time 0. Requires at least one slot. Allocates the
    /// slots.
    ///
    /// # Errors
    /// If memory is refused, it returns `AllocError`.
    ///
    /// # Complexity
    /// O(`slots`).
    pub fn new(alloc: Global, slots: usize) -> Result<TimerWheel<P>, AllocError>
        requires { 0 < slots }
        ensures { IfOk result (λ w. (w.time ≡ 0) × (w.slots ≡ replicate slots [])) }
    {
        let mut empty = Vec::new(alloc);
        for _ in 0..slots {
            if empty.push(StableList::new()).is_err() {
                return Err(AllocError);
            }
        }
        Ok(TimerWheel {
            slots: empty,
            time: 0,
        })
    }

    /// Starts a timer and returns its ticket. The timer is due at the time that is the number of its node. Allocates
    /// nothing.
    ///
    /// # Errors
    /// If the deadline is not in the turn that begins now, or its slot has `usize::MAX` timers, the timer is returned,
    /// and the wheel is unchanged. The turn has as many ticks as the wheel has slots, and the present tick is its
    /// first.
    ///
    /// # Complexity
    /// O(1).
    pub fn start(&mut self, timer: TimerNode<P>) -> Result<Ticket, TimerNode<P>>
        ensures started { IfOk result (λ ticket.
            self.new ≡ with_waiting timer.id (waiting timer.id self.old ++ (ticket.spot, timer) ∷ []) self.old) }
        ensures ticket { IfOk result (λ ticket. ticket.deadline ≡ timer.id) }
        ensures good { IfOk result (λ ticket. IsGood ticket.deadline ticket.spot self.new) }
        ensures succeeds { Ahead timer.id self.old → length (waiting timer.id self.old) < usize.MAX → IsOk result }
        ensures returned { IfErr result (λ back. back ≡ timer) }
        ensures kept { OnErr result (self.new ≡ self.old) }
    {
        let deadline = timer.id();
        if deadline < self.time || deadline - self.time >= self.slots.len() as u64 {
            return Err(timer);
        }
        let slot = self.slot(deadline);
        if self.slots[slot].len() == usize::MAX {
            return Err(timer);
        }
        let spot = self.slots[slot].push_back(timer);
        Ok(Ticket { deadline, spot })
    }

    /// Removes the timer of a ticket from the wheel and returns it. Requires that the ticket is valid.
    ///
    /// # Complexity
    /// O(1).
    pub fn cancel(&mut self, ticket: Ticket) -> TimerNode<P>
        requires { IsGood ticket.deadline ticket.spot self.old }
        ensures { (left : Nodes (Timer P))
            × IsTaken (waiting ticket.deadline self.old) ticket.spot result left
            × (self.new ≡ with_waiting ticket.deadline left self.old) }
    {
        let slot = self.slot(ticket.deadline);
        self.slots[slot].remove(ticket.spot)
    }

    /// Ends the present tick, and returns the timers that were due in it, in the order in which they were started.
    /// Requires that the time is below `u64::MAX`. Allocates nothing.
    ///
    /// # Complexity
    /// O(1), for any number of timers.
    pub fn tick(&mut self) -> List<Timer<P>>
        requires { self.old.time < u64.MAX }
        ensures expired { result ≡ elements (waiting self.old.time self.old) }
        ensures due { All (λ timer. timer.id ≡ self.old.time) result }
        ensures slots { self.new.slots ≡ (with_waiting self.old.time [] self.old).slots }
        ensures time { self.new.time ≡ self.old.time + 1 }
    {
        let slot = self.slot(self.time);
        let due = mem::replace(&mut self.slots[slot], StableList::new());
        self.time += 1;
        due.into_list()
    }

    /// Returns the time, in ticks since the wheel was created.
    ///
    /// # Complexity
    /// O(1).
    pub fn time(&self) -> u64
        ensures { result ≡ self.now.time }
    {
        self.time
    }

    /// Returns the index of the slot of a deadline.
    fn slot(&self, deadline: u64) -> usize
        ensures { result ≡ deadline % length self.now.slots }
    {
        (deadline % self.slots.len() as u64) as usize
    }
}
