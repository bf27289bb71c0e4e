//! Timers that fire by their deadlines.
ghost use Rattle.std.specs.Prelude.{◌≡◌, ℕ, [], length, MatchOption, refl, ⊤};
ghost use Rattle.cordyceps_c_base.specs.Tickets.{IsEnded};
ghost use Rattle.cordyceps_c_timers.specs.Timers.{Bounds, Starts, Stops, Restarts};
ghost use Rattle.cordyceps_c_timers.specs.Timers.{Fires, NoneFires, fired_of};

use cordyceps_base::linked::Linked;
use cordyceps_base::list::Links;
use cordyceps_base::node::Node;
use cordyceps_c_base::tickets::{Ticket, Tickets};
use cordyceps_clock::clock_queue::ClockQueue;
use cordyceps_clock::times::Times;
use std::alloc::Global;
use std::marker::Model;

/// A timer that runs, in a node whose number is that of its ticket. It fires at `due`: at its deadline, or at the clock
/// when it was started, if the deadline had passed.
#[derive(Drop)]
pub struct Timer {
    pub due: u64,
    pub deadline: u64,
    pub payload: u64,
    /// Where its ticket is.
    pub slot: u32,
}

/// A timer in its node.
type Running = Node<Timer, Links<Timer>>;

impl Linked<Links<Timer>> for Timer {
    type Handle = Running;

    ghost element = { λ h. h };

    fn into_ptr(handle: Running) -> Running {
        handle
    }

    fn from_ptr(node: Running) -> Running
        ensures { result ≡ node }
    {
        node
    }
}

/// The times at which timers fire.
#[derive(Drop)]
pub(crate) struct ByDue;

impl Times<Timer> for ByDue {
    ghost computes_by = { λ _ of. of ≡ (λ t. t.due) };

    ghost can_compute = { λ _. ⊤ };

    ghost computes = { λ _ _. ((λ t. t.due), refl) };

    fn time(&self, timer: &Timer) -> u64 {
        timer.due
    }
}

/// A timer that fired, as C sees it.
#[repr(C)]
#[derive(Clone, Copy, Drop)]
pub struct Fired {
    /// The deadline with which it was started.
    pub deadline: u64,
    /// What it was started with.
    pub payload: u64,
}

/// Ends the ticket of a timer that came out, frees its node, and returns what C sees of it.
pub(crate) fn into_fired(timer: Running, tickets: &mut Tickets) -> Fired
    ensures fired { result ≡ fired_of timer }
    ensures ended { IsEnded timer.id timer.value.slot tickets.old tickets.new }
{
    tickets.end(timer.id(), timer.get().slot);
    let Timer {
        due: _,
        deadline,
        payload,
        slot: _,
    } = timer.into_value();
    Fired { deadline, payload }
}

/// Timers that run, and a clock. The clock is the latest of the times at which timers came out when due and of those
/// at which none was due. Each timer has a ticket, by which it is stopped or started again, and which is not valid once
/// the timer has come out.
///
/// A contract sees the timers, the first to fire first and equals as they were started, the clock, and how many tickets
/// were given.
#[derive(Drop)]
pub struct Timers {
    pub(crate) queue: ClockQueue<Timer, ByDue>,
    pub(crate) tickets: Tickets,
}

impl Model for Timers {
    ghost use Rattle.cordyceps_c_base.specs.Tickets.{Fit};
    ghost use Rattle.cordyceps_c_timers.specs.Arranged.{arranged};
    ghost use Rattle.cordyceps_c_timers.specs.Timers.{Running, due_of, slot_of};

    ghost Value = { Running };

    ghost view = { λ t. record {
      nodes = arranged due_of t.queue.nodes;
      clock = t.queue.clock;
      collection = t.tickets.collection;
      given = t.tickets.given;
    } };

    ghost invariant = { λ t. Fit slot_of t.tickets t.queue.nodes };
}

impl Timers {
    /// Creates timers of which none runs, at the time 0. Their tickets have the number of the collection. Allocates
    /// nothing.
    ///
    /// # Complexity
    /// O(1).
    pub fn new(alloc: Global, collection: u32) -> Timers
        ensures { result ≡ record { nodes = []; clock = 0; collection = collection; given = 0 } }
    {
        Timers {
            queue: ClockQueue::new_with_times(ByDue),
            tickets: Tickets::new(alloc, collection),
        }
    }

    /// Starts a timer and returns its ticket. It fires after all that do not fire later. Returns `None` if memory is
    /// refused, `usize::MAX` timers run, or no ticket is left, and the timers are unchanged. Allocates one node, and at
    /// times a larger table of tickets.
    ///
    /// # Complexity
    /// O(1) amortized.
    pub fn start(&mut self, alloc: Global, deadline: u64, payload: u64) -> Option<Ticket>
        ensures { Starts deadline payload result self.old self.new }
    {
        if self.queue.len() == usize::MAX {
            return None;
        }
        let ticket = self.tickets.reserve()?;
        let timer = Timer {
            due: deadline.max(self.queue.now()),
            deadline,
            payload,
            slot: ticket.slot,
        };
        let Ok(timer) = Node::new(alloc, ticket.number, timer) else {
            return None;
        };
        let spot = self.queue.push(timer);
        self.tickets.give(ticket, spot);
        Some(ticket)
    }

    /// Removes the timer that has the ticket, frees its node and returns it. Returns `None` if no timer has it, and the
    /// timers are unchanged.
    ///
    /// # Complexity
    /// O(1).
    pub fn stop(&mut self, ticket: Ticket) -> Option<Fired>
        ensures { Stops ticket result self.old self.new }
    {
        let spot = self.tickets.find(ticket)?;
        self.queue.spots_are_distinct();
        let timer = self.queue.remove(spot);
        Some(into_fired(timer, &mut self.tickets))
    }

    /// Gives another deadline to the timer that has the ticket, as if it were started now, and returns `true`. The
    /// ticket stays valid. Returns `false` if no timer has it, and the timers are unchanged.
    ///
    /// # Complexity
    /// O(1).
    pub fn restart(&mut self, ticket: Ticket, deadline: u64) -> bool
        ensures { Restarts ticket deadline result self.old self.new }
    {
        let Some(spot) = self.tickets.find(ticket) else {
            return false;
        };
        let due = deadline.max(self.queue.now());
        self.queue.spots_are_distinct();
        self.queue.update(
            spot,
            move |timer: &mut Timer| -> ()
                ensures due { timer.new.due ≡ due }
                ensures deadline { timer.new.deadline ≡ deadline }
                ensures payload { timer.new.payload ≡ timer.old.payload }
                ensures slot { timer.new.slot ≡ timer.old.slot }
            {
                timer.due = due;
                timer.deadline = deadline;
            },
        );
        true
    }

    /// Removes the first timer, frees its node and returns it, if it fires at the time `now` or before. Its time
    /// becomes the clock. Returns `None` if none fires by then. All stay then, and the clock becomes `now`, if that is
    /// later.
    ///
    /// # Complexity
    /// O(1) amortized, also where none is due: each timer is moved at most 64 times before it comes out.
    pub fn pop_due(&mut self, now: u64) -> Option<Fired>
        ensures { MatchOption result (NoneFires now self.old self.new) (λ fired. Fires now fired self.old self.new) }
    {
        self.queue.spots_are_distinct();
        let timer = self.queue.pop_due(now)?;
        Some(into_fired(timer, &mut self.tickets))
    }

    /// Returns a time before which no timer fires, or `None` if none runs. It is the time of the first timer without
    /// the bits below the highest in which that differs from the clock. So it is the clock only if a timer fires then.
    ///
    /// Whoever sleeps until then and calls `pop_due` wakes at most 64 times before the first timer fires.
    ///
    /// # Complexity
    /// O(1).
    pub fn not_before(&self) -> Option<u64>
        ensures { Bounds result self.now }
    {
        self.queue.not_before()
    }

    /// Returns how many timers run.
    ///
    /// # Complexity
    /// O(1).
    pub fn len(&self) -> usize
        ensures { result ≡ length self.now.nodes }
    {
        self.queue.len()
    }
}
