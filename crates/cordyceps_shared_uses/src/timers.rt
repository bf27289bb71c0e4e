//! Timers that fire by their deadlines, each of which can be cancelled before it is due.
ghost use Rattle.std.specs.Prelude.{
  ◌≡◌,
  ◌≤◌,
  ◌<◌,
  ◌⊎◌,
  ℕ,
  max,
  [],
  ◌∷◌,
  length,
  IfErr,
  IfOk,
  IfSome,
  IsOk,
  MatchOption,
  OnErr,
  OnOk,
  Some,
  refl,
  ⊤,
};
ghost use Rattle.std.specs.List.{AllByRecursion};
ghost use denote.RawPtr.{Ptr};
ghost use Rattle.cordyceps.specs.Elements.Nodes.{spots};
ghost use Rattle.cordyceps.specs.Spots.BySpot.{HasSpot, IsTaken};
ghost use Rattle.cordyceps.specs.Spots.Spots.{AreDistinct};
ghost use Rattle.cordyceps_shared_uses.specs.Timers.{started, new_timer, due, first_rounded, first_time, time_of, InOrder};

use cordyceps::clock_queue::Times;
use cordyceps::list::Links;
use cordyceps::{ClockQueue, Kind, Linked, Node, Refused, Spot};
use std::alloc::Global;
use std::marker::Model;

/// A deadline, in the ticks of the caller's clock, and what is to be done then.
#[derive(Drop)]
pub struct Timer<P> {
    pub deadline: u64,
    pub payload: P,
}

/// Timers go into collections of any kind.
impl<L: Kind, P: Drop> Linked<L> for Timer<P> {
    type Handle = Node<Timer<P>, L>;

    ghost element = { λ h. h };

    fn into_ptr(handle: Node<Timer<P>, L>) -> Node<Timer<P>, L> {
        handle
    }

    fn from_ptr(node: Node<Timer<P>, L>) -> Node<Timer<P>, L>
        ensures { result ≡ node }
    {
        node
    }
}

/// A timer that does not run, in a node that `Timers::restart` starts again.
pub type Stopped<P> = Node<Timer<P>, Links<Timer<P>>>;

/// The times of timers: their deadlines, or the clock where that is later.
#[derive(Drop)]
struct NotBefore {
    clock: u64,
}

impl<P> Times<Timer<P>> for NotBefore {
    ghost computes_by = { λ own of. of ≡ (λ t. max t.deadline own.clock) };

    ghost can_compute = { λ _. ⊤ };

    ghost computes = { λ own _. ((λ t. max t.deadline own.clock), refl) };

    fn time(&self, timer: &Timer<P>) -> u64 {
        timer.deadline.max(self.clock)
    }
}

/// Timers that run, and a clock. A timer fires at its deadline, or at the clock if its deadline has passed. The clock
/// is the latest of the times at which timers came out when due and of those at which none was due. At most
/// `usize::MAX` timers run.
///
/// A timer comes out as it was started, also where its deadline had passed. A contract sees each timer with its spot,
/// the first to fire first and equals as they were started, and the clock.
#[derive(Drop)]
pub struct Timers<P> {
    queue: ClockQueue<Timer<P>, NotBefore>,
}

impl<P> Model for Timers<P> {
    ghost use Rattle.cordyceps_shared_uses.specs.Timers.{AreKept, Running, arranged};

    ghost Value = { Running P };

    ghost view = { λ t. record { nodes = arranged t.queue.clock t.queue.nodes; clock = t.queue.clock } };

    ghost invariant = { λ t. AreKept t.queue.nodes t.queue.clock t.queue.time.clock };
}

impl<P: Drop> Timers<P> {
    /// Creates timers of which none runs, at the time 0. Allocates nothing.
    ///
    /// # Complexity
    /// O(1).
    pub fn new() -> Timers<P>
        ensures { result ≡ record { nodes = []; clock = 0 } }
    {
        Timers {
            queue: ClockQueue::new_with_times(NotBefore { clock: 0 }),
        }
    }

    /// Returns the clock. A timer that is started with an earlier deadline fires at once.
    ///
    /// # Complexity
    /// O(1).
    pub fn now(&self) -> u64
        ensures { result ≡ self.now.clock }
    {
        self.queue.now()
    }

    /// Starts a timer and returns its spot. It fires after all that do not fire later: at its deadline, or at the clock
    /// if the deadline has passed. Allocates one node, whose number is the deadline.
    ///
    /// # Errors
    /// If memory is refused, or `usize::MAX` timers run, the payload is returned, and the timers are unchanged.
    ///
    /// # Complexity
    /// O(1).
    pub fn start(&mut self, alloc: Global, deadline: u64, payload: P) -> Result<Spot, Refused<P>>
        ensures started { IfOk result (λ spot.
            self.new.nodes ≡ started self.old.clock spot (new_timer deadline payload) self.old.nodes) }
        ensures clock { self.new.clock ≡ self.old.clock }
        ensures kept { OnErr result (self.new ≡ self.old) }
        ensures returned { IfErr result (λ e. e.value ≡ payload) }
        ensures distinct { OnOk result (AreDistinct (spots self.new.nodes)) }
    {
        let node = match Node::new(alloc, deadline, Timer { deadline, payload }) {
            Ok(node) => node,
            Err(refused) => {
                return Err(Refused {
                    value: refused.value.payload,
                });
            }
        };
        match self.restart(node) {
            Ok(spot) => Ok(spot),
            Err(node) => Err(Refused {
                value: node.into_value().payload,
            }),
        }
    }

    /// Starts a timer in the node that it has and returns its spot. It fires after all that do not fire later: at its
    /// deadline, or at the clock if the deadline has passed. Allocates nothing.
    ///
    /// # Errors
    /// If `usize::MAX` timers run, the timer is returned, and those that run are unchanged.
    ///
    /// # Complexity
    /// O(1).
    pub fn restart(&mut self, timer: Stopped<P>) -> Result<Spot, Stopped<P>>
        ensures started { IfOk result (λ spot.
            self.new.nodes ≡ started self.old.clock spot timer self.old.nodes) }
        ensures succeeds { length self.old.nodes < usize.MAX → IsOk result }
        ensures clock { self.new.clock ≡ self.old.clock }
        ensures kept { OnErr result (self.new ≡ self.old) }
        ensures returned { IfErr result (λ back. back ≡ timer) }
        ensures distinct { OnOk result (AreDistinct (spots self.new.nodes)) }
    {
        if self.queue.len() == usize::MAX {
            return Err(timer);
        }
        Ok(self.queue.push(timer))
    }

    /// Removes the timer at `spot` in its node and returns it. The clock stays the same. Requires that `spot` is valid.
    ///
    /// # Complexity
    /// O(1).
    pub fn cancel(&mut self, spot: Spot) -> Stopped<P>
        requires { HasSpot self.old.nodes spot }
        ensures taken { IsTaken self.old.nodes spot result self.new.nodes }
        ensures clock { self.new.clock ≡ self.old.clock }
        ensures distinct { AreDistinct (spots self.new.nodes) }
    {
        self.queue.remove(spot)
    }

    /// Returns the time at which the next timer fires, or `None` if no timer runs. This is the earliest deadline, or
    /// the clock if that deadline has passed.
    ///
    /// # Complexity
    /// O(k), for k timers whose times differ from the clock in no higher bit than the earliest one does; at worst these
    /// are all timers.
    pub fn first_deadline(&self) -> Option<u64>
        ensures { result ≡ first_time self.now.clock self.now.nodes }
    {
        let first = self.queue.get(self.queue.front()?);
        Some(first.deadline.max(self.queue.now()))
    }

    /// Returns a time before which no timer fires, or `None` if no timer runs. It is what `first_deadline` returns,
    /// without the bits below the highest in which that differs from the clock. So it is the clock only if a timer fires
    /// then.
    ///
    /// Whoever sleeps until then and calls `stop_due` wakes at most 64 times before the first timer fires.
    ///
    /// # Complexity
    /// O(1).
    pub fn not_before(&self) -> Option<u64>
        ensures near { result ≡ first_rounded self.now.clock self.now.nodes }
        ensures none_before { IfSome result (λ t.
            AllByRecursion (λ n. t ≤ time_of self.now.clock n.1) self.now.nodes) }
        ensures later { IfSome result (λ t.
            (self.now.clock < t) ⊎ (first_time self.now.clock self.now.nodes ≡ Some t)) }
    {
        self.queue.not_before()
    }

    /// Removes the first timer in its node and returns it, if it fires at the time `now` or before. The clock is then
    /// at its deadline, or stays if that had passed. Returns `None` if no timer is due. All timers stay then, and the
    /// clock is set to `now`, if that is later.
    ///
    /// # Complexity
    /// O(1) amortized, for any number of timers: each is moved at most 64 times before it comes out.
    pub fn stop_due(&mut self, now: u64) -> Option<Stopped<P>>
        ensures stopped { MatchOption result
            ((self.new.nodes ≡ self.old.nodes) × (due self.old.clock now self.old.nodes ≡ []))
            (λ t. (spot : Ptr) × (self.old.nodes ≡ (spot, t) ∷ self.new.nodes)
            × (time_of self.old.clock t ≤ now)) }
        ensures clock { MatchOption result
            (self.new.clock ≡ max self.old.clock now)
            (λ t. self.new.clock ≡ time_of self.old.clock t) }
        ensures order { InOrder self.old.clock self.old.nodes }
        ensures distinct { AreDistinct (spots self.new.nodes) }
    {
        let first = self.queue.pop_due(now);
        let clock = self.queue.now();
        self.queue.set_times(NotBefore { clock });
        first
    }

    /// Removes the first timer in its node and returns it, or `None` if no timer runs. The clock is then at its deadline,
    /// or stays if that had passed or no timer runs.
    ///
    /// # Complexity
    /// That of `stop_due`.
    pub fn stop_first(&mut self) -> Option<Stopped<P>>
        ensures stopped { MatchOption result
            ((self.old.nodes ≡ []) × (self.new ≡ self.old))
            (λ t. (spot : Ptr) × (self.old.nodes ≡ (spot, t) ∷ self.new.nodes)
            × (self.new.clock ≡ time_of self.old.clock t)) }
        ensures order { InOrder self.old.clock self.old.nodes }
        ensures distinct { AreDistinct (spots self.new.nodes) }
    {
        let first = self.queue.pop_front();
        let clock = self.queue.now();
        self.queue.set_times(NotBefore { clock });
        first
    }

    /// Removes the first timer, frees its node and returns it, if it fires at the time `now` or before. The clock is
    /// then at its deadline, or stays if that had passed. Returns `None` if no timer is due. All timers stay then, and
    /// the clock is set to `now`, if that is later.
    ///
    /// # Complexity
    /// That of `stop_due`.
    pub fn pop_due(&mut self, now: u64) -> Option<Timer<P>>
        ensures popped { MatchOption result
            ((self.new.nodes ≡ self.old.nodes) × (due self.old.clock now self.old.nodes ≡ []))
            (λ t. (spot : Ptr) × (id : ℕ) × (self.old.nodes ≡ (spot, record { id = id; value = t }) ∷ self.new.nodes)
            × (max t.deadline self.old.clock ≤ now)) }
        ensures clock { MatchOption result
            (self.new.clock ≡ max self.old.clock now)
            (λ t. self.new.clock ≡ max t.deadline self.old.clock) }
        ensures distinct { AreDistinct (spots self.new.nodes) }
    {
        match self.stop_due(now) {
            Some(node) => Some(node.into_value()),
            None => None,
        }
    }
}
