//! Requests that wait for a disk, in the order in which an elevator meets them, and by deadline where one has passed.
ghost use Rattle.std.specs.Prelude.{◌≡◌, ◌==◌, [], length, IfOk, IfErr, OnErr, IfSome, MatchOption};
ghost use denote.RawPtr.{Ptr};
ghost use Rattle.cordyceps.specs.Elements.Nodes.{spots};
ghost use Rattle.cordyceps.specs.Spots.BySpot.{HasSpot, HoldsAt, IsTaken};
ghost use Rattle.cordyceps.specs.Spots.Spots.{AreDistinct};
ghost use Rattle.cordyceps_disk.specs.Queue.{HasLeft, IsNext, element, submitted};

use crate::placing::{Requests, Tickets, first_above, leads, left_ahead, link, unlink};
use crate::request::{ByDeadline, BySector, Request};
use cordyceps::{Refused, Spot, StableHeap, StableSortedList};
use std::alloc::Global;
use std::marker::Model;

/// A queue of disk requests. A contract sees the waiting requests by sector, each with its spot, their deadlines and
/// spots by deadline, equals in both as they came, and the sector where the head is.
///
/// Each request stays at its spot until it is served or cancelled. Two requests may have the same sector or deadline.
/// Deadlines and times are numbers of the caller's clock, in any unit. At most `usize::MAX` requests wait.
///
/// # Complexity
/// Dropping the queue frees the nodes of the waiting requests: O(n), for n requests.
#[derive(Drop)]
pub struct DiskQueue<P> {
    requests: Requests<P>,
    tickets: Tickets,
    ahead: Option<Spot>,
    head: u64,
}

impl<P> Model for DiskQueue<P> {
    ghost use Rattle.std.specs.Prelude.{◌≡◌};
    ghost use Rattle.cordyceps_disk.specs.Queue.{Queue};
    ghost use Rattle.cordyceps_disk.specs.Pairs.{Kept, ahead_of, seen, tickets_in};

    ghost Value = { Queue P };

    ghost view = { λ q. seen q.requests.nodes (tickets_in q.tickets.lines) q.head };

    ghost invariant = { λ q. Kept q.requests.nodes q.tickets.lines × (q.ahead ≡ ahead_of q.head q.requests.nodes) };
}

impl<P: Drop> DiskQueue<P> {
    /// Creates a queue without requests, with the head at the sector 0. Allocates nothing.
    ///
    /// # Complexity
    /// O(1).
    pub fn new() -> DiskQueue<P>
        ensures { result ≡ record { waiting = []; due = []; head = 0 } }
    {
        DiskQueue {
            requests: StableSortedList::new_with_order(BySector),
            tickets: StableHeap::new_with_order(ByDeadline),
            ahead: None,
            head: 0,
        }
    }

    /// Returns the number of waiting requests.
    ///
    /// # Complexity
    /// O(1).
    pub fn len(&self) -> usize
        ensures { result ≡ length self.now.waiting }
    {
        self.requests.len()
    }

    /// Returns `true` if no request waits.
    ///
    /// # Complexity
    /// O(1).
    pub fn is_empty(&self) -> bool
        ensures { result ≡ (length self.now.waiting == 0) }
    {
        self.len() == 0
    }

    /// Inserts a request and returns its spot. In both orders it comes after its equals. Allocates two nodes.
    ///
    /// # Errors
    /// If memory is refused, or `usize::MAX` requests wait, the request is returned, and the queue is unchanged.
    ///
    /// # Complexity
    /// O(k), for k requests at higher sectors: it compares with each of them. The deadline is inserted in O(1), without
    /// a comparison. It is sorted when `next` or `peek` looks for the earliest one, in O(log n) amortized, for n
    /// requests that were submitted.
    pub fn submit(
        &mut self,
        alloc: Global,
        request: Request<P>,
    ) -> Result<Spot, Refused<Request<P>>>
        ensures submitted { IfOk result (λ spot. self.new ≡ submitted spot request self.old) }
        ensures others { IfOk result (λ spot. IsTaken self.new.waiting spot (element request) self.old.waiting) }
        ensures there { IfOk result (λ spot. HasSpot self.new.waiting spot) }
        ensures distinct { AreDistinct (spots self.new.waiting) }
        ensures kept { OnErr result (self.new ≡ self.old) }
        ensures returned { IfErr result (λ e. e.value ≡ request) }
    {
        if self.requests.len() == usize::MAX {
            return Err(Refused { value: request });
        }
        let is_next = leads(&self.requests, self.ahead, self.head, request.sector);
        let at = link(&mut self.requests, &mut self.tickets, alloc, request)?;
        if is_next {
            self.ahead = Some(at);
        }
        Ok(at)
    }

    /// Removes the request at `at` and returns it. The head stays where it is. Requires that `at` is valid.
    ///
    /// # Complexity
    /// O(1).
    pub fn cancel(&mut self, at: Spot) -> Request<P>
        requires { HasSpot self.old.waiting at }
        ensures left { HasLeft at result self.old self.new }
        ensures head { self.new.head ≡ self.old.head }
        ensures distinct { AreDistinct (spots self.new.waiting) }
    {
        self.ahead = left_ahead(&self.requests, self.ahead, self.head, at);
        unlink(&mut self.requests, &mut self.tickets, at)
    }

    /// Removes the request that the disk is to serve at the time `now`, moves the head to its sector, and returns it.
    /// Returns `None` if no request waits.
    ///
    /// If a deadline is before `now`, it is the request with the earliest one. Otherwise it is the first at or above
    /// the head, or, if there is none, the one at the lowest sector. Of equals it is the one that came first.
    ///
    /// # Complexity
    /// That of `peek`. For an overdue request also O(k), for k requests at the same sector that came before it.
    pub fn next(&mut self, now: u64) -> Option<Request<P>>
        ensures served { MatchOption result ((self.old.waiting ≡ []) × (self.new ≡ self.old))
            (λ r. (p : Ptr) × IsNext now p r self.old × HasLeft p r self.old self.new × (self.new.head ≡ r.sector)) }
        ensures distinct { AreDistinct (spots self.new.waiting) }
    {
        let at = self.peek(now)?;
        self.ahead = first_above(&self.requests, at);
        let request = unlink(&mut self.requests, &mut self.tickets, at);
        self.head = request.sector;
        Some(request)
    }

    /// Returns the spot of the request that `next` would return, or `None` if no request waits. The queue stays the
    /// same. Takes `&mut self` since it sorts the deadlines that were inserted since the last look, which no contract
    /// sees.
    ///
    /// # Complexity
    /// O(log n), for n requests that were submitted: at most 64 comparisons. To sort a deadline that was inserted since
    /// the last look takes O(log n), amortized; at worst all k of them take O(n + k log k).
    pub fn peek(&mut self, now: u64) -> Option<Spot>
        ensures next { MatchOption result (self.old.waiting ≡ []) (λ p. (r : Request P) × IsNext now p r self.old) }
        ensures there { IfSome result (λ p. HasSpot self.old.waiting p) }
        ensures same { self.new ≡ self.old }
    {
        let earliest = self.tickets.front()?;
        let first = self.tickets.get(earliest);
        if first.deadline < now {
            return first.request;
        }
        match self.ahead {
            Some(at) => Some(at),
            None => self.requests.front(),
        }
    }

    /// Returns a reference to the request at `at`. Requires that `at` is valid.
    ///
    /// # Complexity
    /// O(1).
    pub fn get(&self, at: Spot) -> &Request<P>
        requires { HasSpot self.now.waiting at }
        ensures { HoldsAt self.now.waiting at result.now }
    {
        &self.requests.get(at).request
    }
}
