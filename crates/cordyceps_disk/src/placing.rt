//! Where the elevator goes on, and how a request and its ticket are inserted and removed together.
ghost use Rattle.std.specs.Prelude.{◌≡◌, ◌<◌, length, if◌then◌else◌, Some, IfErr, IfOk, OnErr};
ghost use denote.RawPtr.{Ptr};
ghost use Rattle.cordyceps.specs.Elements.Element.{Element};
ghost use Rattle.cordyceps.specs.Elements.Nodes.{Nodes};
ghost use Rattle.cordyceps.specs.Spots.BySpot.{HasSpot, IsTaken};
ghost use Rattle.cordyceps_disk.specs.Pairs.{Kept, Rises, ahead_of, sector_of, due_of, tickets_in};
ghost use Rattle.cordyceps_disk.specs.Queue.{IsOut, put_by};

use crate::request::{ByDeadline, BySector, Request, Ticket, Waiting};
use cordyceps::{Node, Refused, Spot, StableHeap, StableSortedList};
use std::alloc::Global;

/// The requests that wait, by sector.
pub(crate) type Requests<P> = StableSortedList<Waiting<P>, BySector>;

/// The tickets of these requests, the earliest deadline first.
pub(crate) type Tickets = StableHeap<Ticket, ByDeadline>;

/// Returns `true` if a request that is inserted now at `sector` is the first one at or above the head.
///
/// # Complexity
/// O(1).
pub(crate) fn leads<P: Drop>(
    requests: &Requests<P>,
    ahead: Option<Spot>,
    head: u64,
    sector: u64,
) -> bool
    requires ahead { ahead ≡ ahead_of head requests.now.nodes }
    ensures { (n : Ptr × Element (Waiting P))
        → sector_of n ≡ sector
        → ahead_of head (put_by sector_of n requests.now.nodes) ≡ (if result then Some n.0 else ahead) }
{
    requests.spots_are_distinct();
    if sector < head {
        return false;
    }
    match ahead {
        Some(first) => sector < requests.get(first).request.sector,
        None => true,
    }
}

/// Returns the spot of the first request at or above the head, once the request at `at` is removed. `None` if there is
/// no such request.
///
/// # Complexity
/// O(1).
pub(crate) fn left_ahead<P: Drop>(
    requests: &Requests<P>,
    ahead: Option<Spot>,
    head: u64,
    at: Spot,
) -> Option<Spot>
    requires there { HasSpot requests.now.nodes at }
    requires order { Rises sector_of requests.now.nodes }
    requires ahead { ahead ≡ ahead_of head requests.now.nodes }
    ensures { (e : Element (Waiting P)) (rest : Nodes (Waiting P))
        → IsTaken requests.now.nodes at e rest
        → result ≡ ahead_of head rest }
{
    requests.spots_are_distinct();
    if requests.get(at).request.sector < head {
        return ahead;
    }
    if let Some(before) = requests.prev(at) {
        if requests.get(before).request.sector >= head {
            return ahead;
        }
    }
    requests.next(at)
}

/// Returns the spot of the first request at or above the sector of the request at `at`, once that is removed. `None` if
/// there is no such request.
///
/// # Complexity
/// O(k), for k requests at the same sector that came before.
pub(crate) fn first_above<P: Drop>(requests: &Requests<P>, at: Spot) -> Option<Spot>
    requires there { HasSpot requests.now.nodes at }
    requires order { Rises sector_of requests.now.nodes }
    ensures { (e : Element (Waiting P)) (rest : Nodes (Waiting P))
        → IsTaken requests.now.nodes at e rest
        → result ≡ ahead_of e.value.request.sector rest }
{
    requests.spots_are_distinct();
    let sector = requests.get(at).request.sector;
    let mut first = requests.next(at);
    let mut place = at;
    while let Some(before) = requests.prev(place) {
        if requests.get(before).request.sector < sector {
            break;
        }
        first = Some(before);
        place = before;
    }
    first
}

/// Inserts a request and its ticket, and returns the spot of the request. Allocates two nodes.
///
/// Each of the two has the spot of the other. So the ticket is inserted first, and the spot of the request is written
/// into it once that is inserted. The heap inserts an updated element after its equals, which is where the ticket is.
///
/// # Errors
/// If memory is refused, the request is returned, and the other requests and tickets stay as they were.
///
/// # Complexity
/// That of inserting into a sorted list: O(k), for k requests at higher sectors.
pub(crate) fn link<P: Drop>(
    requests: &mut Requests<P>,
    tickets: &mut Tickets,
    alloc: Global,
    request: Request<P>,
) -> Result<Spot, Refused<Request<P>>>
    requires kept { Kept requests.old.nodes tickets.old.lines }
    requires fits { length requests.old.nodes < usize.MAX }
    ensures put { IfOk result (λ spot. (e : Element (Waiting P)) × (e.value.request ≡ request)
        × (requests.new.nodes ≡ put_by sector_of (spot, e) requests.old.nodes)) }
    ensures due { IfOk result (λ spot.
        due_of (tickets_in tickets.new.lines)
        ≡ put_by (λ d. d.0) (request.deadline, spot) (due_of (tickets_in tickets.old.lines))) }
    ensures kept { Kept requests.new.nodes tickets.new.lines }
    ensures requests_kept { OnErr result (requests.new.nodes ≡ requests.old.nodes) }
    ensures tickets_kept { OnErr result (tickets_in tickets.new.lines ≡ tickets_in tickets.old.lines) }
    ensures returned { IfErr result (λ e. e.value ≡ request) }
{
    let (sector, deadline) = (request.sector, request.deadline);
    let ticket = Ticket {
        deadline,
        request: None,
    };
    let Ok(ticket) = Node::new(alloc, deadline, ticket) else {
        return Err(Refused { value: request });
    };
    let ticket = tickets.push(ticket);
    match Node::new(alloc, sector, Waiting { request, ticket }) {
        Ok(node) => {
            let at = requests.insert(node);
            tickets.update(
                ticket,
                |ticket: &mut Ticket| -> ()
                    ensures deadline { ticket.new.deadline ≡ ticket.old.deadline }
                    ensures request { ticket.new.request ≡ Some at }
                {
                    ticket.request = Some(at);
                },
            );
            Ok(at)
        }
        Err(refused) => {
            tickets.remove(ticket);
            Err(Refused {
                value: refused.value.request,
            })
        }
    }
}

/// Removes the request at `at` and its ticket, and returns the request.
///
/// # Complexity
/// O(1).
pub(crate) fn unlink<P: Drop>(
    requests: &mut Requests<P>,
    tickets: &mut Tickets,
    at: Spot,
) -> Request<P>
    requires there { HasSpot requests.old.nodes at }
    requires kept { Kept requests.old.nodes tickets.old.lines }
    ensures taken { (e : Element (Waiting P)) × (e.value.request ≡ result)
        × IsTaken requests.old.nodes at e requests.new.nodes }
    ensures due { IsOut (due_of (tickets_in tickets.old.lines)) (result.deadline, at)
        (due_of (tickets_in tickets.new.lines)) }
    ensures kept { Kept requests.new.nodes tickets.new.lines }
{
    let Waiting { request, ticket } = requests.remove(at).into_value();
    tickets.remove(ticket);
    request
}
