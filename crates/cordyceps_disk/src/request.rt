//! Disk requests, and the two orders in which they wait.
ghost use Rattle.std.specs.Prelude.{◌≡◌, refl};
ghost use Rattle.std.proofs.Common.{subst, sym};
ghost use Rattle.cordyceps.specs.Orders.Preorder.{IsPreorder};
ghost use Rattle.cordyceps_disk.specs.Orders.{by_deadline, by_deadline_lawful, by_sector, by_sector_lawful};

use cordyceps::list::Links;
use cordyceps::sorted_list::Order;
use cordyceps::{Linked, Node, Spot};
use std::cmp::Ordering;

/// A request to a disk: what it is to do at a sector. After the deadline, a number of the caller's clock, the request
/// is overdue.
#[derive(Drop, Debug)]
pub struct Request<P> {
    pub sector: u64,
    pub deadline: u64,
    pub payload: P,
}

/// A waiting request, and the spot of its ticket.
#[derive(Drop)]
pub(crate) struct Waiting<P> {
    pub request: Request<P>,
    pub ticket: Spot,
}

/// The place of a request in the order by deadline, and the spot of the request, once it has one.
#[derive(Drop)]
pub(crate) struct Ticket {
    pub deadline: u64,
    pub request: Option<Spot>,
}

impl<P: Drop> Linked<Links<Waiting<P>>> for Waiting<P> {
    type Handle = Node<Waiting<P>, Links<Waiting<P>>>;

    ghost element = { λ h. h };

    fn into_ptr(
        handle: Node<Waiting<P>, Links<Waiting<P>>>,
    ) -> Node<Waiting<P>, Links<Waiting<P>>> {
        handle
    }

    fn from_ptr(node: Node<Waiting<P>, Links<Waiting<P>>>) -> Node<Waiting<P>, Links<Waiting<P>>>
        ensures { result ≡ node }
    {
        node
    }
}

impl Linked<Links<Ticket>> for Ticket {
    type Handle = Node<Ticket, Links<Ticket>>;

    ghost element = { λ h. h };

    fn into_ptr(handle: Node<Ticket, Links<Ticket>>) -> Node<Ticket, Links<Ticket>> {
        handle
    }

    fn from_ptr(node: Node<Ticket, Links<Ticket>>) -> Node<Ticket, Links<Ticket>>
        ensures { result ≡ node }
    {
        node
    }
}

/// The order of requests by sector.
#[derive(Clone, Copy)]
pub(crate) struct BySector;

impl<P> Order<Waiting<P>> for BySector {
    ghost compares_by = { λ _ cmp. cmp ≡ by_sector };

    ghost computes = { λ _ _. (by_sector, refl) };

    ghost lawful = { λ _ cmp e. subst IsPreorder (sym e) by_sector_lawful };

    fn compare(&self, first: &Waiting<P>, second: &Waiting<P>) -> Ordering {
        first.request.sector.cmp(&second.request.sector)
    }
}

/// The order of tickets by deadline.
#[derive(Clone, Copy)]
pub(crate) struct ByDeadline;

impl Order<Ticket> for ByDeadline {
    ghost compares_by = { λ _ cmp. cmp ≡ by_deadline };

    ghost computes = { λ _ _. (by_deadline, refl) };

    ghost lawful = { λ _ cmp e. subst IsPreorder (sym e) by_deadline_lawful };

    fn compare(&self, first: &Ticket, second: &Ticket) -> Ordering {
        first.deadline.cmp(&second.deadline)
    }
}
