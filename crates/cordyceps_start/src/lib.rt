//! The smallest crate to copy: an element type, a function with a contract, and a test.
#![tactic(auto)]

ghost use Rattle.std.specs.Prelude.{◌≡◌, ◌<◌, ◌≤◌, ◌∷◌, map, slice_get, IfSome, MatchOption};

use cordyceps_base::linked::Linked;
use cordyceps_base::list::Links;
use cordyceps_base::node::{Kind, Node};
use cordyceps_list::list::List;

/// A request to read a sector, from a time on.
#[derive(Clone, Copy, Debug, PartialEq, Eq)]
pub struct Request {
    /// The time from which the sector may be read.
    pub due: u64,
    /// The sector to read.
    pub sector: u64,
}

/// A request that can be put into a list.
pub type ListRequest = Node<Request, Links<Request>>;

/// A request can be put into each collection: its handle is a node of any kind.
impl<L: Kind> Linked<L> for Request {
    type Handle = Node<Request, L>;

    ghost element = { λ node. node };

    fn into_ptr(node: Node<Request, L>) -> Node<Request, L> {
        node
    }

    fn from_ptr(node: Node<Request, L>) -> Node<Request, L>
        ensures { result ≡ node }
    {
        node
    }
}

/// Removes the first request and returns it, if it is due. Otherwise, or if there is no request, it returns `None`, and
/// the list is unchanged.
///
/// # Complexity
/// O(1).
pub fn take_due(requests: &mut List<Request>, now: u64) -> Option<ListRequest>
    ensures { MatchOption result
        ((requests.new ≡ requests.old)
        × IfSome (slice_get (map (λ r. r.value) requests.old) 0) (λ first. now < first.due))
        (λ taken. (requests.old ≡ taken ∷ requests.new) × (taken.value.due ≤ now)) }
{
    if requests.front()?.due > now {
        return None;
    }
    requests.pop_front()
}

#[cfg(test)]
mod tests {
    use super::{Request, take_due};
    use cordyceps_base::node::{Node, Refused};
    use cordyceps_list::list::List;

    #[test]
    fn takes_what_is_due(rt: HostRuntime) -> Result<(), Refused<Request>> {
        let alloc = rt.alloc();
        let mut requests: List<Request> = List::new();
        requests.push_back(Node::new(alloc, 1, Request { due: 10, sector: 7 })?);
        requests.push_back(Node::new(alloc, 2, Request { due: 20, sector: 3 })?);
        let early = take_due(&mut requests, 9).is_some();
        let due = take_due(&mut requests, 10).is_some();
        let next = take_due(&mut requests, 10).is_some();
        assert_eq!(rt; (early, due, next, requests.len()), (false, true, false, 1));
        Ok(())
    }
}
