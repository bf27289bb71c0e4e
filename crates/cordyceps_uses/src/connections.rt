//! A table of a server's open connections. Each can be closed in O(1) by its spot. If the table is full, a new
//! connection evicts the one that was idle longest.
//!
//! The table is a list that is sorted by the time of last activity, so nothing is searched for. The connection to evict
//! is the first one, and a connection that is renewed mostly becomes the last, after one comparison.
ghost use Rattle.std.specs.Prelude.{◌≡◌, ◌<◌, [], length, MatchOption};
ghost use Rattle.cordyceps.specs.Elements.Nodes.{spots};
ghost use Rattle.cordyceps.specs.Spots.BySpot.{HasSpot, IsFirst, IsTaken};
ghost use Rattle.cordyceps.specs.Spots.Spots.{AreDistinct};
ghost use Rattle.cordyceps_uses.specs.Connections.{AllActiveSince, Evicts, Renews, TakesIdlest};

use cordyceps::list::Links;
use cordyceps::sorted_list::Least;
use cordyceps::{Kind, Linked, Node, Spot, StableSortedList};
use std::marker::Model;

/// A connection to a peer. Connections are compared only by the time of their last activity.
#[derive(Clone, Copy, Drop)]
#[derive_where(PartialEq, Eq, PartialOrd, Ord)]
pub struct Connection<P> {
    /// The time of the last activity, in ticks of any clock.
    pub last_active: u64,
    /// What is kept of the peer, as its number or its socket.
    #[derive_where(skip)]
    pub peer: P,
}

impl<P: Drop, L: Kind> Linked<L> for Connection<P> {
    type Handle = Node<Connection<P>, L>;

    ghost element = { λ node. node };

    fn into_ptr(node: Node<Connection<P>, L>) -> Node<Connection<P>, L> {
        node
    }

    fn from_ptr(node: Node<Connection<P>, L>) -> Node<Connection<P>, L>
        ensures { result ≡ node }
    {
        node
    }
}

/// A connection in a node. The number of the node is that of the connection.
pub type ConnectionNode<P> = Node<Connection<P>, Links<Connection<P>>>;

/// A table of open connections, up to a capacity. A contract sees each connection with its spot, the one that was idle
/// longest first, and the capacity.
///
/// # Complexity
/// Dropping the table frees the node of each connection: O(n), for n connections.
#[derive(Drop)]
pub struct Connections<P: Drop> {
    list: StableSortedList<Connection<P>, Least>,
    capacity: usize,
}

impl<P: Drop> Model for Connections<P> {
    ghost use Rattle.cordyceps_uses.specs.Connections.{IsKept, OpenConnections};

    ghost Value = { OpenConnections P };

    ghost view = { λ t. record { nodes = t.list.nodes; capacity = t.capacity } };

    ghost invariant = { λ t. IsKept t.list.nodes t.capacity };
}

/// The result of `Connections::open`.
#[derive(Drop)]
pub struct Opened<P: Drop> {
    /// The spot of the new connection.
    pub spot: Spot,
    /// The connection that was closed to make room, or `None` if the table was not full.
    pub evicted: Option<ConnectionNode<P>>,
}

impl<P: Drop> Connections<P> {
    /// Creates a table without connections. Requires a capacity of at least 1. Allocates nothing.
    ///
    /// # Complexity
    /// O(1).
    pub fn new(capacity: usize) -> Connections<P>
        requires { 0 < capacity }
        ensures nodes { result.nodes ≡ [] }
        ensures capacity { result.capacity ≡ capacity }
    {
        Connections {
            list: StableSortedList::new_min(),
            capacity,
        }
    }

    /// Returns the number of open connections.
    ///
    /// # Complexity
    /// O(1).
    pub fn len(&self) -> usize
        ensures { result ≡ length self.now.nodes }
    {
        self.list.len()
    }

    /// Returns the spot of the connection that was idle longest, or `None` if none is open.
    ///
    /// # Complexity
    /// O(1).
    pub fn idlest(&self) -> Option<Spot>
        ensures { MatchOption result (self.now.nodes ≡ []) (λ spot. IsFirst self.now.nodes spot) }
    {
        self.list.front()
    }

    /// Opens a connection and returns its spot. If the table is full, it first closes the connection that was idle
    /// longest, and returns that too. Allocates nothing.
    ///
    /// # Complexity
    /// O(k + 1), where k is the number of connections that were active later, and O(1) if all others were.
    pub fn open(&mut self, node: ConnectionNode<P>) -> Opened<P>
        ensures opened { Evicts self.old self.new result.evicted result.spot node }
        ensures distinct { AreDistinct (spots self.new.nodes) }
    {
        let evicted = self.make_room();
        let spot = self.list.insert(node);
        Opened { spot, evicted }
    }

    /// Closes the connection that was idle longest and returns it, or returns `None` if the table is not full.
    fn make_room(&mut self) -> Option<ConnectionNode<P>>
        ensures evicted { MatchOption result
            ((self.new.nodes ≡ self.old.nodes) × (length self.old.nodes < self.old.capacity))
            (λ out. TakesIdlest self.old.nodes out self.new.nodes × (length self.old.nodes ≡ self.old.capacity)) }
        ensures room { length self.new.nodes < self.new.capacity }
        ensures capacity { self.new.capacity ≡ self.old.capacity }
    {
        if self.list.len() < self.capacity {
            return None;
        }
        self.list.pop_front()
    }

    /// Sets the time of last activity of the connection at `spot` to `now`. The connection keeps its number, its peer
    /// and its spot. Requires that `spot` is valid.
    ///
    /// # Complexity
    /// O(k + 1), where k is the number of connections that were active later than `now`, and O(1) if all others were.
    pub fn renew(&mut self, spot: Spot, now: u64)
        requires { HasSpot self.old.nodes spot }
        ensures renewed { Renews self.old.nodes spot now self.new.nodes }
        ensures capacity { self.new.capacity ≡ self.old.capacity }
        ensures distinct { AreDistinct (spots self.new.nodes) }
    {
        self.list.update(
            spot,
            move |connection: &mut Connection<P>| -> ()
                ensures last_active { connection.new.last_active ≡ now }
                ensures peer { connection.new.peer ≡ connection.old.peer }
            {
                connection.last_active = now;
            },
        );
    }

    /// Closes the connection at `spot` and returns it. All others stay open. Requires that `spot` is valid.
    ///
    /// # Complexity
    /// O(1).
    pub fn close(&mut self, spot: Spot) -> ConnectionNode<P>
        requires { HasSpot self.old.nodes spot }
        ensures closed { IsTaken self.old.nodes spot result self.new.nodes }
        ensures capacity { self.new.capacity ≡ self.old.capacity }
        ensures distinct { AreDistinct (spots self.new.nodes) }
    {
        self.list.remove(spot)
    }

    /// Closes the connection that was idle longest and returns it, if its last activity was before `since`. Otherwise
    /// it returns `None`, the table is unchanged, and all connections were active at `since` or later.
    ///
    /// # Complexity
    /// O(1).
    pub fn expire(&mut self, since: u64) -> Option<ConnectionNode<P>>
        ensures expired { MatchOption result
            ((self.new ≡ self.old) × AllActiveSince since self.old.nodes)
            (λ out. TakesIdlest self.old.nodes out self.new.nodes × (out.value.last_active < since)) }
        ensures capacity { self.new.capacity ≡ self.old.capacity }
        ensures distinct { AreDistinct (spots self.new.nodes) }
    {
        let first = self.list.iter().next()?;
        if first.last_active >= since {
            return None;
        }
        self.list.pop_front()
    }
}
