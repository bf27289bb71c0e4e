//! A server's table of sessions: each is found by its number, and the one that was used longest ago and the one that
//! ends first are found at once.
//!
//! Each session is one node of the caller's. A map finds it by its number, and it is at the same time in two lists, one
//! by the time of last use and one by deadline. A clock that does not run back makes both O(1): a session that was used
//! goes to the back of the one, and to the back of the other if all have the same time to live.
ghost use Rattle.std.specs.Prelude.{◌≡◌, ◌<◌, ◌≤◌, ◌+◌, [], length, nat_eq, true, false, None, IfOk, MatchOption, refl};
ghost use Rattle.std.specs.Map.{lookup};
ghost use Rattle.std.specs.Ordering.{nat_cmp};
ghost use denote.RawPtr.{Ptr};
ghost use Rattle.cordyceps.specs.Orders.ByKey.{by_key};
ghost use Rattle.cordyceps.specs.Orders.Preorder.{by_number_lawful};
ghost use Rattle.cordyceps.specs.Spots.BySpot.{HasSpot};
ghost use Rattle.cordyceps.specs.Spots.MultiList.{list_at};
ghost use Rattle.cordyceps.specs.Spots.StableMap.{pairs, IsRemoved};
ghost use Rattle.cordyceps_uses.specs.Sessions.{NoneBelow, IsOpened, IsTouched, Leaves};

use cordyceps::sorted_list::Order;
use cordyceps::stable_map::{MapNode, Seeded, StableMap, Three};
use std::alloc::{AllocError, Global};
use std::cmp::Ordering;
use std::marker::Model;

/// The list by the time of last use, and that by deadline.
const USE: usize = 1;

const DEADLINE: usize = 2;

/// What a server knows of a session.
#[derive(Clone, Copy, Debug, PartialEq, Eq)]
pub struct Session {
    /// When it was last used.
    pub seen: u64,
    /// When it ends.
    pub deadline: u64,
    /// Whose it is.
    pub peer: u32,
}

/// A session that is in no table, with its number as its key.
pub type SessionNode = MapNode<u64, Session, Three>;

/// The session that was used longest ago comes first.
#[derive(Clone, Copy)]
struct ByUse;

impl Order<Session> for ByUse {
    ghost compares_by = { λ _ cmp. cmp ≡ by_key nat_cmp (λ s. s.seen) };

    ghost computes = { λ _ _. (by_key nat_cmp (λ s. s.seen), refl) };

    ghost lawful = { λ _ cmp is. rw is (by_number_lawful (λ s. s.seen)) };

    fn compare(&self, first: &Session, second: &Session) -> Ordering {
        first.seen.cmp(&second.seen)
    }
}

/// The session that ends first comes first.
#[derive(Clone, Copy)]
struct ByDeadline;

impl Order<Session> for ByDeadline {
    ghost compares_by = { λ _ cmp. cmp ≡ by_key nat_cmp (λ s. s.deadline) };

    ghost computes = { λ _ _. (by_key nat_cmp (λ s. s.deadline), refl) };

    ghost lawful = { λ _ cmp is. rw is (by_number_lawful (λ s. s.deadline)) };

    fn compare(&self, first: &Session, second: &Session) -> Ordering {
        first.deadline.cmp(&second.deadline)
    }
}

/// The sessions of a server. A contract sees them as those of a map.
///
/// # Complexity
/// A call that takes a number is O(1) if the hashes of the numbers are spread, and O(n) at the worst, for n sessions.
#[derive(Drop)]
pub struct Sessions {
    map: StableMap<u64, Session, Three, Seeded>,
}

impl Model for Sessions {
    ghost use Rattle.std.specs.Prelude.{ℕ};
    ghost use Rattle.cordyceps.specs.Spots.StableMap.{Mapped};
    ghost use Rattle.cordyceps_uses.specs.declared.sessions.Session.{Session};
    ghost use Rattle.cordyceps_uses.specs.Sessions.{IsTable};

    ghost Value = { Mapped (ℕ × Session) };

    ghost view = { λ s. s.map };

    ghost invariant = { λ s. IsTable s.map };
}

impl Sessions {
    /// Creates a table without sessions, for about as many as `capacity`. Two random numbers keep peers from choosing
    /// numbers of sessions that fall into one bucket.
    ///
    /// # Errors
    /// If memory is refused, it returns `AllocError`.
    pub fn new(alloc: Global, capacity: usize, random: (u64, u64)) -> Result<Sessions, AllocError>
        ensures { IfOk result (λ made. made.nodes ≡ []) }
    {
        let hasher = Seeded::new(random.0, random.1);
        let map = StableMap::with_capacity(alloc, capacity, hasher)?;
        Ok(Sessions { map })
    }

    /// Returns the number of sessions.
    pub fn len(&self) -> usize
        ensures { result ≡ length (list_at 0 self.now.lists) }
    {
        self.map.len()
    }

    /// Opens a session, and returns the one that had its number. Requires fewer than `usize::MAX` sessions.
    pub fn open(&mut self, node: SessionNode) -> Option<SessionNode>
        requires { length (list_at 0 self.old.lists) < usize.MAX }
        ensures { IsOpened self.old node result self.new }
    {
        self.map.lists_agree();
        let inserted = self.map.insert(node);
        self.map.lists_agree();
        self.map.link_in_order(USE, inserted.spot, &ByUse);
        self.map.link_in_order(DEADLINE, inserted.spot, &ByDeadline);
        inserted.replaced
    }

    /// Notes that a session was used, and when it ends from now on. Returns `false` if there is none with that number.
    pub fn touch(&mut self, id: u64, now: u64, deadline: u64) -> bool
        ensures none { result ≡ false → (lookup (nat_eq id) (pairs self.old.nodes) ≡ None) × (self.new ≡ self.old) }
        ensures touched { result ≡ true → IsTouched self.old id now deadline self.new }
    {
        let Some(at) = self.map.find(&id) else {
            return false;
        };
        self.map.lists_agree();
        self.map.unlink(USE, at);
        self.map.unlink(DEADLINE, at);
        self.map.lists_agree();
        let session = self.map.value_at_mut(at);
        session.seen = now;
        session.deadline = deadline;
        self.map.link_in_order(USE, at, &ByUse);
        self.map.link_in_order(DEADLINE, at, &ByDeadline);
        true
    }

    /// Takes out the session that ends first, if it ends by `now`.
    pub fn expire(&mut self, now: u64) -> Option<SessionNode>
        ensures { MatchOption result
            ((self.new ≡ self.old) × NoneBelow (λ s. s.deadline) (now + 1) self.old)
            (λ node. Leaves self.old node self.new × (node.value.1.deadline ≤ now)
            × NoneBelow (λ s. s.deadline) node.value.1.deadline self.old) }
    {
        self.map.lists_agree();
        let at = self.map.front(DEADLINE)?;
        if now < self.map.value_at(at).deadline {
            return None;
        }
        Some(self.map.remove_at(at))
    }

    /// Takes out the session that was used longest ago.
    pub fn evict(&mut self) -> Option<SessionNode>
        ensures { MatchOption result
            ((self.new ≡ self.old) × ((p : Ptr) → HasSpot self.old.nodes p → ⊥))
            (λ node. Leaves self.old node self.new × NoneBelow (λ s. s.seen) node.value.1.seen self.old) }
    {
        self.map.lists_agree();
        let at = self.map.front(USE)?;
        Some(self.map.remove_at(at))
    }

    /// Takes out the session with a number.
    pub fn close(&mut self, id: u64) -> Option<SessionNode>
        ensures { MatchOption result ((lookup (nat_eq id) (pairs self.old.nodes) ≡ None) × (self.new ≡ self.old))
            (λ node. IsRemoved nat_eq 3 self.old id node self.new) }
    {
        self.map.lists_agree();
        self.map.remove(&id)
    }
}
