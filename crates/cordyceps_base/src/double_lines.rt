//! Lines: nodes that are linked both ways, null at both ends, and reached by their first. A table has many lines. A
//! node is taken out of it by its address, whichever line it is in.
//!
//! ```text
//! firsts
//! +---+     +----+    +----+    +----+
//! | o ----->|    |<-->|    |<-->|    |--> null    line 0
//! +---+     +----+    +----+    +----+
//! | o ---> null                                   line 1, without a node
//! +---+     +----+    +----+
//! | o ----->|    |<-->|    |--> null              line 2
//! +---+     +----+    +----+
//! ```
//!
//! A line is a sequence of nodes that are linked as those of a double chain, and it is reached by its first node. A
//! table has the first addresses of up to 64 lines, and one row with all their nodes. In a table the first `prev` and
//! the last `next` of a line are null. For a line outside a table the invariant says nothing of the first `prev`, and
//! for a line that grows nothing of the last `next`, so a merge writes two links for each node. `take_at` takes a node
//! out by its address. Only for a first node the line has to be found: `number_of` writes a mark into the node's
//! `prev`, and looks for it at the first node of each line.
//!
//! The mark stands for a comparison of addresses, which a proof does not allow for different blocks. A table is changed
//! in place, since calls by value would copy its 512 bytes of addresses.
//!
//! Up to 64 runs that double in length are how `std::list::sort` of GNU's C++ library sorts. Here the nodes are linked
//! both ways, so that one can leave between two merges.
ghost use Rattle.std.specs.Prelude.{◌≡◌, ℕ, ◌+◌, ◌<◌, ◌≤◌, ◌==◌, List, [], ◌∷◌, ◌++◌, length, take, drop, slice_get, Some, MatchOption};
ghost use Rattle.std.specs.Borrow.{sem};
ghost use denote.RawPtr.{Ptr, null_ptr};
ghost use Rattle.cordyceps_base.specs.Boxes.{box_addresses};
ghost use Rattle.cordyceps_base.specs.DoubleChain.{Segment};
ghost use Rattle.cordyceps_base.specs.Spots.{AreDistinct, AreNullComparable};
ghost use Rattle.cordyceps_base.specs.BySpot.{HasSpot, HoldsAt};
ghost use Rattle.cordyceps_base.specs.DoubleLines.{flat, IsTable, BeginsLine, IsMarkedAt, IsHead, IsHeadMarked, IsTakenOut, IsFirstOut};
ghost use Rattle.cordyceps_base.specs.Element.{Element, values};
ghost use Rattle.cordyceps_base.specs.Nodes.{Nodes, OwnedNode, elements, nodes_of, spots};

pub mod entries;

use crate::boxes::homes::Home;
use crate::boxes::{Address, Boxes, RawBox};
use crate::double_row::{Row, followed_by, node_of};
use crate::list::Links;
use crate::node::{Block, Node};
use std::marker::Model;
use std::mem;

/// Nodes that are linked both ways, reached by the first. A contract sees a list of the nodes, each as its address and
/// its element.
///
/// # Complexity
/// Each call is O(1) and allocates nothing.
pub struct Line<T> {
    first: Address,
    row: Row<T>,
}

impl<T> Model for Line<T> {
    ghost use Rattle.cordyceps_base.specs.Nodes.{Nodes, nodes_of};
    ghost use Rattle.cordyceps_base.specs.DoubleLines.{IsDoubleLine};

    ghost Value = { Nodes T };

    ghost view = { λ l. nodes_of l.row.blocks };

    ghost invariant = { λ l. IsDoubleLine l.first.ptr l.row.blocks };
}

impl<T> Line<T> {
    ghost use Rattle.cordyceps_base.specs.LineLends.{lends_first};

    /// Creates a line of no node.
    pub fn empty() -> Line<T>
        ensures { result ≡ [] }
    {
        Line {
            first: Address::null(),
            row: Boxes::empty(),
        }
    }

    /// Creates a line of one node, and returns its address too.
    pub fn one(node: Node<T, Links<T>>) -> (Address, Line<T>)
    where
        T: Drop,
        ensures { result.1 ≡ (result.0.ptr, node) ∷ [] }
    {
        let (first, _, row) = Boxes::one(RawBox::from_box(node.into_block()));
        (first, alone(first, row))
    }

    /// Returns `true` if the line has no node.
    pub fn is_empty(&self) -> bool
        ensures { result ≡ (length self.now == 0) }
    {
        self.first.is_null()
    }

    /// Returns a reference to the value of the first node. Requires a node.
    pub fn front(&self) -> &T
        requires { 0 < length self.now }
        ensures { slice_get (values (elements self.now)) 0 ≡ Some result.now }
    {
        &self.row.get(self.first, 0).value
    }

    /// Cuts the first node off, and returns a line of it, and that of the others. Requires a node.
    pub fn cut_first(self) -> (Line<T>, Line<T>)
        requires { 0 < length self }
        ensures { (address : Ptr) × (e : Element T) × (result.0 ≡ (address, e) ∷ [])
            × (self ≡ (address, e) ∷ result.1) }
    {
        let Line { first, row } = self;
        let next = row.get(first, 0).links.next;
        let (one, rest) = row.cut(1);
        let left = Line {
            first: next,
            row: rest.null_comparable(),
        };
        (alone(first, one), left)
    }

    /// Returns a mutable reference to the value of the first node. The element keeps its number. Requires a node.
    pub fn front_mut(&mut self) -> &mut T
        requires { 0 < length self.old }
        ensures* writes_back { sem 𝓛 (lends_first T.row self.entry result) }
        ensures value { slice_get (values (elements self.old)) 0 ≡ Some result.now }
    {
        let block = self.row.get_mut(self.first, 0);
        &mut block.value
    }

    /// Returns the only node. Requires that there is one, and no other.
    pub fn only(self) -> Node<T, Links<T>>
    where
        T: Drop,
        requires { length self ≡ 1 }
        ensures { (address : Ptr) × (self ≡ (address, result) ∷ []) }
    {
        let Line { first, row } = self;
        node_of(first, row)
    }

    /// Ends a line. Requires that it has no node.
    pub fn discard(self)
        requires { self ≡ [] }
    {
        let Line { first: _, row } = self;
        row.discard();
    }
}

impl<T: Drop> Line<T> {
    /// Frees all nodes.
    ///
    /// # Complexity
    /// O(n), for n nodes.
    pub fn free(self) {
        let mut line = self;
        while !line.is_empty() {
            let (one, rest) = line.cut_first();
            drop(one.only());
            line = rest;
        }
        line.discard();
    }
}

/// A line that grows at its end, which is known. A contract sees a list of the nodes.
///
/// # Complexity
/// Each call is O(1) and allocates nothing.
pub struct Growing<T> {
    first: Address,
    last: Address,
    row: Row<T>,
}

impl<T> Model for Growing<T> {
    ghost use Rattle.cordyceps_base.specs.Nodes.{Nodes, nodes_of};
    ghost use Rattle.cordyceps_base.specs.DoubleLines.{IsGrowing};

    ghost Value = { Nodes T };

    ghost view = { λ l. nodes_of l.row.blocks };

    ghost invariant = { λ l. IsGrowing l.first.ptr l.last.ptr l.row.blocks };
}

impl<T> Growing<T> {
    /// Creates a line of no node.
    pub fn empty() -> Growing<T>
        ensures { result ≡ [] }
    {
        Growing {
            first: Address::null(),
            last: Address::null(),
            row: Boxes::empty(),
        }
    }

    /// Appends the first node of a line, and returns what is left of that, too. Requires that it has a node.
    pub fn append_first_of(self, line: Line<T>) -> (Growing<T>, Line<T>)
        requires { 0 < length line }
        ensures { (address : Ptr) × (e : Element T) × (result.0 ≡ self ++ (address, e) ∷ [])
            × (line ≡ (address, e) ∷ result.1) }
    {
        let Growing { first, last, row } = self;
        let Line {
            first: at,
            row: more,
        } = line;
        let next = more.get(at, 0).links.next;
        let (mut one, rest) = more.cut(1);
        let (first, row) = followed_by(row, first, last, at);
        one.get_mut(at, 0).links.prev = last;
        let grown = Growing {
            first,
            last: at,
            row: row.join(one).null_comparable(),
        };
        let left = Line {
            first: next,
            row: rest.null_comparable(),
        };
        (grown, left)
    }

    /// Appends a line, and returns the whole.
    pub fn ended(self, rest: Line<T>) -> Line<T>
        ensures { result ≡ self ++ rest }
    {
        let Growing { first, last, row } = self;
        let Line {
            first: at,
            row: more,
        } = rest;
        let (first, row) = followed_by(row, first, last, at);
        let more = front_preceded_by(more, at, last);
        Line {
            first,
            row: row.join(more).null_comparable(),
        }
    }
}

/// The maximum number of lines in a table.
pub const MAX_LINES: usize = 64;

/// A table of at most `MAX_LINES` lines. A contract sees a list of the lines, in order. A line in it may have no node.
///
/// # Complexity
/// Each call is O(1) and allocates nothing, but for `take_at` and `free`.
pub struct Lines<T> {
    firsts: [Address; MAX_LINES],
    count: usize,
    row: Row<T>,
}

impl<T> Model for Lines<T> {
    ghost use Rattle.std.specs.Prelude.{List, take};
    ghost use Rattle.cordyceps_base.specs.Nodes.{Nodes, nodes_of};
    ghost use Rattle.cordyceps_base.specs.DoubleLines.{IsTable, lines_in};

    ghost Value = { List (Nodes T) };

    ghost view = { λ l. lines_in (take l.count l.firsts) (nodes_of l.row.blocks) };

    ghost invariant = { λ l. IsTable l.firsts l.count l.row.blocks };
}

impl<T> Lines<T> {
    /// Creates a table of no lines.
    pub fn new() -> Lines<T>
        ensures { result ≡ [] }
    {
        Lines {
            firsts: [Address::null(); MAX_LINES],
            count: 0,
            row: Boxes::empty(),
        }
    }

    /// Returns the number of lines.
    pub fn count(&self) -> usize
        ensures { result ≡ length self.now }
    {
        let Lines { count, .. } = self;
        *count
    }

    /// Ends a table. Requires that it has no line.
    pub fn discard(self)
        requires { self ≡ [] }
    {
        let Lines {
            firsts: _,
            count: _,
            row,
        } = self;
        row.discard();
    }

    /// Does nothing when the program runs. Its contract states that the addresses of the nodes are distinct.
    pub fn are_distinct(&self)
        ensures { AreDistinct (spots (flat self.now)) }
    {
        let _count = self.count;
    }

    /// Adds a line, as the last. Requires less than `MAX_LINES` lines.
    pub fn push(&mut self, line: Line<T>)
        requires { length self.old < MAX_LINES }
        ensures { self.new ≡ self.old ++ line ∷ [] }
    {
        let Line { first, row: more } = line;
        let more = front_preceded_by(more, first, Address::null());
        self.firsts[self.count] = first;
        self.count += 1;
        let row = taken(&mut self.row).join(more);
        put_back(&mut self.row, row.distinct().null_comparable());
    }

    /// Takes the last line out. Requires a line.
    pub fn pop(&mut self) -> Line<T>
        requires { 0 < length self.old }
        ensures { self.old ≡ self.new ++ result ∷ [] }
    {
        let first = self.firsts[self.count - 1];
        self.count -= 1;
        let (row, more) = taken(&mut self.row).cut_at(first);
        put_back(&mut self.row, row.distinct().null_comparable());
        Line {
            first,
            row: more.null_comparable(),
        }
    }

    /// Returns a reference to the first value of line `k`, or `None` if it has no node. Requires that there is a line
    /// `k`.
    pub fn front(&self, k: usize) -> Option<&T>
        requires { k < length self.now }
        ensures { (l : Nodes T) × (slice_get self.now k ≡ Some l)
            × MatchOption result (l ≡ []) (λ v. slice_get (values (elements l)) 0 ≡ Some v.now) }
    {
        let _count = self.count;
        let first = self.firsts[k];
        if first.is_null() {
            return None;
        }
        Some(&self.row.from_address(first).get(first, 0).value)
    }

    /// Returns the address of the first node of line `k`. Requires that line `k` has a node.
    pub fn first(&self, k: usize) -> Address
        requires within { k < length self.now }
        requires some { (n : Ptr × Element T) × (l : Nodes T) × (slice_get self.now k ≡ Some (n ∷ l)) }
        ensures { (e : Element T) × (l : Nodes T) × (slice_get self.now k ≡ Some ((result.ptr, e) ∷ l)) }
    {
        let _count = self.count;
        self.firsts[k]
    }

    /// Returns a reference to the value at an address. Requires that a node is there.
    pub fn get_at(&self, at: Address) -> &T
        requires { HasSpot (flat self.now) at.ptr }
        ensures { HoldsAt (flat self.now) at.ptr result.now }
    {
        &self.row.from_address(at).get(at, 0).value
    }

    /// Takes the first node of line `k` out, as a line. Requires that line `k` has a node.
    pub fn take_first(&mut self, k: usize) -> Line<T>
        requires within { k < length self.old }
        requires some { (n : Ptr × Element T) × (l : Nodes T) × (slice_get self.old k ≡ Some (n ∷ l)) }
        ensures { (p : Ptr) × (e : Element T) × (result ≡ (p, e) ∷ []) × IsFirstOut self.old k p e self.new }
    {
        let _count = self.count;
        let at = self.firsts[k];
        let (front, back) = taken(&mut self.row).cut_at(at);
        let next = back.get(at, 0).links.next;
        let (one, rest) = back.cut(1);
        let firsts = &mut self.firsts;
        firsts[k] = next;
        let rest = front_preceded_by(rest.null_comparable(), next, Address::null());
        put_back(&mut self.row, front.join(rest).distinct().null_comparable());
        alone(at, one)
    }

    /// Takes the node at an address out, as a line. Requires that a node is there.
    ///
    /// # Complexity
    /// O(1), or one read for each line if it is the first of one.
    pub fn take_at(&mut self, at: Address) -> Line<T>
        requires { HasSpot (flat self.old) at.ptr }
        ensures { (e : Element T) × (result ≡ (at.ptr, e) ∷ []) × IsTakenOut self.old at.ptr e self.new }
    {
        let (front, back) = taken(&mut self.row).cut_at(at);
        let next = back.get(at, 0).links.next;
        let prev = back.get(at, 0).links.prev;
        if prev.is_null() {
            let (k, row) = number_of(&self.firsts, self.count, front.join(back), at);
            put_back(&mut self.row, row);
            return self.take_first(k);
        }
        let (one, rest) = back.cut(1);
        let front = end_followed_by(front, prev, next);
        let rest = front_preceded_by(rest.null_comparable(), next, prev);
        put_back(&mut self.row, front.join(rest).distinct().null_comparable());
        alone(at, one)
    }
}

impl<T: Drop> Lines<T> {
    /// Frees all nodes.
    ///
    /// # Complexity
    /// O(n), for n nodes.
    pub fn free(self) {
        let mut lines = self;
        while lines.count() > 0 {
            lines.pop().free();
        }
        lines.discard();
    }
}

/// Takes all nodes of a row out.
fn taken<T>(row: &mut Row<T>) -> Row<T>
    ensures { (result.blocks ≡ row.old.blocks) × (row.new.blocks ≡ []) }
{
    mem::replace(row, Boxes::empty())
}

/// Puts nodes into a row that has none.
fn put_back<T>(row: &mut Row<T>, nodes: Row<T>)
    requires { row.old.blocks ≡ [] }
    ensures { row.new.blocks ≡ nodes.blocks }
{
    let none = mem::replace(row, nodes);
    none.discard();
}

/// Makes a line of the one node of a row.
fn alone<T>(at: Address, row: Row<T>) -> Line<T>
    requires { (a : Home) × (x : Block T) × (row.blocks ≡ (at.ptr, a, x) ∷ []) }
    ensures { result ≡ nodes_of row.blocks }
{
    let mut row = row;
    row.get_mut(at, 0).links.next = Address::null();
    Line {
        first: at,
        row: row.null_comparable(),
    }
}

/// Makes the first node of a line lead back to `prev`, where the line is at the front of a row. It may have no node.
fn front_preceded_by<T>(row: Row<T>, first: Address, prev: Address) -> Row<T>
    requires linked { (l more : List (OwnedNode T)) × (row.blocks ≡ l ++ more)
        × ((p t : Ptr) × Segment p first.ptr l t null_ptr) }
    requires null_comparable { AreNullComparable (box_addresses row.blocks) }
    ensures { (l more : List (OwnedNode T)) → row.blocks ≡ l ++ more
        → ((p t : Ptr) × Segment p first.ptr l t null_ptr)
        → ((m : List (OwnedNode T)) × (result.blocks ≡ m ++ more) × (nodes_of m ≡ nodes_of l)
        × ((t : Ptr) × Segment prev.ptr first.ptr m t null_ptr)) }
{
    if first.is_null() {
        return row;
    }
    let mut row = row;
    row.get_mut(first, 0).links.prev = prev;
    row
}

/// Makes the last node of a row lead to `next`.
fn end_followed_by<T>(row: Row<T>, last: Address, next: Address) -> Row<T>
    requires { (more l : List (OwnedNode T)) × (row.blocks ≡ more ++ l) × (0 < length l)
        × ((p h q : Ptr) × Segment p h l last.ptr q) }
    ensures { (more l : List (OwnedNode T)) (p h q : Ptr) → row.blocks ≡ more ++ l
        → 0 < length l
        → Segment p h l last.ptr q
        → ((m : List (OwnedNode T)) × (result.blocks ≡ more ++ m) × (nodes_of m ≡ nodes_of l)
        × Segment p h m last.ptr next.ptr) }
{
    let (front, mut end) = row.cut_last();
    end.get_mut(last, 0).links.next = next;
    front.join(end)
}

/// Returns the number of the line whose first node is at an address, and the same row. It marks the node, by a `prev`
/// that is not null, and looks for the mark: two addresses cannot be compared.
fn number_of<T>(
    firsts: &[Address; MAX_LINES],
    count: usize,
    row: Row<T>,
    at: Address,
) -> (usize, Row<T>)
    requires table { IsTable firsts.now count row.blocks }
    requires first { BeginsLine (take count firsts.now) row.blocks at.ptr }
    ensures same { result.1.blocks ≡ row.blocks }
    ensures number { (h : Address) × (slice_get (take count firsts.now) result.0 ≡ Some h) × (h.ptr ≡ at.ptr) }
{
    let (front, mut back) = row.cut_at(at);
    back.get_mut(at, 0).links.prev = at;
    let row = front.join(back);
    let k = marked(firsts, count, &row);
    let (front, mut back) = row.cut_at(at);
    back.get_mut(at, 0).links.prev = Address::null();
    (k, front.join(back))
}

/// Returns the number of the first line whose first node has a mark: its `prev` is not null.
fn marked<T>(firsts: &[Address; MAX_LINES], count: usize, row: &Row<T>) -> usize
    requires long { (length firsts.now ≡ MAX_LINES) × (count ≤ MAX_LINES) }
    requires row { AreNullComparable (box_addresses row.now.blocks) × AreDistinct (box_addresses row.now.blocks) }
    requires marked { (ls : List (List (OwnedNode T))) × (k : ℕ) × (row.now.blocks ≡ flat ls)
        × IsMarkedAt (take count firsts.now) ls k }
    ensures { (ls : List (List (OwnedNode T))) (k : ℕ) → row.now.blocks ≡ flat ls
        → IsMarkedAt (take count firsts.now) ls k
        → result ≡ k }
{
    let mut k = 0;
    while k < count {
        if is_marked(firsts[k], row) {
            return k;
        }
        k += 1;
    }
    k
}

/// Returns `true` if there is a node at an address, and its `prev` is not null.
fn is_marked<T>(first: Address, row: &Row<T>) -> bool
    requires { IsHead first row.now.blocks }
    ensures { IsHeadMarked result first row.now.blocks }
{
    if first.is_null() {
        return false;
    }
    row.from_address(first)
        .get(first, 0)
        .links
        .prev
        .is_not_null()
}
