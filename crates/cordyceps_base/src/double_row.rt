//! Rows of doubly linked nodes, which are the parts of a chain that is split or joined.
ghost use Rattle.std.specs.Prelude.{◌≡◌, ◌+◌, ◌<◌, [], ◌∷◌, ◌++◌, length, take, drop, slice_get, Some};
ghost use denote.RawPtr.{Ptr, null_ptr};
ghost use Rattle.cordyceps_base.specs.Boxes.{box_addresses};
ghost use Rattle.cordyceps_base.specs.DoubleChain.{Segment};
ghost use Rattle.cordyceps_base.specs.Nodes.{nodes_of};
ghost use Rattle.cordyceps_base.specs.Spots.{AreNullComparable};

use crate::boxes::homes::Home;
use crate::boxes::{Address, Boxes, RawBox};
use crate::list::Links;
use crate::node::{Block, Node};
use std::marker::PhantomData;

/// The nodes of a chain, or of a part of one.
pub(crate) type Row<T> = Boxes<Block<T>, Home>;

/// A part of a chain: its row, and the addresses of its first and its last node. If it has no node, `first` is the
/// address of the node after it, and `last` of the one before it.
pub(crate) struct Part<T> {
    pub(crate) first: Address,
    pub(crate) last: Address,
    pub(crate) row: Row<T>,
}

/// Returns the one node of a row.
pub(crate) fn node_of<T: Drop>(at: Address, row: Row<T>) -> Node<T, Links<T>>
    requires { (a : Home) × (x : Block T) × (row.blocks ≡ (at.ptr, a, x) ∷ []) }
    ensures { nodes_of row.blocks ≡ (at.ptr, result) ∷ [] }
{
    Node::from_block(row.only(at, Home).into_box())
}

/// Makes the last node of a row lead to `next`. Returns the row and the address of its first node, or `next` if it is
/// empty.
pub(crate) fn followed_by<T>(
    row: Row<T>,
    head: Address,
    last: Address,
    next: Address,
) -> (Address, Row<T>)
    requires linked { (q : Ptr) × Segment null_ptr head.ptr row.blocks last.ptr q }
    requires null_comparable { AreNullComparable (box_addresses row.blocks) }
    ensures linked { Segment null_ptr result.0.ptr result.1.blocks last.ptr next.ptr }
    ensures same { nodes_of result.1.blocks ≡ nodes_of row.blocks }
{
    if last.is_not_null() {
        let (front, mut end) = row.cut_last();
        end.get_mut(last, 0).links.next = next;
        (head, front.join(end))
    } else {
        (next, row)
    }
}

/// Makes the first node of a row lead back to `prev`. Returns the row and the address of its last node, or `prev` if it
/// is empty.
pub(crate) fn preceded_by<T>(
    row: Row<T>,
    first: Address,
    tail: Address,
    prev: Address,
) -> (Address, Row<T>)
    requires linked { (p : Ptr) × Segment p first.ptr row.blocks tail.ptr null_ptr }
    requires null_comparable { AreNullComparable (box_addresses row.blocks) }
    ensures linked { Segment prev.ptr first.ptr result.1.blocks result.0.ptr null_ptr }
    ensures same { nodes_of result.1.blocks ≡ nodes_of row.blocks }
{
    if first.is_not_null() {
        let mut row = row;
        row.get_mut(first, 0).links.prev = prev;
        (tail, row)
    } else {
        (prev, row)
    }
}

/// Makes a row of one node, and returns its address too.
pub(crate) fn row_of<T: Drop>(node: Node<T, Links<T>>) -> (Address, Row<T>)
    ensures one { (a : Home) × (x : Block T) × (result.1.blocks ≡ (result.0.ptr, a, x) ∷ []) }
    ensures holds { nodes_of result.1.blocks ≡ (result.0.ptr, node) ∷ [] }
{
    let (at, _, row) = Boxes::one(RawBox::from_box(node.into_block()));
    (at, row)
}

/// Links the one node of a row, which is at `at`, between the front part of a chain and the back part.
pub(crate) fn between<T>(front: Part<T>, at: Address, one: Row<T>, back: Part<T>) -> Part<T>
    requires one { (a : Home) × (x : Block T) × (one.blocks ≡ (at.ptr, a, x) ∷ []) }
    requires front { (q : Ptr) × Segment null_ptr front.first.ptr front.row.blocks front.last.ptr q }
    requires back { (p : Ptr) × Segment p back.first.ptr back.row.blocks back.last.ptr null_ptr }
    requires front_comparable { AreNullComparable (box_addresses front.row.blocks) }
    requires back_comparable { AreNullComparable (box_addresses back.row.blocks) }
    ensures linked { Segment null_ptr result.first.ptr result.row.blocks result.last.ptr null_ptr }
    ensures holds { nodes_of result.row.blocks
        ≡ nodes_of front.row.blocks ++ (nodes_of one.blocks ++ nodes_of back.row.blocks) }
{
    let Part {
        first: head,
        last: prev,
        row: front,
    } = front;
    let Part {
        first: next,
        last: tail,
        row: back,
    } = back;
    let mut one = one;
    one.get_mut(at, 0).links.next = next;
    one.get_mut(at, 0).links.prev = prev;
    let (first, front) = followed_by(front, head, prev, at);
    let (last, back) = preceded_by(back, next, tail, at);
    let row = front.join(one.join(back));
    Part { first, last, row }
}

/// Removes node `k`, which is at `at` and has a neighbour on either side. Returns the node and the row.
pub(crate) fn cut_out<T: Drop>(row: Row<T>, at: Address, k: usize) -> (Node<T, Links<T>>, Row<T>)
    requires inner { (0 < k) × (k + 1 < length row.blocks) }
    requires on { slice_get (box_addresses row.blocks) k ≡ Some at.ptr }
    requires linked { (h : Ptr) × (t : Ptr) × Segment null_ptr h row.blocks t null_ptr }
    ensures node { slice_get (nodes_of row.blocks) k ≡ Some (at.ptr, result.0) }
    ensures others { nodes_of result.1.blocks ≡ take k (nodes_of row.blocks) ++ drop (k + 1) (nodes_of row.blocks) }
    ensures linked { (h t : Ptr) → Segment null_ptr h row.blocks t null_ptr
        → Segment null_ptr h result.1.blocks t null_ptr }
{
    let block = row.get(at, k);
    let next = block.links.next;
    let prev = block.links.prev;
    let (mut front, back) = row.cut(k);
    let (one, mut rest) = back.cut(1);
    front.get_mut(prev, k - 1).links.next = next;
    rest.get_mut(next, 0).links.prev = prev;
    (node_of(at, one), front.join(rest))
}

/// Inserts a node before node `k`, which is at `at` and not the first.
pub(crate) fn put_in<T: Drop>(row: Row<T>, at: Address, k: usize, node: Node<T, Links<T>>) -> Row<T>
    requires inner { 0 < k }
    requires on { slice_get (box_addresses row.blocks) k ≡ Some at.ptr }
    requires linked { (h : Ptr) × (t : Ptr) × Segment null_ptr h row.blocks t null_ptr }
    ensures holds { (address : Ptr)
        × (nodes_of result.blocks ≡ take k (nodes_of row.blocks) ++ (address, node) ∷ drop k (nodes_of row.blocks)) }
    ensures linked { (h t : Ptr) → Segment null_ptr h row.blocks t null_ptr
        → Segment null_ptr h result.blocks t null_ptr }
{
    let prev = row.get(at, k).links.prev;
    let mut block = node.into_block();
    block.links.prev = prev;
    block.links.next = at;
    let (new, _, one) = Boxes::one(RawBox::from_box(block));
    let (mut front, mut back) = row.cut(k);
    front.get_mut(prev, k - 1).links.next = new;
    back.get_mut(at, 0).links.prev = new;
    front.join(one.join(back))
}
