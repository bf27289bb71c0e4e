//! From a node to its neighbours in order, and to the ends of a subtree.
//!
//! The next node is the leftmost one of the right subtree. Where that is empty, it is the parent of the nearest subtree
//! that contains the node and is on the left side of its parent. The previous node is the mirror image, so `side` says
//! which one is meant: `true` is right. A walk over all n nodes follows each link once down and once up.
ghost use Rattle.std.specs.Prelude.{◌≡◌, ◌⊎◌, List, true};
ghost use Rattle.std.specs.Bool.{MatchBool};
ghost use denote.RawPtr.{Ptr, InBlock, Testable, null_ptr};
ghost use Rattle.cordyceps_base.specs.Boxes.{box_addresses};
ghost use Rattle.cordyceps_base.specs.Spots.{AreNullComparable};
ghost use Rattle.cordyceps_tree.specs.Rows.{hook_at, IsTree};
ghost use Rattle.cordyceps_tree.specs.Trees.{is_in, kid, IsDown, IsOutermost, IsNeighbour};

use crate::block::Row;
use crate::hook::Hook;
use crate::rows::hook_of;
use cordyceps_base::boxes::Address;

/// Returns the outermost node on a side of the subtree at `at`.
pub(crate) fn outermost<T>(row: &Row<T>, at: Address, side: bool) -> Address
    requires down { (far : List Ptr)
        × IsDown (hook_at row.now.boxes.blocks) (box_addresses row.now.boxes.blocks) side far at.ptr }
    requires some { InBlock at.ptr }
    requires comparable { AreNullComparable (box_addresses row.now.boxes.blocks) }
    ensures end { (far : List Ptr)
        → IsDown (hook_at row.now.boxes.blocks) (box_addresses row.now.boxes.blocks) side far at.ptr
        → IsOutermost (box_addresses row.now.boxes.blocks) side far result.ptr }
    ensures none_beyond { (kid (hook_at row.now.boxes.blocks result.ptr) side).ptr ≡ null_ptr }
    ensures there { is_in result.ptr (box_addresses row.now.boxes.blocks) ≡ true }
{
    let mut at = at;
    let mut next = hook_of(row, at).kid(side);
    while next.is_not_null() {
        at = next;
        next = hook_of(row, at).kid(side);
    }
    at
}

/// Returns the neighbour of the node at `at` on a side, or null if there is none.
pub(crate) fn neighbour<T>(row: &Row<T>, root: Address, at: Address, side: bool) -> Address
    requires tree { IsTree root.ptr row.now.boxes.blocks }
    requires there { is_in at.ptr (box_addresses row.now.boxes.blocks) ≡ true }
    ensures { IsNeighbour side (box_addresses row.now.boxes.blocks) at.ptr result.ptr }
{
    let next = hook_of(row, at).kid(side);
    if next.is_not_null() {
        return outermost(row, next, !side);
    }
    climbed(row, root, at, side)
}

/// Returns `true` if a subtree is on the given side of a node, and not the whole tree.
fn goes_on(up: Address, own: bool, side: bool) -> bool
    requires { Testable up.ptr }
    ensures { MatchBool result (InBlock up.ptr × (own ≡ side)) ((up.ptr ≡ null_ptr) ⊎ (own ≡ side → ⊥)) }
{
    up.is_not_null() && own == side
}

/// Returns the neighbour on a side of a node that has no child there, or null if there is none: the parent of the
/// nearest subtree with the node that is on the other side of its parent.
pub(crate) fn climbed<T>(row: &Row<T>, root: Address, at: Address, side: bool) -> Address
    requires tree { IsTree root.ptr row.now.boxes.blocks }
    requires there { is_in at.ptr (box_addresses row.now.boxes.blocks) ≡ true }
    requires outer { (kid (hook_at row.now.boxes.blocks at.ptr) side).ptr ≡ null_ptr }
    ensures { IsNeighbour side (box_addresses row.now.boxes.blocks) at.ptr result.ptr }
{
    let Hook { side: own, up, .. } = hook_of(row, at);
    let mut own = own;
    let mut up = up;
    while goes_on(up, own, side) {
        let hook = hook_of(row, up);
        own = hook.side;
        up = hook.up;
    }
    up
}
