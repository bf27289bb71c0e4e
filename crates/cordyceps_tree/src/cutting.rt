//! A node that has one child at most leaves a tree.
ghost use Rattle.std.specs.Prelude.{◌≡◌, ◌⊎◌, ◌<◌, ◌^◌, [], ◌∷◌, ◌++◌, length, List, true};
ghost use denote.RawPtr.{Ptr, InBlock, Testable, null_ptr};
ghost use Rattle.cordyceps_base.specs.Boxes.{box_addresses};
ghost use Rattle.cordyceps_base.specs.Element.{Element};
ghost use Rattle.cordyceps_base.specs.Spots.{AreDistinct, AreNullComparable};
ghost use Rattle.cordyceps_tree.specs.Rows.{hook_at, nodes_of, IsTree, IsLifted, IsTraded, IsGone, IsSwapped};
ghost use Rattle.cordyceps_tree.specs.Trees.{is_in, Reaches, IsSingle};

use crate::block::{Block, Row};
use crate::hook::Hook;
use crate::rows::{hook_of, set_hook, set_up};
use crate::settle::{hung, settled};
use cordyceps_base::boxes::homes::Home;
use cordyceps_base::boxes::{Address, Boxes};
use std::mem;

/// Takes the node at `at` out of the row, as a row of its own.
fn lifted<T>(row: &mut Row<T>, at: Address) -> Row<T>
    requires there { (a b : List Ptr) × (box_addresses row.old.boxes.blocks ≡ a ++ at.ptr ∷ b) }
    requires distinct { AreDistinct (box_addresses row.old.boxes.blocks) }
    ensures lifted { (a b : List Ptr) → box_addresses row.old.boxes.blocks ≡ a ++ at.ptr ∷ b
        → IsLifted row.new.boxes.blocks a b at.ptr result.boxes.blocks row.old.boxes.blocks }
    ensures distinct { AreDistinct (box_addresses row.new.boxes.blocks) }
    ensures comparable { AreNullComparable (box_addresses row.new.boxes.blocks) }
{
    let boxes = mem::replace(&mut row.boxes, Boxes::empty());
    let (front, back) = boxes.cut_at(at);
    let (one, rest) = back.cut(1);
    let others = front.join(rest).distinct().null_comparable();
    let none = mem::replace(&mut row.boxes, others);
    none.discard();
    Row { boxes: one }
}

/// Returns the one child of a node, or null.
fn only_kid(hook: Hook) -> Address
    requires { Testable hook.left.ptr }
    ensures { (InBlock hook.left.ptr × (result ≡ hook.left))
        ⊎ ((hook.left.ptr ≡ null_ptr) × (result ≡ hook.right)) }
{
    if hook.left.is_not_null() {
        return hook.left;
    }
    hook.right
}

/// A node that left, as a row of its own, and the root.
pub(crate) struct Departed<T> {
    pub(crate) one: Row<T>,
    pub(crate) root: Address,
}

/// Takes the node at `at`, which has one child at most, out of the tree, and balances that.
pub(crate) fn cut<T>(row: &mut Row<T>, root: Address, at: Address) -> Departed<T>
    requires tree { IsTree root.ptr row.old.boxes.blocks }
    requires there { is_in at.ptr (box_addresses row.old.boxes.blocks) ≡ true }
    requires single { IsSingle (hook_at row.old.boxes.blocks at.ptr) }
    requires few { length (box_addresses row.old.boxes.blocks) < 2 ^ 64 }
    ensures tree { IsTree result.root.ptr row.new.boxes.blocks }
    ensures gone { IsGone (nodes_of row.old.boxes.blocks) at.ptr result.one.boxes.blocks
        (nodes_of row.new.boxes.blocks) }
{
    let hook = hook_of(row, at);
    let one = lifted(row, at);
    let only = only_kid(hook);
    set_up(row, only, hook.up, hook.side);
    let root = hung(row, hook.up, hook.side, only, root);
    let root = settled(row, hook.up, root);
    Departed { one, root }
}

/// Puts the one node of a row, which is at `next`, into the place of that at `at`, which leaves.
pub(crate) fn replaced<T>(
    row: &mut Row<T>,
    root: Address,
    at: Address,
    one: Row<T>,
    next: Address,
) -> Departed<T>
    requires tree { IsTree root.ptr row.old.boxes.blocks }
    requires there { is_in at.ptr (box_addresses row.old.boxes.blocks) ≡ true }
    requires one { (a : Home) × (x : Block T) × (one.boxes.blocks ≡ (next.ptr, a, x) ∷ []) }
    ensures tree { IsTree result.root.ptr row.new.boxes.blocks }
    ensures swapped { (e : Element T) → nodes_of one.boxes.blocks ≡ (next.ptr, e) ∷ []
        → IsSwapped (nodes_of row.old.boxes.blocks) at.ptr result.one.boxes.blocks next.ptr e
        (nodes_of row.new.boxes.blocks) }
{
    let hook = hook_of(row, at);
    let old = traded(row, at, one);
    set_hook(row, next, hook);
    set_up(row, hook.left, next, false);
    set_up(row, hook.right, next, true);
    let root = hung(row, hook.up, hook.side, next, root);
    Departed { one: old, root }
}

/// Puts the one node of a row into the place that the one at `at` has in the order. Returns that.
fn traded<T>(row: &mut Row<T>, at: Address, one: Row<T>) -> Row<T>
    requires there { (a b : List Ptr) × (box_addresses row.old.boxes.blocks ≡ a ++ at.ptr ∷ b) }
    requires distinct { AreDistinct (box_addresses row.old.boxes.blocks) }
    ensures traded { (a b : List Ptr) → box_addresses row.old.boxes.blocks ≡ a ++ at.ptr ∷ b
        → IsTraded row.old.boxes.blocks a b at.ptr result.boxes.blocks one.boxes.blocks row.new.boxes.blocks }
    ensures distinct { AreDistinct (box_addresses row.new.boxes.blocks) }
    ensures comparable { AreNullComparable (box_addresses row.new.boxes.blocks) }
{
    let Row { boxes: put } = one;
    let boxes = mem::replace(&mut row.boxes, Boxes::empty());
    let (front, back) = boxes.cut_at(at);
    let (old, rest) = back.cut(1);
    let others = front.join(put).join(rest).distinct().null_comparable();
    let none = mem::replace(&mut row.boxes, others);
    none.discard();
    Row { boxes: old }
}
