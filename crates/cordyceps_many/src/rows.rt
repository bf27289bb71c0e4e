//! Reads and writes of one hook of one node.
ghost use Rattle.std.specs.Prelude.{◌≡◌, ℕ, ◌<◌, true, false};
ghost use Rattle.cordyceps_base.specs.Boxes.{box_addresses};
ghost use Rattle.cordyceps_base.specs.Spots.{AreDistinct, AreNullComparable};
ghost use Rattle.cordyceps_many.specs.Rows.{IsJoined, IsOut, hook_at, Reaches, KeepsOthers};
ghost use Rattle.cordyceps_many.specs.Threads.{is_in, with_next, with_prev, unmarked, Wrote, IsFollowedBy, IsPrecededBy};

use crate::block::Row;
use crate::hook::Hook;
use crate::hooks::Hooks;
use crate::node::MultiNode;
use cordyceps_base::boxes::homes::Home;
use cordyceps_base::boxes::{Address, Boxes, RawBox};
use cordyceps_stable::addresses::{address_of, spot_at};
use cordyceps_stable::stable_list::Spot;
use std::mem;

/// Adds a node to the row, and returns its spot.
pub(crate) fn joined<T: Drop, H: Hooks>(row: &mut Row<T, H>, node: MultiNode<T, H>) -> Spot
    ensures added { IsJoined row.old.boxes.blocks result node row.new.boxes.blocks }
    ensures distinct { AreDistinct (box_addresses row.new.boxes.blocks) }
    ensures comparable { AreNullComparable (box_addresses row.new.boxes.blocks) }
{
    let (at, _, one) = Boxes::one(RawBox::from_box(node.into_block()));
    let boxes = mem::replace(&mut row.boxes, Boxes::empty());
    let all = boxes.join(one).distinct().null_comparable();
    let none = mem::replace(&mut row.boxes, all);
    none.discard();
    spot_at(at)
}

/// Takes the node at `at`, which has no mark of a list but list 0, out of the row.
pub(crate) fn taken<T: Drop, H: Hooks>(row: &mut Row<T, H>, at: Spot) -> MultiNode<T, H>
    requires there { is_in at (box_addresses row.old.boxes.blocks) ≡ true }
    requires off { (i : ℕ) → 0 < i → (hook_at row.old.boxes.blocks i at).linked ≡ false }
    ensures taken { IsOut row.old.boxes.blocks at result row.new.boxes.blocks }
    ensures distinct { AreDistinct (box_addresses row.new.boxes.blocks) }
    ensures comparable { AreNullComparable (box_addresses row.new.boxes.blocks) }
{
    let at = address_of(at);
    let boxes = mem::replace(&mut row.boxes, Boxes::empty());
    let (front, back) = boxes.cut_at(at);
    let (one, rest) = back.cut(1);
    let block = one.only(at, Home).into_box();
    let others = front.join(rest).distinct().null_comparable();
    let none = mem::replace(&mut row.boxes, others);
    none.discard();
    MultiNode { block }
}

/// Returns hook `i` of the node at `at`.
pub(crate) fn hook_of<T, H: Hooks>(row: &Row<T, H>, i: usize, at: Address) -> Hook
    requires there { is_in at.ptr (box_addresses row.now.boxes.blocks) ≡ true }
    requires within { i < H.count }
    ensures { result ≡ hook_at row.now.boxes.blocks i at.ptr }
{
    row.boxes.from_address(at).get(at, 0).hooks.at(i)
}

/// Sets hook `i` of the node at `at`. That for list 0 always has its mark.
pub(crate) fn set_hook<T, H: Hooks>(row: &mut Row<T, H>, i: usize, at: Address, hook: Hook)
    requires there { is_in at.ptr (box_addresses row.old.boxes.blocks) ≡ true }
    requires within { i < H.count }
    requires on { i ≡ 0 → hook.linked ≡ true }
    ensures set { Wrote (hook_at row.old.boxes.blocks i) at.ptr hook (hook_at row.new.boxes.blocks i) }
    ensures rest { KeepsOthers i row.old.boxes.blocks row.new.boxes.blocks }
{
    let block = row.boxes.at_mut(at);
    block.hooks.set(i, hook);
}

/// Makes the node at `at` lead to `next` in list `i`.
fn set_next<T, H: Hooks>(row: &mut Row<T, H>, i: usize, at: Address, next: Address)
    requires there { is_in at.ptr (box_addresses row.old.boxes.blocks) ≡ true }
    requires within { i < H.count }
    ensures set { Wrote (hook_at row.old.boxes.blocks i) at.ptr (with_next (hook_at row.old.boxes.blocks i at.ptr) next)
        (hook_at row.new.boxes.blocks i) }
    ensures rest { KeepsOthers i row.old.boxes.blocks row.new.boxes.blocks }
{
    let block = row.boxes.at_mut(at);
    block.hooks.set_next(i, next);
}

/// Makes the node at `at` lead back to `prev` in list `i`.
fn set_prev<T, H: Hooks>(row: &mut Row<T, H>, i: usize, at: Address, prev: Address)
    requires there { is_in at.ptr (box_addresses row.old.boxes.blocks) ≡ true }
    requires within { i < H.count }
    ensures set { Wrote (hook_at row.old.boxes.blocks i) at.ptr (with_prev (hook_at row.old.boxes.blocks i at.ptr) prev)
        (hook_at row.new.boxes.blocks i) }
    ensures rest { KeepsOthers i row.old.boxes.blocks row.new.boxes.blocks }
{
    let block = row.boxes.at_mut(at);
    block.hooks.set_prev(i, prev);
}

/// Takes the mark of list `i`, which is not list 0, off the node at `at`.
pub(crate) fn unmark<T, H: Hooks>(row: &mut Row<T, H>, i: usize, at: Address)
    requires there { is_in at.ptr (box_addresses row.old.boxes.blocks) ≡ true }
    requires within { i < H.count }
    requires not_all { 0 < i }
    ensures set { Wrote (hook_at row.old.boxes.blocks i) at.ptr (unmarked (hook_at row.old.boxes.blocks i at.ptr))
        (hook_at row.new.boxes.blocks i) }
    ensures rest { KeepsOthers i row.old.boxes.blocks row.new.boxes.blocks }
{
    let block = row.boxes.at_mut(at);
    block.hooks.unmark(i);
}

/// Makes the node at `last`, if it is not null, lead to `next` in list `i`. Returns `first`, or `next` where `last` is
/// null.
pub(crate) fn followed_by<T, H: Hooks>(
    row: &mut Row<T, H>,
    i: usize,
    first: Address,
    last: Address,
    next: Address,
) -> Address
    requires reaches { Reaches last.ptr row.old.boxes.blocks }
    requires within { i < H.count }
    ensures followed { IsFollowedBy (hook_at row.old.boxes.blocks i) last.ptr next first.ptr
        (hook_at row.new.boxes.blocks i) result.ptr }
    ensures rest { KeepsOthers i row.old.boxes.blocks row.new.boxes.blocks }
{
    if last.is_not_null() {
        set_next(row, i, last, next);
        first
    } else {
        next
    }
}

/// Makes the node at `first`, if it is not null, lead back to `prev` in list `i`. Returns `last`, or `prev` where
/// `first` is null.
pub(crate) fn preceded_by<T, H: Hooks>(
    row: &mut Row<T, H>,
    i: usize,
    first: Address,
    last: Address,
    prev: Address,
) -> Address
    requires reaches { Reaches first.ptr row.old.boxes.blocks }
    requires within { i < H.count }
    ensures preceded { IsPrecededBy (hook_at row.old.boxes.blocks i) first.ptr prev last.ptr
        (hook_at row.new.boxes.blocks i) result.ptr }
    ensures rest { KeepsOthers i row.old.boxes.blocks row.new.boxes.blocks }
{
    if first.is_not_null() {
        set_prev(row, i, first, prev);
        last
    } else {
        prev
    }
}
