//! What keeps a tree balanced where a subtree got higher or lower by one.
//!
//! A climb from the place up balances each node on the way, and ends where a subtree keeps its height. A tree that got
//! a node and one that lost a node are balanced by the same climb.
ghost use Rattle.std.specs.Prelude.{◌≡◌, ◌<◌, ◌^◌, length};
ghost use Rattle.std.specs.Bool.{MatchBool};
ghost use denote.RawPtr.{InBlock};
ghost use Rattle.cordyceps_base.specs.Boxes.{box_addresses};
ghost use Rattle.cordyceps_base.specs.Spots.{AreDistinct, AreNullComparable};
ghost use Rattle.cordyceps_tree.specs.Rows.{hook_at, KeepsNodes};
ghost use Rattle.cordyceps_tree.specs.Trees.{Reaches, IsHung, IsSettled, IsUnsettled, climb};

use crate::block::Row;
use crate::hook::Hook;
use crate::rows::{height_of, hook_of, set_hook};
use crate::turning::mended;
use cordyceps_base::boxes::Address;

/// Makes the node at `up` lead to `at` on a side. Where `up` is null, `at` is the root. Returns the root.
pub(crate) fn hung<T>(
    row: &mut Row<T>,
    up: Address,
    side: bool,
    at: Address,
    root: Address,
) -> Address
    requires { Reaches up.ptr (box_addresses row.old.boxes.blocks) }
    ensures hung { IsHung (hook_at row.old.boxes.blocks) up.ptr side at root (hook_at row.new.boxes.blocks) result }
    ensures rest { KeepsNodes row.old.boxes.blocks row.new.boxes.blocks }
{
    if up.is_not_null() {
        let hook = hook_of(row, up);
        let next = hook.with_kid(side, at);
        set_hook(row, up, next);
        return root;
    }
    at
}

/// What one step up of a climb came to.
#[derive(Clone, Copy)]
pub(crate) struct StepUp {
    root: Address,
    up: Address,
    is_done: bool,
}

/// Balances the subtree at `at`, and goes up. The tree is balanced if its height stayed.
fn raised<T>(row: &mut Row<T>, at: Address, root: Address) -> StepUp
    requires tree { IsUnsettled (hook_at row.old.boxes.blocks) (box_addresses row.old.boxes.blocks) root.ptr at.ptr }
    requires some { InBlock at.ptr }
    requires distinct { AreDistinct (box_addresses row.old.boxes.blocks) }
    requires comparable { AreNullComparable (box_addresses row.old.boxes.blocks) }
    requires few { length (box_addresses row.old.boxes.blocks) < 2 ^ 64 }
    ensures tree { MatchBool result.is_done
        (IsSettled (hook_at row.new.boxes.blocks) (box_addresses row.old.boxes.blocks) result.root.ptr)
        (IsUnsettled (hook_at row.new.boxes.blocks) (box_addresses row.old.boxes.blocks) result.root.ptr
        result.up.ptr) }
    ensures nearer { climb (hook_at row.new.boxes.blocks) (length (box_addresses row.old.boxes.blocks)) result.up.ptr
        < climb (hook_at row.old.boxes.blocks) (length (box_addresses row.old.boxes.blocks)) at.ptr }
    ensures rest { KeepsNodes row.old.boxes.blocks row.new.boxes.blocks }
{
    let Hook {
        up,
        side,
        height,
        ..
    } = hook_of(row, at);
    let top = mended(row, at);
    let root = hung(row, up, side, top, root);
    let now = height_of(row, top);
    StepUp {
        root,
        up,
        is_done: now == height,
    }
}

/// Balances the tree from the node at `from` on up, of which one subtree has changed its height by one at most. Returns
/// the root.
pub(crate) fn settled<T>(row: &mut Row<T>, from: Address, root: Address) -> Address
    requires tree { IsUnsettled (hook_at row.old.boxes.blocks) (box_addresses row.old.boxes.blocks) root.ptr from.ptr }
    requires distinct { AreDistinct (box_addresses row.old.boxes.blocks) }
    requires comparable { AreNullComparable (box_addresses row.old.boxes.blocks) }
    requires few { length (box_addresses row.old.boxes.blocks) < 2 ^ 64 }
    ensures tree { IsSettled (hook_at row.new.boxes.blocks) (box_addresses row.old.boxes.blocks) result.ptr }
    ensures rest { KeepsNodes row.old.boxes.blocks row.new.boxes.blocks }
{
    let mut at = from;
    let mut root = root;
    while at.is_not_null() {
        let step = raised(row, at, root);
        root = step.root;
        if step.is_done {
            return root;
        }
        at = step.up;
    }
    root
}
