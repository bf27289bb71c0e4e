//! Any node leaves a tree.
//!
//! A node that has two children leaves in two steps, each of which leaves a whole tree: the next node, which has no
//! left child, is cut out, and then takes the place of the node that leaves. No value moves, so spots stay valid.
ghost use Rattle.std.specs.Prelude.{◌≡◌, ◌<◌, ◌^◌, length, true};
ghost use Rattle.cordyceps_base.specs.Boxes.{box_addresses};
ghost use Rattle.cordyceps_tree.specs.Rows.{nodes_of, IsTree, IsGone};
ghost use Rattle.cordyceps_tree.specs.Trees.{is_in};

use crate::block::Row;
use crate::cutting::{Departed, cut, replaced};
use crate::rows::hook_of;
use crate::walking::outermost;
use cordyceps_base::boxes::Address;

/// Takes the node at `at` out of the tree, and balances that.
pub(crate) fn removed<T>(row: &mut Row<T>, root: Address, at: Address) -> Departed<T>
    requires tree { IsTree root.ptr row.old.boxes.blocks }
    requires there { is_in at.ptr (box_addresses row.old.boxes.blocks) ≡ true }
    requires few { length (box_addresses row.old.boxes.blocks) < 2 ^ 64 }
    ensures tree { IsTree result.root.ptr row.new.boxes.blocks }
    ensures gone { IsGone (nodes_of row.old.boxes.blocks) at.ptr result.one.boxes.blocks
        (nodes_of row.new.boxes.blocks) }
{
    let hook = hook_of(row, at);
    if hook.left.is_not_null() {
        if hook.right.is_not_null() {
            let next = outermost(row, hook.right, false);
            let Departed { one, root: rest } = cut(row, root, next);
            return replaced(row, rest, at, one, next);
        }
    }
    cut(row, root, at)
}
