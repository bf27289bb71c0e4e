//! A node comes to a place of a tree.
ghost use Rattle.std.specs.Prelude.{◌≡◌, ◌<◌, ◌^◌, [], ◌∷◌, ◌++◌, suc, length, List};
ghost use denote.RawPtr.{Ptr};
ghost use Rattle.cordyceps_base.specs.Boxes.{box_addresses};
ghost use Rattle.cordyceps_base.specs.Element.{Element};
ghost use Rattle.cordyceps_base.specs.Spots.{AreDistinct, AreNullComparable};
ghost use Rattle.cordyceps_tree.specs.Rows.{hook_at, nodes_of, IsTree, IsJoined, IsPutAt};
ghost use Rattle.cordyceps_tree.specs.Trees.{IsGap, IsBeside, before, after};

use crate::alone::Alone;
use crate::block::{Block, Row};
use crate::finding::Place;
use crate::hook::Hook;
use crate::rows::set_hook;
use crate::settle::{hung, settled};
use cordyceps_base::boxes::homes::Home;
use cordyceps_base::boxes::{Address, Boxes};
use std::mem;

/// Parts nodes where the one at `up` stands on a side of the place.
fn parted<T>(
    boxes: Boxes<Block<T>, Home>,
    up: Address,
    side: bool,
) -> (Boxes<Block<T>, Home>, Boxes<Block<T>, Home>)
    ensures { (a b : List Ptr) → IsBeside up.ptr side a b → box_addresses boxes.blocks ≡ a ++ b
        → AreDistinct (box_addresses boxes.blocks)
        → (box_addresses result.0.blocks ≡ a) × (box_addresses result.1.blocks ≡ b)
        × (boxes.blocks ≡ result.0.blocks ++ result.1.blocks) }
{
    let (front, back) = boxes.cut_at(up);
    if side {
        let (same, rest) = back.cut(1);
        return (front.join(same), rest);
    }
    (front, back)
}

/// Adds a node to the row where the one at `up` stands on a side of the place.
fn joined<T>(row: &mut Row<T>, up: Address, side: bool, one: Alone<T>)
    requires distinct { AreDistinct (box_addresses row.old.boxes.blocks) }
    ensures joined { (e : Element T) (a b : List Ptr) → nodes_of one.row.boxes.blocks ≡ (one.at.ptr, e) ∷ []
        → IsBeside up.ptr side a b → box_addresses row.old.boxes.blocks ≡ a ++ b
        → IsJoined row.old.boxes.blocks a b one.at.ptr e row.new.boxes.blocks }
    ensures distinct { AreDistinct (box_addresses row.new.boxes.blocks) }
    ensures comparable { AreNullComparable (box_addresses row.new.boxes.blocks) }
{
    let Alone { at: _, row: more } = one;
    let Row { boxes: put } = more;
    let boxes = mem::replace(&mut row.boxes, Boxes::empty());
    let (front, back) = parted(boxes, up, side);
    let all = front.join(put).join(back).distinct().null_comparable();
    let none = mem::replace(&mut row.boxes, all);
    none.discard();
}

/// Puts a node in at a place that has none, and balances the tree. Returns the root.
pub(crate) fn put_in<T>(row: &mut Row<T>, root: Address, place: Place, one: Alone<T>) -> Address
    requires gap { IsGap (hook_at row.old.boxes.blocks) (box_addresses row.old.boxes.blocks) root.ptr place.up.ptr
        place.side }
    requires distinct { AreDistinct (box_addresses row.old.boxes.blocks) }
    requires comparable { AreNullComparable (box_addresses row.old.boxes.blocks) }
    requires few { suc (length (box_addresses row.old.boxes.blocks)) < 2 ^ 64 }
    requires alone { (e : Element T) × (nodes_of one.row.boxes.blocks ≡ (one.at.ptr, e) ∷ []) }
    ensures tree { IsTree result.ptr row.new.boxes.blocks }
    ensures nodes { (e : Element T) (gap : IsGap (hook_at row.old.boxes.blocks) (box_addresses row.old.boxes.blocks)
        root.ptr place.up.ptr place.side) → nodes_of one.row.boxes.blocks ≡ (one.at.ptr, e) ∷ []
        → IsPutAt (nodes_of row.old.boxes.blocks) (before gap.steps) (after gap.steps) one.at.ptr e
        (nodes_of row.new.boxes.blocks) }
{
    let Place { up, side, .. } = place;
    let at = one.at;
    joined(row, up, side, one);
    let hook = Hook {
        left: Address::null(),
        right: Address::null(),
        up,
        height: 1,
        side,
    };
    set_hook(row, at, hook);
    let root = hung(row, up, side, at, root);
    settled(row, up, root)
}
