//! A node on its way into a tree or out of it.
ghost use Rattle.std.specs.Prelude.{◌≡◌, [], ◌∷◌};
ghost use Rattle.std.specs.Fn.{FnOnceReturnsAtMut};
ghost use Rattle.cordyceps_base.specs.Element.{Element};
ghost use Rattle.cordyceps_tree.specs.Rows.{nodes_of};

use crate::block::Row;
use crate::node::TreeNode;
use cordyceps_base::boxes::homes::Home;
use cordyceps_base::boxes::{Address, Boxes, RawBox};

/// A node as a row of its own, with its address, which it keeps.
pub(crate) struct Alone<T> {
    pub(crate) at: Address,
    pub(crate) row: Row<T>,
}

impl<T: Drop> Alone<T> {
    /// Keeps a node as a row.
    pub(crate) fn new(node: TreeNode<T>) -> Alone<T>
        ensures { nodes_of result.row.boxes.blocks ≡ (result.at.ptr, node) ∷ [] }
    {
        let (at, _, boxes) = Boxes::one(RawBox::from_box(node.into_block()));
        Alone {
            at,
            row: Row { boxes },
        }
    }

    /// Returns the node.
    pub(crate) fn into_node(self) -> TreeNode<T>
        requires { (e : Element T) × (nodes_of self.row.boxes.blocks ≡ (self.at.ptr, e) ∷ []) }
        ensures { nodes_of self.row.boxes.blocks ≡ (self.at.ptr, result) ∷ [] }
    {
        let Alone { at, row } = self;
        let Row { boxes } = row;
        let block = boxes.only(at, Home).into_box();
        TreeNode { block }
    }
}

impl<T> Alone<T> {
    /// Returns a reference to the value.
    pub(crate) fn value(&self) -> &T
        requires { (e : Element T) × (nodes_of self.now.row.boxes.blocks ≡ (self.now.at.ptr, e) ∷ []) }
        ensures { (e : Element T) → nodes_of self.now.row.boxes.blocks ≡ (self.now.at.ptr, e) ∷ []
            → result.now ≡ e.value }
    {
        &self.row.boxes.get(self.at, 0).value
    }

    /// Calls a function on the value, which it may change, and returns its result.
    pub(crate) fn change<R, F: FnOnce(&mut T) -> R>(&mut self, change: F) -> R
        requires alone { (e : Element T) × (nodes_of self.old.row.boxes.blocks ≡ (self.old.at.ptr, e) ∷ []) }
        requires callable { (e : Element T) → nodes_of self.old.row.boxes.blocks ≡ (self.old.at.ptr, e) ∷ []
            → (lent : _) → lent.now ≡ e.value → F.pre change lent }
        ensures at { self.new.at ≡ self.old.at }
        ensures changed { (e : Element T) → nodes_of self.old.row.boxes.blocks ≡ (self.old.at.ptr, e) ∷ []
            → (w : T) × (nodes_of self.new.row.boxes.blocks
            ≡ (self.old.at.ptr, record { id = e.id; value = w }) ∷ [])
            × FnOnceReturnsAtMut F.FnOnce change e.value result w }
    {
        let block = self.row.boxes.get_mut(self.at, 0);
        change(&mut block.value)
    }
}
