//! Nodes that are linked where an order of their values puts them.
//!
//! `link_in_order` walks from the back, which is O(1) where elements come nearly in order, as deadlines do that are
//! equally far away. No list of a `MultiList` is a heap. A heap over the same hooks would need no third link: a
//! `StableHeap` has two. But its lines are changed by functions of `cordyceps_base` that read one pair of links in a
//! node, and each of these would be proved anew for hooks. A caller that needs a heap keeps the spot in a `StableHeap`
//! of its own.
ghost use Rattle.std.specs.Prelude.{◌≡◌, ◌<◌, length, IfSome, true, false};
ghost use Rattle.std.specs.declared.cmp.Ordering.{Ordering};
ghost use denote.RawPtr.{Ptr};
ghost use Rattle.cordyceps_base.specs.BySpot.{HasSpot};
ghost use Rattle.cordyceps_many.specs.InOrder.{IsAtMostAt, IsInOrder, IsPutInOrder, AreGreaterAfter};
ghost use Rattle.cordyceps_many.specs.MultiList.{list_at, SameBut};
ghost use Rattle.cordyceps_many.specs.Threads.{is_in};

use crate::hooks::Hooks;
use crate::multi_list::MultiList;
use cordyceps_single::sorted_list::Order;
use cordyceps_stable::stable_list::Spot;

impl<T, H: Hooks> MultiList<T, H> {
    /// Links the node at `at` in list `i` after the last node that is not greater, so after its equals, or at the front
    /// if all are greater. A list that was in order is in order afterwards. Requires that `at` is valid, and that the
    /// node is not in the list. If the order is a function of the caller's, it requires as well that the function can be
    /// called and is a total preorder.
    ///
    /// # Complexity
    /// O(k + 1), where k is the number of nodes of list `i` that are greater, and so O(1) if none is: it compares with
    /// each node from the last towards the first, up to and with the one that it goes after. In a list that is not in
    /// order, k is the number of nodes behind the last one that is not greater.
    pub fn link_in_order<O: Order<T>>(&mut self, i: usize, at: Spot, order: &O)
        requires within { i < H.count }
        requires there { HasSpot self.old.nodes at }
        requires not_in { is_in at (list_at i self.old.lists) ≡ false }
        requires order { O.can_compare order.now }
        ensures nodes { self.new.nodes ≡ self.old.nodes }
        ensures list { IsPutInOrder (O.compares_by order.now) self.old.nodes at (list_at i self.old.lists)
            (list_at i self.new.lists) }
        ensures in_order { (cmp : T → T → Ordering)
            → O.compares_by order.now cmp
            → IsInOrder cmp self.old.nodes (list_at i self.old.lists)
            → IsInOrder cmp self.new.nodes (list_at i self.new.lists) }
        ensures others { SameBut i self.old.lists self.new.lists }
        ensures in_list { is_in at (list_at i self.new.lists) ≡ true }
        ensures kept { (p : Ptr) → HasSpot self.old.nodes p → HasSpot self.new.nodes p }
    {
        // for the proof: no list has a spot twice
        self.lists_agree();
        match self.last_not_greater(i, at, order) {
            Some(other) => self.link_after(i, at, other),
            None => self.link_front(i, at),
        }
    }

    /// Returns the spot of the last node of list `i` that is not greater than the node at `at`, or `None` if all are
    /// greater.
    fn last_not_greater<O: Order<T>>(&self, i: usize, at: Spot, order: &O) -> Option<Spot>
        requires within { i < H.count }
        requires there { HasSpot self.now.nodes at }
        requires order { O.can_compare order.now }
        ensures after { AreGreaterAfter (O.compares_by order.now) self.now.nodes at (list_at i self.now.lists) result }
        ensures found { (cmp : T → T → Ordering)
            → O.compares_by order.now cmp
            → IfSome result (λ q. IsAtMostAt cmp self.now.nodes q at) }
        ensures in_list { IfSome result (λ q. is_in q (list_at i self.now.lists) ≡ true) }
    {
        // for the proof: no two nodes are at one spot, and no list has one twice
        self.lists_agree();
        let value = self.get(at);
        let mut place = self.back(i);
        while let Some(other) = place {
            if !order.compare(self.get(other), value).is_gt() {
                return Some(other);
            }
            place = self.prev(i, other);
        }
        None
    }
}
