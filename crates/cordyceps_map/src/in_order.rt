//! Nodes that are linked where an order of their values puts them.
//!
//! The order is one of the values, since a caller of a map cannot name its entries. Clauses speak of `valued`, the
//! nodes with their values alone.
ghost use Rattle.std.specs.Prelude.{◌≡◌, ◌<◌, length, true, false, refl};
ghost use Rattle.std.specs.declared.cmp.Ordering.{Ordering};
ghost use Rattle.std.proofs.Common.{subst, sym};
ghost use denote.RawPtr.{Ptr};
ghost use Rattle.cordyceps_base.specs.BySpot.{HasSpot};
ghost use Rattle.cordyceps_many.specs.InOrder.{IsInOrder, IsPutInOrder};
ghost use Rattle.cordyceps_many.specs.MultiList.{list_at};
ghost use Rattle.cordyceps_many.specs.Threads.{is_in};
ghost use Rattle.cordyceps_map.specs.Orders.{ComparesByValue, preorder_on};
ghost use Rattle.cordyceps_map.specs.StableMap.{valued, OthersStay};
ghost use Rattle.cordyceps_single.specs.ByKey.{by_key};
ghost use Rattle.cordyceps_single.specs.Preorder.{IsPreorder};

use crate::entry::Entry;
use crate::stable_map::StableMap;
use cordyceps_many::hooks::Hooks;
use cordyceps_single::sorted_list::Order;
use cordyceps_stable::stable_list::Spot;
use std::cmp::Ordering;
use std::hash::{BuildHasher, Hash};

/// The order of entries by their values.
#[derive(Clone, Copy)]
struct ByValue<'a, O> {
    order: &'a O,
}

impl<'a, K, V, O: Order<V>> Order<Entry<K, V>> for ByValue<'a, O> {
    ghost compares_by = { λ o cmp. ComparesByValue O.compares_by o.order.now cmp };

    ghost can_compare = { λ o. O.can_compare o.order.now };

    ghost computes = { λ o asked. let (cmp, is) = O.computes o.order.now asked in
        (by_key cmp (λ e. e.value), record { values = cmp; by = is; compares = refl }) };

    ghost lawful = { λ o _ by. subst IsPreorder (sym by.compares)
        (preorder_on (O.lawful o.order.now by.values by.by) (λ e. e.value)) };

    /// Compares the values of two entries.
    fn compare(&self, first: &Entry<K, V>, second: &Entry<K, V>) -> Ordering {
        self.order.compare(&first.value, &second.value)
    }
}

impl<K: Eq + Hash, V, H: Hooks, S: BuildHasher> StableMap<K, V, H, S> {
    /// Links the node at `at` in list `i`, by an order of the values, after the last node that is not greater, so after
    /// its equals, or at the front if all are greater. A list that was in order is in order afterwards. Requires that
    /// `at` is valid, and that the node is not in the list. If the order is a function of the caller's, it requires as
    /// well that the function can be called and is a total preorder.
    ///
    /// # Complexity
    /// O(k + 1), where k is the number of nodes of list `i` that are greater, and so O(1) if none is: it compares with
    /// each node from the last towards the first, up to and with the one that it goes after. In a list that is not in
    /// order, k is the number of nodes behind the last one that is not greater.
    pub fn link_in_order<O: Order<V>>(&mut self, i: usize, at: Spot, order: &O)
        requires within { i < H.count }
        requires there { HasSpot self.old.nodes at }
        requires not_in { is_in at (list_at i self.old.lists) ≡ false }
        requires order { O.can_compare order.now }
        ensures nodes { self.new.nodes ≡ self.old.nodes }
        ensures list { IsPutInOrder (O.compares_by order.now) (valued self.old.nodes) at (list_at i self.old.lists)
            (list_at i self.new.lists) }
        ensures in_order { (cmp : V → V → Ordering)
            → O.compares_by order.now cmp
            → IsInOrder cmp (valued self.old.nodes) (list_at i self.old.lists)
            → IsInOrder cmp (valued self.new.nodes) (list_at i self.new.lists) }
        ensures others { OthersStay i self.old self.new }
        ensures in_list { is_in at (list_at i self.new.lists) ≡ true }
        ensures kept { (p : Ptr) → HasSpot self.old.nodes p → HasSpot self.new.nodes p }
    {
        self.nodes.link_in_order(i, at, &ByValue { order });
    }
}
