//! Iterators over one list of several.
ghost use Rattle.std.specs.Prelude.{◌≡◌, ◌<◌, length, IfSome, Some};
ghost use Rattle.std.specs.Iterator.{YieldsFirstBy, item_count, at_most, UpTo};
ghost use Rattle.std.specs.Iterator.SizeHint.{IsWithinCount};
ghost use Rattle.cordyceps_many.specs.Entries.{entries_at};
ghost use Rattle.cordyceps_many.specs.MultiList.{list_at};

use crate::hooks::Hooks;
use crate::multi_list::MultiList;
use cordyceps_stable::stable_list::Spot;
use std::marker::Model;

/// An iterator over one list of a `MultiList`: the spot of each node, and a reference to its value. A contract sees the
/// spots that are left, each with its value.
///
/// # Complexity
/// Each `next` is O(1).
#[derive(Drop)]
pub struct Iter<'a, T, H: Hooks> {
    lists: &'a MultiList<T, H>,
    list: usize,
    at: Option<Spot>,
    left: usize,
}

impl<'a, T, H: Hooks> Model for Iter<'a, T, H> {
    ghost use Rattle.std.specs.Prelude.{List};
    ghost use denote.RawPtr.{Ptr};
    ghost use Rattle.cordyceps_many.specs.Entries.{entries_at, from_place, KnowsLeft};
    ghost use Rattle.cordyceps_many.specs.MultiList.{list_at};

    ghost Value = { List (Ptr × T) };

    ghost view = { λ i. entries_at i.lists.now.nodes (from_place i.at (list_at i.list i.lists.now.lists)) };

    ghost invariant = { λ i. KnowsLeft H.count i.lists.now i.list i.at i.left };
}

impl<T, H: Hooks> MultiList<T, H> {
    /// Returns an iterator over list `i`, in order: the spot of each node, and a reference to its value.
    ///
    /// # Complexity
    /// O(1), and O(1) for each node.
    pub fn iter(&self, i: usize) -> Iter<'_, T, H>
        requires within { i < H.count }
        ensures { result ≡ entries_at self.now.nodes (list_at i self.now.lists) }
    {
        // for the proof: each spot of a list is that of a node
        self.lists_agree();
        let at = self.front(i);
        Iter {
            lists: self,
            list: i,
            at,
            left: self.len(i),
        }
    }
}

impl<'a, T, H: Hooks> Iterator for Iter<'a, T, H> {
    type Item = (Spot, &'a T);

    ghost next_gives = { YieldsFirstBy (λ x. (x.0, x.1.now)) (λ s. s) };

    ghost remaining = { item_count (λ s. s) };

    /// Returns the first spot that is left and a reference to its value, or `None` if none is left.
    ///
    /// # Complexity
    /// O(1).
    fn next(&mut self) -> Option<(Spot, &'a T)> {
        let Some(at) = self.at else {
            return None;
        };
        let lists = self.lists;
        // for the proof: no two nodes are at one spot, and no list has one twice
        lists.lists_agree();
        let value = lists.get(at);
        self.at = lists.next(self.list, at);
        self.left -= 1;
        Some((at, value))
    }

    /// Returns the number of nodes that are left, as both bounds.
    ///
    /// # Complexity
    /// O(1).
    fn size_hint(&self) -> (usize, Option<usize>)
        ensures lower { IsWithinCount result.0 (at_most (length self.now)) }
        ensures upper { IfSome result.1 (UpTo (at_most (length self.now))) }
        ensures exact { result ≡ (length self.now, Some (length self.now)) }
    {
        (self.left, Some(self.left))
    }
}
