//! Iterators over a tree.
ghost use Rattle.std.specs.Prelude.{◌≡◌, ◌<◌, length, IfSome, Some, MatchOption};
ghost use Rattle.std.specs.Iterator.{YieldsFirstBy, item_count, at_most, UpTo};
ghost use Rattle.std.specs.Iterator.SizeHint.{IsWithinCount};
ghost use Rattle.cordyceps_base.specs.BySpot.{HasSpot};
ghost use Rattle.cordyceps_base.specs.Nodes.{Nodes, entries};
ghost use Rattle.cordyceps_tree.specs.Walks.{walk_from};

use crate::rooted::Rooted;
use cordyceps_stable::stable_list::Spot;
use std::iter::FusedIterator;
use std::marker::Model;

/// An iterator over the elements of a tree from one on, in order: the spot of each, and a reference to its value. A
/// contract sees the spots that are left, each with its value.
///
/// # Complexity
/// Each `next` is O(log n), and O(1) on average over a walk.
#[derive(Drop)]
pub struct Iter<'a, T> {
    tree: &'a Rooted<T>,
    at: Option<Spot>,
}

impl<'a, T> Model for Iter<'a, T> {
    ghost use Rattle.std.specs.Prelude.{List, IfSome};
    ghost use denote.RawPtr.{Ptr};
    ghost use Rattle.cordyceps_base.specs.BySpot.{HasSpot};
    ghost use Rattle.cordyceps_tree.specs.Walks.{walk_from};

    ghost Value = { List (Ptr × T) };

    ghost view = { λ i. walk_from i.tree.now i.at };

    ghost invariant = { λ i. IfSome i.at (λ p. HasSpot i.tree.now p) };
}

/// Returns an iterator over the nodes of a tree from a place on.
pub(crate) fn from<T>(tree: &Rooted<T>, at: Option<Spot>) -> Iter<'_, T>
    requires { IfSome at (λ p. HasSpot tree.now p) }
    ensures { result ≡ walk_from tree.now at }
{
    Iter { tree, at }
}

impl<'a, T> Iterator for Iter<'a, T> {
    type Item = (Spot, &'a T);

    ghost next_gives = { YieldsFirstBy (λ x. (x.0, x.1.now)) (λ i. i) };

    ghost remaining = { item_count (λ i. i) };

    /// Returns the first spot that is left and a reference to its value, or `None` if none is left.
    ///
    /// # Complexity
    /// O(log n), and O(1) on average over a walk.
    fn next(&mut self) -> Option<(Spot, &'a T)> {
        let Some(at) = self.at else {
            return None;
        };
        let tree = self.tree;
        // for the proof: no two nodes are at one spot
        tree.spots_are_distinct();
        let value = tree.get(at);
        self.at = tree.next(at);
        Some((at, value))
    }

    /// Returns 0 and the number of elements of the tree, between which is that of those that are left.
    ///
    /// # Complexity
    /// O(1).
    fn size_hint(&self) -> (usize, Option<usize>)
        ensures lower { IsWithinCount result.0 (at_most (length self.now)) }
        ensures upper { IfSome result.1 (UpTo (at_most (length self.now))) }
    {
        (0, Some(self.tree.len()))
    }
}

impl<'a, T> FusedIterator for Iter<'a, T> {}
