//! Iterators over the nodes of a map whose keys are in a range.
ghost use Rattle.std.specs.Prelude.{◌≡◌, ◌<◌, length, IfSome, Some, MatchOption};
ghost use Rattle.std.specs.Iterator.{YieldsFirstBy, item_count, at_most, UpTo};
ghost use Rattle.std.specs.Iterator.SizeHint.{IsWithinCount};
ghost use Rattle.cordyceps_base.specs.BySpot.{HasSpot};
ghost use Rattle.cordyceps_tree.specs.TreeMaps.{until};
ghost use Rattle.cordyceps_tree.specs.Walks.{walk_from};

use crate::rooted::Rooted;
use cordyceps_stable::stable_list::Spot;
use std::iter::FusedIterator;
use std::marker::Model;

/// An iterator over the nodes of a map from one on whose keys are less than a key, in order: the spot of each, and a
/// reference to its key and value. A contract sees the spots that are left, each with its key and value.
///
/// No two addresses are compared, so the key that ends the range is: once for each node, and once more.
///
/// # Complexity
/// Each `next` is O(log n), and O(1) on average over a walk, with one comparison.
#[derive(Drop)]
pub struct Range<'a, K: Ord, V> {
    tree: &'a Rooted<(K, V)>,
    at: Option<Spot>,
    high: &'a K,
}

impl<'a, K: Ord, V> Model for Range<'a, K, V> {
    ghost use Rattle.std.specs.Prelude.{List, IfSome};
    ghost use denote.RawPtr.{Ptr};
    ghost use Rattle.cordyceps_base.specs.BySpot.{HasSpot};
    ghost use Rattle.cordyceps_tree.specs.TreeMaps.{until};
    ghost use Rattle.cordyceps_tree.specs.Walks.{walk_from};

    ghost Value = { List (Ptr × (K × V)) };

    ghost view = { λ r. until K.cmp r.high.now (walk_from r.tree.now r.at) };

    ghost invariant = { λ r. IfSome r.at (λ p. HasSpot r.tree.now p) };
}

/// Returns an iterator over the nodes of a tree from a place on, up to a key.
pub(crate) fn from<'a, K: Ord, V>(
    tree: &'a Rooted<(K, V)>,
    at: Option<Spot>,
    high: &'a K,
) -> Range<'a, K, V>
    requires { IfSome at (λ p. HasSpot tree.now p) }
    ensures { result ≡ until K.cmp high.now (walk_from tree.now at) }
{
    Range { tree, at, high }
}

impl<'a, K: Ord, V> Iterator for Range<'a, K, V> {
    type Item = (Spot, &'a (K, V));

    ghost next_gives = { YieldsFirstBy (λ x. (x.0, x.1.now)) (λ r. r) };

    ghost remaining = { item_count (λ r. r) };

    /// Returns the first spot that is left and a reference to its key and value, or `None` if none is left.
    ///
    /// # Complexity
    /// O(log n), and O(1) on average over a walk, with one comparison.
    fn next(&mut self) -> Option<(Spot, &'a (K, V))> {
        let Some(at) = self.at else {
            return None;
        };
        let tree = self.tree;
        // for the proof: no two nodes are at one spot
        tree.spots_are_distinct();
        let pair = tree.get(at);
        let is_below = pair.0.cmp(self.high).is_lt();
        if is_below {
            self.at = tree.next(at);
            return Some((at, pair));
        }
        self.at = None;
        None
    }

    /// Returns 0 and the number of nodes of the map, between which is that of those that are left.
    ///
    /// # Complexity
    /// O(1).
    fn size_hint(&self) -> (usize, Option<usize>)
        ensures lower { IsWithinCount result.0 (at_most (length self.now)) }
        ensures upper { IfSome result.1 (UpTo (at_most (length self.now))) }
    {
        (0, Some(self.tree.len()))
    }
}

impl<'a, K: Ord, V> FusedIterator for Range<'a, K, V> {}
