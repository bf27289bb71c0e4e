//! The iterator over a heap.
ghost use Rattle.std.specs.Prelude.{◌≡◌, length, IfSome, Some, ⊤};
ghost use Rattle.std.specs.Iterator.{YieldsFirstBy, item_count, at_most, UpTo};
ghost use Rattle.std.specs.Iterator.SizeHint.{IsWithinCount};
ghost use Rattle.std.specs.List.Sorted.{IsPermutation};
ghost use Rattle.cordyceps_base.specs.DoubleLines.{flat};
ghost use Rattle.cordyceps_base.specs.Nodes.{entries};
ghost use Rattle.cordyceps_heap.specs.Heap.{settled};

use cordyceps_base::double_lines::Lines;
use cordyceps_base::double_lines::entries::Entries;
use cordyceps_stable::addresses::spot_at;
use cordyceps_stable::stable_list::Spot;
use std::alloc::AllocError;
use std::iter::{ExactSizeIterator, FusedIterator};
use std::marker::Model;

/// An iterator over the elements of a heap, each as its spot and a reference to its value, in no order. A contract sees
/// the spots and values that are left.
///
/// # Complexity
/// A walk over all n elements is O(n).
#[derive(Drop)]
pub struct Iter<'a, T> {
    entries: Entries<'a, T>,
    len: usize,
}

impl<'a, T> Model for Iter<'a, T> {
    ghost use Rattle.std.specs.Prelude.{◌≡◌, List, length};
    ghost use denote.RawPtr.{Ptr};

    ghost Value = { List (Ptr × T) };

    ghost view = { λ i. i.entries };

    ghost invariant = { λ i. i.len ≡ length i.entries };
}

impl<'a, T> Clone for Iter<'a, T> {
    ghost is_clone = { λ i again. again ≡ i };

    ghost is_infallible = { λ _. ⊤ };

    /// Returns a second iterator over the elements that are left. It allocates nothing, and never returns an error.
    ///
    /// # Complexity
    /// O(1).
    fn clone(&self) -> Result<Iter<'a, T>, AllocError> {
        Ok(Iter {
            entries: self.entries.clone()?,
            len: self.len,
        })
    }
}

/// Returns an iterator over the nodes of a table, of which there are `len`.
pub(crate) fn over<T>(lines: &Lines<T>, len: usize) -> Iter<'_, T>
    requires { len ≡ length (flat lines.now) }
    ensures { result ≡ entries (flat lines.now) }
{
    Iter {
        entries: lines.entries(),
        len,
    }
}

impl<'a, T> Iterator for Iter<'a, T> {
    type Item = (Spot, &'a T);

    ghost next_gives = { YieldsFirstBy (λ x. (x.0, x.1.now)) (λ i. i) };

    ghost remaining = { item_count (λ i. i) };

    /// Returns the spot of an element that is left and a reference to its value, or `None` if none is left.
    ///
    /// # Complexity
    /// O(1), amortized over the walk.
    fn next(&mut self) -> Option<(Spot, &'a T)> {
        match self.entries.next() {
            Some((address, value)) => {
                self.len -= 1;
                Some((spot_at(address), value))
            }
            None => None,
        }
    }

    /// Returns the number of elements that are left, as both bounds.
    ///
    /// # Complexity
    /// O(1).
    fn size_hint(&self) -> (usize, Option<usize>)
        ensures lower { IsWithinCount result.0 (at_most (length self.now)) }
        ensures upper { IfSome result.1 (UpTo (at_most (length self.now))) }
        ensures exact { result ≡ (length self.now, Some (length self.now)) }
    {
        (self.len, Some(self.len))
    }
}

impl<'a, T> ExactSizeIterator for Iter<'a, T> {
    /// Returns the number of elements that are left.
    ///
    /// # Complexity
    /// O(1).
    fn len(&self) -> usize {
        let Iter { len, .. } = self;
        *len
    }
}

impl<'a, T> FusedIterator for Iter<'a, T> {}
