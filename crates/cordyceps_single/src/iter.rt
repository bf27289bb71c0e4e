//! The iterator over a sorted list.
ghost use Rattle.std.specs.Prelude.{◌≡◌, ⊤};
ghost use Rattle.std.specs.Iterator.{YieldsFirstRef, item_count};
ghost use Rattle.cordyceps_base.specs.Element.{values};
ghost use Rattle.cordyceps_base.specs.Nodes.{elements};

use cordyceps_base::single_chain::{SingleChain, Values};
use cordyceps_base::stack::Links;
use std::alloc::AllocError;
use std::marker::Model;

/// An iterator over the values of a sorted list, from the first to the last. A contract sees the values that are left.
///
/// When it has returned `None` once, it returns `None` from then on.
///
/// # Complexity
/// Each `next` is O(1).
#[derive(Drop)]
pub struct SortedListIter<'a, T> {
    values: Values<'a, T>,
}

impl<'a, T> Model for SortedListIter<'a, T> {
    ghost use Rattle.std.specs.Prelude.{List};

    ghost Value = { List T };

    ghost view = { λ i. i.values };
}

impl<'a, T> Clone for SortedListIter<'a, T> {
    ghost is_clone = { λ i again. again ≡ i };

    ghost is_infallible = { λ _. ⊤ };

    /// Returns a second iterator over the values that are left. It allocates nothing, and never returns an error.
    ///
    /// # Complexity
    /// O(1).
    fn clone(&self) -> Result<SortedListIter<'a, T>, AllocError> {
        Ok(SortedListIter {
            values: self.values.clone()?,
        })
    }
}

impl<'a, T> SortedListIter<'a, T> {
    /// Creates an iterator over the values of a chain.
    pub(crate) fn new(chain: &'a SingleChain<T, Links<T>>) -> SortedListIter<'a, T>
        ensures { result ≡ values (elements chain.now) }
    {
        SortedListIter {
            values: chain.values(),
        }
    }
}

impl<'a, T> Iterator for SortedListIter<'a, T> {
    type Item = &'a T;

    ghost next_gives = { YieldsFirstRef (λ i. i) };

    ghost remaining = { item_count (λ i. i) };

    /// Returns a reference to the first value that is left, or `None` if none is.
    ///
    /// # Complexity
    /// O(1).
    fn next(&mut self) -> Option<&'a T> {
        self.values.next()
    }
}
