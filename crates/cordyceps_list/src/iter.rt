//! Iterators over a list.
ghost use Rattle.std.specs.Prelude.{◌≡◌, ◌+◌, ◌-◌, ◌<◌, length, IfSome, Some, ⊤};
ghost use Rattle.std.specs.Iterator.{YieldsFirstRef, YieldsLastRef, YieldsFirstBy, YieldsLastBy, item_count, at_most, UpTo};
ghost use Rattle.std.specs.Iterator.SizeHint.{IsWithinCount};
ghost use Rattle.cordyceps_base.specs.Element.{values};
ghost use Rattle.cordyceps_base.specs.Nodes.{elements};

use crate::list::{Links, List};
use cordyceps_base::boxes::Address;
use cordyceps_base::double_chain::DoubleChain;
use cordyceps_base::linked::Linked;
use std::alloc::AllocError;
use std::iter::{DoubleEndedIterator, ExactSizeIterator, FusedIterator};
use std::marker::Model;

/// An iterator over the values of a list, from both ends. A contract sees the values that are left.
///
/// # Complexity
/// Each `next` and each `next_back` is O(1).
///
/// # Examples
/// From `replay::walks::look` of `cordyceps_tables`:
/// ```
/// match turn {
///     Turn::Next => items.next().copied(),
///     Turn::NextBack => items.next_back().copied(),
/// }
/// ```
#[derive(Drop)]
pub struct Iter<'a, T> {
    chain: &'a DoubleChain<T>,
    first: Address,
    last: Address,
    front: usize,
    back: usize,
}

impl<'a, T> Model for Iter<'a, T> {
    ghost use Rattle.std.specs.Prelude.{List, ◌-◌, take, drop};
    ghost use Rattle.cordyceps_base.specs.Element.{values};
    ghost use Rattle.cordyceps_base.specs.Nodes.{elements};
    ghost use Rattle.cordyceps_list.specs.Left.{KnowsEnds};

    ghost Value = { List T };

    ghost view = { λ i. values (take (i.back - i.front) (drop i.front (elements i.chain.now))) };

    ghost invariant = { λ i. KnowsEnds i.chain.now i.first i.last i.front i.back };
}

impl<'a, T> Clone for Iter<'a, T> {
    ghost is_clone = { λ i again. again ≡ i };

    ghost is_infallible = { λ _. ⊤ };

    /// Returns a second iterator over the values that are left. It allocates nothing, and never returns an error.
    ///
    /// # Complexity
    /// O(1).
    fn clone(&self) -> Result<Iter<'a, T>, AllocError> {
        Ok(Iter {
            chain: self.chain,
            first: self.first,
            last: self.last,
            front: self.front,
            back: self.back,
        })
    }
}

/// Returns an iterator over the values of a chain, in order, for a collection that keeps its nodes in one.
///
/// # Complexity
/// O(1).
pub fn over<T>(chain: &DoubleChain<T>) -> Iter<'_, T>
    ensures { result ≡ values (elements chain.now) }
{
    let back = chain.len();
    let (first, last) = if back == 0 {
        (Address::null(), Address::null())
    } else {
        (chain.head(), chain.tail())
    };
    Iter {
        chain,
        first,
        last,
        front: 0,
        back,
    }
}

impl<T: Linked<Links<T>>> List<T> {
    /// Returns an iterator over the values, in order.
    ///
    /// # Complexity
    /// O(1), and O(1) for each value.
    pub fn iter(&self) -> Iter<'_, T>
        ensures { result ≡ values self.now }
    {
        over(&self.chain)
    }
}

impl<'a, T: Linked<Links<T>>> Iterator for Iter<'a, T> {
    type Item = &'a T;

    ghost next_gives = { YieldsFirstRef (λ s. s) };

    ghost remaining = { item_count (λ s. s) };

    /// Returns a reference to the first value that is left, or `None` if none is.
    ///
    /// # Complexity
    /// O(1).
    fn next(&mut self) -> Option<&'a T> {
        if self.front == self.back {
            return None;
        }
        let chain = self.chain;
        let item = chain.get(self.first, self.front);
        self.first = chain.next(self.first, self.front);
        self.front += 1;
        Some(item)
    }

    /// Returns the number of values that are left, as both bounds.
    ///
    /// # Complexity
    /// O(1).
    fn size_hint(&self) -> (usize, Option<usize>)
        ensures lower { IsWithinCount result.0 (at_most (length self.now)) }
        ensures upper { IfSome result.1 (UpTo (at_most (length self.now))) }
        ensures exact { result ≡ (length self.now, Some (length self.now)) }
    {
        let len = self.back - self.front;
        (len, Some(len))
    }
}

impl<'a, T: Linked<Links<T>>> DoubleEndedIterator for Iter<'a, T> {
    ghost next_back_gives = { YieldsLastRef (λ s. s) };

    /// Returns a reference to the last value that is left, or `None` if none is.
    ///
    /// # Complexity
    /// O(1).
    fn next_back(&mut self) -> Option<&'a T> {
        if self.front == self.back {
            return None;
        }
        let chain = self.chain;
        let index = self.back - 1;
        let item = chain.get(self.last, index);
        self.last = chain.prev(self.last, index);
        self.back = index;
        Some(item)
    }
}

impl<'a, T: Linked<Links<T>>> ExactSizeIterator for Iter<'a, T> {
    /// Returns the number of values that are left.
    ///
    /// # Complexity
    /// O(1).
    fn len(&self) -> usize {
        self.back - self.front
    }
}

impl<'a, T: Linked<Links<T>>> FusedIterator for Iter<'a, T> {}

impl<'a, T: Linked<Links<T>>> IntoIterator for &'a List<T> {
    type Item = &'a T;

    type IntoIter = Iter<'a, T>;

    ghost into_iter_gives = { λ l r. r ≡ values l.now };

    /// Returns an iterator over the values, as `iter` does.
    ///
    /// # Complexity
    /// O(1), and O(1) for each value.
    fn into_iter(self) -> Iter<'a, T> {
        self.iter()
    }
}

/// An iterator that owns a list and returns its elements, from both ends. A contract sees the elements that are left.
/// Dropping it frees these.
///
/// # Complexity
/// Each `next` and each `next_back` is O(1). Dropping is O(n), for n elements that are left.
///
/// # Examples
/// From `replay::walks::take` of `cordyceps_tables`:
/// ```
/// match turn {
///     Turn::Next => items.next().map(Node::into_value),
///     Turn::NextBack => items.next_back().map(Node::into_value),
/// }
/// ```
#[derive(Drop)]
pub struct IntoIter<T> {
    list: List<T>,
}

impl<T> Model for IntoIter<T> {
    ghost use Rattle.cordyceps_base.specs.Element.{Elements};

    ghost Value = { Elements T };

    ghost view = { λ i. i.list };
}

impl<T: Linked<Links<T>>> IntoIterator for List<T> {
    type Item = T::Handle;

    type IntoIter = IntoIter<T>;

    ghost into_iter_gives = { λ l r. r ≡ l };

    /// Converts the list into an iterator over its elements, in order.
    ///
    /// # Complexity
    /// O(1), and O(1) for each element.
    fn into_iter(self) -> IntoIter<T> {
        IntoIter { list: self }
    }
}

impl<T: Linked<Links<T>>> Iterator for IntoIter<T> {
    type Item = T::Handle;

    ghost next_gives = { YieldsFirstBy T.element (λ s. s) };

    ghost remaining = { item_count (λ s. s) };

    /// Returns the first element that is left, or `None` if none is.
    ///
    /// # Complexity
    /// O(1).
    fn next(&mut self) -> Option<T::Handle> {
        self.list.pop_front()
    }

    /// Returns the number of elements that are left, as both bounds.
    ///
    /// # Complexity
    /// O(1).
    fn size_hint(&self) -> (usize, Option<usize>)
        ensures lower { IsWithinCount result.0 (at_most (length self.now)) }
        ensures upper { IfSome result.1 (UpTo (at_most (length self.now))) }
        ensures exact { result ≡ (length self.now, Some (length self.now)) }
    {
        let len = self.list.len();
        (len, Some(len))
    }
}

impl<T: Linked<Links<T>>> DoubleEndedIterator for IntoIter<T> {
    ghost next_back_gives = { YieldsLastBy T.element (λ s. s) };

    /// Returns the last element that is left, or `None` if none is.
    ///
    /// # Complexity
    /// O(1).
    fn next_back(&mut self) -> Option<T::Handle> {
        self.list.pop_back()
    }
}

impl<T: Linked<Links<T>>> ExactSizeIterator for IntoIter<T> {
    /// Returns the number of elements that are left.
    ///
    /// # Complexity
    /// O(1).
    fn len(&self) -> usize {
        self.list.len()
    }
}

impl<T: Linked<Links<T>>> FusedIterator for IntoIter<T> {}
