//! Elements that came out of a queue.
ghost use Rattle.std.specs.Prelude.{◌≡◌, ◌+◌, ◌<◌, ◌^◌, ◌==◌, [], ◌∷◌, ◌++◌, length, Some, IfSome};
ghost use Rattle.std.specs.Iterator.{YieldsFirstBy, item_count, at_most, UpTo};
ghost use Rattle.std.specs.Iterator.SizeHint.{IsWithinCount};

use cordyceps_base::linked::Linked;
use cordyceps_base::mpsc_queue::Links;
use cordyceps_base::single_chain::SingleChain;
use std::iter::{ExactSizeIterator, FusedIterator};
use std::marker::Model;

/// An iterator that owns the elements that came out of a queue, and returns them, the oldest first. A contract sees the
/// elements that are left. The Rust crate `cordyceps` has no such type.
///
/// # Complexity
/// Dropping it frees each node that is left: O(n), for n elements. Its calls allocate nothing.
#[derive(Drop)]
pub struct Batch<T> {
    chain: SingleChain<T, Links<T>>,
    len: usize,
}

impl<T> Model for Batch<T> {
    ghost use Rattle.std.specs.Prelude.{◌≡◌, length};
    ghost use Rattle.cordyceps_base.specs.Element.{Elements};
    ghost use Rattle.cordyceps_base.specs.Nodes.{elements};

    ghost Value = { Elements T };

    ghost view = { λ b. elements b.chain };

    ghost invariant = { λ b. b.len ≡ length b.chain };
}

impl<T: Linked<Links<T>>> Batch<T> {
    /// Creates an empty batch.
    pub(crate) fn new() -> Batch<T>
        ensures { result ≡ [] }
    {
        Batch {
            chain: SingleChain::empty(),
            len: 0,
        }
    }

    /// Returns the number of elements that are left.
    ///
    /// # Complexity
    /// O(1).
    pub fn len(&self) -> usize
        ensures { result ≡ length self.now }
    {
        self.len
    }

    /// Returns `true` if no element is left.
    ///
    /// # Complexity
    /// O(1).
    pub fn is_empty(&self) -> bool
        ensures { result ≡ (length self.now == 0) }
    {
        self.len == 0
    }

    /// Appends an element to the batch, in O(1).
    pub(crate) fn put_last(&mut self, handle: T::Handle)
        requires { length self.old + 1 < 2 ^ 64 }
        ensures { self.new ≡ self.old ++ T.element handle ∷ [] }
    {
        self.chain.link_back(T::into_ptr(handle));
        self.len += 1;
    }
}

/// Returns the elements, the oldest first. When it has returned `None` once, it returns `None` from then on.
impl<T: Linked<Links<T>>> Iterator for Batch<T> {
    type Item = T::Handle;

    ghost next_gives = { YieldsFirstBy T.element (λ b. b) };

    ghost remaining = { item_count (λ b. b) };

    /// Returns the oldest element that is left, or `None` if none is.
    ///
    /// # Complexity
    /// O(1).
    fn next(&mut self) -> Option<T::Handle> {
        if self.is_empty() {
            return None;
        }
        self.len -= 1;
        Some(T::from_ptr(self.chain.unlink_front()))
    }

    /// Returns the number of elements that are left, as both bounds.
    ///
    /// # Complexity
    /// O(1).
    fn size_hint(&self) -> (usize, Option<usize>)
        ensures lower { IsWithinCount result.0 (at_most (length self.now)) }
        ensures upper { IfSome result.1 (UpTo (at_most (length self.now))) }
        ensures exact { result ≡ (length self.now, Some (length self.now)) }
    {
        (self.len, Some(self.len))
    }
}

impl<T: Linked<Links<T>>> ExactSizeIterator for Batch<T> {
    /// Returns the number of elements that are left.
    ///
    /// # Complexity
    /// O(1).
    fn len(&self) -> usize {
        Batch::len(self)
    }
}

impl<T: Linked<Links<T>>> FusedIterator for Batch<T> {}
