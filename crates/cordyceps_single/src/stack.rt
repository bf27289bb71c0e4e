//! Stacks.
ghost use Rattle.std.specs.Prelude.{◌≡◌, ◌==◌, [], ◌∷◌, ◌++◌, length, MatchOption};
ghost use Rattle.std.specs.Iterator.{YieldsFirstBy, item_count};

use cordyceps_base::linked::Linked;
use cordyceps_base::single_chain::SingleChain;
pub use cordyceps_base::stack::Links;
use std::marker::Model;

/// A stack of owned nodes: the element that was pushed last is popped first. A contract sees its elements, the last
/// pushed first.
///
/// A handle that is pushed comes out as the same element. Linking allocates nothing and cannot be refused. The number
/// of elements has no bound, and the stack does not store it: a caller who needs it counts what goes in and comes out.
/// The interface follows that of `Stack` in the Rust crate `cordyceps`.
///
/// # Complexity
/// Dropping the stack frees each node once: O(n), for n elements.
///
/// # Examples
/// From `tour::least_rank` of `cordyceps_uses`:
/// ```
/// let mut arrived: Stack<Job> = Stack::new();
/// arrived.push(first);
/// arrived.push(second);
/// ```
#[derive(Drop)]
pub struct Stack<T> {
    chain: SingleChain<T, Links<T>>,
}

impl<T> Model for Stack<T> {
    ghost use Rattle.cordyceps_base.specs.Element.{Elements};
    ghost use Rattle.cordyceps_base.specs.Nodes.{elements};

    ghost Value = { Elements T };

    ghost view = { λ s. elements s.chain };
}

impl<T: Linked<Links<T>>> Default for Stack<T> {
    ghost is_default = { λ s. s ≡ [] };

    /// Creates an empty stack, as `new` does.
    ///
    /// # Complexity
    /// O(1).
    fn default() -> Stack<T> {
        Stack::new()
    }
}

impl<T: Linked<Links<T>>> Stack<T> {
    /// Creates an empty stack. Allocates nothing.
    ///
    /// # Complexity
    /// O(1).
    pub fn new() -> Stack<T>
        ensures { result ≡ [] }
    {
        Stack {
            chain: SingleChain::empty(),
        }
    }

    /// Returns `true` if the stack has no element.
    ///
    /// # Complexity
    /// O(1).
    pub fn is_empty(&self) -> bool
        ensures { result ≡ (length self.now == 0) }
    {
        self.chain.is_empty()
    }

    /// Pushes an element onto the stack.
    ///
    /// # Complexity
    /// O(1).
    pub fn push(&mut self, handle: T::Handle)
        ensures { self.new ≡ T.element handle ∷ self.old }
    {
        self.chain.link_front(T::into_ptr(handle));
    }

    /// Pushes an element onto the stack, and returns `true` if the stack was empty before.
    ///
    /// # Complexity
    /// O(1).
    pub fn push_was_empty(&mut self, handle: T::Handle) -> bool
        ensures pushed { self.new ≡ T.element handle ∷ self.old }
        ensures was_empty { result ≡ (length self.old == 0) }
    {
        let was_empty = self.is_empty();
        self.push(handle);
        was_empty
    }

    /// Removes the element that was pushed last and returns it, or `None` if the stack is empty.
    ///
    /// # Complexity
    /// O(1).
    pub fn pop(&mut self) -> Option<T::Handle>
        ensures { MatchOption result ((self.old ≡ []) × (self.new ≡ [])) (λ h. self.old ≡ T.element h ∷ self.new) }
    {
        if self.chain.is_empty() {
            return None;
        }
        Some(T::from_ptr(self.chain.unlink_front()))
    }

    /// Moves all elements to a new stack, which it returns, and leaves this one empty.
    ///
    /// # Complexity
    /// O(1).
    pub fn take_all(&mut self) -> Stack<T>
        ensures taken { result ≡ self.old }
        ensures left { self.new ≡ [] }
    {
        Stack {
            chain: self.chain.take(),
        }
    }
}

/// Puts an element below all others of a stack.
///
/// # Complexity
/// O(1).
pub fn put_last<T: Linked<Links<T>>>(stack: &mut Stack<T>, handle: T::Handle)
    ensures { stack.new ≡ stack.old ++ T.element handle ∷ [] }
{
    stack.chain.link_back(T::into_ptr(handle));
}

/// Pops the elements. When `next` has returned `None`, it does so until an element is pushed.
impl<T: Linked<Links<T>>> Iterator for Stack<T> {
    type Item = T::Handle;

    ghost next_gives = { YieldsFirstBy T.element (λ s. s) };

    ghost remaining = { item_count (λ s. s) };

    /// Removes the element that was pushed last and returns it, as `pop` does.
    ///
    /// # Complexity
    /// O(1).
    fn next(&mut self) -> Option<T::Handle> {
        self.pop()
    }
}
