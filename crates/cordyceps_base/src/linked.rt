//! Handles: how the values of a type are passed to collections.
ghost use Rattle.std.specs.Prelude.{◌≡◌};
ghost use Rattle.cordyceps_base.specs.Element.{Element};

use crate::node::{Kind, Node};

/// A type whose values can be linked into collections of kind `L`.
///
/// A handle owns one node, and represents its element. Both functions keep the element, so what is put into a
/// collection by a handle comes out as the same element.
pub trait Linked<L: Kind>: Sized + Drop {
    /// The owning pointer that is passed to a collection, and returned by it.
    type Handle: Drop;

    // The element that a handle represents.
    ghost element: { Self.Handle → Element Self };

    /// Returns the node that a handle owns. The element stays the same.
    fn into_ptr(handle: Self::Handle) -> Node<Self, L>
        ensures { result ≡ element handle };

    /// Returns the handle that owns a node. The element stays the same.
    fn from_ptr(node: Node<Self, L>) -> Self::Handle
        ensures { element result ≡ node };
}

/// Converts a handle for collections of one kind into a handle for those of another, with the same element. If the
/// handle is a node, `Node::into_kind` does the same.
///
/// # Complexity
/// That of `into_ptr` and `from_ptr`. Apart from these it is O(1) and allocates nothing.
pub fn change_kind<L: Kind, M: Kind, T: Linked<L> + Linked<M>>(
    handle: <T as Linked<L>>::Handle,
) -> <T as Linked<M>>::Handle
    ensures { ⟦<T as Linked<M>>⟧.element result ≡ ⟦<T as Linked<L>>⟧.element handle }
{
    let node = <T as Linked<L>>::into_ptr(handle);
    <T as Linked<M>>::from_ptr(node.into_kind())
}
