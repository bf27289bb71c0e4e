//! Boxes as their raw pointers.
ghost use Rattle.std.specs.Prelude.{◌≡◌};
ghost use Rattle.std.specs.Box.Ownership.{box_owns};

use std::alloc::Allocator;
use std::marker::Model;

/// A box as its pointer and its allocator.
pub struct RawBox<B, A: Allocator> {
    pub at: *mut B,
    pub alloc: A,
    pub ghost value: { B },
}

impl<B, A: Allocator> Model for RawBox<B, A> {
    ghost also_owns = { λ l. box_owns (A.dealloc_token l.alloc) B.row l.at l.value };
}

impl<B: Drop, A: Allocator> RawBox<B, A> {
    /// Converts a box into its pointer and its allocator.
    pub fn from_box(value: Box<B, A>) -> RawBox<B, A>
        ensures { result.value ≡ value.value }
    {
        let (at, alloc) = Box::into_raw_with_allocator(value);
        RawBox { at, alloc }
    }

    /// Converts the pointer and the allocator back into the box.
    pub fn into_box(self) -> Box<B, A>
        ensures { result.value ≡ self.value }
    {
        let RawBox { at, alloc } = self;
        unsafe { Box::from_raw(alloc, at) }
    }
}
