//! Boxes that are reached by their raw pointers. This module and `homes` have all of the crate's unsafe code.
//!
//! ```text
//! row (no bytes)   (address, allocator, value)   (address, allocator, value)   ..
//!                      |                             |
//!                      v                             v
//!                  +-------+                     +-------+
//! memory           | value |                     | value |
//!                  +-------+                     +-------+
//! ```
//!
//! `RawBox::from_box` takes a box apart into its pointer and its allocator. A `Boxes` owns a row of such blocks. The
//! row is ghost: it says where each block is, what frees it, and its value. So `join`, `cut` and `cut_at` do nothing at
//! run time. A value is reached by its `Address`, a pointer that owns nothing and may be copied; the contract asks that
//! the row has a box there. So links are plain addresses, and the safe code above this module proves that they lead to
//! boxes of its row.
//!
//! `Send` and `Sync` are proved at `Boxes`, which owns the values, and the language derives the rest. Two owned boxes
//! whose values take space cannot be at one address, which `distinct` states; so the invariant of a chain does not. An
//! address names no type, since a link that named the node's type would make that type contain itself. Null represents
//! none, since an `Option` of an address takes two words.
//!
//! What a row owns is the iterated separating conjunction of separation logic, over its boxes. Outside the crates for C
//! this module and `homes` alone have functions that are proved by hand.
ghost use Rattle.std.specs.Prelude.{◌≡◌, ◌≤◌, ◌<◌, ◌-◌, ℕ, List, [], ◌∷◌, ◌++◌, length, take, drop, slice_get, Some};
ghost use Rattle.std.specs.Borrow.{sem};
ghost use Rattle.std.specs.Box.Ownership.{box_owns};
ghost use denote.RawPtr.{Ptr, null_ptr, InBlock, Testable};
ghost use Rattle.std.specs.Bool.{MatchBool};
ghost use Rattle.cordyceps_base.specs.Boxes.{boxes_own, boxes_lent, box_addresses, box_values};
ghost use Rattle.cordyceps_base.specs.Spots.{index_of, AreDistinct, AreNullComparable};
ghost use Rattle.std.specs.Mem.{type_size};

pub mod homes;

use crate::boxes::homes::Home;
use std::alloc::Allocator;
use std::marker::{Model, PhantomData, Send, Sync};
use std::ptr;
use std::ptr::NonNull;

/// The address of a box's value, or null. It owns nothing.
#[repr(C)]
#[derive(Clone, Copy)]
pub struct Address {
    ptr: *mut u8,
}

impl Address {
    /// Returns the null address.
    ///
    /// # Complexity
    /// O(1).
    pub fn null() -> Address
        ensures { result.ptr ≡ null_ptr }
    {
        Address {
            ptr: ptr::null_mut(),
        }
    }

    /// Returns `true` if the address is null.
    ///
    /// # Complexity
    /// O(1).
    pub fn is_null(self) -> bool
        requires { Testable self.ptr }
        ensures { MatchBool result (self.ptr ≡ null_ptr) (InBlock self.ptr) }
    {
        NonNull::new(self.ptr).is_none()
    }

    /// Returns `true` if the address is not null.
    ///
    /// # Complexity
    /// O(1).
    pub fn is_not_null(self) -> bool
        requires { Testable self.ptr }
        ensures { MatchBool result (InBlock self.ptr) (self.ptr ≡ null_ptr) }
    {
        NonNull::new(self.ptr).is_some()
    }
}

// SAFETY: an address owns nothing, and only a call of the `Boxes` that own a block reads there. The check proves it of
// a raw pointer, without a file in `proofs/`.
unsafe impl Send for Address {}

// SAFETY: as for `Send`.
unsafe impl Sync for Address {}

/// A box as its pointer and its allocator.
pub struct RawBox<B, A: Allocator> {
    at: *mut B,
    alloc: A,
    pub ghost value: { B },
}

impl<B, A: Allocator> Model for RawBox<B, A> {
    ghost also_owns = { λ l. box_owns (A.dealloc_token l.alloc) B.row l.at l.value };
}

impl<B: Drop, A: Allocator> RawBox<B, A> {
    /// Converts a box into its pointer and its allocator.
    pub fn from_box(value: Box<B, A>) -> RawBox<B, A>
        ensures { result.value ≡ value.value }
    {
        let (at, alloc) = Box::into_raw_with_allocator(value);
        RawBox { at, alloc }
    }

    /// Converts the pointer and the allocator back into the box.
    pub fn into_box(self) -> Box<B, A>
        ensures { result.value ≡ self.value }
    {
        let RawBox { at, alloc } = self;
        // SAFETY: a `RawBox` owns its block, and the right of its allocator to free that. The proof is in
        // `proofs/boxes/RawBox/into_box/`.
        unsafe { Box::from_raw(alloc, at) }
    }
}

/// The owner of a sequence of boxes, reached by their addresses. It has no size, and all its calls are O(1). A contract
/// sees the address, the allocator and the value of each box.
pub struct Boxes<B, A: Allocator> {
    mark: PhantomData<*mut (B, A)>,
    pub ghost blocks: { List (Ptr × A × B) },
}

impl<B, A: Allocator> Model for Boxes<B, A> {
    ghost also_owns = { λ b. boxes_own A.dealloc_token B.row b.blocks };

    ghost also_shares = { λ b _ κ. boxes_lent B.row b.blocks κ };
}

// SAFETY: boxes may go to another thread if their values and their allocator may, since a row owns nothing but its
// blocks and the right to free them. The proof is in `proofs/boxes/Boxes/TheSendSync/`.
unsafe impl<B: Send, A: Allocator + Send> Send for Boxes<B, A> {}

// SAFETY: threads may share boxes if they may share their values, since a `&` to a row reaches nothing else. The proof
// is in `proofs/boxes/Boxes/TheSendSync/`.
unsafe impl<B: Sync, A: Allocator> Sync for Boxes<B, A> {}

impl<B, A: Allocator> Boxes<B, A> {
    ghost use Rattle.cordyceps_base.specs.BoxesLends.{lends_value};

    /// Returns the address and the allocator of a box, and its owner.
    pub fn one(block: RawBox<B, A>) -> (Address, A, Boxes<B, A>)
        ensures { result.2.blocks ≡ (result.0.ptr, result.1, block.value) ∷ [] }
    {
        let RawBox { at, alloc } = block;
        let ptr = at as *mut u8;
        (Address { ptr }, alloc, Boxes { mark: PhantomData })
    }

    /// Returns the only box.
    pub fn only(self, at: Address, alloc: A) -> RawBox<B, A>
        requires { (x : B) × (self.blocks ≡ (at.ptr, alloc, x) ∷ []) }
        ensures { self.blocks ≡ (at.ptr, alloc, result.value) ∷ [] }
    {
        let Boxes { mark: _ } = self;
        let at = at.ptr as *mut B;
        RawBox { at, alloc }
    }

    /// Returns a reference to the value of box `k`, which is at `at`. Only the contract needs `k`.
    pub fn get(&self, at: Address, k: usize) -> &B
        requires { slice_get (box_addresses self.now.blocks) k ≡ Some at.ptr }
        ensures { slice_get (box_values self.now.blocks) k ≡ Some result.now }
    {
        let at = at.ptr as *mut B;
        // SAFETY: box `k` of the row is at `at`, and the row is lent as long as the value is. The proof is in
        // `proofs/boxes/Boxes/get/`.
        unsafe { &*at }
    }

    /// Returns a mutable reference to the value of box `k`, which is at `at`. Only the contract needs `k`.
    pub fn get_mut(&mut self, at: Address, k: usize) -> &mut B
        requires { slice_get (box_addresses self.old.blocks) k ≡ Some at.ptr }
        ensures* writes_back { sem 𝓛 (lends_value B.row A.row A.Allocator self.entry k result) }
        ensures value { slice_get (box_values self.old.blocks) k ≡ Some result.now }
    {
        let at = at.ptr as *mut B;
        // SAFETY: box `k` of the row is at `at`, and the row is lent to this caller alone, as long as the value is. The
        // proof is in `proofs/boxes/Boxes/get_mut/`.
        unsafe { &mut *at }
    }

    /// Returns a mutable reference to the value of the first box at `at`.
    pub fn at_mut(&mut self, at: Address) -> &mut B
        requires { (k : ℕ) × (slice_get (box_addresses self.old.blocks) k ≡ Some at.ptr) }
        ensures* writes_back { sem 𝓛
            (lends_value B.row A.row A.Allocator self.entry (index_of at.ptr (box_addresses self.old.blocks)) result) }
        ensures value { slice_get (box_values self.old.blocks) (index_of at.ptr (box_addresses self.old.blocks))
            ≡ Some result.now }
    {
        let at = at.ptr as *mut B;
        // SAFETY: a box of the row is at `at`, and the row is lent to this caller alone, as long as the value is. The
        // proof is in `proofs/boxes/Boxes/at_mut/`.
        unsafe { &mut *at }
    }
}

// These do nothing at run time: an owner has no size. Their contracts state which boxes it owns, or what is known of
// their addresses.
impl<B, A: Allocator> Boxes<B, A> {
    /// Returns the owner of no box.
    pub fn empty() -> Boxes<B, A>
        ensures { result.blocks ≡ [] }
    {
        Boxes { mark: PhantomData }
    }

    /// Ends the owner of no box.
    pub fn discard(self)
        requires { self.blocks ≡ [] }
    {
        let Boxes { mark: _ } = self;
    }

    /// Joins two owners to one of the boxes of both.
    pub fn join(self, other: Boxes<B, A>) -> Boxes<B, A>
        ensures { result.blocks ≡ self.blocks ++ other.blocks }
    {
        let Boxes { mark: _ } = self;
        let Boxes { mark: _ } = other;
        Boxes { mark: PhantomData }
    }

    /// Splits the owner into that of the first `count` boxes and that of the others.
    pub fn cut(self, count: usize) -> (Boxes<B, A>, Boxes<B, A>)
        ensures { (result.0.blocks ≡ take count self.blocks) × (result.1.blocks ≡ drop count self.blocks) }
    {
        let Boxes { mark: _ } = self;
        (Boxes { mark: PhantomData }, Boxes { mark: PhantomData })
    }

    /// Splits the owner into that of the boxes before the first one at `at` and that of the others.
    pub fn cut_at(self, at: Address) -> (Boxes<B, A>, Boxes<B, A>)
        ensures { let k = index_of at.ptr (box_addresses self.blocks) in
            (result.0.blocks ≡ take k self.blocks) × (result.1.blocks ≡ drop k self.blocks) }
    {
        let Boxes { mark: _ } = self;
        (Boxes { mark: PhantomData }, Boxes { mark: PhantomData })
    }

    /// Splits the owner into that of all boxes but the last and that of the last.
    pub(crate) fn cut_last(self) -> (Boxes<B, A>, Boxes<B, A>)
        ensures { let count = length self.blocks - 1 in
            (result.0.blocks ≡ take count self.blocks) × (result.1.blocks ≡ drop count self.blocks) }
    {
        let Boxes { mark: _ } = self;
        (Boxes { mark: PhantomData }, Boxes { mark: PhantomData })
    }

    /// Returns the same boxes. Its contract states that their addresses are distinct, if their values have a size.
    pub fn distinct(self) -> Boxes<B, A>
        ensures { (result.blocks ≡ self.blocks) × (0 < type_size B.row → AreDistinct (box_addresses self.blocks)) }
    {
        let Boxes { mark: _ } = self;
        Boxes { mark: PhantomData }
    }

    /// Returns the boxes after the first.
    pub(crate) fn after_first(&self) -> &Boxes<B, A>
        ensures { result.now.blocks ≡ drop 1 self.now.blocks }
    {
        self
    }

    /// Returns the boxes from the first one at `at` on.
    pub fn from_address(&self, at: Address) -> &Boxes<B, A>
        ensures { result.now.blocks ≡ drop (index_of at.ptr (box_addresses self.now.blocks)) self.now.blocks }
    {
        self
    }

    /// Returns the last box alone.
    pub(crate) fn only_last(&self) -> &Boxes<B, A>
        ensures { result.now.blocks ≡ drop (length self.now.blocks - 1) self.now.blocks }
    {
        self
    }
}

// Nor does this one, for boxes with a word behind them.
impl<B> Boxes<B, Home> {
    /// Returns the same boxes. Its contract states that their addresses may be compared with null.
    pub fn null_comparable(self) -> Boxes<B, Home>
        ensures { (result.blocks ≡ self.blocks) × AreNullComparable (box_addresses self.blocks) }
    {
        let Boxes { mark: _ } = self;
        Boxes { mark: PhantomData }
    }
}
