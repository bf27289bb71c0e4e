//! Whose memory a block lies in: a word behind the block says it.
//!
//! ```text
//! +----------------+------+
//! | block          | word |   0: of `Global`, which frees it; another number: lent, and left to its lender
//! +----------------+------+
//! ```
//!
//! `Home` is the allocator type of such boxes, and takes no bytes. Its right to free a block (`housed` of
//! `specs/Homes.antt`) owns the word, what else lies there and, if the word is 0, the right of `Global`. `Home::boxed`
//! puts a value into a block of `Global` with the word 0 behind it, and `Home::unboxed` takes a value out and frees the
//! block if the word is 0. Four functions are proved by hand: `housed`, which hides the word in that right, `released`,
//! which reads it, and the two of `Home` as an allocator, which allocate and free nothing. All other modules use nodes
//! without knowing whose memory they are.
ghost use Rattle.std.specs.Prelude.{◌≡◌, IfOk, IfErr, MatchResult};
ghost use Rattle.cordyceps_base.specs.Homes.{housed};

use crate::boxes::RawBox;
use std::alloc::{AllocError, AllocFailed, Allocator, Global};

/// The word behind a block that the allocator `Global` gave. Behind one that is lent, it is another.
pub(crate) const HEAP: u64 = 0;

/// A value, and the word behind it that says whose its memory is.
#[repr(C)]
#[derive(Drop)]
pub(crate) struct Housed<B> {
    pub(crate) body: B,
    pub(crate) home: u64,
}

/// The allocator of boxes with a word behind them that says whose their memory is: 0 if it is of the heap, and another
/// number if it is lent. Such boxes are made by `Home::boxed`, and freed by `Home::unboxed`. Dropping one frees no
/// memory.
#[derive(Clone, Copy, Drop)]
pub struct Home;

impl Home {
    /// Puts a value into memory of the heap, with the word behind it.
    ///
    /// # Errors
    /// If memory is refused, it returns the value.
    ///
    /// # Complexity
    /// O(1), with one allocation.
    pub fn boxed<B: Drop>(heap: Global, value: B) -> Result<Box<B, Home>, AllocFailed<B>>
        ensures made { IfOk result (λ b. b.value ≡ value) }
        ensures value_returned { IfErr result (λ e. e.value ≡ value) }
    {
        let housed = Housed {
            body: value,
            home: HEAP,
        };
        match Box::new(heap, housed) {
            Ok(housed) => Ok(RawBox::from_box(housed).housed().into_box()),
            Err(refused) => Err(AllocFailed {
                value: refused.value.body,
            }),
        }
    }

    /// Returns the value of a box. If its memory is of the heap, it is freed; if it is lent, its lender may use it
    /// again.
    ///
    /// # Complexity
    /// O(1).
    pub fn unboxed<B: Drop>(boxed: Box<B, Home>, heap: Global) -> B
        ensures { result ≡ boxed.value }
    {
        match RawBox::from_box(boxed).released(heap) {
            Ok(housed) => Box::into_inner(housed.into_box()).body,
            Err(value) => value,
        }
    }
}

// SAFETY: `allocate` gives no block, and `deallocate` is called only with the right `housed`, which it drops with the
// word in it; so no block is freed that is still used. The proofs are in `proofs/boxes/homes/HomeAllocator/`.
unsafe impl Allocator for Home {
    ghost dealloc_token = { λ _ τ p. housed τ p };

    fn allocate(&self, _size: usize, _align: usize) -> Result<*mut u8, AllocError> {
        Err(AllocError)
    }

    unsafe fn deallocate(&self, _ptr: *mut u8, _size: usize, _align: usize) {}
}

impl<B> RawBox<Housed<B>, Global> {
    /// Leaves the right to free the block with the word behind it.
    pub(crate) fn housed(self) -> RawBox<B, Home>
        requires { self.value.home ≡ 0 }
        ensures { result.value ≡ self.value.body }
    {
        let RawBox { at, alloc: _ } = self;
        let at = at as *mut B;
        RawBox { at, alloc: Home }
    }
}

impl<B> RawBox<B, Home> {
    /// Returns the box with the word behind it, if its memory is of the heap. If it is lent, it returns the value, and
    /// leaves the memory to its lender.
    pub(crate) fn released(self, heap: Global) -> Result<RawBox<Housed<B>, Global>, B>
        ensures { MatchResult result (λ b. b.value.body ≡ self.value) (λ body. body ≡ self.value) }
    {
        let RawBox { at, alloc: _ } = self;
        let housed = at as *mut Housed<B>;
        // SAFETY: the right `housed` of this block owns the word behind it. The proof is in
        // `proofs/boxes/homes/RawBox+B+Home/released/`.
        let home = unsafe { (*housed).home };
        if home == HEAP {
            Ok(RawBox {
                at: housed,
                alloc: heap,
            })
        } else {
            // SAFETY: the box owns its value, and nothing reads that here again. The proof is in
            // `proofs/boxes/homes/RawBox+B+Home/released/`.
            Err(unsafe { at.read() })
        }
    }
}
