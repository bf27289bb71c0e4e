//! An order by a function of the caller's.
//!
//! That the function is lawful is a condition of the calls, not a field: a struct cannot hold a function with the fact
//! that it is a total preorder. So `ByFn<T, F>` is generic in the function's type, and constructors and calls that
//! compare require the fact. A sorted list has no invariant that it is sorted: contracts say which arrivals it
//! represents, with no premise but the order's law.
ghost use Rattle.std.specs.Prelude.{◌≡◌};
ghost use Rattle.cordyceps_single.specs.ByFn.{Computes};
ghost use Rattle.std.specs.declared.cmp.Ordering.{Ordering};

use crate::order::Order;
use std::cmp::Ordering;
use std::marker::{Model, PhantomData};

/// The order that a function of the caller's computes. A contract sees the function.
///
/// A list may compare by it if the function can be called on any two values and is a total preorder. Creating a list
/// with it requires this, and so does each call that compares.
#[derive(Drop)]
pub struct ByFn<T, F> {
    by: F,
    mark: PhantomData<T>,
}

impl<T, F> Model for ByFn<T, F> {
    ghost Value = { F };

    ghost view = { λ o. o.by };
}

impl<T, F> ByFn<T, F> {
    /// Creates the order that `by` computes.
    ///
    /// # Complexity
    /// O(1).
    pub fn new(by: F) -> ByFn<T, F>
        ensures { result ≡ by }
    {
        ByFn {
            by,
            mark: PhantomData,
        }
    }
}

impl<T, F: Fn(&T, &T) -> Ordering> Order<T> for ByFn<T, F> {
    ghost can_compare = { λ o. F.IsAlwaysCallable o × ((cmp : T → T → Ordering) × Computes F.Fn o cmp) };

    ghost compares_by = { λ o cmp. Computes F.Fn o cmp };

    ghost computes = { λ _ asked. asked.1 };

    ghost lawful = { λ _ _ by. by.lawful };

    /// Compares two values by the function.
    fn compare(&self, first: &T, second: &T) -> Ordering {
        (self.by)(first, second)
    }
}
