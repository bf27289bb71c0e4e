//! An order by a key of each value.
ghost use Rattle.std.specs.Prelude.{◌≡◌, refl};
ghost use Rattle.std.proofs.Common.{subst, sym};
ghost use Rattle.cordyceps_single.specs.ByKey.{ComparesByKey, HasKey, by_key};
ghost use Rattle.cordyceps_single.specs.Preorder.{IsPreorder, by_key_lawful};
ghost use Rattle.std.specs.declared.cmp.Ordering.{Ordering};

use crate::order::Order;
use std::cmp::Ordering;
use std::marker::{Model, PhantomData};

/// The order by a key, with the value of the least key first. A contract sees the function that returns a value's key.
///
/// A list may compare by it if the function can be called on any value and always returns the same key for a value.
/// Creating a list with it requires this, and so does each call that compares.
#[derive(Drop)]
pub struct ByKey<T, F> {
    key: F,
    mark: PhantomData<T>,
}

impl<T, F> Model for ByKey<T, F> {
    ghost Value = { F };

    ghost view = { λ o. o.key };
}

impl<T, F> ByKey<T, F> {
    /// Creates the order by the key that `key` returns.
    ///
    /// # Complexity
    /// O(1).
    pub fn new(key: F) -> ByKey<T, F>
        ensures { result ≡ key }
    {
        ByKey {
            key,
            mark: PhantomData,
        }
    }
}

impl<T, K: Ord + Drop, F: Fn(&T) -> K> Order<T> for ByKey<T, F> {
    ghost can_compare = { λ o. F.IsAlwaysCallable o × ((key : T → K) × HasKey F.Fn o key) };

    ghost compares_by = { λ o cmp. ComparesByKey K.cmp F.Fn o cmp };

    ghost computes = { λ _ asked. let (key, returns) = asked.1 in
        (by_key K.cmp key, record { key = key; returns = returns; compares = refl }) };

    ghost lawful = { λ _ _ by. subst IsPreorder (sym by.compares) (by_key_lawful K.total by.key) };

    /// Compares the keys of two values.
    fn compare(&self, first: &T, second: &T) -> Ordering {
        (self.key)(first).cmp(&(self.key)(second))
    }
}
