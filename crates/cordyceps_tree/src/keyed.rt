//! Pairs of a key and a value, in order of the keys.
ghost use Rattle.std.specs.Prelude.{◌≡◌, refl, ⊤};
ghost use Rattle.std.proofs.Common.{subst, sym};
ghost use Rattle.std.specs.Ordering.{is_gt};
ghost use Rattle.cordyceps_single.specs.ByKey.{by_key};
ghost use Rattle.cordyceps_single.specs.Preorder.{IsPreorder, by_key_lawful};

use crate::finding::Guide;
use cordyceps_single::sorted_list::Order;
use std::cmp::Ordering;

/// The order of pairs by their keys, with the least key first.
#[derive(Clone, Copy)]
pub(crate) struct ByFirst;

impl<K: Ord, V> Order<(K, V)> for ByFirst {
    ghost compares_by = { λ _ cmp. cmp ≡ by_key K.cmp (λ x. x.0) };

    ghost computes = { λ _ _. (by_key K.cmp (λ x. x.0), refl) };

    ghost lawful = { λ _ cmp e. subst IsPreorder (sym e) (by_key_lawful K.total (λ x. x.0)) };

    /// Compares the keys of two pairs.
    fn compare(&self, first: &(K, V), second: &(K, V)) -> Ordering {
        first.0.cmp(&second.0)
    }
}

/// Leads to the place before all pairs whose keys are not less than a key.
#[derive(Drop)]
pub(crate) struct BeforeKey<'a, K> {
    pub(crate) key: &'a K,
}

impl<'a, K: Ord, V> Guide<(K, V)> for BeforeKey<'a, K> {
    ghost says = { λ s x b. b ≡ is_gt (K.cmp s.key.now x.0) };

    ghost can_ask = { λ _. ⊤ };

    /// Returns `true` if a pair's key is less than that of the guide.
    fn is_after(&self, value: &(K, V)) -> bool {
        self.key.cmp(&value.0).is_gt()
    }
}
