//! Total preorders.
ghost use Rattle.std.specs.Prelude.{◌≡◌, ⊤, refl};
ghost use Rattle.std.proofs.Common.{subst, sym};
ghost use Rattle.std.specs.Cmp.{back_total};
ghost use Rattle.std.specs.declared.cmp.Ordering.{Ordering};
ghost use Rattle.cordyceps_single.specs.Preorder.{IsPreorder, preorder_from_total};

use std::cmp::Ordering;

/// A comparison of values by which a list can be kept sorted.
///
/// It is a total preorder, which an implementor proves: `compare` is one function of the two values, `Less` one way is
/// `Greater` the other way, `Equal` is `Equal` both ways, and 'not `Greater`' is transitive. Values that are `Equal`
/// may differ.
pub trait Order<T> {
    // Holds of an order and the function that it computes.
    ghost compares_by: { Self → (T → T → Ordering) → Type 0 };

    // Holds of the orders whose `compare` may be called.
    ghost can_compare: { Self → Type 0 } = { λ _. ⊤ };

    /// Compares two values.
    fn compare(&self, first: &T, second: &T) -> Ordering
        requires { can_compare self.now }
        ensures { (cmp : T → T → Ordering) → compares_by self.now cmp → result ≡ cmp first.now second.now };

    // An order whose `compare` may be called computes a function.
    ghost computes: { (order : Self) → can_compare order → (cmp : T → T → Ordering) × compares_by order cmp };

    // What an order computes is a total preorder.
    ghost lawful: { (order : Self) (cmp : T → T → Ordering) → compares_by order cmp → IsPreorder cmp };
}

/// The order of `Ord`, with the least value first.
#[derive(Clone, Copy)]
pub struct Least;

impl<T: Ord> Order<T> for Least {
    ghost compares_by = { λ _ cmp. cmp ≡ T.cmp };

    ghost computes = { λ _ _. (T.cmp, refl) };

    ghost lawful = { λ _ cmp e. subst IsPreorder (sym e) (preorder_from_total T.total) };

    /// Compares two values by `Ord`.
    fn compare(&self, first: &T, second: &T) -> Ordering {
        first.cmp(second)
    }
}

/// The reversed order of `Ord`, with the greatest value first.
#[derive(Clone, Copy)]
pub struct Greatest;

impl<T: Ord> Order<T> for Greatest {
    ghost compares_by = { λ _ cmp. cmp ≡ (λ x y. T.cmp y x) };

    ghost computes = { λ _ _. ((λ x y. T.cmp y x), refl) };

    ghost lawful = { λ _ cmp e. subst IsPreorder (sym e) (preorder_from_total (back_total T.total)) };

    /// Compares two values by `Ord`, the other way round.
    fn compare(&self, first: &T, second: &T) -> Ordering {
        second.cmp(first)
    }
}
