//! An order that counts each comparison.
ghost use Rattle.std.specs.Prelude.{◌≡◌, ◌+◌, ◌<◌, ◌^◌};
ghost use Rattle.std.specs.declared.cmp.Ordering.{Ordering};
ghost use Rattle.std.specs.Ordering.{is_lt};

use cordyceps_single::counter::Counter;
use cordyceps_single::sorted_list::Order;
use std::marker::Model;

/// The order of a list, which only `is_less` can ask, and only with a counter. A contract sees the order.
///
/// A comparison leaves no trace that a contract sees. So no contract of a list could say how often the order is asked
/// by a body that has the order itself. Here the order is private, and the list has no other way to it: a body of the
/// list that compares by itself does not compile. What puts elements in their places and what merges can compare only
/// through `Asked`, and the contracts of these functions say what they count.
#[derive(Drop)]
pub(crate) struct CountedOrder<O> {
    order: O,
}

impl<O> Model for CountedOrder<O> {
    ghost Value = { O };

    ghost view = { λ counted. counted.order };
}

impl<O> CountedOrder<O> {
    /// Keeps an order.
    pub(crate) fn new(order: O) -> CountedOrder<O>
        ensures { result ≡ order }
    {
        CountedOrder { order }
    }

    /// Returns `true` if `first` is less, and counts the comparison. This is the one line that asks an order.
    fn is_less<T, C: Counter>(&self, first: &T, second: &T, steps: &mut C) -> bool
    where
        O: Order<T>,
        requires { O.can_compare self.now }
        ensures answer { (cmp : T → T → Ordering)
            → O.compares_by self.now cmp
            → result ≡ is_lt (cmp first.now second.now) }
        ensures counted { C.counts → C.counted steps.old + 1 < 2 ^ 64 → C.counted steps.new ≡ C.counted steps.old + 1 }
    {
        steps.count_comparison();
        self.order.compare(first, second).is_lt()
    }
}

/// An order with the counter of its comparisons.
#[derive(Drop)]
pub(crate) struct Asked<'a, O, C> {
    order: &'a CountedOrder<O>,
    steps: C,
}

impl<'a, O, C> Asked<'a, O, C> {
    /// Joins an order with a counter of its comparisons.
    pub(crate) fn new(order: &'a CountedOrder<O>, steps: C) -> Asked<'a, O, C>
        ensures order { result.order.now ≡ order.now }
        ensures steps { result.steps ≡ steps }
    {
        Asked { order, steps }
    }

    /// Returns the counter.
    pub(crate) fn into_steps(self) -> C
        ensures { result ≡ self.entry.steps }
    {
        let Asked { order: _, steps } = self;
        steps
    }

    /// Returns `true` if `first` is less, and counts the comparison.
    pub(super) fn is_less<T>(&mut self, first: &T, second: &T) -> bool
    where
        O: Order<T>,
        C: Counter,
        requires { O.can_compare self.old.order.now }
        ensures answer { (cmp : T → T → Ordering)
            → O.compares_by self.old.order.now cmp
            → result ≡ is_lt (cmp first.now second.now) }
        ensures counted { C.counts
            → C.counted self.old.steps + 1 < 2 ^ 64
            → C.counted self.new.steps ≡ C.counted self.old.steps + 1 }
        ensures order { self.new.order.now ≡ self.old.order.now }
    {
        self.order.is_less(first, second, &mut self.steps)
    }
}
