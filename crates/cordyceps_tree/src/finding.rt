//! Searches in a tree.
//!
//! A search goes down from the root to a place that has no node. A guide says at each node on the way whether the place
//! is after it. So one search finds where a new element goes, and the bounds of a value and of a test.
ghost use Rattle.std.specs.Prelude.{◌≡◌, ◌+◌, ◌≤◌, Bool};
ghost use Rattle.std.specs.Fn.{FnReturnsAt};
ghost use Rattle.cordyceps_tree.specs.Bounds.{SaysAfterEquals, SaysBeforeEquals};
ghost use Rattle.cordyceps_tree.specs.Places.{IsPlace, below};
ghost use Rattle.cordyceps_tree.specs.Rows.{hook_at, IsTree};
ghost use Rattle.cordyceps_tree.specs.Trees.{height_at};

use crate::block::Row;
use cordyceps_base::boxes::Address;
use cordyceps_single::counter::Counter;
use cordyceps_single::sorted_list::Order;

/// What leads a search: it says of a value whether the place that is searched is after it.
pub(crate) trait Guide<T> {
    // What it may say of a value.
    ghost says: { Self → T → Bool → Type 0 };

    // Holds of the guides that may be asked.
    ghost can_ask: { Self → Type 0 };

    /// Returns `true` if the place is after a value.
    fn is_after(&self, value: &T) -> bool
        requires { can_ask self.now }
        ensures { says self.now value.now result };
}

/// Leads to the place after all values that are not greater than a value.
#[derive(Drop)]
pub(crate) struct AfterEquals<'a, T, O> {
    pub(crate) order: &'a O,
    pub(crate) value: &'a T,
}

impl<'a, T, O: Order<T>> Guide<T> for AfterEquals<'a, T, O> {
    ghost says = { λ s x b. SaysAfterEquals (O.compares_by s.order.now) s.value.now x b };

    ghost can_ask = { λ s. O.can_compare s.order.now };

    /// Returns `true` if a value is not greater than that of the guide.
    fn is_after(&self, value: &T) -> bool {
        !self.order.compare(self.value, value).is_lt()
    }
}

/// Leads to the place before all values that are not less than a value.
#[derive(Drop)]
pub(crate) struct BeforeEquals<'a, T, O> {
    pub(crate) order: &'a O,
    pub(crate) value: &'a T,
}

impl<'a, T, O: Order<T>> Guide<T> for BeforeEquals<'a, T, O> {
    ghost says = { λ s x b. SaysBeforeEquals (O.compares_by s.order.now) s.value.now x b };

    ghost can_ask = { λ s. O.can_compare s.order.now };

    /// Returns `true` if a value is less than that of the guide.
    fn is_after(&self, value: &T) -> bool {
        self.order.compare(self.value, value).is_gt()
    }
}

/// Leads to the place after all values that pass a test.
#[derive(Drop)]
pub(crate) struct ByTest<F> {
    pub(crate) test: F,
}

impl<T, F: Fn(&T) -> bool> Guide<T> for ByTest<F> {
    ghost says = { λ s x b. FnReturnsAt F.Fn s.test x b };

    ghost can_ask = { λ s. F.IsAlwaysCallable s.test };

    /// Returns `true` if a value passes the test.
    fn is_after(&self, value: &T) -> bool {
        (self.test)(value)
    }
}

/// A place that has no node: on a side of the node at `up`. Where `up` is null, the tree has no node.
#[derive(Clone, Copy)]
pub(crate) struct Place {
    pub(crate) up: Address,
    pub(crate) side: bool,
    /// If no node is before the place.
    pub(crate) is_first: bool,
    /// The first node after the place, or null if there is none.
    pub(crate) next: Address,
}

impl Place {
    /// Returns the place on a side of the node at `at`, which stands in this place.
    fn below(self, at: Address, side: bool) -> Place
        ensures { result ≡ below self at side }
    {
        let Place {
            up: _,
            side: _,
            is_first,
            next,
        } = self;
        let (is_first, next) = if side { (false, next) } else { (is_first, at) };
        Place {
            up: at,
            side,
            is_first,
            next,
        }
    }
}

/// Returns the place to which a guide leads, and counts how often it is asked: at most once at each node on the way.
pub(crate) fn place_of<T, G: Guide<T>, C: Counter>(
    row: &Row<T>,
    root: Address,
    guide: &G,
    steps: &mut C,
) -> Place
    requires tree { IsTree root.ptr row.now.boxes.blocks }
    requires ask { G.can_ask guide.now }
    ensures place { IsPlace (G.says guide.now) row.now.boxes.blocks root.ptr result }
    ensures few { C.counts
        → C.counted steps.new ≤ C.counted steps.old + height_at (hook_at row.now.boxes.blocks) root.ptr }
{
    let mut place = Place {
        up: Address::null(),
        side: false,
        is_first: true,
        next: Address::null(),
    };
    let mut at = root;
    while at.is_not_null() {
        let block = row.boxes.from_address(at).get(at, 0);
        steps.count_comparison();
        let after = guide.is_after(&block.value);
        place = place.below(at, after);
        at = block.hook.kid(after);
    }
    place
}
