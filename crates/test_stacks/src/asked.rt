//! Sorted lists of numbers that count how often they are compared, and how often they are dropped, and in which order.
ghost use Rattle.std.specs.Prelude.{◌≡◌, refl, ⊤};
ghost use Rattle.std.specs.Ordering.{nat_cmp};
ghost use Rattle.std.proofs.Common.{subst, sym};
ghost use Rattle.test_stacks.specs.ByNumber.{by_number_lawful};
ghost use Rattle.cordyceps_single.specs.Preorder.{IsPreorder};

use crate::blocks::sum;
use crate::compared::{made, same};
use cordyceps_base::linked::Linked;
use cordyceps_base::node::Node;
use cordyceps_base::steps::Steps;
use cordyceps_stack::sorted_list::{Order, SortedList};
use cordyceps_stack::stack::Links;
use std::alloc::Global;
use std::cell::Cell;
use std::cmp::Ordering;
use std::process::Abort;
use std::rc::Rc;
use test_support::nodes::node_of;

/// The counts that values share.
#[derive(Drop)]
struct Counts {
    /// How often two values were compared.
    compared: Cell<u64>,
    /// How many values were dropped.
    dropped: Cell<u64>,
    /// Their numbers, of two digits each, in the order of the drops.
    order: Cell<u64>,
}

/// Returns an order of drops with one more number behind the others.
fn followed(order: u64, number: u64) -> u64 {
    order.wrapping_mul(100).wrapping_add(number)
}

/// Returns a count of nothing.
fn nothing() -> Cell<u64> {
    Cell::new(0)
}

/// A number whose comparisons and whose drop are counted.
struct Asked {
    value: u64,
    counts: Rc<Counts, Global>,
}

impl Drop for Asked {
    fn drop(self) {
        let Asked { value, counts } = self;
        counts.dropped.set(sum(counts.dropped.get(), 1));
        counts.order.set(followed(counts.order.get(), value));
    }
}

impl Linked<Links<Asked>> for Asked {
    type Handle = Node<Asked, Links<Asked>>;

    ghost element = { λ h. h };

    fn into_ptr(handle: Node<Asked, Links<Asked>>) -> Node<Asked, Links<Asked>> {
        handle
    }

    fn from_ptr(node: Node<Asked, Links<Asked>>) -> Node<Asked, Links<Asked>>
        ensures { result ≡ node }
    {
        node
    }
}

/// The order of the numbers, which counts each comparison.
#[derive(Drop)]
struct ByNumber;

impl Order<Asked> for ByNumber {
    ghost use Rattle.test_stacks.specs.declared.asked.Asked.{Asked};

    ghost compares_by = { λ _ cmp. cmp ≡ (λ x y. nat_cmp x.value y.value) };

    ghost computes = { λ _ _. ((λ x y. nat_cmp x.value y.value), refl) };

    ghost lawful = { λ _ cmp e. subst IsPreorder (sym e) (by_number_lawful (λ (x : Asked). x.value)) };

    fn compare(&self, first: &Asked, second: &Asked) -> Ordering {
        let compared = &first.counts.compared;
        compared.set(sum(compared.get(), 1));
        first.value.cmp(&second.value)
    }
}

/// Returns a node with a value of its number.
fn node(
    rt: &impl Abort,
    alloc: Global,
    value: u64,
    counts: &Rc<Counts, Global>,
) -> Node<Asked, Links<Asked>> {
    let counts = made(rt, counts.clone());
    made(rt, node_of(alloc, value, Asked { value, counts }))
}

/// Returns new counts, of nothing.
fn no_counts(rt: &impl Abort, alloc: Global) -> Rc<Counts, Global> {
    let counts = Counts {
        compared: nothing(),
        dropped: nothing(),
        order: nothing(),
    };
    made(rt, Rc::new(alloc, counts))
}

/// Numbers to insert, how many comparisons each takes, and how many there were by then.
///
/// 10 asks nothing. 20, 20 again and 30 ask the last alone. 15 asks 20, which is last, and then 10 and 20; 5 asks 30
/// and 10; 25 asks 30, and then all six from 5 on.
const COMPARISONS: [(u64, u64, u64); 7] = [
    (10, 0, 0),
    (20, 1, 1),
    (20, 1, 2),
    (15, 3, 5),
    (30, 1, 6),
    (5, 2, 8),
    (25, 7, 15),
];

#[test]
fn counts_what_it_asks(rt: HostRuntime) {
    let counts = no_counts(&rt, rt.alloc());
    let others = no_counts(&rt, rt.alloc());
    let mut list = SortedList::new_with_order(ByNumber);
    let mut other = SortedList::new_with_order(ByNumber);
    for (number, own, all) in &COMPARISONS {
        let mut steps = Steps::new();
        list.insert_in(node(&rt, rt.alloc(), *number, &counts), &mut steps);
        other.insert(node(&rt, rt.alloc(), *number, &others));
        let asked = (steps.count(), counts.compared.get(), others.compared.get());
        same(&rt, asked, (*own, *all, *all));
    }
}

// 10 and 20 are popped. The drop frees 25, 30 and 35, in this order.
#[test]
fn a_drop_frees_what_is_left(rt: HostRuntime) {
    let counts = no_counts(&rt, rt.alloc());
    let mut list = SortedList::new_with_order(ByNumber);
    for number in [20, 10, 30, 25, 35] {
        list.insert(node(&rt, rt.alloc(), number, &counts));
    }
    drop(list.pop_front());
    drop(list.pop_front());
    same(&rt, counts.dropped.get(), 2);
    drop(list);
    let freed = (counts.dropped.get(), counts.order.get());
    same(&rt, freed, (5, 1_020_253_035));
}
