//! An agenda in a tree: the next event after a time, and the events of a range of times.
ghost use Rattle.std.specs.Prelude.{◌<◌, length, IfSome};
ghost use Rattle.cordyceps_base.specs.BySpot.{HasSpot};

use crate::compared::{at_most, made, same};
use cordyceps_single::sorted_list::Least;
use cordyceps_stable::stable_list::Spot;
use cordyceps_tree::node::TreeNode;
use cordyceps_tree::stable_tree::StableTree;
use std::alloc::Global;
use std::process::Abort;

/// An event at a time. Events are compared by their time alone.
#[derive(Clone, Copy, Drop)]
#[derive_where(PartialEq, Eq, PartialOrd, Ord)]
struct Event {
    time: u64,
    #[derive_where(skip)]
    place: u64,
}

/// Events in order of their time.
type Agenda = StableTree<Event, Least>;

/// Puts an event into an agenda.
fn enter(rt: &impl Abort, alloc: Global, agenda: &mut Agenda, event: Event) -> Spot
    requires { length agenda.old.nodes < usize.MAX }
    ensures { HasSpot agenda.new.nodes result }
{
    agenda.insert(made(rt, TreeNode::new(alloc, event.place, event)))
}

/// Returns the spot of the first event after a time, or `None` if there is none.
fn next_after(agenda: &Agenda, time: u64) -> Option<Spot>
    ensures { IfSome result (λ p. HasSpot agenda.now.nodes p) }
{
    agenda.partition_point(move |event: &Event| event.time <= time)
}

/// Returns the sum of the places of the events from one time on, before another.
fn sum_between(agenda: &Agenda, from: u64, to: u64) -> u64 {
    let first = agenda.partition_point(move |event: &Event| event.time < from);
    let mut sum = 0u64;
    for (_, event) in agenda.iter_from(first) {
        if event.time >= to {
            break;
        }
        sum = sum.wrapping_add(event.place);
    }
    sum
}

#[test]
fn events_are_found_by_time(rt: HostRuntime) {
    let mut agenda: Agenda = StableTree::new_min();
    for (time, place) in [(30u64, 1u64), (10, 2), (20, 4), (20, 8), (40, 16)] {
        at_most(&rt, agenda.len(), 10);
        enter(&rt, rt.alloc(), &mut agenda, Event { time, place });
    }
    let next = match next_after(&agenda, 20) {
        Some(spot) => Some(agenda.get(spot).place),
        None => None,
    };
    same(&rt, next, Some(1));
    same(&rt, next_after(&agenda, 40).is_none(), true);
    same(&rt, sum_between(&agenda, 20, 40), 4 + 8 + 1);
    same(&rt, sum_between(&agenda, 41, 50), 0);
}
