//! How many elements a queue, a batch and a consumer drop, and queues that are made after refused memory.
ghost use Rattle.std.specs.Arc.{arc_value};
ghost use Rattle.std.specs.Prelude.{◌≡◌};

use crate::calls::{Reply, tried};
use crate::closings::Whole;
use crate::compared::{made, same};
use crate::items::{number, number_of};
use crate::seats::{Shared, shared};
use cordyceps_base::node::Refused;
use cordyceps_queue::mpsc_queue::{Closed, MpscQueue, OwnedConsumer, Party};
use std::alloc::AllocError;
use std::process::Abort;
use test_support::counted::{Counted, Drops, counted_node};

/// Asserts how many drops were counted.
fn dropped(rt: &impl Abort, drops: &Drops, wanted: u64) {
    same(rt, drops.count(), wanted);
}

#[test]
fn a_dropped_queue_drops_what_it_holds(rt: HostRuntime) {
    let drops = made(&rt, Drops::new(rt.alloc()));
    let Whole { queue, party } = Whole::three_held(&rt, rt.alloc(), &drops);
    dropped(&rt, &drops, 0);
    drop(queue);
    dropped(&rt, &drops, 4);
    drop(party);
    dropped(&rt, &drops, 4);
}

#[test]
fn a_dropped_batch_drops_what_is_left(rt: HostRuntime) {
    let drops = made(&rt, Drops::new(rt.alloc()));
    let whole = Whole::three_held(&rt, rt.alloc(), &drops);
    let Closed { mut elements, stub } = whole.close();
    dropped(&rt, &drops, 0);
    let first = elements.next();
    dropped(&rt, &drops, 0);
    drop(first);
    dropped(&rt, &drops, 1);
    drop(elements);
    dropped(&rt, &drops, 3);
    drop(stub);
    dropped(&rt, &drops, 4);
}

/// Returns the consumer that owns a queue with others, from which nobody else dequeues.
fn owned_of(rt: &impl Abort, queue: Shared, party: Party<Counted>) -> OwnedConsumer<Counted>
    requires { party.table ≡ (arc_value queue).table }
{
    match MpscQueue::try_consume_owned(queue, party) {
        Ok(owned) => owned,
        Err(_) => panic!(rt; "nobody else has the right"),
    }
}

#[test]
fn the_last_owner_frees_the_queue(rt: HostRuntime) {
    let drops = made(&rt, Drops::new(rt.alloc()));
    let Whole { queue, party } = Whole::three_held(&rt, rt.alloc(), &drops);
    let queue = shared(&rt, rt.alloc(), queue);
    let mut owned = owned_of(&rt, queue, party);
    same(&rt, tried(&rt, owned.try_dequeue()), Reply::Element(1));
    dropped(&rt, &drops, 1);
    drop(owned);
    dropped(&rt, &drops, 4);
}

// It says more where an allocation is made to fail, as `tools/refusals` does: `new` then returns `Err`, and the next
// call, which meets none, makes a queue.
#[test]
fn makes_a_queue_after_refused_memory(rt: HostRuntime) -> Result<(), AllocError> {
    let (queue, party) = match MpscQueue::<Counted>::new(rt.alloc(), 2) {
        Ok(made) => made,
        Err(AllocError) => MpscQueue::new(rt.alloc(), 2)?,
    };
    same(&rt, party.rooms(), 2);
    same(&rt, queue.close(party).elements.is_empty(), true);
    Ok(())
}

// The same, where `new_with_stub` returns the stub.
#[test]
fn makes_a_queue_of_the_stub_handed_back(rt: HostRuntime) -> Result<(), AllocError> {
    let drops = Drops::new(rt.alloc())?;
    let stub = counted_node(rt.alloc(), 7, 70, &drops)?;
    let (queue, party) = match MpscQueue::<Counted>::new_with_stub(rt.alloc(), stub, 2) {
        Ok(made) => made,
        Err(Refused { value }) => {
            dropped(&rt, &drops, 0);
            same(&rt, number(&rt, &value), 7);
            match MpscQueue::new_with_stub(rt.alloc(), value, 2) {
                Ok(made) => made,
                Err(Refused { value: _ }) => panic!(rt; "one allocation is made to fail"),
            }
        }
    };
    same(&rt, party.rooms(), 2);
    let Closed { elements: _, stub } = queue.close(party);
    same(&rt, number_of(&rt, stub), Some(7));
    dropped(&rt, &drops, 1);
    Ok(())
}
