//! Nodes and counts of steps.
use crate::compared::{made, same};
use cordyceps_base::node::{Kind, Node, Refused};
use cordyceps_base::shared::{MAX_ROOMS, StepError};
use cordyceps_base::steps::{Steps, count_one};
use cordyceps_base::{list, mpsc_queue, stack};
use std::alloc::{AllocError, Global};
use std::process::Abort;
use std::test::Fail;
use test_support::counted::{Counted, Drops, counted_node};
use test_support::nodes::node_of;

#[test]
fn keeps_its_number_and_value_in_each_kind(rt: HostRuntime) {
    let drops = made(&rt, Drops::new(rt.alloc()));
    let mut of_list: Node<Counted, list::Links<Counted>> = made(
        &rt,
        counted_node(rt.alloc(), u64::MAX, 7, &drops),
    );
    same(&rt, (of_list.id(), of_list.get().value), (u64::MAX, 7));
    of_list.get_mut().value = 8;
    same(&rt, (of_list.id(), of_list.get().value), (u64::MAX, 8));
    of_list.set_id(5);
    let of_stack: Node<Counted, stack::Links<Counted>> = of_list.into_kind();
    let of_queue: Node<Counted, mpsc_queue::Links<Counted>> = of_stack.into_kind();
    let block = of_queue.into_block();
    let again: Node<Counted, list::Links<Counted>> = Node::from_block(block);
    same(&rt, (again.id(), again.get().value), (5, 8));
    same(&rt, drops.count(), 0);
    same(&rt, again.into_value().value, 8);
    same(&rt, drops.count(), 1);
}

/// Returns a node of the number 7 and of a value that counts its drop. Where memory is refused the value is returned,
/// and passed to the next call.
fn seventh<L: Kind>(
    rt: &impl Abort,
    alloc: Global,
    value: Counted,
    drops: &Drops,
) -> Result<Node<Counted, L>, AllocError> {
    match Node::new(alloc, 7, value) {
        Ok(node) => Ok(node),
        Err(Refused { value }) => {
            same(rt, (value.value, drops.count()), (70, 0));
            node_of(alloc, 7, value)
        }
    }
}

/// Makes such a node, and drops it.
fn comes_and_goes<L: Kind>(rt: &impl Abort, alloc: Global) -> Result<(), AllocError> {
    let drops = Drops::new(alloc)?;
    let value = Counted::new(70, &drops)?;
    let node: Node<Counted, L> = seventh(rt, alloc, value, &drops)?;
    same(rt, (node.id(), node.get().value), (7, 70));
    same(rt, drops.count(), 0);
    drop(node);
    same(rt, drops.count(), 1);
    Ok(())
}

// It says more where an allocation is made to fail, as `tools/refusals` does: `Node::new` then returns the value.
#[test]
fn makes_a_node_of_the_value_handed_back(rt: HostRuntime) -> Result<(), Fail> {
    comes_and_goes::<list::Links<Counted>>(&rt, rt.alloc())?;
    comes_and_goes::<stack::Links<Counted>>(&rt, rt.alloc())?;
    comes_and_goes::<mpsc_queue::Links<Counted>>(&rt, rt.alloc())?;
    Ok(())
}

#[test]
fn counts_steps(rt: HostRuntime) {
    let mut steps = Steps::new();
    let before = steps.count();
    count_one(&mut steps);
    let counts = (before, steps.count(), Steps::default().count());
    same(&rt, counts, (0, 1, 0));
    let codes = (StepError::NotThere as u8, StepError::Memory as u8);
    same(&rt, codes, (1, 2));
    same(&rt, MAX_ROOMS, 1048576);
}
