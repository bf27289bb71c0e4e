//! What a stack and two threads ask for beside the nodes. `tools/refusals` holds mode `share` of `cordyceps_replay`
//! against this, which asks for the same but makes no node.
use crate::compared::same;
use cordyceps_stack::stack::{Party, TransferStack};
use std::alloc::{AllocError, Global};
use std::process::Abort;
use std::sync::Wait;
use std::thread;
use std::thread::Threads;
use test_support::counted::Counted;

/// Starts two threads, each of which hands a party back, and joins them.
fn start_both<R: Threads + Wait + Sync>(
    rt: &R,
    parties: (Party<Counted>, Party<Counted>),
) -> Result<(Party<Counted>, Party<Counted>), AllocError> {
    let (first, second) = parties;
    thread::scope(
        thread::scope_env(),
        rt,
        move |scope| -> Result<(Party<Counted>, Party<Counted>), AllocError> {
            let one = scope.spawn(move || -> Party<Counted> { first })?;
            let two = scope.spawn(move || -> Party<Counted> { second });
            let back = one.join(rt);
            Ok((back, two?.join(rt)))
        },
    )
}

/// Returns the four numbers, in order.
fn numbers(alloc: Global) -> Result<Vec<u64>, AllocError> {
    let mut numbers = Vec::new(alloc);
    for number in [10u64, 20, 11, 21] {
        numbers.push(number)?;
    }
    numbers.sort()?;
    Ok(numbers)
}

/// Compares the line that `share` prints, as it is made of the numbers.
fn prints(rt: &impl Abort, alloc: Global, numbers: &[u64]) -> Result<(), AllocError> {
    if let [first, second, third, fourth] = numbers {
        let line = format!(in alloc; "{first} {second} {third} {fourth}\n")?;
        same(rt, line.as_str(), "10 11 20 21\n");
    }
    same(rt, numbers.len(), 4);
    Ok(())
}

/// Splits a stack's rooms between two threads, and compares what comes back.
fn share_rooms<R: Threads + Wait + Abort + Sync>(rt: &R, alloc: Global) -> Result<(), AllocError> {
    let (stack, mut party) = TransferStack::<Counted>::new(alloc, 4)?;
    let parties = (stack.split(&mut party, 2), stack.split(&mut party, 2));
    let (first, second) = start_both(rt, parties)?;
    same(rt, (first.rooms(), second.rooms()), (2, 2));
    Ok(())
}

#[test]
fn two_threads_without_nodes(rt: HostRuntime) -> Result<(), AllocError> {
    share_rooms(&rt, rt.alloc())?;
    let numbers = numbers(rt.alloc())?;
    prints(&rt, rt.alloc(), numbers.as_slice())
}
