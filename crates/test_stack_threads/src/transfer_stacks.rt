//! Calls of a transfer stack, one after the other.
ghost use Rattle.std.specs.Prelude.{◌≡◌};

use crate::compared::same;
use crate::items::{dropped, element, no_drops, pops, stock};
use crate::seats::{Call, Seat, have_rooms, new_stack, pushes};
use cordyceps_stack::stack::{Party, Stack, TransferStack};
use std::alloc::{AllocError, Global};
use std::process::Abort;
use test_support::counted::Counted;

/// Makes calls of the elements 1, 2 and 3 at a new stack: first those of a party that gets some of the rooms and is
/// dropped then, and then those of the party that is left, and asserts how many elements they have dropped.
fn calls_return(
    rt: &impl Abort,
    alloc: Global,
    rooms: usize,
    (given, others): (usize, &[Call]),
    calls: &[Call],
    drops: u64,
) {
    let count = no_drops(rt, alloc);
    let mut stock = stock(rt, alloc, (1, 3), &count);
    let (stack, party) = new_stack(rt, alloc, rooms);
    let mut seat = Seat::new(&stack, party);
    seat.split(rt, given).calls(rt, &mut stock, others);
    seat.calls(rt, &mut stock, calls);
    dropped(rt, &count, drops);
}

/// A party sees whether something is held, before and after each push and each take.
const IS_EMPTY: [Call; 7] = [
    Call::IsEmpty(true),
    Call::Push(true),
    Call::IsEmpty(false),
    Call::Push(false),
    Call::IsEmpty(false),
    Call::Take(2, 2),
    Call::IsEmpty(true),
];

/// Rooms come back with what is taken.
const ONE_PARTY: [Call; 9] = [
    Call::Rooms(3),
    Call::Push(true),
    Call::Push(false),
    Call::Rooms(1),
    Call::Take(2, 2),
    Call::Rooms(3),
    Call::Take(0, 0),
    Call::Push(true),
    Call::Take(3, 1),
];

/// What a party does that is dropped, with two of four rooms.
const DROPPED: [Call; 2] = [Call::Push(true), Call::Rooms(1)];

/// The other finds the element of the party that was dropped, and gets its room.
const LEFT: [Call; 7] = [
    Call::IsEmpty(false),
    Call::Push(false),
    Call::Rooms(1),
    Call::Take(2, 2),
    Call::Rooms(3),
    Call::IsEmpty(true),
    Call::Push(true),
];

#[test]
fn calls_of_parties_return(rt: HostRuntime) {
    calls_return(&rt, rt.alloc(), 2, (0, &[]), &IS_EMPTY, 2);
    calls_return(&rt, rt.alloc(), 3, (0, &[]), &ONE_PARTY, 3);
    calls_return(&rt, rt.alloc(), 4, (2, &DROPPED), &LEFT, 2);
}

#[test]
fn rooms_are_split_and_absorbed(rt: HostRuntime) {
    let drops = no_drops(&rt, rt.alloc());
    let (stack, mut party) = new_stack(&rt, rt.alloc(), 5);
    let mut other = stack.split(&mut party, 2);
    have_rooms(&rt, (&party, &other), (3, 2));
    let one = element(&rt, rt.alloc(), 1, &drops);
    pushes(&rt, &stack, &mut other, one, true);
    let two = element(&rt, rt.alloc(), 2, &drops);
    pushes(&rt, &stack, &mut party, two, false);
    have_rooms(&rt, (&party, &other), (2, 1));
    stack.absorb(&mut party, other);
    have_rooms(&rt, (&party, &party), (3, 3));
    pops(&rt, stack.close(party), &[2, 1]);
}

#[test]
fn calls_that_may_wait_return_alone(rt: HostRuntime) {
    let drops = no_drops(&rt, rt.alloc());
    let (stack, mut party) = new_stack(&rt, rt.alloc(), 2);
    stack.push(&rt, &mut party, element(&rt, rt.alloc(), 1, &drops));
    let two = element(&rt, rt.alloc(), 2, &drops);
    same(&rt, stack.push_was_empty(&rt, &mut party, two), false);
    pops(&rt, stack.take_all(&mut party), &[2, 1]);
}

/// Asserts that a party takes nothing, and finds that nothing is held.
fn holds_nothing(rt: &impl Abort, stack: &TransferStack<Counted>, party: &mut Party<Counted>)
    requires { party.old.table ≡ stack.now }
    ensures { (party.new.table ≡ party.old.table) × (party.new.share ≡ party.old.share) }
{
    pops(rt, stack.take_all(party), &[]);
    same(rt, stack.is_empty(party), true);
}

#[test]
fn a_stack_without_rooms_returns_nothing(rt: HostRuntime) {
    let (stack, mut party) = new_stack(&rt, rt.alloc(), 0);
    let mut other = stack.split(&mut party, 0);
    have_rooms(&rt, (&party, &other), (0, 0));
    holds_nothing(&rt, &stack, &mut other);
    stack.absorb(&mut party, other);
    holds_nothing(&rt, &stack, &mut party);
    have_rooms(&rt, (&party, &party), (0, 0));
    pops(&rt, stack.close(party), &[]);
}

// It says more where an allocation is made to fail, as `tools/refusals` does: `new` then returns `Err`, and the next
// call, which meets none, makes a stack.
#[test]
fn makes_a_stack_after_refused_memory(rt: HostRuntime) {
    let (stack, party) = match TransferStack::<Counted>::new(rt.alloc(), 2) {
        Ok(made) => made,
        Err(AllocError) => new_stack(&rt, rt.alloc(), 2),
    };
    let calls = [Call::Rooms(2), Call::IsEmpty(true)];
    Seat::new(&stack, party).calls(&rt, &mut Stack::new(), &calls);
}
