//! Runs of many calls of lists that share their nodes, beside plain vectors that should hold the same.
ghost use Rattle.std.specs.Prelude.{◌≡◌, ◌+◌, ◌<◌};

use crate::calls::{Lists, holds, reply};
use crate::compared::same;
use crate::plain::{Call, Plain, Reply};
use cordyceps_many::hooks::{Four, Hooks, One, Three, Two};
use cordyceps_many::multi_list::MultiList;
use std::alloc::Global;
use std::process::Abort;
use test_support::draws::Draws;

/// The lists have at most so many nodes, so that a walk to one is short.
const MOST: usize = 12;

/// After so many calls all that the lists hold is compared. The replies are compared after each call.
const COMPARED: u64 = 64;

/// Draws a call of lists that have so many nodes. The last of them is list `last`. A new node has this number.
fn drawn(draws: &mut Draws, len: usize, last: usize, number: u64) -> Call {
    let value = draws.below(1000);
    let i = draws.place(last.min(MOST));
    if len == 0 {
        return Call::Insert((number, value));
    }
    let at = draws.place(len.saturating_sub(1));
    let other = draws.place(len.saturating_sub(1));
    match draws.below(22) {
        0 | 1 | 2 if len < MOST => Call::Insert((number, value % 8)),
        0 => Call::Remove(at),
        1 => Call::PopFront(i),
        2 => Call::UnlinkOthers(at),
        3 => Call::Write(at, value),
        4 | 5 => Call::LinkBack(i, at),
        6 | 7 => Call::LinkFront(i, at),
        8 | 9 => Call::LinkBefore(i, at, other),
        10 | 11 => Call::LinkAfter(i, at, other),
        12 => Call::MoveToBack(i, at),
        13 => Call::MoveToFront(i, at),
        14 | 15 => Call::Unlink(i, at),
        16 => Call::EnsureUnlinked(i, at),
        17 => Call::Remove(at),
        18 if value == 0 => Call::Clear,
        // few values are drawn, so that some are equal
        18 => Call::Write(at, value % 8),
        20 | 21 => Call::LinkInOrder(i, at),
        _ => Call::UnlinkFront(i),
    }
}

/// Makes a call of lists and does the same to vectors. Asserts that both reply and hold the same.
pub fn agree<H: Hooks>(
    rt: &impl Abort,
    alloc: Global,
    lists: &mut Lists<H>,
    last: usize,
    plain: &mut Plain,
    call: Call,
) -> Reply
    requires { last < H.count }
{
    let wanted = plain.call(rt, call);
    let came = reply(rt, alloc, lists, last, call);
    same(rt, came, wanted);
    holds(rt, lists, last, plain);
    came
}

/// Makes so many drawn calls of lists, of which list `last` is the last, beside vectors.
fn run<H: Hooks>(rt: &impl Abort, alloc: Global, last: usize, calls: u64)
    requires { last < H.count }
{
    let mut draws = Draws::new(last as u64);
    let mut lists: Lists<H> = MultiList::new();
    let mut plain = Plain::new(rt, alloc, last.wrapping_add(1));
    let mut number = 0;
    for turn in 0..calls {
        let call = drawn(&mut draws, plain.list(0).len(), last, number);
        if let Call::Insert(_) = call {
            number = number.wrapping_add(1);
        }
        let wanted = plain.call(rt, call);
        same(rt, reply(rt, alloc, &mut lists, last, call), wanted);
        if turn % COMPARED == 0 {
            holds(rt, &lists, last, &plain);
        }
    }
    holds(rt, &lists, last, &plain);
    same(rt, number > 0, true);
}

#[test]
fn many_calls_of_one_list_do_what_they_do_to_a_vector(rt: HostRuntime) {
    run::<One>(&rt, rt.alloc(), 0, 200_000);
}

#[test]
fn many_calls_of_two_lists_do_what_they_do_to_vectors(rt: HostRuntime) {
    run::<Two>(&rt, rt.alloc(), 1, 400_000);
}

#[test]
fn many_calls_of_three_lists_do_what_they_do_to_vectors(rt: HostRuntime) {
    run::<Three>(&rt, rt.alloc(), 2, 400_000);
}

#[test]
fn many_calls_of_four_lists_do_what_they_do_to_vectors(rt: HostRuntime) {
    run::<Four>(&rt, rt.alloc(), 3, 50_000);
}
