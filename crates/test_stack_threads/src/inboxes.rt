//! Elements that come out in the order in which they were pushed.
ghost use Rattle.std.specs.Prelude.{◌≡◌};

use crate::compared::same;
use crate::items::{dropped, element, no_drops, pops};
use crate::seats::{have_rooms, new_stack, pushes};
use cordyceps_stack::stack::{Inbox, Party, TransferStack};
use std::alloc::Global;
use std::process::Abort;
use test_support::counted::{Counted, Drops};
use test_support::nodes::number;

/// Pushes elements of these numbers by one party, each by one try.
fn push_all(
    rt: &impl Abort,
    alloc: Global,
    stack: &TransferStack<Counted>,
    party: &mut Party<Counted>,
    numbers: &[u64],
    drops: &Drops,
)
    requires { party.old.table ≡ stack.now }
    ensures table { party.new.table ≡ stack.now }
    ensures share { party.new.share ≡ party.old.share }
{
    let mut first = true;
    for wanted in numbers {
        let handle = element(rt, alloc, *wanted, drops);
        pushes(rt, stack, party, handle, first);
        first = false;
    }
}

/// Asserts the numbers that an inbox pops, and that then nothing is there.
fn receives(rt: &impl Abort, inbox: &mut Inbox<Counted>, wanted: &[u64])
    ensures table { inbox.new.party.table ≡ inbox.old.party.table }
    ensures share { inbox.new.party.share ≡ inbox.old.party.share }
{
    for wanted in wanted {
        same(rt, number(inbox.pop()), Some(*wanted));
    }
    same(rt, number(inbox.pop()), None);
}

#[test]
fn what_was_pushed_first_is_taken_first(rt: HostRuntime) {
    let drops = no_drops(&rt, rt.alloc());
    let (stack, mut party) = new_stack(&rt, rt.alloc(), 5);
    let mut other = stack.split(&mut party, 3);
    push_all(&rt, rt.alloc(), &stack, &mut other, &[1, 2, 3], &drops);
    pops(&rt, stack.take_all_in_order(&mut party), &[1, 2, 3]);
    pops(&rt, stack.take_all_in_order(&mut other), &[]);
    have_rooms(&rt, (&party, &other), (5, 0));
    push_all(&rt, rt.alloc(), &stack, &mut party, &[4, 5], &drops);
    pops(&rt, stack.take_all_in_order(&mut other), &[4, 5]);
    stack.absorb(&mut party, other);
    dropped(&rt, &drops, 5);
}

/// Lets an inbox receive what one sender pushes, before others come and after, and end with an element that it took and
/// another that it did not.
fn receive_in_order(rt: &impl Abort, alloc: Global, drops: &Drops) {
    let (stack, mut party) = new_stack(rt, alloc, 8);
    let mut sender = stack.split(&mut party, 8);
    let mut inbox = Inbox::new(&stack, party);
    receives(rt, &mut inbox, &[]);
    push_all(rt, alloc, &stack, &mut sender, &[1, 2], drops);
    same(rt, number(inbox.pop()), Some(1));
    push_all(rt, alloc, &stack, &mut sender, &[3, 4, 5], drops);
    receives(rt, &mut inbox, &[2, 3, 4, 5]);
    same(rt, inbox.give_back(), true);
    same(rt, inbox.give_back(), true);
    same(rt, stack.refill(&mut sender), 5);
    push_all(rt, alloc, &stack, &mut sender, &[6, 7], drops);
    same(rt, number(inbox.pop()), Some(6));
    push_all(rt, alloc, &stack, &mut sender, &[8], drops);
    let (left, mut party) = inbox.finish();
    pops(rt, left, &[7]);
    stack.absorb(&mut party, sender);
    pops(rt, stack.close(party), &[8]);
}

#[test]
fn an_inbox_receives_in_order(rt: HostRuntime) {
    let drops = no_drops(&rt, rt.alloc());
    receive_in_order(&rt, rt.alloc(), &drops);
    dropped(&rt, &drops, 8);
}
