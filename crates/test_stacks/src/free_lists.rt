//! Calls of a free list, one after the other.
ghost use Rattle.std.specs.Prelude.{◌≡◌};

use crate::blocks::{Handle, block, dropped, no_drops, pair, pops, two_of};
use crate::compared::{made, same};
use crate::users::{Remote, finishes, gets, have_rooms, puts, puts_own};
use freelist::{FreeList, Local, Party, Stack};
use std::alloc::AllocError;
use std::process::Abort;
use test_support::counted::{Counted, Drops};
use test_support::nodes::number;

#[test]
fn local_blocks_come_before_shared_ones(rt: HostRuntime) {
    let drops = no_drops(&rt, rt.alloc());
    let own = pair(&rt, rt.alloc(), 1, &drops);
    let (three, four) = pair(&rt, rt.alloc(), 3, &drops);
    let (list, party) = made(&rt, FreeList::new(rt.alloc(), 3));
    let mut owner = Remote::at(&list, party);
    let mut remote = owner.split(&rt, 2);
    let mut local = owner.local();
    puts_own(&mut local, own);
    remote.puts(&rt, three, true);
    remote.puts(&rt, four, false);
    let wanted = [Some(2), Some(1), Some(4), Some(3), None];
    gets(&rt, &mut local, &wanted);
    finishes(&rt, local, 3);
    dropped(&rt, &drops, 4);
}

#[test]
fn a_close_returns_what_is_shared(rt: HostRuntime) {
    let drops = no_drops(&rt, rt.alloc());
    let (one, two) = pair(&rt, rt.alloc(), 1, &drops);
    let (list, mut party) = made(&rt, FreeList::new(rt.alloc(), 5));
    let mut other = list.split(&mut party, 2);
    have_rooms(&rt, (&party, &other), (3, 2));
    puts(&rt, &list, &mut other, one, true);
    puts(&rt, &list, &mut party, two, false);
    have_rooms(&rt, (&party, &other), (2, 1));
    list.absorb(&mut party, other);
    have_rooms(&rt, (&party, &party), (3, 3));
    pops(&rt, list.close(party), &[2, 1]);
}

/// Has a local part get nothing, and ends it. Returns its party.
fn gets_nothing(rt: &impl Abort, list: &FreeList<Counted>, party: Party<Counted>) -> Party<Counted>
    requires { party.table ≡ list.now }
    ensures { (result.table ≡ party.table) × (result.share ≡ party.share) }
{
    let mut local = list.local(party);
    same(rt, number(local.get()), None);
    let (blocks, party) = local.finish();
    pops(rt, blocks, &[]);
    party
}

#[test]
fn a_free_list_without_rooms_shares_nothing(rt: HostRuntime) {
    let (list, mut party) = made(&rt, FreeList::<Counted>::new(rt.alloc(), 0));
    let other = list.split(&mut party, 0);
    have_rooms(&rt, (&party, &other), (0, 0));
    let other = gets_nothing(&rt, &list, other);
    list.absorb(&mut party, other);
    have_rooms(&rt, (&party, &party), (0, 0));
    pops(&rt, list.close(party), &[]);
}

#[test]
fn blocks_of_a_stack_are_put_back_at_once(rt: HostRuntime) {
    let drops = no_drops(&rt, rt.alloc());
    let (one, two) = pair(&rt, rt.alloc(), 1, &drops);
    let (three, four) = pair(&rt, rt.alloc(), 3, &drops);
    let (list, party) = made(&rt, FreeList::new(rt.alloc(), 4));
    let mut owner = Remote::at(&list, party);
    let mut remote = owner.split(&rt, 4);
    remote.puts_all(&rt, 2, two_of(three, four), true);
    remote.puts_all(&rt, 2, two_of(one, two), false);
    same(&rt, remote.rooms(), 0);
    let mut local = owner.local();
    let wanted = [Some(1), Some(2), Some(3), Some(4), None];
    gets(&rt, &mut local, &wanted);
    finishes(&rt, local, 4);
    remote.puts_all(&rt, 0, Stack::new(), true);
    dropped(&rt, &drops, 4);
}

// The owner gives back the rooms of the blocks that it took, and the other party puts blocks into them.
#[test]
fn rooms_of_taken_blocks_come_back(rt: HostRuntime) {
    let drops = no_drops(&rt, rt.alloc());
    let (one, two) = pair(&rt, rt.alloc(), 1, &drops);
    let (list, party) = made(&rt, FreeList::new(rt.alloc(), 1));
    let mut owner = Remote::at(&list, party);
    let mut remote = owner.split(&rt, 1);
    let mut local = owner.local();
    remote.puts(&rt, one, true);
    gets(&rt, &mut local, &[Some(1)]);
    same(&rt, (local.give_back(), remote.refill()), (true, 1));
    remote.puts(&rt, two, true);
    gets(&rt, &mut local, &[Some(2), None]);
    same(&rt, (local.give_back(), local.give_back()), (true, true));
    finishes(&rt, local, 0);
    same(&rt, (remote.refill(), remote.rooms()), (1, 1));
    same(&rt, remote.refill(), 0);
    same(&rt, (remote.give_back(&rt, 1), remote.rooms()), (true, 0));
    dropped(&rt, &drops, 2);
}

// The owner has blocks of its own, so `get` takes nothing that is shared. It takes that in, and its rooms come back.
#[test]
fn an_owner_with_blocks_takes_in_what_is_shared(rt: HostRuntime) {
    let drops = no_drops(&rt, rt.alloc());
    let own = pair(&rt, rt.alloc(), 1, &drops);
    let (three, four) = pair(&rt, rt.alloc(), 3, &drops);
    let five = made(&rt, block(rt.alloc(), 5, &drops));
    let (list, party) = made(&rt, FreeList::new(rt.alloc(), 2));
    let mut owner = Remote::at(&list, party);
    let mut remote = owner.split(&rt, 2);
    let mut local = owner.local();
    puts_own(&mut local, own);
    remote.puts(&rt, three, true);
    remote.puts(&rt, four, false);
    same(&rt, (local.give_back(), remote.refill()), (true, 0));
    local.take_shared();
    same(&rt, (local.give_back(), remote.refill()), (true, 2));
    remote.puts(&rt, five, true);
    let wanted = [Some(3), Some(4), Some(2), Some(1), Some(5), None];
    gets(&rt, &mut local, &wanted);
    finishes(&rt, local, 1);
    same(&rt, remote.rooms(), 1);
    dropped(&rt, &drops, 5);
}

// A party uses its own room and leaves the pool alone, then takes the two rooms there; another finds none.
#[test]
fn blocks_are_put_back_into_rooms_of_the_pool(rt: HostRuntime) {
    let drops = no_drops(&rt, rt.alloc());
    let (one, two) = pair(&rt, rt.alloc(), 1, &drops);
    let (three, four) = pair(&rt, rt.alloc(), 3, &drops);
    let (list, party) = made(&rt, FreeList::new(rt.alloc(), 3));
    let mut owner = Remote::at(&list, party);
    let mut remote = owner.split(&rt, 1);
    same(&rt, owner.give_back(&rt, 2), true);
    remote.refills_and_puts(&rt, one, Some(true));
    same(&rt, (owner.rooms(), remote.rooms()), (0, 0));
    remote.refills_and_puts(&rt, two, Some(false));
    same(&rt, (owner.rooms(), remote.rooms()), (0, 1));
    owner.refills_and_puts(&rt, four, None);
    remote.refills_and_puts(&rt, three, Some(false));
    same(&rt, (owner.rooms(), remote.rooms()), (0, 0));
    let mut local = owner.local();
    gets(&rt, &mut local, &[Some(3), Some(2), Some(1), None]);
    finishes(&rt, local, 3);
    dropped(&rt, &drops, 4);
}

// Each takes a part of the rooms of the pool, first by itself and then to put a block back, and leaves the rest there.
#[test]
fn parties_share_the_rooms_of_the_pool(rt: HostRuntime) {
    let drops = no_drops(&rt, rt.alloc());
    let (one, two) = pair(&rt, rt.alloc(), 1, &drops);
    let (list, party) = made(&rt, FreeList::new(rt.alloc(), 100));
    let mut owner = Remote::at(&list, party);
    let mut remote = owner.split(&rt, 0);
    same(&rt, owner.give_back(&rt, 100), true);
    same(
        &rt,
        (remote.refill_at_most(0), remote.refill_at_most(3)),
        (0, 3),
    );
    same(&rt, (remote.refill_at_most(2), remote.rooms()), (2, 5));
    remote.puts(&rt, one, true);
    owner.refills_and_puts(&rt, two, Some(false));
    same(&rt, (owner.rooms(), remote.rooms()), (63, 4));
    same(&rt, (remote.give_all_back(), remote.rooms()), (true, 0));
    same(&rt, (remote.refill_at_most(100), remote.rooms()), (35, 35));
    same(&rt, remote.refill_at_most(1), 0);
    let mut local = owner.local();
    gets(&rt, &mut local, &[Some(2), Some(1), None]);
    finishes(&rt, local, 65);
    dropped(&rt, &drops, 2);
}

/// Tells an owner of blocks by a receipt and by its copy, after the owner has told that it has seen nothing.
fn tell_an_owner(
    rt: &impl Abort,
    list: &FreeList<Counted>,
    party: Party<Counted>,
    blocks: (Handle, Handle),
)
    requires { party.table ≡ list.now }
{
    let mut party = party;
    let (one, two) = blocks;
    let other = list.split(&mut party, 0);
    let mut local = list.local(other);
    list.learn(&mut party, local.receipt());
    puts(rt, list, &mut party, one, true);
    puts(rt, list, &mut party, two, false);
    let mut receipt = list.receipt(&mut party);
    local.learn(list.copy_receipt(&mut receipt));
    local.learn(receipt);
    drop(list.receipt(&mut party));
    gets(rt, &mut local, &[Some(2), Some(1), None]);
    finishes(rt, local, 2);
}

#[test]
fn an_owner_who_was_told_gets_each_block(rt: HostRuntime) {
    let drops = no_drops(&rt, rt.alloc());
    let two = pair(&rt, rt.alloc(), 1, &drops);
    let (list, party) = made(&rt, FreeList::new(rt.alloc(), 2));
    tell_an_owner(&rt, &list, party, two);
    dropped(&rt, &drops, 2);
}

/// Puts a block back for all and gets it.
fn put_and_get_one(
    rt: &impl Abort,
    mut remote: Remote<'_>,
    mut local: Local<'_, Counted>,
    one: Handle,
) {
    remote.puts(rt, one, true);
    gets(rt, &mut local, &[Some(1), None]);
    finishes(rt, local, 2);
}

// It says more where an allocation is made to fail, as `tools/refusals` does: `new` then returns `Err`, and the next
// call, which meets none, makes a free list.
#[test]
fn makes_a_free_list_after_refused_memory(rt: HostRuntime) -> Result<(), AllocError> {
    let (list, party) = match FreeList::<Counted>::new(rt.alloc(), 2) {
        Ok(made) => made,
        Err(AllocError) => FreeList::new(rt.alloc(), 2)?,
    };
    let drops = Drops::new(rt.alloc())?;
    let one = block(rt.alloc(), 1, &drops)?;
    let mut owner = Remote::at(&list, party);
    let remote = owner.split(&rt, 1);
    put_and_get_one(&rt, remote, owner.local(), one);
    Ok(())
}
