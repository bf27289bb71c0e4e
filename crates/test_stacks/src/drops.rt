//! How often blocks are dropped, wherever they are.
use crate::blocks::{Handle, block, dropped, no_drops, pair};
use crate::compared::made;
use crate::users::{Remote, gets, puts_own};
use freelist::{FreeList, Local};
use test_support::counted::{Counted, Drops};

/// Puts two blocks into a local part, and drops that.
fn put_and_drop(mut local: Local<'_, Counted>, own: (Handle, Handle)) {
    puts_own(&mut local, own);
    drop(local);
}

#[test]
fn a_dropped_local_part_drops_its_own_blocks(rt: HostRuntime) {
    let drops = no_drops(&rt, rt.alloc());
    let own = pair(&rt, rt.alloc(), 1, &drops);
    let three = made(&rt, block(rt.alloc(), 3, &drops));
    let (list, party) = made(&rt, FreeList::new(rt.alloc(), 2));
    let mut owner = Remote::at(&list, party);
    let mut remote = owner.split(&rt, 1);
    remote.puts(&rt, three, true);
    put_and_drop(owner.local(), own);
    dropped(&rt, &drops, 2);
    gets(&rt, &mut remote.local(), &[Some(3), None]);
    dropped(&rt, &drops, 3);
}

#[test]
fn each_block_drops_once(rt: HostRuntime) {
    let drops = no_drops(&rt, rt.alloc());
    let own = pair(&rt, rt.alloc(), 1, &drops);
    let shared = made(&rt, block(rt.alloc(), 3, &drops));
    let with_user = pair(&rt, rt.alloc(), 4, &drops);
    let (list, party) = made(&rt, FreeList::new(rt.alloc(), 1));
    let mut owner = Remote::at(&list, party);
    let mut remote = owner.split(&rt, 1);
    remote.puts(&rt, shared, true);
    dropped(&rt, &drops, 0);
    put_and_drop(owner.local(), own);
    drop(remote);
    dropped(&rt, &drops, 2);
    drop(list);
    dropped(&rt, &drops, 3);
    drop(with_user);
    dropped(&rt, &drops, 5);
}
