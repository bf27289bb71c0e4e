//! Blocks in a pool that threads share.
use crate::compared::{made, same};
use crate::made::node;
use cordyceps_shared_uses::pool::{Block, share};
use freelist::Stack;
use freelist::laws::Command;
use std::alloc::Global;
use std::process::Abort;

/// How often the threads run.
const ROUNDS: u64 = 20;

/// Returns blocks of the numbers from the first to the one before the end.
fn blocks(rt: &impl Abort, alloc: Global, first: u64, end: u64) -> Stack<Block> {
    let mut made = Stack::new();
    for number in first..end {
        made.push(node(rt, alloc, number, Block { bytes: [0; 64] }));
    }
    made
}

/// Counts the blocks of each number below six.
fn count(counts: &mut [u64; 6], blocks: Stack<Block>) {
    for block in blocks {
        if let Some(count) = counts.get_mut(block.id() as usize) {
            *count = count.wrapping_add(1);
        }
    }
}

#[test]
fn each_block_is_in_one_place(rt: HostRuntime) {
    let taker = [
        Command::Split(0),
        Command::Open,
        Command::Get,
        Command::Get,
        Command::Put,
        Command::Get,
    ];
    let giver = [Command::PutRemote, Command::PutRemote, Command::PutRemote];
    for _ in 0..ROUNDS {
        let all = (blocks(&rt, rt.alloc(), 1, 3), blocks(&rt, rt.alloc(), 3, 6));
        let given = share(&rt, rt.alloc(), 3, all, &taker, &giver);
        let (mine, yours, left) = made(&rt, given);
        let mut counts = [0; 6];
        count(&mut counts, mine);
        count(&mut counts, yours);
        count(&mut counts, left);
        same(&rt, counts, [0, 1, 1, 1, 1, 1]);
    }
}
