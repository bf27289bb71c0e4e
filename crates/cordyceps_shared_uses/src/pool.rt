//! A pool of blocks that two threads share.
ghost use Rattle.std.specs.Prelude.{◌≡◌, ◌≤◌, ◌++◌, IfOk};
ghost use Rattle.cordyceps.specs.Parties.Counts.{Same};
ghost use Rattle.cordyceps_shared_uses.specs.Pool.{Uses, BothUse};

use cordyceps::Node;
use freelist::laws::{Command, User, carry_out, close_all, retire};
use freelist::{FreeList, Linked, Links, Party, Stack};
use std::alloc::{AllocError, Global};
use std::thread;
use std::thread::Threads;

/// A block of memory.
#[derive(Drop)]
pub struct Block {
    pub bytes: [u8; 64],
}

/// A block in its node.
type Handle = Node<Block, Links<Block>>;

impl Linked<Links<Block>> for Block {
    type Handle = Handle;

    ghost element = { λ h. h };

    fn into_ptr(handle: Handle) -> Handle {
        handle
    }

    fn from_ptr(node: Handle) -> Handle
        ensures { result ≡ node }
    {
        node
    }
}

/// Takes blocks from the pool and puts some back, as the commands say. Returns all blocks that are then with the user,
/// and its party.
fn use_pool(
    pool: &FreeList<Block>,
    blocks: Stack<Block>,
    party: Party<Block>,
    commands: &[Command],
) -> (Stack<Block>, Party<Block>)
    requires { party.table ≡ pool.now }
    ensures uses { Uses pool.now commands.now blocks party result.0 result.1 }
    ensures table { result.1.table ≡ pool.now }
{
    let mut user = User::new(pool, blocks, party);
    carry_out(&mut user, commands);
    retire(user)
}

/// Calls `use_pool` in two threads, each with its own blocks, party and commands.
fn use_both<R: Threads>(
    rt: &R,
    pool: &FreeList<Block>,
    blocks: (Stack<Block>, Stack<Block>),
    parties: (Party<Block>, Party<Block>),
    first: &[Command],
    second: &[Command],
) -> ((Stack<Block>, Party<Block>), (Stack<Block>, Party<Block>))
    requires { (parties.0.table ≡ pool.now) × (parties.1.table ≡ pool.now) }
    ensures uses { Uses pool.now first.now blocks.0 parties.0 result.0.0 result.0.1
        × Uses pool.now second.now blocks.1 parties.1 result.1.0 result.1.1 }
    ensures table { (result.0.1.table ≡ pool.now) × (result.1.1.table ≡ pool.now) }
{
    let (mine, yours) = blocks;
    let (one, two) = parties;
    thread::join(
        rt,
        || -> (Stack<Block>, Party<Block>)
            requires { one.table ≡ pool.now }
            ensures { Uses pool.entry.now first.entry.now mine one result.0 result.1
                × (result.1.table ≡ pool.entry.now) }
        { use_pool(pool, mine, one, first) },
        || -> (Stack<Block>, Party<Block>)
            requires { two.table ≡ pool.now }
            ensures { Uses pool.entry.now second.entry.now yours two result.0 result.1
                × (result.1.table ≡ pool.entry.now) }
        { use_pool(pool, yours, two, second) },
    )
}

/// Creates a pool that two threads use at the same time, each by its commands. Returns the blocks that are then with
/// the first thread, with the second, and in the pool: each block that the two had at the start is there once, and no
/// other.
///
/// Each thread starts with `rooms` rooms, which bound the number of its blocks that wait in the pool, however many
/// commands it has. A block that it puts back for all uses one, and the thread that takes the block gets the room. A
/// thread without a room keeps the block. Requires that `rooms` is at most half of `MAX_ROOMS`.
///
/// # Errors
/// If memory for the rooms is refused, it returns `AllocError`, and the blocks are dropped.
///
/// # Complexity
/// O(`rooms`), and that of the commands.
///
/// # Waits
/// For both threads.
pub fn share<R: Threads>(
    rt: &R,
    alloc: Global,
    rooms: usize,
    blocks: (Stack<Block>, Stack<Block>),
    first: &[Command],
    second: &[Command],
) -> Result<(Stack<Block>, Stack<Block>, Stack<Block>), AllocError>
    requires { rooms ≤ 524288 }
    ensures runs { IfOk result (λ given.
        BothUse first.now second.now rooms blocks.0 blocks.1 given.0 given.1 given.2) }
    ensures same { IfOk result (λ given. Same (given.0 ++ (given.1 ++ given.2)) (blocks.0 ++ blocks.1)) }
{
    let (pool, mut party) = FreeList::new(alloc, 2 * rooms)?;
    let other = pool.split(&mut party, rooms);
    let ((left, mut last), (right, absorbed)) = use_both(
        rt,
        &pool,
        blocks,
        (party, other),
        first,
        second,
    );
    pool.absorb(&mut last, absorbed);
    Ok((left, right, close_all(pool, last)))
}
