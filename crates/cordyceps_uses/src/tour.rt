//! Short examples with each collection.
ghost use Rattle.std.specs.Prelude.{◌≡◌, ◌+◌, ◌<◌, [], ◌∷◌, ◌++◌, take, drop, length, min, nat_eq, option_map, Some, IfOk, IfErr, OnOk, OnErr, MatchOption};
ghost use denote.RawPtr.{Ptr};
ghost use Rattle.cordyceps.specs.Elements.Nodes.{spots};
ghost use Rattle.cordyceps.specs.Orders.Arrangement.{IsEarliestLeast};
ghost use Rattle.cordyceps.specs.Spots.MultiList.{list_at};
ghost use Rattle.cordyceps.specs.Spots.Spots.{AreDistinct};
ghost use Rattle.cordyceps.specs.Spots.StableMap.{pairs};
ghost use Rattle.std.specs.Map.{lookup};
ghost use Rattle.cordyceps_uses.specs.Ranks.{comes_before};

use crate::job::Job;
use crate::waiting::Waiting;
use cordyceps::mpsc_queue::Batch;
use cordyceps::multi_list::{MultiList, MultiNode, Spot, Two};
use cordyceps::sorted_list::Least;
use cordyceps::stable_map::{MapNode, StableMap};
use cordyceps::stack::Inbox;
use cordyceps::{
    List, MpscQueue, Node, Refused, SortedList, StableList, Stack, TransferStack, list, mpsc_queue,
    stack,
};
use freelist::FreeList;
use std::alloc::{AllocError, Global};
use std::hash::BuildHasher;
use std::sync::ledger::{Ledger, Share};
use std::sync::{Mutex, Wait};

/// A job in a node for lists.
pub type ListJob = Node<Job, list::Links<Job>>;

/// A job in a node for stacks, sorted lists, free lists, and stacks that threads share.
pub type StackJob = Node<Job, stack::Links<Job>>;

/// A job in a node for queues that threads share.
pub type QueueJob = Node<Job, mpsc_queue::Links<Job>>;

/// Creates a list of three jobs, removes the second one and returns it. The other two are dropped.
///
/// # Errors
/// If memory for a node is refused, the job for that node is returned, and the other jobs are dropped.
///
/// # Complexity
/// O(1), with three allocations.
pub fn take_the_second(alloc: Global) -> Result<Option<ListJob>, Refused<Job>>
    ensures { IfOk result (λ job. option_map (λ n. n.id) job ≡ Some 2) }
{
    let mut jobs: List<Job> = List::new();
    // A node has a value, and a number that the caller chooses.
    jobs.push_back(Node::new(alloc, 1, Job { rank: 7 })?);
    jobs.push_back(Node::new(alloc, 2, Job { rank: 3 })?);
    jobs.push_back(Node::new(alloc, 3, Job { rank: 5 })?);
    let mut cursor = jobs.cursor_front_mut();
    cursor.move_next();
    Ok(cursor.remove_current())
}

/// Moves the first job to the back of the list. An empty list stays empty. Requires a length below `usize::MAX`.
///
/// # Complexity
/// O(1).
pub fn rotate(jobs: &mut List<Job>)
    requires { length jobs.old < usize.MAX }
    ensures { jobs.new ≡ drop 1 jobs.old ++ take 1 jobs.old }
{
    if let Some(first) = jobs.pop_front() {
        jobs.push_back(first);
    }
}

/// Removes the job with the least rank and returns it, or returns `None` if the list is empty. Of equals it removes the
/// first. The other jobs keep their order.
///
/// # Complexity
/// O(n), for n jobs.
pub fn take_least(jobs: &mut StableList<Job>) -> Option<ListJob>
    ensures least { MatchOption result ((jobs.old ≡ []) × (jobs.new ≡ []))
        (λ job. (spot : Ptr) × IsEarliestLeast comes_before jobs.old (spot, job) jobs.new) }
    ensures distinct { AreDistinct (spots jobs.new) }
{
    // The proof uses that no two jobs are at one spot.
    jobs.spots_are_distinct();
    let mut cursor = jobs.cursor_front();
    // This is the spot of the best job that the cursor has passed.
    let mut best = cursor.spot()?;
    cursor.move_next();
    while let Some(at) = cursor.spot() {
        if jobs.get(at).rank < jobs.get(best).rank {
            best = at;
        }
        cursor.move_next();
    }
    Some(jobs.remove(best))
}

/// Appends a job that came out of a queue to a list that threads share, and adds a ticket for it to the thread's share.
/// Requires that the share has a part of the ledger. Allocates nothing.
///
/// # Errors
/// If `usize::MAX` jobs wait, the job is returned, and no ticket is added.
///
/// # Complexity
/// O(1), once it has the lock.
///
/// # Waits
/// For the lock.
pub fn submit<L: Ledger, R: Wait>(
    rt: &R,
    waiting: &Mutex<Waiting<L>>,
    mine: &mut Share<L>,
    job: QueueJob,
) -> Result<(), ListJob>
    requires { 0 < mine.old.parts }
    ensures ok { OnOk result (mine.new.amount ≡ mine.old.amount + 1) }
    ensures err { OnErr result (mine.new.amount ≡ mine.old.amount) }
    ensures back { IfErr result (λ back. back ≡ job) }
    ensures parts { mine.new.parts ≡ mine.old.parts }
{
    // The node is converted into one for lists, which allocates nothing.
    waiting.lock(rt).put(mine, job.into_kind())
}

/// Removes a job from a list that threads share and returns it, for a ticket of the thread's share. Requires that the
/// share has a ticket: there is a job for each.
///
/// It is the job that has waited longest when the lock is taken, as [`Waiting::take`] promises. The contract here does
/// not state which job that is, since no clause can name what is under a lock.
///
/// # Complexity
/// O(1), once it has the lock.
///
/// # Waits
/// For the lock.
pub fn next_job<L: Ledger, R: Wait>(
    rt: &R,
    waiting: &Mutex<Waiting<L>>,
    mine: &mut Share<L>,
) -> ListJob
    requires { 0 < mine.old.amount }
    ensures ticket { mine.new.amount + 1 ≡ mine.old.amount }
    ensures parts { mine.new.parts ≡ mine.old.parts }
{
    waiting.lock(rt).take(mine)
}

/// Returns the lower of the ranks of two jobs, by a stack that becomes a sorted list. The result is never `None`, and
/// the jobs are dropped.
///
/// # Complexity
/// O(1).
pub fn least_rank(first: StackJob, second: StackJob) -> Option<u32>
    ensures { result ≡ Some (min first.value.rank second.value.rank) }
{
    let mut arrived: Stack<Job> = Stack::new();
    arrived.push(first);
    arrived.push(second);
    // The list has the same nodes, in order. Of equals, the one that was pushed last comes first.
    let jobs: SortedList<Job, Least> = SortedList::from_stack_min(arrived);
    Some(jobs.iter().next()?.rank)
}

/// Pushes two jobs to a stack that threads share, takes both at once and returns them, the last pushed first.
///
/// # Errors
/// If memory is refused, it returns `AllocError`, and the jobs are dropped.
///
/// # Complexity
/// O(1), with a fixed number of allocations, besides the tries of `TransferStack::push`.
///
/// # Waits
/// As `TransferStack::push`, which tries again while other parties come between its steps. Here no other thread has the
/// stack, so no party does.
pub fn hand_over<R: Wait>(
    rt: &R,
    alloc: Global,
    first: StackJob,
    second: StackJob,
) -> Result<Stack<Job>, AllocError>
    ensures { IfOk result (λ came. came ≡ second ∷ first ∷ []) }
{
    // The stack has eight rooms, and this party has them all.
    let (shared, mut taker) = TransferStack::<Job>::new(alloc, 8)?;
    // Another thread gets a party of its own, with four rooms.
    let mut pusher = shared.split(&mut taker, 4);
    // `push` tries until no other party comes between. `try_push` tries once, and may return the job.
    shared.push(rt, &mut pusher, first);
    shared.push(rt, &mut pusher, second);
    // When the other thread has ended, the taker absorbs its party, and has its rooms and its history.
    shared.absorb(&mut taker, pusher);
    Ok(shared.take_all(&mut taker))
}

/// Pushes two jobs to a stack that threads share, and receives the one that was pushed first.
///
/// # Errors
/// If memory is refused, it returns `AllocError`, and the jobs are dropped.
///
/// # Complexity
/// O(1), with a fixed number of allocations, besides the tries of `TransferStack::push`.
///
/// # Waits
/// As `hand_over`.
pub fn receive<R: Wait>(
    rt: &R,
    alloc: Global,
    first: StackJob,
    second: StackJob,
) -> Result<Option<StackJob>, AllocError>
    ensures { IfOk result (λ came. came ≡ Some first) }
{
    let (shared, mut taker) = TransferStack::<Job>::new(alloc, 8)?;
    let mut pusher = shared.split(&mut taker, 4);
    shared.push(rt, &mut pusher, first);
    shared.push(rt, &mut pusher, second);
    shared.absorb(&mut taker, pusher);
    // The inbox takes both jobs at once, and hands out the one that was pushed first.
    let mut inbox = Inbox::new(&shared, taker);
    let came = inbox.pop();
    // What it took and did not hand out is returned with its party.
    let (left, party) = inbox.finish();
    drop(left);
    drop(shared.close(party));
    Ok(came)
}

/// Sends two jobs through a queue, and returns those that have arrived, the oldest first. The result is never `None`,
/// since no other party has the right to dequeue.
///
/// # Errors
/// If memory is refused, it returns `AllocError`, and the jobs are dropped.
///
/// # Complexity
/// O(1), with a fixed number of allocations.
///
/// # Waits
/// Never.
pub fn send(
    alloc: Global,
    first: QueueJob,
    second: QueueJob,
) -> Result<Option<Batch<Job>>, AllocError>
    ensures { IfOk result (λ came. came ≡ Some (first ∷ second ∷ [])) }
{
    let (queue, mut party) = MpscQueue::<Job>::new(alloc, 8)?;
    let mut sender = queue.split(&mut party, 4);
    queue.enqueue(&mut sender, first);
    queue.enqueue(&mut sender, second);
    // When the sender has ended, the party absorbs it, and has its rooms and its history.
    queue.absorb(&mut party, sender);
    // A consumer has the right to dequeue, which one party has at a time.
    let Ok(mut consumer) = queue.try_consume(party) else {
        return Ok(None);
    };
    Ok(consumer.take_linked(16).ok())
}

/// Starts a job, which is then in the list of all jobs and, after the others, in that of the jobs that are ready.
///
/// # Complexity
/// O(1).
pub fn start_job(jobs: &mut MultiList<Job, Two>, job: MultiNode<Job, Two>) -> Spot
    requires all_fit { length (list_at 0 jobs.old.lists) < usize.MAX }
    requires ready_fit { length (list_at 1 jobs.old.lists) < usize.MAX }
    ensures all { list_at 0 jobs.new.lists ≡ list_at 0 jobs.old.lists ++ result ∷ [] }
    ensures ready { list_at 1 jobs.new.lists ≡ list_at 1 jobs.old.lists ++ result ∷ [] }
{
    // List 0 has every job.
    let spot = jobs.insert(job);
    // The same node is also in list 1.
    jobs.link_back(1, spot);
    spot
}

/// Puts a job into a table of jobs by their numbers, and among those that are ready. Returns the job that had the number
/// before, which is in no list any more.
///
/// Requires fewer than `usize::MAX` jobs.
///
/// # Complexity
/// O(1) expected.
pub fn admit_job<S: BuildHasher>(
    jobs: &mut StableMap<u64, Job, Two, S>,
    job: MapNode<u64, Job, Two>,
) -> Option<MapNode<u64, Job, Two>>
    requires all_fit { length (list_at 0 jobs.old.lists) < usize.MAX }
    requires ready_fit { length (list_at 1 jobs.old.lists) < usize.MAX }
    ensures found { lookup (nat_eq job.value.0) (pairs jobs.new.nodes) ≡ Some job.value.1 }
{
    // A node that has the key is replaced, and comes back.
    let inserted = jobs.insert(job);
    // The same node is also in list 1.
    jobs.link_back(1, inserted.spot);
    inserted.replaced
}

/// Puts a block back as the owner of a free list does, and another as another thread does, and then gets a block. It
/// gets `near`, which the owner put back, and `far` is dropped with the free list.
///
/// # Errors
/// If memory is refused, it returns `AllocError`, and the blocks are dropped.
///
/// # Complexity
/// O(1), with a fixed number of allocations.
///
/// # Waits
/// Never.
pub fn give_back(
    alloc: Global,
    near: StackJob,
    far: StackJob,
) -> Result<Option<StackJob>, AllocError>
    ensures { IfOk result (λ block. block ≡ Some near) }
{
    let (blocks, mut party) = FreeList::<Job>::new(alloc, 8)?;
    // Another thread gets a party of its own, and the owner gets the local part.
    let mut remote = blocks.split(&mut party, 8);
    let mut local = blocks.local(party);
    // The owner puts a block back without an atomic step.
    local.put(near);
    // If another party comes between, the block is returned as an `Err`, and can be put back again.
    let _ = blocks.put_remote(&mut remote, far);
    // The owner gets the block that it put back last. If it has none, it takes those that others put back.
    Ok(local.get())
}
