//! Short examples with cursors, filters, owned consumers, cores and counts of steps.
ghost use Rattle.std.specs.Prelude.{◌≡◌, ◌+◌, ◌<◌, ◌≤◌, [], ◌∷◌, ◌++◌, length, map, slice_get, nat_le, not, Some, Ok, Err, IfOk, IfErr, MatchOption};
ghost use Rattle.std.specs.List.{filter};
ghost use Rattle.std.specs.List.Sorted.{IsSortedBy};
ghost use Rattle.std.specs.Ordering.{nat_cmp};
ghost use Rattle.cordyceps.specs.Elements.Element.{values};
ghost use Rattle.cordyceps.specs.Orders.Arrangement.{less, put};
ghost use Rattle.cordyceps.specs.Orders.Place.{comparisons};
ghost use Rattle.cordyceps.specs.QueueCores.{FindsInconsistent};

use crate::job::Job;
use crate::tour::{QueueJob, StackJob};
use cordyceps::mpsc_queue::{Batch, OwnedConsumer, QueueCore, QueueStep, TryDequeueError};
use cordyceps::sorted_list::Least;
use cordyceps::stack::{StepError, TransferAnswer, TransferCore, TransferStep};
use cordyceps::{List, MpscQueue, SortedList, Steps};
use std::alloc::{AllocError, Global};
use std::sync::Arc;

/// Returns the ranks of the first two jobs, or `None` if the list has fewer. It only reads the list.
///
/// # Complexity
/// O(1).
pub fn first_two_ranks(jobs: &List<Job>) -> Option<(u32, u32)>
    ensures { MatchOption result (length jobs.now < 2)
        (λ ranks. (slice_get (map (λ n. n.value.rank) jobs.now) 0 ≡ Some ranks.0)
        × (slice_get (map (λ n. n.value.rank) jobs.now) 1 ≡ Some ranks.1)) }
{
    let mut cursor = jobs.cursor_front();
    let first = cursor.current()?;
    // After the last job is the null place, at which `current` returns `None`.
    cursor.move_next();
    let second = cursor.current()?;
    Some((first.rank, second.rank))
}

/// Moves the jobs whose rank is at most `most` to the back of another list. The jobs of each list keep their order.
/// Requires that the sum of the lengths is at most `usize::MAX`. Allocates nothing.
///
/// # Complexity
/// O(n), for n jobs in `jobs`.
pub fn move_urgent(jobs: &mut List<Job>, most: u32, urgent: &mut List<Job>)
    requires { length jobs.old + length urgent.old ≤ usize.MAX }
    ensures moved { urgent.new ≡ urgent.old ++ filter (λ n. nat_le n.value.rank most) jobs.old }
    ensures kept { jobs.new ≡ filter (λ n. not (nat_le n.value.rank most)) jobs.old }
{
    let mut out = jobs.drain_filter(move |job: &Job| job.rank <= most);
    // `next` passes the jobs that stay, and returns the next one to move.
    while let Some(job) = out.next() {
        urgent.push_back(job);
    }
}

/// A worker that dequeues the jobs that are sent to it. Its consumer shares the ownership of the queue, so a worker
/// borrows nothing.
#[derive(Drop)]
pub struct Worker {
    /// The consumer of the worker's queue.
    pub jobs: OwnedConsumer<Job>,
}

/// Sends two jobs to a worker, and returns the jobs that the worker takes, the oldest first. The result is never
/// `None`, since no other party has the right to dequeue.
///
/// # Errors
/// If memory is refused, it returns `AllocError`, and the jobs are dropped.
///
/// # Complexity
/// O(1), with a fixed number of allocations.
///
/// # Waits
/// Never.
pub fn send_to_worker(
    alloc: Global,
    first: QueueJob,
    second: QueueJob,
) -> Result<Option<Batch<Job>>, AllocError>
    ensures { IfOk result (λ came. came ≡ Some (first ∷ second ∷ [])) }
{
    let (queue, mut party) = MpscQueue::<Job>::new(alloc, 8)?;
    queue.enqueue(&mut party, first);
    queue.enqueue(&mut party, second);
    let queue = Arc::new(alloc, queue)?;
    // The consumer shares the ownership of the queue and borrows nothing, so a struct can keep it.
    let Ok(jobs) = MpscQueue::try_consume_owned(queue, party) else {
        return Ok(None);
    };
    let mut worker = Worker { jobs };
    Ok(worker.jobs.take_linked(16).ok())
}

/// Pushes two jobs to a core by the steps of two parties, and takes both. The push of `late` comes between the steps of
/// the push of `early`, which therefore fails and is tried again. So `early` is pushed last and comes first.
///
/// # Errors
/// If memory is refused, it returns `Memory`, and the jobs are dropped.
///
/// # Complexity
/// O(1), with a fixed number of allocations.
pub fn push_meanwhile(alloc: Global, early: Job, late: Job) -> Result<Vec<Job>, StepError>
    ensures ok { IfOk result (λ taken. taken.items ≡ early ∷ late ∷ []) }
    ensures err { IfErr result (λ e. e ≡ StepError.Memory) }
{
    let mut core: TransferCore<Job> = TransferCore::new(alloc);
    let first = core.add_party()?;
    let second = core.add_party()?;
    core.add_room(first)?;
    core.add_room(second)?;
    let _ = core.step(first, TransferStep::Load(early));
    let _ = core.step(first, TransferStep::SetNext);
    // The other party takes all steps of its push.
    let _ = core.push_was_empty(second, late);
    // The head has changed, so the exchange of the first party fails, and its push is tried again.
    if let Ok(TransferAnswer::Failed(back)) = core.step(first, TransferStep::Exchange) {
        let _ = core.push_was_empty(first, back);
    }
    core.take_all(second)
}

/// Enqueues a job by the steps of a core, and returns the results of two tries of another party to dequeue. The try
/// before the last step finds `Inconsistent`, and the try after it returns the job.
///
/// # Errors
/// If memory is refused, it returns `Memory`, and the job is dropped.
///
/// # Complexity
/// O(1), with a fixed number of allocations.
pub fn dequeue_around_link(
    alloc: Global,
    job: Job,
) -> Result<(Result<Job, TryDequeueError>, Result<Job, TryDequeueError>), StepError>
    ensures ok { IfOk result (λ found. (found.0 ≡ Err FindsInconsistent) × (found.1 ≡ Ok job)) }
    ensures err { IfErr result (λ e. e ≡ StepError.Memory) }
{
    let mut core: QueueCore<Job> = QueueCore::new(alloc);
    let sender = core.add_party()?;
    let receiver = core.add_party()?;
    core.add_room(sender)?;
    let _ = core.step(sender, QueueStep::Clear(Some(job)));
    let _ = core.step(sender, QueueStep::Swap);
    // The job is in the queue, but no link leads to it yet, so this finds `Inconsistent`.
    let before = core.try_dequeue(receiver)?;
    let _ = core.step(sender, QueueStep::Link);
    let after = core.try_dequeue(receiver)?;
    Ok((before, after))
}

/// Inserts a job into a sorted list, and returns the number of comparisons that this takes. Requires a length below
/// `usize::MAX`. Allocates nothing.
///
/// # Complexity
/// That of `SortedList::insert`: O(1) if the rank is not less than that of the last job, and otherwise O(k), where k is
/// the number of jobs up to the first one with a greater rank.
pub fn insert_counted(jobs: &mut SortedList<Job, Least>, job: StackJob) -> u64
    requires { length jobs.old.elements < usize.MAX }
    ensures count { result ≡ comparisons (λ x y. nat_cmp x.rank y.rank) job.value (values jobs.old.elements) }
    ensures inserted { IsSortedBy (less (λ x y. nat_cmp x.rank y.rank)) jobs.old.elements
        → jobs.new.elements ≡ put (λ x y. nat_cmp x.rank y.rank) jobs.old.elements job }
    ensures len { length jobs.new.elements ≡ length jobs.old.elements + 1 }
{
    let mut steps = Steps::new();
    jobs.insert_in(job, &mut steps);
    steps.count()
}
