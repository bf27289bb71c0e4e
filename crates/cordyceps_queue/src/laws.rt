//! Laws of histories and of queues. Each is a function whose contract is the law. One about all histories has an empty
//! body, and one about calls has these calls as its body.
ghost use Rattle.std.specs.Prelude.{◌≡◌, ◌≢◌, ◌≤◌, ◌++◌, map, length, true, Ok, Err};
ghost use Rattle.cordyceps_shared.specs.Histories.{plain};
ghost use Rattle.cordyceps_shared.specs.Shares.{whole};
ghost use Rattle.cordyceps_queue.specs.Bells.{HeldAreOwed};
ghost use Rattle.cordyceps_queue.specs.History.{held};
ghost use Rattle.cordyceps_queue.specs.Laws.{LegalBothWays, BlockedBothWays, WasBlockedBothWays, ProducersInOrder, OneHolder};
ghost use Rattle.cordyceps_queue.specs.Laws.{BusyIsAnothers, BlockedIsAnothers, BlockedTryIsAnothers};
ghost use Rattle.cordyceps_queue.specs.Laws.{CallsBalance, NoRoomIsLost};
ghost use Rattle.cordyceps_queue.specs.Laws.{EmptyMeansGone, HolderFinds, ToldFinds};
ghost use Rattle.cordyceps_queue.specs.Laws.{NoneFoundIsOwed, BlockerIsOwing};
ghost use Rattle.cordyceps_queue.specs.Shared.Bell.{TriesOrSleeps, NoOtherClears, BlockerOwes};
ghost use Rattle.cordyceps_queue.specs.Shared.Calls.{same_name};
ghost use Rattle.cordyceps_queue.specs.Shared.Receipts.{TellsOfMore};
ghost use Rattle.cordyceps_queue.specs.Cores.Machine.{after_step};
ghost use Rattle.cordyceps_queue.specs.declared.cores.steps.QueueAnswer.TheVariants as answers;
ghost use Rattle.cordyceps_queue.specs.declared.cores.steps.QueueStep.TheVariants as kinds;
ghost use Rattle.cordyceps_queue.specs.declared.cores.steps.TryDequeueError.TheVariants as error;

use crate::cores::calls::QueueCore;
use crate::cores::steps::{QueueAnswer, QueueStep, TryDequeueError};
use crate::shared::batch::Batch;
use crate::shared::calls::{Closed, MpscQueue, Party};
use crate::shared::consumer::Consumer;
use crate::shared::receipt::Receipt;
use cordyceps_base::linked::Linked;
use cordyceps_base::mpsc_queue::Links;
use cordyceps_base::shared::StepError;
use std::sync::Wait;

/// States that two readings of a history agree: it is legal by its prefixes exactly if it is legal event by event, and
/// blocked by its counts exactly if the oldest or second oldest element is of a party that has not linked it.
///
/// # Complexity
/// O(1): it does nothing.
pub fn both_ways<P, E>()
    ensures legal { LegalBothWays P E }
    ensures blocked { BlockedBothWays P E }
    ensures was_blocked { WasBlockedBothWays P E }
{}

/// States that the elements of one producer leave in its order, in each legal history: those that came out, and then
/// those that are held, are what that party put in, in order.
///
/// # Complexity
/// O(1): it does nothing.
pub fn producers_in_order<P, E>()
    ensures { ProducersInOrder P E }
{}

/// States that at most one party has the right to dequeue, in each legal history: the one that took it once more than
/// it gave it back.
///
/// # Complexity
/// O(1): it does nothing.
pub fn one_holder<P, E>()
    ensures { OneHolder P E }
{}

/// States that `Busy` and `Inconsistent` are caused by others: if a party finds the right taken or a try blocked, it is
/// by a name that is none of its own.
///
/// # Complexity
/// O(1): it does nothing.
pub fn others_doing<E>()
    ensures busy { BusyIsAnothers E }
    ensures blocked { BlockedIsAnothers E }
    ensures blocked_try { BlockedTryIsAnothers E }
{}

/// States how the rooms of a party add up over its calls: each element that it puts in takes a room, each that it takes
/// out gives one, and the others come from the pool or go there. So by the calls of a whole party no room is lost.
///
/// # Complexity
/// O(1): it does nothing.
pub fn rooms_balance<E>()
    ensures calls { CallsBalance E }
    ensures none_lost { NoRoomIsLost E }
{}

/// States what a party finds that knows of elements, because it has seen them come in or has learned a receipt. A try
/// finds nothing only if all that had come in, by what the party knew, has gone out. And a party that has the right to
/// dequeue, and knows of more elements that came in than went out, does not find nothing.
///
/// # Complexity
/// O(1): it does nothing.
pub fn told_finds<E>()
    ensures gone { EmptyMeansGone E }
    ensures holder { HolderFinds E }
    ensures told { ToldFinds E }
{}

/// Learns a receipt that tells of more elements than have gone out by what the consumer has seen, and tries once to
/// dequeue. The try does not find nothing.
///
/// # Complexity
/// O(1).
pub fn try_told<T: Linked<Links<T>>>(
    consumer: &mut Consumer<'_, T>,
    receipt: Receipt<T>,
) -> Result<T::Handle, TryDequeueError>
    requires table { receipt.table ≡ consumer.old.table }
    requires more { TellsOfMore receipt.told consumer.old }
    ensures { result ≢ Err error.Empty }
{
    let _rooms = consumer.rooms();
    consumer.learn(receipt);
    consumer.try_dequeue()
}

/// Enqueues the elements of a batch by a whole party, and closes the queue. They leave in order after those that were
/// held, and the stub is returned.
///
/// # Complexity
/// O(r), for r rooms of the queue.
pub fn close_behind<T: Linked<Links<T>>>(
    queue: MpscQueue<T>,
    mut party: Party<T>,
    mut elements: Batch<T>,
) -> Closed<T>
    requires table { party.table ≡ queue.table }
    requires whole { party.share ≡ whole }
    requires rooms { length elements ≤ party.rooms }
    ensures elements { result.elements ≡ map T.element (held (plain party.seen)) ++ elements }
    ensures stub { result.stub ≡ queue.stub }
{
    while let Some(handle) = elements.next() {
        queue.enqueue(&mut party, handle);
    }
    queue.close(party)
}

/// States who has yet to ring the bell. Let a try find nothing, nobody clear the bell after it, and the bell be quiet.
/// Then each party that put in an element that is held has yet to ring. And if the try was blocked instead, the party
/// that blocked it has yet to ring.
///
/// # Complexity
/// O(1): it does nothing.
pub fn rings_are_owed<P, E>()
    ensures none { NoneFoundIsOwed P E }
    ensures blocked { BlockerIsOwing P E }
{}

/// Clears the bell, tries once to dequeue, and sleeps if it gets no element. Returns the element, or why there was none
/// and whether the party slept.
///
/// If it slept, and no other party cleared the bell meanwhile, it is owed a ring. If its try found nothing, each party
/// that put in an element that was held when it went to sleep had yet to ring. If its try was blocked, the party that
/// blocked it had yet to ring.
///
/// # Complexity
/// O(1). If it sleeps, it also calls the kernel.
///
/// # Waits
/// For a ring.
pub fn sleeper_is_owed<T: Linked<Links<T>>, R: Wait>(
    rt: &R,
    queue: &MpscQueue<T>,
    party: &mut Party<T>,
) -> Result<T::Handle, (TryDequeueError, bool)>
    requires { party.old.table ≡ queue.now.table }
    ensures calls { TriesOrSleeps result party.old party.new }
    ensures found_none { result ≡ Err (error.Empty, true) → NoOtherClears party.old party.new →
        HeldAreOwed same_name (plain party.new.seen) }
    ensures was_blocked { result ≡ Err (error.Inconsistent, true) → NoOtherClears party.old party.new →
        BlockerOwes party.old party.new }
{
    queue.clear_bell(party);
    match queue.try_dequeue(party) {
        Ok(handle) => Ok(handle),
        Err(why) => Err((why, queue.sleep(rt, party))),
    }
}

/// What a step of a core returns.
type Answered<E> = Result<QueueAnswer<E>, (StepError, Option<E>)>;

/// Takes the right to dequeue by one party and then by another. At most one of the two gets it, at any core.
///
/// # Complexity
/// O(1).
pub fn take_twice<E: Drop>(
    core: &mut QueueCore<E>,
    first: usize,
    second: usize,
) -> (Answered<E>, Answered<E>)
    ensures one { result.0 ≡ (after_step core.old first kinds.Take).1 }
    ensures other { result.1 ≡ (after_step (after_step core.old first kinds.Take).0 second kinds.Take).1 }
    ensures core { core.new ≡ (after_step (after_step core.old first kinds.Take).0 second kinds.Take).0 }
    ensures law { result.0 ≡ Ok answers.Taken → result.1 ≡ Ok answers.Taken → ⊥ }
{
    let one = core.step(first, QueueStep::Take);
    let other = core.step(second, QueueStep::Take);
    (one, other)
}
