//! The calls of priority queues.
ghost use Rattle.std.specs.Prelude.{◌≡◌, [], length, true, false, Some, None, MatchBool, MatchOption, ⊤};
ghost use Rattle.cordyceps_base.specs.BySpot.{HasSpot};
ghost use Rattle.cordyceps_c_timers.specs.Queues.{Changes, ChangesAt, IsFirst, Pops, Pushes, PushesAt, Queued};
ghost use Rattle.cordyceps_c_timers.specs.Queues.{Removes, RemovesAt};

use cordyceps_c_base::out::write_found;
use cordyceps_c_base::tickets::Ticket;
use cordyceps_c_timers::queue::{Item, Queue};
use cordyceps_c_timers::queue_handle::QueueHandle;
use cordyceps_stable::stable_list::Spot;
use std::alloc::Global;

/// Makes an empty queue, in a handle of nothing, and returns `true`. Its tickets have the number `collection`.
/// Returns `false` if memory is refused, or if the handle is not of nothing, and changes nothing then.
///
/// # Complexity
/// O(1), with one allocation.
#[unsafe(no_mangle)]
pub extern "C" fn cordyceps_queue_new(alloc: Global, collection: u32, out: &mut QueueHandle) -> bool
    ensures { MatchOption out.old.held
        (MatchBool result
        (out.new.held ≡ Some (record { nodes = []; collection = collection; given = 0 }))
        (out.new.held ≡ None))
        (λ q. (result ≡ false) × (out.new.held ≡ Some q)) }
{
    if let Some(held) = out.take(alloc) {
        out.put(held);
        return false;
    }
    match Box::new(alloc, Queue::new(alloc, collection)) {
        Ok(queue) => {
            out.put(queue);
            true
        }
        Err(_) => false,
    }
}

/// Inserts an item, writes its ticket to `*out` and returns `true`. It comes out after all whose keys are not greater.
/// Returns `false` if memory is refused, the queue has `SIZE_MAX` items, no ticket is left, or the handle is of
/// nothing, and changes nothing then.
///
/// # Complexity
/// O(1) amortized, without a comparison, with one allocation, and at times another for a larger table of tickets.
#[unsafe(no_mangle)]
pub extern "C" fn cordyceps_queue_push(
    alloc: Global,
    queue: &mut QueueHandle,
    key: u64,
    payload: u64,
    out: &mut Ticket,
) -> bool
    ensures { MatchOption queue.old.held
        ((result ≡ false) × (queue.new.held ≡ None) × (out.new ≡ out.old))
        (λ q. (r : Queued) × (queue.new.held ≡ Some r)
        × MatchBool result (Pushes key payload (Some out.new) q r)
        ((out.new ≡ out.old) × Pushes key payload None q r)) }
{
    let Some(mut held) = queue.take(alloc) else {
        return false;
    };
    let ticket = held.push(alloc, key, payload);
    queue.put(held);
    write_found(out, ticket)
}

/// Removes the first item into `*out` and returns `true`: the one of the least key, and of equal keys the one that was
/// pushed first. Returns `false` if the queue is empty or the handle is of nothing, and changes nothing then.
///
/// # Complexity
/// O(log n) amortized, for n items that were pushed. Frees one block.
#[unsafe(no_mangle)]
pub extern "C" fn cordyceps_queue_pop(
    alloc: Global,
    queue: &mut QueueHandle,
    out: &mut Item,
) -> bool
    ensures { MatchOption queue.old.held
        ((result ≡ false) × (queue.new.held ≡ None) × (out.new ≡ out.old))
        (λ q. (r : Queued) × (queue.new.held ≡ Some r)
        × MatchBool result (Pops (Some out.new) q r) ((out.new ≡ out.old) × Pops None q r)) }
{
    let Some(mut held) = queue.take(alloc) else {
        return false;
    };
    let first = held.pop();
    queue.put(held);
    write_found(out, first)
}

/// Copies the first item to `*out` and returns `true`. Returns `false` if the queue is empty or the handle is of
/// nothing; `*out` is unchanged then. The items stay as they are.
///
/// # Complexity
/// That of `cordyceps_queue_pop`.
#[unsafe(no_mangle)]
pub extern "C" fn cordyceps_queue_front(
    alloc: Global,
    queue: &mut QueueHandle,
    out: &mut Item,
) -> bool
    ensures first { MatchOption queue.old.held
        ((result ≡ false) × (out.new ≡ out.old))
        (λ q. MatchBool result (IsFirst (Some out.new) q) ((out.new ≡ out.old) × IsFirst None q)) }
    ensures kept { queue.new.held ≡ queue.old.held }
{
    let Some(mut held) = queue.take(alloc) else {
        return false;
    };
    let first = held.front();
    queue.put(held);
    write_found(out, first)
}

/// Removes the item that has the ticket into `*out` and returns `true`. Returns `false` if no item has it, or the
/// handle is of nothing, and changes nothing then.
///
/// # Complexity
/// O(1), without a comparison. Frees one block.
#[unsafe(no_mangle)]
pub extern "C" fn cordyceps_queue_remove(
    alloc: Global,
    queue: &mut QueueHandle,
    item: Ticket,
    out: &mut Item,
) -> bool
    ensures { MatchOption queue.old.held
        ((result ≡ false) × (queue.new.held ≡ None) × (out.new ≡ out.old))
        (λ q. (r : Queued) × (queue.new.held ≡ Some r)
        × MatchBool result (Removes item (Some out.new) q r) ((out.new ≡ out.old) × Removes item None q r)) }
{
    let Some(mut held) = queue.take(alloc) else {
        return false;
    };
    let removed = held.remove(item);
    queue.put(held);
    write_found(out, removed)
}

/// Gives another key to the item that has the ticket, as if it were pushed now, and returns `true`. The ticket stays
/// valid. Returns `false` if no item has it, or the handle is of nothing, and changes nothing then.
///
/// # Complexity
/// O(1), without a comparison and without an allocation.
#[unsafe(no_mangle)]
pub extern "C" fn cordyceps_queue_change(
    alloc: Global,
    queue: &mut QueueHandle,
    item: Ticket,
    key: u64,
) -> bool
    ensures { MatchOption queue.old.held
        ((result ≡ false) × (queue.new.held ≡ None))
        (λ q. (r : Queued) × (queue.new.held ≡ Some r) × Changes item key result q r) }
{
    let Some(mut held) = queue.take(alloc) else {
        return false;
    };
    let is_changed = held.change(item, key);
    queue.put(held);
    is_changed
}

/// Inserts an item without a ticket, writes its spot to `*out` and returns `true`. It comes out as one that
/// `cordyceps_queue_push` inserts. Returns `false` if memory is refused, the queue has `SIZE_MAX` items, or the handle
/// is of nothing, and changes nothing then.
///
/// # Complexity
/// O(1), without a comparison, with one allocation.
#[unsafe(no_mangle)]
pub extern "C" fn cordyceps_queue_push_unchecked(
    alloc: Global,
    queue: &mut QueueHandle,
    key: u64,
    payload: u64,
    out: &mut Spot,
) -> bool
    ensures { MatchOption queue.old.held
        ((result ≡ false) × (queue.new.held ≡ None) × (out.new ≡ out.old))
        (λ q. (r : Queued) × (queue.new.held ≡ Some r)
        × MatchBool result (PushesAt key payload (Some out.new) q r)
        ((out.new ≡ out.old) × PushesAt key payload None q r)) }
{
    let Some(mut held) = queue.take(alloc) else {
        return false;
    };
    let spot = held.push_unchecked(alloc, key, payload);
    queue.put(held);
    write_found(out, spot)
}

/// Removes the item at a spot into `*out` and returns `true`. Returns `false` if the handle is of nothing, and changes
/// nothing then. Requires that an item of the queue is there.
///
/// # Complexity
/// O(1), without a comparison. Frees one block.
#[unsafe(no_mangle)]
pub extern "C" fn cordyceps_queue_remove_unchecked(
    alloc: Global,
    queue: &mut QueueHandle,
    item: Spot,
    out: &mut Item,
) -> bool
    requires { MatchOption queue.old.held ⊤ (λ q. HasSpot q.nodes item) }
    ensures { MatchOption queue.old.held
        ((result ≡ false) × (queue.new.held ≡ None) × (out.new ≡ out.old))
        (λ q. (r : Queued) × (queue.new.held ≡ Some r) × (result ≡ true) × RemovesAt item out.new q r) }
{
    let Some(mut held) = queue.take(alloc) else {
        return false;
    };
    *out = held.remove_unchecked(item);
    queue.put(held);
    true
}

/// Gives another key to the item at a spot, as if it were pushed now, and returns `true`. Returns `false` if the handle
/// is of nothing, and changes nothing then. Requires that an item of the queue is there.
///
/// # Complexity
/// O(1), without a comparison and without an allocation.
#[unsafe(no_mangle)]
pub extern "C" fn cordyceps_queue_change_unchecked(
    alloc: Global,
    queue: &mut QueueHandle,
    item: Spot,
    key: u64,
) -> bool
    requires { MatchOption queue.old.held ⊤ (λ q. HasSpot q.nodes item) }
    ensures { MatchOption queue.old.held
        ((result ≡ false) × (queue.new.held ≡ None))
        (λ q. (r : Queued) × (queue.new.held ≡ Some r) × (result ≡ true) × ChangesAt item key q r) }
{
    let Some(mut held) = queue.take(alloc) else {
        return false;
    };
    held.change_unchecked(item, key);
    queue.put(held);
    true
}

/// Returns the number of items, which is 0 for the handle of nothing.
///
/// # Complexity
/// O(1).
#[unsafe(no_mangle)]
pub extern "C" fn cordyceps_queue_len(queue: &mut QueueHandle) -> usize
    ensures len { MatchOption queue.old.held (result ≡ 0) (λ q. result ≡ length q.nodes) }
    ensures kept { queue.new.held ≡ queue.old.held }
{
    if !queue.is_some() {
        return 0;
    }
    let len = queue.queue_mut().len();
    len
}

/// Frees the queue with all its items and returns `true`; the handle is of nothing then. Returns `false` if it was.
///
/// # Complexity
/// O(n), for n items.
#[unsafe(no_mangle)]
pub extern "C" fn cordyceps_queue_free(alloc: Global, queue: &mut QueueHandle) -> bool
    ensures freed { queue.new.held ≡ None }
    ensures found { MatchOption queue.old.held (result ≡ false) (λ _. result ≡ true) }
{
    queue.take(alloc).is_some()
}
