//! The calls of inboxes.
ghost use Rattle.std.specs.Prelude.{◌≡◌, true, false, Some, None, MatchBool, MatchOption, Result};
ghost use Rattle.cordyceps_base.specs.Element.{Element};
ghost use Rattle.cordyceps_shared.specs.Shares.{whole};
ghost use Rattle.cordyceps_queue.specs.declared.cores.steps.TryDequeueError.{TryDequeueError};
ghost use Rattle.cordyceps_queue.specs.Shared.Calls.{IsCertain};
ghost use Rattle.cordyceps_c_shared.specs.Inboxes.{IsNew, SplitsOff, TakesOver, KeepsOrRejoins, TriesToSend};
ghost use Rattle.cordyceps_c_shared.specs.Inboxes.{HoldsTried, SendsNode, letter_of};
ghost use Rattle.cordyceps_c_shared.specs.Inboxes.{GivesRooms, Receives};
ghost use Rattle.cordyceps_c_shared.specs.Inboxes.{number_of_sent, number_of_try, payload_after};
ghost use Rattle.cordyceps_c_shared.specs.declared.inbox.Inbox.{Inbox};
ghost use Rattle.cordyceps_c_base.specs.declared.carried.Carried.{Carried};
ghost use Rattle.cordyceps_c_base.specs.Elements.{HoldsElement, HoldsNode};
ghost use Rattle.cordyceps_c_shared.specs.declared.inbox.Sent.{Sent};

use cordyceps_c_base::node_handle::NodeHandle;
use cordyceps_c_shared::answers::{DONE, FULL, NOTHING, number_of};
use cordyceps_c_shared::inbox::Inbox;
use cordyceps_c_shared::inbox_handle::InboxHandle;
use cordyceps_queue::mpsc_queue::MAX_ROOMS;
use std::alloc::{AllocFailed, Global};

/// Makes an inbox of `rooms` rooms, of which this handle has all, in a handle of nothing, and returns `true`. Returns
/// `false` if there are more than `MAX_ROOMS`, memory is refused, or the handle is not of nothing, and changes nothing
/// then.
///
/// # Complexity
/// O(`rooms`), with six allocations.
#[unsafe(no_mangle)]
pub extern "C" fn cordyceps_inbox_new(alloc: Global, rooms: usize, out: &mut InboxHandle) -> bool
    ensures { MatchOption out.old.held
        (MatchBool result ((i : Inbox) × (out.new.held ≡ Some i) × IsNew rooms i) (out.new.held ≡ None))
        (λ i. (result ≡ false) × (out.new.held ≡ Some i)) }
{
    if let Some(held) = out.take(alloc) {
        out.put(held);
        return false;
    }
    if rooms > MAX_ROOMS {
        return false;
    }
    let Some(inbox) = Inbox::new(alloc, rooms) else {
        return false;
    };
    match Box::new(alloc, inbox) {
        Ok(inbox) => {
            out.put(inbox);
            true
        }
        Err(_) => false,
    }
}

/// Makes a further handle of the same inbox, without rooms, in a handle of nothing, and returns `true`. Returns `false`
/// if memory is refused, the first handle is of nothing or the second is not, and nothing has changed then.
///
/// # Complexity
/// O(1), with one allocation.
#[unsafe(no_mangle)]
pub extern "C" fn cordyceps_inbox_split(
    alloc: Global,
    inbox: &mut InboxHandle,
    out: &mut InboxHandle,
) -> bool
    ensures { MatchOption inbox.old.held
        ((result ≡ false) × (inbox.new.held ≡ None) × (out.new.held ≡ out.old.held))
        (λ i. (j : Inbox) × (inbox.new.held ≡ Some j) × MatchBool result
        ((k : Inbox) × (out.old.held ≡ None) × (out.new.held ≡ Some k) × SplitsOff i j k)
        ((out.new.held ≡ out.old.held) × KeepsOrRejoins i j)) }
{
    if let Some(held) = out.take(alloc) {
        out.put(held);
        return false;
    }
    let Some(mut held) = inbox.take(alloc) else {
        return false;
    };
    let Some(other) = held.split() else {
        inbox.put(held);
        return false;
    };
    match Box::new(alloc, other) {
        Ok(other) => {
            out.put(other);
            inbox.put(held);
            true
        }
        Err(AllocFailed { value }) => {
            held.absorb(value);
            inbox.put(held);
            false
        }
    }
}

/// Sends a payload and returns `DONE`. Returns `FULL` if the handle has no room and the pool has none, `NO_MEMORY` if
/// memory is refused, and `NOTHING` if the handle is of nothing; the queue is unchanged then.
///
/// # Complexity
/// O(1), with one allocation.
#[unsafe(no_mangle)]
pub extern "C" fn cordyceps_inbox_send(alloc: Global, inbox: &mut InboxHandle, payload: u64) -> u32
    ensures { MatchOption inbox.old.held
        ((result ≡ NOTHING) × (inbox.new.held ≡ None))
        (λ i. (j : Inbox) × (sent : Sent) × (inbox.new.held ≡ Some j) × (result ≡ number_of_sent sent)
        × TriesToSend (letter_of payload) sent i j) }
{
    if !inbox.is_some() {
        return NOTHING;
    }
    let sent = inbox.inbox_mut().send(alloc, payload);
    sent.number()
}

/// Tries once to receive. Returns `DONE`, with the payload in `*out`, whose room this handle has then. Returns `EMPTY`
/// if there is none, `UNLINKED` if the next is not linked yet, `BUSY` if another handle receives, and `NOTHING` if the
/// handle is of nothing; `*out` is unchanged then.
///
/// If this handle has more than `KEPT` rooms after `DONE`, or any after `EMPTY`, it gives all to the pool of the inbox,
/// as `cordyceps_inbox_give_back` does.
///
/// # Complexity
/// O(1). Frees one block.
#[unsafe(no_mangle)]
pub extern "C" fn cordyceps_inbox_receive(inbox: &mut InboxHandle, out: &mut u64) -> u32
    ensures { MatchOption inbox.old.held
        ((result ≡ NOTHING) × (inbox.new.held ≡ None) × (out.new ≡ out.old))
        (λ i. (j : Inbox) × (tried : Result (Element Carried) TryDequeueError)
        × (inbox.new.held ≡ Some j) × (result ≡ number_of_try tried) × (out.new ≡ payload_after out.old tried)
        × Receives tried i j × (i.party.share ≡ whole → IsCertain tried)) }
{
    if !inbox.is_some() {
        return NOTHING;
    }
    let tried = inbox.inbox_mut().receive();
    match tried {
        Ok(letter) => {
            *out = letter.into_value().value;
            DONE
        }
        Err(why) => number_of(why),
    }
}

/// Sends a node of the caller's own and returns `DONE`; the handle of the node is of nothing then. Returns `FULL` if
/// the handle has no room and the pool has none, and `NOTHING` if the handle of the inbox is of nothing; the node stays
/// in its handle then, and the queue is unchanged.
///
/// # Complexity
/// O(1). Allocates nothing.
#[unsafe(no_mangle)]
pub extern "C" fn cordyceps_inbox_send_node(inbox: &mut InboxHandle, node: &mut NodeHandle) -> u32
    requires { HoldsNode node.old.held }
    ensures { MatchOption inbox.old.held
        ((result ≡ NOTHING) × (inbox.new.held ≡ None) × (node.new.held ≡ node.old.held))
        (λ i. (j : Inbox) × (e : Element Carried) × (inbox.new.held ≡ Some j) × HoldsElement node.old.held e
        × SendsNode e result node.new.held i j) }
{
    if !inbox.is_some() {
        return NOTHING;
    }
    let sent = inbox.inbox_mut().send_node(node.take_node());
    match sent {
        Ok(()) => DONE,
        Err(letter) => {
            node.put_node(letter);
            FULL
        }
    }
}

/// Tries once to receive as `cordyceps_inbox_receive` does, and writes the node to `*out`, which is of nothing before.
/// It may be one that `cordyceps_inbox_send` made, which `cordyceps_node_free` frees.
///
/// # Complexity
/// O(1).
#[unsafe(no_mangle)]
pub extern "C" fn cordyceps_inbox_receive_node(inbox: &mut InboxHandle, out: &mut NodeHandle) -> u32
    requires { out.old.held ≡ None }
    ensures { MatchOption inbox.old.held
        ((result ≡ NOTHING) × (inbox.new.held ≡ None) × (out.new.held ≡ None))
        (λ i. (j : Inbox) × (tried : Result (Element Carried) TryDequeueError)
        × (inbox.new.held ≡ Some j) × (result ≡ number_of_try tried) × HoldsTried out.new.held tried
        × Receives tried i j × (i.party.share ≡ whole → IsCertain tried)) }
{
    if !inbox.is_some() {
        return NOTHING;
    }
    let tried = inbox.inbox_mut().receive();
    match tried {
        Ok(letter) => {
            out.put_node(letter);
            DONE
        }
        Err(why) => number_of(why),
    }
}

/// Takes over the rooms of `other`, which is of the same inbox, and frees that handle, which is of nothing then.
/// Returns `true`, or `false` if one of them is of nothing, and changes nothing then. Requires that two inboxes are the
/// same.
///
/// # Complexity
/// O(1). Frees one block.
#[unsafe(no_mangle)]
pub extern "C" fn cordyceps_inbox_absorb(
    alloc: Global,
    inbox: &mut InboxHandle,
    other: &mut InboxHandle,
) -> bool
    requires { (i k : Inbox) → inbox.old.held ≡ Some i → other.old.held ≡ Some k → k.party.table ≡ i.party.table }
    ensures { MatchOption inbox.old.held
        ((result ≡ false) × (inbox.new.held ≡ None) × (other.new.held ≡ other.old.held))
        (λ i. MatchOption other.old.held
        ((result ≡ false) × (inbox.new.held ≡ Some i) × (other.new.held ≡ None))
        (λ k. (j : Inbox) × (result ≡ true) × (inbox.new.held ≡ Some j) × (other.new.held ≡ None)
        × TakesOver i k j)) }
{
    let Some(mut held) = inbox.take(alloc) else {
        return false;
    };
    let Some(absorbed) = other.take(alloc) else {
        inbox.put(held);
        return false;
    };
    held.absorb(Box::into_inner(absorbed));
    inbox.put(held);
    true
}

/// Gives all rooms of the handle to the pool of its inbox, with those that are there, and returns `true`: each handle
/// may take them then. Returns `false` if the handle is of nothing. It also returns `false` if others gave rooms back
/// each of 8 times that it tried; then this one has no fewer rooms than before, and the call can be made again.
///
/// # Complexity
/// O(1).
#[unsafe(no_mangle)]
pub extern "C" fn cordyceps_inbox_give_back(inbox: &mut InboxHandle) -> bool
    ensures { MatchOption inbox.old.held
        ((result ≡ false) × (inbox.new.held ≡ None))
        (λ i. (j : Inbox) × (inbox.new.held ≡ Some j) × GivesRooms result i j) }
{
    if !inbox.is_some() {
        return false;
    }
    let is_given = inbox.inbox_mut().give_back();
    is_given
}

/// Gives all rooms of the handle back as `cordyceps_inbox_give_back` does, then frees the handle, which is of nothing
/// then, and returns `true`. The last handle frees the inbox with all that is in it. Returns `false` where
/// `cordyceps_inbox_give_back` does; the handle is not freed then.
///
/// # Complexity
/// O(1), and for the last handle O(r), for r rooms.
#[unsafe(no_mangle)]
pub extern "C" fn cordyceps_inbox_free(alloc: Global, inbox: &mut InboxHandle) -> bool
    ensures { MatchOption inbox.old.held
        ((result ≡ false) × (inbox.new.held ≡ None))
        (λ i. (j : Inbox) × GivesRooms result i j
        × MatchBool result (inbox.new.held ≡ None) (inbox.new.held ≡ Some j)) }
{
    let Some(mut held) = inbox.take(alloc) else {
        return false;
    };
    if !held.give_back() {
        inbox.put(held);
        return false;
    }
    true
}
