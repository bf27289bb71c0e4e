//! The calls of piles.
ghost use Rattle.std.specs.Prelude.{◌≡◌, ◌≢◌, [], true, false, Option, Some, None, MatchBool, MatchOption, is_some};
ghost use Rattle.cordyceps_base.specs.Element.{Element};
ghost use Rattle.cordyceps_c_shared.specs.Piles.{IsNew, SplitsOff, TakesOver, KeepsOrRejoins, TriesToPush, Pops};
ghost use Rattle.cordyceps_c_shared.specs.Piles.{GivesRooms, HoldsPopped, HoldsUnless};
ghost use Rattle.cordyceps_c_shared.specs.Inboxes.{letter_of};
ghost use Rattle.cordyceps_c_shared.specs.Piles.{number_of_pushed, payload_after};
ghost use Rattle.cordyceps_c_base.specs.declared.carried.Carried.{Carried};
ghost use Rattle.cordyceps_c_base.specs.Elements.{HoldsElement, HoldsNode};
ghost use Rattle.cordyceps_c_shared.specs.declared.pile.Pile.{Pile};
ghost use Rattle.cordyceps_c_shared.specs.declared.pile.Pushed.{Pushed};
ghost use Rattle.cordyceps_c_shared.specs.declared.pile.Pushed.TheVariants.{NoMemory};

use cordyceps_c_base::node_handle::NodeHandle;
use cordyceps_c_shared::answers::{BUSY, DONE, FULL, NOTHING};
use cordyceps_c_shared::pile::Pile;
use cordyceps_c_shared::pile_handle::PileHandle;
use cordyceps_stack::stack::{MAX_ROOMS, TryPushError};
use std::alloc::{AllocFailed, Global};

/// Makes a pile of `rooms` rooms, of which this handle has all, in a handle of nothing, and returns `true`. Returns
/// `false` if there are more than `MAX_ROOMS`, memory is refused, or the handle is not of nothing, and changes nothing
/// then.
///
/// # Complexity
/// O(`rooms`), with five allocations.
#[unsafe(no_mangle)]
pub extern "C" fn cordyceps_pile_new(alloc: Global, rooms: usize, out: &mut PileHandle) -> bool
    ensures { MatchOption out.old.held
        (MatchBool result ((i : Pile) × (out.new.held ≡ Some i) × IsNew rooms i) (out.new.held ≡ None))
        (λ i. (result ≡ false) × (out.new.held ≡ Some i)) }
{
    if let Some(held) = out.take(alloc) {
        out.put(held);
        return false;
    }
    if rooms > MAX_ROOMS {
        return false;
    }
    let Some(pile) = Pile::new(alloc, rooms) else {
        return false;
    };
    match Box::new(alloc, pile) {
        Ok(pile) => {
            out.put(pile);
            true
        }
        Err(_) => false,
    }
}

/// Makes a further handle of the same pile, without rooms, in a handle of nothing, and returns `true`. Returns `false`
/// if memory is refused, the first handle is of nothing or the second is not, and nothing has changed then.
///
/// # Complexity
/// O(1), with one allocation.
#[unsafe(no_mangle)]
pub extern "C" fn cordyceps_pile_split(
    alloc: Global,
    pile: &mut PileHandle,
    out: &mut PileHandle,
) -> bool
    ensures { MatchOption pile.old.held
        ((result ≡ false) × (pile.new.held ≡ None) × (out.new.held ≡ out.old.held))
        (λ i. (j : Pile) × (pile.new.held ≡ Some j) × MatchBool result
        ((k : Pile) × (out.old.held ≡ None) × (out.new.held ≡ Some k) × SplitsOff i j k)
        ((out.new.held ≡ out.old.held) × KeepsOrRejoins i j)) }
{
    if let Some(held) = out.take(alloc) {
        out.put(held);
        return false;
    }
    let Some(mut held) = pile.take(alloc) else {
        return false;
    };
    let Some(other) = held.split() else {
        pile.put(held);
        return false;
    };
    match Box::new(alloc, other) {
        Ok(other) => {
            out.put(other);
            pile.put(held);
            true
        }
        Err(AllocFailed { value }) => {
            held.absorb(value);
            pile.put(held);
            false
        }
    }
}

/// Tries once to push a payload and returns `DONE`. Returns `FULL` if the handle has no room and the pool has none,
/// `BUSY` if another thread pushed or took between the two steps of the try, `NO_MEMORY` if memory is refused, and
/// `NOTHING` if the handle is of nothing; the payload is not pushed then.
///
/// # Complexity
/// O(1), with one allocation.
#[unsafe(no_mangle)]
pub extern "C" fn cordyceps_pile_push(alloc: Global, pile: &mut PileHandle, payload: u64) -> u32
    ensures { MatchOption pile.old.held
        ((result ≡ NOTHING) × (pile.new.held ≡ None))
        (λ i. (j : Pile) × (pushed : Pushed) × (pile.new.held ≡ Some j) × (result ≡ number_of_pushed pushed)
        × TriesToPush (letter_of payload) pushed i j) }
{
    if !pile.is_some() {
        return NOTHING;
    }
    let pushed = pile.pile_mut().push(alloc, payload);
    pushed.number()
}

/// Hands out the next of the payloads that the handle took, into `*out`, and returns `true`. If none is left, it first
/// takes all that the pile has, with their rooms; of these the payload that was pushed last is the next. Returns
/// `false` if there is none, or the handle is of nothing; `*out` is unchanged then.
///
/// # Complexity
/// O(1), or O(n) if it takes n payloads. Frees one block.
#[unsafe(no_mangle)]
pub extern "C" fn cordyceps_pile_pop(pile: &mut PileHandle, out: &mut u64) -> bool
    ensures { MatchOption pile.old.held
        ((result ≡ false) × (pile.new.held ≡ None) × (out.new ≡ out.old))
        (λ i. (j : Pile) × (popped : Option (Element Carried)) × (pile.new.held ≡ Some j)
        × (result ≡ is_some popped) × (out.new ≡ payload_after out.old popped) × Pops popped i j) }
{
    if !pile.is_some() {
        return false;
    }
    let popped = pile.pile_mut().pop();
    match popped {
        Some(sheet) => {
            *out = sheet.into_value().value;
            true
        }
        None => false,
    }
}

/// Tries once to push a node of the caller's own and returns `DONE`; the handle of the node is of nothing then. Returns
/// `FULL`, `BUSY` and `NOTHING` where `cordyceps_pile_push` does; the node stays in its handle then.
///
/// # Complexity
/// O(1). Allocates nothing.
#[unsafe(no_mangle)]
pub extern "C" fn cordyceps_pile_push_node(pile: &mut PileHandle, node: &mut NodeHandle) -> u32
    requires { HoldsNode node.old.held }
    ensures { MatchOption pile.old.held
        ((result ≡ NOTHING) × (pile.new.held ≡ None) × (node.new.held ≡ node.old.held))
        (λ i. (j : Pile) × (e : Element Carried) × (pushed : Pushed) × (pushed ≢ NoMemory) × (pile.new.held ≡ Some j)
        × HoldsElement node.old.held e × (result ≡ number_of_pushed pushed)
        × HoldsUnless pushed e node.new.held × TriesToPush e pushed i j) }
{
    if !pile.is_some() {
        return NOTHING;
    }
    let pushed = pile.pile_mut().push_node(node.take_node());
    match pushed {
        Ok(_) => DONE,
        Err(TryPushError::Full(sheet)) => {
            node.put_node(sheet);
            FULL
        }
        Err(TryPushError::Contended(sheet)) => {
            node.put_node(sheet);
            BUSY
        }
    }
}

/// Hands out the next node as `cordyceps_pile_pop` does its payload, into `*out`, which is of nothing before. It may be
/// one that `cordyceps_pile_push` made, which `cordyceps_node_free` frees.
///
/// # Complexity
/// O(1), or O(n) if it takes n nodes.
#[unsafe(no_mangle)]
pub extern "C" fn cordyceps_pile_pop_node(pile: &mut PileHandle, out: &mut NodeHandle) -> bool
    requires { out.old.held ≡ None }
    ensures { MatchOption pile.old.held
        ((result ≡ false) × (pile.new.held ≡ None) × (out.new.held ≡ None))
        (λ i. (j : Pile) × (popped : Option (Element Carried)) × (pile.new.held ≡ Some j)
        × (result ≡ is_some popped) × HoldsPopped out.new.held popped × Pops popped i j) }
{
    if !pile.is_some() {
        return false;
    }
    let popped = pile.pile_mut().pop();
    out.put_found(popped)
}

/// Takes over the rooms of `other`, which is of the same pile, frees that handle, which is of nothing then, and returns
/// `true`. Returns `false` if one of them is of nothing, or `other` took payloads that it has not handed out yet, and
/// changes nothing then. Requires that two piles are the same.
///
/// # Complexity
/// O(1). Frees one block.
#[unsafe(no_mangle)]
pub extern "C" fn cordyceps_pile_absorb(
    alloc: Global,
    pile: &mut PileHandle,
    other: &mut PileHandle,
) -> bool
    requires { (i k : Pile) → pile.old.held ≡ Some i → other.old.held ≡ Some k → k.party.table ≡ i.party.table }
    ensures { MatchOption pile.old.held
        ((result ≡ false) × (pile.new.held ≡ None) × (other.new.held ≡ other.old.held))
        (λ i. MatchOption other.old.held
        ((result ≡ false) × (pile.new.held ≡ Some i) × (other.new.held ≡ None))
        (λ k. MatchBool result
        ((j : Pile) × (k.taken ≡ []) × (pile.new.held ≡ Some j) × (other.new.held ≡ None) × TakesOver i k j)
        ((k.taken ≢ []) × (pile.new.held ≡ Some i) × (other.new.held ≡ Some k)))) }
{
    let Some(mut held) = pile.take(alloc) else {
        return false;
    };
    let Some(absorbed) = other.take(alloc) else {
        pile.put(held);
        return false;
    };
    if !absorbed.has_none_left() {
        other.put(absorbed);
        pile.put(held);
        return false;
    }
    held.absorb(Box::into_inner(absorbed));
    pile.put(held);
    true
}

/// Gives all rooms of the handle to the pool of its pile, with those that are there, and returns `true`: each handle
/// may take them then. Returns `false` if the handle is of nothing. It also returns `false` if others gave rooms back
/// each of 8 times that it tried; then this one has no fewer rooms than before, and the call can be made again.
///
/// # Complexity
/// O(1).
#[unsafe(no_mangle)]
pub extern "C" fn cordyceps_pile_give_back(pile: &mut PileHandle) -> bool
    ensures { MatchOption pile.old.held
        ((result ≡ false) × (pile.new.held ≡ None))
        (λ i. (j : Pile) × (pile.new.held ≡ Some j) × GivesRooms result i j) }
{
    if !pile.is_some() {
        return false;
    }
    let is_given = pile.pile_mut().give_back();
    is_given
}

/// Gives all rooms of the handle back as `cordyceps_pile_give_back` does, then frees the handle, with the payloads that
/// it took and that are not handed out, and returns `true`. The handle is of nothing then. The last handle frees the
/// pile with all that is in it. Returns `false` where `cordyceps_pile_give_back` does; the handle is not freed then.
///
/// # Complexity
/// O(n), for n payloads that it took, and for the last handle O(r + n), for r rooms.
#[unsafe(no_mangle)]
pub extern "C" fn cordyceps_pile_free(alloc: Global, pile: &mut PileHandle) -> bool
    ensures { MatchOption pile.old.held
        ((result ≡ false) × (pile.new.held ≡ None))
        (λ i. (j : Pile) × GivesRooms result i j
        × MatchBool result (pile.new.held ≡ None) (pile.new.held ≡ Some j)) }
{
    let Some(mut held) = pile.take(alloc) else {
        return false;
    };
    if !held.give_back() {
        pile.put(held);
        return false;
    }
    true
}
