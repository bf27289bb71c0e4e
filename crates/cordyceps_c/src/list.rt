//! The calls of lists.
ghost use Rattle.std.specs.Prelude.{◌≡◌, ◌⊎◌, [], length, true, false, Some, None, MatchBool, MatchOption};
ghost use Rattle.cordyceps_c_lists.specs.Lists.{Listed, NamesNone, PushesFront, PushesBack, PutsBefore, PutsAfter};
ghost use Rattle.cordyceps_c_lists.specs.Lists.{PopsFront, PopsBack, Removes, Holds, NamesFirst, NamesLast, NamesNext};
ghost use Rattle.cordyceps_c_lists.specs.Lists.{MovesFront, MovesBack, MovesAfter, HasNoPair};

use cordyceps_c_base::out::write_found;
use cordyceps_c_base::tickets::Ticket;
use cordyceps_c_lists::list::List;
use cordyceps_c_lists::list_handle::ListHandle;
use std::alloc::Global;

/// Makes an empty list, whose tickets have this number, in a handle of nothing, and returns `true`. Returns `false` if
/// memory is refused, or if the handle is not of nothing, and changes nothing then.
///
/// # Complexity
/// O(1), with one allocation.
#[unsafe(no_mangle)]
pub extern "C" fn cordyceps_list_new(alloc: Global, collection: u32, out: &mut ListHandle) -> bool
    ensures { MatchOption out.old.held
        (MatchBool result
        (out.new.held ≡ Some (record { nodes = []; collection = collection; given = 0 })) (out.new.held ≡ None))
        (λ l. (result ≡ false) × (out.new.held ≡ Some l)) }
{
    if let Some(held) = out.take(alloc) {
        out.put(held);
        return false;
    }
    match Box::new(alloc, List::new(alloc, collection)) {
        Ok(list) => {
            out.put(list);
            true
        }
        Err(_) => false,
    }
}

/// Prepends a payload with its ticket, which becomes `*out`, and returns `true`. No other element had this ticket, and
/// none gets it later. Returns `false` if memory is refused, no ticket is left, `SIZE_MAX` elements are there, or the
/// handle is of nothing, and changes nothing then.
///
/// # Complexity
/// O(1), amortized over the growth of the slots of tickets, with one allocation, or two where these grow.
#[unsafe(no_mangle)]
pub extern "C" fn cordyceps_list_push_front(
    alloc: Global,
    list: &mut ListHandle,
    payload: u64,
    out: &mut Ticket,
) -> bool
    ensures { MatchOption list.old.held
        ((result ≡ false) × (list.new.held ≡ None) × (out.new ≡ out.old))
        (λ l. (m : Listed) × (list.new.held ≡ Some m)
        × MatchBool result (PushesFront payload out.new l m) ((out.new ≡ out.old) × (m ≡ l))) }
{
    let Some(mut held) = list.take(alloc) else {
        return false;
    };
    let ticket = held.push_front(alloc, payload);
    list.put(held);
    write_found(out, ticket)
}

/// Appends a payload as `cordyceps_list_push_front` prepends one.
///
/// # Complexity
/// O(1), amortized over the growth of the slots of tickets, with one allocation, or two where these grow.
#[unsafe(no_mangle)]
pub extern "C" fn cordyceps_list_push_back(
    alloc: Global,
    list: &mut ListHandle,
    payload: u64,
    out: &mut Ticket,
) -> bool
    ensures { MatchOption list.old.held
        ((result ≡ false) × (list.new.held ≡ None) × (out.new ≡ out.old))
        (λ l. (m : Listed) × (list.new.held ≡ Some m)
        × MatchBool result (PushesBack payload out.new l m) ((out.new ≡ out.old) × (m ≡ l))) }
{
    let Some(mut held) = list.take(alloc) else {
        return false;
    };
    let ticket = held.push_back(alloc, payload);
    list.put(held);
    write_found(out, ticket)
}

/// Inserts a payload before the element that has the ticket `at`. Its own ticket becomes `*out`, and it returns `true`.
/// Returns `false` if no element has `at`, and where `cordyceps_list_push_front` does, and changes nothing then.
///
/// # Complexity
/// O(1), amortized over the growth of the slots of tickets, with one allocation, or two where these grow.
#[unsafe(no_mangle)]
pub extern "C" fn cordyceps_list_insert_before(
    alloc: Global,
    list: &mut ListHandle,
    at: Ticket,
    payload: u64,
    out: &mut Ticket,
) -> bool
    ensures { MatchOption list.old.held
        ((result ≡ false) × (list.new.held ≡ None) × (out.new ≡ out.old))
        (λ l. (m : Listed) × (list.new.held ≡ Some m)
        × MatchBool result (PutsBefore at payload out.new l m) ((out.new ≡ out.old) × (m ≡ l))) }
{
    let Some(mut held) = list.take(alloc) else {
        return false;
    };
    let ticket = held.insert_before(alloc, at, payload);
    list.put(held);
    write_found(out, ticket)
}

/// Inserts a payload after the element that has the ticket `at`. Its own ticket becomes `*out`, and it returns `true`.
/// Returns `false` if no element has `at`, and where `cordyceps_list_push_front` does, and changes nothing then.
///
/// # Complexity
/// O(1), amortized over the growth of the slots of tickets, with one allocation, or two where these grow.
#[unsafe(no_mangle)]
pub extern "C" fn cordyceps_list_insert_after(
    alloc: Global,
    list: &mut ListHandle,
    at: Ticket,
    payload: u64,
    out: &mut Ticket,
) -> bool
    ensures { MatchOption list.old.held
        ((result ≡ false) × (list.new.held ≡ None) × (out.new ≡ out.old))
        (λ l. (m : Listed) × (list.new.held ≡ Some m)
        × MatchBool result (PutsAfter at payload out.new l m) ((out.new ≡ out.old) × (m ≡ l))) }
{
    let Some(mut held) = list.take(alloc) else {
        return false;
    };
    let ticket = held.insert_after(alloc, at, payload);
    list.put(held);
    write_found(out, ticket)
}

/// Removes the first element, whose payload becomes `*out`, and returns `true`. Its ticket is of no element from then
/// on. Returns `false` if the list is empty, or the handle is of nothing, and changes nothing then.
///
/// # Complexity
/// O(1). Frees one block.
#[unsafe(no_mangle)]
pub extern "C" fn cordyceps_list_pop_front(
    alloc: Global,
    list: &mut ListHandle,
    out: &mut u64,
) -> bool
    ensures { MatchOption list.old.held
        ((result ≡ false) × (list.new.held ≡ None) × (out.new ≡ out.old))
        (λ l. (m : Listed) × (list.new.held ≡ Some m)
        × MatchBool result (PopsFront out.new l m) ((out.new ≡ out.old) × ((l.nodes ≡ []) × (m ≡ l)))) }
{
    let Some(mut held) = list.take(alloc) else {
        return false;
    };
    let payload = held.pop_front();
    list.put(held);
    write_found(out, payload)
}

/// Removes the last element as `cordyceps_list_pop_front` removes the first.
///
/// # Complexity
/// O(1). Frees one block.
#[unsafe(no_mangle)]
pub extern "C" fn cordyceps_list_pop_back(
    alloc: Global,
    list: &mut ListHandle,
    out: &mut u64,
) -> bool
    ensures { MatchOption list.old.held
        ((result ≡ false) × (list.new.held ≡ None) × (out.new ≡ out.old))
        (λ l. (m : Listed) × (list.new.held ≡ Some m)
        × MatchBool result (PopsBack out.new l m) ((out.new ≡ out.old) × ((l.nodes ≡ []) × (m ≡ l)))) }
{
    let Some(mut held) = list.take(alloc) else {
        return false;
    };
    let payload = held.pop_back();
    list.put(held);
    write_found(out, payload)
}

/// Removes the element that has the ticket `at`, whose payload becomes `*out`, and returns `true`. The ticket is of no
/// element from then on. Returns `false` if no element has it, or the handle is of nothing, and changes nothing then.
///
/// # Complexity
/// O(1). Frees one block.
#[unsafe(no_mangle)]
pub extern "C" fn cordyceps_list_remove(
    alloc: Global,
    list: &mut ListHandle,
    at: Ticket,
    out: &mut u64,
) -> bool
    ensures { MatchOption list.old.held
        ((result ≡ false) × (list.new.held ≡ None) × (out.new ≡ out.old))
        (λ l. (m : Listed) × (list.new.held ≡ Some m)
        × MatchBool result (Removes at out.new l m) ((out.new ≡ out.old) × (NamesNone l at × (m ≡ l)))) }
{
    let Some(mut held) = list.take(alloc) else {
        return false;
    };
    let payload = held.remove(at);
    list.put(held);
    write_found(out, payload)
}

/// Copies the payload of the element that has the ticket `at` to `*out` and returns `true`. Returns `false` if no
/// element has it, or the handle is of nothing, and `*out` is unchanged then.
///
/// # Complexity
/// O(1).
#[unsafe(no_mangle)]
pub extern "C" fn cordyceps_list_get(list: &mut ListHandle, at: Ticket, out: &mut u64) -> bool
    ensures kept { list.new.held ≡ list.old.held }
    ensures found { MatchOption list.old.held
        ((result ≡ false) × (out.new ≡ out.old))
        (λ l. MatchBool result (Holds at out.new l) ((out.new ≡ out.old) × NamesNone l at)) }
{
    if !list.is_some() {
        return false;
    }
    let payload = list.list_mut().get(at);
    write_found(out, payload)
}

/// Copies the ticket of the first element to `*out` and returns `true`. Returns `false` if the list is empty, or the
/// handle is of nothing, and `*out` is unchanged then.
///
/// # Complexity
/// O(1).
#[unsafe(no_mangle)]
pub extern "C" fn cordyceps_list_front(list: &mut ListHandle, out: &mut Ticket) -> bool
    ensures kept { list.new.held ≡ list.old.held }
    ensures found { MatchOption list.old.held
        ((result ≡ false) × (out.new ≡ out.old))
        (λ l. MatchBool result (NamesFirst out.new l) ((out.new ≡ out.old) × (l.nodes ≡ []))) }
{
    if !list.is_some() {
        return false;
    }
    let ticket = list.list_mut().front();
    write_found(out, ticket)
}

/// Copies the ticket of the last element as `cordyceps_list_front` copies that of the first.
///
/// # Complexity
/// O(1).
#[unsafe(no_mangle)]
pub extern "C" fn cordyceps_list_back(list: &mut ListHandle, out: &mut Ticket) -> bool
    ensures kept { list.new.held ≡ list.old.held }
    ensures found { MatchOption list.old.held
        ((result ≡ false) × (out.new ≡ out.old))
        (λ l. MatchBool result (NamesLast out.new l) ((out.new ≡ out.old) × (l.nodes ≡ []))) }
{
    if !list.is_some() {
        return false;
    }
    let ticket = list.list_mut().back();
    write_found(out, ticket)
}

/// Copies the ticket of the element after the one that has the ticket `at` to `*out` and returns `true`. Returns
/// `false` if that is the last, no element has `at`, or the handle is of nothing, and `*out` is unchanged then.
///
/// # Complexity
/// O(1).
#[unsafe(no_mangle)]
pub extern "C" fn cordyceps_list_next(list: &mut ListHandle, at: Ticket, out: &mut Ticket) -> bool
    ensures kept { list.new.held ≡ list.old.held }
    ensures found { MatchOption list.old.held
        ((result ≡ false) × (out.new ≡ out.old))
        (λ l. MatchBool result (NamesNext at out.new l) ((out.new ≡ out.old) × (NamesNone l at ⊎ NamesLast at l))) }
{
    if !list.is_some() {
        return false;
    }
    let ticket = list.list_mut().next(at);
    write_found(out, ticket)
}

/// Copies the ticket of the element before the one that has the ticket `at` to `*out` and returns `true`. Returns
/// `false` if that is the first, no element has `at`, or the handle is of nothing, and `*out` is unchanged then.
///
/// # Complexity
/// O(1).
#[unsafe(no_mangle)]
pub extern "C" fn cordyceps_list_prev(list: &mut ListHandle, at: Ticket, out: &mut Ticket) -> bool
    ensures kept { list.new.held ≡ list.old.held }
    ensures found { MatchOption list.old.held
        ((result ≡ false) × (out.new ≡ out.old))
        (λ l. MatchBool result (NamesNext out.new at l) ((out.new ≡ out.old) × (NamesNone l at ⊎ NamesFirst at l))) }
{
    if !list.is_some() {
        return false;
    }
    let ticket = list.list_mut().prev(at);
    write_found(out, ticket)
}

/// Moves the element that has the ticket `at` to the front and returns `true`. It keeps its ticket, and the others
/// their order. Returns `false` if no element has it, or the handle is of nothing, and changes nothing then.
///
/// # Complexity
/// O(1).
#[unsafe(no_mangle)]
pub extern "C" fn cordyceps_list_move_to_front(
    alloc: Global,
    list: &mut ListHandle,
    at: Ticket,
) -> bool
    ensures { MatchOption list.old.held
        ((result ≡ false) × (list.new.held ≡ None))
        (λ l. (m : Listed) × (list.new.held ≡ Some m)
        × MatchBool result (MovesFront at l m) (NamesNone l at × (m ≡ l))) }
{
    let Some(mut held) = list.take(alloc) else {
        return false;
    };
    let is_moved = held.move_to_front(at);
    list.put(held);
    is_moved
}

/// Moves the element that has the ticket `at` to the back as `cordyceps_list_move_to_front` moves it to the front.
///
/// # Complexity
/// O(1).
#[unsafe(no_mangle)]
pub extern "C" fn cordyceps_list_move_to_back(
    alloc: Global,
    list: &mut ListHandle,
    at: Ticket,
) -> bool
    ensures { MatchOption list.old.held
        ((result ≡ false) × (list.new.held ≡ None))
        (λ l. (m : Listed) × (list.new.held ≡ Some m)
        × MatchBool result (MovesBack at l m) (NamesNone l at × (m ≡ l))) }
{
    let Some(mut held) = list.take(alloc) else {
        return false;
    };
    let is_moved = held.move_to_back(at);
    list.put(held);
    is_moved
}

/// Moves the element that has the ticket `at` to right after the one that has the ticket `to`, and returns `true`. It
/// keeps its ticket, and the others their order. Returns `false` if one of the tickets is of no element, they are the
/// same, or the handle is of nothing, and changes nothing then.
///
/// # Complexity
/// O(1).
#[unsafe(no_mangle)]
pub extern "C" fn cordyceps_list_move_after(
    alloc: Global,
    list: &mut ListHandle,
    at: Ticket,
    to: Ticket,
) -> bool
    ensures { MatchOption list.old.held
        ((result ≡ false) × (list.new.held ≡ None))
        (λ l. (m : Listed) × (list.new.held ≡ Some m)
        × MatchBool result (MovesAfter at to l m) (HasNoPair l at to × (m ≡ l))) }
{
    let Some(mut held) = list.take(alloc) else {
        return false;
    };
    let is_moved = held.move_after(at, to);
    list.put(held);
    is_moved
}

/// Returns how many elements the list has, which is 0 for the handle of nothing.
///
/// # Complexity
/// O(1).
#[unsafe(no_mangle)]
pub extern "C" fn cordyceps_list_len(list: &mut ListHandle) -> usize
    ensures len { MatchOption list.old.held (result ≡ 0) (λ l. result ≡ length l.nodes) }
    ensures kept { list.new.held ≡ list.old.held }
{
    if !list.is_some() {
        return 0;
    }
    let len = list.list_mut().len();
    len
}

/// Frees the list with all elements and returns `true`; the handle is of nothing then. Returns `false` if it was.
///
/// # Complexity
/// O(n), for n elements and as many slots as there were elements at a time.
#[unsafe(no_mangle)]
pub extern "C" fn cordyceps_list_free(alloc: Global, list: &mut ListHandle) -> bool
    ensures freed { list.new.held ≡ None }
    ensures found { MatchOption list.old.held (result ≡ false) (λ _. result ≡ true) }
{
    list.take(alloc).is_some()
}
