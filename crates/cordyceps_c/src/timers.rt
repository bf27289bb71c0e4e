//! The calls of timers.
ghost use Rattle.std.specs.Prelude.{◌≡◌, [], length, true, false, Some, None, MatchBool, MatchOption, ⊤};
ghost use Rattle.cordyceps_base.specs.BySpot.{HasSpot};
ghost use Rattle.cordyceps_c_timers.specs.Timers.{Bounds, Running, Starts, Stops, Restarts, Fires, NoneFires};
ghost use Rattle.cordyceps_c_timers.specs.Timers.{StartsAt, StopsAt, RestartsAt};

use cordyceps_c_base::out::write_found;
use cordyceps_c_base::tickets::Ticket;
use cordyceps_c_timers::timers::{Fired, Timers};
use cordyceps_c_timers::timers_handle::TimersHandle;
use cordyceps_stable::stable_list::Spot;
use std::alloc::Global;

/// Makes timers of which none runs, at the time 0, in a handle of nothing, and returns `true`. Their tickets have the
/// number `collection`. Returns `false` if memory is refused, or if the handle is not of nothing, and changes nothing
/// then.
///
/// # Complexity
/// O(1), with one allocation.
#[unsafe(no_mangle)]
pub extern "C" fn cordyceps_timers_new(
    alloc: Global,
    collection: u32,
    out: &mut TimersHandle,
) -> bool
    ensures { MatchOption out.old.held
        (MatchBool result
        (out.new.held ≡ Some (record { nodes = []; clock = 0; collection = collection; given = 0 }))
        (out.new.held ≡ None))
        (λ t. (result ≡ false) × (out.new.held ≡ Some t)) }
{
    if let Some(held) = out.take(alloc) {
        out.put(held);
        return false;
    }
    match Box::new(alloc, Timers::new(alloc, collection)) {
        Ok(timers) => {
            out.put(timers);
            true
        }
        Err(_) => false,
    }
}

/// Starts a timer, writes its ticket to `*out` and returns `true`. It fires at its deadline, or at the clock if the
/// deadline has passed, after all that do not fire later. Returns `false` if memory is refused, `SIZE_MAX` timers run,
/// no ticket is left, or the handle is of nothing, and changes nothing then.
///
/// # Complexity
/// O(1) amortized, with one allocation, and at times another for a larger table of tickets.
#[unsafe(no_mangle)]
pub extern "C" fn cordyceps_timers_start(
    alloc: Global,
    timers: &mut TimersHandle,
    deadline: u64,
    payload: u64,
    out: &mut Ticket,
) -> bool
    ensures { MatchOption timers.old.held
        ((result ≡ false) × (timers.new.held ≡ None) × (out.new ≡ out.old))
        (λ t. (u : Running) × (timers.new.held ≡ Some u)
        × MatchBool result (Starts deadline payload (Some out.new) t u)
        ((out.new ≡ out.old) × Starts deadline payload None t u)) }
{
    let Some(mut held) = timers.take(alloc) else {
        return false;
    };
    let ticket = held.start(alloc, deadline, payload);
    timers.put(held);
    write_found(out, ticket)
}

/// Removes the timer that has the ticket into `*out` and returns `true`. Returns `false` if no timer has it, or the
/// handle is of nothing, and changes nothing then.
///
/// # Complexity
/// O(1). Frees one block.
#[unsafe(no_mangle)]
pub extern "C" fn cordyceps_timers_stop(
    alloc: Global,
    timers: &mut TimersHandle,
    timer: Ticket,
    out: &mut Fired,
) -> bool
    ensures { MatchOption timers.old.held
        ((result ≡ false) × (timers.new.held ≡ None) × (out.new ≡ out.old))
        (λ t. (u : Running) × (timers.new.held ≡ Some u)
        × MatchBool result (Stops timer (Some out.new) t u) ((out.new ≡ out.old) × Stops timer None t u)) }
{
    let Some(mut held) = timers.take(alloc) else {
        return false;
    };
    let stopped = held.stop(timer);
    timers.put(held);
    write_found(out, stopped)
}

/// Gives another deadline to the timer that has the ticket, as if it were started now, and returns `true`. The ticket
/// stays valid. Returns `false` if no timer has it, or the handle is of nothing, and changes nothing then.
///
/// # Complexity
/// O(1), without an allocation.
#[unsafe(no_mangle)]
pub extern "C" fn cordyceps_timers_restart(
    alloc: Global,
    timers: &mut TimersHandle,
    timer: Ticket,
    deadline: u64,
) -> bool
    ensures { MatchOption timers.old.held
        ((result ≡ false) × (timers.new.held ≡ None))
        (λ t. (u : Running) × (timers.new.held ≡ Some u) × Restarts timer deadline result t u) }
{
    let Some(mut held) = timers.take(alloc) else {
        return false;
    };
    let is_restarted = held.restart(timer, deadline);
    timers.put(held);
    is_restarted
}

/// Starts a timer without a ticket, writes its spot to `*out` and returns `true`. It fires as one that
/// `cordyceps_timers_start` starts. Returns `false` if memory is refused, `SIZE_MAX` timers run, or the handle is of
/// nothing, and changes nothing then.
///
/// # Complexity
/// O(1), with one allocation.
#[unsafe(no_mangle)]
pub extern "C" fn cordyceps_timers_start_unchecked(
    alloc: Global,
    timers: &mut TimersHandle,
    deadline: u64,
    payload: u64,
    out: &mut Spot,
) -> bool
    ensures { MatchOption timers.old.held
        ((result ≡ false) × (timers.new.held ≡ None) × (out.new ≡ out.old))
        (λ t. (u : Running) × (timers.new.held ≡ Some u)
        × MatchBool result (StartsAt deadline payload (Some out.new) t u)
        ((out.new ≡ out.old) × StartsAt deadline payload None t u)) }
{
    let Some(mut held) = timers.take(alloc) else {
        return false;
    };
    let spot = held.start_unchecked(alloc, deadline, payload);
    timers.put(held);
    write_found(out, spot)
}

/// Removes the timer at a spot into `*out` and returns `true`. Returns `false` if the handle is of nothing, and changes
/// nothing then. Requires that a timer of these runs there.
///
/// # Complexity
/// O(1). Frees one block.
#[unsafe(no_mangle)]
pub extern "C" fn cordyceps_timers_stop_unchecked(
    alloc: Global,
    timers: &mut TimersHandle,
    timer: Spot,
    out: &mut Fired,
) -> bool
    requires { MatchOption timers.old.held ⊤ (λ t. HasSpot t.nodes timer) }
    ensures { MatchOption timers.old.held
        ((result ≡ false) × (timers.new.held ≡ None) × (out.new ≡ out.old))
        (λ t. (u : Running) × (timers.new.held ≡ Some u) × (result ≡ true) × StopsAt timer out.new t u) }
{
    let Some(mut held) = timers.take(alloc) else {
        return false;
    };
    *out = held.stop_unchecked(timer);
    timers.put(held);
    true
}

/// Gives another deadline to the timer at a spot, as if it were started now, and returns `true`. Returns `false` if the
/// handle is of nothing, and changes nothing then. Requires that a timer of these runs there.
///
/// # Complexity
/// O(1), without an allocation.
#[unsafe(no_mangle)]
pub extern "C" fn cordyceps_timers_restart_unchecked(
    alloc: Global,
    timers: &mut TimersHandle,
    timer: Spot,
    deadline: u64,
) -> bool
    requires { MatchOption timers.old.held ⊤ (λ t. HasSpot t.nodes timer) }
    ensures { MatchOption timers.old.held
        ((result ≡ false) × (timers.new.held ≡ None))
        (λ t. (u : Running) × (timers.new.held ≡ Some u) × (result ≡ true) × RestartsAt timer deadline t u) }
{
    let Some(mut held) = timers.take(alloc) else {
        return false;
    };
    held.restart_unchecked(timer, deadline);
    timers.put(held);
    true
}

/// Removes the first timer into `*out` and returns `true`, if it fires at the time `now` or before. Its time becomes
/// the clock. Returns `false` if none fires by then, and the clock becomes `now`, if that is later; or if the handle is
/// of nothing. `*out` is unchanged then.
///
/// # Complexity
/// O(1) amortized, also where none is due: each timer is moved at most 64 times before it comes out. Frees one block.
#[unsafe(no_mangle)]
pub extern "C" fn cordyceps_timers_pop_due(
    alloc: Global,
    timers: &mut TimersHandle,
    now: u64,
    out: &mut Fired,
) -> bool
    ensures { MatchOption timers.old.held
        ((result ≡ false) × (timers.new.held ≡ None) × (out.new ≡ out.old))
        (λ t. (u : Running) × (timers.new.held ≡ Some u)
        × MatchBool result (Fires now out.new t u) ((out.new ≡ out.old) × NoneFires now t u)) }
{
    let Some(mut held) = timers.take(alloc) else {
        return false;
    };
    let fired = held.pop_due(now);
    timers.put(held);
    write_found(out, fired)
}

/// Writes a time before which no timer fires to `*out` and returns `true`. It is the time of the first timer without
/// the bits below the highest in which that differs from the clock, so it is the clock only if a timer fires then.
/// Returns `false` if no timer runs, or the handle is of nothing; `*out` is unchanged then.
///
/// Whoever sleeps until then and calls `cordyceps_timers_pop_due` wakes at most 64 times before the first timer fires.
///
/// # Complexity
/// O(1).
#[unsafe(no_mangle)]
pub extern "C" fn cordyceps_timers_not_before(timers: &mut TimersHandle, out: &mut u64) -> bool
    ensures bound { MatchOption timers.old.held
        ((result ≡ false) × (out.new ≡ out.old))
        (λ t. MatchBool result (Bounds (Some out.new) t) ((out.new ≡ out.old) × Bounds None t)) }
    ensures kept { timers.new.held ≡ timers.old.held }
{
    if !timers.is_some() {
        return false;
    }
    let bound = timers.timers_mut().not_before();
    write_found(out, bound)
}

/// Returns how many timers run, which is 0 for the handle of nothing.
///
/// # Complexity
/// O(1).
#[unsafe(no_mangle)]
pub extern "C" fn cordyceps_timers_len(timers: &mut TimersHandle) -> usize
    ensures len { MatchOption timers.old.held (result ≡ 0) (λ t. result ≡ length t.nodes) }
    ensures kept { timers.new.held ≡ timers.old.held }
{
    if !timers.is_some() {
        return 0;
    }
    let len = timers.timers_mut().len();
    len
}

/// Frees the timers with all that run and returns `true`; the handle is of nothing then. Returns `false` if it was.
///
/// # Complexity
/// O(n), for n timers.
#[unsafe(no_mangle)]
pub extern "C" fn cordyceps_timers_free(alloc: Global, timers: &mut TimersHandle) -> bool
    ensures freed { timers.new.held ≡ None }
    ensures found { MatchOption timers.old.held (result ≡ false) (λ _. result ≡ true) }
{
    timers.take(alloc).is_some()
}
