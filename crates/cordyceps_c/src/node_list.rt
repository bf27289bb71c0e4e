//! The calls of lists of C's own nodes.
ghost use Rattle.std.specs.Prelude.{◌≡◌, ◌≢◌, ◌<◌, [], ◌∷◌, ◌++◌, length, false, Some, None, MatchBool, MatchOption};
ghost use denote.RawPtr.{Ptr};
ghost use Rattle.cordyceps_base.specs.Element.{Element};
ghost use Rattle.cordyceps_base.specs.Nodes.{Nodes};
ghost use Rattle.cordyceps_base.specs.BySpot.{AreNext, HasSpot, IsFirst, IsLast, IsMovedBack, IsMovedFront};
ghost use Rattle.cordyceps_base.specs.BySpot.{IsPutAfter, IsPutBefore, IsTaken};
ghost use Rattle.cordyceps_c_base.specs.declared.carried.Carried.{Carried};
ghost use Rattle.cordyceps_c_base.specs.Elements.{HoldsElement, HoldsNode};

use cordyceps_base::boxes::homes::Home;
use cordyceps_c_base::carried::Carried;
use cordyceps_c_base::node_handle::NodeHandle;
use cordyceps_c_base::out::write_found;
use cordyceps_c_lists::node_list_handle::NodeListHandle;
use cordyceps_stable::stable_list::{Spot, StableList};
use std::alloc::Global;

/// Makes an empty list in a handle of nothing, and returns `true`. Returns `false` if memory is refused, and changes
/// nothing then. A list may lie in memory of the caller's instead, and needs no such call.
///
/// # Complexity
/// O(1), with one allocation.
#[unsafe(no_mangle)]
pub extern "C" fn cordyceps_node_list_new(alloc: Global, out: &mut NodeListHandle) -> bool
    requires { out.old.held ≡ None }
    ensures { MatchBool result (out.new.held ≡ Some []) (out.new.held ≡ None) }
{
    match Home::boxed(alloc, StableList::new()) {
        Ok(list) => {
            out.put(list);
            true
        }
        Err(_) => false,
    }
}

/// Frees an empty list that `cordyceps_node_list_new` made, and returns `true`: the handle is of nothing then. Returns
/// `false` if the list has nodes, or if the handle is of nothing, and changes nothing then. A list in memory of the
/// caller's only leaves its handle.
///
/// # Complexity
/// O(1).
#[unsafe(no_mangle)]
pub extern "C" fn cordyceps_node_list_free(alloc: Global, list: &mut NodeListHandle) -> bool
    ensures { MatchOption list.old.held
        ((result ≡ false) × (list.new.held ≡ None))
        (λ c. MatchBool result ((c ≡ []) × (list.new.held ≡ None)) ((c ≢ []) × (list.new.held ≡ Some c))) }
{
    if !list.is_some() {
        return false;
    }
    let held = list.take();
    if !held.is_empty() {
        list.put(held);
        return false;
    }
    drop(Home::unboxed(held, alloc));
    true
}

/// Returns the number of nodes.
///
/// # Complexity
/// O(1).
#[unsafe(no_mangle)]
pub extern "C" fn cordyceps_node_list_len(list: &mut NodeListHandle) -> usize
    requires { (c : Nodes Carried) × (list.old.held ≡ Some c) }
    ensures { (c : Nodes Carried) × (list.old.held ≡ Some c) × (list.new.held ≡ Some c) × (result ≡ length c) }
{
    let count = list.list_mut().len();
    count
}

/// Prepends a node, whose spot becomes `*out`. The handle of the node is of nothing then.
///
/// # Complexity
/// O(1). Allocates nothing.
#[unsafe(no_mangle)]
pub extern "C" fn cordyceps_node_list_push_front(
    list: &mut NodeListHandle,
    node: &mut NodeHandle,
    out: &mut Spot,
)
    requires list { (c : Nodes Carried) × (list.old.held ≡ Some c) }
    requires fits { (c : Nodes Carried) → list.old.held ≡ Some c → length c < usize.MAX }
    requires node { HoldsNode node.old.held }
    ensures { (c : Nodes Carried) × (e : Element Carried) × (d : Nodes Carried) × (list.old.held ≡ Some c)
        × HoldsElement node.old.held e × (list.new.held ≡ Some d) × (node.new.held ≡ None)
        × (d ≡ (out.new, e) ∷ c) }
{
    let mut held = list.take();
    *out = held.push_front(node.take_node());
    list.put(held);
}

/// Appends a node, whose spot becomes `*out`. The handle of the node is of nothing then.
///
/// # Complexity
/// O(1). Allocates nothing.
#[unsafe(no_mangle)]
pub extern "C" fn cordyceps_node_list_push_back(
    list: &mut NodeListHandle,
    node: &mut NodeHandle,
    out: &mut Spot,
)
    requires list { (c : Nodes Carried) × (list.old.held ≡ Some c) }
    requires fits { (c : Nodes Carried) → list.old.held ≡ Some c → length c < usize.MAX }
    requires node { HoldsNode node.old.held }
    ensures { (c : Nodes Carried) × (e : Element Carried) × (d : Nodes Carried) × (list.old.held ≡ Some c)
        × HoldsElement node.old.held e × (list.new.held ≡ Some d) × (node.new.held ≡ None)
        × (d ≡ c ++ (out.new, e) ∷ []) }
{
    let mut held = list.take();
    *out = held.push_back(node.take_node());
    list.put(held);
}

/// Inserts a node before the one at `at`, which is in this list. Its spot becomes `*out`, and its handle is of nothing
/// then.
///
/// # Complexity
/// O(1). Allocates nothing.
#[unsafe(no_mangle)]
pub extern "C" fn cordyceps_node_list_insert_before(
    list: &mut NodeListHandle,
    at: Spot,
    node: &mut NodeHandle,
    out: &mut Spot,
)
    requires list { (c : Nodes Carried) × (list.old.held ≡ Some c) }
    requires fits { (c : Nodes Carried) → list.old.held ≡ Some c → length c < usize.MAX }
    requires at { (c : Nodes Carried) → list.old.held ≡ Some c → HasSpot c at }
    requires node { HoldsNode node.old.held }
    ensures { (c : Nodes Carried) × (e : Element Carried) × (d : Nodes Carried) × (list.old.held ≡ Some c)
        × HoldsElement node.old.held e × (list.new.held ≡ Some d) × (node.new.held ≡ None)
        × IsPutBefore c at out.new e d }
{
    let mut held = list.take();
    *out = held.insert_before(at, node.take_node());
    list.put(held);
}

/// Inserts a node after the one at `at`, which is in this list. Its spot becomes `*out`, and its handle is of nothing
/// then.
///
/// # Complexity
/// O(1). Allocates nothing.
#[unsafe(no_mangle)]
pub extern "C" fn cordyceps_node_list_insert_after(
    list: &mut NodeListHandle,
    at: Spot,
    node: &mut NodeHandle,
    out: &mut Spot,
)
    requires list { (c : Nodes Carried) × (list.old.held ≡ Some c) }
    requires fits { (c : Nodes Carried) → list.old.held ≡ Some c → length c < usize.MAX }
    requires at { (c : Nodes Carried) → list.old.held ≡ Some c → HasSpot c at }
    requires node { HoldsNode node.old.held }
    ensures { (c : Nodes Carried) × (e : Element Carried) × (d : Nodes Carried) × (list.old.held ≡ Some c)
        × HoldsElement node.old.held e × (list.new.held ≡ Some d) × (node.new.held ≡ None)
        × IsPutAfter c at out.new e d }
{
    let mut held = list.take();
    *out = held.insert_after(at, node.take_node());
    list.put(held);
}

/// Removes the first node, writes it to `*out`, and returns `true`. Returns `false` if the list is empty.
///
/// # Complexity
/// O(1).
#[unsafe(no_mangle)]
pub extern "C" fn cordyceps_node_list_pop_front(
    list: &mut NodeListHandle,
    out: &mut NodeHandle,
) -> bool
    requires list { (c : Nodes Carried) × (list.old.held ≡ Some c) }
    requires out { out.old.held ≡ None }
    ensures { (c : Nodes Carried) × (d : Nodes Carried) × (list.old.held ≡ Some c) × (list.new.held ≡ Some d)
        × MatchBool result ((e : Element Carried) × HoldsElement out.new.held e × ((p : Ptr) × (c ≡ (p, e) ∷ d)))
        ((out.new.held ≡ None) × ((c ≡ []) × (d ≡ []))) }
{
    let mut held = list.take();
    let node = held.pop_front();
    list.put(held);
    out.put_found(node)
}

/// Removes the last node, writes it to `*out`, and returns `true`. Returns `false` if the list is empty.
///
/// # Complexity
/// O(1).
#[unsafe(no_mangle)]
pub extern "C" fn cordyceps_node_list_pop_back(
    list: &mut NodeListHandle,
    out: &mut NodeHandle,
) -> bool
    requires list { (c : Nodes Carried) × (list.old.held ≡ Some c) }
    requires out { out.old.held ≡ None }
    ensures { (c : Nodes Carried) × (d : Nodes Carried) × (list.old.held ≡ Some c) × (list.new.held ≡ Some d)
        × MatchBool result ((e : Element Carried) × HoldsElement out.new.held e × ((p : Ptr) × (c ≡ d ++ (p, e) ∷ [])))
        ((out.new.held ≡ None) × ((c ≡ []) × (d ≡ []))) }
{
    let mut held = list.take();
    let node = held.pop_back();
    list.put(held);
    out.put_found(node)
}

/// Removes the node at `at`, and writes it to `*out`. Requires that it is in this list.
///
/// # Complexity
/// O(1).
#[unsafe(no_mangle)]
pub extern "C" fn cordyceps_node_list_remove(
    list: &mut NodeListHandle,
    at: Spot,
    out: &mut NodeHandle,
)
    requires list { (c : Nodes Carried) × (list.old.held ≡ Some c) }
    requires there { (c : Nodes Carried) → list.old.held ≡ Some c → HasSpot c at }
    requires out { out.old.held ≡ None }
    ensures { (c : Nodes Carried) × (e : Element Carried) × (d : Nodes Carried) × (list.old.held ≡ Some c)
        × (list.new.held ≡ Some d) × HoldsElement out.new.held e × IsTaken c at e d }
{
    let mut held = list.take();
    let node = held.remove(at);
    list.put(held);
    out.put_node(node);
}

/// Writes the spot of the first node to `*out` and returns `true`. Returns `false` if the list is empty; `*out` is
/// unchanged then.
///
/// # Complexity
/// O(1).
#[unsafe(no_mangle)]
pub extern "C" fn cordyceps_node_list_front(list: &mut NodeListHandle, out: &mut Spot) -> bool
    requires list { (c : Nodes Carried) × (list.old.held ≡ Some c) }
    ensures { (c : Nodes Carried) × (list.old.held ≡ Some c) × (list.new.held ≡ Some c)
        × MatchBool result (IsFirst c out.new) ((c ≡ []) × (out.new ≡ out.old)) }
{
    let spot = list.list_mut().front();
    write_found(out, spot)
}

/// Writes the spot of the last node to `*out` and returns `true`. Returns `false` if the list is empty; `*out` is
/// unchanged then.
///
/// # Complexity
/// O(1).
#[unsafe(no_mangle)]
pub extern "C" fn cordyceps_node_list_back(list: &mut NodeListHandle, out: &mut Spot) -> bool
    requires list { (c : Nodes Carried) × (list.old.held ≡ Some c) }
    ensures { (c : Nodes Carried) × (list.old.held ≡ Some c) × (list.new.held ≡ Some c)
        × MatchBool result (IsLast c out.new) ((c ≡ []) × (out.new ≡ out.old)) }
{
    let spot = list.list_mut().back();
    write_found(out, spot)
}

/// Writes the spot of the node after the one at `at` to `*out` and returns `true`. Returns `false` if that is the last;
/// `*out` is unchanged then. Requires that the node at `at` is in this list.
///
/// # Complexity
/// O(1).
#[unsafe(no_mangle)]
pub extern "C" fn cordyceps_node_list_next(
    list: &mut NodeListHandle,
    at: Spot,
    out: &mut Spot,
) -> bool
    requires list { (c : Nodes Carried) × (list.old.held ≡ Some c) }
    requires there { (c : Nodes Carried) → list.old.held ≡ Some c → HasSpot c at }
    ensures { (c : Nodes Carried) × (list.old.held ≡ Some c) × (list.new.held ≡ Some c)
        × MatchBool result (AreNext c at out.new) (IsLast c at × (out.new ≡ out.old)) }
{
    let spot = list.list_mut().next(at);
    write_found(out, spot)
}

/// Writes the spot of the node before the one at `at` to `*out` and returns `true`. Returns `false` if that is the
/// first; `*out` is unchanged then. Requires that the node at `at` is in this list.
///
/// # Complexity
/// O(1).
#[unsafe(no_mangle)]
pub extern "C" fn cordyceps_node_list_prev(
    list: &mut NodeListHandle,
    at: Spot,
    out: &mut Spot,
) -> bool
    requires list { (c : Nodes Carried) × (list.old.held ≡ Some c) }
    requires there { (c : Nodes Carried) → list.old.held ≡ Some c → HasSpot c at }
    ensures { (c : Nodes Carried) × (list.old.held ≡ Some c) × (list.new.held ≡ Some c)
        × MatchBool result (AreNext c out.new at) (IsFirst c at × (out.new ≡ out.old)) }
{
    let spot = list.list_mut().prev(at);
    write_found(out, spot)
}

/// Moves the node at `at`, which is in this list, to the front. It keeps its spot, and the others their order.
///
/// # Complexity
/// O(1).
#[unsafe(no_mangle)]
pub extern "C" fn cordyceps_node_list_move_to_front(list: &mut NodeListHandle, at: Spot)
    requires list { (c : Nodes Carried) × (list.old.held ≡ Some c) }
    requires there { (c : Nodes Carried) → list.old.held ≡ Some c → HasSpot c at }
    ensures { (c : Nodes Carried) × (d : Nodes Carried) × (list.old.held ≡ Some c) × (list.new.held ≡ Some d)
        × IsMovedFront c at d }
{
    let mut held = list.take();
    held.move_to_front(at);
    list.put(held);
}

/// Moves the node at `at`, which is in this list, to the back. It keeps its spot, and the others their order.
///
/// # Complexity
/// O(1).
#[unsafe(no_mangle)]
pub extern "C" fn cordyceps_node_list_move_to_back(list: &mut NodeListHandle, at: Spot)
    requires list { (c : Nodes Carried) × (list.old.held ≡ Some c) }
    requires there { (c : Nodes Carried) → list.old.held ≡ Some c → HasSpot c at }
    ensures { (c : Nodes Carried) × (d : Nodes Carried) × (list.old.held ≡ Some c) × (list.new.held ≡ Some d)
        × IsMovedBack c at d }
{
    let mut held = list.take();
    held.move_to_back(at);
    list.put(held);
}
