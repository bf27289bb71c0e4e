//! The calls of priority queues of C's own nodes.
ghost use Rattle.std.specs.Prelude.{◌≡◌, ◌≢◌, ◌<◌, ◌≤◌, [], length, false, Some, None, MatchBool, MatchOption};
ghost use Rattle.cordyceps_base.specs.Element.{Element};
ghost use Rattle.cordyceps_base.specs.Nodes.{Nodes};
ghost use Rattle.cordyceps_base.specs.BySpot.{HasSpot, IsTaken};
ghost use Rattle.cordyceps_c_base.specs.declared.carried.Carried.{Carried};
ghost use Rattle.cordyceps_c_base.specs.Elements.{HoldsElement, HoldsNode};
ghost use Rattle.cordyceps_c_timers.specs.Arranged.{placed};
ghost use Rattle.cordyceps_c_timers.specs.NodeQueues.{Begins, ChangesValue, value_of};

use cordyceps_base::boxes::homes::Home;
use cordyceps_c_base::node_handle::NodeHandle;
use cordyceps_c_base::out::write_found;
use cordyceps_c_timers::node_queue::NodeQueue;
use cordyceps_c_timers::node_queue_handle::NodeQueueHandle;
use cordyceps_stable::stable_list::Spot;
use std::alloc::Global;

/// Makes an empty queue in a handle of nothing, and returns `true`. Returns `false` if memory is refused, and changes
/// nothing then. A queue may lie in memory of the caller's instead, and needs no such call.
///
/// # Complexity
/// O(1), with one allocation.
#[unsafe(no_mangle)]
pub extern "C" fn cordyceps_node_queue_new(alloc: Global, out: &mut NodeQueueHandle) -> bool
    requires { out.old.held ≡ None }
    ensures { MatchBool result (out.new.held ≡ Some []) (out.new.held ≡ None) }
{
    match Home::boxed(alloc, NodeQueue::new()) {
        Ok(queue) => {
            out.put(queue);
            true
        }
        Err(_) => false,
    }
}

/// Frees an empty queue that `cordyceps_node_queue_new` made, and returns `true`: the handle is of nothing then.
/// Returns `false` if the queue has nodes, or if the handle is of nothing, and changes nothing then. A queue in memory
/// of the caller's only leaves its handle.
///
/// # Complexity
/// O(1).
#[unsafe(no_mangle)]
pub extern "C" fn cordyceps_node_queue_free(alloc: Global, queue: &mut NodeQueueHandle) -> bool
    ensures { MatchOption queue.old.held
        ((result ≡ false) × (queue.new.held ≡ None))
        (λ c. MatchBool result ((c ≡ []) × (queue.new.held ≡ None)) ((c ≢ []) × (queue.new.held ≡ Some c))) }
{
    if !queue.is_some() {
        return false;
    }
    let held = queue.take();
    if held.len() > 0 {
        queue.put(held);
        return false;
    }
    drop(Home::unboxed(held, alloc));
    true
}

/// Returns the number of nodes.
///
/// # Complexity
/// O(1).
#[unsafe(no_mangle)]
pub extern "C" fn cordyceps_node_queue_len(queue: &mut NodeQueueHandle) -> usize
    requires { (c : Nodes Carried) × (queue.old.held ≡ Some c) }
    ensures { (c : Nodes Carried) × (queue.old.held ≡ Some c) × (queue.new.held ≡ Some c) × (result ≡ length c) }
{
    let count = queue.queue_mut().len();
    count
}

/// Inserts a node, which its value orders, after all of no greater value. Its spot becomes `*out`, and its handle is of
/// nothing then.
///
/// # Complexity
/// O(1), without a comparison. Allocates nothing.
#[unsafe(no_mangle)]
pub extern "C" fn cordyceps_node_queue_push(
    queue: &mut NodeQueueHandle,
    node: &mut NodeHandle,
    out: &mut Spot,
)
    requires queue { (c : Nodes Carried) × (queue.old.held ≡ Some c) }
    requires fits { (c : Nodes Carried) → queue.old.held ≡ Some c → length c < usize.MAX }
    requires node { HoldsNode node.old.held }
    ensures { (c : Nodes Carried) × (e : Element Carried) × (queue.old.held ≡ Some c) × HoldsElement node.old.held e
        × (queue.new.held ≡ Some (placed value_of out.new e c)) × (node.new.held ≡ None) }
{
    let mut held = queue.take();
    *out = held.push(node.take_node());
    queue.put(held);
}

/// Removes the node of the least value, and of equal values the one that was pushed first, writes it to `*out`, and
/// returns `true`. Returns `false` if the queue is empty.
///
/// # Complexity
/// O(log n) amortized, for n nodes.
#[unsafe(no_mangle)]
pub extern "C" fn cordyceps_node_queue_pop(
    queue: &mut NodeQueueHandle,
    out: &mut NodeHandle,
) -> bool
    requires queue { (c : Nodes Carried) × (queue.old.held ≡ Some c) }
    requires out { out.old.held ≡ None }
    ensures { (c : Nodes Carried) × (d : Nodes Carried) × (queue.old.held ≡ Some c) × (queue.new.held ≡ Some d)
        × MatchBool result ((e : Element Carried) × HoldsElement out.new.held e × Begins e c d)
        ((out.new.held ≡ None) × ((c ≡ []) × (d ≡ []))) }
{
    let mut held = queue.take();
    let node = held.pop();
    queue.put(held);
    out.put_found(node)
}

/// Removes the first node if its value is at most `most`, writes it to `*out`, and returns `true`. Returns `false` if
/// the first has a greater value or the queue is empty, and the queue is unchanged then.
///
/// # Complexity
/// O(log n) amortized, for n nodes.
#[unsafe(no_mangle)]
pub extern "C" fn cordyceps_node_queue_pop_until(
    queue: &mut NodeQueueHandle,
    most: u64,
    out: &mut NodeHandle,
) -> bool
    requires queue { (c : Nodes Carried) × (queue.old.held ≡ Some c) }
    requires out { out.old.held ≡ None }
    ensures { (c : Nodes Carried) × (d : Nodes Carried) × (queue.old.held ≡ Some c) × (queue.new.held ≡ Some d)
        × MatchBool result
        ((e : Element Carried) × HoldsElement out.new.held e × (Begins e c d × (value_of e.value ≤ most)))
        ((out.new.held ≡ None) × ((d ≡ c)
        × ((e : Element Carried) (rest : Nodes Carried) → Begins e c rest → most < value_of e.value))) }
{
    let mut held = queue.take();
    let node = held.pop_until(most);
    queue.put(held);
    out.put_found(node)
}

/// Writes the value of the first node to `*out` and returns `true`. Returns `false` if the queue is empty; `*out` is
/// unchanged then.
///
/// # Complexity
/// O(log n) amortized, for n nodes.
#[unsafe(no_mangle)]
pub extern "C" fn cordyceps_node_queue_first(queue: &mut NodeQueueHandle, out: &mut u64) -> bool
    requires { (c : Nodes Carried) × (queue.old.held ≡ Some c) }
    ensures { (c : Nodes Carried) × (queue.old.held ≡ Some c) × (queue.new.held ≡ Some c)
        × MatchBool result
        ((e : Element Carried) × (rest : Nodes Carried) × Begins e c rest × (out.new ≡ value_of e.value))
        ((c ≡ []) × (out.new ≡ out.old)) }
{
    let mut held = queue.take();
    let value = held.first();
    queue.put(held);
    write_found(out, value)
}

/// Removes the node at `at`, and writes it to `*out`. Requires that it is in this queue.
///
/// # Complexity
/// O(1), without a comparison.
#[unsafe(no_mangle)]
pub extern "C" fn cordyceps_node_queue_remove(
    queue: &mut NodeQueueHandle,
    at: Spot,
    out: &mut NodeHandle,
)
    requires queue { (c : Nodes Carried) × (queue.old.held ≡ Some c) }
    requires there { (c : Nodes Carried) → queue.old.held ≡ Some c → HasSpot c at }
    requires out { out.old.held ≡ None }
    ensures { (c : Nodes Carried) × (e : Element Carried) × (d : Nodes Carried) × (queue.old.held ≡ Some c)
        × (queue.new.held ≡ Some d) × HoldsElement out.new.held e × IsTaken c at e d }
{
    let mut held = queue.take();
    let node = held.remove(at);
    queue.put(held);
    out.put_node(node);
}

/// Gives another value to the node at `at`, which is in this queue, as if it were pushed now. It keeps its spot.
///
/// # Complexity
/// O(1), without a comparison.
#[unsafe(no_mangle)]
pub extern "C" fn cordyceps_node_queue_change(queue: &mut NodeQueueHandle, at: Spot, value: u64)
    requires queue { (c : Nodes Carried) × (queue.old.held ≡ Some c) }
    requires there { (c : Nodes Carried) → queue.old.held ≡ Some c → HasSpot c at }
    ensures { (c : Nodes Carried) × (d : Nodes Carried) × (queue.old.held ≡ Some c) × (queue.new.held ≡ Some d)
        × ChangesValue at value c d }
{
    let mut held = queue.take();
    held.change(at, value);
    queue.put(held);
}
