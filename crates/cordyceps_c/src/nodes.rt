//! The call on nodes that are in no collection.
ghost use Rattle.std.specs.Prelude.{◌≡◌, None};

use cordyceps_c_base::carried::Listed;
use cordyceps_c_base::node_handle::NodeHandle;

/// Frees a node that a call of the library made, as `cordyceps_inbox_send` does. The handle is of nothing then. Of a
/// node of the caller's own it frees nothing, and of the handle of nothing neither.
///
/// # Complexity
/// O(1).
#[unsafe(no_mangle)]
pub extern "C" fn cordyceps_node_free(node: &mut NodeHandle)
    ensures { node.new.held ≡ None }
{
    if !node.is_some() {
        return;
    }
    let taken: Listed = node.take_node();
    drop(taken);
}
