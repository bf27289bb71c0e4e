//! The handle of a priority queue of C's own nodes that C has.
ghost use Rattle.std.specs.Prelude.{◌≡◌, Option, Some, None, MatchBool};
ghost use Rattle.std.specs.Borrow.{sem};
ghost use Rattle.cordyceps_base.specs.Nodes.{Nodes};
ghost use Rattle.cordyceps_c_base.specs.declared.carried.Carried.{Carried};
ghost use Rattle.cordyceps_c_base.specs.Held.{IsAt};

use crate::node_queue::NodeQueue;
use cordyceps_base::boxes::homes::Home;
use cordyceps_c_base::raw::RawBox;
use std::marker::Model;
use std::ptr::NonNull;
use std::{mem, ptr};

/// A handle of a priority queue of C's own nodes, or of nothing. A contract sees what it holds.
#[repr(C)]
pub struct NodeQueueHandle {
    at: *mut u8,
    pub ghost held: { Option (Nodes Carried) },
}

impl Model for NodeQueueHandle {
    ghost use Rattle.cordyceps_c_base.specs.Held.{owns_housed};
    ghost use Rattle.cordyceps_c_timers.specs.Rows.{node_queue_row};

    ghost also_owns = { λ h. owns_housed node_queue_row h.at h.held };
}

impl NodeQueueHandle {
    ghost use Rattle.cordyceps_c_timers.specs.Lends.{lends_node_queue};

    /// Returns the handle of nothing.
    fn none() -> NodeQueueHandle
        ensures { result.held ≡ None }
    {
        NodeQueueHandle {
            at: ptr::null_mut(),
        }
    }

    /// Returns the handle of a box.
    fn of(raw: RawBox<NodeQueue, Home>) -> NodeQueueHandle
        ensures { result.held ≡ Some raw.value }
    {
        let RawBox { at, alloc: _ } = raw;
        let at = at as *mut u8;
        NodeQueueHandle { at }
    }

    /// Returns the box of a handle.
    fn into_raw(self) -> RawBox<NodeQueue, Home>
        requires { (x : Nodes Carried) × (self.held ≡ Some x) }
        ensures { self.held ≡ Some result.value }
    {
        let NodeQueueHandle { at } = self;
        let at = at as *mut NodeQueue;
        RawBox { at, alloc: Home }
    }

    /// Ends the handle of nothing.
    fn discard(self)
        requires { self.held ≡ None }
    {
        let NodeQueueHandle { at: _ } = self;
    }

    /// Returns where the handle is.
    fn place(&mut self) -> *mut u8
        ensures { (result ≡ self.old.at) × (self.new ≡ self.old) × IsAt self.old.at self.old.held }
    {
        self.at
    }

    /// Returns `true` if a queue is held.
    pub fn is_some(&mut self) -> bool
        ensures same { self.new ≡ self.old }
        ensures found { MatchBool result ((x : Nodes Carried) × (self.old.held ≡ Some x)) (self.old.held ≡ None) }
    {
        NonNull::new(self.place()).is_some()
    }

    /// Returns a mutable reference to the queue that is held. Requires that one is.
    pub fn queue_mut(&mut self) -> &mut NodeQueue
        requires { (x : Nodes Carried) × (self.old.held ≡ Some x) }
        ensures* writes_back { sem 𝓛 (lends_node_queue self.entry result) }
        ensures value { self.old.held ≡ Some result.now }
    {
        let at = self.at as *mut NodeQueue;
        unsafe { &mut *at }
    }

    /// Takes what is held, which leaves nothing. Requires that something is held.
    pub fn take(&mut self) -> Box<NodeQueue, Home>
        requires { (x : Nodes Carried) × (self.old.held ≡ Some x) }
        ensures taken { self.old.held ≡ Some result.value }
        ensures none { self.new.held ≡ None }
    {
        mem::replace(self, NodeQueueHandle::none())
            .into_raw()
            .into_box()
    }

    /// Puts a box into a handle of nothing.
    pub fn put(&mut self, boxed: Box<NodeQueue, Home>)
        requires { self.old.held ≡ None }
        ensures { self.new.held ≡ Some boxed.value }
    {
        let empty = mem::replace(self, NodeQueueHandle::of(RawBox::from_box(boxed)));
        empty.discard();
    }
}
