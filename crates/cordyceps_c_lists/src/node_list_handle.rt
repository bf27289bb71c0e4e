//! The handle of a list of C's own nodes that C has.
ghost use Rattle.std.specs.Prelude.{◌≡◌, Option, Some, None, MatchBool};
ghost use Rattle.std.specs.Borrow.{sem};
ghost use Rattle.cordyceps_base.specs.Nodes.{Nodes};
ghost use Rattle.cordyceps_c_base.specs.declared.carried.Carried.{Carried};
ghost use Rattle.cordyceps_c_base.specs.Held.{IsAt};

use cordyceps_base::boxes::homes::Home;
use cordyceps_c_base::carried::Carried;
use cordyceps_c_base::raw::RawBox;
use cordyceps_stable::stable_list::StableList;
use std::marker::Model;
use std::ptr::NonNull;
use std::{mem, ptr};

/// A handle of a list of C's own nodes, or of nothing. A contract sees what it holds.
#[repr(C)]
pub struct NodeListHandle {
    at: *mut u8,
    pub ghost held: { Option (Nodes Carried) },
}

impl Model for NodeListHandle {
    ghost use Rattle.cordyceps_c_base.specs.Held.{owns_housed};
    ghost use Rattle.cordyceps_c_lists.specs.Rows.{node_list_row};

    ghost also_owns = { λ h. owns_housed node_list_row h.at h.held };
}

impl NodeListHandle {
    ghost use Rattle.cordyceps_c_lists.specs.Lends.{lends_node_list};

    /// Returns the handle of nothing.
    fn none() -> NodeListHandle
        ensures { result.held ≡ None }
    {
        NodeListHandle {
            at: ptr::null_mut(),
        }
    }

    /// Returns the handle of a box.
    fn of(raw: RawBox<StableList<Carried>, Home>) -> NodeListHandle
        ensures { result.held ≡ Some raw.value }
    {
        let RawBox { at, alloc: _ } = raw;
        let at = at as *mut u8;
        NodeListHandle { at }
    }

    /// Returns the box of a handle.
    fn into_raw(self) -> RawBox<StableList<Carried>, Home>
        requires { (x : Nodes Carried) × (self.held ≡ Some x) }
        ensures { self.held ≡ Some result.value }
    {
        let NodeListHandle { at } = self;
        let at = at as *mut StableList<Carried>;
        RawBox { at, alloc: Home }
    }

    /// Ends the handle of nothing.
    fn discard(self)
        requires { self.held ≡ None }
    {
        let NodeListHandle { at: _ } = self;
    }

    /// Returns where the handle is.
    fn place(&mut self) -> *mut u8
        ensures { (result ≡ self.old.at) × (self.new ≡ self.old) × IsAt self.old.at self.old.held }
    {
        self.at
    }

    /// Returns `true` if a list is held.
    pub fn is_some(&mut self) -> bool
        ensures same { self.new ≡ self.old }
        ensures found { MatchBool result ((x : Nodes Carried) × (self.old.held ≡ Some x)) (self.old.held ≡ None) }
    {
        NonNull::new(self.place()).is_some()
    }

    /// Returns a mutable reference to the list that is held. Requires that one is.
    pub fn list_mut(&mut self) -> &mut StableList<Carried>
        requires { (x : Nodes Carried) × (self.old.held ≡ Some x) }
        ensures* writes_back { sem 𝓛 (lends_node_list self.entry result) }
        ensures value { self.old.held ≡ Some result.now }
    {
        let at = self.at as *mut StableList<Carried>;
        unsafe { &mut *at }
    }

    /// Takes what is held, which leaves nothing. Requires that something is held.
    pub fn take(&mut self) -> Box<StableList<Carried>, Home>
        requires { (x : Nodes Carried) × (self.old.held ≡ Some x) }
        ensures taken { self.old.held ≡ Some result.value }
        ensures none { self.new.held ≡ None }
    {
        mem::replace(self, NodeListHandle::none())
            .into_raw()
            .into_box()
    }

    /// Puts a box into a handle of nothing.
    pub fn put(&mut self, boxed: Box<StableList<Carried>, Home>)
        requires { self.old.held ≡ None }
        ensures { self.new.held ≡ Some boxed.value }
    {
        let empty = mem::replace(self, NodeListHandle::of(RawBox::from_box(boxed)));
        empty.discard();
    }
}
