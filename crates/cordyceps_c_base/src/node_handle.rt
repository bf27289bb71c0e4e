//! The handle of a node that C has.
ghost use Rattle.std.specs.Prelude.{◌≡◌, Option, Some, None, true, false, MatchBool, MatchOption};
ghost use Rattle.cordyceps_base.specs.declared.node.Block.{Block};
ghost use Rattle.cordyceps_c_base.specs.declared.carried.Carried.{Carried};
ghost use Rattle.cordyceps_c_base.specs.Elements.{HoldsElement, HoldsNode};
ghost use Rattle.cordyceps_c_base.specs.Held.{IsAt};

use crate::carried::Carried;
use crate::raw::RawBox;
use cordyceps_base::boxes::homes::Home;
use cordyceps_base::node::{Block, Kind, Node};
use std::marker::Model;
use std::ptr::NonNull;
use std::{mem, ptr};

/// A handle of a node, or of nothing. A contract sees what it holds.
#[repr(C)]
pub struct NodeHandle {
    at: *mut u8,
    pub ghost held: { Option (Block Carried) },
}

impl Model for NodeHandle {
    ghost use Rattle.cordyceps_c_base.specs.Held.{owns_housed};
    ghost use Rattle.cordyceps_c_base.specs.Rows.{block_row};

    ghost also_owns = { λ h. owns_housed block_row h.at h.held };
}

impl NodeHandle {
    /// Returns the handle of nothing.
    fn none() -> NodeHandle
        ensures { result.held ≡ None }
    {
        NodeHandle {
            at: ptr::null_mut(),
        }
    }

    /// Returns the handle of a box.
    fn of(raw: RawBox<Block<Carried>, Home>) -> NodeHandle
        ensures { result.held ≡ Some raw.value }
    {
        let RawBox { at, alloc: _ } = raw;
        let at = at as *mut u8;
        NodeHandle { at }
    }

    /// Returns the box of a handle.
    fn into_raw(self) -> RawBox<Block<Carried>, Home>
        requires { (x : Block Carried) × (self.held ≡ Some x) }
        ensures { self.held ≡ Some result.value }
    {
        let NodeHandle { at } = self;
        let at = at as *mut Block<Carried>;
        RawBox { at, alloc: Home }
    }

    /// Ends the handle of nothing.
    fn discard(self)
        requires { self.held ≡ None }
    {
        let NodeHandle { at: _ } = self;
    }

    /// Returns where the handle is.
    fn place(&mut self) -> *mut u8
        ensures { (result ≡ self.old.at) × (self.new ≡ self.old) × IsAt self.old.at self.old.held }
    {
        self.at
    }

    /// Returns `true` if a node is held.
    pub fn is_some(&mut self) -> bool
        ensures same { self.new ≡ self.old }
        ensures found { MatchBool result (HoldsNode self.old.held) (self.old.held ≡ None) }
    {
        NonNull::new(self.place()).is_some()
    }

    /// Takes what is held, which leaves nothing. Requires that something is held.
    pub fn take(&mut self) -> Box<Block<Carried>, Home>
        requires { (x : Block Carried) × (self.old.held ≡ Some x) }
        ensures taken { self.old.held ≡ Some result.value }
        ensures none { self.new.held ≡ None }
    {
        mem::replace(self, NodeHandle::none()).into_raw().into_box()
    }

    /// Puts a box into a handle of nothing.
    pub fn put(&mut self, boxed: Box<Block<Carried>, Home>)
        requires { self.old.held ≡ None }
        ensures { self.new.held ≡ Some boxed.value }
    {
        let empty = mem::replace(self, NodeHandle::of(RawBox::from_box(boxed)));
        empty.discard();
    }

    /// Takes the node that is held, which leaves nothing. Requires that one is held.
    pub fn take_node<L: Kind>(&mut self) -> Node<Carried, L>
        requires { HoldsNode self.old.held }
        ensures { HoldsElement self.old.held result × (self.new.held ≡ None) }
    {
        Node::from_block(self.take())
    }

    /// Puts a node into a handle of nothing.
    pub fn put_node<L: Kind>(&mut self, node: Node<Carried, L>)
        requires { self.old.held ≡ None }
        ensures { HoldsElement self.new.held node }
    {
        self.put(node.into_block());
    }

    /// Puts a node that was found into a handle of nothing and returns `true`, or leaves the handle as it is and
    /// returns `false`.
    pub fn put_found<L: Kind>(&mut self, found: Option<Node<Carried, L>>) -> bool
        requires { self.old.held ≡ None }
        ensures { MatchOption found ((result ≡ false) × (self.new.held ≡ None))
            (λ e. (result ≡ true) × HoldsElement self.new.held e) }
    {
        let Some(node) = found else {
            return false;
        };
        self.put_node(node);
        true
    }
}
