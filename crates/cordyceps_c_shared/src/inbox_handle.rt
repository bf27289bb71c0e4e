//! The handle of an inbox that C has.
ghost use Rattle.std.specs.Prelude.{◌≡◌, Option, Some, None, MatchBool, MatchOption};
ghost use Rattle.std.specs.Borrow.{sem};
ghost use Rattle.cordyceps_c_base.specs.Held.{IsAt};
ghost use Rattle.cordyceps_c_shared.specs.declared.inbox.Inbox.{Inbox};

use crate::inbox::Inbox;
use cordyceps_c_base::raw::RawBox;
use std::alloc::Global;
use std::marker::{Model, Send};
use std::ptr::NonNull;
use std::{mem, ptr};

/// A handle of an inbox, or of nothing. A contract sees what it holds.
#[repr(C)]
pub struct InboxHandle {
    at: *mut u8,
    pub ghost held: { Option (Inbox) },
}

impl Model for InboxHandle {
    ghost use Rattle.cordyceps_c_base.specs.Held.{owns_held};
    ghost use Rattle.cordyceps_c_shared.specs.Rows.{inbox_row};

    ghost also_owns = { λ h. owns_held inbox_row h.at h.held };
}

// It may go to another thread, as the inbox may.
unsafe impl Send for InboxHandle {}

impl InboxHandle {
    ghost use Rattle.cordyceps_c_shared.specs.Lends.{lends_inbox};

    /// Returns the handle of nothing.
    fn none() -> InboxHandle
        ensures { result.held ≡ None }
    {
        InboxHandle {
            at: ptr::null_mut(),
        }
    }

    /// Returns the handle of a box.
    fn of(raw: RawBox<Inbox, Global>) -> InboxHandle
        ensures { result.held ≡ Some raw.value }
    {
        let RawBox { at, alloc: _ } = raw;
        let at = at as *mut u8;
        InboxHandle { at }
    }

    /// Returns the box of a handle.
    fn into_raw(self, alloc: Global) -> RawBox<Inbox, Global>
        requires { (x : Inbox) × (self.held ≡ Some x) }
        ensures { self.held ≡ Some result.value }
    {
        let InboxHandle { at } = self;
        let at = at as *mut Inbox;
        RawBox { at, alloc }
    }

    /// Ends the handle of nothing.
    fn discard(self)
        requires { self.held ≡ None }
    {
        let InboxHandle { at: _ } = self;
    }

    /// Returns where the handle is.
    fn place(&mut self) -> *mut u8
        ensures { (result ≡ self.old.at) × (self.new ≡ self.old) × IsAt self.old.at self.old.held }
    {
        self.at
    }

    /// Returns `true` if an inbox is held.
    pub fn is_some(&mut self) -> bool
        ensures same { self.new ≡ self.old }
        ensures found { MatchBool result ((x : Inbox) × (self.old.held ≡ Some x)) (self.old.held ≡ None) }
    {
        NonNull::new(self.place()).is_some()
    }

    /// Returns a mutable reference to the inbox that is held. Requires that one is.
    pub fn inbox_mut(&mut self) -> &mut Inbox
        requires { (x : Inbox) × (self.old.held ≡ Some x) }
        ensures* writes_back { sem 𝓛 (lends_inbox self.entry result) }
        ensures value { self.old.held ≡ Some result.now }
    {
        let at = self.at as *mut Inbox;
        unsafe { &mut *at }
    }

    /// Takes what is held, which leaves nothing.
    pub fn take(&mut self, alloc: Global) -> Option<Box<Inbox>>
        ensures taken { MatchOption result (self.old.held ≡ None) (λ b. self.old.held ≡ Some b.value) }
        ensures none { self.new.held ≡ None }
    {
        if !self.is_some() {
            return None;
        }
        let whole = mem::replace(self, InboxHandle::none());
        Some(whole.into_raw(alloc).into_box())
    }

    /// Puts an inbox into a handle of nothing.
    pub fn put(&mut self, inbox: Box<Inbox>)
        requires { self.old.held ≡ None }
        ensures { self.new.held ≡ Some inbox.value }
    {
        let empty = mem::replace(self, InboxHandle::of(RawBox::from_box(inbox)));
        empty.discard();
    }
}
