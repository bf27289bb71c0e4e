//! The handle of a list that C has.
ghost use Rattle.std.specs.Prelude.{◌≡◌, Option, Some, None, MatchBool, MatchOption};
ghost use Rattle.std.specs.Borrow.{sem};
ghost use Rattle.cordyceps_c_base.specs.Held.{IsAt};
ghost use Rattle.cordyceps_c_lists.specs.Lists.{Listed};

use crate::list::List;
use cordyceps_c_base::raw::RawBox;
use std::alloc::Global;
use std::marker::{Model, Send};
use std::ptr::NonNull;
use std::{mem, ptr};

/// A handle of a list, or of nothing. A contract sees what it holds.
#[repr(C)]
pub struct ListHandle {
    at: *mut u8,
    pub ghost held: { Option (Listed) },
}

impl Model for ListHandle {
    ghost use Rattle.cordyceps_c_base.specs.Held.{owns_held};
    ghost use Rattle.cordyceps_c_lists.specs.Rows.{list_row};

    ghost also_owns = { λ h. owns_held list_row h.at h.held };
}

// It may go to another thread, as the list may.
unsafe impl Send for ListHandle {}

impl ListHandle {
    ghost use Rattle.cordyceps_c_lists.specs.Lends.{lends_list};

    /// Returns the handle of nothing.
    fn none() -> ListHandle
        ensures { result.held ≡ None }
    {
        ListHandle {
            at: ptr::null_mut(),
        }
    }

    /// Returns the handle of a box.
    fn of(raw: RawBox<List, Global>) -> ListHandle
        ensures { result.held ≡ Some raw.value }
    {
        let RawBox { at, alloc: _ } = raw;
        let at = at as *mut u8;
        ListHandle { at }
    }

    /// Returns the box of a handle.
    fn into_raw(self, alloc: Global) -> RawBox<List, Global>
        requires { (x : Listed) × (self.held ≡ Some x) }
        ensures { self.held ≡ Some result.value }
    {
        let ListHandle { at } = self;
        let at = at as *mut List;
        RawBox { at, alloc }
    }

    /// Ends the handle of nothing.
    fn discard(self)
        requires { self.held ≡ None }
    {
        let ListHandle { at: _ } = self;
    }

    /// Returns where the handle is.
    fn place(&mut self) -> *mut u8
        ensures { (result ≡ self.old.at) × (self.new ≡ self.old) × IsAt self.old.at self.old.held }
    {
        self.at
    }

    /// Returns `true` if a list is held.
    pub fn is_some(&mut self) -> bool
        ensures same { self.new ≡ self.old }
        ensures found { MatchBool result ((x : Listed) × (self.old.held ≡ Some x)) (self.old.held ≡ None) }
    {
        NonNull::new(self.place()).is_some()
    }

    /// Returns a mutable reference to the list that is held. Requires that one is.
    pub fn list_mut(&mut self) -> &mut List
        requires { (x : Listed) × (self.old.held ≡ Some x) }
        ensures* writes_back { sem 𝓛 (lends_list self.entry result) }
        ensures value { self.old.held ≡ Some result.now }
    {
        let at = self.at as *mut List;
        unsafe { &mut *at }
    }

    /// Takes what is held, which leaves nothing.
    pub fn take(&mut self, alloc: Global) -> Option<Box<List>>
        ensures taken { MatchOption result (self.old.held ≡ None) (λ b. self.old.held ≡ Some b.value) }
        ensures none { self.new.held ≡ None }
    {
        if !self.is_some() {
            return None;
        }
        let whole = mem::replace(self, ListHandle::none());
        Some(whole.into_raw(alloc).into_box())
    }

    /// Puts a list into a handle of nothing.
    pub fn put(&mut self, list: Box<List>)
        requires { self.old.held ≡ None }
        ensures { self.new.held ≡ Some list.value }
    {
        let empty = mem::replace(self, ListHandle::of(RawBox::from_box(list)));
        empty.discard();
    }
}
