//! The handle of timers that C has.
ghost use Rattle.std.specs.Prelude.{◌≡◌, Option, Some, None, MatchBool, MatchOption};
ghost use Rattle.std.specs.Borrow.{sem};
ghost use Rattle.cordyceps_c_base.specs.Held.{IsAt};
ghost use Rattle.cordyceps_c_timers.specs.Timers.{Running};

use crate::timers::Timers;
use cordyceps_c_base::raw::RawBox;
use std::alloc::Global;
use std::marker::{Model, Send};
use std::ptr::NonNull;
use std::{mem, ptr};

/// A handle of timers, or of nothing. A contract sees what it holds.
#[repr(C)]
pub struct TimersHandle {
    at: *mut u8,
    pub ghost held: { Option (Running) },
}

impl Model for TimersHandle {
    ghost use Rattle.cordyceps_c_base.specs.Held.{owns_held};
    ghost use Rattle.cordyceps_c_timers.specs.Rows.{timers_row};

    ghost also_owns = { λ h. owns_held timers_row h.at h.held };
}

// It may go to another thread, as the timers may.
unsafe impl Send for TimersHandle {}

impl TimersHandle {
    ghost use Rattle.cordyceps_c_timers.specs.Lends.{lends_timers};

    /// Returns the handle of nothing.
    fn none() -> TimersHandle
        ensures { result.held ≡ None }
    {
        TimersHandle {
            at: ptr::null_mut(),
        }
    }

    /// Returns the handle of a box.
    fn of(raw: RawBox<Timers, Global>) -> TimersHandle
        ensures { result.held ≡ Some raw.value }
    {
        let RawBox { at, alloc: _ } = raw;
        let at = at as *mut u8;
        TimersHandle { at }
    }

    /// Returns the box of a handle.
    fn into_raw(self, alloc: Global) -> RawBox<Timers, Global>
        requires { (x : Running) × (self.held ≡ Some x) }
        ensures { self.held ≡ Some result.value }
    {
        let TimersHandle { at } = self;
        let at = at as *mut Timers;
        RawBox { at, alloc }
    }

    /// Ends the handle of nothing.
    fn discard(self)
        requires { self.held ≡ None }
    {
        let TimersHandle { at: _ } = self;
    }

    /// Returns where the handle is.
    fn place(&mut self) -> *mut u8
        ensures { (result ≡ self.old.at) × (self.new ≡ self.old) × IsAt self.old.at self.old.held }
    {
        self.at
    }

    /// Returns `true` if timers are held.
    pub fn is_some(&mut self) -> bool
        ensures same { self.new ≡ self.old }
        ensures found { MatchBool result ((x : Running) × (self.old.held ≡ Some x)) (self.old.held ≡ None) }
    {
        NonNull::new(self.place()).is_some()
    }

    /// Returns a mutable reference to the timers that are held. Requires that some are.
    pub fn timers_mut(&mut self) -> &mut Timers
        requires { (x : Running) × (self.old.held ≡ Some x) }
        ensures* writes_back { sem 𝓛 (lends_timers self.entry result) }
        ensures value { self.old.held ≡ Some result.now }
    {
        let at = self.at as *mut Timers;
        unsafe { &mut *at }
    }

    /// Takes what is held, which leaves nothing.
    pub fn take(&mut self, alloc: Global) -> Option<Box<Timers>>
        ensures taken { MatchOption result (self.old.held ≡ None) (λ b. self.old.held ≡ Some b.value) }
        ensures none { self.new.held ≡ None }
    {
        if !self.is_some() {
            return None;
        }
        let whole = mem::replace(self, TimersHandle::none());
        Some(whole.into_raw(alloc).into_box())
    }

    /// Puts timers into a handle of nothing.
    pub fn put(&mut self, timers: Box<Timers>)
        requires { self.old.held ≡ None }
        ensures { self.new.held ≡ Some timers.value }
    {
        let empty = mem::replace(self, TimersHandle::of(RawBox::from_box(timers)));
        empty.discard();
    }
}
