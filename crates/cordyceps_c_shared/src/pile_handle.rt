//! The handle of a pile that C has.
ghost use Rattle.std.specs.Prelude.{◌≡◌, Option, Some, None, MatchBool, MatchOption};
ghost use Rattle.std.specs.Borrow.{sem};
ghost use Rattle.cordyceps_c_base.specs.Held.{IsAt};
ghost use Rattle.cordyceps_c_shared.specs.declared.pile.Pile.{Pile};

use crate::pile::Pile;
use cordyceps_c_base::raw::RawBox;
use std::alloc::Global;
use std::marker::{Model, Send};
use std::ptr::NonNull;
use std::{mem, ptr};

/// A handle of a pile, or of nothing. A contract sees what it holds.
#[repr(C)]
pub struct PileHandle {
    at: *mut u8,
    pub ghost held: { Option (Pile) },
}

impl Model for PileHandle {
    ghost use Rattle.cordyceps_c_base.specs.Held.{owns_held};
    ghost use Rattle.cordyceps_c_shared.specs.Rows.{pile_row};

    ghost also_owns = { λ h. owns_held pile_row h.at h.held };
}

// It may go to another thread, as the pile may.
unsafe impl Send for PileHandle {}

impl PileHandle {
    ghost use Rattle.cordyceps_c_shared.specs.Lends.{lends_pile};

    /// Returns the handle of nothing.
    fn none() -> PileHandle
        ensures { result.held ≡ None }
    {
        PileHandle {
            at: ptr::null_mut(),
        }
    }

    /// Returns the handle of a box.
    fn of(raw: RawBox<Pile, Global>) -> PileHandle
        ensures { result.held ≡ Some raw.value }
    {
        let RawBox { at, alloc: _ } = raw;
        let at = at as *mut u8;
        PileHandle { at }
    }

    /// Returns the box of a handle.
    fn into_raw(self, alloc: Global) -> RawBox<Pile, Global>
        requires { (x : Pile) × (self.held ≡ Some x) }
        ensures { self.held ≡ Some result.value }
    {
        let PileHandle { at } = self;
        let at = at as *mut Pile;
        RawBox { at, alloc }
    }

    /// Ends the handle of nothing.
    fn discard(self)
        requires { self.held ≡ None }
    {
        let PileHandle { at: _ } = self;
    }

    /// Returns where the handle is.
    fn place(&mut self) -> *mut u8
        ensures { (result ≡ self.old.at) × (self.new ≡ self.old) × IsAt self.old.at self.old.held }
    {
        self.at
    }

    /// Returns `true` if a pile is held.
    pub fn is_some(&mut self) -> bool
        ensures same { self.new ≡ self.old }
        ensures found { MatchBool result ((x : Pile) × (self.old.held ≡ Some x)) (self.old.held ≡ None) }
    {
        NonNull::new(self.place()).is_some()
    }

    /// Returns a mutable reference to the pile that is held. Requires that one is.
    pub fn pile_mut(&mut self) -> &mut Pile
        requires { (x : Pile) × (self.old.held ≡ Some x) }
        ensures* writes_back { sem 𝓛 (lends_pile self.entry result) }
        ensures value { self.old.held ≡ Some result.now }
    {
        let at = self.at as *mut Pile;
        unsafe { &mut *at }
    }

    /// Takes what is held, which leaves nothing.
    pub fn take(&mut self, alloc: Global) -> Option<Box<Pile>>
        ensures taken { MatchOption result (self.old.held ≡ None) (λ b. self.old.held ≡ Some b.value) }
        ensures none { self.new.held ≡ None }
    {
        if !self.is_some() {
            return None;
        }
        let whole = mem::replace(self, PileHandle::none());
        Some(whole.into_raw(alloc).into_box())
    }

    /// Puts a pile into a handle of nothing.
    pub fn put(&mut self, pile: Box<Pile>)
        requires { self.old.held ≡ None }
        ensures { self.new.held ≡ Some pile.value }
    {
        let empty = mem::replace(self, PileHandle::of(RawBox::from_box(pile)));
        empty.discard();
    }
}
