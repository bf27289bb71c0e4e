//! The handle of a priority queue that C has.
ghost use Rattle.std.specs.Prelude.{◌≡◌, Option, Some, None, MatchBool, MatchOption};
ghost use Rattle.std.specs.Borrow.{sem};
ghost use Rattle.cordyceps_c_base.specs.Held.{IsAt};
ghost use Rattle.cordyceps_c_timers.specs.Queues.{Queued};

use crate::queue::Queue;
use cordyceps_c_base::raw::RawBox;
use std::alloc::Global;
use std::marker::{Model, Send};
use std::ptr::NonNull;
use std::{mem, ptr};

/// A handle of a priority queue, or of nothing. A contract sees what it holds.
#[repr(C)]
pub struct QueueHandle {
    at: *mut u8,
    pub ghost held: { Option (Queued) },
}

impl Model for QueueHandle {
    ghost use Rattle.cordyceps_c_base.specs.Held.{owns_held};
    ghost use Rattle.cordyceps_c_timers.specs.Rows.{queue_row};

    ghost also_owns = { λ h. owns_held queue_row h.at h.held };
}

// It may go to another thread, as the queue may.
unsafe impl Send for QueueHandle {}

impl QueueHandle {
    ghost use Rattle.cordyceps_c_timers.specs.Lends.{lends_queue};

    /// Returns the handle of nothing.
    fn none() -> QueueHandle
        ensures { result.held ≡ None }
    {
        QueueHandle {
            at: ptr::null_mut(),
        }
    }

    /// Returns the handle of a box.
    fn of(raw: RawBox<Queue, Global>) -> QueueHandle
        ensures { result.held ≡ Some raw.value }
    {
        let RawBox { at, alloc: _ } = raw;
        let at = at as *mut u8;
        QueueHandle { at }
    }

    /// Returns the box of a handle.
    fn into_raw(self, alloc: Global) -> RawBox<Queue, Global>
        requires { (x : Queued) × (self.held ≡ Some x) }
        ensures { self.held ≡ Some result.value }
    {
        let QueueHandle { at } = self;
        let at = at as *mut Queue;
        RawBox { at, alloc }
    }

    /// Ends the handle of nothing.
    fn discard(self)
        requires { self.held ≡ None }
    {
        let QueueHandle { at: _ } = self;
    }

    /// Returns where the handle is.
    fn place(&mut self) -> *mut u8
        ensures { (result ≡ self.old.at) × (self.new ≡ self.old) × IsAt self.old.at self.old.held }
    {
        self.at
    }

    /// Returns `true` if a queue is held.
    pub fn is_some(&mut self) -> bool
        ensures same { self.new ≡ self.old }
        ensures found { MatchBool result ((x : Queued) × (self.old.held ≡ Some x)) (self.old.held ≡ None) }
    {
        NonNull::new(self.place()).is_some()
    }

    /// Returns a mutable reference to the queue that is held. Requires that one is.
    pub fn queue_mut(&mut self) -> &mut Queue
        requires { (x : Queued) × (self.old.held ≡ Some x) }
        ensures* writes_back { sem 𝓛 (lends_queue self.entry result) }
        ensures value { self.old.held ≡ Some result.now }
    {
        let at = self.at as *mut Queue;
        unsafe { &mut *at }
    }

    /// Takes what is held, which leaves nothing.
    pub fn take(&mut self, alloc: Global) -> Option<Box<Queue>>
        ensures taken { MatchOption result (self.old.held ≡ None) (λ b. self.old.held ≡ Some b.value) }
        ensures none { self.new.held ≡ None }
    {
        if !self.is_some() {
            return None;
        }
        let whole = mem::replace(self, QueueHandle::none());
        Some(whole.into_raw(alloc).into_box())
    }

    /// Puts a queue into a handle of nothing.
    pub fn put(&mut self, queue: Box<Queue>)
        requires { self.old.held ≡ None }
        ensures { self.new.held ≡ Some queue.value }
    {
        let empty = mem::replace(self, QueueHandle::of(RawBox::from_box(queue)));
        empty.discard();
    }
}
