//! A bell, for which threads sleep until another rings it.

use crate::wake::Wake;
use crossbeam_utils::Backoff;
use std::sync::Wait;
use std::sync::atomic::{AtomicBool, AtomicU64, Ordering};
use std::time::{Clock, Instant};

/// The bits of a number of rings that a sleep compares.
const LOW: u64 = 0xffff_ffff;

/// How often a listener looks for a ring before it sleeps.
const LOOKS: u32 = 20;

/// A bell, for which threads sleep until another rings it.
///
/// A thread looks for what it waits for between two calls of `wait`: the first begins to listen, and the second sleeps.
/// A thread that makes it come rings afterwards. All steps have one order, so either the look finds it, or the ring
/// finds the listener and ends its sleep. This is tested, but no contract states it.
///
/// A bell has a waker. While it is armed, the next ring disarms it and calls the waker. An armed bell counts as a
/// listener.
#[derive(Drop)]
pub(crate) struct Bell<W: Wake + Drop> {
    rings: AtomicU64,
    listeners: AtomicU64,
    sleepers: AtomicU64,
    is_armed: AtomicBool,
    waker: W,
}

/// How often a bell had rung when a thread began to listen, or `None` if it does not listen.
#[derive(Clone, Copy)]
pub(crate) struct Listening {
    heard: Option<u64>,
}

impl Listening {
    /// Does not listen yet.
    pub fn new() -> Listening {
        Listening { heard: None }
    }
}

impl<W: Wake + Drop> Bell<W> {
    /// Creates a bell that nobody listens to.
    pub fn new(waker: W) -> Bell<W> {
        Bell {
            rings: AtomicU64::new(0),
            listeners: AtomicU64::new(0),
            sleepers: AtomicU64::new(0),
            is_armed: AtomicBool::new(false),
            waker,
        }
    }

    /// Tells all that listen, and wakes those of them that sleep. If nobody listens, it is one load.
    pub fn ring(&self) {
        if self.listeners.load(Ordering::SeqCst) > 0 {
            self.rings.fetch_add(1, Ordering::SeqCst);
            if self.sleepers.load(Ordering::SeqCst) > 0 {
                self.rings.wake_all();
            }
            self.wake();
        }
    }

    /// Calls the waker, if the bell is armed, and disarms the bell.
    fn wake(&self) {
        if self.disarm() {
            self.waker.wake();
        }
    }

    /// Arms the bell, so that its next ring calls the waker.
    pub fn arm(&self) {
        // The listener comes first, so that a ring in between takes none away that is not there yet.
        self.listeners.fetch_add(1, Ordering::SeqCst);
        if self.is_armed.swap(true, Ordering::SeqCst) {
            self.listeners.fetch_sub(1, Ordering::SeqCst);
        }
    }

    /// Disarms the bell, and returns whether it was armed.
    pub fn disarm(&self) -> bool {
        let was_armed = self.is_armed.swap(false, Ordering::SeqCst);
        if was_armed {
            self.listeners.fetch_sub(1, Ordering::SeqCst);
        }
        was_armed
    }

    /// Begins to listen, if the thread does not, and returns at once. Otherwise it waits until the bell has rung since,
    /// or returns for no reason, and ends to listen. It looks for a ring some times, and then sleeps. After a last
    /// call the caller calls `leave`.
    ///
    /// # Waits
    /// For a ring.
    pub fn wait<R: Wait>(&self, rt: &R, listening: &mut Listening) {
        let Some(heard) = listening.heard.take() else {
            self.listen(listening);
            return;
        };
        if !self.is_heard(heard) {
            self.sleepers.fetch_add(1, Ordering::SeqCst);
            self.rings.park(rt, (heard & LOW) as u32);
            self.sleepers.fetch_sub(1, Ordering::SeqCst);
        }
        self.listeners.fetch_sub(1, Ordering::SeqCst);
    }

    /// As `wait`, and no longer than until the deadline. Returns `false` if the deadline has passed, or if the clock
    /// cannot be read.
    ///
    /// # Waits
    /// For a ring, or for the deadline.
    pub fn wait_until<R: Wait + Clock>(
        &self,
        rt: &R,
        listening: &mut Listening,
        deadline: Instant,
    ) -> bool {
        let Ok(now) = Instant::now(rt) else {
            return false;
        };
        if now >= deadline {
            return false;
        }
        let Some(heard) = listening.heard.take() else {
            self.listen(listening);
            return true;
        };
        if !self.is_heard(heard) {
            let time = deadline.saturating_duration_since(now);
            self.sleepers.fetch_add(1, Ordering::SeqCst);
            self.rings.park_timeout(rt, (heard & LOW) as u32, time);
            self.sleepers.fetch_sub(1, Ordering::SeqCst);
        }
        self.listeners.fetch_sub(1, Ordering::SeqCst);
        true
    }

    /// Begins to listen.
    fn listen(&self, listening: &mut Listening) {
        self.listeners.fetch_add(1, Ordering::SeqCst);
        listening.heard = Some(self.rings.load(Ordering::SeqCst));
    }

    /// Ends to listen, if the thread listens.
    pub fn leave(&self, listening: Listening) {
        if listening.heard.is_some() {
            self.listeners.fetch_sub(1, Ordering::SeqCst);
        }
    }

    /// Returns whether the bell has rung since. It looks up to `LOOKS` times.
    fn is_heard(&self, heard: u64) -> bool {
        let backoff = Backoff::new();
        for _ in 0..LOOKS {
            if self.rings.load(Ordering::SeqCst) != heard {
                return true;
            }
            backoff.snooze();
        }
        false
    }
}
