//! Fingers: nodes that a list remembers, so that places near them are found in few moves.
//!
//! ```text
//! index    0     1     2     3     4     5
//!          o <-> o <-> o <-> o <-> o <-> o
//!          ^           ^           ^     ^
//!         head       front       back   tail
//! ```
//!
//! A finger is a node's address and index. The invariant says that a finger whose index is below the length is on that
//! node; while the front finger is on no node, the back finger is not used. `Fingers::seek` finds the node at a place.
//! If the front finger is at that place or at the one before it, it moves there at once: most calls ask for its node or
//! the next, and comparing all distances took longer than the rest of the call. Otherwise `seek_far` walks from the
//! nearest end or finger, and leaves a finger there.
//!
//! A list keeps fingers since an `IterMut` and a `DrainFilter` borrow it, and lose what they knew of addresses with
//! each value that they lend and at the end of each `next`. There are two, since an iterator that is used from both
//! ends would move a single one to and fro. A push, `pop_front` and `append` take the fingers off; `pop_back` and a
//! split need not. For its four words of fingers `append` takes longer than that of the Rust crate `cordyceps`.
//!
//! `remove` and a filter's cursor leave the front finger at the next node, and take the back finger off, so a filter
//! goes on without a search. Moving both fingers along took two comparisons and two writes more.
//!
//! A loop over a list contains no search and no call. A call that is given the list keeps its fingers in memory, and a
//! short loop then takes twice as long. So `next` of `IterMut` leaves the front finger after the value that it lends,
//! and the compiler drops the search. `seek` and `seek_within`, and the steps of a filter's cursor, are
//! `inline(always)`; otherwise two filters took 1.5 to 2.2 times the time of the Rust crate's.
//!
//! A split walks on and back by different loops. One loop that asks at each node which way to go took 6.8 instructions
//! a node; these take 1.9, since the compiler unrolls them.
ghost use Rattle.std.specs.Prelude.{◌≡◌, ◌+◌, ◌-◌, ◌^◌, ◌<◌, ◌≤◌, ◌⊎◌, length, IfSome};
ghost use Rattle.cordyceps_base.specs.Nodes.{IsAt};
ghost use Rattle.cordyceps_list.specs.Places.{next_place, prev_place};
ghost use Rattle.cordyceps_list.specs.Position.{StandsAt};

use cordyceps_base::boxes::Address;
use cordyceps_base::double_chain::DoubleChain;
use cordyceps_base::steps::{Steps, count_one};

/// The address of a node and its index. At an index that is not below the length it is on no node, and its address is
/// not used.
#[derive(Clone, Copy)]
pub(crate) struct Finger {
    pub(crate) address: Address,
    pub(crate) index: usize,
}

impl Finger {
    ghost use Rattle.cordyceps_list.specs.Fingers.{IsOn, FingerFits};

    /// Returns a finger after the last of `len` nodes, on no node.
    pub(crate) fn after_last(len: usize) -> Finger
        ensures { result.index ≡ len }
    {
        Finger {
            address: Address::null(),
            index: len,
        }
    }

    /// Returns a finger on the first node. Requires that the chain is not empty.
    pub(crate) fn at_head<T>(chain: &DoubleChain<T>) -> Finger
        requires { 0 < length chain.now }
        ensures on { IsOn chain.now result }
        ensures first { result.index ≡ 0 }
    {
        Finger {
            address: chain.head(),
            index: 0,
        }
    }

    /// Returns a finger on the last node. Requires that the chain is not empty.
    pub(crate) fn at_tail<T>(chain: &DoubleChain<T>) -> Finger
        requires { 0 < length chain.now }
        ensures on { IsOn chain.now result }
        ensures last { result.index ≡ length chain.now - 1 }
    {
        Finger {
            address: chain.tail(),
            index: chain.len() - 1,
        }
    }

    /// Returns a finger on the first node, or on no node if the chain is empty.
    pub(crate) fn at_front<T>(chain: &DoubleChain<T>) -> Finger
        ensures stands { StandsAt chain.now result.address result.index }
        ensures first { result.index ≡ 0 }
    {
        if chain.len() == 0 {
            return Finger::after_last(0);
        }
        Finger::at_head(chain)
    }

    /// Returns a finger on the last node, or on no node if the chain is empty.
    pub(crate) fn at_back<T>(chain: &DoubleChain<T>) -> Finger
        ensures stands { StandsAt chain.now result.address result.index }
        ensures last { result.index ≡ length chain.now - 1 }
    {
        if chain.len() == 0 {
            return Finger::after_last(0);
        }
        Finger::at_tail(chain)
    }

    /// Returns the finger at the next place: after the last node comes the null place, and then the first node.
    pub(crate) fn next<T>(self, chain: &DoubleChain<T>) -> Finger
        requires { StandsAt chain.now self.address self.index }
        ensures stands { StandsAt chain.now result.address result.index }
        ensures place { result.index ≡ next_place (length chain.now) self.index }
    {
        if self.index == chain.len() {
            return Finger::at_front(chain);
        }
        Finger {
            address: chain.next(self.address, self.index),
            index: self.index + 1,
        }
    }

    /// Returns the finger at the previous place: before the first node comes the null place, and then the last node.
    pub(crate) fn prev<T>(self, chain: &DoubleChain<T>) -> Finger
        requires { StandsAt chain.now self.address self.index }
        ensures stands { StandsAt chain.now result.address result.index }
        ensures place { result.index ≡ prev_place (length chain.now) self.index }
    {
        if self.index == 0 {
            return Finger::after_last(chain.len());
        }
        if self.index == chain.len() {
            return Finger::at_tail(chain);
        }
        Finger {
            address: chain.prev(self.address, self.index),
            index: self.index - 1,
        }
    }

    /// Returns the number of moves from the finger to an index.
    fn distance(self, to: usize) -> usize {
        self.index.abs_diff(to)
    }

    /// Returns the finger that is fewer moves away from an index.
    fn or_nearer(self, other: Finger, to: usize) -> Finger
        ensures { (result ≡ self) ⊎ (result ≡ other) }
    {
        if other.distance(to) < self.distance(to) {
            other
        } else {
            self
        }
    }

    /// Returns this finger, or the one on an end of the chain, if that is nearer to an index or this one is on no node.
    fn or_end<T>(self, chain: &DoubleChain<T>, end: Finger, to: usize) -> Finger
        requires fits { FingerFits chain.now self }
        requires on { IsOn chain.now end }
        ensures { IsOn chain.now result }
    {
        if self.index < chain.len() {
            self.or_nearer(end, to)
        } else {
            end
        }
    }

    /// Moves along the links, one node at a time, to the index `to`.
    fn walked<T>(self, chain: &DoubleChain<T>, to: usize) -> Finger
        requires on { IsOn chain.now self }
        requires inside { to < length chain.now }
        ensures on { IsOn chain.now result }
        ensures arrived { result.index ≡ to }
    {
        let mut finger = self;
        while finger.index < to {
            finger.address = chain.next(finger.address, finger.index);
            finger.index += 1;
        }
        while to < finger.index {
            finger.address = chain.prev(finger.address, finger.index);
            finger.index -= 1;
        }
        finger
    }

    /// Moves on to the index `to`, which is not before this one, and counts the moves.
    pub(crate) fn walked_on_in<T>(
        self,
        chain: &DoubleChain<T>,
        to: usize,
        steps: &mut Steps,
    ) -> Finger
        requires on { IsOn chain.now self }
        requires inside { to < length chain.now }
        requires ahead { self.index ≤ to }
        requires room { steps.old + (to - self.index) < 2 ^ 64 }
        ensures on { IsOn chain.now result }
        ensures arrived { result.index ≡ to }
        ensures counted { steps.new ≡ steps.old + (to - self.index) }
    {
        let mut finger = self;
        while finger.index < to {
            count_one(steps);
            finger.address = chain.next(finger.address, finger.index);
            finger.index += 1;
        }
        finger
    }

    /// Moves back to the index `to`, which is not after this one, and counts the moves.
    pub(crate) fn walked_back_in<T>(
        self,
        chain: &DoubleChain<T>,
        to: usize,
        steps: &mut Steps,
    ) -> Finger
        requires on { IsOn chain.now self }
        requires behind { to ≤ self.index }
        requires room { steps.old + (self.index - to) < 2 ^ 64 }
        ensures on { IsOn chain.now result }
        ensures arrived { result.index ≡ to }
        ensures counted { steps.new ≡ steps.old + (self.index - to) }
    {
        let mut finger = self;
        while to < finger.index {
            count_one(steps);
            finger.address = chain.prev(finger.address, finger.index);
            finger.index -= 1;
        }
        finger
    }
}

/// The two fingers of a list. The front one follows walks from the front, and the back one walks from the back, so that
/// neither disturbs the other. Where the front one is on no node, the back one is not used.
#[derive(Clone, Copy)]
pub(crate) struct Fingers {
    pub(crate) front: Finger,
    pub(crate) back: Finger,
}

impl Fingers {
    ghost use Rattle.cordyceps_list.specs.Fingers.{FingersFit};

    /// Returns two fingers on no node.
    pub(crate) fn after_last<T>(chain: &DoubleChain<T>) -> Fingers
        ensures { FingersFit chain.now result }
    {
        let after_last = Finger::after_last(chain.len());
        Fingers {
            front: after_last,
            back: after_last,
        }
    }

    /// Returns a finger on the first node and one on the last, or two on no node if the chain is empty.
    pub(crate) fn at_ends<T>(chain: &DoubleChain<T>) -> Fingers
        ensures { FingersFit chain.now result }
    {
        if chain.len() == 0 {
            return Fingers::after_last(chain);
        }
        Fingers {
            front: Finger::at_head(chain),
            back: Finger::at_tail(chain),
        }
    }

    /// Returns these fingers, or those on the ends if the front one is on no node.
    fn or_ends<T>(self, chain: &DoubleChain<T>) -> Fingers
        requires fit { FingersFit chain.now self }
        requires some { 0 < length chain.now }
        ensures fit { FingersFit chain.now result }
        ensures on { result.front.index < length chain.now }
    {
        if self.front.index < chain.len() {
            return self;
        }
        Fingers {
            front: Finger::at_head(chain),
            back: Finger::at_tail(chain),
        }
    }

    /// Takes both fingers off every chain of at most `len` nodes, by one write at most. Only the contract needs `len`.
    pub(crate) fn take_off(&mut self, len: usize)
        ensures { len ≤ self.new.front.index }
    {
        if self.front.index != usize::MAX {
            self.front.index = usize::MAX;
        }
    }

    /// Puts the front finger on a node, and takes the back one off every chain of at most `len` nodes. Only the
    /// contract needs `len`.
    pub(crate) fn stand(&mut self, address: Address, index: usize, len: usize)
        ensures front { self.new.front ≡ record { address = address; index = index } }
        ensures back { len ≤ self.new.back.index }
    {
        self.front = Finger { address, index };
        self.back.index = usize::MAX;
    }

    /// Returns the address of a node if the front finger is on it or on the one before it, and moves the finger to it.
    fn seek_near<T>(&mut self, chain: &DoubleChain<T>, to: usize) -> Option<Address>
        requires fit { FingersFit chain.now self.old }
        requires inside { to < length chain.now }
        ensures fit { FingersFit chain.now self.new }
        ensures on { IfSome result (λ _. self.new.front.index < length chain.now) }
        ensures address { IfSome result (λ address. IsAt chain.now to address) }
    {
        if self.front.index == to {
            return Some(self.front.address);
        }
        if 0 < to && self.front.index == to - 1 {
            let address = chain.next(self.front.address, self.front.index);
            self.front = Finger { address, index: to };
            return Some(address);
        }
        None
    }

    /// Returns the address of a node, without a walk if the front finger is on it or on the one before it. It is
    /// inlined, so that a loop at the front finger has no call.
    #[inline(always)]
    pub(crate) fn seek<T>(&mut self, chain: &DoubleChain<T>, to: usize) -> Address
        requires fit { FingersFit chain.now self.old }
        requires inside { to < length chain.now }
        ensures fit { FingersFit chain.now self.new }
        ensures on { self.new.front.index < length chain.now }
        ensures address { IsAt chain.now to result }
    {
        match self.seek_near(chain, to) {
            Some(address) => address,
            None => self.seek_far(chain, to),
        }
    }

    /// Returns the address of a node, found from the nearest of the two ends and the two fingers, one of which moves
    /// there.
    fn seek_far<T>(&mut self, chain: &DoubleChain<T>, to: usize) -> Address
        requires fit { FingersFit chain.now self.old }
        requires inside { to < length chain.now }
        ensures fit { FingersFit chain.now self.new }
        ensures on { self.new.front.index < length chain.now }
        ensures address { IsAt chain.now to result }
    {
        let fingers = self.or_ends(chain);
        let front = fingers.front.or_end(chain, Finger::at_head(chain), to);
        let back = fingers.back.or_end(chain, Finger::at_tail(chain), to);
        let is_back = back.distance(to) < front.distance(to);
        let from = if is_back { back } else { front };
        let found = from.walked(chain, to);
        *self = if is_back {
            Fingers {
                front: fingers.front,
                back: found,
            }
        } else {
            Fingers {
                front: found,
                back: fingers.back,
            }
        };
        found.address
    }

    /// Returns the address of a node as `seek` does, or null if `to` is the place after the last node. It is inlined as
    /// `seek` is.
    #[inline(always)]
    pub(crate) fn seek_within<T>(&mut self, chain: &DoubleChain<T>, to: usize) -> Address
        requires { FingersFit chain.now self.old }
        ensures fit { FingersFit chain.now self.new }
        ensures on { to < length chain.now → IsAt chain.now to result }
        ensures front { to < length chain.now → self.new.front.index < length chain.now }
    {
        if to < chain.len() {
            self.seek(chain, to)
        } else {
            Address::null()
        }
    }
}
