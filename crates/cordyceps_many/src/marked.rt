//! A node's neighbours in each list, and a mark for each list that need not have the node.
ghost use Rattle.std.specs.Prelude.{◌≡◌, ◌+◌, ◌<◌, length, true};
ghost use lib.ListN.{set};
ghost use Rattle.cordyceps_many.specs.Threads.{hook_in, AllOff, with_next, with_prev, unmarked};
ghost use Rattle.cordyceps_many.specs.Marked.{hooks_of};

use crate::hook::Hook;
use cordyceps_base::boxes::Address;

/// The neighbours of a node in one list.
#[derive(Clone, Copy)]
pub struct Links {
    pub(crate) next: Address,
    pub(crate) prev: Address,
}

/// The hooks of a node for `N` lists. List 0 has every node, so it needs no mark: `M` is one less than `N`, and mark
/// `i` is that of list `i + 1`.
///
/// Pairs and marks are apart, so a hook takes 16 bytes, and one more for its mark. A write of a link writes that word
/// alone.
#[derive(Clone, Copy)]
pub struct Marked<const N: usize, const M: usize> {
    pub(crate) links: [Links; N],
    pub(crate) marks: [bool; M],
}

impl<const N: usize, const M: usize> Marked<N, M> {
    /// Returns the hooks of a node that is in no list but list 0.
    pub(crate) fn none() -> Marked<N, M>
        requires { N ≡ M + 1 }
        ensures long { length (hooks_of result.links result.marks) ≡ N }
        ensures off { AllOff (hooks_of result.links result.marks) }
    {
        let links = Links {
            next: Address::null(),
            prev: Address::null(),
        };
        Marked {
            links: [links; N],
            marks: [false; M],
        }
    }

    /// Returns the hook for list `i`.
    pub(crate) fn hook(&self, i: usize) -> Hook
        requires long { length (hooks_of self.now.links self.now.marks) ≡ N }
        requires within { i < N }
        requires marks { N ≡ M + 1 }
        ensures { result ≡ hook_in (hooks_of self.now.links self.now.marks) i }
    {
        let Links { next, prev } = self.links[i];
        let linked = if i == 0 { true } else { self.marks[i - 1] };
        Hook { next, prev, linked }
    }

    /// Sets the hook for list `i`. That for list 0 always has its mark.
    pub(crate) fn set_hook(&mut self, i: usize, hook: Hook)
        requires long { length (hooks_of self.old.links self.old.marks) ≡ N }
        requires within { i < N }
        requires marks { N ≡ M + 1 }
        requires on { i ≡ 0 → hook.linked ≡ true }
        ensures { hooks_of self.new.links self.new.marks ≡ set (hooks_of self.old.links self.old.marks) i hook }
    {
        let Hook { next, prev, linked } = hook;
        self.links[i] = Links { next, prev };
        if i > 0 {
            self.marks[i - 1] = linked;
        }
    }

    /// Leads to `next` in list `i`.
    pub(crate) fn set_next(&mut self, i: usize, next: Address)
        requires long { length (hooks_of self.old.links self.old.marks) ≡ N }
        requires within { i < N }
        ensures { hooks_of self.new.links self.new.marks ≡ set (hooks_of self.old.links self.old.marks) i
            (with_next (hook_in (hooks_of self.old.links self.old.marks) i) next) }
    {
        self.links[i].next = next;
    }

    /// Leads back to `prev` in list `i`.
    pub(crate) fn set_prev(&mut self, i: usize, prev: Address)
        requires long { length (hooks_of self.old.links self.old.marks) ≡ N }
        requires within { i < N }
        ensures { hooks_of self.new.links self.new.marks ≡ set (hooks_of self.old.links self.old.marks) i
            (with_prev (hook_in (hooks_of self.old.links self.old.marks) i) prev) }
    {
        self.links[i].prev = prev;
    }

    /// Takes the mark of list `i` off, unless it is list 0, which has no marks.
    pub(crate) fn unmark(&mut self, i: usize)
        requires long { length (hooks_of self.old.links self.old.marks) ≡ N }
        requires within { i < N }
        requires marks { N ≡ M + 1 }
        ensures { 0 < i → hooks_of self.new.links self.new.marks ≡ set (hooks_of self.old.links self.old.marks) i
            (unmarked (hook_in (hooks_of self.old.links self.old.marks) i)) }
    {
        if i > 0 {
            self.marks[i - 1] = false;
        }
    }
}
