//! How many lists a node can be in, and its hooks for them.
//!
//! The number of lists is a type, `One` to `Four`. With a constant parameter each function that takes or returns a
//! block would have to require that it fits into memory, and `Drop` can require nothing. The trait behind the four
//! types is private, so their arrays can change.
//!
//! At `One` to `Four` a `MultiList` can go to another thread, and for an unknown `H` it cannot. With `Send` as a bound
//! of the arrays of hooks the type could, but the toolchain's borrow checker does not cover a call then whose type
//! rests on such a bound, and each call would need a proof by hand.
ghost use Rattle.std.specs.Prelude.{◌≡◌, ℕ, ◌<◌, List, length, true};
ghost use lib.Dec.{lit<};
ghost use lib.ListN.{set, replicate};
ghost use Rattle.cordyceps_many.specs.declared.hook.Hook.{Hook};
ghost use Rattle.cordyceps_many.specs.declared.hook.Ends.{Ends};
ghost use Rattle.cordyceps_many.specs.Threads.{no_ends, hook_in, ends_in, AllOff, with_next, with_prev, unmarked};
ghost use Rattle.cordyceps_many.specs.Marked.{hooks_of};

use crate::hook::{Ends, Hook};
use crate::marked::Marked;
use cordyceps_base::boxes::Address;
use std::marker::Model;

/// Rows of hooks, one for each list, and of the lists' ends. It keeps `Hooks` to the types of this module.
pub(crate) trait Rows {
    /// A node's hooks.
    type HookArray: Copy;

    /// The ends of all lists.
    type EndsArray: Copy;

    // How many lists there are.
    ghost count: { ℕ };

    // The hooks of a row.
    ghost hooks: { Self.HookArray → List Hook };

    // The ends of a row.
    ghost ends: { Self.EndsArray → List Ends };

    /// Returns how many lists there are.
    fn count() -> usize
        ensures { result ≡ count };

    /// Returns the hooks of a node that is in no list but list 0.
    fn no_hooks() -> Self::HookArray
        ensures long { length (hooks result) ≡ count }
        ensures off { AllOff (hooks result) };

    /// Returns a node's hook for list `i`.
    fn hook(row: &Self::HookArray, i: usize) -> Hook
        requires long { length (hooks row.now) ≡ count }
        requires within { i < count }
        ensures { result ≡ hook_in (hooks row.now) i };

    /// Sets a node's hook for list `i`. That for list 0 always has its mark.
    fn set_hook(row: &mut Self::HookArray, i: usize, hook: Hook)
        requires long { length (hooks row.old) ≡ count }
        requires within { i < count }
        requires on { i ≡ 0 → hook.linked ≡ true }
        ensures { hooks row.new ≡ set (hooks row.old) i hook };

    /// Makes a node lead to `next` in list `i`.
    fn set_next(row: &mut Self::HookArray, i: usize, next: Address)
        requires long { length (hooks row.old) ≡ count }
        requires within { i < count }
        ensures { hooks row.new ≡ set (hooks row.old) i (with_next (hook_in (hooks row.old) i) next) };

    /// Makes a node lead back to `prev` in list `i`.
    fn set_prev(row: &mut Self::HookArray, i: usize, prev: Address)
        requires long { length (hooks row.old) ≡ count }
        requires within { i < count }
        ensures { hooks row.new ≡ set (hooks row.old) i (with_prev (hook_in (hooks row.old) i) prev) };

    /// Takes the mark of list `i` off a node, unless it is list 0, which has no marks.
    fn unmark(row: &mut Self::HookArray, i: usize)
        requires long { length (hooks row.old) ≡ count }
        requires within { i < count }
        ensures { 0 < i → hooks row.new ≡ set (hooks row.old) i (unmarked (hook_in (hooks row.old) i)) };

    /// Returns the ends of lists with no node.
    fn no_ends() -> Self::EndsArray
        ensures { ends result ≡ replicate count no_ends };

    /// Returns the ends of list `i`.
    fn ends_of(row: &Self::EndsArray, i: usize) -> Ends
        requires long { length (ends row.now) ≡ count }
        requires within { i < count }
        ensures { result ≡ ends_in (ends row.now) i };

    /// Sets the ends of list `i`.
    fn set_ends(row: &mut Self::EndsArray, i: usize, list: Ends)
        requires long { length (ends row.old) ≡ count }
        requires within { i < count }
        ensures { ends row.new ≡ set (ends row.old) i list };

    // There is a list.
    ghost some: { 0 < count };
}

/// How many lists a node can be in at once: `One`, `Two`, `Three` or `Four`. A contract sees the number as `H.count`.
pub trait Hooks: Rows {}

/// A node's hooks. A contract sees them as a list.
#[derive(Drop)]
pub(crate) struct HookRow<H: Hooks> {
    row: H::HookArray,
}

impl<H: Hooks> Model for HookRow<H> {
    ghost Value = { List Hook };

    ghost view = { λ r. H.hooks r.row };

    ghost invariant = { λ r. length (H.hooks r.row) ≡ H.count };
}

impl<H: Hooks> HookRow<H> {
    /// Returns the hooks of a node that is in no list but list 0.
    pub(crate) fn unlinked() -> HookRow<H>
        ensures { AllOff result }
    {
        HookRow { row: H::no_hooks() }
    }

    /// Returns the hook for list `i`.
    pub(crate) fn at(&self, i: usize) -> Hook
        requires { i < H.count }
        ensures { result ≡ hook_in self.now i }
    {
        H::hook(&self.row, i)
    }

    /// Sets the hook for list `i`. That for list 0 always has its mark.
    pub(crate) fn set(&mut self, i: usize, hook: Hook)
        requires within { i < H.count }
        requires on { i ≡ 0 → hook.linked ≡ true }
        ensures set { self.new ≡ set self.old i hook }
        ensures long { length self.old ≡ H.count }
    {
        H::set_hook(&mut self.row, i, hook);
    }

    /// Leads to `next` in list `i`.
    pub(crate) fn set_next(&mut self, i: usize, next: Address)
        requires within { i < H.count }
        ensures set { self.new ≡ set self.old i (with_next (hook_in self.old i) next) }
        ensures long { length self.old ≡ H.count }
    {
        H::set_next(&mut self.row, i, next);
    }

    /// Leads back to `prev` in list `i`.
    pub(crate) fn set_prev(&mut self, i: usize, prev: Address)
        requires within { i < H.count }
        ensures set { self.new ≡ set self.old i (with_prev (hook_in self.old i) prev) }
        ensures long { length self.old ≡ H.count }
    {
        H::set_prev(&mut self.row, i, prev);
    }

    /// Takes the mark of list `i`, which is not list 0, off.
    pub(crate) fn unmark(&mut self, i: usize)
        requires within { i < H.count }
        requires not_all { 0 < i }
        ensures set { self.new ≡ set self.old i (unmarked (hook_in self.old i)) }
        ensures long { length self.old ≡ H.count }
    {
        H::unmark(&mut self.row, i);
    }
}

/// The ends of all lists. A contract sees them as a list.
#[derive(Drop)]
pub(crate) struct EndsRow<H: Hooks> {
    row: H::EndsArray,
}

impl<H: Hooks> Model for EndsRow<H> {
    ghost Value = { List Ends };

    ghost view = { λ r. H.ends r.row };

    ghost invariant = { λ r. length (H.ends r.row) ≡ H.count };
}

impl<H: Hooks> EndsRow<H> {
    /// Returns the ends of lists with no node.
    pub(crate) fn none() -> EndsRow<H>
        ensures { result ≡ replicate H.count no_ends }
    {
        EndsRow { row: H::no_ends() }
    }

    /// Returns the ends of list `i`.
    pub(crate) fn at(&self, i: usize) -> Ends
        requires { i < H.count }
        ensures { result ≡ ends_in self.now i }
    {
        H::ends_of(&self.row, i)
    }

    /// Sets the ends of list `i`.
    pub(crate) fn set(&mut self, i: usize, list: Ends)
        requires { i < H.count }
        ensures { self.new ≡ set self.old i list }
    {
        H::set_ends(&mut self.row, i, list);
    }
}

/// Nodes that can be in one list at once.
pub struct One;

impl Hooks for One {}

impl Rows for One {
    type HookArray = Marked<1, 0>;

    type EndsArray = [Ends; 1];

    ghost count = { 1 };

    ghost hooks = { λ r. hooks_of r.links r.marks };

    ghost ends = { λ r. r };

    fn count() -> usize {
        1
    }

    fn no_hooks() -> Marked<1, 0> {
        Marked::none()
    }

    fn hook(row: &Marked<1, 0>, i: usize) -> Hook {
        row.hook(i)
    }

    fn set_hook(row: &mut Marked<1, 0>, i: usize, hook: Hook) {
        row.set_hook(i, hook);
    }

    fn set_next(row: &mut Marked<1, 0>, i: usize, next: Address) {
        row.set_next(i, next);
    }

    fn set_prev(row: &mut Marked<1, 0>, i: usize, prev: Address) {
        row.set_prev(i, prev);
    }

    fn unmark(row: &mut Marked<1, 0>, i: usize) {
        row.unmark(i);
    }

    fn no_ends() -> [Ends; 1] {
        [Ends::none(); 1]
    }

    fn ends_of(row: &[Ends; 1], i: usize) -> Ends {
        row[i]
    }

    fn set_ends(row: &mut [Ends; 1], i: usize, list: Ends) {
        row[i] = list;
    }

    ghost some = { lit< tt };
}

/// Nodes that can be in up to two lists at once.
pub struct Two;

impl Hooks for Two {}

impl Rows for Two {
    type HookArray = Marked<2, 1>;

    type EndsArray = [Ends; 2];

    ghost count = { 2 };

    ghost hooks = { λ r. hooks_of r.links r.marks };

    ghost ends = { λ r. r };

    fn count() -> usize {
        2
    }

    fn no_hooks() -> Marked<2, 1> {
        Marked::none()
    }

    fn hook(row: &Marked<2, 1>, i: usize) -> Hook {
        row.hook(i)
    }

    fn set_hook(row: &mut Marked<2, 1>, i: usize, hook: Hook) {
        row.set_hook(i, hook);
    }

    fn set_next(row: &mut Marked<2, 1>, i: usize, next: Address) {
        row.set_next(i, next);
    }

    fn set_prev(row: &mut Marked<2, 1>, i: usize, prev: Address) {
        row.set_prev(i, prev);
    }

    fn unmark(row: &mut Marked<2, 1>, i: usize) {
        row.unmark(i);
    }

    fn no_ends() -> [Ends; 2] {
        [Ends::none(); 2]
    }

    fn ends_of(row: &[Ends; 2], i: usize) -> Ends {
        row[i]
    }

    fn set_ends(row: &mut [Ends; 2], i: usize, list: Ends) {
        row[i] = list;
    }

    ghost some = { lit< tt };
}

/// Nodes that can be in up to three lists at once.
pub struct Three;

impl Hooks for Three {}

impl Rows for Three {
    type HookArray = Marked<3, 2>;

    type EndsArray = [Ends; 3];

    ghost count = { 3 };

    ghost hooks = { λ r. hooks_of r.links r.marks };

    ghost ends = { λ r. r };

    fn count() -> usize {
        3
    }

    fn no_hooks() -> Marked<3, 2> {
        Marked::none()
    }

    fn hook(row: &Marked<3, 2>, i: usize) -> Hook {
        row.hook(i)
    }

    fn set_hook(row: &mut Marked<3, 2>, i: usize, hook: Hook) {
        row.set_hook(i, hook);
    }

    fn set_next(row: &mut Marked<3, 2>, i: usize, next: Address) {
        row.set_next(i, next);
    }

    fn set_prev(row: &mut Marked<3, 2>, i: usize, prev: Address) {
        row.set_prev(i, prev);
    }

    fn unmark(row: &mut Marked<3, 2>, i: usize) {
        row.unmark(i);
    }

    fn no_ends() -> [Ends; 3] {
        [Ends::none(); 3]
    }

    fn ends_of(row: &[Ends; 3], i: usize) -> Ends {
        row[i]
    }

    fn set_ends(row: &mut [Ends; 3], i: usize, list: Ends) {
        row[i] = list;
    }

    ghost some = { lit< tt };
}

/// Nodes that can be in up to four lists at once.
pub struct Four;

impl Hooks for Four {}

impl Rows for Four {
    type HookArray = Marked<4, 3>;

    type EndsArray = [Ends; 4];

    ghost count = { 4 };

    ghost hooks = { λ r. hooks_of r.links r.marks };

    ghost ends = { λ r. r };

    fn count() -> usize {
        4
    }

    fn no_hooks() -> Marked<4, 3> {
        Marked::none()
    }

    fn hook(row: &Marked<4, 3>, i: usize) -> Hook {
        row.hook(i)
    }

    fn set_hook(row: &mut Marked<4, 3>, i: usize, hook: Hook) {
        row.set_hook(i, hook);
    }

    fn set_next(row: &mut Marked<4, 3>, i: usize, next: Address) {
        row.set_next(i, next);
    }

    fn set_prev(row: &mut Marked<4, 3>, i: usize, prev: Address) {
        row.set_prev(i, prev);
    }

    fn unmark(row: &mut Marked<4, 3>, i: usize) {
        row.unmark(i);
    }

    fn no_ends() -> [Ends; 4] {
        [Ends::none(); 4]
    }

    fn ends_of(row: &[Ends; 4], i: usize) -> Ends {
        row[i]
    }

    fn set_ends(row: &mut [Ends; 4], i: usize, list: Ends) {
        row[i] = list;
    }

    ghost some = { lit< tt };
}
