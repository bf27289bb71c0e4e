//! One list of several: nodes are put in at its ends and beside others, and taken out. No node moves.
ghost use Rattle.std.specs.Prelude.{◌≡◌, ◌≤◌, ◌+◌, ◌<◌, List, [], ◌∷◌, ◌++◌, true};
ghost use denote.RawPtr.{Ptr};
ghost use Rattle.cordyceps_base.specs.Boxes.{box_addresses};
ghost use Rattle.cordyceps_base.specs.Spots.{AreNullComparable};
ghost use Rattle.cordyceps_many.specs.Rows.{hook_at, KeepsOthers};
ghost use Rattle.cordyceps_many.specs.Threads.{is_in, without, with_before, with_after, IsThread, IsOpen, IsParted};

use crate::block::Row;
use crate::hook::{Ends, Hook};
use crate::hooks::Hooks;
use crate::rows::{followed_by, hook_of, preceded_by, set_hook, unmark};
use cordyceps_base::boxes::Address;
use cordyceps_stable::addresses::address_of;
use cordyceps_stable::stable_list::Spot;

/// Puts the node at `at` in at the back of list `i`, and returns the ends of that.
pub(crate) fn put_last<T, H: Hooks>(row: &mut Row<T, H>, i: usize, at: Spot, ends: Ends) -> Ends
    requires there { is_in at (box_addresses row.old.boxes.blocks) ≡ true }
    requires within { i < H.count }
    requires comparable { AreNullComparable (box_addresses row.old.boxes.blocks) }
    requires fits { ends.len < usize.MAX }
    requires around { (s : List Ptr) × IsOpen (hook_at row.old.boxes.blocks i) ends s at }
    ensures thread { (s : List Ptr) → IsOpen (hook_at row.old.boxes.blocks i) ends s at
        → IsThread (hook_at row.new.boxes.blocks i) result (s ++ at ∷ []) }
    ensures rest { KeepsOthers i row.old.boxes.blocks row.new.boxes.blocks }
{
    let at = address_of(at);
    let Ends { first, last, len } = ends;
    let hook = Hook {
        next: Address::null(),
        prev: last,
        linked: true,
    };
    set_hook(row, i, at, hook);
    let first = followed_by(row, i, first, last, at);
    Ends {
        first,
        last: at,
        len: len + 1,
    }
}

/// Puts the node at `at` in at the front of list `i`, and returns the ends of that.
pub(crate) fn put_first<T, H: Hooks>(row: &mut Row<T, H>, i: usize, at: Spot, ends: Ends) -> Ends
    requires there { is_in at (box_addresses row.old.boxes.blocks) ≡ true }
    requires within { i < H.count }
    requires comparable { AreNullComparable (box_addresses row.old.boxes.blocks) }
    requires fits { ends.len < usize.MAX }
    requires around { (s : List Ptr) × IsOpen (hook_at row.old.boxes.blocks i) ends s at }
    ensures thread { (s : List Ptr) → IsOpen (hook_at row.old.boxes.blocks i) ends s at
        → IsThread (hook_at row.new.boxes.blocks i) result (at ∷ s) }
    ensures rest { KeepsOthers i row.old.boxes.blocks row.new.boxes.blocks }
{
    let at = address_of(at);
    let Ends { first, last, len } = ends;
    let hook = Hook {
        next: first,
        prev: Address::null(),
        linked: true,
    };
    set_hook(row, i, at, hook);
    let last = preceded_by(row, i, first, last, at);
    Ends {
        first: at,
        last,
        len: len + 1,
    }
}

/// Puts the node at `at` in between the neighbours at `prev` and `next` of list `i`, and returns the ends of that.
fn put_between<T, H: Hooks>(
    row: &mut Row<T, H>,
    i: usize,
    at: Address,
    prev: Address,
    next: Address,
    ends: Ends,
) -> Ends
    requires there { is_in at.ptr (box_addresses row.old.boxes.blocks) ≡ true }
    requires within { i < H.count }
    requires comparable { AreNullComparable (box_addresses row.old.boxes.blocks) }
    requires fits { ends.len < usize.MAX }
    requires around { (s : List Ptr) × (t : List Ptr) × IsOpen (hook_at row.old.boxes.blocks i) ends (s ++ t) at.ptr
        × IsParted (hook_at row.old.boxes.blocks i) ends s prev.ptr next.ptr t }
    ensures thread { (s t : List Ptr) → IsOpen (hook_at row.old.boxes.blocks i) ends (s ++ t) at.ptr
        → IsParted (hook_at row.old.boxes.blocks i) ends s prev.ptr next.ptr t
        → IsThread (hook_at row.new.boxes.blocks i) result (s ++ at.ptr ∷ t) }
    ensures rest { KeepsOthers i row.old.boxes.blocks row.new.boxes.blocks }
{
    let Ends { first, last, len } = ends;
    let hook = Hook {
        next,
        prev,
        linked: true,
    };
    set_hook(row, i, at, hook);
    let first = followed_by(row, i, first, prev, at);
    let last = preceded_by(row, i, next, last, at);
    Ends {
        first,
        last,
        len: len + 1,
    }
}

/// Puts the node at `at` in before the one at `other` in list `i`, and returns the ends of that.
pub(crate) fn put_before<T, H: Hooks>(
    row: &mut Row<T, H>,
    i: usize,
    at: Spot,
    other: Spot,
    ends: Ends,
) -> Ends
    requires there { is_in at (box_addresses row.old.boxes.blocks) ≡ true }
    requires within { i < H.count }
    requires comparable { AreNullComparable (box_addresses row.old.boxes.blocks) }
    requires fits { ends.len < usize.MAX }
    requires around { (s : List Ptr) × IsOpen (hook_at row.old.boxes.blocks i) ends s at × (is_in other s ≡ true) }
    ensures thread { (s : List Ptr) → IsOpen (hook_at row.old.boxes.blocks i) ends s at → is_in other s ≡ true
        → IsThread (hook_at row.new.boxes.blocks i) result (with_before other at s) }
    ensures rest { KeepsOthers i row.old.boxes.blocks row.new.boxes.blocks }
{
    let at = address_of(at);
    let other = address_of(other);
    let prev = hook_of(row, i, other).prev;
    put_between(row, i, at, prev, other, ends)
}

/// Puts the node at `at` in after the one at `other` in list `i`, and returns the ends of that.
pub(crate) fn put_after<T, H: Hooks>(
    row: &mut Row<T, H>,
    i: usize,
    at: Spot,
    other: Spot,
    ends: Ends,
) -> Ends
    requires there { is_in at (box_addresses row.old.boxes.blocks) ≡ true }
    requires within { i < H.count }
    requires comparable { AreNullComparable (box_addresses row.old.boxes.blocks) }
    requires fits { ends.len < usize.MAX }
    requires around { (s : List Ptr) × IsOpen (hook_at row.old.boxes.blocks i) ends s at × (is_in other s ≡ true) }
    ensures thread { (s : List Ptr) → IsOpen (hook_at row.old.boxes.blocks i) ends s at → is_in other s ≡ true
        → IsThread (hook_at row.new.boxes.blocks i) result (with_after other at s) }
    ensures rest { KeepsOthers i row.old.boxes.blocks row.new.boxes.blocks }
{
    let at = address_of(at);
    let other = address_of(other);
    let next = hook_of(row, i, other).next;
    put_between(row, i, at, other, next, ends)
}

/// Links the neighbours of the node at `at` in list `i` to each other, and returns the ends of the list without it. The
/// hook of that node stays.
pub(crate) fn cut_open<T, H: Hooks>(row: &mut Row<T, H>, i: usize, at: Spot, ends: Ends) -> Ends
    requires within { i < H.count }
    requires comparable { AreNullComparable (box_addresses row.old.boxes.blocks) }
    requires thread { (s : List Ptr) × IsThread (hook_at row.old.boxes.blocks i) ends s × (is_in at s ≡ true) }
    ensures around { (s : List Ptr) → IsThread (hook_at row.old.boxes.blocks i) ends s → is_in at s ≡ true
        → IsOpen (hook_at row.new.boxes.blocks i) result (without at s) at }
    ensures room { result.len < usize.MAX }
    ensures rest { KeepsOthers i row.old.boxes.blocks row.new.boxes.blocks }
{
    let at = address_of(at);
    let Hook { next, prev, .. } = hook_of(row, i, at);
    let Ends { first, last, len } = ends;
    let first = followed_by(row, i, first, prev, next);
    let last = preceded_by(row, i, next, last, prev);
    Ends {
        first,
        last,
        len: len - 1,
    }
}

/// Takes the node at `at` out of list `i`, which is not list 0, and returns the ends of that.
pub(crate) fn cut_out<T, H: Hooks>(row: &mut Row<T, H>, i: usize, at: Spot, ends: Ends) -> Ends
    requires within { i < H.count }
    requires not_all { 0 < i }
    requires comparable { AreNullComparable (box_addresses row.old.boxes.blocks) }
    requires thread { (s : List Ptr) × IsThread (hook_at row.old.boxes.blocks i) ends s × (is_in at s ≡ true) }
    ensures thread { (s : List Ptr) → IsThread (hook_at row.old.boxes.blocks i) ends s → is_in at s ≡ true
        → IsThread (hook_at row.new.boxes.blocks i) result (without at s) }
    ensures rest { KeepsOthers i row.old.boxes.blocks row.new.boxes.blocks }
{
    let ends = cut_open(row, i, at, ends);
    unmark(row, i, address_of(at));
    ends
}
