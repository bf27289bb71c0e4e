//! Laws of lists. Each is a small function whose contract is the law, and whose body is the calls that it is about.
ghost use Rattle.std.specs.Prelude.{◌≡◌, ◌+◌, ◌-◌, ◌%◌, ◌*◌, ◌<◌, ◌≤◌, ◌∷◌, [], ◌++◌, length, take, drop, option_map, Some};
ghost use Rattle.std.specs.Fn.{FnOnceReturnsAt, FnOnceReturnsAtPair};
ghost use Rattle.cordyceps_list.specs.Turns.{parts_by};

pub mod lending;
pub mod reading;

use crate::cursor_mut::CursorMut;
use crate::iter::IntoIter;
use crate::list::{Links, List};
use cordyceps_base::linked::Linked;

/// Pushes an element to the front and pops it. The popped element is the pushed one, and the list is as it was.
///
/// Between the two calls `look` is called with the list, which has the element first. Returns its result and the popped
/// handle. Requires a length below `usize::MAX`, and that `look` can be called.
///
/// # Complexity
/// O(1), and what `look` takes.
pub fn pop_pushed_front<T: Linked<Links<T>>, R, F: FnOnce(&List<T>) -> R>(
    list: &mut List<T>,
    handle: T::Handle,
    look: F,
) -> (R, Option<T::Handle>)
    requires room { length list.old < usize.MAX }
    requires callable { F.IsAlwaysCallable look }
    ensures shown { FnOnceReturnsAt F.FnOnce look (T.element handle ∷ list.old) result.0 }
    ensures answer { option_map T.element result.1 ≡ Some (T.element handle) }
    ensures restored { list.new ≡ list.old }
{
    list.push_front(handle);
    let shown = look(&*list);
    (shown, list.pop_front())
}

/// Pushes an element to the back and pops it. The popped element is the pushed one, and the list is as it was.
///
/// Between the two calls `look` is called with the list, which has the element last. Returns its result and the popped
/// handle. Requires a length below `usize::MAX`, and that `look` can be called.
///
/// # Complexity
/// O(1), and what `look` takes.
pub fn pop_pushed_back<T: Linked<Links<T>>, R, F: FnOnce(&List<T>) -> R>(
    list: &mut List<T>,
    handle: T::Handle,
    look: F,
) -> (R, Option<T::Handle>)
    requires room { length list.old < usize.MAX }
    requires callable { F.IsAlwaysCallable look }
    ensures shown { FnOnceReturnsAt F.FnOnce look (list.old ++ T.element handle ∷ []) result.0 }
    ensures answer { option_map T.element result.1 ≡ Some (T.element handle) }
    ensures restored { list.new ≡ list.old }
{
    list.push_back(handle);
    let shown = look(&*list);
    (shown, list.pop_back())
}

/// Splits the list at an index and appends what was split off. The list is as it was.
///
/// Between the two calls `look` is called with what was kept and what was split off. Returns its result. Requires that
/// the index is at most the length, and that `look` can be called.
///
/// # Complexity
/// That of `split_off`, and what `look` takes.
pub fn append_split_off<T: Linked<Links<T>>, R, F: FnOnce(&List<T>, &List<T>) -> R>(
    list: &mut List<T>,
    index: usize,
    look: F,
) -> R
    requires within { index ≤ length list.old }
    requires callable { F.IsAlwaysCallable look }
    ensures shown { FnOnceReturnsAtPair F.FnOnce look (take index list.old) (drop index list.old) result }
    ensures restored { list.new ≡ list.old }
{
    prove!(index <= list.len());
    let mut rest = list.split_off(index);
    let shown = look(&*list, &rest);
    list.append(&mut rest);
    shown
}

/// Calls `next`, and appends its result to those from the front.
fn move_first<T: Linked<Links<T>>>(left: &mut IntoIter<T>, firsts: &mut List<T>)
    requires { length firsts.old + length left.old ≤ usize.MAX }
    ensures firsts { firsts.new ≡ firsts.old ++ take 1 left.old }
    ensures left { left.new ≡ drop 1 left.old }
{
    if let Some(handle) = left.next() {
        firsts.push_back(handle);
    }
}

/// Calls `next_back`, and prepends its result to those from the back.
fn move_last<T: Linked<Links<T>>>(left: &mut IntoIter<T>, lasts: &mut List<T>)
    requires { length left.old + length lasts.old ≤ usize.MAX }
    ensures lasts { lasts.new ≡ drop (length left.old - 1) left.old ++ lasts.old }
    ensures left { left.new ≡ take (length left.old - 1) left.old }
{
    if let Some(handle) = left.next_back() {
        lasts.push_front(handle);
    }
}

/// Takes elements from both ends in turn: `true` calls `next`, and `false` calls `next_back`. Returns those from the
/// front, the iterator over those that are left, and those from the back.
///
/// Together these are all elements, each once and in order.
///
/// # Complexity
/// O(k), for k turns.
pub fn take_from_both_ends<T: Linked<Links<T>>>(
    list: List<T>,
    turns: &[bool],
) -> (List<T>, IntoIter<T>, List<T>)
    ensures turns { let parts = parts_by turns.now list in
        (result.0 ≡ parts.firsts) × (result.1 ≡ parts.left) × (result.2 ≡ parts.lasts) }
    ensures once { result.0 ++ result.1 ++ result.2 ≡ list }
{
    prove!(list.len() <= usize::MAX);
    let mut left = list.into_iter();
    let mut firsts = List::new();
    let mut lasts = List::new();
    for turn in turns {
        if *turn {
            move_first(&mut left, &mut firsts);
        } else {
            move_last(&mut left, &mut lasts);
        }
    }
    (firsts, left, lasts)
}

impl<'a, T: Linked<Links<T>>> CursorMut<'a, T> {
    ghost use Rattle.cordyceps_list.specs.Cursor.{elements, place, Stands};

    /// Moves the cursor to the next place `moves` times. One move more than there are elements leads back to the same
    /// place.
    ///
    /// # Complexity
    /// O(`moves`).
    pub fn go_on(&mut self, moves: usize)
        ensures moved { Stands self.old self.new (elements self.old)
            ((place self.old + moves) % (length (elements self.old) + 1)) }
        ensures round { moves ≡ length (elements self.old) + 1
            → Stands self.old self.new (elements self.old) (place self.old) }
    {
        prove!(self.place() <= self.len());
        for _ in 0..moves {
            self.move_next();
        }
    }

    /// Moves the cursor to the previous place `moves` times. This leads to the same place as `moves` times the length
    /// moves to the next place. One move more than there are elements leads back to the same place.
    ///
    /// # Complexity
    /// O(`moves`).
    pub fn go_back(&mut self, moves: usize)
        ensures moved { Stands self.old self.new (elements self.old)
            ((place self.old + moves * length (elements self.old)) % (length (elements self.old) + 1)) }
        ensures round { moves ≡ length (elements self.old) + 1
            → Stands self.old self.new (elements self.old) (place self.old) }
    {
        prove!(self.place() <= self.len());
        for _ in 0..moves {
            self.move_prev();
        }
    }
}
