//! A change of an element in place.
ghost use Rattle.std.specs.Prelude.{◌≡◌, [], ◌∷◌, length, slice_get, Some};
ghost use Rattle.std.specs.Fn.{FnOnceReturnsAtMut};
ghost use denote.RawPtr.{Ptr};
ghost use Rattle.cordyceps_base.specs.Element.{Element, values};
ghost use Rattle.cordyceps_base.specs.Nodes.{elements};

use cordyceps_base::double_lines::Line;

/// Calls a function on the value of the only node of a line, which it may change, and returns its result.
pub(crate) fn change_only<T, R, F: FnOnce(&mut T) -> R>(line: &mut Line<T>, change: F) -> R
    requires one { length line.old ≡ 1 }
    requires callable { (lent : _) → slice_get (values (elements line.old)) 0 ≡ Some lent.now → F.pre change lent }
    ensures { (address : Ptr) × (e : Element T) × (w : T) × (line.old ≡ (address, e) ∷ [])
        × (line.new ≡ (address, record { id = e.id; value = w }) ∷ [])
        × FnOnceReturnsAtMut F.FnOnce change e.value result w }
{
    change(line.front_mut())
}
