//! Changes of a node in place: its value is changed, or it is separated from the others and stays at its address.
ghost use Rattle.std.specs.Prelude.{◌≡◌, ◌+◌, ◌^◌, ◌<◌, [], ◌∷◌, ◌++◌, length};
ghost use Rattle.std.specs.Fn.{FnOnceReturnsAtMut};
ghost use Rattle.cordyceps_base.specs.BySpot.{HasSpot, HoldsAt, IsTaken};
ghost use Rattle.cordyceps_base.specs.Element.{Element};
ghost use Rattle.cordyceps_base.specs.Nodes.{Nodes};

use cordyceps_base::boxes::Address;
use cordyceps_base::double_chain::DoubleChain;

/// Calls a function on the value at an address, which it may change, and returns its result.
pub(crate) fn change_at<T, R, F: FnOnce(&mut T) -> R>(
    chain: &mut DoubleChain<T>,
    at: Address,
    change: F,
) -> R
    requires there { HasSpot chain.old at.ptr }
    requires callable { (lent : _) → HoldsAt chain.old at.ptr lent.now → F.pre change lent }
    ensures { (before : Nodes T) × (e : Element T) × (w : T) × (after : Nodes T)
        × (chain.old ≡ before ++ (at.ptr, e) ∷ after)
        × (chain.new ≡ before ++ (at.ptr, record { id = e.id; value = w }) ∷ after)
        × FnOnceReturnsAtMut F.FnOnce change e.value result w }
{
    change(chain.get_at_mut(at))
}

/// Separates the node at `at` from the others, and returns these and that. Each stays at its address.
pub(crate) fn part_at<T>(chain: DoubleChain<T>, at: Address) -> (DoubleChain<T>, DoubleChain<T>)
    requires { HasSpot chain at.ptr }
    ensures parts { (e : Element T) × IsTaken chain at.ptr e result.0 × (result.1 ≡ (at.ptr, e) ∷ []) }
    ensures fits { length result.0 + 1 < 2 ^ 64 }
{
    let mut nodes = chain;
    nodes.move_back(at);
    let last = nodes.len() - 1;
    if last == 0 {
        return (DoubleChain::empty(), nodes);
    }
    nodes.cut(at, last)
}
