//! Laws of transfer stacks. Each is a function whose contract is the law. One about all histories has an empty body,
//! and one about calls has these calls as its body.
ghost use Rattle.std.specs.Prelude.{◌≡◌, List, [], map};
ghost use Rattle.cordyceps_stack.specs.Laws.{CallsBalance, NoRoomIsLost, EmptyMeansGone, ToldFinds};
ghost use Rattle.cordyceps_stack.specs.Shared.Calls.{Takes};
ghost use Rattle.cordyceps_stack.specs.Shared.Receipts.{TellsOfMore, AllTaken, OthersTook};

use crate::shared::calls::{Party, TransferStack};
use crate::shared::receipt::Receipt;
use cordyceps_base::linked::Linked;
use cordyceps_base::stack::Links;
use cordyceps_single::stack::Stack;

/// States how the rooms of a party add up over its calls: each element that it pushes takes a room, each that it takes
/// gives one, and the others come from the pool or go there. So by the calls of a whole party no room is lost.
///
/// # Complexity
/// O(1): it does nothing.
pub fn rooms_balance<E>()
    ensures calls { CallsBalance E }
    ensures none_lost { NoRoomIsLost E }
{}

/// States what a party finds that knows of elements, because it has seen them pushed or has learned a receipt. It finds
/// nothing, or takes all, only if all that had been pushed by what it knew has then been taken. And where a party that
/// learned of more pushed elements than it has seen taken finds nothing, other parties took some meanwhile.
///
/// # Complexity
/// O(1): it does nothing.
pub fn told_finds<E>()
    ensures gone { EmptyMeansGone E }
    ensures told { ToldFinds E }
{}

/// Learns a receipt, and takes all elements. All that was pushed by what the receipt tells has then been taken. If the
/// receipt tells of more pushed elements than had been taken by what the party had seen, some come out, unless other
/// parties took some meanwhile.
///
/// # Complexity
/// That of `take_all`.
pub fn take_told<T: Linked<Links<T>>>(
    stack: &TransferStack<T>,
    party: &mut Party<T>,
    receipt: Receipt<T>,
) -> Stack<T>
    requires { (party.old.table ≡ stack.now) × (receipt.table ≡ stack.now) }
    ensures takes { (batch : List T.Handle) × (result ≡ map T.element batch) × Takes batch party.old party.new }
    ensures gone { AllTaken receipt.told party.new }
    ensures others { result ≡ [] → TellsOfMore receipt.told party.old → OthersTook party.old party.new }
{
    stack.learn(party, receipt);
    stack.take_all(party)
}
