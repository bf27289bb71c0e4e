//! The way to a node in one word.
//!
//! A bucket and a node have such links. The spot of a node may be compared with null, as `lists_agree` of a `MultiList`
//! states, so null stands for none, and a contract sees an `Option`.
ghost use Rattle.std.specs.Prelude.{◌≡◌, None, Some};
ghost use Rattle.cordyceps_base.specs.Spots.{IsNullComparable};

use cordyceps_base::boxes::Address;
use cordyceps_stable::addresses::{address_of, spot_at};
use cordyceps_stable::stable_list::Spot;
use std::marker::Model;

/// The spot of a node, or none. A contract sees an `Option` of the spot.
///
/// It has the size of a pointer, where an `Option<Spot>` has that of two: no node is at null, which stands for none.
#[derive(Clone, Copy)]
pub(crate) struct Link {
    address: Address,
}

impl Model for Link {
    ghost use Rattle.std.specs.Prelude.{Option};
    ghost use Rattle.std.proofs.Common.{ap};
    ghost use denote.RawPtr.{Ptr, Testable};
    ghost use Rattle.cordyceps_map.specs.Nullable.{spot_of, pointer_of, pointer_back};

    ghost Value = { Option Ptr };

    ghost view = { λ l. spot_of l.address.ptr };

    ghost invariant = { λ l. Testable l.address.ptr };

    ghost inverse = { λ o. record { address = record { ptr = pointer_of o } } };

    ghost inverse_ok = { λ l _. ap (λ p. record { address = record { ptr = p } }) (pointer_back l.address.ptr) };
}

impl Link {
    /// Returns the link that leads to no node.
    pub(crate) fn none() -> Link
        ensures { result ≡ None }
    {
        Link {
            address: Address::null(),
        }
    }

    /// Returns the link to a node.
    pub(crate) fn to(spot: Spot) -> Link
        requires { IsNullComparable spot }
        ensures { result ≡ Some spot }
    {
        Link {
            address: address_of(spot),
        }
    }

    /// Returns the spot of the node that it leads to, or `None` if it leads to none.
    pub(crate) fn spot(self) -> Option<Spot>
        ensures { result ≡ self }
    {
        if self.address.is_not_null() {
            Some(spot_at(self.address))
        } else {
            None
        }
    }
}
