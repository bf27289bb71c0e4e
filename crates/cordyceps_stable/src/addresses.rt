//! Spots as the addresses of nodes, for crates that make collections with spots.
ghost use Rattle.std.specs.Prelude.{◌≡◌};

use crate::stable_list::Spot;
use cordyceps_base::boxes::Address;

/// Returns the spot of the node at an address.
///
/// # Complexity
/// O(1).
pub fn spot_at(address: Address) -> Spot
    ensures { result ≡ address.ptr }
{
    Spot { address }
}

/// Returns the address of the node at a spot.
///
/// # Complexity
/// O(1).
pub fn address_of(spot: Spot) -> Address
    ensures { result.ptr ≡ spot }
{
    spot.address
}
