//! What a node has for one list, and what is known of that list.
ghost use Rattle.std.specs.Prelude.{◌≡◌};
ghost use Rattle.cordyceps_many.specs.Threads.{no_ends};

use cordyceps_base::boxes::Address;

/// What a node has for one list: the addresses of its neighbours, and whether it is in the list.
#[derive(Clone, Copy)]
pub struct Hook {
    pub(crate) next: Address,
    pub(crate) prev: Address,
    pub(crate) linked: bool,
}

/// The ends of one list, and its length.
#[derive(Clone, Copy)]
pub struct Ends {
    pub(crate) first: Address,
    pub(crate) last: Address,
    pub(crate) len: usize,
}

impl Ends {
    /// Returns the ends of a list with no node.
    pub(crate) fn none() -> Ends
        ensures { result ≡ no_ends }
    {
        Ends {
            first: Address::null(),
            last: Address::null(),
            len: 0,
        }
    }
}
