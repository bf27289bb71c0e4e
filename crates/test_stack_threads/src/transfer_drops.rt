//! Drops of a shared stack, its party, and what was taken from it.
ghost use Rattle.std.specs.Prelude.{◌≡◌};
ghost use Rattle.cordyceps_shared.specs.Shares.{whole};

use crate::items::{Handle, dropped, no_drops};
use crate::seats::three_held;
use cordyceps_stack::stack::{Party, Stack, TransferStack};
use std::alloc::Global;
use std::process::Abort;
use test_support::counted::Counted;

/// Where the three elements of a stack are.
#[derive(Clone, Copy)]
enum Place {
    Held,
    Taken,
    /// One was popped from what was taken.
    HalfPopped,
    /// A close returned them.
    Closed,
}

/// What can be dropped alone.
#[derive(Clone, Copy)]
enum Part {
    Stack,
    Party,
    Taken,
    Popped,
}

/// A stack, its party, and what was taken from it.
#[derive(Drop)]
struct Parts {
    stack: Option<TransferStack<Counted>>,
    party: Option<Party<Counted>>,
    taken: Stack<Counted>,
    popped: Option<Handle>,
}

impl Parts {
    /// Puts the elements of a stack into this place.
    fn with(stack: TransferStack<Counted>, mut party: Party<Counted>, place: Place) -> Parts
        requires { (party.table ≡ stack) × (party.share ≡ whole) }
    {
        let mut taken = Stack::new();
        let mut popped = None;
        if let Place::Closed = place {
            return Parts {
                stack: None,
                party: None,
                taken: stack.close(party),
                popped,
            };
        }
        if let Place::Taken | Place::HalfPopped = place {
            taken = stack.take_all(&mut party);
        }
        if let Place::HalfPopped = place {
            popped = taken.pop();
        }
        Parts {
            stack: Some(stack),
            party: Some(party),
            taken,
            popped,
        }
    }

    /// Drops a part.
    fn lose(&mut self, part: Part) {
        match part {
            Part::Stack => self.stack = None,
            Part::Party => self.party = None,
            Part::Taken => self.taken = Stack::new(),
            Part::Popped => self.popped = None,
        }
    }
}

/// Drops these parts, one after the other, and asserts how many elements have been dropped after each.
fn drops_in_order(rt: &impl Abort, alloc: Global, place: Place, parts: &[(Part, u64)]) {
    let drops = no_drops(rt, alloc);
    let (stack, party) = three_held(rt, alloc, &drops);
    let mut left = Parts::with(stack, party, place);
    dropped(rt, &drops, 0);
    for (part, wanted) in parts {
        left.lose(*part);
        dropped(rt, &drops, *wanted);
    }
}

#[test]
fn each_element_is_dropped_once(rt: HostRuntime) {
    let orders: [(Place, &[(Part, u64)]); 5] = [
        (Place::Held, &[(Part::Stack, 3), (Part::Party, 3)]),
        (Place::Held, &[(Part::Party, 0), (Part::Stack, 3)]),
        (Place::Taken, &[(Part::Taken, 3), (Part::Stack, 3)]),
        (
            Place::HalfPopped,
            &[(Part::Popped, 1), (Part::Taken, 3), (Part::Stack, 3)],
        ),
        (Place::Closed, &[(Part::Taken, 3)]),
    ];
    for (place, parts) in orders {
        drops_in_order(&rt, rt.alloc(), place, parts);
    }
}
