//! A gate that looks whether the stack is empty, before each push of a worker.
ghost use Rattle.std.specs.Prelude.{◌≡◌};

use crate::compared::{made, same};
use cordyceps::TransferStack;
use cordyceps::replay::Item;
use cordyceps::stack::Party;
use replay_sharing::share::{Gate, work};
use std::sync::Mutex;
use std::sync::atomic::{AtomicU64, Ordering};
use test_support::nodes::node_of;

/// A stack, and a party of its own to look at it.
#[derive(Drop)]
struct Looker<'a> {
    stack: &'a TransferStack<Item>,
    party: Party<Item>,
    ghost own: { party.table ≡ stack.now },
}

/// A gate that looks at the stack, and adds a digit to those that it has written: 1 where nothing is held, or 2.
#[derive(Drop)]
struct Looking<'a> {
    looker: Mutex<Looker<'a>>,
    digits: AtomicU64,
}

impl Gate for Looking<'_> {
    fn pass(&self, _worker: u64, _push: u64) {
        if let Some(mut looker) = self.looker.try_lock() {
            let Looker { stack, party } = &mut *looker;
            let digit = if stack.is_empty(party) { 1 } else { 2 };
            let digits = self.digits.load(Ordering::SeqCst);
            let longer = digits.wrapping_mul(10).wrapping_add(digit);
            self.digits.store(longer, Ordering::SeqCst);
        }
    }
}

#[test]
fn a_worker_passes_before_each_push(rt: HostRuntime) {
    let item = Item { value: 7, id: 8 };
    let first = made(&rt, node_of(rt.alloc(), 8, item));
    let second = made(&rt, node_of(rt.alloc(), 8, item));
    let Ok((stack, mut party)) = TransferStack::new(rt.alloc(), 2) else {
        panic!(rt; "no memory for a stack");
    };
    let worker = stack.split(&mut party, 2);
    let looker = Looker {
        stack: &stack,
        party,
    };
    let gate = Looking {
        looker: Mutex::new(looker),
        digits: AtomicU64::new(0),
    };
    let _worker = work(&rt, &gate, 0, &stack, worker, (first, second));
    // nothing was held before the first push, and something before the second
    same(&rt, gate.digits.load(Ordering::SeqCst), 12);
}
