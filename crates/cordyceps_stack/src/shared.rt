//! The stack on threads: the words and slots of a table, and the calls of parties on them.
//!
//! ```text
//! words      slots
//!        +---+       +---+---+     +---+---+     +---+---+
//! HEAD   | o ------->| z | o ----->| y | o ----->| x | 0 |    in use; z was pushed last
//!        +---+       +---+---+     +---+---+     +---+---+
//!        +---+       +---+     +---+
//! POOL   | o ------->| o ----->|   |                          free, and of no party
//!        +---+       +---+     +---+
//!        +---+
//! QUIET  |   |                                                no step writes it
//!        +---+
//! party
//!        +---+       +---+     +---+     +---+
//! first  | o ------->| o ----->| o ----->|   |                free, and of this party
//!        +---+       +---+     +---+     +---+
//! last   | o ------------------------------^
//!        +---+
//! ```
//!
//! A table of `atomic_table` has words, which change by atomic steps alone, and a slot for each room, which is plain
//! memory. The slot of a room in use has an element and a link to the room below. A free room's link leads to the next
//! free room of its party, at first in a crosswise order. A `Party` owns a seat of the table, and has its first and
//! last free room and their number. Between calls every slot is at home. A seat takes slots in hand at a step, reads
//! and writes them as plain memory, and returns them at a step.
//!
//! - A push takes the slot of the first free room at a load of `HEAD` (`begin`), puts the element and a link to what it
//!   read into it (`fill`), and exchanges `HEAD` for the room, which returns the slot (`settle`). If `HEAD` is no
//!   longer what was read, an `attempt` loads it again, writes the link anew and exchanges. `try_push` empties the slot
//!   and returns it in place of that.
//! - `push_all` fills as many free rooms first, and one exchange returns all slots (`chain`).
//! - `take_all` swaps `HEAD` with 0, which takes the slots of all that was held, and walks through them (`batch`). The
//!   rooms stay linked. The last one's link then leads to the party's other free rooms, and one load returns the slots.
//! - `refill` swaps `POOL`, which has the first, the last and the number of some rooms, with 0, and links the last of
//!   them to the party's first free room. `give_back` exchanges 0 for the first rooms of the party (`put`), and
//!   `refill_at_most` for those after the ones that it keeps (`put_rest`).
//! - `split` follows the links of the first free rooms, which the new party gets. `absorb` links the last free room to
//!   the other party's first, joins the two seats, and loads `HEAD` to learn what the two had seen (`parting`).
//!
//! Each call of one party may run beside each call of any other; `close` and the drop own the stack. All steps have one
//! order, and each keeps the table's rule (`RuleHolds`): words, slots and parties meet one history, of which each party
//! has seen a prefix. Only the party that took a slot reads or writes it, so elements are published at these steps:
//!
//! step | what it does with slots
//! ---|---
//! load of `HEAD` that begins a push | takes that of the party's first free room
//! exchange of `HEAD` that succeeds | returns those that the push filled, and so publishes elements and links
//! swap of `HEAD` | takes those of all that was held
//! swap of `POOL` | takes those of the rooms that are there
//! exchange of `POOL` that succeeds | publishes free rooms and their links; their slots were returned before
//! load of `QUIET` | takes or returns those of the party's free rooms, and publishes nothing
//!
//! A slot that a load of `QUIET` returned is next filled by the same party, or by one that got its room.
//!
//! A `receipt` is a seat without share, rooms and slots. It takes no step, so no rule asks for it, and it may be
//! dropped: it only knows that some list is a prefix of the history. A party that learns it loads `HEAD`, sees the
//! whole history, and so knows that the list is a prefix of what it has seen (`HasHeard`).
//!
//! Why it is so:
//!
//! - There is no pop of one element, since it would read the link of a slot that another party may have in hand. So an
//!   exchange that finds in `HEAD` what was read is right even where `HEAD` had changed in between and came back.
//! - Links are in slots, since a link in a word would be written by an atomic step between a push's load of `HEAD` and
//!   its exchange, and give other pushes time to come between. For the same reason a push of several elements writes
//!   them before it loads `HEAD`: free rooms are linked as pushed ones have to be, so between load and exchange only
//!   the last one's link is written.
//! - Where no step on `HEAD` or `POOL` is due, slots are taken and returned at a load of a word that nobody writes,
//!   whose cache line stays in each processor's cache.
//! - A slot is an enum of free and used rooms with a link of 32 bits, enough for `MAX_ROOMS`: 16 bytes with a handle of
//!   one word. As a struct of a link and an `Option` it took 24, since each enum has a tag of its own.
//! - `TransferStack::new` takes twice its table while it runs. `atomic_table` moves the slots from a vector into a
//!   block of its own, and has no call that makes them in place. So with handles of one word it takes at most 32 bytes
//!   for each room while it runs, and keeps 16.
//! - A push pauses for long, from its second failure on. The more parties try at a time, the more tries fail, and each
//!   takes the line of `HEAD`. A single failure costs less than a pause.
//! - Neighbours in the order of a new stack's rooms are 32 rooms apart, so that a push and a taker's walk do not take
//!   one cache line from each other at each element (`crosswise` of `parting`).
//!
//! It is Treiber's stack with a taking of all elements in place of the pop of one, as `TransferStack` of the Rust crate
//! `cordyceps`, and `llist_add` and `llist_del_all` of Linux.

pub(crate) mod batch;
pub(crate) mod calls;
pub(crate) mod chain;
pub(crate) mod inbox;
pub(crate) mod parting;
pub(crate) mod plays;
pub(crate) mod pool;
pub(crate) mod push_error;
pub(crate) mod receipt;
pub(crate) mod slot;
pub(crate) mod steps;
pub(crate) mod table;
pub(crate) mod waiting;
