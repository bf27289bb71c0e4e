//! The shared queue: the words and slots of a table, and the calls of parties on them.
//!
//! ```text
//!         RIGHT                   HEAD
//!           |                       |
//!           v                       v
//! room      2 --------> 5 - - - - > 3 --------> null        in the queue, the oldest first
//! slot      a           b           c
//!
//! room      1 --------> 4 --------> 7                       the free rooms of a party
//! ```
//!
//! Room `r` has a word for its link, and slot `r`, which has the element while the room is in use. Room 0 is the stub's
//! and has no element. `HEAD` leads to the head, the room that was put in last. `RIGHT` leads to the tail, the room of
//! the oldest element or the stub; it is 0 while a party has the right to dequeue. Above a producer has swapped `HEAD`
//! from room 5 to room 3, and has yet to store the link of room 5, which is null.
//!
//! An enqueue takes three steps (`steps`), and each succeeds at once:
//!
//! 1. `begin` loads the link of the party's first free room. That begins a use of the room, in which its link is null,
//!    and says which room is free next. The element is then put into the slot.
//! 2. `swap_in` swaps `HEAD` with the room, which puts the element into the queue, and gets the room that was the head.
//! 3. `link` stores that room's link, which leads to the new one.
//!
//! A try to dequeue (`tries`, `stub_steps`) loads the tail's link (`look`). If it leads on, the tail's element comes
//! out, and the next room is the new tail. If the tail is the stub, there is no element, and the try goes on with the
//! next room. If the link is null, the try loads `HEAD`:
//!
//! - If another room is the head, a producer is between its steps 2 and 3, and the try returns `Inconsistent`.
//! - If the stub is the tail and the head, the queue was `Empty`.
//! - If the tail has an element and is the head, its room cannot leave yet, since the next producer will store its
//!   link. So the try puts the stub in behind it, by the same three steps, and loads the tail's link again. If that is
//!   still null, a producer came in before the stub, and the try returns `Inconsistent`.
//!
//! A party without the right swaps `RIGHT` with 0 before its try (`take`), and stores the tail there afterwards
//! (`give`). If it finds 0, the try returns `Busy`. A consumer keeps the right for many tries.
//!
//! The room of an element that came out follows the party's free rooms (`linking`). Its link leads to the new tail,
//! which is the next room to come out. So free rooms are already linked in the order in which they came out. A link is
//! stored (`tie`) only if another room is to follow. Rooms that no party has are in the pool (`pool`), one chain whose
//! ends and number are in a word.
//!
//! Users see `calls`, `consumer`, `owned_consumer`, `waiting` and the calls of `bell`, and `batch`, which `take_linked`
//! and `close` return.
//!
//! **Who runs beside whom.** All parties may enqueue at the same time, also while another party dequeues. An enqueue
//! and a try repeat no step, so they wait for nobody. The calls of `waiting` repeat a try. If a producer stops between
//! its steps 2 and 3, its own element and all later ones do not come out until it goes on. Nor does the element just
//! before its own, unless the stub is between the two. Older elements come out.
//!
//! **How a party sleeps.** A party that finds no element may sleep until another rings the bell (`bell`). It clears the
//! bell, tries to dequeue, and goes to sleep by an exchange of the bell's word, which fails if somebody has rung since.
//! A producer rings after its enqueue has linked the element. So if the try missed an element that is there when the
//! party goes to sleep, the producer of that element has yet to ring (`laws::sleeper_is_owed`). If a party cleared the
//! bell after its try, it could clear the ring for an element that the try missed. The word says whether a party
//! sleeps, and a ring calls the kernel only then. The load by which a ring finds the bell rung already is that ring's
//! event in the history.
//!
//! **Which step publishes what.** A slot is plain memory. Only the party whose seat (the token by which it acts) has
//! taken a slot reads or writes it, and a seat takes or returns a slot only at a step:
//!
//! - Step 1 takes the slot of the free room, and step 2 returns it with the element.
//! - The load of the tail's link, if that leads on, takes the tail's slot. Whoever stored this link had found the
//!   tail's room as the head, so the slot had been returned before.
//! - The empty slot is returned at a later step of the party, which publishes nothing: the slot is next filled by the
//!   same party, or by one that got its room.
//! - Step 3 and the store of `RIGHT` publish no element. They say where the next try goes on.
//! - Rooms pass between parties at the swap and the exchanges of the pool's word, or with a party that is absorbed.
//!
//! **How it is proved.** A party's stage is the core's (`Stage`), and what a step tells is in `plays`. Words of the
//! table have bits, which say to which use of a room a link belongs (`uses`); plain words are the words without these
//! bits. The rule of the table says that the plain words and the parties' views represent a machine of the core's
//! theory, that this machine meets the history, and which slots are at home (`PlainHolds`). So each step is proved for
//! plain words by the core's lemma on it (`ProducerSteps`, `HolderSteps`, `DequeueSteps`, `StubSteps`). The rule also
//! says that the table's words spell the plain ones (`SpellsWords`, and `uses`); `UsesKeep`, `UsesWrite` and
//! `UsesShare` show that steps keep that.
//!
//! A `receipt` is a seat without share, rooms and slots. It knows that some list is a prefix of the history, and
//! nothing else. The rule of the table never refers to it, so it may be dropped at any time. A party that learns it
//! loads `HEAD`, sees the whole history, and so knows that the list is a prefix of what it has seen (`HasHeard`).
//!
//! **Why not otherwise.**
//!
//! - No step clears a link. Instead each link has a bit that says to which use of its room it belongs (`uses`). That
//!   saves a store in each enqueue and each time that the stub is put in.
//! - The store of a link is a locked instruction. A release store would do, and in a model an enqueue took a third less
//!   with it. But each step of the table is sequentially consistent, and it has no other store.
//! - An enqueue takes one element. A chain of linked elements could go in by one swap of `HEAD` and one link, but the
//!   contract of a try excludes it. By that contract a try returns `Inconsistent` only while the element of an
//!   unfinished swap is the oldest or the second oldest. Where one swap puts three elements in, it may be the third.
//! - `close` is a loop of tries by a whole party, which are certain: every name is of its share, and none of its names
//!   is pending or has the right.
//!
//! The algorithm is Vyukov's 'Intrusive MPSC node-based queue', with rooms in place of nodes and a right to dequeue.
//! His try returns the same for an empty queue and for an element that is not linked yet; this one loads `HEAD` to
//! tell.

pub(crate) mod batch;
pub(crate) mod bell;
pub(crate) mod calls;
pub(crate) mod consumer;
pub(crate) mod linking;
pub(crate) mod owned_consumer;
pub(crate) mod parting;
pub(crate) mod plays;
pub(crate) mod pool;
pub(crate) mod receipt;
pub(crate) mod spare;
pub(crate) mod steps;
pub(crate) mod stub_steps;
pub(crate) mod table;
pub(crate) mod tries;
pub(crate) mod uses;
pub(crate) mod vault;
pub(crate) mod waiting;
