//! The core: the algorithm as a plain value, which takes one step at a time.
//!
//! ```text
//! an enqueue   Rest --Clear--> Cleared --Swap--> Swapped --Link--> Rest
//! the right    Rest --Take--> Holding --Give--> Rest
//!
//! a try        Holding --ReadNext--> Holding, Out     the tail's link leads on
//!                                    Null             the tail's link is null
//!                                    Second           the tail is the stub, whose link leads on
//!                                    StubNull         the tail is the stub, whose link is null
//!              StubNull --ReadHead--> Holding, Empty or Inconsistent
//!              Second --ReadNext--> Holding, Out, or Null
//!              Null --ReadHead--> PutClear if the tail is the head, and else Holding, Inconsistent
//!              PutClear --Clear--> PutSwap --Swap--> PutLink --Link--> PutRead
//!              PutRead --ReadNext--> Holding, Out or Inconsistent
//! ```
//!
//! A `QueueCore` is the head, the right to dequeue, the rooms with their links and elements, of which room 0 is the
//! stub's, and the stage of each party. The picture shows the stages, the steps that each allows, and what a try
//! returns. A step reads or writes one word, so parties that take steps in any order are threads in any interleaving.
//! `shared` says how the algorithm works. There `begin` stands for `Clear`: it loads the room's link, and begins a use
//! of the room in which that is null. Here `Clear` makes the link null.
//!
//! The theory reads a machine as functions (`abstract_of`), and a history from its newest event back. `Simulation`
//! shows that the core's steps are the theory's, and `Legality` and `Blocked` that both readings of a history agree. A
//! history is stated from its oldest event, since users read conditions on every prefix. It is proved from its newest,
//! since a proof needs what was just before an event.

pub(crate) mod calls;
pub(crate) mod machine;
pub(crate) mod replay;
pub(crate) mod replay_end;
pub(crate) mod rooms;
pub(crate) mod stage;
pub(crate) mod steps;
pub(crate) mod tries;
