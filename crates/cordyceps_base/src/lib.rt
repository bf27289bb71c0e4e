//! Owned nodes, the handles that represent them, and the chains that link them.
//!
//! A node is a block of memory of its own, with the links of any collection, so that linking allocates nothing. A
//! contract sees the elements of a node, a handle or a collection. An element is a number, which the maker of the node
//! chose, and a value.
//!
//! Take it for `Node`, `Linked` and the kinds of nodes, or to build a collection of your own. Its layers are `boxes`,
//! which owns blocks and reaches them by their addresses; `single_chain`, `double_chain` and `double_lines`, safe code
//! that links blocks; and `node` and `linked`, which users of a collection meet.
//!
//! Proved: that each chain is the sequence of nodes that its contracts state; that no node is reached after it was
//! freed, freed twice, or freed where its memory is lent; that a node can be sent to a thread if its value can. Only
//! tested: that a drop leaves no node, and that `Home::boxed`, by which `Node::new` makes a node, is the only call that
//! allocates.
//!
//! A node takes 32 bytes and its value, in whole words: two links, the number, and a word that says whose memory it is.
//! Calls of chains and of tables of lines are O(1), except walks and drops, and except `Lines::take_at`, which reads up
//! to one node of each line if it takes out the first node of one.
#![tactic(auto)]

pub mod boxes;
pub mod double_chain;
pub mod double_lines;
mod double_row;
pub mod linked;
pub mod list;
pub mod mpsc_queue;
pub mod node;
pub mod shared;
pub mod single_chain;
pub mod stack;
pub mod steps;
