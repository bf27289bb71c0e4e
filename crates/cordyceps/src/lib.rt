//! Lists, stacks and sorted lists of owned nodes, a stack and a queue that threads share, the cores of the two, and
//! commands that are replayed on tables of structures.
//!
//! A [`Node`] owns one element: a number and a value. A type says by [`Linked`] which handle represents such a node,
//! and for collections of which [`Kind`]. A [`List`], a [`Stack`] and a [`SortedList`] take handles and return them,
//! and own the nodes in between. Linking a node allocates nothing.
//!
//! A [`StableList`] returns a [`Spot`] for each element: a stable pointer, by which the element is reached, removed and
//! moved in O(1). A [`StableSortedList`] does so too, and an order keeps it sorted. A [`StableHeap`] is a priority
//! queue for many elements. A [`ClockQueue`] is one for times: it has the earliest first, and takes none that has
//! passed. A [`StableTree`] is a search tree whose longest call is O(log n). The nodes of a [`MultiList`] are in several
//! lists at once. Those of a [`StableMap`] are also found by a key.
//!
//! A [`TransferStack`] is shared by threads, without a lock: each pushes to it through a party of its own, and takes
//! all its elements at once. An [`MpscQueue`] is shared in the same way: many put elements in, and one at a time takes
//! them out, first in, first out. A [`channel::channel`] has senders and a receiver over that queue, which wait, end,
//! and say so.
//!
//! A [`stack::TransferCore`] and an [`mpsc_queue::QueueCore`] are the algorithms of the shared structures as plain
//! values, whose steps are taken in any order.
//!
//! What a clause or a proof about these collections names is here too, in modules by collection: its words in `specs`,
//! its lemmas in `proofs`.
//!
//! The module [`replay`] runs commands on tables of sixteen lists, stacks or sorted lists of [`Item`]s. A contract says
//! that each reply, and what the structures hold afterwards, are what the commands mean.
//!
//! Take it where a crate uses several collections. It has no function of its own: each name is defined, proved and
//! tested in the crate that a `pub use` below names, whose head says what is proved and what nodes and calls cost. A
//! crate that uses lists alone names `cordyceps_base` and `cordyceps_list`, and has fewer libraries to prove.
#![tactic(auto)]

pub mod channel;
pub mod clock_queue;
pub mod list;
pub mod mpsc_queue;
pub mod multi_list;
pub mod replay;
pub mod sorted_list;
pub mod sorting;
pub mod stable_heap;
pub mod stable_list;
pub mod stable_map;
pub mod stable_sorted_list;
pub mod stable_tree;
pub mod stack;
pub mod tree_map;

pub use cordyceps_base::linked::Linked;
pub use cordyceps_base::node::{Kind, Node, Refused};
pub use cordyceps_base::steps::Steps;
pub use cordyceps_clock::clock_queue::ClockQueue;
pub use cordyceps_heap::stable_heap::StableHeap;
pub use cordyceps_list::list::List;
pub use cordyceps_many::multi_list::MultiList;
pub use cordyceps_many::node::MultiNode;
pub use cordyceps_map::map_node::MapNode;
pub use cordyceps_map::stable_map::StableMap;
pub use cordyceps_queue::mpsc_queue::MpscQueue;
pub use cordyceps_stable::stable_list::{Spot, StableList};
pub use cordyceps_stable::stable_sorted_list::StableSortedList;
pub use cordyceps_stack::sorted_list::{SortedList, SortedListIter};
pub use cordyceps_stack::stack::{Stack, TransferStack};
pub use cordyceps_tree::node::TreeNode;
pub use cordyceps_tree::stable_tree::StableTree;
pub use cordyceps_tree::tree_map::TreeMap;
pub use replay::Item;
