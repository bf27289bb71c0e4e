//! Maps whose nodes keep their places in memory, and are in lists at the same time.
//!
//! Take a `StableMap` where an element is found by a key and is also in an order: a cache that evicts by use, or tasks
//! by number and by deadline. Without a key take a `MultiList` of `cordyceps_many`, whose calls on lists the map has
//! too.
//!
//! The module `stable_map` has the map, `chains` the buckets, `links` the lists, and `seeded` a hasher with two keys of
//! the caller's. A map hashes by std's `Hash` and `BuildHasher`, whose laws are part of these traits: equal keys hash
//! alike.
//!
//! Proved: that a lookup finds what it would find in the sequence of pairs; that no two nodes have equal keys; what a
//! call makes of the lists, and which spots are valid after it. Only tested: that a drop leaves no node, and that no
//! call allocates but `MapNode::new`, `with_capacity` and `rehash`. How evenly hashes spread over buckets is neither
//! proved nor tested.
//!
//! A node of one list takes 40 bytes, its key and its value, with padding, and with more lists as much more as a
//! `MultiNode`. A bucket takes 8 bytes. A call by a key is O(1) if hashes are spread over as many buckets as there are
//! nodes, and O(n) at the worst; `insert` and `remove` take O(1) more for each list. Calls by a spot are as those of a
//! `MultiList`, but for `remove_at`, which also walks through the bucket.
#![tactic(auto)]

mod chains;
pub mod entry;
mod in_order;
mod link;
mod links;
pub mod map_node;
pub mod seeded;
pub mod stable_map;
