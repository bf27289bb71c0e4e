//! What a node of a map has: a key, a value, and the way to the next node of its bucket.
use crate::link::Link;

/// A key and a value, as a node of a `StableMap` has them.
#[derive(Drop)]
pub struct Entry<K, V> {
    pub(crate) key: K,
    pub(crate) value: V,
    pub(crate) next: Link,
}
