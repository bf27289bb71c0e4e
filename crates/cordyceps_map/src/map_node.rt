//! Owned nodes of maps, which are in no map.
ghost use Rattle.std.specs.Prelude.{◌≡◌, IfOk, IfErr};

use crate::entry::Entry;
use crate::link::Link;
use cordyceps_base::node::Refused;
use cordyceps_many::hooks::Hooks;
use cordyceps_many::node::MultiNode;
use std::alloc::Global;
use std::marker::Model;

/// An owned node that is in no map: a number, a key, a value, and the hooks of as many lists as `H` says. A contract
/// sees its element: the number, and the key with the value.
///
/// It owns one block of memory, and has the size of a pointer. Dropping it frees the block.
#[derive(Drop)]
pub struct MapNode<K, V, H: Hooks> {
    pub(crate) node: MultiNode<Entry<K, V>, H>,
}

impl<K, V, H: Hooks> Model for MapNode<K, V, H> {
    ghost use Rattle.cordyceps_base.specs.Element.{Element};
    ghost use Rattle.cordyceps_map.specs.Shown.{shown_element};

    ghost Value = { Element (K × V) };

    ghost view = { λ n. shown_element n.node };
}

impl<K: Drop, V: Drop, H: Hooks> MapNode<K, V, H> {
    /// Creates a node with a number, a key and a value. The number is the caller's choice, and need not differ from
    /// others.
    ///
    /// # Errors
    /// If memory is refused, it returns `Refused` with the key and the value.
    ///
    /// # Complexity
    /// O(1), with one allocation.
    pub fn new(
        alloc: Global,
        id: u64,
        key: K,
        value: V,
    ) -> Result<MapNode<K, V, H>, Refused<(K, V)>>
        ensures made { IfOk result (λ n. n ≡ record { id = id; value = (key, value) }) }
        ensures returned { IfErr result (λ e. e.value ≡ (key, value)) }
    {
        let entry = Entry {
            key,
            value,
            next: Link::none(),
        };
        match MultiNode::new(alloc, id, entry) {
            Ok(node) => Ok(MapNode { node }),
            Err(refused) => Err(Refused {
                value: refused.value.into_pair(),
            }),
        }
    }

    /// Frees the node and returns its key and its value.
    ///
    /// # Complexity
    /// O(1).
    pub fn into_pair(self) -> (K, V)
        ensures { result ≡ self.value }
    {
        let MapNode { node } = self;
        node.into_value().into_pair()
    }
}

impl<K, V, H: Hooks> MapNode<K, V, H> {
    /// Returns the number.
    ///
    /// # Complexity
    /// O(1).
    pub fn id(&self) -> u64
        ensures { result ≡ self.now.id }
    {
        self.node.id()
    }

    /// Returns a reference to the key.
    ///
    /// # Complexity
    /// O(1).
    pub fn key(&self) -> &K
        ensures { result.now ≡ self.now.value.0 }
    {
        &self.node.get().key
    }

    /// Returns a reference to the value.
    ///
    /// # Complexity
    /// O(1).
    pub fn value(&self) -> &V
        ensures { result.now ≡ self.now.value.1 }
    {
        &self.node.get().value
    }
}

impl<K, V> Entry<K, V> {
    /// Returns the key and the value.
    fn into_pair(self) -> (K, V)
        ensures { result ≡ (self.key, self.value) }
    {
        let Entry {
            key,
            value,
            next: _,
        } = self;
        (key, value)
    }
}
