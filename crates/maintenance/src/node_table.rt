//! The table from keys to nodes.
ghost use Rattle.std.specs.Prelude.{◌≡◌, [], true, Some, None, IfOk, OnOk, OnErr};
ghost use Rattle.segments.specs.Items.{items_without};
ghost use Rattle.shell_model.specs.Shell.{node_of, table_with, is_listed};
ghost use Rattle.maintenance.specs.NodeTable.{table_items};

use engine_base::{Item, Key, Node};
use std::alloc::{AllocError, Global};
use std::collections::BTreeMap;
use std::marker::Model;

/// The keys of the cache with their nodes, shown as a list of items in the order of their keys.
#[derive(Drop)]
pub(crate) struct NodeTable {
    nodes: BTreeMap<Key, Node>,
}

impl Model for NodeTable {
    ghost use Rattle.std.specs.Prelude.{List};
    ghost use Rattle.engine_base.specs.declared.item.Item.{Item as ItemValue};
    ghost use Rattle.maintenance.specs.NodeTable.{table_items};
    ghost use Rattle.shell_model.specs.Consistency.{IsAscending};

    ghost Value = { List ItemValue };

    ghost view = { λ t. table_items t.nodes.entries };

    ghost invariant = { λ t. IsAscending (table_items t.nodes.entries) };
}

impl NodeTable {
    /// An empty table; takes no memory.
    pub(crate) fn new(alloc: Global) -> NodeTable
        ensures { result ≡ [] }
    {
        NodeTable {
            nodes: BTreeMap::new(alloc),
        }
    }

    /// The node of a key.
    pub(crate) fn node_of(&self, key: Key) -> Option<Node>
        ensures { result ≡ node_of key self.now }
    {
        self.nodes.get(&key).copied()
    }

    /// Whether the table gives the item's key that very node.
    pub(crate) fn is_listed(&self, item: Item) -> bool
        ensures { result ≡ is_listed item self.now }
    {
        match self.node_of(item.key) {
            None => false,
            Some(node) => item.node == node,
        }
    }

    /// Puts in an item whose key is not there. The only error is that the allocation failed; nothing is changed then.
    pub(crate) fn place(&mut self, item: Item) -> Result<(), AllocError>
        requires { node_of item.key self.old ≡ None }
        ensures ok { OnOk result (self.new ≡ table_with item self.old) }
        ensures err { OnErr result (self.new ≡ self.old) }
    {
        let _ = self.nodes.insert(item.key, item.node)?;
        Ok(())
    }

    /// Takes out an item that is there.
    pub(crate) fn remove(&mut self, item: Item)
        requires { is_listed item self.old ≡ true }
        ensures { self.new ≡ items_without item self.old }
    {
        let _ = self.nodes.remove(&item.key);
    }

    /// A copy of the table, in the order of the keys. The only error is that the allocation failed.
    pub(crate) fn list(&self, alloc: Global) -> Result<Vec<Item>, AllocError>
        ensures { IfOk result (λ items. items.items ≡ self.now) }
    {
        items_in(alloc, &self.nodes)
    }
}

// The entries as items.
fn items_in(alloc: Global, nodes: &BTreeMap<Key, Node>) -> Result<Vec<Item>, AllocError>
    ensures { IfOk result (λ items. items.items ≡ table_items nodes.now.entries) }
{
    let mut items = Vec::with_capacity(alloc, nodes.len())?;
    for (key, node) in nodes.iter() {
        items.push(Item {
            key: *key,
            node: *node,
        })?;
    }
    Ok(items)
}
