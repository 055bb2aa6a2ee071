//! The nodes that hold a range.
ghost use Rattle.std.specs.Prelude.{◌≡◌, ◌==◌, ◌≤◌, length, IfOk};
ghost use Rattle.std.specs.Option.{option_copied};
ghost use Rattle.std.specs.List.{list_any, slice_get};
ghost use Rattle.ds_desc.specs.Replicas.{AreReplicas};

use ds_base::Copies;
use smallvec::SmallVec;
use std::alloc::{AllocError, Global};
use std::marker::Model;

/// One to seven nodes, none twice, kept inline. A contract sees the list.
#[derive(Drop)]
pub struct Nodes {
    items: SmallVec<u8, 7>,
}

impl Model for Nodes {
    ghost use Rattle.std.specs.Prelude.{ℕ, List};
    ghost use Rattle.ds_desc.specs.Replicas.{AreReplicas};

    ghost Value = { List ℕ };

    ghost view = { λ n. n.items.items };

    ghost invariant = { λ n. AreReplicas n.items.items };
}

impl Nodes {
    /// These nodes, in this order. It takes no memory.
    pub fn of(alloc: Global, nodes: &[u8]) -> Nodes
        requires { AreReplicas nodes.now }
        ensures { result ≡ nodes.now }
    {
        let items = match SmallVec::from_slice(alloc, nodes) {
            Ok(items) => items,
            Err(_) => unreachable!(),
        };
        Nodes { items }
    }

    /// How many nodes there are, from one to seven.
    pub fn len(&self) -> usize
        ensures count { result ≡ length self.now }
        ensures replicas { AreReplicas self.now }
    {
        self.items.len()
    }

    /// The node at a place, counted from 0; `None` exactly where the place is at least the length.
    pub fn get(&self, i: usize) -> Option<&u8>
        ensures { option_copied result ≡ slice_get self.now i }
    {
        self.items.as_slice().get(i)
    }

    /// The nodes, to go over.
    pub fn as_slice(&self) -> &[u8]
        ensures { result.now ≡ self.now }
    {
        self.items.as_slice()
    }

    /// Whether the node is one of these.
    pub fn contains(&self, node: u8) -> bool
        ensures { result ≡ list_any (λ n. n == node) self.now }
    {
        self.items.as_slice().iter().any(|n| *n == node)
    }
}

impl Copies for Nodes {
    fn copy(&self, alloc: Global) -> Result<Nodes, AllocError> {
        Ok(Nodes {
            items: SmallVec::from_slice(alloc, self.items.as_slice())?,
        })
    }
}
