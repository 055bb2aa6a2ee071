//! A descriptor with what it came after.
ghost use Rattle.std.specs.Prelude.{◌≡◌, IfOk};

use ds_base::Copies;
use ds_desc::RangeDesc;
use std::alloc::{AllocError, Global};

/// The places of the descriptors that a new one took keys over from.
#[derive(Drop)]
pub(crate) enum After {
    /// It is one of the first.
    Nothing,
    /// It was split off from this one, or is this one moved.
    One(usize),
    /// It was merged of both: below the start of the right one its keys were in the left one.
    Two { left: usize, right: usize },
}

#[derive(Drop)]
pub(crate) struct Node {
    pub desc: RangeDesc,
    pub after: After,
}

impl After {
    fn same(&self) -> After
        ensures { result ≡ self.now }
    {
        match self {
            After::Nothing => After::Nothing,
            After::One(place) => After::One(*place),
            After::Two { left, right } => After::Two {
                left: *left,
                right: *right,
            },
        }
    }
}

impl Copies for Node {
    fn copy(&self, alloc: Global) -> Result<Node, AllocError> {
        Ok(Node {
            desc: self.desc.copy(alloc)?,
            after: self.after.same(),
        })
    }
}

pub(crate) fn copy_nodes(alloc: Global, nodes: &[Node]) -> Result<Vec<Node>, AllocError>
    ensures { IfOk result (λ made. made.items ≡ nodes.now) }
{
    let mut made = Vec::with_capacity(alloc, nodes.len())?;
    'each: for node in nodes {
        made.push(node.copy(alloc)?)?;
    }
    Ok(made)
}
