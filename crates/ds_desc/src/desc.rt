//! Descriptors and leases of ranges.
ghost use Rattle.std.specs.Prelude.{◌≡◌};
ghost use Rattle.ds_desc.specs.Contains.{contains};

use crate::nodes::Nodes;
use ds_base::{Copies, Dir, Key, ListOf, Span};
use std::alloc::{AllocError, Global};

/// Which keys a range holds, and where it lies.
#[derive(Drop)]
pub struct RangeDesc {
    pub id: u32,
    pub span: Span,
    /// The nodes that hold a replica.
    pub nodes: Nodes,
    /// Of two descriptors that overlap, the one with the greater generation is newer.
    pub generation: u32,
}

/// Which node answers for a range.
#[derive(Clone, Copy, Debug, PartialEq, Eq)]
pub struct Lease {
    pub node: u8,
    /// It rises with each lease of the range.
    pub number: u32,
}

/// A descriptor with its lease.
#[derive(Drop)]
pub struct Info {
    pub desc: RangeDesc,
    pub lease: Lease,
}

/// Descriptors with their leases, in the order in which they were given.
pub type Infos = ListOf<Info>;

impl RangeDesc {
    /// Whether the range contains the key in this direction: forward from its start up to, and not
    /// at, its end; in reverse above its start up to and at its end.
    pub fn contains(&self, key: &Key, dir: Dir) -> bool
        ensures { result ≡ contains dir key.now self.now.span }
    {
        match dir {
            Dir::Forward => self.span.contains(key),
            Dir::Reverse => self.span.start < *key && *key <= self.span.end,
        }
    }
}

impl Copies for RangeDesc {
    fn copy(&self, alloc: Global) -> Result<RangeDesc, AllocError> {
        Ok(RangeDesc {
            id: self.id,
            span: self.span.copy(alloc)?,
            nodes: self.nodes.copy(alloc)?,
            generation: self.generation,
        })
    }
}

impl Copies for Info {
    fn copy(&self, alloc: Global) -> Result<Info, AllocError> {
        Ok(Info {
            desc: self.desc.copy(alloc)?,
            lease: self.lease,
        })
    }
}
