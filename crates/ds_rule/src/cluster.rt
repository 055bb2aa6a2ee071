//! The cluster that a script begins with.
use ds_base::{Key, ListOf};
use ds_desc::Nodes;

/// A range of the cluster as it begins.
#[derive(Drop)]
pub struct ClusterRange {
    pub start: Key,
    pub nodes: Nodes,
    /// The node that has the lease.
    pub lease: u8,
}

/// The ranges of a cluster by rising start; each ends where the next one starts.
pub type ClusterRanges = ListOf<ClusterRange>;

/// The nodes are numbered from 1 to `nodes`.
#[derive(Drop)]
pub struct Cluster {
    pub nodes: u8,
    pub ranges: ClusterRanges,
}
