//! The work that is left of a part.
use ds_cache::Token;
use ds_cut::Cutter;
use ds_kind::Piece;
use ds_lease::Order;

/// A piece with a route.
#[derive(Drop)]
pub(crate) struct Flying {
    pub piece: Piece,
    /// The replicas that are still to be tried after the node.
    pub order: Order,
    /// The node that the piece goes to next.
    pub node: u8,
    /// The entry of the cache that the route was found by.
    pub token: Token,
}

/// A part of the work that is left.
#[derive(Drop)]
pub(crate) enum Task {
    /// It has no route yet.
    Rest(Cutter),
    /// It has a route, and waits to be sent.
    Routed(Flying),
}
