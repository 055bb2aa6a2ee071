//! What a part asks, and what came for it.
use ds_base::Key;
use ds_kind::{Body, Reply};

/// What came for a request: the answer of one piece's item.
#[derive(Drop)]
pub struct Arrival {
    /// The position of the request in its batch.
    pub pos: u32,
    /// Where the item's span starts.
    pub start: Key,
    pub reply: Reply,
}

/// What is wanted of a request.
#[derive(Drop)]
pub struct Wanted {
    /// The position of the request in its batch.
    pub pos: u32,
    /// Whether its kind goes over its span from the end to the start.
    pub down: bool,
    /// What it is answered where nothing comes.
    pub empty: Body,
}
