//! What the steps of a sender mean for each plain store that the wire's world means. Its functions do
//! nothing; their clauses are the laws.
#![tactic(auto)]

mod cover_laws;
mod laws;

pub use cover_laws::{
    blocks_all, blocks_first, blocks_in_turn, blocks_left, blocks_share, parts_all, parts_in_turn,
    parts_left, parts_pieces, pieces_accepted, turns_alike, turns_join,
};
pub use laws::{begin_means, close_means, first_means, moves_mean, send_law, unsent_law};
