//! How the work of a part stands in blocks, and what may be concluded of it.
//!
//! A part's items are cut, sent, refused and cut again, in any order. What is accepted and what is
//! left stands in blocks of items. At each key one block has all the positions that the part has
//! there, and each item of a block is the part's item at its position, cut, under its own number. The
//! functions here do nothing: each has a law as its clause, for the proofs above.
#![tactic(auto)]

mod blocks;
mod chains;

pub use blocks::{
    all_in_order, covers_all, cuts_at_positions, cuts_covered, cuts_known, cuts_of_all,
    cuts_proper, drops_empty, exactly_none, keeps_left, parts_rise, rest_has_less, spans_proper,
    stay_cuts, stay_spans, stays_covered, taken_covers,
};
pub use chains::{chains_once, covered_chains, joins_the_same, once_chains, orders_the_same};
