//! Reading the fields of one line of JSON, with the fault of the first thing that is wrong.
//!
//! Every reader ends in one of three ways: the field has another shape (`Bad(Shape)`), it has the
//! right shape and stands for something that its type cannot hold (`Ok(None)`), or it is read
//! (`Ok(Some(..))`). So a whole line is looked through for its shape before anything in it is
//! called out of range.
#![tactic(auto)]

mod fault;
mod lists;
mod members;
mod parts;
mod scalars;

pub use fault::{FaultKind, LineFault};
pub use lists::{Reader, list_of, nodes_of, small_list_of};
pub use members::{flag_of, has_only, json_of, member, op_of, optional_member};
pub use parts::{pair, sole, triple};
pub use scalars::{
    byte_of, int_of, key_of, small_if_there, small_of, value_of, value_or_null_of, whole_of,
};
