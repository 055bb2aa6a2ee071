//! Scripts: a cluster, what happens in it, and the batches that are sent.
//!
//! A script is read line by line. [`read_line`] reads one line and tells the faults `Json`, `Shape`
//! and `Range`; [`read_script`] reads a whole script and tells the others too.
#![tactic(auto)]

mod accepted;
mod fault;
mod form;
mod limits;
mod line;
mod read;
mod rules;
mod script;
mod split;
mod state;

pub use accepted::{Script, Settings};
pub use ds_fields::{FaultKind, LineFault};
pub use fault::ScriptFault;
pub use line::{Line, Lines, Numbered};
pub use read::read_line;
pub use script::read_script;
