//! One key's content, and what each kind of request does to it.
#![tactic(auto)]

mod acts;
mod body;
mod cell;
mod control;
mod entry;
mod history;
mod ranked;
mod reads;
mod request;
mod taken;
mod verdict;
mod versions;
mod writes;

pub use acts::Acts;
pub use body::{Bits, body_of};
pub use cell::Cell;
pub use entry::{At, Version, Written};
pub use request::{act_request, decide_request, laws, request_laws, unnoticed};
pub use taken::{Stamps, Taken};
pub use verdict::{ActFault, Bit, Verdict};
