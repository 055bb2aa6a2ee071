//! The world of a cluster, what may happen in it, and the journal of what a sender did.
#![tactic(auto)]

mod answer;
mod cluster;
mod event;
mod journal;
mod record;
mod wire;

pub use answer::{Answer, Outcome};
pub use cluster::{Cluster, ClusterRange, ClusterRanges};
pub use ds_kind::Failure;
pub use event::{Block, Event, Events, Picks, Timed};
pub use journal::{Entry, JournalStep, JournalSteps, RunLog};
pub use record::{RecordStatus, Records, TxnRecord};
pub use wire::Wire;
