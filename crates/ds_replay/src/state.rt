//! How far a replay has come.
use ds_coord::Txn;
use ds_sim::Sim;

/// How far a replay has come: nothing yet, or a cluster, with the transaction that is open, if one
/// is, and how many transactions have begun.
#[derive(Drop)]
pub(crate) enum State {
    Start,
    Running {
        sim: Sim,
        txn: Option<Txn>,
        begun: u32,
    },
}
