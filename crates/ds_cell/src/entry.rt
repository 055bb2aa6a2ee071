//! Versions and writes of one key, and who asks.
use ds_base::{Copies, Seq, Stamp, TxnNo, Value};
use std::alloc::{AllocError, Global};

/// Who asks: the stamp at which to read, the transaction with its epoch, and the request's number.
#[derive(Clone, Copy, Debug, PartialEq, Eq)]
pub struct At {
    pub stamp: Stamp,
    /// 0 for a batch without a transaction.
    pub txn: TxnNo,
    pub seq: Seq,
    /// How often the transaction was restarted.
    pub epoch: u32,
}

/// A committed value at a stamp, or a deletion.
#[derive(Clone, Debug, Drop)]
pub struct Version {
    pub stamp: Stamp,
    pub value: Option<Value>,
}

/// A transaction's write under its number: a value, or a deletion.
#[derive(Clone, Debug, Drop)]
pub struct Written {
    pub seq: Seq,
    pub value: Option<Value>,
}

impl Copies for Version {
    fn copy(&self, _alloc: Global) -> Result<Version, AllocError> {
        self.clone()
    }
}

impl Copies for Written {
    fn copy(&self, _alloc: Global) -> Result<Written, AllocError> {
        self.clone()
    }
}
