//! The transaction that a client has open.
ghost use Rattle.std.specs.Prelude.{◌≡◌};

use ds_base::{Seq, Stamp, TxnNo};

/// An open transaction, as its client knows it.
#[derive(Clone, Copy, Debug, PartialEq, Eq)]
pub struct Txn {
    pub number: TxnNo,
    /// All its reads and writes are at this stamp.
    pub stamp: Stamp,
    /// How often it was restarted.
    pub epoch: u32,
    /// The last number that it gave to a request.
    pub last: Seq,
}

impl Txn {
    ghost use Rattle.ds_send.specs.declared.txn.Txn.{Txn};

    /// A transaction that has asked nothing yet.
    pub fn begin(number: TxnNo, stamp: Stamp) -> Txn
        ensures { result ≡ record { number = number; stamp = stamp; epoch = 0; last = record { 0 = 0 } } }
    {
        Txn {
            number,
            stamp,
            epoch: 0,
            last: Seq(0),
        }
    }
}
