//! What becomes of a piece's items, and how its head and a refusal are told.
ghost use Rattle.std.specs.Prelude.{◌≡◌};
ghost use Rattle.ds_rule.specs.Asking.{at_of, failure_of};

use ds_base::{Key, Seq, TxnNo};
use ds_cell::{ActFault, At};
use ds_kind::{Failure, Head, Replies};

/// What became of a piece's items.
#[derive(Drop)]
pub(crate) enum Tried {
    Replied(Replies),
    Failed(Failure),
}

/// Who asks under the number.
pub(crate) fn at_of(head: &Head, seq: Seq) -> At
    ensures { result ≡ at_of head.now seq.0 }
{
    At {
        stamp: head.at,
        txn: match head.txn {
            Some(txn) => txn,
            None => TxnNo(0),
        },
        seq,
        epoch: head.epoch,
    }
}

/// The failure of the request at a position, at the key where it was refused.
pub(crate) fn failure_of(i: u32, key: Key, fault: ActFault) -> Failure
    ensures { result ≡ failure_of i key fault }
{
    match fault {
        ActFault::Condition { actual } => Failure::Condition { i, actual },
        ActFault::TooOld { stamp } => Failure::TooOld { i, key, stamp },
        ActFault::NotInteger => Failure::NotInteger { i },
        ActFault::Overflow | ActFault::Memory(_) => Failure::Overflow { i },
    }
}
