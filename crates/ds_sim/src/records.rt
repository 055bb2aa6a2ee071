//! The records of transactions, and how the last one ends.
ghost use Rattle.std.specs.Prelude.{◌≡◌, OnOk};
ghost use Rattle.std.specs.Option.{option_map};
ghost use Rattle.ds_cell.specs.Seen.{last_of};
ghost use Rattle.ds_rule.specs.Close.{status_of_last, commit_of, settle_by, said_status};
ghost use Rattle.ds_rule.specs.Moves.{aborted, with_last};
ghost use Rattle.ds_ranges.specs.Layout.{layout};

use ds_base::{Stamp, TxnNo};
use ds_kind::TxnStatus;
use ds_ranges::Ranges;
use ds_rule::{RecordStatus, Records, TxnRecord};
use std::alloc::{AllocError, Global};

/// What a transaction that is closed now ends with.
fn said_status(status: &RecordStatus) -> TxnStatus
    ensures { result ≡ said_status status.now }
{
    match status {
        RecordStatus::Committed => TxnStatus::Committed,
        RecordStatus::Pending | RecordStatus::Aborted | RecordStatus::Staging(_) => {
            TxnStatus::Aborted
        }
    }
}

/// The status that the open transaction, whose record is the last, ends with.
pub(crate) fn last_status(records: &Records) -> TxnStatus
    ensures { result ≡ status_of_last (last_of records.now) }
{
    match records.last() {
        Some(last) => said_status(&last.status),
        None => TxnStatus::Aborted,
    }
}

/// The stamp at which the writes of a record become versions, if they do.
fn commit_of(last: &TxnRecord) -> Option<Stamp>
    ensures { result ≡ commit_of last.now.status last.now.stamp }
{
    match last.status {
        RecordStatus::Committed => Some(last.stamp),
        RecordStatus::Pending | RecordStatus::Aborted | RecordStatus::Staging(_) => None,
    }
}

/// The open transaction, and the stamp at which its writes become versions, if they do.
fn to_settle(records: &Records) -> Option<(TxnNo, Option<Stamp>)>
    ensures { result ≡ option_map (λ t. (t.txn, commit_of t.status t.stamp)) (last_of records.now) }
{
    match records.last() {
        Some(last) => Some((last.txn, commit_of(last))),
        None => None,
    }
}

/// Settles every intent of the open transaction. After want of memory some may be settled, so that settling
/// again settles the rest.
pub(crate) fn settle_last(
    alloc: Global,
    ranges: &mut Ranges,
    records: &Records,
) -> Result<(), AllocError>
    ensures ok { OnOk result (ranges.new ≡ layout (settle_by (last_of records.now) (ranges.old).ranges) (ranges.old).descs) }
    ensures again { settle_by (last_of records.now) (ranges.new).ranges ≡ settle_by (last_of records.now) (ranges.old).ranges }
    ensures descs { (ranges.new).descs ≡ (ranges.old).descs }
{
    match to_settle(records) {
        Some((txn, commit)) => ranges.settle(alloc, txn, commit),
        None => Ok(()),
    }
}

/// Ends the last record: one that is not committed becomes aborted.
#[tactic(auto, using(crate::proofs::Closing::ends_committed, crate::proofs::Closing::ends_aborted, crate::proofs::Closing::ends_unknown, crate::proofs::Closing::ends_staging))]
pub(crate) fn end_last(records: &mut Records)
    ensures { records.new ≡ with_last aborted records.old }
{
    match last_status(records) {
        TxnStatus::Committed => {}
        TxnStatus::Aborted | TxnStatus::Unknown | TxnStatus::Staging => {
            records.set_last_status(RecordStatus::Aborted);
        }
    }
}
