//! The ends of transactions in a piece.
ghost use Rattle.std.specs.Prelude.{◌≡◌, if◌then◌else◌};
ghost use Rattle.ds_rule.specs.declared.record.RecordStatus.TheVariants.{Committed, Aborted};
ghost use Rattle.ds_rule.specs.Endings.{ended, all_ended};
ghost use Rattle.ds_rule.specs.Records.{record_of, with_record};
ghost use Rattle.ds_serve.specs.Ends.{is_pending, commits_in, commits, first_end, reopened};

use ds_base::TxnNo;
use ds_kind::{Head, Item, Reply, Request};
use ds_rule::{RecordStatus, Records};

// Whether the transaction has a record that is pending.
fn is_pending(records: &Records, txn: TxnNo) -> bool
    ensures { result ≡ is_pending (record_of txn.0 records.now) }
{
    match records.find(txn) {
        Some(record) => match record.status {
            RecordStatus::Pending => true,
            RecordStatus::Committed | RecordStatus::Aborted | RecordStatus::Staging(_) => false,
        },
        None => false,
    }
}

// How an end leaves a pending record.
fn status_of(commit: bool) -> RecordStatus
    ensures { result ≡ (if commit then Committed else Aborted) }
{
    if commit {
        RecordStatus::Committed
    } else {
        RecordStatus::Aborted
    }
}

// Ends the transaction's record if it is pending, and tells by its number that it was.
#[tactic(auto, using(crate::proofs::Endings::not_pending, crate::proofs::Endings::pending_ended, crate::proofs::Endings::pending_back))]
fn end_record(records: &mut Records, txn: TxnNo, commit: bool) -> Option<TxnNo>
    ensures ended { records.new ≡ with_record txn.0 (ended commit) records.old }
    ensures back { reopened result records.new ≡ records.old }
{
    if !is_pending(records, txn) {
        return None;
    }
    records.set_status(txn, status_of(commit));
    Some(txn)
}

// Whether the request is an end that commits; `None` where it is no end.
fn commits_in(request: &Request) -> Option<bool>
    ensures { result ≡ commits_in request.now }
{
    match request {
        Request::EndTxn(args) => Some(args.commit),
        Request::Get(_)
        | Request::Scan(_)
        | Request::ReverseScan(_)
        | Request::Put(_)
        | Request::ConditionalPut(_)
        | Request::InitPut(_)
        | Request::Increment(_)
        | Request::Delete(_)
        | Request::DeleteRange(_)
        | Request::QueryIntent(_)
        | Request::ResolveIntent(_)
        | Request::ResolveIntentRange(_)
        | Request::AdminSplit(_)
        | Request::AdminTransferLease(_) => None,
    }
}

// Whether the item is an end that commits; `None` where it is no end that was asked.
fn commits(item: &Item, reply: &Reply) -> Option<bool>
    ensures { result ≡ commits reply.now.resume item.now.request }
{
    match reply.resume {
        Some(_) => None,
        None => commits_in(&item.request),
    }
}

// Whether the first end among the items commits.
fn first_end(items: &[Item], replies: &[Reply]) -> Option<bool>
    ensures { result ≡ first_end items.now replies.now }
{
    let count = items.len().min(replies.len());
    'ends: for i in 0..count {
        if let Some(commit) = commits(&items[i], &replies[i]) {
            return Some(commit);
        }
    }
    None
}

/// Ends the record of the piece's transaction where its items do, and tells by the transaction's number
/// that it was pending before. An item ends nothing whose reply leaves a resume span, since it is still
/// to be asked. It takes no memory.
#[tactic(auto, using(crate::proofs::Endings::all_unended, crate::proofs::Endings::all_first))]
pub fn end_all(
    records: &mut Records,
    head: &Head,
    items: &[Item],
    replies: &[Reply],
) -> Option<TxnNo>
    ensures made { records.new ≡ all_ended head.now items.now replies.now records.old }
    ensures back { reopened result records.new ≡ records.old }
{
    match head.txn {
        Some(txn) => match first_end(items, replies) {
            Some(commit) => end_record(records, txn, commit),
            None => None,
        },
        None => None,
    }
}

/// Makes a record pending that was so before, where one is named. It takes no memory.
pub fn reopen(records: &mut Records, ended: Option<TxnNo>)
    ensures { records.new ≡ reopened ended records.old }
{
    match ended {
        Some(txn) => records.set_status(txn, RecordStatus::Pending),
        None => {}
    }
}
