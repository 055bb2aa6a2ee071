//! What a request resolves by the records of transactions, and where intents can stand.
ghost use Rattle.std.specs.Prelude.{◌≡◌, ◌++◌, ◌∷◌, [], OnOk, IfOk};
ghost use Rattle.std.specs.Option.{option_map};
ghost use Rattle.ds_base.specs.Ordered.{between};
ghost use Rattle.ds_kind.specs.Request.{span_of};
ghost use Rattle.ds_cell.specs.Ask.{key_of};
ghost use Rattle.ds_rule.specs.Records.{record_of};
ghost use Rattle.ds_rule.specs.Serve.{decided, resolves};
ghost use Rattle.ds_serve.specs.Writes.{keys_written};

use ds_base::{Copies, Key, Keys, Stamp, TxnNo};
use ds_cell::Cell;
use ds_kind::{Bounds, Request};
use ds_rule::{RecordStatus, Records};
use std::alloc::{AllocError, Global};
use std::collections::BTreeMap;
use std::collections::btree_map::Range;

/// The stamp at which a transaction's writes become versions, or that they are dropped, where its
/// record is decided; `None` where it is pending or staging, or there is none.
pub fn decided(records: &Records, txn: TxnNo) -> Option<Option<Stamp>>
    ensures { result ≡ decided (record_of txn.0 records.now) }
{
    match records.find(txn) {
        Some(record) => match record.status {
            RecordStatus::Committed => Some(Some(record.stamp)),
            RecordStatus::Aborted => Some(None),
            RecordStatus::Pending | RecordStatus::Staging(_) => None,
        },
        None => None,
    }
}

/// The transaction whose intents the request resolves, if it resolves any.
pub fn resolves(request: &Request) -> Option<TxnNo>
    ensures { option_map (λ t. t.0) result ≡ resolves request.now }
{
    match request {
        Request::ResolveIntent(args) => Some(args.txn),
        Request::ResolveIntentRange(args) => Some(args.txn),
        Request::Get(_)
        | Request::Scan(_)
        | Request::ReverseScan(_)
        | Request::Put(_)
        | Request::ConditionalPut(_)
        | Request::InitPut(_)
        | Request::Increment(_)
        | Request::Delete(_)
        | Request::DeleteRange(_)
        | Request::EndTxn(_)
        | Request::QueryIntent(_)
        | Request::AdminSplit(_)
        | Request::AdminTransferLease(_) => None,
    }
}

// Notes the key, if the cell there has writes.
#[tactic(auto, using(crate::proofs::Written::one_written, crate::proofs::Written::none_written))]
fn note_written(alloc: Global, keys: &mut Keys, key: &Key, cell: &Cell) -> Result<(), AllocError>
    ensures { OnOk result (keys.new ≡ keys.old ++ keys_written ((key.now, cell.now) ∷ [])) }
{
    if cell.has_writes() {
        return keys.push(alloc, key.copy(alloc)?);
    }
    Ok(())
}

// The keys of these cells that have writes.
#[tactic(auto, using(crate::proofs::Written::written_first, crate::proofs::Written::written_more, crate::proofs::Written::written_done))]
fn keys_written(alloc: Global, cells: Range<'_, Key, Cell>) -> Result<Keys, AllocError>
    ensures { IfOk result (λ ks. ks ≡ keys_written cells.entry) }
{
    let mut keys = Keys::new(alloc);
    'cells: for (key, cell) in cells {
        note_written(alloc, &mut keys, key, cell)?;
    }
    Ok(keys)
}

/// The keys with writes of transactions from `start` up to `end`.
#[tactic(auto, using(crate::proofs::Written::none_between))]
pub fn keys_between(
    alloc: Global,
    cells: &BTreeMap<Key, Cell>,
    start: &Key,
    end: &Key,
) -> Result<Keys, AllocError>
    ensures { IfOk result (λ ks. ks ≡ keys_written (between key_of start.now end.now cells.now.entries)) }
{
    if *start < *end {
        return keys_written(alloc, cells.range(start..end));
    }
    Ok(Keys::new(alloc))
}

/// The keys with writes of transactions in the request's span.
#[tactic(auto, using(crate::proofs::Written::point_between))]
pub fn keys_in(
    alloc: Global,
    cells: &BTreeMap<Key, Cell>,
    request: &Request,
) -> Result<Keys, AllocError>
    ensures { IfOk result (λ ks. ks ≡ keys_written (between key_of (span_of request.now).start (span_of request.now).end cells.now.entries)) }
{
    match request.bounds() {
        Bounds::Point(key) => keys_written(alloc, cells.range(key..=key)),
        Bounds::Between(start, end) => keys_between(alloc, cells, start, end),
    }
}
