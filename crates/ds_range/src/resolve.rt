//! Settling the intents of a span, by the records of transactions.
ghost use Rattle.std.specs.Prelude.{◌≡◌, Some, OnOk, OnErr, ℕ, List};
ghost use Rattle.ds_kind.specs.Request.{span_of};
ghost use Rattle.ds_rule.specs.Records.{record_of};
ghost use Rattle.ds_rule.specs.Serve.{decided, resolved, resolved_left, settle_in, settle_as};
ghost use Rattle.ds_range.specs.Covers.{Covers};
ghost use Rattle.ds_range.specs.Keeps.{restored};
ghost use Rattle.ds_range.specs.Resolves.{PartlySettled};

use crate::change::ordered;
use crate::keep::Undo;
use crate::settle::{settle_among, settle_keys};
use crate::state::RangeState;
use ds_base::{Key, Span, Stamp, TxnNo};
use ds_cell::Cell;
use ds_kind::Request;
use ds_rule::Records;
use ds_serve::{decided, keys_between, keys_in, resolves};
use std::alloc::{AllocError, Global};
use std::collections::BTreeMap;

/// Settles the transaction's intents in the request's span, and keeps what this took.
#[tactic(auto, using(crate::proofs::Resolving::at_in))]
fn settle_in(
    alloc: Global,
    cells: &mut BTreeMap<Key, Cell>,
    request: &Request,
    txn: TxnNo,
    commit: Option<Stamp>,
    undo: &mut Undo,
) -> Result<(), AllocError>
    ensures ok { OnOk result (cells.new.entries ≡ settle_in (span_of request.now) txn.0 commit cells.old.entries) }
    ensures back { restored undo.new cells.new.entries ≡ restored undo.old cells.old.entries }
{
    ordered(cells);
    let keys = keys_in(alloc, cells, request)?;
    settle_keys(alloc, cells, keys.as_slice(), txn, commit, undo)
}

/// Settles what a request resolves, by the records, and keeps what this took.
fn resolve(
    alloc: Global,
    cells: &mut BTreeMap<Key, Cell>,
    records: &Records,
    request: &Request,
    undo: &mut Undo,
) -> Result<(), AllocError>
    ensures ok { OnOk result (cells.new.entries ≡ resolved records.now request.now cells.old.entries) }
    ensures back { restored undo.new cells.new.entries ≡ restored undo.old cells.old.entries }
{
    match resolves(request) {
        Some(txn) => match decided(records, txn) {
            Some(commit) => settle_in(alloc, cells, request, txn, commit, undo),
            None => Ok(()),
        },
        None => Ok(()),
    }
}

/// The same, unless nothing is left of the limit.
pub(crate) fn resolve_left(
    alloc: Global,
    cells: &mut BTreeMap<Key, Cell>,
    records: &Records,
    left: Option<u32>,
    request: &Request,
    undo: &mut Undo,
) -> Result<(), AllocError>
    ensures ok { OnOk result (cells.new.entries ≡ resolved_left records.now left request.now cells.old.entries) }
    ensures back { restored undo.new cells.new.entries ≡ restored undo.old cells.old.entries }
{
    match left {
        None => resolve(alloc, cells, records, request, undo),
        Some(left) => {
            if left == 0 {
                return Ok(());
            }
            resolve(alloc, cells, records, request, undo)
        }
    }
}

/// Settles the transaction's intents in the span. After want of memory some may be settled.
#[tactic(auto, using(crate::proofs::Resolving::among_in, crate::proofs::Resolving::partly_in, crate::proofs::Resolving::nothing_partly, crate::proofs::Resolving::covers_still))]
fn settle_span(
    alloc: Global,
    cells: &mut BTreeMap<Key, Cell>,
    span: &Span,
    txn: TxnNo,
    commit: Option<Stamp>,
) -> Result<(), AllocError>
    ensures ok { OnOk result (cells.new.entries ≡ settle_in span.now txn.0 commit cells.old.entries) }
    ensures err { OnErr result (PartlySettled span.now txn.0 (Some commit) cells.old.entries cells.new.entries) }
    ensures covers { (keys : List (List ℕ)) → Covers keys cells.old.entries → Covers keys cells.new.entries }
{
    ordered(cells);
    let keys = keys_between(alloc, cells, &span.start, &span.end)?;
    settle_among(alloc, cells, keys.as_slice(), txn, commit)
}

/// Settles the transaction's intents in the span, if its record is decided. After want of memory some
/// may be settled.
fn resolve_span(
    alloc: Global,
    cells: &mut BTreeMap<Key, Cell>,
    span: &Span,
    txn: TxnNo,
    records: &Records,
) -> Result<(), AllocError>
    ensures ok { OnOk result (cells.new.entries ≡ settle_as span.now txn.0 (decided (record_of txn.0 records.now)) cells.old.entries) }
    ensures err { OnErr result (PartlySettled span.now txn.0 (decided (record_of txn.0 records.now)) cells.old.entries cells.new.entries) }
    ensures covers { (keys : List (List ℕ)) → Covers keys cells.old.entries → Covers keys cells.new.entries }
{
    match decided(records, txn) {
        Some(commit) => settle_span(alloc, cells, span, txn, commit),
        None => Ok(()),
    }
}

impl RangeState {
    /// Settles the transaction's intents at the keys of the span, by its record: where it is committed,
    /// its last write at each key becomes a version at the record's stamp, where it is aborted, its writes
    /// are dropped, and else all stays. After want of memory some may be settled, and the others are as
    /// before.
    pub fn resolve(
        &mut self,
        alloc: Global,
        span: &Span,
        txn: TxnNo,
        records: &Records,
    ) -> Result<(), AllocError>
        ensures ok { OnOk result (self.new ≡ record (self.old) { cells = settle_as span.now txn.0 (decided (record_of txn.0 records.now)) (self.old).cells }) }
        ensures info { (self.new).info ≡ (self.old).info }
        ensures err { OnErr result (PartlySettled span.now txn.0 (decided (record_of txn.0 records.now)) (self.old).cells (self.new).cells) }
    {
        resolve_span(alloc, &mut self.cells, span, txn, records)
    }
}
