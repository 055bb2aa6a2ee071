//! The records of transactions.
ghost use Rattle.std.specs.Prelude.{◌≡◌, ◌==◌, ◌++◌, ◌∷◌, [], length, position, slice_get, IfOk, OnOk, OnErr};
ghost use Rattle.std.specs.Option.{option_copied};
ghost use Rattle.ds_cell.specs.Content.{Rises};
ghost use Rattle.ds_cell.specs.Seen.{last_of};
ghost use Rattle.ds_rule.specs.Records.{record_number, record_of, with_last, with_record, with_status, RisesIf, IsFirstFrom};

use ds_base::{Copies, Stamp, TxnNo};
use ds_kind::Flights;
use std::alloc::{AllocError, Global};
use std::marker::Model;

/// How a transaction's record stands.
#[derive(Drop)]
pub enum RecordStatus {
    Pending,
    Committed,
    Aborted,
    /// A commit that waits for these writes.
    Staging(Flights),
}

/// What every node knows of a transaction.
#[derive(Drop)]
pub struct TxnRecord {
    pub txn: TxnNo,
    pub stamp: Stamp,
    pub epoch: u32,
    pub status: RecordStatus,
}

/// The records of all transactions so far. A contract sees the list.
#[derive(Drop)]
pub struct Records {
    items: Vec<TxnRecord>,
    /// Whether it is known that the numbers rise, so that a search may halve.
    rising: bool,
}

impl Model for Records {
    ghost use Rattle.std.specs.Prelude.{List};
    ghost use Rattle.ds_rule.specs.declared.record.TxnRecord.{TxnRecord};
    ghost use Rattle.ds_rule.specs.Records.{RisesIf};

    ghost Value = { List TxnRecord };

    ghost view = { λ r. r.items.items };

    ghost invariant = { λ r. RisesIf r.rising r.items.items };
}

impl Copies for RecordStatus {
    fn copy(&self, alloc: Global) -> Result<RecordStatus, AllocError> {
        match self {
            RecordStatus::Pending => Ok(RecordStatus::Pending),
            RecordStatus::Committed => Ok(RecordStatus::Committed),
            RecordStatus::Aborted => Ok(RecordStatus::Aborted),
            RecordStatus::Staging(flights) => Ok(RecordStatus::Staging(flights.copy(alloc)?)),
        }
    }
}

impl Copies for TxnRecord {
    fn copy(&self, alloc: Global) -> Result<TxnRecord, AllocError> {
        Ok(TxnRecord {
            txn: self.txn,
            stamp: self.stamp,
            epoch: self.epoch,
            status: self.status.copy(alloc)?,
        })
    }
}

fn copies_of(alloc: Global, items: &[TxnRecord]) -> Result<Vec<TxnRecord>, AllocError>
    ensures { IfOk result (λ made. made.items ≡ items.now) }
{
    let mut copies = Vec::with_capacity(alloc, items.len())?;
    for item in items {
        copies.push(item.copy(alloc)?)?;
    }
    Ok(copies)
}

impl Copies for Records {
    fn copy(&self, alloc: Global) -> Result<Records, AllocError> {
        Ok(Records {
            items: copies_of(alloc, self.items.as_slice())?,
            rising: self.rising,
        })
    }
}

fn nth(items: &[TxnRecord], at: usize) -> Option<&TxnRecord>
    ensures { option_copied result ≡ slice_get items.now at }
{
    items.get(at)
}

/// Where the first record stands whose number isn't below this one, among records whose numbers rise.
fn first_from(items: &[TxnRecord], number: TxnNo) -> usize
    requires { Rises record_number items.now }
    ensures { IsFirstFrom record_number number.0 items.now result }
{
    items.partition_point(|item| item.txn.0 < number.0)
}

/// Where the first record of the number stands, among records whose numbers rise.
fn place_by_halves(items: &[TxnRecord], number: TxnNo) -> Option<usize>
    requires { Rises record_number items.now }
    ensures { result ≡ position (λ t. t.txn.0 == number.0) items.now }
{
    let at = first_from(items, number);
    match nth(items, at) {
        Some(found) => {
            if found.txn.0 == number.0 {
                Some(at)
            } else {
                None
            }
        }
        None => None,
    }
}

/// Where the first record of the number stands.
fn place(items: &[TxnRecord], rising: bool, number: TxnNo) -> Option<usize>
    requires { RisesIf rising items.now }
    ensures { result ≡ position (λ t. t.txn.0 == number.0) items.now }
{
    if rising {
        place_by_halves(items, number)
    } else {
        items.iter().position(|item| item.txn.0 == number.0)
    }
}

/// The first record of the number.
#[tactic(auto, using(crate::proofs::Numbered::found, crate::proofs::Numbered::not_found))]
fn first_of(items: &[TxnRecord], rising: bool, number: TxnNo) -> Option<&TxnRecord>
    requires { RisesIf rising items.now }
    ensures { option_copied result ≡ record_of number.0 items.now }
{
    match place(items, rising, number) {
        Some(at) => nth(items, at),
        None => None,
    }
}

fn last_in(items: &[TxnRecord]) -> Option<&TxnRecord>
    ensures { option_copied result ≡ last_of items.now }
{
    items.iter().rev().find(|_| true)
}

/// Whether the numbers are still known to rise with one more record.
#[tactic(auto, using(crate::proofs::Numbered::still_more))]
fn still_rising(items: &[TxnRecord], rising: bool, added: &TxnRecord) -> bool
    requires { RisesIf rising items.now }
    ensures { RisesIf result (items.now ++ added.now ∷ []) }
{
    match items.last() {
        Some(last) => rising && last.txn.0 < added.txn.0,
        None => true,
    }
}

/// The first record of the number, if there is one, gets the status.
fn set_first(items: &mut Vec<TxnRecord>, rising: bool, number: TxnNo, status: RecordStatus)
    requires { RisesIf rising (items.old).items }
    ensures { (items.new).items ≡ with_record number.0 (with_status status) (items.old).items }
{
    match place(items.as_slice(), rising, number) {
        Some(at) => {
            let found = &mut items[at];
            found.status = status;
        }
        None => {}
    }
}

/// The last record, if there is one, gets the status.
fn set_last(items: &mut Vec<TxnRecord>, status: RecordStatus)
    ensures { (items.new).items ≡ with_last (with_status status) (items.old).items }
{
    let count = items.len();
    if count == 0 {
        return;
    }
    let last = &mut items[count - 1];
    last.status = status;
}

impl Records {
    /// No records, which take no memory.
    pub fn new(alloc: Global) -> Records
        ensures { result ≡ [] }
    {
        Records {
            items: Vec::new(alloc),
            rising: true,
        }
    }

    /// Adds the record at the end. Want of memory leaves the records as they were.
    pub fn push(&mut self, _alloc: Global, added: TxnRecord) -> Result<(), AllocError>
        ensures ok { OnOk result (self.new ≡ self.old ++ added ∷ []) }
        ensures err { OnErr result (self.new ≡ self.old) }
    {
        let rising = still_rising(self.items.as_slice(), self.rising, &added);
        self.items.push(added)?;
        self.rising = rising;
        Ok(())
    }

    /// How many records there are.
    pub fn len(&self) -> usize
        ensures { result ≡ length self.now }
    {
        self.items.len()
    }

    /// The record at a place, counted from 0; `None` exactly where the place is at least the length.
    pub fn get(&self, i: usize) -> Option<&TxnRecord>
        ensures { option_copied result ≡ slice_get self.now i }
    {
        self.items.get(i)
    }

    /// The records, to go over.
    pub fn as_slice(&self) -> &[TxnRecord]
        ensures { result.now ≡ self.now }
    {
        self.items.as_slice()
    }

    /// The record of a transaction, by its number: the first, should there be more.
    pub fn find(&self, number: TxnNo) -> Option<&TxnRecord>
        ensures { option_copied result ≡ record_of number.0 self.now }
    {
        first_of(self.items.as_slice(), self.rising, number)
    }

    /// The record of a transaction, if there is one, gets the status: the first of the number.
    #[tactic(auto, using(crate::proofs::Numbered::still_record))]
    pub fn set_status(&mut self, number: TxnNo, status: RecordStatus)
        ensures { self.new ≡ with_record number.0 (with_status status) self.old }
    {
        set_first(&mut self.items, self.rising, number, status);
    }

    /// The record that was added last.
    pub fn last(&self) -> Option<&TxnRecord>
        ensures { option_copied result ≡ last_of self.now }
    {
        last_in(self.items.as_slice())
    }

    /// The record that was added last, if there is one, gets the status.
    #[tactic(auto, using(crate::proofs::Numbered::still_last))]
    pub fn set_last_status(&mut self, status: RecordStatus)
        ensures { self.new ≡ with_last (with_status status) self.old }
    {
        set_last(&mut self.items, status);
    }
}
