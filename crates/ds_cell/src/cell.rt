//! The content of one key.
ghost use Rattle.std.specs.Prelude.{◌≡◌, ◌≤◌, ◌∷◌, [], ◌++◌, OnOk, IfOk, OnErr, Some, None, length, slice_get, MatchOption, is_some, if◌then◌else◌};
ghost use Rattle.std.specs.Option.{option_copied};
ghost use Rattle.ds_cell.specs.Content.{no_content, IsContent, Rises, stamp_of, seq_of};
ghost use Rattle.ds_cell.specs.Seen.{own, held, last_of, seen, newest, version_at, under, too_old, newest_from, IsLatest, IsNewestFrom};
ghost use Rattle.ds_cell.specs.Change.{wrote, after_foreign, settled};
ghost use Rattle.ds_cell.specs.Taken.{given_back};

use crate::entry::{At, Version, Written};
use crate::taken::Taken;
use crate::{history, versions};
use ds_base::{Copies, Seq, Stamp, TxnNo, Value};
use std::alloc::{AllocError, Global};
use std::marker::Model;

/// The content of one key: its committed versions, the writes of one transaction in one epoch, and
/// the foreign writes that wait for them. A contract sees the record of these.
#[derive(Drop)]
pub struct Cell {
    versions: Vec<Version>,
    owner: TxnNo,
    epoch: u32,
    history: Vec<Written>,
    waiting: Vec<Version>,
}

impl Model for Cell {
    ghost use Rattle.ds_cell.specs.Content.{Content, IsContent};

    ghost Value = { Content };

    ghost view = { λ c. record { versions = c.versions.items; owner = c.owner.0; epoch = c.epoch; history = c.history.items; waiting = c.waiting.items } };

    ghost invariant = { λ c. IsContent (record { versions = c.versions.items; owner = c.owner.0; epoch = c.epoch; history = c.history.items; waiting = c.waiting.items }) };
}

impl Cell {
    ghost use Rattle.ds_cell.specs.declared.entry.Version.{Version};

    /// The empty cell, which takes no memory.
    pub fn new(alloc: Global) -> Cell
        ensures { result ≡ no_content }
    {
        Cell {
            versions: Vec::new(alloc),
            owner: TxnNo(0),
            epoch: 0,
            history: Vec::new(alloc),
            waiting: Vec::new(alloc),
        }
    }

    /// Does nothing: its clauses tell what every cell keeps. Stamps and numbers rise, so that the
    /// write, the version and the stamp in its way that a request at `at` meets are the greatest.
    pub fn known(&self, at: At)
        ensures content { IsContent self.now }
        ensures write { IsLatest seq_of at.seq.0 (own at self.now) (newest at.seq.0 (own at self.now)) }
        ensures version { IsLatest stamp_of at.stamp.0 self.now.versions (version_at at.stamp.0 self.now.versions) }
        ensures in_the_way { IsNewestFrom at.stamp.0 (self.now.versions ++ self.now.waiting) (newest_from at.stamp.0 self.now) }
    {
        let _ = &self.versions;
        let _ = at;
    }

    /// The committed version at a place, counted from 0 by ascending stamp: its stamp, and its value
    /// or `None` for a deletion. `None` exactly where the place is at least their number.
    pub fn version(&self, i: usize) -> Option<(Stamp, Option<&Value>)>
        ensures { MatchOption result (length self.now.versions ≤ i) (λ p. slice_get self.now.versions i ≡ Some (record { stamp = p.0; value = option_copied p.1 })) }
    {
        match self.versions.get(i) {
            Some(version) => Some((version.stamp, version.value.as_ref())),
            None => None,
        }
    }

    fn held(&self, txn: TxnNo) -> &[Written]
        ensures { result.now ≡ held txn.0 self.now }
    {
        if self.owner.0 == txn.0 {
            self.history.as_slice()
        } else {
            &[]
        }
    }

    // The writes that count for the request.
    fn own(&self, at: At) -> &[Written]
        ensures own { result.now ≡ own at self.now }
        ensures rises { Rises seq_of result.now }
    {
        if self.epoch == at.epoch {
            self.held(at.txn)
        } else {
            &[]
        }
    }

    /// The value that a request at `at` sees: the write of its transaction with the greatest number
    /// not above its own, if there is one, else the version with the greatest stamp not above its
    /// stamp. A deletion is no value.
    pub fn seen(&self, at: At) -> Option<&Value>
        ensures { option_copied result ≡ seen at at.seq.0 self.now }
    {
        self.seen_up_to(at, at.seq)
    }

    // The same with own writes up to the number `look`.
    pub(crate) fn seen_up_to(&self, at: At, look: Seq) -> Option<&Value>
        ensures { option_copied result ≡ seen at look.0 self.now }
    {
        if let Some(write) = history::newest(self.own(at), look) {
            return write.value.as_ref();
        }
        match versions::version_at(self.versions.as_slice(), at.stamp) {
            Some(version) => version.value.as_ref(),
            None => None,
        }
    }

    // The write of the request's transaction under a number.
    pub(crate) fn written(&self, at: At, seq: Seq) -> Option<&Written>
        ensures { option_copied result ≡ under seq.0 (own at self.now) }
    {
        history::under(self.own(at), seq)
    }

    // The stamp that stands in the way of a write.
    pub(crate) fn too_old(&self, at: At) -> Option<Stamp>
        ensures { result ≡ too_old at self.now }
    {
        if self.own(at).is_empty() {
            versions::newest_from(at.stamp, self.versions.as_slice(), self.waiting.as_slice())
        } else {
            None
        }
    }

    /// Whether a transaction has writes here.
    pub fn has_writes(&self) -> bool
        ensures { result ≡ is_some (last_of self.now.history) }
    {
        history::last_write(self.history.as_slice()).is_some()
    }

    /// Writes under the request's number, unless a write of its transaction and epoch stands under it
    /// already, and gives what this took. Want of memory leaves the cell as it was.
    pub fn write(
        &mut self,
        alloc: Global,
        at: At,
        value: Option<Value>,
    ) -> Result<Taken, AllocError>
        ensures ok { OnOk result (self.new ≡ (if is_some (under at.seq.0 (own at self.old)) then self.old else wrote at value self.old)) }
        ensures back { IfOk result (λ taken. given_back taken self.new ≡ self.old) }
        ensures err { OnErr result (self.new ≡ self.old) }
    {
        if self.written(at, at.seq).is_some() {
            return Ok(Taken::Nothing);
        }
        self.write_new(alloc, at, Written { seq: at.seq, value })
    }

    fn write_new(&mut self, alloc: Global, at: At, written: Written) -> Result<Taken, AllocError>
        requires free { under at.seq.0 (own at self.old) ≡ None }
        requires number { written.seq ≡ at.seq }
        ensures ok { OnOk result (self.new ≡ wrote at written.value self.old) }
        ensures back { IfOk result (λ taken. given_back taken self.new ≡ self.old) }
        ensures err { OnErr result (self.new ≡ self.old) }
    {
        if self.epoch == at.epoch && self.owner.0 == at.txn.0 {
            history::add_write(&mut self.history, written)?;
            return Ok(Taken::Write(at.seq));
        }
        let mut history = Vec::new(alloc);
        history.push(written)?;
        let taken = self.take_writes(alloc);
        self.owner = at.txn;
        self.epoch = at.epoch;
        self.history = history;
        Ok(Taken::Writes(taken))
    }

    // Moves the writes into a cell of their own.
    fn take_writes(&mut self, alloc: Global) -> Cell
        ensures taken { result ≡ record (self.old) { versions = []; waiting = [] } }
        ensures left { self.new ≡ record (self.old) { history = [] } }
    {
        Cell {
            versions: Vec::new(alloc),
            owner: self.owner,
            epoch: self.epoch,
            history: std::mem::replace(&mut self.history, Vec::new(alloc)),
            waiting: Vec::new(alloc),
        }
    }

    /// A write of another client: a version at its stamp, unless one stands there. Where an intent
    /// stands on the key it waits. Want of memory leaves the cell as it was.
    pub fn foreign(
        &mut self,
        _alloc: Global,
        stamp: Stamp,
        value: Option<Value>,
    ) -> Result<(), AllocError>
        ensures ok { OnOk result (self.new ≡ after_foreign (record { stamp = stamp; value = value }) self.old) }
        ensures err { OnErr result (self.new ≡ self.old) }
    {
        match history::last_write(self.history.as_slice()) {
            None => versions::make(&mut self.versions, Version { stamp, value })?,
            Some(_) => self.waiting.push(Version { stamp, value })?,
        }
        Ok(())
    }

    /// Settles the transaction's intent, if it is the one that stands: its write with the greatest
    /// number becomes a version at the commit's stamp, or all its writes are dropped where there is
    /// no commit. Then the waiting writes are made in order. Want of memory leaves the cell as it was.
    pub fn settle(
        &mut self,
        alloc: Global,
        txn: TxnNo,
        commit: Option<Stamp>,
    ) -> Result<(), AllocError>
        ensures ok { OnOk result (self.new ≡ settled txn.0 commit self.old) }
        ensures err { OnErr result (self.new ≡ self.old) }
    {
        match self.settle_kept(alloc, txn, commit) {
            Ok(_) => Ok(()),
            Err(err) => Err(err),
        }
    }

    /// The same, and gives what this took.
    pub fn settle_kept(
        &mut self,
        alloc: Global,
        txn: TxnNo,
        commit: Option<Stamp>,
    ) -> Result<Taken, AllocError>
        ensures ok { OnOk result (self.new ≡ settled txn.0 commit self.old) }
        ensures back { IfOk result (λ taken. given_back taken self.new ≡ self.old) }
        ensures err { OnErr result (self.new ≡ self.old) }
    {
        let new = match history::last_write(self.held(txn)) {
            Some(last) => versions::settling(alloc, commit, last, self.waiting.as_slice())?,
            None => return Ok(Taken::Nothing),
        };
        let stamps = versions::make_each(alloc, &mut self.versions, new)?;
        Ok(Taken::Intent(self.take_intent(alloc), stamps))
    }

    // Moves the intent, with the writes that wait for it, into a cell of its own.
    fn take_intent(&mut self, alloc: Global) -> Cell
        ensures taken { result ≡ record (self.old) { versions = [] } }
        ensures left { self.new ≡ record (self.old) { history = []; waiting = [] } }
    {
        Cell {
            versions: Vec::new(alloc),
            owner: self.owner,
            epoch: self.epoch,
            history: std::mem::replace(&mut self.history, Vec::new(alloc)),
            waiting: std::mem::replace(&mut self.waiting, Vec::new(alloc)),
        }
    }

    /// Gives back what a change took. It takes no memory.
    pub fn give_back(&mut self, taken: Taken)
        ensures { self.new ≡ given_back taken self.old }
    {
        match taken {
            Taken::Nothing => {}
            Taken::Write(seq) => history::remove_write(&mut self.history, seq),
            Taken::Writes(cell) => {
                self.owner = cell.owner;
                self.epoch = cell.epoch;
                self.history = cell.history;
            }
            Taken::Intent(cell, stamps) => {
                versions::remove_versions(&mut self.versions, &stamps);
                self.owner = cell.owner;
                self.epoch = cell.epoch;
                self.history = cell.history;
                self.waiting = cell.waiting;
            }
        }
    }
}

impl Copies for Cell {
    fn copy(&self, alloc: Global) -> Result<Cell, AllocError> {
        Ok(Cell {
            versions: versions::copy_versions(alloc, self.versions.as_slice())?,
            owner: self.owner,
            epoch: self.epoch,
            history: history::copy_history(alloc, self.history.as_slice())?,
            waiting: versions::copy_versions(alloc, self.waiting.as_slice())?,
        })
    }
}
