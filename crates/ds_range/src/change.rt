//! Changes of what stands at one key.
ghost use Rattle.std.specs.Prelude.{◌≡◌, None, OnOk, OnErr, IfOk, List, ℕ};
ghost use Rattle.std.specs.Map.{lookup};
ghost use Rattle.std.specs.BTreeMap.{is_at};
ghost use Rattle.ds_base.specs.Order.{key_cmp};
ghost use Rattle.ds_base.specs.Ordered.{Ascends};
ghost use Rattle.ds_cell.specs.Ask.{key_of};
ghost use Rattle.ds_cell.specs.Change.{after_foreign};
ghost use Rattle.ds_cell.specs.Store.{put_cell};
ghost use Rattle.ds_range.specs.Covers.{Covers};
ghost use Rattle.ds_range.specs.Keeps.{put_back};

use ds_base::{Copies, Key, Stamp, TxnNo, Value};
use ds_cell::{At, Cell, Taken};
use std::alloc::{AllocError, Global};
use std::collections::BTreeMap;

/// A change of one key's cell, which can be taken back.
pub(crate) trait Change: Drop + Sized {
    ghost use Rattle.ds_cell.specs.Content.{Content};
    ghost use Rattle.ds_cell.specs.Taken.{given_back};

    // the cell afterwards
    ghost after: { Self → Content → Content };

    /// Changes the cell, and gives what this took. Want of memory leaves it as it was.
    fn change(self, alloc: Global, cell: &mut Cell) -> Result<Taken, AllocError>
        ensures ok { OnOk result (cell.new ≡ after self cell.old) }
        ensures back { IfOk result (λ taken. given_back taken cell.new ≡ cell.old) }
        ensures err { OnErr result (cell.new ≡ cell.old) };
}

/// A write of a request.
#[derive(Drop)]
pub(crate) struct Write {
    pub at: At,
    pub value: Option<Value>,
}

impl Change for Write {
    ghost use Rattle.ds_range.specs.Asks.{wrote_once};

    ghost after = { λ w. wrote_once w.at w.value };

    fn change(self, alloc: Global, cell: &mut Cell) -> Result<Taken, AllocError> {
        cell.write(alloc, self.at, self.value)
    }
}

/// The settling of a transaction's intent.
#[derive(Drop)]
pub(crate) struct Settle {
    pub txn: TxnNo,
    pub commit: Option<Stamp>,
}

impl Change for Settle {
    ghost use Rattle.ds_cell.specs.Change.{settled};

    ghost after = { λ s. settled s.txn.0 s.commit };

    fn change(self, alloc: Global, cell: &mut Cell) -> Result<Taken, AllocError> {
        cell.settle_kept(alloc, self.txn, self.commit)
    }
}

/// Begins a key's cell. Want of memory leaves the contents as they were.
#[tactic(auto, using(crate::proofs::Maps::changed_new, crate::proofs::Maps::begun_back))]
fn begin<C: Change>(
    alloc: Global,
    cells: &mut BTreeMap<Key, Cell>,
    key: &Key,
    change: C,
) -> Result<(), AllocError>
    requires { lookup (is_at (key_cmp key.now)) cells.old.entries ≡ None }
    ensures ok { OnOk result (cells.new.entries ≡ put_cell key.now (C.after change) cells.old.entries) }
    ensures back { OnOk result (put_back key.now None cells.new.entries ≡ cells.old.entries) }
    ensures err { OnErr result (cells.new.entries ≡ cells.old.entries) }
{
    let mut cell = Cell::new(alloc);
    change.change(alloc, &mut cell)?;
    let key = key.copy(alloc)?;
    cells.insert(key, cell)?;
    Ok(())
}

/// Changes a key's cell where it stands, and gives what this took; or begins one, and gives nothing.
/// Want of memory leaves the contents as they were.
pub(crate) fn change_at<C: Change>(
    alloc: Global,
    cells: &mut BTreeMap<Key, Cell>,
    key: &Key,
    change: C,
) -> Result<Option<Taken>, AllocError>
    ensures ok { OnOk result (cells.new.entries ≡ put_cell key.now (C.after change) cells.old.entries) }
    ensures back { IfOk result (λ taken. put_back key.now taken cells.new.entries ≡ cells.old.entries) }
    ensures err { OnErr result (cells.new.entries ≡ cells.old.entries) }
{
    if let Some(cell) = cells.get_mut(key) {
        return match change.change(alloc, cell) {
            Ok(taken) => Ok(Some(taken)),
            Err(err) => Err(err),
        };
    }
    match begin(alloc, cells, key, change) {
        Ok(()) => Ok(None),
        Err(err) => Err(err),
    }
}

/// Begins a key's cell with a write of another client. Want of memory leaves the contents as they
/// were.
#[tactic(auto, using(crate::proofs::Maps::changed_new, crate::proofs::Covering::begun_covers))]
fn begin_foreign(
    alloc: Global,
    cells: &mut BTreeMap<Key, Cell>,
    key: &Key,
    stamp: Stamp,
    value: Option<Value>,
) -> Result<(), AllocError>
    requires { lookup (is_at (key_cmp key.now)) cells.old.entries ≡ None }
    ensures ok { OnOk result (cells.new.entries ≡ put_cell key.now (after_foreign (record { stamp = stamp; value = value })) cells.old.entries) }
    ensures err { OnErr result (cells.new.entries ≡ cells.old.entries) }
    ensures covers { (keys : List (List ℕ)) → Covers keys cells.old.entries → Covers keys cells.new.entries }
{
    let mut cell = Cell::new(alloc);
    cell.foreign(alloc, stamp, value)?;
    let key = key.copy(alloc)?;
    cells.insert(key, cell)?;
    Ok(())
}

/// A write of another client at a key. Want of memory leaves the contents as they were.
pub(crate) fn foreign_at(
    alloc: Global,
    cells: &mut BTreeMap<Key, Cell>,
    key: &Key,
    stamp: Stamp,
    value: Option<Value>,
) -> Result<(), AllocError>
    ensures ok { OnOk result (cells.new.entries ≡ put_cell key.now (after_foreign (record { stamp = stamp; value = value })) cells.old.entries) }
    ensures err { OnErr result (cells.new.entries ≡ cells.old.entries) }
    ensures covers { (keys : List (List ℕ)) → Covers keys cells.old.entries → Covers keys cells.new.entries }
{
    if let Some(cell) = cells.get_mut(key) {
        return cell.foreign(alloc, stamp, value);
    }
    begin_foreign(alloc, cells, key, stamp, value)
}

/// Does nothing: its clause tells what every map keeps.
#[tactic(auto, using(crate::proofs::Maps::ascends_of))]
pub(crate) fn ordered(cells: &BTreeMap<Key, Cell>)
    ensures { Ascends key_of cells.now.entries }
{
    cells.len();
}
