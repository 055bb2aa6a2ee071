//! What is kept of the contents, so that changes can be taken back.
ghost use Rattle.std.specs.Prelude.{◌≡◌, ◌∷◌, [], ◌++◌, OnOk, OnErr, IfErr};
ghost use Rattle.ds_cell.specs.Store.{put_cell};
ghost use Rattle.ds_range.specs.Keeps.{put_back, restored};

use crate::change::{Change, change_at};
use ds_base::{Copies, Key, ListOf};
use ds_cell::{Cell, Taken};
use std::alloc::{AllocError, Global};
use std::collections::BTreeMap;

/// For each change the key, with what it took there, or nothing where it began the key's cell.
pub type Undo = ListOf<(Key, Option<Taken>)>;

/// Adds what a change took. Want of memory hands it back, and leaves the list as it was.
fn keep(
    alloc: Global,
    undo: &mut Undo,
    kept: (Key, Option<Taken>),
) -> Result<(), (Key, Option<Taken>)>
    ensures ok { OnOk result (undo.new ≡ undo.old ++ kept ∷ []) }
    ensures err { OnErr result (undo.new ≡ undo.old) }
    ensures back { IfErr result (λ same. same ≡ kept) }
{
    let mut items = std::mem::replace(undo, Undo::new(alloc)).into_vec();
    match items.push(kept) {
        Ok(()) => {
            *undo = Undo::from_vec(items);
            Ok(())
        }
        Err(failed) => {
            *undo = Undo::from_vec(items);
            Err(failed.value)
        }
    }
}

/// Changes a key's cell, and keeps what this took. After want of memory the contents may still be put
/// back.
pub(crate) fn change_kept<C: Change>(
    alloc: Global,
    cells: &mut BTreeMap<Key, Cell>,
    key: &Key,
    change: C,
    undo: &mut Undo,
) -> Result<(), AllocError>
    ensures ok { OnOk result (cells.new.entries ≡ put_cell key.now (C.after change) cells.old.entries) }
    ensures back { restored undo.new cells.new.entries ≡ restored undo.old cells.old.entries }
{
    let copy = key.copy(alloc)?;
    let taken = change_at(alloc, cells, key, change)?;
    match keep(alloc, undo, (copy, taken)) {
        Ok(()) => Ok(()),
        Err((_, taken)) => {
            put_back(cells, key, taken);
            Err(AllocError)
        }
    }
}

/// Puts back what a change took at a key. It takes no memory.
#[tactic(auto, using(crate::proofs::Maps::set_missing))]
fn put_back(cells: &mut BTreeMap<Key, Cell>, key: &Key, kept: Option<Taken>)
    ensures { cells.new.entries ≡ put_back key.now kept cells.old.entries }
{
    match kept {
        Some(taken) => {
            if let Some(cell) = cells.get_mut(key) {
                cell.give_back(taken);
            }
        }
        None => {
            cells.remove(key);
        }
    }
}

/// Puts back all that was kept, the last first. It takes no memory.
pub(crate) fn put_all_back(cells: &mut BTreeMap<Key, Cell>, undo: Undo)
    ensures { cells.new.entries ≡ restored undo cells.old.entries }
{
    let mut kept = undo.into_vec();
    'kept: while let Some((key, taken)) = kept.pop() {
        put_back(cells, &key, taken);
    }
}
