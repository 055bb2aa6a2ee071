//! Settling a transaction's intents, at the keys where its writes can stand.
ghost use Rattle.std.specs.Prelude.{◌≡◌, ◌∷◌, ◌++◌, OnOk, OnErr, IfOk, map, take, List, ℕ, is_some};
ghost use Rattle.ds_cell.specs.Ask.{key_of, content_at};
ghost use Rattle.ds_cell.specs.Seen.{last_of};
ghost use Rattle.ds_rule.specs.Close.{settle_cells};
ghost use Rattle.ds_range.specs.Covers.{Covers, CoversIf, settled_one, settled_among};
ghost use Rattle.ds_range.specs.Keeps.{restored, kept_keys, settled_at};
ghost use Rattle.ds_range.specs.Resolves.{PartlyAs, settle_cell};

use crate::change::{Settle, ordered};
use crate::keep::{Undo, change_kept};
use ds_base::{Copies, Key, Keys, Stamp, TxnNo};
use ds_cell::Cell;
use std::alloc::{AllocError, Global};
use std::collections::BTreeMap;

/// The keys that were kept.
fn keys_kept(alloc: Global, undo: &Undo) -> Result<Keys, AllocError>
    ensures { IfOk result (λ ks. ks ≡ kept_keys undo.now) }
{
    let mut keys = Keys::new(alloc);
    'kept: for (key, _) in undo.as_slice() {
        keys.push(alloc, key.copy(alloc)?)?;
    }
    Ok(keys)
}

/// The keys that are stored.
fn keys_of(alloc: Global, cells: &BTreeMap<Key, Cell>) -> Result<Keys, AllocError>
    ensures { IfOk result (λ ks. ks ≡ map key_of cells.now.entries) }
{
    let mut keys = Keys::new(alloc);
    'cells: for (key, _) in cells {
        keys.push(alloc, key.copy(alloc)?)?;
    }
    Ok(keys)
}

/// Whether a transaction's writes stand at the key.
fn has_writes(cells: &BTreeMap<Key, Cell>, key: &Key) -> bool
    ensures { result ≡ is_some (last_of (content_at key.now cells.now.entries).history) }
{
    match cells.get(key) {
        Some(cell) => cell.has_writes(),
        None => false,
    }
}

/// Notes a key, if a transaction's writes stand there.
fn note(
    alloc: Global,
    cells: &BTreeMap<Key, Cell>,
    key: &Key,
    written: &mut Keys,
) -> Result<(), AllocError>
    ensures { OnOk result ((rest : List (List ℕ)) → Covers (key.now ∷ rest ++ written.old) cells.now.entries → Covers (rest ++ written.new) cells.now.entries) }
{
    ordered(cells);
    if has_writes(cells, key) {
        written.push(alloc, key.copy(alloc)?)?;
    }
    Ok(())
}

/// Notes those of the keys at which a transaction's writes stand.
fn note_all(
    alloc: Global,
    cells: &BTreeMap<Key, Cell>,
    keys: &[Key],
    written: &mut Keys,
) -> Result<(), AllocError>
    ensures { OnOk result (Covers (keys.now ++ written.old) cells.now.entries → Covers written.new cells.now.entries) }
{
    'keys: for key in keys {
        note(alloc, cells, key, written)?;
    }
    Ok(())
}

/// The keys at which writes can stand after a piece, by those before it.
fn noted_with(
    alloc: Global,
    cells: &BTreeMap<Key, Cell>,
    written: Keys,
    undo: &Undo,
) -> Result<Keys, AllocError>
    ensures { IfOk result (λ ks. Covers written (restored undo.now cells.now.entries) → Covers ks cells.now.entries) }
{
    let mut written = written;
    let kept = keys_kept(alloc, undo)?;
    note_all(alloc, cells, kept.as_slice(), &mut written)?;
    Ok(written)
}

/// The same; where memory is wanting they aren't known.
pub(crate) fn with_kept(
    alloc: Global,
    cells: &BTreeMap<Key, Cell>,
    written: Option<Keys>,
    undo: &Undo,
) -> Option<Keys>
    ensures { CoversIf written (restored undo.now cells.now.entries) → CoversIf result cells.now.entries }
{
    match written {
        Some(keys) => noted_with(alloc, cells, keys, undo).ok(),
        None => None,
    }
}

/// The keys at which writes can stand: all keys, where they aren't known.
pub(crate) fn to_settle(
    alloc: Global,
    cells: &BTreeMap<Key, Cell>,
    written: Option<Keys>,
) -> Result<Keys, AllocError>
    ensures { IfOk result (λ ks. CoversIf written cells.now.entries → Covers ks cells.now.entries) }
{
    match written {
        Some(keys) => Ok(keys),
        None => keys_of(alloc, cells),
    }
}

/// Those of the keys at which writes still stand; where memory is wanting they aren't known.
pub(crate) fn still_written(alloc: Global, cells: &BTreeMap<Key, Cell>, keys: &Keys) -> Option<Keys>
    ensures { Covers keys.now cells.now.entries → CoversIf result cells.now.entries }
{
    let mut written = Keys::new(alloc);
    match note_all(alloc, cells, keys.as_slice(), &mut written) {
        Ok(()) => Some(written),
        Err(_) => None,
    }
}

/// Settles the transaction's intent at a key, if the key is there. Want of memory leaves the contents
/// as they were.
fn settle_at(
    alloc: Global,
    cells: &mut BTreeMap<Key, Cell>,
    key: &Key,
    txn: TxnNo,
    commit: Option<Stamp>,
) -> Result<(), AllocError>
    ensures ok { OnOk result (cells.new.entries ≡ settled_one txn.0 commit key.now cells.old.entries) }
    ensures err { OnErr result (cells.new.entries ≡ cells.old.entries) }
{
    match cells.get_mut(key) {
        Some(cell) => cell.settle(alloc, txn, commit),
        None => Ok(()),
    }
}

/// Settles the transaction's intents at the keys, as far as they are there. After want of memory those
/// at some first keys are settled.
pub(crate) fn settle_among(
    alloc: Global,
    cells: &mut BTreeMap<Key, Cell>,
    keys: &[Key],
    txn: TxnNo,
    commit: Option<Stamp>,
) -> Result<(), AllocError>
    ensures ok { OnOk result (cells.new.entries ≡ settled_among txn.0 commit keys.now cells.old.entries) }
    ensures some { (n : ℕ) × (cells.new.entries ≡ settled_among txn.0 commit (take n keys.now) cells.old.entries) }
{
    'keys: for key in keys {
        settle_at(alloc, cells, key, txn, commit)?;
    }
    Ok(())
}

/// Settles the transaction's intents at the keys. After want of memory each key is as before or settled.
pub(crate) fn settle_each(
    alloc: Global,
    cells: &mut BTreeMap<Key, Cell>,
    keys: &[Key],
    txn: TxnNo,
    commit: Option<Stamp>,
) -> Result<(), AllocError>
    requires { Covers keys.now cells.old.entries }
    ensures ok { OnOk result (cells.new.entries ≡ settle_cells txn.0 commit cells.old.entries) }
    ensures covers { OnOk result (Covers keys.now cells.new.entries) }
    ensures keys { map key_of cells.new.entries ≡ map key_of cells.old.entries }
    ensures partly { PartlyAs (settle_cell txn.0 commit) cells.old.entries cells.new.entries }
{
    settle_among(alloc, cells, keys, txn, commit)
}

/// Settles the transaction's intents at the keys, and keeps what this took.
pub(crate) fn settle_keys(
    alloc: Global,
    cells: &mut BTreeMap<Key, Cell>,
    keys: &[Key],
    txn: TxnNo,
    commit: Option<Stamp>,
    undo: &mut Undo,
) -> Result<(), AllocError>
    ensures ok { OnOk result (cells.new.entries ≡ settled_at txn.0 commit keys.now cells.old.entries) }
    ensures back { restored undo.new cells.new.entries ≡ restored undo.old cells.old.entries }
{
    'keys: for key in keys {
        change_kept(alloc, cells, key, Settle { txn, commit }, undo)?;
    }
    Ok(())
}
