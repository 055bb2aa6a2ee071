//! The contents of two neighbours in one map.
ghost use Rattle.std.specs.Prelude.{◌≡◌, ◌++◌, true, None, Some, is_some, OnOk, OnErr};
ghost use Rattle.ds_base.specs.Ordered.{Ascends};
ghost use Rattle.ds_cell.specs.Ask.{key_of};
ghost use Rattle.ds_cell.specs.Content.{no_content};
ghost use Rattle.ds_range.specs.Joins.{found, ChangedAt, Apart, Among, SameBeside, HoldsBoth};

use crate::change::ordered;
use ds_base::{Copies, Key};
use ds_cell::Cell;
use std::alloc::{AllocError, Global};
use std::collections::BTreeMap;

/// Begins an empty cell at a key. Want of memory leaves the contents as they were.
fn begin_at(alloc: Global, cells: &mut BTreeMap<Key, Cell>, key: &Key) -> Result<(), AllocError>
    ensures ok { OnOk result (ChangedAt key.now (Some no_content) cells.old.entries cells.new.entries) }
    ensures err { OnErr result (cells.new.entries ≡ cells.old.entries) }
{
    cells.insert(key.copy(alloc)?, Cell::new(alloc))?;
    Ok(())
}

/// Removes a key with its cell.
fn end_at(cells: &mut BTreeMap<Key, Cell>, key: &Key)
    ensures { ChangedAt key.now None cells.old.entries cells.new.entries }
{
    cells.remove(key);
}

/// Puts a cell in the place of the one at its key. It takes no memory.
fn put_at(cells: &mut BTreeMap<Key, Cell>, key: &Key, cell: Cell)
    requires { is_some (found key.now cells.old.entries) ≡ true }
    ensures { ChangedAt key.now (Some cell) cells.old.entries cells.new.entries }
{
    if let Some(place) = cells.get_mut(key) {
        *place = cell;
    }
}

/// Begins an empty cell at each key of the other map. After want of memory some may be begun.
fn begin_each(
    alloc: Global,
    to: &mut BTreeMap<Key, Cell>,
    from: &BTreeMap<Key, Cell>,
) -> Result<(), AllocError>
    ensures begun { OnOk result (Among from.now.entries to.new.entries) }
    ensures beside { SameBeside from.now.entries to.new.entries to.old.entries }
{
    'from: for (key, _) in from {
        begin_at(alloc, to, key)?;
    }
    Ok(())
}

/// Removes each key of the other map.
fn end_each(to: &mut BTreeMap<Key, Cell>, from: &BTreeMap<Key, Cell>)
    ensures apart { Apart from.now.entries to.new.entries }
    ensures beside { SameBeside from.now.entries to.new.entries to.old.entries }
{
    'from: for (key, _) in from {
        end_at(to, key);
    }
}

/// Moves each cell of the other map to its key, where one stands already. It takes no memory.
fn move_each(to: &mut BTreeMap<Key, Cell>, from: &mut BTreeMap<Key, Cell>)
    requires { Among from.old.entries to.old.entries }
    ensures { HoldsBoth from.old.entries to.old.entries to.new.entries }
{
    'from: while let Some((key, cell)) = from.pop_first() {
        put_at(to, &key, cell);
    }
}

/// Moves the cells of the other map here. Want of memory leaves both as they were.
fn move_cells(
    alloc: Global,
    to: &mut BTreeMap<Key, Cell>,
    from: &mut BTreeMap<Key, Cell>,
) -> Result<(), AllocError>
    requires { Apart from.old.entries to.old.entries }
    ensures ok { OnOk result (HoldsBoth from.old.entries to.old.entries to.new.entries) }
    ensures ordered { Ascends key_of to.new.entries }
    ensures err { OnErr result (to.new.entries ≡ to.old.entries) }
    ensures back { OnErr result (from.new.entries ≡ from.old.entries) }
{
    ordered(to);
    match begin_each(alloc, to, from) {
        Ok(()) => {
            move_each(to, from);
            ordered(to);
            Ok(())
        }
        Err(err) => {
            end_each(to, from);
            ordered(to);
            Err(err)
        }
    }
}

/// Moves the cells of the right map behind those of the left: only the cells of the smaller one are
/// moved. Want of memory leaves both as they were.
pub(crate) fn join_cells(
    alloc: Global,
    left: &mut BTreeMap<Key, Cell>,
    right: &mut BTreeMap<Key, Cell>,
) -> Result<(), AllocError>
    requires { Ascends key_of (left.old.entries ++ right.old.entries) }
    ensures ok { OnOk result (left.new.entries ≡ left.old.entries ++ right.old.entries) }
    ensures err { OnErr result (left.new.entries ≡ left.old.entries) }
    ensures back { OnErr result (right.new.entries ≡ right.old.entries) }
{
    if left.len() < right.len() {
        move_cells(alloc, right, left)?;
        std::mem::swap(left, right);
        return Ok(());
    }
    move_cells(alloc, left, right)?;
    Ok(())
}
