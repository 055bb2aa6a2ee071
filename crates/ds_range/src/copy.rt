//! A copy of a range.
ghost use Rattle.std.specs.Prelude.{◌≡◌, ◌++◌, ◌∷◌, [], IfOk, OnOk};
ghost use Rattle.ds_base.specs.Ordered.{AllBelow};
ghost use Rattle.ds_cell.specs.Ask.{key_of};

use crate::change::ordered;
use crate::state::RangeState;
use ds_base::{Copies, Key};
use ds_cell::Cell;
use std::alloc::{AllocError, Global};
use std::collections::BTreeMap;

/// Adds a cell behind all others.
fn put_last(cells: &mut BTreeMap<Key, Cell>, key: Key, cell: Cell) -> Result<(), AllocError>
    requires { AllBelow key_of key cells.old.entries }
    ensures { OnOk result (cells.new.entries ≡ cells.old.entries ++ (key, cell) ∷ []) }
{
    cells.insert(key, cell)?;
    Ok(())
}

fn copy_cells(alloc: Global, cells: &BTreeMap<Key, Cell>) -> Result<BTreeMap<Key, Cell>, AllocError>
    ensures { IfOk result (λ made. made.entries ≡ cells.now.entries) }
{
    ordered(cells);
    let mut made = BTreeMap::new(alloc);
    'each: for (key, cell) in cells {
        put_last(&mut made, key.copy(alloc)?, cell.copy(alloc)?)?;
    }
    Ok(made)
}

impl Copies for RangeState {
    // at which keys of the copy writes can stand isn't known
    fn copy(&self, alloc: Global) -> Result<RangeState, AllocError> {
        Ok(RangeState {
            info: self.info.copy(alloc)?,
            cells: copy_cells(alloc, &self.cells)?,
            written: None,
        })
    }
}
