//! The rows of a lookup.
ghost use Rattle.std.specs.Prelude.{◌≡◌, ◌<◌, [], Some, length, map, take, IfOk};
ghost use Rattle.std.specs.List.{slice_get};
ghost use Rattle.ds_desc.specs.Contains.{contains};
ghost use Rattle.ds_rule.specs.World.{Tiles, from_first, in_order};

use crate::find::{begun_below, ended_by};
use crate::slot::Slot;
use ds_base::{Copies, Dir, Key};
use ds_desc::Infos;
use std::alloc::{AllocError, Global};

/// The ranges from the one that contains the key on, in the direction: a part of the list.

pub(crate) fn ahead<'a>(ranges: &'a [Slot], key: &Key, dir: Dir) -> &'a [Slot]
    requires { Tiles [] ranges.now }
    ensures { in_order dir result.now ≡ from_first (λ r. contains dir key.now r.info.desc.span) (in_order dir ranges.now) }
{
    key.known();
    match dir {
        Dir::Forward => &ranges[ended_by(ranges, key)..],
        Dir::Reverse => &ranges[..begun_below(ranges, key)],
    }
}

/// The range at a place of the list, counted from 0 in the direction.

fn nth(ranges: &[Slot], dir: Dir, i: usize) -> &Slot
    requires { i < length ranges.now }
    ensures { slice_get (in_order dir ranges.now) i ≡ Some result.now }
{
    match dir {
        Dir::Forward => &ranges[i],
        Dir::Reverse => &ranges[ranges.len() - 1 - i],
    }
}

/// The rows of the first ranges in the direction, at most so many.
pub(crate) fn first_rows(
    alloc: Global,
    ranges: &[Slot],
    dir: Dir,
    most: usize,
) -> Result<Infos, AllocError>
    ensures { IfOk result (λ is. is ≡ map (λ r. r.info) (take most (in_order dir ranges.now))) }
{
    let mut rows = Infos::new(alloc);
    'rows: for i in 0..ranges.len().min(most) {
        rows.push(alloc, nth(ranges, dir, i).info().copy(alloc)?)?;
    }
    Ok(rows)
}
