//! The rows of a lookup, inserted into a cache.
ghost use Rattle.std.specs.Prelude.{◌≡◌, ◌<◌, length, IfOk, OnOk, OnErr};
ghost use Rattle.ds_cache.specs.Insert.{put_all, PutFrom};
ghost use Rattle.ds_iter.specs.Seek.{first_row};

use crate::sought::Sought;
use ds_base::Copies;
use ds_cache::RangeCache;
use ds_desc::Infos;
use std::alloc::{AllocError, Global};

/// Inserts the rows, the last first, and finds the first one. After want of memory the last rows
/// are inserted, from some row on.
pub(crate) fn insert_rows(
    alloc: Global,
    cache: &mut RangeCache,
    rows: Infos,
) -> Result<Sought, AllocError>
    requires { 0 < length rows }
    ensures first { IfOk result (λ s. s ≡ first_row rows cache.old) }
    ensures ok { OnOk result (cache.new ≡ put_all rows cache.old) }
    ensures err { OnErr result (PutFrom rows cache.old cache.new) }
{
    let mut rows = rows.into_vec();
    'rows: while rows.len() > 1 {
        let Some(row) = rows.pop() else {
            unreachable!()
        };
        cache.insert(alloc, row)?;
    }
    let Some(first) = rows.pop() else {
        unreachable!()
    };
    let info = first.copy(alloc)?;
    let (_, token) = cache.insert(alloc, first)?;
    Ok(Sought::Found { info, token })
}
