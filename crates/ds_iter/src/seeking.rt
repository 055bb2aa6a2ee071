//! Finds the range that contains a key.
ghost use Rattle.std.specs.Prelude.{◌≡◌, ◌≤◌, Some, true, IfOk, OnErr};
ghost use Rattle.ds_desc.specs.Contains.{lies_ahead};
ghost use Rattle.ds_base.specs.Counts.{Rose};
ghost use Rattle.ds_desc.specs.declared.desc.Info.{Info};
ghost use Rattle.ds_cache.specs.Entries.{found, at_serial};
ghost use Rattle.ds_iter.specs.Seek.{SoughtBy, BegunBy, ContainsKey};
ghost use Rattle.ds_iter.specs.declared.sought.Sought.TheVariants.{Found, Lost};

use crate::rows::insert_rows;
use crate::sought::Sought;
use ds_base::{Copies, Dir, Key};
use ds_cache::{RangeCache, Token};
use ds_desc::{Looked, Meta};
use std::alloc::{AllocError, Global};

/// The token's entry, copied.
fn found_entry(alloc: Global, cache: &RangeCache, token: Token) -> Result<Sought, AllocError>
    ensures { (i : Info) → at_serial token cache.now.entries ≡ Some i → IfOk result (λ s. s ≡ Found i token) }
{
    match cache.info(&token) {
        Some(info) => {
            let info = info.copy(alloc)?;
            Ok(Sought::Found { info, token })
        }
        None => Ok(Sought::Lost),
    }
}

/// Finds the range that contains the key in this direction. Some key of the key space must lie
/// there.
///
/// An entry of the cache that contains it is found without a lookup, and comes to the front. Else
/// one lookup is made. Its rows are inserted, the last first, so that the first row, where it goes
/// in, is in front; and that row is found. `Lost` comes exactly where the lookup's answer was lost, and the cache
/// then stays as it was. After want of memory the entry found may be in front, the lookup may have
/// been made, and the last rows may be inserted, from some row on.
pub fn seek<M: Meta>(
    alloc: Global,
    cache: &mut RangeCache,
    meta: &mut M,
    key: &Key,
    dir: Dir,
) -> Result<Sought, AllocError>
    requires { lies_ahead dir key.now ≡ true }
    ensures sought { IfOk result (λ s. SoughtBy M.looked dir key.now (found dir key.now cache.old.entries) cache.old meta.old s cache.new meta.new) }
    ensures begun { OnErr result (BegunBy M.looked dir key.now (found dir key.now cache.old.entries) cache.old meta.old cache.new meta.new) }
    ensures contains { IfOk result (λ s. ContainsKey dir key.now s) }
    ensures rises { M.lost meta.old ≤ M.lost meta.new }
    ensures loses { IfOk result (λ s. s ≡ Lost → Rose (M.lost meta.old) (M.lost meta.new)) }
{
    if let Some(token) = cache.find(key, dir) {
        return found_entry(alloc, cache, token);
    }
    match meta.lookup(alloc, key, dir)? {
        Looked::Rows(rows) => insert_rows(alloc, cache, rows),
        Looked::Lost => Ok(Sought::Lost),
    }
}
