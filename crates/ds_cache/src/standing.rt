//! The entry that stands already, and its lease.
ghost use Rattle.std.specs.Prelude.{◌≡◌, ◌∷◌, Some, None, MatchOption, nat_eq};
ghost use Rattle.std.specs.List.{IsDistinct};
ghost use Rattle.std.specs.Map.{keys_of};
ghost use Rattle.ds_desc.specs.declared.desc.Info.{Info};
ghost use Rattle.ds_cache.specs.Entries.{at_serial, without, IsIndex};
ghost use Rattle.ds_cache.specs.Insert.{standing, later, with_lease, leased, is_later_than};
ghost use Rattle.ds_cache.specs.Placing.{IsStanding};

use crate::compare::{is_same, start_of};
use ds_base::Key;
use ds_desc::{Info, Lease};
use lru::LruCache;
use std::collections::BTreeMap;

/// The serial of the entry with the same descriptor.
pub(crate) fn standing_at(
    recency: &LruCache<u64, Info>,
    index: &BTreeMap<Key, u64>,
    info: &Info,
) -> Option<u64>
    requires distinct { IsDistinct nat_eq (keys_of recency.now.entries) }
    requires index { IsIndex recency.now.entries index.now.entries }
    ensures { MatchOption result (standing info.now recency.now.entries ≡ None) (IsStanding info.now recency.now.entries) }
{
    let Some(serial) = index.get(start_of(info)) else {
        return None;
    };
    match recency.peek(serial) {
        Some(entry) => {
            if is_same(&info.desc, &entry.desc) {
                Some(*serial)
            } else {
                None
            }
        }
        None => None,
    }
}

/// Gives the entry of this serial the later of its own lease and this one, and brings it to the
/// front.
pub(crate) fn renew(recency: &mut LruCache<u64, Info>, serial: u64, lease: Lease)
    ensures entries { (e : Info) → at_serial serial recency.old.entries ≡ Some e → recency.new.entries ≡ (serial, with_lease (later e.lease lease) e) ∷ without serial recency.old.entries }
    ensures capacity { recency.new.cap ≡ recency.old.cap }
{
    if let Some(entry) = recency.get_mut(&serial) {
        if entry.lease.number < lease.number {
            entry.lease = lease;
        }
    }
}

/// Gives the entry of this serial the lease, in its place, if it stands and the lease is later; and
/// says whether it did.
pub(crate) fn lease_entry(recency: &mut LruCache<u64, Info>, serial: u64, lease: Lease) -> bool
    ensures later { result ≡ is_later_than lease (at_serial serial recency.old.entries) }
    ensures entries { recency.new.entries ≡ leased serial lease recency.old.entries }
    ensures capacity { recency.new.cap ≡ recency.old.cap }
{
    let Some(entry) = recency.peek_mut(&serial) else {
        return false;
    };
    if entry.lease.number < lease.number {
        entry.lease = lease;
        return true;
    }
    false
}
