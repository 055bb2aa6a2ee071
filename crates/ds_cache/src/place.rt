//! A new entry placed, and what overlaps it taken out.
ghost use Rattle.std.specs.Prelude.{◌≡◌, ◌∷◌, ◌+◌, IfOk, ◌≤◌, ◌<◌, Some, None, OnOk, OnErr, MatchOption, length, take, nat_eq};
ghost use Rattle.std.specs.List.{IsDistinct};
ghost use Rattle.std.specs.Map.{keys_of, lookup};
ghost use Rattle.ds_cache.specs.Entries.{at_serial, without, IsIndex};
ghost use Rattle.ds_cache.specs.Placing.{OthersApart, AreSpans, IsBeside, IsAlone, spared, IsPlaced, Reindexed};
ghost use Rattle.ds_cache.specs.Uses.{AreRanked};
ghost use Rattle.std.specs.BTreeMap.{is_at};
ghost use Rattle.ds_base.specs.Order.{key_cmp};
ghost use Rattle.ds_desc.specs.declared.desc.Info.{Info};

use crate::compare::{end_of, start_of};
use crate::nearest::last_before;
use crate::taken::take_out;
use crate::uses::Uses;
use ds_base::{Copies, Dir, Key};
use ds_desc::Info;
use lru::LruCache;
use std::alloc::{AllocError, Global};
use std::collections::BTreeMap;
use std::collections::btree_map::Entry;

/// Another entry that overlaps the one of this serial.
fn beside(recency: &LruCache<u64, Info>, index: &BTreeMap<Key, u64>, serial: u64) -> Option<u64>
    requires index { IsIndex recency.now.entries index.now.entries }
    requires apart { OthersApart serial recency.now.entries }
    requires spans { AreSpans recency.now.entries }
    ensures { MatchOption result (IsAlone serial recency.now.entries) (IsBeside serial recency.now.entries) }
{
    let Some(info) = recency.peek(&serial) else {
        return None;
    };
    let Some(last) = last_before(index, end_of(info), Dir::Reverse) else {
        return None;
    };
    if last != serial {
        return Some(last);
    }
    let Some(lower) = last_before(index, start_of(info), Dir::Reverse) else {
        return None;
    };
    match recency.peek(&lower) {
        Some(entry) => {
            if *start_of(info) < *end_of(entry) {
                Some(lower)
            } else {
                None
            }
        }
        None => None,
    }
}

/// Takes out all other entries that overlap the one of this serial.
pub(crate) fn clear_beside(
    recency: &mut LruCache<u64, Info>,
    index: &mut BTreeMap<Key, u64>,
    uses: &mut Uses,
    serial: u64,
)
    requires distinct { IsDistinct nat_eq (keys_of recency.old.entries) }
    requires index { IsIndex recency.old.entries index.old.entries }
    requires apart { OthersApart serial recency.old.entries }
    requires spans { AreSpans recency.old.entries }
    requires ranked { AreRanked uses.old.next uses.old.last.entries recency.old.entries }
    ensures entries { (i : Info) → at_serial serial recency.old.entries ≡ Some i → recency.new.entries ≡ spared serial i recency.old.entries }
    ensures capacity { recency.new.cap ≡ recency.old.cap }
    ensures index { IsIndex recency.new.entries index.new.entries }
    ensures ranked { AreRanked uses.new.next uses.new.last.entries recency.new.entries }
{
    'others: while let Some(other) = beside(recency, index, serial) {
        take_out(recency, index, uses, other);
    }
}

/// Takes the last entry out where there is one more than the capacity.
pub(crate) fn trim(
    recency: &mut LruCache<u64, Info>,
    index: &mut BTreeMap<Key, u64>,
    uses: &mut Uses,
    capacity: u32,
)
    requires distinct { IsDistinct nat_eq (keys_of recency.old.entries) }
    requires index { IsIndex recency.old.entries index.old.entries }
    requires room { length recency.old.entries ≤ capacity + 1 }
    requires ranked { AreRanked uses.old.next uses.old.last.entries recency.old.entries }
    ensures entries { recency.new.entries ≡ take capacity recency.old.entries }
    ensures capacity { recency.new.cap ≡ recency.old.cap }
    ensures index { IsIndex recency.new.entries index.new.entries }
    ensures ranked { AreRanked uses.new.next uses.new.last.entries recency.new.entries }
{
    if recency.len() <= capacity as usize {
        return;
    }
    let last = match recency.peek_lru() {
        Some((last, _)) => *last,
        None => return,
    };
    take_out(recency, index, uses, last);
}

/// Puts the entry in front, and gives its serial.
fn put_entry(recency: &mut LruCache<u64, Info>, serial: u64, info: Info) -> Result<u64, AllocError>
    requires fresh { at_serial serial recency.old.entries ≡ None }
    requires room { length recency.old.entries < recency.old.cap }
    ensures ok { OnOk result (recency.new.entries ≡ (serial, info) ∷ recency.old.entries) }
    ensures serial { IfOk result (λ s. s ≡ serial) }
    ensures capacity { recency.new.cap ≡ recency.old.cap }
    ensures err { OnErr result (recency.new.entries ≡ recency.old.entries) }
{
    recency.put(serial, info)?;
    Ok(serial)
}

/// Puts the entry in front and its start into the index, and gives the serial that stood under the
/// start. The index takes its memory first, then the list takes its own, and only then do the two
/// change: want of memory finds both as they were.
fn put_both(
    recency: &mut LruCache<u64, Info>,
    index: &mut BTreeMap<Key, u64>,
    start: Key,
    serial: u64,
    info: Info,
) -> Result<Option<u64>, AllocError>
    requires fresh { at_serial serial recency.old.entries ≡ None }
    requires room { length recency.old.entries < recency.old.cap }
    ensures old { IfOk result (λ old. old ≡ lookup (is_at (key_cmp start)) index.old.entries) }
    ensures index { OnOk result (Reindexed start serial index.old.entries index.new.entries) }
    ensures entries { OnOk result (recency.new.entries ≡ (serial, info) ∷ recency.old.entries) }
    ensures capacity { recency.new.cap ≡ recency.old.cap }
    ensures index_kept { OnErr result (index.new.entries ≡ index.old.entries) }
    ensures recency_kept { OnErr result (recency.new.entries ≡ recency.old.entries) }
{
    match index.entry(start)? {
        Entry::Vacant(free) => {
            let put = put_entry(recency, serial, info);
            Entry::Vacant(free).or_try_insert_with(move || put)?;
            return Ok(None);
        }
        Entry::Occupied(mut taken) => {
            put_entry(recency, serial, info)?;
            let old = taken.insert(serial);
            return Ok(Some(old));
        }
    }
}

/// Takes the entry of this serial out of the recency list alone.
fn take_entry(recency: &mut LruCache<u64, Info>, serial: u64)
    ensures entries { recency.new.entries ≡ without serial recency.old.entries }
    ensures capacity { recency.new.cap ≡ recency.old.cap }
{
    recency.pop(&serial);
}

/// Puts the entry in front, its start into the index, and the number of its first use. Want of memory
/// comes before the entries and the index change; a number may be left for the serial, which isn't
/// given yet, and the next entry takes it over.
pub(crate) fn place(
    alloc: Global,
    recency: &mut LruCache<u64, Info>,
    index: &mut BTreeMap<Key, u64>,
    uses: &mut Uses,
    serial: u64,
    info: Info,
) -> Result<(), AllocError>
    requires distinct { IsDistinct nat_eq (keys_of recency.old.entries) }
    requires index { IsIndex recency.old.entries index.old.entries }
    requires spans { AreSpans recency.old.entries }
    requires fresh { at_serial serial recency.old.entries ≡ None }
    requires room { length recency.old.entries < recency.old.cap }
    requires ranked { AreRanked uses.old.next uses.old.last.entries recency.old.entries }
    ensures ok { OnOk result (IsPlaced serial info recency.old.entries recency.new.entries) }
    ensures index { OnOk result (IsIndex recency.new.entries index.new.entries) }
    ensures capacity { recency.new.cap ≡ recency.old.cap }
    ensures recency_kept { OnErr result (recency.new.entries ≡ recency.old.entries) }
    ensures index_kept { OnErr result (index.new.entries ≡ index.old.entries) }
    ensures ranked { AreRanked uses.new.next uses.new.last.entries recency.new.entries }
{
    let _above = end_of(&info);
    let start = start_of(&info).copy(alloc)?;
    uses.begin(serial)?;
    match put_both(recency, index, start, serial, info)? {
        Some(old) => {
            take_entry(recency, old);
            uses.end(old);
            return Ok(());
        }
        None => return Ok(()),
    }
}
