//! Which entry makes a descriptor old.
ghost use Rattle.std.specs.Prelude.{◌≡◌, Some, MatchOption, IfSome, nat_eq, option_map};
ghost use Rattle.std.specs.List.{IsDistinct};
ghost use Rattle.std.specs.Map.{keys_of};
ghost use Rattle.ds_cache.specs.Entries.{NoOverlap, IsIndex};
ghost use Rattle.ds_cache.specs.Placing.{AreSpans};
ghost use Rattle.ds_cache.specs.Insert.{newer};
ghost use Rattle.ds_cache.specs.Outdating.{NoneReaches, IsLastReaching};
ghost use Rattle.ds_cache.specs.Uses.{AreRanked, Fall, used_later};

use crate::compare::{end_of, is_newer, start_of};
use crate::nearest::last_before;
use crate::uses::Uses;
use ds_base::{Dir, Key};
use ds_desc::Info;
use lru::LruCache;
use std::collections::BTreeMap;

/// The generation of the first entry in recency that outdates the descriptor.
fn first_newer(recency: &LruCache<u64, Info>, info: &Info) -> Option<u32>
    ensures { result ≡ option_map (λ e. e.1.desc.generation) (newer info.now recency.now.entries) }
{
    'entries: for (_, entry) in recency.iter() {
        if is_newer(info, entry) {
            return Some(entry.desc.generation);
        }
    }
    None
}

/// Of the entries that start below the key, the one with the greatest start, if it reaches above
/// the descriptor's start, and its serial.
fn last_reaching<'a>(
    recency: &'a LruCache<u64, Info>,
    index: &BTreeMap<Key, u64>,
    info: &Info,
    below: &Key,
) -> Option<(u64, &'a Info)>
    requires index { IsIndex recency.now.entries index.now.entries }
    requires apart { NoOverlap recency.now.entries }
    requires spans { AreSpans recency.now.entries }
    ensures { MatchOption result (NoneReaches info.now below.now recency.now.entries) (λ e. IsLastReaching below.now recency.now.entries e.0 e.1.now) }
{
    let Some(last) = last_before(index, below, Dir::Reverse) else {
        return None;
    };
    match recency.peek(&last) {
        Some(entry) => {
            if *start_of(info) < *end_of(entry) {
                Some((last, entry))
            } else {
                None
            }
        }
        None => None,
    }
}

/// The number of its last use and the generation of the one used last, of what was met so far and one
/// more.
fn used_later(so_far: Option<(u64, u32)>, more: (u64, u32)) -> (u64, u32)
    ensures { result ≡ used_later so_far more }
{
    match so_far {
        Some(so_far) => { if so_far.0 < more.0 { more } else { so_far } }
        None => more,
    }
}

/// The generation of the entry used last that outdates the descriptor: it is the first in recency.
/// The index gives the entries that overlap the descriptor, the last first.
fn last_newer(
    recency: &LruCache<u64, Info>,
    index: &BTreeMap<Key, u64>,
    uses: &Uses,
    info: &Info,
) -> Option<u32>
    requires distinct { IsDistinct nat_eq (keys_of recency.now.entries) }
    requires index { IsIndex recency.now.entries index.now.entries }
    requires apart { NoOverlap recency.now.entries }
    requires spans { AreSpans recency.now.entries }
    requires ranked { Fall uses.now.next uses.now.last.entries recency.now.entries }
    ensures { result ≡ option_map (λ e. e.1.desc.generation) (newer info.now recency.now.entries) }
{
    let mut latest = None;
    let mut below = end_of(info);
    'overlapping: while let Some((serial, entry)) = last_reaching(recency, index, info, below) {
        if is_newer(info, entry) {
            let used = uses.last(serial);
            latest = Some(used_later(latest, (used, entry.desc.generation)));
        }
        below = start_of(entry);
    }
    match latest {
        Some((_, generation)) => Some(generation),
        None => None,
    }
}

/// The generation of the first entry in recency that outdates the descriptor. Where the numbers of
/// uses are at their end, the list is gone through.
pub(crate) fn newer_generation(
    recency: &LruCache<u64, Info>,
    index: &BTreeMap<Key, u64>,
    uses: &Uses,
    info: &Info,
) -> Option<u32>
    requires distinct { IsDistinct nat_eq (keys_of recency.now.entries) }
    requires index { IsIndex recency.now.entries index.now.entries }
    requires apart { NoOverlap recency.now.entries }
    requires spans { AreSpans recency.now.entries }
    requires ranked { AreRanked uses.now.next uses.now.last.entries recency.now.entries }
    ensures { result ≡ option_map (λ e. e.1.desc.generation) (newer info.now recency.now.entries) }
{
    if uses.tell() {
        last_newer(recency, index, uses, info)
    } else {
        first_newer(recency, info)
    }
}
