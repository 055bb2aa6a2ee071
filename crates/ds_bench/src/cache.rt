//! A cache in use.
ghost use Rattle.std.specs.Prelude.{◌<◌, ◌≤◌, ◌^◌, ◌*◌};

use crate::numbers::Numbers;
use ds_base::{Dir, Key, KeyFault, Span};
use ds_cache::{Inserted, RangeCache};
use ds_desc::{Info, Lease, Nodes, RangeDesc};
use std::alloc::{AllocError, Global};

const PLACES: u32 = 1 << 20;

fn key(alloc: Global, number: u32) -> Result<Key, AllocError> {
    match Key::new(alloc, &number.to_be_bytes()) {
        Ok(key) => Ok(key),
        Err(KeyFault::Memory(err)) => Err(err),
        Err(_) => Ok(Key::least(alloc)),
    }
}

/// The range of some neighbouring keys; `None` where they are too many.
fn range(
    alloc: Global,
    first: u32,
    count: u32,
    generation: u32,
) -> Result<Option<Info>, AllocError> {
    let start = key(alloc, first)?;
    let end = key(alloc, first.saturating_add(count))?;
    let Ok(span) = Span::new(start, end) else {
        return Ok(None);
    };
    Ok(Some(Info {
        desc: RangeDesc {
            id: first,
            span,
            nodes: Nodes::of(alloc, &[1, 2, 3]),
            generation,
        },
        lease: Lease { node: 1, number: 1 },
    }))
}

/// Inserts the range, and gives a number for what was answered.
fn insert(
    alloc: Global,
    cache: &mut RangeCache,
    first: u32,
    count: u32,
    generation: u32,
) -> Result<u64, AllocError> {
    let Some(info) = range(alloc, first, count, generation)? else {
        return Ok(0);
    };
    let (inserted, _) = cache.insert(alloc, info)?;
    Ok(match inserted {
        Inserted::Older { by } => 10 + by as u64,
        Inserted::Renewed => 1,
        Inserted::Added => 2,
        Inserted::Spent => 3,
    })
}

/// One call: of eight, four find an entry, three insert a range, and one evicts what it finds. One
/// range in eight is twice as wide, and one in eight is older than all others.
fn one_call(
    alloc: Global,
    cache: &mut RangeCache,
    numbers: &mut Numbers,
    at: u32,
    call: u32,
) -> Result<u64, AllocError> {
    let sort = numbers.below(8);
    if sort < 3 {
        let width = numbers.below(8);
        let count = if width == 1 { 2 } else { 1 };
        let generation = if width == 0 { 0 } else { call };
        return insert(alloc, cache, at, count, generation);
    }
    let key = key(alloc, at)?;
    let Some(token) = cache.find(&key, Dir::Forward) else {
        return Ok(4);
    };
    if sort == 3 {
        return Ok(5 + cache.evict(token) as u64);
    }
    match cache.info(&token) {
        Some(info) => Ok(info.desc.id as u64),
        None => Ok(7),
    }
}

/// The key of the next call: the one after the last call's, or another one at random.
fn next_place(numbers: &mut Numbers, keys: u32, last: u32, walks: bool) -> u32
    requires { 0 < keys }
{
    if walks {
        last.saturating_add(1) % keys
    } else {
        numbers.below(keys)
    }
}

/// Fills a cache of this size, at least 1 and at most 2^20, makes some calls of it, and gives a
/// number that depends on each answer. So many calls one after another go from key to key, as the
/// pieces of a scan do; then another place is drawn.
pub(crate) fn cache_calls(
    alloc: Global,
    size: u32,
    calls: u32,
    together: u32,
) -> Result<u64, AllocError>
    requires { 0 < together }
{
    let size = size.max(1).min(PLACES);
    let mut cache = RangeCache::new(alloc, size)?;
    for first in 0..size {
        insert(alloc, &mut cache, first, 1, 1)?;
    }
    let mut numbers = Numbers::new();
    let mut at = 0;
    let mut sum = 0;
    for call in 0..calls {
        at = next_place(&mut numbers, 2 * size, at, call % together != 0);
        let answer = one_call(alloc, &mut cache, &mut numbers, at, call)?;
        sum = (sum % (1 << 32) * 31 + answer % (1 << 32)) % (1 << 32);
    }
    Ok(sum)
}
