//! What insertions do to small caches, and each other public call once.
use ds_base::{Dir, Key, Span};
use ds_cache::{Inserted, RangeCache, Token};
use ds_desc::{Info, Infos, Lease, Nodes, RangeDesc};
use std::alloc::Global;
use std::test::Fail;

fn key(alloc: Global, byte: u8) -> Result<Key, &'static str> {
    Key::new(alloc, &[byte]).map_err(|_| "a key")
}

fn range(
    alloc: Global,
    span: (u8, u8),
    generation: u32,
    number: u32,
) -> Result<Info, &'static str> {
    let start = key(alloc, span.0)?;
    let end = key(alloc, span.1)?;
    Ok(Info {
        desc: RangeDesc {
            id: 1,
            span: Span::new(start, end).map_err(|_| "a span")?,
            nodes: Nodes::of(alloc, &[1]),
            generation,
        },
        lease: Lease { node: 1, number },
    })
}

/// Inserts the range from one byte up to another, of this generation and number of its lease.
fn put(
    alloc: Global,
    cache: &mut RangeCache,
    span: (u8, u8),
    generation: u32,
    number: u32,
) -> Result<(Inserted, Token), &'static str> {
    let info = range(alloc, span, generation, number)?;
    cache.insert(alloc, info).map_err(|_| "memory")
}

/// Whether the entries, the most recently used first, start with these bytes.
fn start_with(cache: &RangeCache, starts: &[u8]) -> bool {
    let mut left = starts;
    for (_, info) in cache.recency().iter() {
        match left.split_first() {
            Some((byte, more)) if info.desc.span.start.bytes() == [*byte].as_slice() => left = more,
            _ => return false,
        }
    }
    left.is_empty()
}

#[test]
fn a_newer_range_takes_the_place_of_two(rt: HostRuntime) -> Result<(), Fail> {
    let alloc = rt.alloc();
    let mut cache = RangeCache::new(alloc, 2)?;
    let (_, first) = put(alloc, &mut cache, (b'a', b'c'), 1, 1)?;
    let (_, second) = put(alloc, &mut cache, (b'c', b'f'), 1, 1)?;
    assert_eq!(rt;
        put(alloc, &mut cache, (b'b', b'd'), 2, 1)?.0,
        Inserted::Added
    );
    assert!(rt; start_with(&cache, b"b") && cache.recency().len() == 1);
    assert!(rt; !cache.evict(first) && !cache.evict(second));
    Ok(())
}

/// A cache of two places after two neighbours, and a newer range that took the place of both.
fn two_then_a_newer(alloc: Global) -> Result<(RangeCache, Token), &'static str> {
    let mut cache = RangeCache::new(alloc, 2).map_err(|_| "memory")?;
    put(alloc, &mut cache, (b'a', b'c'), 1, 1)?;
    put(alloc, &mut cache, (b'c', b'f'), 1, 1)?;
    let (_, token) = put(alloc, &mut cache, (b'b', b'd'), 2, 1)?;
    Ok((cache, token))
}

#[test]
fn an_equal_generation_is_newer_and_the_same_descriptor_renews(
    rt: HostRuntime,
) -> Result<(), Fail> {
    let alloc = rt.alloc();
    let (mut cache, token) = two_then_a_newer(alloc)?;
    let (older, none) = put(alloc, &mut cache, (b'a', b'c'), 2, 1)?;
    assert_eq!(rt; older, Inserted::Older { by: 2 });
    assert_eq!(rt;
        put(alloc, &mut cache, (b'b', b'd'), 2, 4)?.0,
        Inserted::Renewed
    );
    assert!(rt; !cache.evict(none));
    assert_eq!(rt; cache.info(&token).map(|info| info.lease.number), Some(4));
    Ok(())
}

#[test]
fn of_two_the_last_used_is_named(rt: HostRuntime) -> Result<(), Fail> {
    let alloc = rt.alloc();
    let mut cache = RangeCache::new(alloc, 2)?;
    put(alloc, &mut cache, (b'a', b'c'), 7, 1)?;
    put(alloc, &mut cache, (b'c', b'f'), 5, 1)?;
    assert_eq!(rt;
        put(alloc, &mut cache, (b'b', b'd'), 3, 1)?.0,
        Inserted::Older { by: 5 }
    );
    assert!(rt; cache.find(&key(alloc, b'a')?, Dir::Forward).is_some());
    assert_eq!(rt;
        put(alloc, &mut cache, (b'b', b'd'), 3, 1)?.0,
        Inserted::Older { by: 7 }
    );
    Ok(())
}

#[test]
fn one_place_holds_the_last(rt: HostRuntime) -> Result<(), Fail> {
    let alloc = rt.alloc();
    let mut cache = RangeCache::new(alloc, 1)?;
    put(alloc, &mut cache, (b'a', b'c'), 1, 1)?;
    put(alloc, &mut cache, (b'c', b'f'), 1, 1)?;
    assert!(rt; start_with(&cache, b"c"));
    assert!(rt; cache.find(&key(alloc, b'c')?, Dir::Reverse).is_none());
    Ok(())
}

#[test]
fn a_found_entry_comes_to_the_front(rt: HostRuntime) -> Result<(), Fail> {
    let alloc = rt.alloc();
    let mut cache = RangeCache::new(alloc, 3)?;
    put(alloc, &mut cache, (b'a', b'b'), 1, 1)?;
    put(alloc, &mut cache, (b'b', b'c'), 1, 1)?;
    put(alloc, &mut cache, (b'c', b'd'), 1, 1)?;
    assert!(rt; cache.find(&key(alloc, b'a')?, Dir::Forward).is_some());
    put(alloc, &mut cache, (b'd', b'e'), 1, 1)?;
    assert!(rt; start_with(&cache, b"dac"));
    Ok(())
}

#[test]
fn rows_take_the_place_of_an_entry(rt: HostRuntime) -> Result<(), Fail> {
    let alloc = rt.alloc();
    let mut cache = RangeCache::new(alloc, 3)?;
    let (_, token) = put(alloc, &mut cache, (b'a', b'c'), 1, 1)?;
    assert!(rt; cache.update_lease(&token, Lease { node: 1, number: 2 }));
    let mut rows = Infos::new(alloc);
    rows.push(alloc, range(alloc, (b'a', b'b'), 2, 1)?)?;
    rows.push(alloc, range(alloc, (b'b', b'c'), 2, 1)?)?;
    assert!(rt; cache.replace(alloc, token, &rows)?);
    assert!(rt; start_with(&cache, b"ab") && cache.index().len() == 2);
    Ok(())
}
