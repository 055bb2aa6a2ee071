//! Seeks over a directory of two ranges, with and without a lookup, and each other public call once.
ghost use Rattle.std.specs.Prelude.{◌≡◌, ◌∷◌, [], true, IfOk};
ghost use Rattle.ds_desc.specs.Contains.{lies_ahead};

use ds_base::{Copies, Dir, Key, Span};
use ds_cache::RangeCache;
use ds_desc::{Info, Infos, Lease, Looked, Meta, Nodes, RangeDesc};
use ds_iter::{Sought, next_key, seek};
use std::alloc::{AllocError, Global};
use std::test::Fail;

/// Answers the rows where the first contains the key, and counts as lost every other lookup.
#[derive(Drop)]
struct Directory {
    rows: Infos,
    lost: u64,
}

impl Meta for Directory {
    ghost looked = { λ old new key dir answer. Unit {0} };

    ghost lost = { λ directory. directory.lost };

    fn lookup(&mut self, alloc: Global, key: &Key, dir: Dir) -> Result<Looked, AllocError> {
        if let Some(first) = self.rows.get(0) {
            if first.desc.contains(key, dir) {
                return Ok(Looked::Rows(self.rows.copy(alloc)?));
            }
        }
        self.lost = self.lost.saturating_add(1);
        Ok(Looked::Lost)
    }
}

fn key(alloc: Global, bytes: &[u8]) -> Result<Key, &'static str>
    ensures { IfOk result (λ k. k ≡ bytes.now) }
{
    Key::new(alloc, bytes).map_err(|_| "a key")
}

fn range(alloc: Global, span: (&[u8], &[u8]), generation: u32) -> Result<Info, &'static str> {
    let start = key(alloc, span.0)?;
    let end = key(alloc, span.1)?;
    Ok(Info {
        desc: RangeDesc {
            id: 1,
            span: Span::new(start, end).map_err(|_| "a span")?,
            nodes: Nodes::of(alloc, &[1]),
            generation,
        },
        lease: Lease { node: 1, number: 1 },
    })
}

/// Two ranges, `[b, d)` and `[d, f)`.
fn two_ranges(alloc: Global) -> Result<Directory, Fail> {
    let mut rows = Infos::new(alloc);
    rows.push(alloc, range(alloc, (b"b", b"d"), 3)?)?;
    rows.push(alloc, range(alloc, (b"d", b"f"), 3)?)?;
    Ok(Directory { rows, lost: 0 })
}

/// The byte at which the range that was found starts, and whether its token names an entry; 0 where
/// the lookup was lost.
fn found(
    alloc: Global,
    cache: &mut RangeCache,
    meta: &mut Directory,
    byte: u8,
    dir: Dir,
) -> Result<(u8, bool), Fail>
    requires { lies_ahead dir (byte ∷ []) ≡ true }
{
    let key = key(alloc, &[byte])?;
    match seek(alloc, cache, meta, &key, dir)? {
        Sought::Found { info, token } => {
            let start = info.desc.span.start.bytes().first().copied().unwrap_or(0);
            Ok((start, cache.info(&token).is_some()))
        }
        Sought::Lost => Ok((0, false)),
    }
}

#[test]
fn a_range_beside_is_found_without_a_lookup(rt: HostRuntime) -> Result<(), Fail> {
    let alloc = rt.alloc();
    let mut cache = RangeCache::new(alloc, 2)?;
    let mut meta = two_ranges(alloc)?;
    assert_eq!(rt;
        found(alloc, &mut cache, &mut meta, b'c', Dir::Forward)?,
        (b'b', true)
    );
    assert_eq!(rt;
        found(alloc, &mut cache, &mut meta, b'd', Dir::Forward)?,
        (b'd', true)
    );
    assert_eq!(rt;
        found(alloc, &mut cache, &mut meta, b'd', Dir::Reverse)?,
        (b'b', true)
    );
    assert_eq!(rt; meta.lost, 0);
    assert_eq!(rt;
        found(alloc, &mut cache, &mut meta, b'a', Dir::Forward)?,
        (0, false)
    );
    assert_eq!(rt; meta.lost, 1);
    Ok(())
}

#[test]
fn of_two_rows_one_place_keeps_the_first(rt: HostRuntime) -> Result<(), Fail> {
    let alloc = rt.alloc();
    let mut cache = RangeCache::new(alloc, 1)?;
    let mut meta = two_ranges(alloc)?;
    assert_eq!(rt;
        found(alloc, &mut cache, &mut meta, b'c', Dir::Forward)?,
        (b'b', true)
    );
    assert_eq!(rt;
        found(alloc, &mut cache, &mut meta, b'c', Dir::Reverse)?,
        (b'b', true)
    );
    assert_eq!(rt;
        found(alloc, &mut cache, &mut meta, b'd', Dir::Forward)?,
        (0, false)
    );
    Ok(())
}

#[test]
fn an_older_first_row_is_found_with_a_token_of_no_entry(rt: HostRuntime) -> Result<(), Fail> {
    let alloc = rt.alloc();
    let mut cache = RangeCache::new(alloc, 4)?;
    let mut meta = two_ranges(alloc)?;
    cache.insert(alloc, range(alloc, (b"c", b"d"), 4)?)?;
    assert_eq!(rt;
        found(alloc, &mut cache, &mut meta, b'b', Dir::Forward)?,
        (b'b', false)
    );
    Ok(())
}

#[test]
fn the_next_range_begins_where_one_ends(rt: HostRuntime) -> Result<(), Fail> {
    let alloc = rt.alloc();
    let info = range(alloc, (b"", b"d"), 1)?;
    assert!(rt; next_key(&info, Dir::Forward) == Some(&info.desc.span.end));
    assert!(rt; next_key(&info, Dir::Reverse).is_none());
    Ok(())
}
