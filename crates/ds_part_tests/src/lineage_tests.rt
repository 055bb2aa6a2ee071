//! Two ranges that are merged and one that is split, walked back on both sides, and each other
//! public call once.
ghost use Rattle.std.specs.Prelude.{◌≡◌, [], ◌∷◌, IfOk};
ghost use Rattle.ds_lineage.specs.Last.{IsLastAt, Follows};

use ds_base::{Key, Span};
use ds_desc::{Nodes, RangeDesc};
use ds_lineage::Lineage;
use std::alloc::Global;
use std::test::Fail;

fn key(alloc: Global, byte: u8) -> Result<Key, &'static str>
    ensures { IfOk result (λ k. k ≡ byte ∷ []) }
{
    Key::new(alloc, &[byte]).map_err(|_| "a key")
}

/// The range of this id from one byte up to another.
fn range(alloc: Global, id: u32, from: u8, to: u8) -> Result<RangeDesc, &'static str>
    ensures { IfOk result (λ d. d.span ≡ record { start = from ∷ []; end = to ∷ [] }) }
{
    let start = key(alloc, from)?;
    let end = key(alloc, to)?;
    Ok(RangeDesc {
        id,
        span: Span::new(start, end).map_err(|_| "a span")?,
        nodes: Nodes::of(alloc, &[1]),
        generation: 1,
    })
}

/// The ranges `[a, c)` and `[c, f)`, merged.
fn merged(alloc: Global) -> Result<Lineage, Fail>
    ensures { IfOk result (λ l. Follows l (record { start = 97 ∷ []; end = 102 ∷ [] }) 2) }
{
    let mut lineage = Lineage::new(alloc);
    lineage.begin(alloc, range(alloc, 1, b'a', b'c')?)?;
    lineage.begin(alloc, range(alloc, 5, b'c', b'f')?)?;
    lineage.join(alloc, range(alloc, 3, b'a', b'f')?, 0, 1)?;
    Ok(lineage)
}

/// The range `[a, f)`, split at c.
fn split(alloc: Global) -> Result<Lineage, Fail>
    ensures { IfOk result (λ l. Follows l (record { start = 97 ∷ []; end = 99 ∷ [] }) 1 × Follows l (record { start = 99 ∷ []; end = 102 ∷ [] }) 2) }
{
    let mut lineage = Lineage::new(alloc);
    lineage.begin(alloc, range(alloc, 1, b'a', b'f')?)?;
    lineage.follow(alloc, range(alloc, 2, b'a', b'c')?, 0)?;
    lineage.follow(alloc, range(alloc, 3, b'c', b'f')?, 0)?;
    Ok(lineage)
}

/// The id of the descriptor, 0 where there is none.
fn id_of(desc: Option<&RangeDesc>) -> u32 {
    match desc {
        Some(desc) => desc.id,
        None => 0,
    }
}

/// The ids of the last three that contain the key of this byte, the last first.
fn ids_back(alloc: Global, lineage: &Lineage, at: usize, byte: u8) -> Result<[u32; 3], Fail>
    requires { IsLastAt lineage.now (byte ∷ []) at }
{
    let key = key(alloc, byte)?;
    Ok([
        id_of(lineage.back(at, &key, 0)),
        id_of(lineage.back(at, &key, 1)),
        id_of(lineage.back(at, &key, 2)),
    ])
}

#[test]
fn merged_ranges_are_walked_back_on_both_sides(rt: HostRuntime) -> Result<(), Fail> {
    let alloc = rt.alloc();
    let lineage = merged(alloc)?;
    assert_eq!(rt; ids_back(alloc, &lineage, 2, b'b')?, [3, 1, 0]);
    assert_eq!(rt; ids_back(alloc, &lineage, 2, b'c')?, [3, 5, 0]);
    Ok(())
}

#[test]
fn both_parts_come_after_the_whole(rt: HostRuntime) -> Result<(), Fail> {
    let alloc = rt.alloc();
    let lineage = split(alloc)?;
    assert_eq!(rt; ids_back(alloc, &lineage, 1, b'b')?, [2, 1, 0]);
    assert_eq!(rt; ids_back(alloc, &lineage, 2, b'c')?, [3, 1, 0]);
    Ok(())
}

#[test]
fn descriptors_stand_in_order(rt: HostRuntime) -> Result<(), Fail> {
    let lineage = merged(rt.alloc())?;
    assert_eq!(rt; lineage.len(), 3);
    assert_eq!(rt; lineage.greatest_id(), 5);
    assert_eq!(rt; id_of(lineage.get(1)), 5);
    assert!(rt; lineage.get(3).is_none());
    Ok(())
}
