//! The ranges that a cluster begins with.
ghost use Rattle.std.specs.Prelude.{◌≡◌, ◌<◌, ◌-◌, ◌^◌, [], ◌∷◌, true, length, IfOk};
ghost use Rattle.std.specs.List.{list_all, range_with_len};
ghost use Rattle.ds_base.specs.Order.{key_lt};
ghost use Rattle.ds_rule.specs.Begin.{is_leased, next_start, range_of, ranges_of, rises, tiles};
ghost use Rattle.ds_rule.specs.World.{Tiles};
ghost use Rattle.ds_ranges.specs.Layout.{own_descs};

use crate::slot::Slot;
use ds_base::{Copies, Key, Span};
use ds_desc::{Info, Lease, RangeDesc};
use ds_lineage::Lineage;
use ds_range::RangeState;
use ds_rule::ClusterRange;
use std::alloc::{AllocError, Global};

/// The start of the first of these ranges; the bound where there is none.
fn next_start(alloc: Global, ranges: &[ClusterRange]) -> Result<Key, AllocError>
    ensures { IfOk result (λ k. k ≡ next_start ranges.now) }
{
    match ranges {
        [first, ..] => first.start.copy(alloc),
        [] => Key::bound(alloc),
    }
}

/// Whether the range starts below the start of the first of those after it.
fn starts_below(range: &ClusterRange, rest: &[ClusterRange]) -> bool
    ensures { result ≡ key_lt range.now.start (next_start rest.now) }
{
    match rest {
        [first, ..] => range.start < first.start,
        [] => range.start.is_below_bound(),
    }
}

/// Whether these ranges begin at the least key and tile the keys up to the bound.
pub fn tiles(ranges: &[ClusterRange]) -> bool
    ensures { result ≡ tiles ranges.now }
{
    match ranges {
        [first, ..] => first.start.bytes().is_empty() && rises(ranges),
        [] => false,
    }
}

fn rises(ranges: &[ClusterRange]) -> bool
    ensures { result ≡ rises ranges.now }
{
    for i in 0..ranges.len() {
        if !starts_below(&ranges[i], &ranges[i + 1..]) {
            return false;
        }
    }
    true
}

/// Whether the lease of each of these ranges is with a node that has a replica.
pub fn are_leased(ranges: &[ClusterRange]) -> bool
    ensures { result ≡ list_all is_leased ranges.now }
{
    ranges.iter().all(|range| range.nodes.contains(range.lease))
}

/// A range as it begins: generation 1, lease number 1, and nothing in it.
fn first_range(alloc: Global, id: u32, range: &ClusterRange, end: Key) -> Result<Slot, AllocError>
    requires { key_lt range.now.start end ≡ true }
    ensures { IfOk result (λ r. r ≡ range_of id range.now end) }
{
    let desc = RangeDesc {
        id,
        span: Span {
            start: range.start.copy(alloc)?,
            end,
        },
        nodes: range.nodes.copy(alloc)?,
        generation: 1,
    };
    let lease = Lease {
        node: range.lease,
        number: 1,
    };
    Slot::new(alloc, RangeState::new(alloc, Info { desc, lease }))
}

/// The ranges with ids from 1, in order.
pub(crate) fn first_ranges(alloc: Global, ranges: &[ClusterRange]) -> Result<Vec<Slot>, AllocError>
    requires tiled { rises ranges.now ≡ true }
    requires few { length ranges.now < 2 ^ 32 - 1 }
    ensures { IfOk result (λ made. made.items ≡ ranges_of 1 ranges.now) }
{
    let mut made = Vec::with_capacity(alloc, ranges.len())?;
    let mut id = 1;
    'each: for i in 0..ranges.len() {
        let end = next_start(alloc, &ranges[i + 1..])?;
        made.push(first_range(alloc, id, &ranges[i], end)?)?;
        id += 1;
    }
    Ok(made)
}

/// The descriptors of ranges that tile the keys, each as one of the first.
pub(crate) fn first_lineage(alloc: Global, ranges: &[Slot]) -> Result<Lineage, AllocError>
    requires { Tiles [] ranges.now }
    ensures { IfOk result (λ l. l ≡ own_descs ranges.now) }
{
    let mut lineage = Lineage::new(alloc);
    'each: for i in 0..ranges.len() {
        let desc = ranges[i].info().desc.copy(alloc)?;
        lineage.begin(alloc, desc)?;
    }
    Ok(lineage)
}

/// The places from 0 on, under ids from 1 on; under the id 0 stands one that none reads.
pub(crate) fn first_places(alloc: Global, count: usize) -> Result<Vec<usize>, AllocError>
    requires { count < 2 ^ 32 }
    ensures { IfOk result (λ p. p.items ≡ 0 ∷ range_with_len 0 count) }
{
    let mut places = Vec::new(alloc);
    places.push(0)?;
    'each: for place in 0..count {
        places.push(place)?;
    }
    Ok(places)
}
