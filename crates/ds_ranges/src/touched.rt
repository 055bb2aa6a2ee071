//! The ranges that the items of a piece touch.
ghost use Rattle.std.specs.Prelude.{◌≡◌, ◌≤◌, [], not, filter, length, map, take, IfOk};
ghost use Rattle.std.specs.List.Sorted.{IsPartitionedBy};
ghost use Rattle.ds_base.specs.Order.{key_lt};
ghost use Rattle.ds_kind.specs.Request.{span_of};
ghost use Rattle.ds_rule.specs.Deliver.{overlaps};
ghost use Rattle.ds_rule.specs.World.{Tiles, end_of, in_order, start_of};
ghost use Rattle.ds_ranges.specs.Places.{IsPoint};
ghost use Rattle.ds_ranges.specs.Touching.{begins_below, ends_above};

use crate::ranges::Ranges;
use crate::rows::first_rows;
use crate::slot::Slot;
use ds_base::{Dir, Key};
use ds_desc::Infos;
use ds_kind::{Bounds, Item, Items};
use std::alloc::{AllocError, Global};

fn begins_below(item: &Item, key: &Key) -> bool
    ensures { result ≡ key_lt (span_of item.now.request).start key.now }
{
    match item.request.bounds() {
        Bounds::Point(at) => *at < *key,
        Bounds::Between(start, _) => *start < *key,
    }
}

#[tactic(auto, using(crate::proofs::Touching::below_next))]
fn ends_above(item: &Item, key: &Key) -> bool
    ensures { result ≡ key_lt key.now (span_of item.now.request).end }
{
    match item.request.bounds() {
        Bounds::Point(at) => *key <= *at,
        Bounds::Between(_, end) => *key < *end,
    }
}

fn any_begins_below(items: &Items, key: &Key) -> bool
    ensures { result ≡ begins_below items.now key.now }
{
    items.as_slice().iter().any(|item| begins_below(item, key))
}

/// Whether some item ends after the start of the range.
fn reaches(items: &Items, range: &Slot) -> bool
    ensures { result ≡ ends_above items.now (start_of range.now) }
{
    let start = &range.info().desc.span.start;
    items.as_slice().iter().any(|item| ends_above(item, start))
}

/// Whether the range ends before any item begins.
fn ends_before(items: &Items, range: &Slot) -> bool
    ensures { result ≡ not (begins_below items.now (end_of range.now)) }
{
    !any_begins_below(items, &range.info().desc.span.end)
}

/// How many ranges end before any item begins.
fn before(ranges: &[Slot], items: &Items) -> usize
    requires { IsPartitionedBy (λ r. not (begins_below items.now (end_of r))) ranges.now }
    ensures within { result ≤ length ranges.now }
    ensures point { IsPoint (λ r. not (begins_below items.now (end_of r))) ranges.now result }
{
    ranges.partition_point(|range| ends_before(items, range))
}

/// How many ranges start before some item ends.
fn reached(ranges: &[Slot], items: &Items) -> usize
    requires { IsPartitionedBy (λ r. ends_above items.now (start_of r)) ranges.now }
    ensures within { result ≤ length ranges.now }
    ensures point { IsPoint (λ r. ends_above items.now (start_of r)) ranges.now result }
{
    ranges.partition_point(|range| reaches(items, range))
}

/// The ranges that overlap the least span that holds all items: a part of the list.
fn touched<'a>(ranges: &'a [Slot], items: &Items) -> &'a [Slot]
    requires { Tiles [] ranges.now }
    ensures { result.now ≡ filter (overlaps items.now) ranges.now }
{
    let rest = &ranges[before(ranges, items)..];
    &rest[..reached(rest, items)]
}

impl Ranges {
    /// The rows of the ranges that overlap the least span that holds all items, the first eight in the
    /// direction.
    pub fn overlapping(&self, alloc: Global, items: &Items, dir: Dir) -> Result<Infos, AllocError>
        ensures { IfOk result (λ is. is ≡ take 8 (map (λ r. r.info) (filter (overlaps items.now) (in_order dir self.now.ranges)))) }
    {
        first_rows(alloc, touched(self.items.as_slice(), items), dir, 8)
    }
}
