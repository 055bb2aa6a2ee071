//! The descriptors of ranges that change, behind all descriptors so far.
ghost use Rattle.std.specs.Prelude.{◌≡◌, ◌<◌, ◌++◌, ◌∷◌, [], suc, true, Some, length, OnOk, OnErr, IfOk};
ghost use Rattle.std.specs.List.{slice_get, slice_set};
ghost use Rattle.ds_base.specs.Order.{key_lt};
ghost use Rattle.ds_lineage.specs.Last.{IsNewestAt};
ghost use Rattle.ds_rule.specs.Shifts.{can_join, can_move, joined, left_part, right_part, with_nodes};
ghost use Rattle.ds_rule.specs.World.{Range, end_of, start_of};
ghost use Rattle.ds_ranges.specs.Sound.{IsSound};

use crate::slot::Slot;
use ds_base::{Copies, Key, Span};
use ds_desc::{Nodes, RangeDesc};
use ds_lineage::Lineage;
use std::alloc::{AllocError, Global};

/// The range at the place.
pub(crate) fn range_at(ranges: &[Slot], at: usize) -> &Slot
    requires { at < length ranges.now }
    ensures { slice_get ranges.now at ≡ Some result.now }
{
    &ranges[at]
}

pub(crate) fn id_of(range: &Slot) -> u32
    ensures { result ≡ range.now.info.desc.id }
{
    range.info().desc.id
}

/// The place that is noted of the id.
pub(crate) fn noted(places: &[usize], id: u32) -> usize
    requires { id < length places.now }
    ensures { slice_get places.now id ≡ Some result }
{
    places[id as usize]
}

/// Notes a place of the id.
pub(crate) fn note(places: &mut Vec<usize>, id: u32, place: usize)
    requires { id < length (places.old).items }
    ensures { (places.new).items ≡ slice_set (places.old).items id place }
{
    let noted = &mut places[id as usize];
    *noted = place;
}

/// The place of the descriptor of the range at a place.
pub(crate) fn own_place(ranges: &[Slot], places: &[usize], lineage: &Lineage, at: usize) -> usize
    requires sound { IsSound ranges.now lineage.now places.now }
    requires within { at < length ranges.now }
    ensures { (r : Range) → slice_get ranges.now at ≡ Some r → slice_get places.now r.info.desc.id ≡ Some result }
{
    noted(places, id_of(range_at(ranges, at)))
}

/// A descriptor of the span between two keys.
fn desc_of(
    alloc: Global,
    id: u32,
    start: &Key,
    end: &Key,
    nodes: &Nodes,
    generation: u32,
) -> Result<RangeDesc, AllocError>
    requires { key_lt start.now end.now ≡ true }
    ensures { IfOk result (λ d. d ≡ record { id = id; span = record { start = start.now; end = end.now }; nodes = nodes.now; generation = generation }) }
{
    let span = Span {
        start: start.copy(alloc)?,
        end: end.copy(alloc)?,
    };
    Ok(RangeDesc {
        id,
        span,
        nodes: nodes.copy(alloc)?,
        generation,
    })
}

/// The descriptor of a range that moves to the nodes.
fn moved_desc(alloc: Global, range: &Slot, nodes: &Nodes) -> Result<RangeDesc, AllocError>
    requires { range.now.info.desc.generation < 4294967295 }
    ensures { IfOk result (λ d. d ≡ (with_nodes nodes.now range.now).info.desc) }
{
    let desc = &range.info().desc;
    Ok(RangeDesc {
        id: desc.id,
        span: desc.span.copy(alloc)?,
        nodes: nodes.copy(alloc)?,
        generation: desc.generation + 1,
    })
}

/// The descriptor of the part below the key.
fn left_desc(alloc: Global, range: &Slot, key: &Key) -> Result<RangeDesc, AllocError>
    requires above { key_lt (start_of range.now) key.now ≡ true }
    requires generation { range.now.info.desc.generation < 4294967295 }
    ensures { IfOk result (λ d. d ≡ (left_part key.now range.now).info.desc) }
{
    let desc = &range.info().desc;
    desc_of(
        alloc,
        desc.id,
        &desc.span.start,
        key,
        &desc.nodes,
        desc.generation + 1,
    )
}

/// The descriptor of the part from the key on, under a new id.
fn right_desc(alloc: Global, range: &Slot, key: &Key, id: u32) -> Result<RangeDesc, AllocError>
    requires below { key_lt key.now (end_of range.now) ≡ true }
    requires generation { range.now.info.desc.generation < 4294967295 }
    ensures { IfOk result (λ d. d ≡ (right_part id key.now range.now).info.desc) }
{
    let desc = &range.info().desc;
    desc_of(
        alloc,
        id,
        key,
        &desc.span.end,
        &desc.nodes,
        desc.generation + 1,
    )
}

/// The descriptor of two neighbours together.
fn joined_desc(alloc: Global, left: &Slot, right: &Slot) -> Result<RangeDesc, AllocError>
    requires span { key_lt (start_of left.now) (end_of right.now) ≡ true }
    requires can { can_join left.now right.now ≡ true }
    ensures { IfOk result (λ d. d ≡ (joined left.now right.now).info.desc) }
{
    let (desc, next) = (&left.info().desc, &right.info().desc);
    let generation = desc.generation.max(next.generation) + 1;
    desc_of(
        alloc,
        desc.id,
        &desc.span.start,
        &next.span.end,
        &desc.nodes,
        generation,
    )
}

/// Adds the descriptor of the range at the place, as it moves to the nodes. Want of memory changes
/// nothing.
pub(crate) fn follow_at(
    alloc: Global,
    ranges: &[Slot],
    place: usize,
    lineage: &mut Lineage,
    at: usize,
    nodes: &Nodes,
) -> Result<(), AllocError>
    requires within { at < length ranges.now }
    requires newest { (r : Range) → slice_get ranges.now at ≡ Some r → IsNewestAt lineage.old r.info.desc place }
    requires can { (r : Range) → slice_get ranges.now at ≡ Some r → can_move nodes.now r ≡ true }
    ensures ok { OnOk result ((r : Range) → slice_get ranges.now at ≡ Some r → lineage.new ≡ lineage.old ++ (with_nodes nodes.now r).info.desc ∷ []) }
    ensures err { OnErr result (lineage.new ≡ lineage.old) }
{
    let desc = moved_desc(alloc, range_at(ranges, at), nodes)?;
    lineage.follow(alloc, desc, place)?;
    Ok(())
}

/// The next range behind the place.
pub(crate) fn next_to(ranges: &[Slot], at: usize) -> &Slot
    requires { suc at < length ranges.now }
    ensures { slice_get ranges.now (suc at) ≡ Some result.now }
{
    &ranges[at + 1]
}

/// Adds the descriptors of both parts of the range at the place, where it is split at the key. Want of
/// memory changes nothing.
pub(crate) fn part_at(
    alloc: Global,
    ranges: &[Slot],
    place: usize,
    lineage: &mut Lineage,
    at: usize,
    key: &Key,
    id: u32,
) -> Result<(), AllocError>
    requires within { at < length ranges.now }
    requires newest { (r : Range) → slice_get ranges.now at ≡ Some r → IsNewestAt lineage.old r.info.desc place }
    requires above { (r : Range) → slice_get ranges.now at ≡ Some r → key_lt (start_of r) key.now ≡ true }
    requires below { (r : Range) → slice_get ranges.now at ≡ Some r → key_lt key.now (end_of r) ≡ true }
    requires generation { (r : Range) → slice_get ranges.now at ≡ Some r → r.info.desc.generation < 4294967295 }
    ensures ok { OnOk result ((r : Range) → slice_get ranges.now at ≡ Some r → lineage.new ≡ lineage.old ++ (left_part key.now r).info.desc ∷ (right_part id key.now r).info.desc ∷ []) }
    ensures err { OnErr result (lineage.new ≡ lineage.old) }
{
    let range = range_at(ranges, at);
    let left = left_desc(alloc, range, key)?;
    let right = right_desc(alloc, range, key, id)?;
    lineage.part(alloc, left, right, place)?;
    Ok(())
}

/// Adds the descriptor of the range at the place and the next one together. Want of memory changes
/// nothing.
pub(crate) fn join_at(
    alloc: Global,
    ranges: &[Slot],
    places: (usize, usize),
    lineage: &mut Lineage,
    at: usize,
) -> Result<(), AllocError>
    requires within { suc at < length ranges.now }
    requires newest { (r : Range) → slice_get ranges.now at ≡ Some r → IsNewestAt lineage.old r.info.desc places.0 }
    requires next { (s : Range) → slice_get ranges.now (suc at) ≡ Some s → IsNewestAt lineage.old s.info.desc places.1 }
    requires meet { (r s : Range) → slice_get ranges.now at ≡ Some r → slice_get ranges.now (suc at) ≡ Some s → end_of r ≡ start_of s }
    requires span { (r s : Range) → slice_get ranges.now at ≡ Some r → slice_get ranges.now (suc at) ≡ Some s → key_lt (start_of r) (end_of s) ≡ true }
    requires can { (r s : Range) → slice_get ranges.now at ≡ Some r → slice_get ranges.now (suc at) ≡ Some s → can_join r s ≡ true }
    ensures ok { OnOk result ((r s : Range) → slice_get ranges.now at ≡ Some r → slice_get ranges.now (suc at) ≡ Some s → lineage.new ≡ lineage.old ++ (joined r s).info.desc ∷ []) }
    ensures err { OnErr result (lineage.new ≡ lineage.old) }
{
    let desc = joined_desc(alloc, range_at(ranges, at), next_to(ranges, at))?;
    lineage.join(alloc, desc, places.0, places.1)?;
    Ok(())
}
