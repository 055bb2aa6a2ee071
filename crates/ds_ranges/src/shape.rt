//! How ranges are split and merged, with their descriptors.
ghost use Rattle.std.specs.Prelude.{◌≡◌, ◌<◌, ◌++◌, ◌∷◌, [], suc, true, Some, length, vec_len, vec_capacity, OnOk, OnErr};
ghost use Rattle.std.specs.List.{insert, remove, slice_get, slice_set};
ghost use Rattle.ds_desc.specs.Descs.{greatest_id};
ghost use Rattle.ds_lineage.specs.Last.{IsNewestAt};
ghost use Rattle.ds_rule.specs.Shifts.{can_join, can_split, joined, left_part, right_part};
ghost use Rattle.ds_rule.specs.World.{Range, Tiles, holds_key};
ghost use Rattle.ds_ranges.specs.Places.{IsFirst};

use crate::descs::{join_at, note, part_at};
use crate::event::{merge_at, split_at};
use crate::slot::Slot;
use ds_base::Key;
use ds_lineage::Lineage;
use std::alloc::{AllocError, Global};

/// Whether the range can be split at the key, where `top` is the greatest id so far.
pub(crate) fn can_split(range: &Slot, key: &Key, top: u32) -> bool
    ensures { result ≡ can_split top key.now range.now }
{
    let desc = &range.info().desc;
    desc.span.start < *key && desc.generation < u32::MAX && top < u32::MAX
}

/// Whether the two can be merged.
pub(crate) fn can_join(left: &Slot, right: &Slot) -> bool
    ensures { result ≡ can_join left.now right.now }
{
    let generation = left.info().desc.generation;
    generation.max(right.info().desc.generation) < u32::MAX
}

/// Notes a place of the id, and one more of the next id. There is room for it.
pub(crate) fn note_two(places: &mut Vec<usize>, id: u32, first: usize, second: usize)
    requires within { id < length (places.old).items }
    requires room { vec_len places.old < vec_capacity places.old }
    ensures { (places.new).items ≡ slice_set (places.old).items id first ++ second ∷ [] }
{
    places.push_reserved(second);
    note(places, id, first);
}

/// Splits the range at the place in two, and adds the descriptors of both parts. Want of memory leaves
/// all as it was.
pub(crate) fn split_both(
    alloc: Global,
    ranges: &mut Vec<Slot>,
    lineage: &mut Lineage,
    place: usize,
    at: usize,
    key: &Key,
    id: u32,
) -> Result<(), AllocError>
    requires first { IsFirst (holds_key key.now) (ranges.old).items at }
    requires within { at < length (ranges.old).items }
    requires newest { (r : Range) → slice_get (ranges.old).items at ≡ Some r → IsNewestAt lineage.old r.info.desc place }
    requires can { (r : Range) → slice_get (ranges.old).items at ≡ Some r → can_split (greatest_id lineage.old) key.now r ≡ true }
    ensures ranges { OnOk result ((r : Range) → slice_get (ranges.old).items at ≡ Some r → (ranges.new).items ≡ insert (slice_set (ranges.old).items at (left_part key.now r)) (suc at) (right_part id key.now r)) }
    ensures descs { OnOk result ((r : Range) → slice_get (ranges.old).items at ≡ Some r → lineage.new ≡ lineage.old ++ (left_part key.now r).info.desc ∷ (right_part id key.now r).info.desc ∷ []) }
    ensures err { OnErr result ((ranges.new).items ≡ (ranges.old).items) }
    ensures err_descs { OnErr result (lineage.new ≡ lineage.old) }
{
    let (count, top) = (lineage.len(), lineage.greatest_id());
    part_at(alloc, ranges.as_slice(), place, lineage, at, key, id)?;
    match split_at(alloc, ranges, at, key, id) {
        Ok(()) => Ok(()),
        Err(err) => {
            lineage.take_back(count, top);
            Err(err)
        }
    }
}

/// Merges the range at the place with the next one, and adds the descriptor of both together. Want of
/// memory leaves all as it was.
pub(crate) fn merge_both(
    alloc: Global,
    ranges: &mut Vec<Slot>,
    lineage: &mut Lineage,
    places: (usize, usize),
    at: usize,
) -> Result<(), AllocError>
    requires tiled { Tiles [] (ranges.old).items }
    requires within { suc at < length (ranges.old).items }
    requires newest { (r : Range) → slice_get (ranges.old).items at ≡ Some r → IsNewestAt lineage.old r.info.desc places.0 }
    requires next { (s : Range) → slice_get (ranges.old).items (suc at) ≡ Some s → IsNewestAt lineage.old s.info.desc places.1 }
    requires can { (r s : Range) → slice_get (ranges.old).items at ≡ Some r → slice_get (ranges.old).items (suc at) ≡ Some s → can_join r s ≡ true }
    ensures ranges { OnOk result ((r s : Range) → slice_get (ranges.old).items at ≡ Some r → slice_get (ranges.old).items (suc at) ≡ Some s → (ranges.new).items ≡ slice_set (remove (ranges.old).items (suc at)) at (joined r s)) }
    ensures descs { OnOk result ((r s : Range) → slice_get (ranges.old).items at ≡ Some r → slice_get (ranges.old).items (suc at) ≡ Some s → lineage.new ≡ lineage.old ++ (joined r s).info.desc ∷ []) }
    ensures err { OnErr result ((ranges.new).items ≡ (ranges.old).items) }
    ensures err_descs { OnErr result (lineage.new ≡ lineage.old) }
{
    let (before, greatest) = (lineage.len(), lineage.greatest_id());
    join_at(alloc, ranges.as_slice(), places, lineage, at)?;
    match merge_at(alloc, ranges, at) {
        Ok(()) => Ok(()),
        Err(err) => {
            lineage.take_back(before, greatest);
            Err(err)
        }
    }
}
