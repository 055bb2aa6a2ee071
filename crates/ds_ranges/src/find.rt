//! Ranges found by a key, and by an id.
ghost use Rattle.std.specs.Prelude.{◌≡◌, ◌<◌, ◌≤◌, [], true, find, length, IfSome};
ghost use Rattle.std.specs.Option.{option_copied};
ghost use Rattle.std.specs.List.{slice_get};
ghost use Rattle.ds_base.specs.Order.{key_le, key_lt};
ghost use Rattle.ds_rule.specs.Pieces.{Each};
ghost use Rattle.ds_rule.specs.World.{Tiles, end_of, has_id, holds_key, start_of};
ghost use Rattle.ds_ranges.specs.Places.{IsFirstOf, IsPoint};
ghost use Rattle.ds_ranges.specs.Sound.{IsSound, noted_desc};

use crate::slot::Slot;
use ds_base::Key;
use ds_desc::RangeDesc;
use ds_lineage::Lineage;
use ds_range::RangeState;

/// How many ranges end at the key or below it: the one that holds the key stands there.
pub(crate) fn ended_by(ranges: &[Slot], key: &Key) -> usize
    requires { Tiles [] ranges.now }
    ensures within { result ≤ length ranges.now }
    ensures point { IsPoint (λ r. key_le (end_of r) key.now) ranges.now result }
{
    ranges.partition_point(|range| range.info().desc.span.end <= *key)
}

/// How many ranges start below the key: the last of them contains it in reverse.
pub(crate) fn begun_below(ranges: &[Slot], key: &Key) -> usize
    requires { Tiles [] ranges.now }
    ensures within { result ≤ length ranges.now }
    ensures point { IsPoint (λ r. key_lt (start_of r) key.now) ranges.now result }
{
    ranges.partition_point(|range| range.info().desc.span.start < *key)
}

/// Where the range that holds the key stands; none does at the bound.
pub(crate) fn place_of(ranges: &[Slot], key: &Key) -> Option<usize>
    requires { Tiles [] ranges.now }
    ensures place { IsFirstOf (holds_key key.now) ranges.now result }
    ensures within { IfSome result (λ i. i < length ranges.now) }
{
    let at = ended_by(ranges, key);
    if at < ranges.len() { Some(at) } else { None }
}

fn nth(ranges: &[Slot], at: usize) -> Option<&RangeState>
    ensures { option_copied result ≡ slice_get ranges.now at }
{
    match ranges.get(at) {
        Some(slot) => Some(slot.range()),
        None => None,
    }
}

/// The range that holds the key.
pub(crate) fn find_key<'a>(ranges: &'a [Slot], key: &Key) -> Option<&'a RangeState>
    requires { Tiles [] ranges.now }
    ensures { option_copied result ≡ find (holds_key key.now) ranges.now }
{
    match place_of(ranges, key) {
        Some(at) => nth(ranges, at),
        None => None,
    }
}

/// The descriptor that is noted of an id.
fn noted_desc<'a>(places: &[usize], lineage: &'a Lineage, id: u32) -> Option<&'a RangeDesc>
    ensures { option_copied result ≡ noted_desc id places.now lineage.now }
{
    match places.get(id as usize) {
        Some(place) => lineage.get(*place),
        None => None,
    }
}

fn start_of(desc: &RangeDesc) -> &Key
    ensures { result.now ≡ desc.now.span.start }
{
    &desc.span.start
}

fn has_id(range: &Slot, id: u32) -> bool
    ensures { result ≡ has_id id range.now }
{
    range.info().desc.id == id
}

/// Where the range with the id stands, which holds this key if there is one.
fn place_from(ranges: &[Slot], key: &Key, id: u32) -> Option<usize>
    requires tiled { Tiles [] ranges.now }
    requires over { Each (λ r. has_id id r ≡ true → holds_key key.now r ≡ true) ranges.now }
    ensures place { IsFirstOf (has_id id) ranges.now result }
    ensures within { IfSome result (λ i. i < length ranges.now) }
{
    match place_of(ranges, key) {
        Some(at) => {
            if has_id(&ranges[at], id) {
                Some(at)
            } else {
                None
            }
        }
        None => None,
    }
}

/// Where the range with the id stands.
pub(crate) fn place_with(
    ranges: &[Slot],
    places: &[usize],
    lineage: &Lineage,
    id: u32,
) -> Option<usize>
    requires { IsSound ranges.now lineage.now places.now }
    ensures place { IsFirstOf (has_id id) ranges.now result }
    ensures within { IfSome result (λ i. i < length ranges.now) }
{
    match noted_desc(places, lineage, id) {
        Some(desc) => place_from(ranges, start_of(desc), id),
        None => None,
    }
}

/// The range with the id.
pub(crate) fn find_id<'a>(
    ranges: &'a [Slot],
    places: &[usize],
    lineage: &Lineage,
    id: u32,
) -> Option<&'a RangeState>
    requires { IsSound ranges.now lineage.now places.now }
    ensures { option_copied result ≡ find (has_id id) ranges.now }
{
    match place_with(ranges, places, lineage, id) {
        Some(at) => nth(ranges, at),
        None => None,
    }
}
