//! What foreign writes, leases, moves, splits and merges make of the list of ranges.
ghost use Rattle.std.specs.Prelude.{◌≡◌, ◌<◌, ◌≤◌, suc, true, Some, cond, length, vec_len, vec_capacity, OnOk, OnErr};
ghost use Rattle.std.specs.List.{insert, remove, slice_get, slice_set};
ghost use Rattle.ds_base.specs.Order.{key_lt};
ghost use Rattle.ds_kind.specs.Asks.{has_room};
ghost use Rattle.ds_cell.specs.Change.{after_foreign};
ghost use Rattle.ds_cell.specs.Store.{put_cell};
ghost use Rattle.ds_rule.specs.Shifts.{can_join, can_lease, can_move, joined, left_part, right_part, with_lease, with_nodes};
ghost use Rattle.ds_rule.specs.World.{Fits, Range, end_of, start_of};

use crate::slot::Slot;
use ds_base::{Key, Stamp, Value};
use ds_desc::Nodes;
use std::alloc::{AllocError, Global};

/// A write of another client at the range at the place. Want of memory leaves all as it was.
pub(crate) fn write_at(
    alloc: Global,
    ranges: &mut Vec<Slot>,
    at: usize,
    key: &Key,
    stamp: Stamp,
    value: Option<Value>,
) -> Result<(), AllocError>
    requires within { at < length (ranges.old).items }
    requires room { has_room key.now ≡ true }
    ensures ok { OnOk result ((r : Range) → slice_get (ranges.old).items at ≡ Some r → (ranges.new).items ≡ slice_set (ranges.old).items at (record r { cells = put_cell key.now (after_foreign (record { stamp = stamp; value = value })) r.cells })) }
    ensures err { OnErr result ((ranges.new).items ≡ (ranges.old).items) }
{
    let range = &mut ranges[at];
    range.foreign(alloc, key, stamp, value)?;
    Ok(())
}

/// The range at the place gives its lease to the node, where it can.
pub(crate) fn lease_at(ranges: &mut Vec<Slot>, at: usize, node: u8)
    requires { at < length (ranges.old).items }
    ensures { (r : Range) → slice_get (ranges.old).items at ≡ Some r → (ranges.new).items ≡ slice_set (ranges.old).items at (cond (can_lease node r) (with_lease node r) r) }
{
    let range = &mut ranges[at];
    range.give_lease(node);
}

/// The range at the place moves to the nodes.
pub(crate) fn move_at(ranges: &mut Vec<Slot>, at: usize, nodes: Nodes)
    requires within { at < length (ranges.old).items }
    requires can { (r : Range) → slice_get (ranges.old).items at ≡ Some r → can_move nodes r ≡ true }
    ensures { (r : Range) → slice_get (ranges.old).items at ≡ Some r → (ranges.new).items ≡ slice_set (ranges.old).items at (with_nodes nodes r) }
{
    let range = &mut ranges[at];
    range.move_to(nodes);
}

/// Puts a range in at the place. There is room for it.
fn put_in(ranges: &mut Vec<Slot>, at: usize, range: Slot)
    requires room { vec_len ranges.old < vec_capacity ranges.old }
    requires within { at ≤ vec_len ranges.old }
    ensures { (ranges.new).items ≡ insert (ranges.old).items at range }
{
    let _ = ranges.insert(at, range);
}

/// Splits the range at the place in two. Want of memory leaves all as it was.
pub(crate) fn split_at(
    alloc: Global,
    ranges: &mut Vec<Slot>,
    at: usize,
    key: &Key,
    id: u32,
) -> Result<(), AllocError>
    requires within { at < length (ranges.old).items }
    requires above { (r : Range) → slice_get (ranges.old).items at ≡ Some r → key_lt (start_of r) key.now ≡ true }
    requires below { (r : Range) → slice_get (ranges.old).items at ≡ Some r → key_lt key.now (end_of r) ≡ true }
    requires generation { (r : Range) → slice_get (ranges.old).items at ≡ Some r → r.info.desc.generation < 4294967295 }
    ensures ok { OnOk result ((r : Range) → slice_get (ranges.old).items at ≡ Some r → (ranges.new).items ≡ insert (slice_set (ranges.old).items at (left_part key.now r)) (suc at) (right_part id key.now r)) }
    ensures err { OnErr result ((ranges.new).items ≡ (ranges.old).items) }
{
    ranges.reserve(1)?;
    let range = &mut ranges[at];
    let right = range.split(alloc, key, id)?;
    put_in(ranges, at + 1, right);
    Ok(())
}

/// Merges the range at the place with the next one. Want of memory leaves all as it was.
pub(crate) fn merge_at(alloc: Global, ranges: &mut Vec<Slot>, at: usize) -> Result<(), AllocError>
    requires within { suc at < length (ranges.old).items }
    requires fits { (r : Range) → slice_get (ranges.old).items at ≡ Some r → Fits (start_of r) r }
    requires next { (r s : Range) → slice_get (ranges.old).items at ≡ Some r → slice_get (ranges.old).items (suc at) ≡ Some s → Fits (end_of r) s }
    requires can { (r s : Range) → slice_get (ranges.old).items at ≡ Some r → slice_get (ranges.old).items (suc at) ≡ Some s → can_join r s ≡ true }
    ensures ok { OnOk result ((r s : Range) → slice_get (ranges.old).items at ≡ Some r → slice_get (ranges.old).items (suc at) ≡ Some s → (ranges.new).items ≡ slice_set (remove (ranges.old).items (suc at)) at (joined r s)) }
    ensures err { OnErr result ((ranges.new).items ≡ (ranges.old).items) }
{
    let right = ranges.remove(at + 1);
    let left = &mut ranges[at];
    match left.merge(alloc, right) {
        Ok(()) => Ok(()),
        Err(right) => {
            put_in(ranges, at + 1, right);
            Err(AllocError)
        }
    }
}
