//! What happens to the cluster beside the steps of a batch.
ghost use Rattle.std.specs.Prelude.{◌≡◌, ◌+◌, ◌<◌, ◌-◌, ◌^◌, List, ℕ, true, length, OnOk, OnErr};
ghost use Rattle.ds_kind.specs.Asks.{has_room};
ghost use Rattle.ds_rule.specs.Moves.{effect, moved};
ghost use Rattle.ds_rule.specs.Shifts.{foreign_at, move_to, stale_by};
ghost use Rattle.ds_rule.specs.declared.record.TxnRecord.{TxnRecord};
ghost use Rattle.ds_ranges.specs.Layout.{Became};
ghost use Rattle.ds_sim.specs.Made.{CanBeMade};
ghost use Rattle.ds_sim.specs.State.{state_of, world_of};

use crate::records::end_last;
use crate::sim::Sim;
use ds_base::{Copies, Key, Stamp, Value};
use ds_desc::{Nodes, RangeDesc};
use ds_ranges::Ranges;
use ds_rule::{Event, Records};
use std::alloc::{AllocError, Global};

/// A write of another client, of a copy of the value, at a key with room for one more byte. Want of memory
/// changes nothing.
fn write_copy(
    alloc: Global,
    ranges: &mut Ranges,
    key: &Key,
    stamp: Stamp,
    value: &Option<Value>,
) -> Result<(), AllocError>
    requires { has_room key.now ≡ true }
    ensures ok { OnOk result (Became (foreign_at key.now (record { stamp = stamp; value = value.now })) ranges.old ranges.new) }
    ensures err { OnErr result (ranges.new ≡ ranges.old) }
{
    let copy = value.copy(alloc)?;
    ranges.write(alloc, key, stamp, copy)
}

/// The range that holds the key moves to a copy of the nodes. Want of memory changes nothing.
fn place_copy(
    alloc: Global,
    ranges: &mut Ranges,
    key: &Key,
    nodes: &Nodes,
) -> Result<(), AllocError>
    ensures ok { OnOk result (Became (move_to key.now nodes.now) ranges.old ranges.new) }
    ensures err { OnErr result (ranges.new ≡ ranges.old) }
{
    let copy = nodes.copy(alloc)?;
    ranges.place(alloc, key, copy)
}

/// Arms the descriptor of the key that stands `back` before the newest, if there is one. Want of memory
/// arms nothing.
fn arm(
    alloc: Global,
    ranges: &Ranges,
    armed: &mut Vec<RangeDesc>,
    key: &Key,
    back: u32,
) -> Result<(), AllocError>
    ensures ok { OnOk result ((ts : List TxnRecord) (n : ℕ) → world_of ranges.now (armed.new).items ts n ≡ stale_by key.now back (world_of ranges.now (armed.old).items ts n)) }
    ensures err { OnErr result ((armed.new).items ≡ (armed.old).items) }
{
    match ranges.stale(key, back) {
        Some(old) => {
            let copy = old.copy(alloc)?;
            armed.push(copy)?;
            Ok(())
        }
        None => Ok(()),
    }
}

/// Makes the event. No copy of a piece is ever under way here, so that none arrives; and what names a
/// step does nothing by itself. Want of memory changes nothing.
pub(crate) fn make(
    alloc: Global,
    ranges: &mut Ranges,
    armed: &mut Vec<RangeDesc>,
    records: &mut Records,
    event: &Event,
) -> Result<(), AllocError>
    requires { CanBeMade event.now }
    ensures ok { OnOk result ((n : ℕ) → world_of ranges.new (armed.new).items records.new n ≡ effect event.now (world_of ranges.old (armed.old).items records.old n)) }
    ensures err_ranges { OnErr result (ranges.new ≡ ranges.old) }
    ensures err_armed { OnErr result ((armed.new).items ≡ (armed.old).items) }
    ensures err_records { OnErr result (records.new ≡ records.old) }
{
    match event {
        Event::Write { key, stamp, value } => write_copy(alloc, ranges, key, *stamp, value)?,
        Event::Split { key } => ranges.split(alloc, key)?,
        Event::Merge { key } => ranges.merge(alloc, key)?,
        Event::Lease { key, node } => ranges.lease(key, *node),
        Event::Move { key, nodes } => place_copy(alloc, ranges, key, nodes)?,
        Event::Stale { key, back } => arm(alloc, ranges, armed, key, *back)?,
        Event::Abort => end_last(records),
        Event::Arrive { .. }
        | Event::LoseRequest { .. }
        | Event::LoseReply { .. }
        | Event::Copy { .. }
        | Event::Restart { .. } => {}
    }
    Ok(())
}

impl Sim {
    /// Makes one event of the cluster's own; a write must be at a key with room for one more byte. One that
    /// names a step, as a loss or a copy does, changes nothing here and is not counted. Want of memory leaves
    /// all as it was.
    pub fn event(&mut self, alloc: Global, event: &Event) -> Result<(), AllocError>
        requires few { (state_of self.old).world.count + length (state_of self.old).block < 2 ^ 64 - 1 }
        requires made { CanBeMade event.now }
        ensures ok { OnOk result (state_of self.new ≡ record (state_of self.old) { world = moved (state_of self.old).world event.now }) }
        ensures err { OnErr result (state_of self.new ≡ state_of self.old) }
    {
        make(
            alloc,
            &mut self.ranges,
            &mut self.armed,
            &mut self.records,
            event,
        )?;
        self.block.count_event(event);
        Ok(())
    }
}
