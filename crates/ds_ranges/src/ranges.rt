//! The ranges of a cluster.
ghost use Rattle.std.specs.Prelude.{◌≡◌, ◌<◌, ◌-◌, ◌^◌, true, length, find, None, IfOk, OnOk, OnErr};
ghost use Rattle.std.specs.Option.{option_copied};
ghost use Rattle.std.specs.List.{list_all};
ghost use Rattle.ds_kind.specs.Asks.{has_room};
ghost use Rattle.ds_rule.specs.Begin.{first_world, is_leased, tiles};
ghost use Rattle.ds_desc.specs.Descs.{back_from, containing};
ghost use Rattle.ds_rule.specs.Keeping.{Keeps};
ghost use Rattle.ds_rule.specs.Shifts.{foreign_at, lease_to, merge_at, move_to, split_at};
ghost use Rattle.ds_rule.specs.World.{World, has_id, holds_key, rows_at};
ghost use Rattle.ds_ranges.specs.Layout.{Became, laid, layout_of};

use crate::begin::{first_lineage, first_places, first_ranges};
use crate::descs::{follow_at, id_of, next_to, note, own_place, range_at};
use crate::event::{lease_at, move_at, write_at};
use crate::find::{find_id, find_key, place_of};
use crate::rows::{ahead, first_rows};
use crate::shape::{can_join, can_split, merge_both, note_two, split_both};
use crate::slot::Slot;
use ds_base::{Dir, Key, Stamp, Value};
use ds_desc::{Infos, Nodes, RangeDesc};
use ds_lineage::Lineage;
use ds_range::RangeState;
use ds_rule::ClusterRange;
use std::alloc::{AllocError, Global};
use std::marker::Model;

/// The ranges of a cluster, which tile the keys, with all descriptors so far. A contract sees the
/// two lists.
#[derive(Drop)]
pub struct Ranges {
    pub(crate) items: Vec<Slot>,
    // Under each id the place of the range's descriptor in the lineage. No range has the id 0.
    pub(crate) places: Vec<usize>,
    pub(crate) lineage: Lineage,
}

impl Model for Ranges {
    ghost use Rattle.ds_ranges.specs.Layout.{Layout, layout};
    ghost use Rattle.ds_ranges.specs.Sound.{IsSound};

    ghost Value = { Layout };

    ghost view = { λ r. layout r.items.items r.lineage };

    ghost invariant = { λ r. IsSound r.items.items r.lineage r.places.items };
}

impl Ranges {
    /// The ranges as the cluster begins, with ids from 1.
    pub fn begin(alloc: Global, ranges: &[ClusterRange]) -> Result<Ranges, AllocError>
        requires tiled { tiles ranges.now ≡ true }
        requires leased { list_all is_leased ranges.now ≡ true }
        requires few { length ranges.now < 2 ^ 32 - 1 }
        ensures { IfOk result (λ r. r ≡ layout_of (first_world ranges.now)) }
    {
        let items = first_ranges(alloc, ranges)?;
        let lineage = first_lineage(alloc, items.as_slice())?;
        let places = first_places(alloc, items.len())?;
        Ok(Ranges {
            items,
            places,
            lineage,
        })
    }

    /// How many ranges there are.
    pub fn len(&self) -> usize
        ensures { result ≡ length self.now.ranges }
    {
        self.items.len()
    }

    /// Does nothing: its clause tells what every cluster's ranges keep.
    pub fn known(&self)
        ensures { (w : World) → Keeps (laid self.now w) }
    {
        let _ = &self.items;
    }

    /// The range that holds the key: none exactly at the bound.
    pub fn of_key(&self, key: &Key) -> Option<&RangeState>
        ensures { option_copied result ≡ find (holds_key key.now) self.now.ranges }
    {
        find_key(self.items.as_slice(), key)
    }

    /// The range with the id.
    pub fn get(&self, id: u32) -> Option<&RangeState>
        ensures { option_copied result ≡ find (has_id id) self.now.ranges }
    {
        let ranges = self.items.as_slice();
        find_id(ranges, self.places.as_slice(), &self.lineage, id)
    }

    /// The row of the range that contains the key, and up to eight that follow it in the direction. There
    /// is none exactly where no key lies ahead: forward from the bound, and in reverse from the least key.
    pub fn rows(&self, alloc: Global, key: &Key, dir: Dir) -> Result<Infos, AllocError>
        ensures { IfOk result (λ is. (w : World) → is ≡ rows_at dir key.now (laid self.now w) None) }
    {
        first_rows(alloc, ahead(self.items.as_slice(), key, dir), dir, 9)
    }

    /// A write of another client, at the range that holds the key, which must have room for one more byte.
    /// Want of memory leaves all as it was.
    pub fn write(
        &mut self,
        alloc: Global,
        key: &Key,
        stamp: Stamp,
        value: Option<Value>,
    ) -> Result<(), AllocError>
        requires { has_room key.now ≡ true }
        ensures ok { OnOk result (Became (foreign_at key.now (record { stamp = stamp; value = value })) self.old self.new) }
        ensures err { OnErr result (self.new ≡ self.old) }
    {
        match place_of(self.items.as_slice(), key) {
            Some(at) => {
                write_at(alloc, &mut self.items, at, key, stamp, value)?;
                Ok(())
            }
            None => Ok(()),
        }
    }

    /// The range that holds the key gives its lease to the node, where that is a replica that doesn't
    /// hold it, and the lease's number can rise. It takes no memory.
    pub fn lease(&mut self, key: &Key, node: u8)
        ensures { Became (lease_to key.now node) self.old self.new }
    {
        match place_of(self.items.as_slice(), key) {
            Some(at) => lease_at(&mut self.items, at, node),
            None => {}
        }
    }

    /// The range that holds the key moves to these nodes, where they are others, or the same in another
    /// order, and its generation can rise. The lease stays with its holder where that is among them; else
    /// the first of them has it. Want of memory leaves all as it was.
    pub fn place(&mut self, alloc: Global, key: &Key, nodes: Nodes) -> Result<(), AllocError>
        ensures ok { OnOk result (Became (move_to key.now nodes) self.old self.new) }
        ensures err { OnErr result (self.new ≡ self.old) }
    {
        nodes.len();
        match place_of(self.items.as_slice(), key) {
            Some(at) => {
                let range = range_at(self.items.as_slice(), at);
                if !range.can_move(&nodes) {
                    return Ok(());
                }
                let id = id_of(range);
                let (ranges, places) = (self.items.as_slice(), self.places.as_slice());
                let place = own_place(ranges, places, &self.lineage, at);
                let count = self.lineage.len();
                follow_at(alloc, ranges, place, &mut self.lineage, at, &nodes)?;
                move_at(&mut self.items, at, nodes);
                note(&mut self.places, id, count);
                Ok(())
            }
            None => Ok(()),
        }
    }

    /// The range that holds the key is split at it: both parts have the replicas, the lease and the next
    /// generation, and the right one a new id. Nothing changes where a range starts at the key, and where
    /// the generation or the id can't rise. Want of memory leaves all as it was.
    pub fn split(&mut self, alloc: Global, key: &Key) -> Result<(), AllocError>
        ensures ok { OnOk result (Became (split_at key.now) self.old self.new) }
        ensures err { OnErr result (self.new ≡ self.old) }
    {
        match place_of(self.items.as_slice(), key) {
            Some(at) => {
                let (ranges, places) = (self.items.as_slice(), self.places.as_slice());
                let range = range_at(ranges, at);
                let top = self.lineage.greatest_id();
                if !can_split(range, key, top) {
                    return Ok(());
                }
                let (id, next) = (id_of(range), top + 1);
                let place = own_place(ranges, places, &self.lineage, at);
                let count = self.lineage.len();
                self.places.reserve(1)?;
                split_both(
                    alloc,
                    &mut self.items,
                    &mut self.lineage,
                    place,
                    at,
                    key,
                    next,
                )?;
                let last = self.lineage.len() - 1;
                note_two(&mut self.places, id, count, last);
                Ok(())
            }
            None => Ok(()),
        }
    }

    /// The range that holds the key takes in its right neighbour: it keeps its id, its replicas and its
    /// lease, with a generation above both. Nothing changes where it is the last range, and where no
    /// generation is above both. Want of memory leaves all as it was.
    pub fn merge(&mut self, alloc: Global, key: &Key) -> Result<(), AllocError>
        ensures ok { OnOk result (Became (merge_at key.now) self.old self.new) }
        ensures err { OnErr result (self.new ≡ self.old) }
    {
        match place_of(self.items.as_slice(), key) {
            Some(at) => {
                let (ranges, places) = (self.items.as_slice(), self.places.as_slice());
                let next = at + 1;
                if next >= ranges.len() {
                    return Ok(());
                }
                let (left, right) = (range_at(ranges, at), next_to(ranges, at));
                if !can_join(left, right) {
                    return Ok(());
                }
                let id = id_of(left);
                let first = own_place(ranges, places, &self.lineage, at);
                let second = own_place(ranges, places, &self.lineage, next);
                let count = self.lineage.len();
                merge_both(
                    alloc,
                    &mut self.items,
                    &mut self.lineage,
                    (first, second),
                    at,
                )?;
                note(&mut self.places, id, count);
                Ok(())
            }
            None => Ok(()),
        }
    }

    /// Of the descriptors so far that contain the key, the one that stands `back` before the last; `None`
    /// where fewer contain it. It takes at most `back` steps and no memory.
    pub fn stale(&self, key: &Key, back: u32) -> Option<&RangeDesc>
        ensures { option_copied result ≡ back_from back (containing key.now self.now.descs) }
    {
        match place_of(self.items.as_slice(), key) {
            Some(at) => {
                let (ranges, places) = (self.items.as_slice(), self.places.as_slice());
                let place = own_place(ranges, places, &self.lineage, at);
                self.lineage.back(place, key, back)
            }
            None => None,
        }
    }
}
