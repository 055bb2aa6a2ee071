//! A cluster in use.
ghost use Rattle.std.specs.Prelude.{◌<◌};
ghost use Rattle.ds_sim.specs.Made.{CanBeMade};

use crate::numbers::Numbers;
use ds_base::{Dir, Key, KeyFault};
use ds_desc::{Looked, Meta, Nodes};
use ds_ranges::{are_leased, tiles};
use ds_rule::{ClusterRange, Event};
use ds_sim::Sim;
use std::alloc::{AllocError, Global};

const MOST: u32 = 1 << 20;

const KEYS_EACH: u32 = 64;

fn key(alloc: Global, number: u32) -> Result<Key, AllocError> {
    match Key::new(alloc, &number.to_be_bytes()) {
        Ok(key) => Ok(key),
        Err(KeyFault::Memory(err)) => Err(err),
        Err(_) => Ok(Key::least(alloc)),
    }
}

fn begin(alloc: Global, count: u32) -> Result<Vec<ClusterRange>, AllocError> {
    let mut ranges = Vec::new(alloc);
    for i in 0..count {
        let start = if i == 0 {
            Key::least(alloc)
        } else {
            key(alloc, i.saturating_mul(KEYS_EACH))?
        };
        ranges.push(ClusterRange {
            start,
            nodes: Nodes::of(alloc, &[1, 2, 3]),
            lease: 1,
        })?;
    }
    Ok(ranges)
}

/// Makes the event; a number for it.
fn make(alloc: Global, sim: &mut Sim, event: Event) -> Result<u64, AllocError>
    requires { CanBeMade event }
{
    if sim.can_count() {
        sim.event(alloc, &event)?;
    }
    Ok(sim.count())
}

/// Looks the key up; a number for what was answered.
fn look(alloc: Global, sim: &mut Sim, key: &Key) -> Result<u64, AllocError> {
    if !key.is_below_bound() {
        return Ok(1);
    }
    match sim.lookup(alloc, key, Dir::Forward)? {
        Looked::Rows(infos) => match infos.get(0) {
            Some(info) => Ok(u64::from(info.desc.id)),
            None => Ok(2),
        },
        Looked::Lost => Ok(3),
    }
}

/// Arms an old descriptor of the key, which the lookup then uses up.
fn look_twice(alloc: Global, sim: &mut Sim, number: u32) -> Result<u64, AllocError> {
    let event = Event::Stale {
        key: key(alloc, number)?,
        back: 1,
    };
    make(alloc, sim, event)?;
    look(alloc, sim, &key(alloc, number)?)
}

/// One call: of eight, one each splits, merges, leases and moves, one arms an old descriptor that a lookup
/// then uses up, and three look up.
fn one_call(
    alloc: Global,
    sim: &mut Sim,
    numbers: &mut Numbers,
    keys: u32,
) -> Result<u64, AllocError>
    requires { 0 < keys }
{
    let at = numbers.below(keys);
    let key = key(alloc, at)?;
    match numbers.below(8) {
        0 => make(alloc, sim, Event::Split { key }),
        1 => make(alloc, sim, Event::Merge { key }),
        2 => make(alloc, sim, Event::Lease { key, node: 2 }),
        3 => make(
            alloc,
            sim,
            Event::Move {
                key,
                nodes: Nodes::of(alloc, &[1, 3, 2]),
            },
        ),
        4 => look_twice(alloc, sim, at),
        _ => look(alloc, sim, &key),
    }
}

/// Begins a cluster of so many ranges, at least 1 and at most 2^20, makes some calls of it, and gives a
/// number that depends on each answer.
pub(crate) fn cluster_calls(alloc: Global, count: u32, calls: u32) -> Result<u64, AllocError> {
    let count = count.max(1).min(MOST);
    let ranges = begin(alloc, count)?;
    if !tiles(ranges.as_slice()) || !are_leased(ranges.as_slice()) || ranges.len() > MOST as usize {
        return Ok(0);
    }
    let mut sim = Sim::new(alloc, ranges.as_slice())?;
    let mut numbers = Numbers::new();
    let mut sum = 0;
    for _ in 0..calls {
        let answer = one_call(alloc, &mut sim, &mut numbers, KEYS_EACH * count)?;
        sum = (sum % (1 << 32) * 31 + answer % (1 << 32)) % (1 << 32);
    }
    Ok(sum)
}
