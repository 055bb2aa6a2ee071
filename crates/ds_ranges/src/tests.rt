//! Each public call, on a cluster that begins with one range.
use crate::begin::{are_leased, tiles};
use crate::ranges::Ranges;
use ds_base::{Dir, Key, Stamp, Value};
use ds_desc::Nodes;
use ds_rule::ClusterRange;
use std::alloc::Global;
use std::test::Fail;

// All keys, at nodes 1 and 2.
fn whole(alloc: Global) -> ClusterRange {
    ClusterRange {
        start: Key::least(alloc),
        nodes: Nodes::of(alloc, &[1, 2]),
        lease: 1,
    }
}

fn key(alloc: Global) -> Result<Key, &'static str> {
    Key::new(alloc, b"m").map_err(|_| "a key")
}

// The node with the range's lease, 0 where there is no such range.
fn leased_to(ranges: &Ranges, id: u32) -> u8 {
    match ranges.get(id) {
        Some(range) => range.info().lease.node,
        None => 0,
    }
}

// The range that holds the key, 0 where none does.
fn holder(ranges: &Ranges, key: &Key) -> u32 {
    match ranges.of_key(key) {
        Some(range) => range.info().desc.id,
        None => 0,
    }
}

// The generation of the descriptor that stands so many before the last, 0 where there is none.
fn generation_back(ranges: &Ranges, key: &Key, back: u32) -> u32 {
    match ranges.stale(key, back) {
        Some(desc) => desc.generation,
        None => 0,
    }
}

#[test]
fn a_range_is_found_by_key_and_by_id(rt: HostRuntime) -> Result<(), Fail> {
    let alloc = rt.alloc();
    let first = [whole(alloc)];
    if tiles(&first) && are_leased(&first) {
        let ranges = Ranges::begin(alloc, &first)?;
        ranges.known();
        assert!(rt; holder(&ranges, &Key::least(alloc)) == 1);
        assert!(rt; holder(&ranges, &Key::bound(alloc)?) == 0);
        assert!(rt; leased_to(&ranges, 1) == 1);
    }
    Ok(())
}

#[test]
fn a_range_is_split_and_merged(rt: HostRuntime) -> Result<(), Fail> {
    let alloc = rt.alloc();
    let first = [whole(alloc)];
    if tiles(&first) && are_leased(&first) {
        let mut ranges = Ranges::begin(alloc, &first)?;
        let middle = key(alloc)?;
        ranges.split(alloc, &middle)?;
        assert!(rt; holder(&ranges, &middle) == 2);
        assert!(rt; ranges.rows(alloc, &middle, Dir::Reverse)?.len() == 1);
        ranges.merge(alloc, &Key::least(alloc))?;
        assert!(rt; ranges.len() == 1);
    }
    Ok(())
}

#[test]
fn a_range_is_leased_and_moved(rt: HostRuntime) -> Result<(), Fail> {
    let alloc = rt.alloc();
    let first = [whole(alloc)];
    if tiles(&first) && are_leased(&first) {
        let mut ranges = Ranges::begin(alloc, &first)?;
        let least = Key::least(alloc);
        ranges.lease(&least, 2);
        assert!(rt; leased_to(&ranges, 1) == 2);
        ranges.place(alloc, &least, Nodes::of(alloc, &[3]))?;
        assert!(rt; leased_to(&ranges, 1) == 3);
        assert!(rt; generation_back(&ranges, &least, 1) == 1);
    }
    Ok(())
}

#[test]
fn a_foreign_write_goes_to_its_range(rt: HostRuntime) -> Result<(), Fail> {
    let alloc = rt.alloc();
    let first = [whole(alloc)];
    if tiles(&first) && are_leased(&first) {
        let mut ranges = Ranges::begin(alloc, &first)?;
        ranges.write(alloc, &Key::least(alloc), Stamp(1), Some(Value::Int(4)))?;
        assert!(rt; ranges.len() == 1);
    }
    Ok(())
}
