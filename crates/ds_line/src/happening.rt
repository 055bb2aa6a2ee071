//! What can happen on a line of its own, and as an event beside a batch.
ghost use Rattle.std.specs.Prelude.{◌≡◌, map};
ghost use Rattle.serde_json.specs.View.{view};
ghost use Rattle.ds_fields.specs.Fault.{Reads, map3};
ghost use Rattle.ds_line.specs.Happenings.{lone_key_of, lone_copy_of, happening_of, write_of, split_of, merge_of, lease_of, move_of, stale_of, abort_of, arrive_of, write_at};

use ds_base::{Key, Stamp, Value};
use ds_fields::{
    FaultKind, LineFault, byte_of, has_only, key_of, member, nodes_of, small_of, value_or_null_of,
    whole_of,
};
use ds_rule::Event;
use serde_json::Value as Json;
use std::alloc::Global;

/// What the object with this `op` says happens, where it can happen on a line of its own too;
/// `common` names the members that every object of its place may have.
#[tactic(auto, unfolding(crate::specs::Happenings::happening_of))]
pub fn happening_of(
    alloc: Global,
    json: &Json,
    common: &[&str],
    op: &str,
) -> Result<Option<Event>, LineFault>
    ensures { Reads result (happening_of (map (λ n. n.now) common.now) op.now (view json.now)) }
{
    match op {
        "write" => write_of(alloc, json, common),
        "split" => split_of(alloc, json, common),
        "merge" => merge_of(alloc, json, common),
        "lease" => lease_of(alloc, json, common),
        "move" => move_of(alloc, json, common),
        "stale" => stale_of(alloc, json, common),
        "abort" => abort_of(json, common),
        "arrive" => arrive_of(json, common),
        _ => Err(LineFault::Bad(FaultKind::Shape)),
    }
}

/// The key of an object that has nothing else.
#[tactic(auto, unfolding(crate::specs::Happenings::lone_key_of))]
fn lone_key_of(alloc: Global, json: &Json, common: &[&str]) -> Result<Option<Key>, LineFault>
    ensures { Reads result (lone_key_of (map (λ n. n.now) common.now) (view json.now)) }
{
    if !has_only(json, common, &["key"]) {
        return Err(LineFault::Bad(FaultKind::Shape));
    }
    key_of(alloc, member(json, "key")?)
}

/// The number of a copy, of an object that has nothing else.
#[tactic(auto, unfolding(crate::specs::Happenings::lone_copy_of))]
pub(crate) fn lone_copy_of(json: &Json, common: &[&str]) -> Result<Option<u32>, LineFault>
    ensures { Reads result (lone_copy_of (map (λ n. n.now) common.now) (view json.now)) }
{
    if !has_only(json, common, &["copy"]) {
        return Err(LineFault::Bad(FaultKind::Shape));
    }
    small_of(member(json, "copy")?)
}

#[tactic(auto, unfolding(crate::specs::Happenings::write_of))]
fn write_of(alloc: Global, json: &Json, common: &[&str]) -> Result<Option<Event>, LineFault>
    ensures { Reads result (write_of (map (λ n. n.now) common.now) (view json.now)) }
{
    if !has_only(json, common, &["key", "stamp", "value"]) {
        return Err(LineFault::Bad(FaultKind::Shape));
    }
    let stamp = whole_of(member(json, "stamp")?)?;
    let key = key_of(alloc, member(json, "key")?)?;
    let value = value_or_null_of(alloc, member(json, "value")?)?;
    Ok(write_at(key, stamp, value))
}

/// The write of these, where each is within what its type can hold.
fn write_at(key: Option<Key>, stamp: Option<u64>, value: Option<Option<Value>>) -> Option<Event>
    ensures { result ≡ map3 write_at key stamp value }
{
    match (key, stamp, value) {
        (Some(key), Some(stamp), Some(value)) => Some(Event::Write {
            key,
            stamp: Stamp(stamp),
            value,
        }),
        _ => None,
    }
}

#[tactic(auto, unfolding(crate::specs::Happenings::split_of))]
fn split_of(alloc: Global, json: &Json, common: &[&str]) -> Result<Option<Event>, LineFault>
    ensures { Reads result (split_of (map (λ n. n.now) common.now) (view json.now)) }
{
    match lone_key_of(alloc, json, common)? {
        Some(key) => Ok(Some(Event::Split { key })),
        None => Ok(None),
    }
}

#[tactic(auto, unfolding(crate::specs::Happenings::merge_of))]
fn merge_of(alloc: Global, json: &Json, common: &[&str]) -> Result<Option<Event>, LineFault>
    ensures { Reads result (merge_of (map (λ n. n.now) common.now) (view json.now)) }
{
    match lone_key_of(alloc, json, common)? {
        Some(key) => Ok(Some(Event::Merge { key })),
        None => Ok(None),
    }
}

#[tactic(auto, unfolding(crate::specs::Happenings::lease_of))]
fn lease_of(alloc: Global, json: &Json, common: &[&str]) -> Result<Option<Event>, LineFault>
    ensures { Reads result (lease_of (map (λ n. n.now) common.now) (view json.now)) }
{
    if !has_only(json, common, &["key", "node"]) {
        return Err(LineFault::Bad(FaultKind::Shape));
    }
    let node = byte_of(member(json, "node")?)?;
    let key = key_of(alloc, member(json, "key")?)?;
    match (key, node) {
        (Some(key), Some(node)) => Ok(Some(Event::Lease { key, node })),
        _ => Ok(None),
    }
}

#[tactic(auto, unfolding(crate::specs::Happenings::move_of))]
fn move_of(alloc: Global, json: &Json, common: &[&str]) -> Result<Option<Event>, LineFault>
    ensures { Reads result (move_of (map (λ n. n.now) common.now) (view json.now)) }
{
    if !has_only(json, common, &["key", "nodes"]) {
        return Err(LineFault::Bad(FaultKind::Shape));
    }
    let nodes = nodes_of(alloc, member(json, "nodes")?)?;
    let key = key_of(alloc, member(json, "key")?)?;
    match (key, nodes) {
        (Some(key), Some(nodes)) => Ok(Some(Event::Move { key, nodes })),
        _ => Ok(None),
    }
}

#[tactic(auto, unfolding(crate::specs::Happenings::stale_of))]
fn stale_of(alloc: Global, json: &Json, common: &[&str]) -> Result<Option<Event>, LineFault>
    ensures { Reads result (stale_of (map (λ n. n.now) common.now) (view json.now)) }
{
    if !has_only(json, common, &["key", "back"]) {
        return Err(LineFault::Bad(FaultKind::Shape));
    }
    let back = small_of(member(json, "back")?)?;
    let key = key_of(alloc, member(json, "key")?)?;
    match (key, back) {
        (Some(key), Some(back)) => Ok(Some(Event::Stale { key, back })),
        _ => Ok(None),
    }
}

#[tactic(auto, unfolding(crate::specs::Happenings::abort_of))]
fn abort_of(json: &Json, common: &[&str]) -> Result<Option<Event>, LineFault>
    ensures { Reads result (abort_of (map (λ n. n.now) common.now) (view json.now)) }
{
    if !has_only(json, common, &[]) {
        return Err(LineFault::Bad(FaultKind::Shape));
    }
    Ok(Some(Event::Abort))
}

#[tactic(auto, unfolding(crate::specs::Happenings::arrive_of))]
fn arrive_of(json: &Json, common: &[&str]) -> Result<Option<Event>, LineFault>
    ensures { Reads result (arrive_of (map (λ n. n.now) common.now) (view json.now)) }
{
    match lone_copy_of(json, common)? {
        Some(copy) => Ok(Some(Event::Arrive { copy })),
        None => Ok(None),
    }
}
