//! Lists whose items are read one by one.
ghost use Rattle.std.specs.Prelude.{◌≡◌, option_map};
ghost use Rattle.serde_json.specs.View.{view, items_view};
ghost use Rattle.ds_desc.specs.Replicas.{no_twice, are_replicas};
ghost use Rattle.ds_fields.specs.Fault.{Gives, Reads};
ghost use Rattle.ds_fields.specs.Lists.{list_of, each, nodes_of};
ghost use Rattle.ds_fields.specs.Scalars.{number_of};

use crate::fault::{FaultKind, LineFault};
use crate::scalars::{byte_of, small_of};
use ds_base::ListOf;
use ds_desc::Nodes;
use serde_json::Value as Json;
use std::alloc::Global;

/// Reads one item of a list.
pub trait Reader {
    type Item;

    ghost use Rattle.std.specs.Prelude.{Option, Result};
    ghost use Rattle.serde_json.specs.Data.{Data};
    ghost use Rattle.ds_fields.specs.declared.fault.FaultKind.{FaultKind};

    // what an item is read as
    ghost reads: { Self → Data → Result (Option Self.Item) FaultKind };

    /// The item that the JSON stands for.
    fn read(&self, alloc: Global, json: &Json) -> Result<Option<Self::Item>, LineFault>
        ensures { Reads result (reads self.now (view json.now)) };
}

/// The items of a list, each as the reader reads it; `Ok(None)` where one of them is that.
#[tactic(auto, unfolding(crate::specs::Lists::list_of))]
pub fn list_of<R: Reader>(
    alloc: Global,
    reader: &R,
    json: &Json,
) -> Result<Option<ListOf<R::Item>>, LineFault>
where
    R::Item: Drop,
    ensures { Reads result (list_of (R.reads reader.now) (view json.now)) }
{
    match json.as_array() {
        Some(items) => match each(alloc, reader, items)? {
            Some(found) => Ok(Some(ListOf::from_vec(found))),
            None => Ok(None),
        },
        None => Err(LineFault::Bad(FaultKind::Shape)),
    }
}

fn each<R: Reader>(
    alloc: Global,
    reader: &R,
    items: &[Json],
) -> Result<Option<Vec<R::Item>>, LineFault>
where
    R::Item: Drop,
    ensures { Gives (λ o. option_map (λ v. v.items) o) result (each (R.reads reader.now) (items_view items.now)) }
{
    let mut found = Vec::new(alloc);
    let mut fits = true;
    for item in items {
        match reader.read(alloc, item)? {
            Some(one) => found.push(one)?,
            None => fits = false,
        }
    }
    Ok(fits.then_some(found))
}

#[derive(Drop)]
struct SmallReader;

impl Reader for SmallReader {
    type Item = u32;

    ghost reads = { λ _ d. number_of 32 d };

    fn read(&self, _alloc: Global, json: &Json) -> Result<Option<u32>, LineFault> {
        small_of(json)
    }
}

#[derive(Drop)]
struct ByteReader;

impl Reader for ByteReader {
    type Item = u8;

    ghost reads = { λ _ d. number_of 8 d };

    fn read(&self, _alloc: Global, json: &Json) -> Result<Option<u8>, LineFault> {
        byte_of(json)
    }
}

/// The numbers of a list.
pub fn small_list_of(alloc: Global, json: &Json) -> Result<Option<ListOf<u32>>, LineFault>
    ensures { Reads result (list_of (number_of 32) (view json.now)) }
{
    list_of(alloc, &SmallReader, json)
}

/// The nodes of a list; `Ok(None)` where it isn't one to seven nodes, none twice.
#[tactic(auto, unfolding(crate::specs::Lists::nodes_of))]
pub fn nodes_of(alloc: Global, json: &Json) -> Result<Option<Nodes>, LineFault>
    ensures { Reads result (nodes_of (view json.now)) }
{
    match list_of(alloc, &ByteReader, json)? {
        Some(nodes) if are_replicas(nodes.as_slice()) => {
            Ok(Some(Nodes::of(alloc, nodes.as_slice())))
        }
        Some(_) => Ok(None),
        None => Ok(None),
    }
}

fn are_replicas(nodes: &[u8]) -> bool
    ensures { result ≡ are_replicas nodes.now }
{
    1 <= nodes.len() && nodes.len() <= 7 && no_twice(nodes)
}

fn no_twice(nodes: &[u8]) -> bool
    ensures { result ≡ no_twice nodes.now }
{
    let mut rest = nodes;
    while let Some((first, others)) = rest.split_first() {
        if others.contains(first) {
            return false;
        }
        rest = others;
    }
    true
}
